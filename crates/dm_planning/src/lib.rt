//! The plan of a project: which of its macro definitions become declarations (ISO/IEC 9899:2011, 6.7, 6.9, 6.10.3), in which
//! order they are judged, which units are read again for each, and what the files are then.
#![tactic(auto)]

mod editing;
mod judging;
mod laws;
mod planning;

pub use dm_project::Steps;
pub use laws::{
    a_broken_rule_costs_no_reading, each_definition_has_one_outcome, edits_cost_readings,
    edits_stand_or_are_taken_back, other_files_stay,
};
pub use planning::plan;
