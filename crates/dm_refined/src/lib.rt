//! What the edit of a macro's definition does to the program of a unit (ISO/IEC 9899:2011, 5.1.2.3): where the readings before and after it are
//! aligned, the new program refines the old one.
#![tactic(auto)]

mod laws;

pub use laws::{
    allowed_changes_refine, kept_readings_refine, kept_rules_give_arguments,
    readings_without_the_definition_refine, runs_are_of_expansions,
    unbroken_projects_keep_the_rules, unbroken_units_keep_the_rules,
};
