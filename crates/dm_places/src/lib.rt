//! Refusals lie in the files that they name (ISO/IEC 9899:2011, 5.1.1.2).
#![tactic(auto)]

mod examples;
mod laws;

pub use examples::refusal_of_absent_file;
pub use laws::{
    later_refusals_lie_in_files, new_names_are_normal, projects_are_refused_in_files,
    readings_are_refused_in_files, refusals_lie_in_files, tokens_lie_in_files,
};
