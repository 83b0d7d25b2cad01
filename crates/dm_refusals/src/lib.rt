//! What is refused of a project lies in one of its files (ISO/IEC 9899:2011, 5.1.1.2, 5.1.1.3).
#![tactic(auto)]

mod laws;

pub use laws::{
    commands_refuse_in_files, defines_of_projects_are_tokens, projects_are_refused_in_their_files,
};
