//! The plan of a project's units: its report, its application to their files, and the summary of the plan of a generated project.
#![tactic(auto)]

mod apply;
mod explain;
mod generation;
mod laws;
mod planning;
mod prepared;
mod quiet;
mod ready;
mod report;
mod summary;
mod writing;

pub use apply::apply_command;
pub use generation::gen_command;
pub use laws::{complete_apply, complete_gen, complete_plan};
pub use prepared::Prepared;
pub use report::plan_command;
pub use writing::commit;
