//! The lines that say why a command gave no output, and how they are put.
#![tactic(auto)]

mod joining;
mod line;
pub mod manifest_faults;
mod put;
pub mod statuses;
mod stop;

pub use joining::append_all;
pub use line::{limit_line, manifest_line, read_fault_line, refusal_line, write_fault_line};
pub use put::put_line;
pub use stop::{explain_stop, name_by_number};
