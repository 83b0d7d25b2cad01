//! The run of a unit, from its main file and its input to what is put.
#![tactic(auto)]

mod explaining;
mod finish;
mod input;
mod laws;
mod reading;
mod run;

pub use input::NoInput;
pub use laws::complete_run;
pub use run::run_unit;
