//! The command line: which words are good, and what they ask for.
#![tactic(auto)]

mod asked;
mod command;
mod laws;
mod number;
mod part;
mod plain;
mod reading;
mod testing;

pub use asked::{Request, RunWords, read_request};
pub use laws::one_request;
