//! A unit's program means the same whatever numbers its types have: over two tables with the same structs it has the same runs.
#![tactic(auto)]

mod examples;
mod laws;

pub use examples::same_program_over_two_tables;
pub use laws::{same_structs_give_the_same_runs, same_structs_give_the_same_steps};
