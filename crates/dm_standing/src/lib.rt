//! Where the runs of a macro stand in a unit (ISO/IEC 9899:2011, 6.5.3.4, 6.6), and what is called in their place in the unit that is aligned
//! with it.
#![tactic(auto)]

mod examples;
mod laws;

pub use examples::a_run_may_be_a_call;
pub use laws::{arguments_stand, calls_are_evaluated, occurrences_stand};
