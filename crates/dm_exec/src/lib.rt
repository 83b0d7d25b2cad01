//! Runs of the abstract machine that `dm_meaning` defines (ISO/IEC 9899:2011, 5.1.2.3), a step at a time or so many steps in an
//! order.
#![tactic(auto)]

mod due;
mod examples;
mod laws;
mod order;
mod outcome;
mod run;
mod state;
mod steps;
mod taking;

pub use examples::orders_choose_as_their_generator_says;
pub use laws::shown_states_step;
pub use order::Choices;
pub use outcome::Outcome;
pub use run::run_for;
pub use state::State;
pub use steps::{start, step};
