//! A function without a result behaves as if it returned what its expression gives, which is no value.
#![tactic(auto)]

mod examples;
mod laws;

pub use examples::a_dropped_value;
pub use laws::{dropped_values_refine, uncalled_functions_refine, unnamed_functions_never_run};
