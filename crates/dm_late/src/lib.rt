//! A unit with a function that reads its arguments late refines the unit with a macro in its place.
#![tactic(auto)]

mod examples;
mod laws;

pub use examples::a_maximum_refines;
pub use laws::{late_typed_units_refine, uncalled_units_refine};
