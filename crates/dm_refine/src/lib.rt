//! When two typed units are aligned, the program of the new one refines that of the old one.
#![tactic(auto)]

mod examples;
mod laws;

pub use examples::{a_constant_refines, an_enumerator_refines};
pub use laws::{named_constant_units_refine, object_like_macros_refine, unread_units_refine};
