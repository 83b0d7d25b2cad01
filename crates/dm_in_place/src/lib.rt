//! Safe arguments at the places of their full expressions (ISO/IEC 9899:2011, 6.5, 6.7.9, 6.8p4).
#![tactic(auto)]

mod examples;
mod laws;

pub use examples::a_set_object;
pub use laws::{safe_arguments_are_safe_in_place, set_objects_are_declared};
