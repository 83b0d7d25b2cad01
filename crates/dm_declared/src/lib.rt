//! The declarations of automatic objects in the units that typing gives.
#![tactic(auto)]

mod examples;
mod laws;

pub use examples::a_unit_without_declarations;
pub use laws::{readings_declare_once, units_declare_once};
