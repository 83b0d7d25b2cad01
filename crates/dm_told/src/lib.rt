//! Places of expressions are told by their tokens (ISO/IEC 9899:2011, 6.5.1p5).
#![tactic(auto)]

mod laws;

pub use laws::{places_are_nested, places_are_told};
