//! Typing external declarations is typing a front of them, and then the others where it ends (ISO/IEC 9899:2011, 6.9).
#![tactic(auto)]

mod examples;
mod laws;

pub use examples::two_declarations_are_typed;
pub use laws::{a_front_is_typed_first, a_front_is_typed_too};
