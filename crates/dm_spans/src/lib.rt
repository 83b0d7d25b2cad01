//! Typing doesn't depend on where the nodes of a tree stand.
#![tactic(auto)]

mod examples;
mod laws;

pub use examples::{a_program_elsewhere, an_expression_elsewhere};
pub use laws::{expressions_are_typed_anywhere, programs_are_typed_anywhere};
