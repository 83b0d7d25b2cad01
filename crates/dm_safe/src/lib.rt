//! Safe arguments: expressions that come to a value wherever their full expression is evaluated, so that they may be evaluated where the program
//! never does.
#![tactic(auto)]

mod examples;
mod laws;

pub use examples::{a_safe_program, safe_trees};
pub use laws::{
    constants_come_to_their_values, own_first_values_are_spared, programs_are_settled_anywhere,
    safe_expressions_always_come, safe_trees_come_to_numbers,
};
