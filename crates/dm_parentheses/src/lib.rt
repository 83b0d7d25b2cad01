//! Parentheses and commas in a list of tokens.
#![tactic(auto)]

mod ends;
mod sign;

pub use ends::Ends;
pub use sign::Sign;
