//! Operators between two operands, the conditional operator and assignments, typed (ISO/IEC 9899:2011, 6.5.5 to 6.5.16).
#![tactic(auto)]

pub mod assignments;
pub mod choices;
pub mod operations;
mod ways;
