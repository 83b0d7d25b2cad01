//! Operators of one operand (ISO/IEC 9899:2011, 6.5.2.4, 6.5.3, 6.5.4): signs, casts, counting, and which objects may be
//! written.
#![tactic(auto)]

pub mod cast;
pub mod counting;
mod parts;
pub mod unary;
