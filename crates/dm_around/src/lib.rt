//! What stands round the places of expressions in a unit (ISO/IEC 9899:2011, 6.5p3): whether what is unsequenced to an expression is
//! quiet, noted once for all places.
#![tactic(auto)]

mod beside;
mod ends;
mod links;
mod noise;
mod parents;
mod parts;
mod surroundings;
mod ways;
mod writes;

pub use surroundings::Surroundings;
