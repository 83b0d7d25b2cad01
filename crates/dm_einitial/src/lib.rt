//! What initialises the objects of C (ISO/IEC 9899:2011, 6.7.9), found by going through the syntax of initialisers.
#![tactic(auto)]

pub mod addresses;
pub mod constants;
pub mod lengths;
pub mod lists;
pub mod parts;
pub mod scalars;
