//! What names mean in C expressions, and what tags and enumerators declare (ISO/IEC 9899:2011, 6.2.1 to 6.2.3, 6.4.4, 6.4.5,
//! 6.5.1, 6.5.2, 6.5.17, 6.7.2): names, constants, members, calls, commas, structs, enums and enumerators.
#![tactic(auto)]

pub mod calls;
pub mod members;
pub mod objects;
pub mod tags;
