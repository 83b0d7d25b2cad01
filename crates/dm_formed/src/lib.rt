//! What is read of a unit is well formed (ISO/IEC 9899:2011, 6.4.4, 6.5 to 6.9): its constants, and its external declarations, each of
//! which is read with the names that those before it declare.
#![tactic(auto)]

mod laws;

pub use laws::{constants_are_sound, external_declarations_are_formed};
