//! The definitions that a unit reads from files, by the bytes of those (ISO/IEC 9899:2011, 6.10.3).
#![tactic(auto)]

mod laws;

pub use laws::{
    definitions_are_made, definitions_stand_in_known_files, one_definition, parameters_differ,
};
