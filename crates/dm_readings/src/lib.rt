//! What the readings of translation units and of a project are (ISO/IEC 9899:2011, 5.1.1.2), the macro definitions in files that they
//! have (6.10.3), and the keys of these.
#![tactic(auto)]

mod distinct;
mod laws;

pub use distinct::{Key, definitions, definitions_with, key_of, newest};
pub use laws::{held_files_stay_there, one_reading_of_unit};
