//! What holds of a unit's reading over any folder, told or not, by what the loader holds behind it (ISO/IEC 9899:2011, 6.10).
#![tactic(auto)]

mod laws;

pub use laws::{definitions_lie_in_held_bytes, held_files_are_known};
