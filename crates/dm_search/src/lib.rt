//! The files of a call by number, and the search for the files that `#include` names (ISO/IEC 9899:2011, 6.10.2).
#![tactic(auto)]

mod content;
mod header;
mod joining;
mod laws;
mod loader;

pub use laws::{
    readable_bytes_are_not_refused, searched_names_are_normal, the_first_file_is_found,
};
pub use loader::Loader;
