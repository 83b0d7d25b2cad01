//! That identifiers among the tokens of units are words, and what the names of readings mean (ISO/IEC 9899:2011, 6.2.1, 6.4.2.1).
#![tactic(auto)]

mod laws;

pub use laws::{
    identifiers_are_words, readings_have_plain_tokens, readings_of_files_mean_what_they_name,
};
