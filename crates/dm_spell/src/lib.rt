//! Tables of spellings: the punctuators, the keywords and the directive names of C (ISO/IEC 9899:2011).
#![tactic(auto)]

mod rows;
mod spellings;
mod tables;

pub use rows::{directive, keyword, punctuator, rows_are_named};
pub use spellings::Spellings;
pub use tables::{directives, keywords, punctuators};
