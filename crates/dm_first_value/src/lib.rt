//! First values of objects (ISO/IEC 9899:2011, 6.7.9): unset or 0, lists in braces, and arrays of string literals.
#![tactic(auto)]

mod filled;
mod listed;
mod object;
mod text;

pub use filled::{Scalars, first_value};
pub use listed::{completed, listed_value};
pub use text::text_array;
