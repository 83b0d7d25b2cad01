//! The macros that are defined at a point of a translation unit (ISO/IEC 9899:2011, 6.10.3).
#![tactic(auto)]

mod body;
mod form;
mod hash;
mod name_set;
mod named;
mod parameters;
mod role;
mod same;
mod sign;
mod table;

pub use body::Body;
pub use named::{Parameters, named_count};
pub use role::Role;
pub use sign::{
    is_comma, is_fixed, is_hash, is_identifier, is_left_parenthesis, is_predefined,
    is_right_parenthesis, is_word,
};
pub use table::MacroTable;
