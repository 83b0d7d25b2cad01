//! The rules that a macro keeps if a declaration is to stand for it, as far as the preprocessor tells (ISO/IEC 9899:2011, 6.10.1, 6.10.3):
//! for each the place that breaks it first.
#![tactic(auto)]

mod body;
mod index;
mod instances;
mod listing;
mod parameter;
mod places;
mod tables;
mod uses;
mod words;

pub use body::broken_body;
pub use index::Index;
pub use instances::Instances;
pub use parameter::{broken_parameter, names_of};
pub use tables::Tables;
pub use uses::{
    broken_again, broken_directive, broken_gone, broken_name, broken_place, broken_unused,
};
pub use words::Words;
