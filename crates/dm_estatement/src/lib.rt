//! The types of statements (ISO/IEC 9899:2011, 6.8), found by going through their syntax.
#![tactic(auto)]

mod conditions;
mod here;
mod labels;
mod nodes;
mod returns;
mod simple;
pub mod statements;
mod switches;
mod within;

pub use within::Within;
