//! Rows of results and of nodes that wait for the results in front of them, with a place in them at which they are changed. A row knows
//! how many of its nodes have all their operands in front of them, and finds one by its number.
#![tactic(auto)]

mod item;
mod row;

pub use item::Item;
pub use row::Row;
