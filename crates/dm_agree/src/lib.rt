//! Trees before and after the edit of a macro's definition: whether they are the same but for what stands where runs of the macro stood.
#![tactic(auto)]

mod agree;
mod body;
mod comparison;
mod head;
mod index;
mod initial;
mod moves;
mod names;
mod parts;
mod standing;
mod starts;
mod types;

pub use agree::agrees_whole;
pub use comparison::{Added, AddedFunction, Comparison};
pub use index::{RunIndex, pairs};
pub use initial::are_same_declarators;
pub use moves::{Block, is_moved};
pub use parts::{Operands, operands_of, parts_of, push_locals};
pub use standing::is_value;
pub use starts::{is_marked, mark};
pub use types::is_same_type;
