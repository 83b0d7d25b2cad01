//! The types of C (ISO/IEC 9899:2011, 6.2.5) by number: their sizes, which of them are compatible, and how they are
//! spelled.
#![tactic(auto)]

mod alike;
mod compose;
mod declarator;
mod layout;
mod members;
mod shape;
mod sizes;
mod spell;
mod types;

pub use layout::Layout;
pub use members::Members;
pub use shape::{Member, Shape, TypeId};
pub use types::Types;
