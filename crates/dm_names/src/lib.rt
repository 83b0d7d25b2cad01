//! What the names of a translation unit mean (ISO/IEC 9899:2011, 6.2.1, 6.2.3).
#![tactic(auto)]

mod declarations;
mod expressions;
mod externals;
mod identifier;
mod listing;
mod names;
mod nest;
mod numbers;
mod positions;
mod seen;
mod statements;
mod structs;
mod walk;

pub use identifier::{Entered, Identifier};
pub use names::Names;
pub use nest::{Nest, Scope};
pub use positions::Positions;
pub use seen::{Seen, Shown};
