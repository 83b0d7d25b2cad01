//! The runs of macros: what their expansions (ISO/IEC 9899:2011, 6.10.3) leave among the tokens of translation phase 7.
#![tactic(auto)]

mod beginnings;
mod by_directive;
mod extents;
mod known;
mod named;
mod names;
mod origins;
mod parts;
mod reach;
mod run;
mod runs;
mod shape;
mod stand;

pub use by_directive::{ByDirective, is_at, is_file};
pub use parts::begun_before;
pub use run::{Occurrence, Run};
pub use runs::Runs;
