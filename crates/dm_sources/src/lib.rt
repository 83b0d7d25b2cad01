//! The units that the word M of a command stands for: that of a C file alone, or those of a manifest.
#![tactic(auto)]

mod explaining;
mod finding;
mod project;

pub use explaining::{explain_no_sources, explain_no_unit};
pub use finding::{NoUnit, Sought, find_unit};
pub use project::{NoSources, Sources, sources_of};
