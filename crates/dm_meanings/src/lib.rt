//! The rules that a macro keeps if a declaration is to stand for it, as far as types and names tell (ISO/IEC 9899:2011, 6.2.1, 6.7.6): that
//! all its expansions have the same types, and that its names mean the same at each of them as at its definition.
#![tactic(auto)]

mod capture;
mod firsts;
mod meanings;
mod own;
mod typed;
mod types;
mod wanted;

pub use capture::broken_capture;
pub use firsts::{first_occurrences, span_of};
pub use meanings::{Meanings, Named, names_in};
pub use types::{Met, broken_type, first_run};
