//! `expand`: a unit's tokens after phase 4, from the words that name it to what is put.
#![tactic(auto)]

mod expanding;
mod laws;
mod listing;

pub use expanding::expand;
pub use laws::complete_expansion;
