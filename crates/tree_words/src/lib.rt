//! Declarations and typed trees in words, as tests and listings show them.
#![tactic(auto)]

pub mod entries;
pub mod trees;
pub mod words;
