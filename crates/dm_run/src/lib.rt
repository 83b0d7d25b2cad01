//! What is put of a run: what it has written, and how it ended.
#![tactic(auto)]

mod text;

pub use text::run_text;
