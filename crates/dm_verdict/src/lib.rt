//! Whether the edit of a macro's definition is allowed in a unit (ISO/IEC 9899:2011, 5.1.1.2, 6.9), by its readings before and after.
#![tactic(auto)]

mod judging;
mod rules;
mod verdict;

pub use judging::judge;
pub use verdict::Verdict;
