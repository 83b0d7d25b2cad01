//! How many macro definitions a unit reads.
#![tactic(auto)]

mod count;

pub use count::exceeds_limit;
