//! What declarations declare (ISO/IEC 9899:2011, 6.7), found by going through their syntax.
#![tactic(auto)]

pub mod declarable;
pub mod declarations;
mod initialised;
pub mod items;
pub mod mains;
pub mod specified;
