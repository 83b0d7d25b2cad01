//! Readings of a unit before and after the edit of a macro's definition (ISO/IEC 9899:2011, 6.9): whether they are the same but for the
//! declaration that the edit adds, and for what stands where runs of the macro stood.
#![tactic(auto)]

mod added;
mod alignment;
mod laws;
mod readings;

pub use alignment::Alignment;
pub use laws::readings_without_the_definition_are_aligned_with_themselves;
pub use readings::{align, align_in};
