//! Units before and after the edit of a macro's definition (ISO/IEC 9899:2011, 6.9): when they are the same but for the declaration that
//! the edit adds, and for what stands where runs of the macro stood.
#![tactic(auto)]

mod entries;
mod examples;
mod externals;
mod insertion;
mod laws;
mod places;
mod slices;
mod structs;
mod units;

pub use examples::{
    added_declarations_are_aligned, calls_in_calls_agree, converted_calls_agree,
    other_trees_differ, runs_in_sizeof_are_not_placed,
};
pub use insertion::Inserted;
pub use laws::{old_declarations_have_new_numbers, units_are_aligned_with_themselves};
pub use units::{Units, are_aligned, are_aligned_for};
