//! Arguments of runs that come to the same when they are evaluated once, before the rest (ISO/IEC 9899:2011, 6.5.2.2p10): a unit with the function
//! that is put in refines the unit with the macro.
#![tactic(auto)]

mod examples;
mod laws;

pub use examples::a_maximum_comes_early;
pub use laws::evaluated_typed_units_refine;
