//! Rule 14 in whole: arguments that may be evaluated where the program never does, because they can't be undefined (ISO/IEC 9899:2011, 6.5, 6.7.9).
#![tactic(auto)]

mod laws;

pub use laws::{evaluated_units_refine, safe_arguments_always_come, safe_arguments_are_found};
