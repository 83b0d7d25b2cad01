//! Where the occurrences of a macro's parameters stand in its runs (ISO/IEC 9899:2011, 6.10.3.1).
#![tactic(auto)]

mod laws;

pub use laws::{named_parameters_occur, occurrences_are_apart};
