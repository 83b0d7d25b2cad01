//! The last readings of a planned project are those of its units over the files that the plan leaves (ISO/IEC 9899:2011, 5.1.1.2).
#![tactic(auto)]

mod laws;

pub use laws::last_readings_are_of_the_files;
