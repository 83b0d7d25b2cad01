//! That the names of a unit are numbered as its typing numbers them (ISO/IEC 9899:2011, 6.2.1).
#![tactic(auto)]

mod laws;

pub use laws::{readings_mean_what_they_name, units_mean_what_they_name};
