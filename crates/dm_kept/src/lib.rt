//! The reading again of the units that read an edited file comes to what the reading of all units would (ISO/IEC 9899:2011, 5.1.1.2).
#![tactic(auto)]

mod laws;

pub use laws::{
    all_readings_again_are_the_same, first_readings_are_current, readings_again_are_current,
    readings_stay_where_bytes_are_put_back,
};
