//! What the reading of a translation unit gives is sound: its table of types, the scopes of its names, and the runs of its program.
#![tactic(auto)]

mod examples;
mod laws;

pub use examples::empty_reading;
pub use laws::{
    readings_are_sound, readings_lack_values_at_closing_braces_alone, readings_name_what_is_set,
    readings_run_alike, readings_run_typed,
};
