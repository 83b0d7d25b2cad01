//! Readings are local: an edit changes the readings of those units alone that read the edited file (ISO/IEC 9899:2011, 6.10.2).
#![tactic(auto)]

mod examples;
mod laws;

pub use examples::reading_of_empty_file;
pub use laws::{
    expansions_ascend, marks_are_listed, read_files_are_held, readings_hang_on_the_loader,
    readings_hang_on_what_they_look_for, readings_learn_nothing, readings_over_such_files_are_one,
    readings_stay, readings_stay_known, readings_stay_where_not_edited,
    tokens_stand_in_known_files,
};
