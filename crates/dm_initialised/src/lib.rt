//! Objects that declarations name are alive. Of these, parameters, objects whose declarators have initialisers, and scalars of static
//! storage duration are set wherever they are named.
#![tactic(auto)]

mod examples;
mod laws;

pub use examples::{living_state, set_core_unit, set_run, set_step, set_unit};
pub use laws::{
    first_values_are_given, initialised_objects_are_set, named_objects_are_alive,
    named_objects_stay_alive, objects_stay_set, runs_begin_set, steps_keep_named_objects_alive,
    steps_keep_objects_set, units_give_settled_programs, units_name_what_is_set,
};
