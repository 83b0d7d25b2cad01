//! The abstract machine is sound for typed programs: what its objects hold, and what its expressions give, is of their types.
#![tactic(auto)]

mod examples;
mod laws;

pub use examples::{
    overflowing_count, same_tables, typed_argument, typed_beginning, typed_counting, typed_list,
    typed_negation, typed_run, typed_state, typed_unit,
};
pub use laws::{
    calls_give_their_types, calls_keep_objects_typed, ends_keep_objects_typed, evaluations_begin,
    expressions_keep_their_types, expressions_never_lack_values, first_values_have_their_types,
    initialisers_keep_types, operators_give_their_types, runs_begin_typed, runs_stay_typed,
    same_structs_are_laid_out_alike, steps_keep_states_typed, typed_calls_get_their_values,
    typed_expressions_are_never_ill, typed_programs_run_typed, typed_steps_are_never_ill,
    units_give_typed_programs, units_have_proper_types, values_lack_at_closing_braces_alone,
};
