//! The one relation between trees under evaluation of an old and a new program, by which a unit whose macros became functions refines the old one.
#![tactic(auto)]

mod examples;
mod laws;

pub use examples::{
    a_call_that_reads_its_argument_twice_refines, an_argument_is_read_behind_a_call,
    an_argument_is_read_behind_a_quiet_call, an_argument_is_read_twice,
    objects_are_closed_when_they_are_made,
};
pub use laws::{
    agreement_beside_less, agreement_kept, argument_places, argument_steps, begun_agreement,
    bodies_alike, call_steps, calls_refine, closed_calls_refine, closed_objects_are_left_alone,
    closed_objects_stay, common_facts, entered_expressions, known_calls_refine, moved_operands,
    named_reads_are_apart, new_programs_only_name, node_steps, quiet_functions_stay_quiet,
    safe_calls_refine, state_steps, tree_steps, waiting_frames_are_kept,
};
