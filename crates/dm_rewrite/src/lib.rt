//! The law that a unit whose macros became declarations refines the old one. Today its first part: what the steps of an expression keep.
#![tactic(auto)]

mod examples;
mod laws;

pub use examples::{
    a_call_leaves_other_objects, a_count_leaves_other_objects, a_named_constant_refines,
    a_step_leaves_other_objects, a_value_is_computed_aside, an_object_stays_closed,
    an_object_stays_closed_in_a_run, an_operand_is_evaluated_at_once,
};
pub use laws::{
    changes_of_frames, closed_objects, closed_states, effects_of_program_steps, effects_of_steps,
    effects_shrink, evaluations_aside, kept_computations, named_constant_steps,
    named_constants_refine, named_units_refine, plain_steps, pure_steps,
};
