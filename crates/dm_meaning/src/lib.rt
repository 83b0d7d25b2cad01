//! What C programs mean: an abstract machine (ISO/IEC 9899:2011, 5.1.2.3) whose steps are free choices where C leaves the
//! order of evaluation open, its runs, and when one program refines another.
#![tactic(auto)]

mod cause;
mod examples;
mod laws;

pub use cause::Cause;
pub use examples::{
    and_stops_at_0, calls_come_in_any_order, const_makes_no_other_type, enumerators_refine,
    functions_have_frames_of_their_own, inputs_are_bytes, objects_have_first_values,
    other_causes_are_met_at_their_nodes, pointers_keep_to_their_objects, statements_jump,
    the_least_program_ends_after_four_steps, unsequenced_stores_conflict,
    unset_and_dead_are_carried_and_not_used, values_fit_their_types,
};
pub use laws::{
    Simulation, chosen_runs, enumerated_refines, extended_answers, extended_steps, inner_locks,
    inner_steps, own_lifetimes, refines_itself, refines_through, settled_beginnings, simulated,
    spared_steps, unended_steps, units_refine,
};
