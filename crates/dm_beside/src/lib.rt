//! Which rules the runs of macros keep, as far as typed trees tell (ISO/IEC 9899:2011, 6.5): that a run is one expression, that no
//! constant is wanted where it stands, that nothing is stored into it, and that its arguments may be evaluated once and first.
#![tactic(auto)]

mod amid;
mod arguments;
mod evaluation;
mod examples;
mod noted;
mod places;
mod tally;

pub use evaluation::evaluates_alike;
pub use examples::{
    arguments_may_be_read_twice, later_arguments_are_safe, runs_stand_where_calls_may,
    stores_are_evaluated_once,
};
pub use noted::evaluates_alike_amid;
pub use places::{has_all_parameters, is_subtree, is_value, may_be_constant};
