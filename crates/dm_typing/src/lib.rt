//! The types of C expressions and type names (ISO/IEC 9899:2011, 6.3, 6.5, 6.6, 6.7.6): the definition of the typing,
//! and what holds of it.
#![tactic(auto)]

pub mod access;
mod examples;
mod extent;
mod known;
mod laws;
pub mod looks;
mod nodes;
mod numbers;
mod over;
mod sizes;
mod typer;
pub mod values;

pub use examples::{
    operands_come_to_a_common_type, sizes_are_unsigned_long, the_first_broken_rule_has_a_place,
};
pub use extent::Extent;
pub use known::Known;
pub use laws::{
    an_example_meets_the_premises, assignments_give_well_typed_values, broken_rules_are_inside,
    expressions_are_well_typed, leaves_are_well_typed, lvalues_are_well_typed,
    operators_give_well_typed_values,
};
pub use typer::Typer;
