//! The types of C declarations, statements and translation units (ISO/IEC 9899:2011, 6.2.1 to 6.2.3, 6.7 to 6.9): the
//! definition of the typing, and what holds of it.
#![tactic(auto)]

mod examples;
mod laws;

pub use examples::{declarations_of_one_object_share_an_entry, the_first_broken_rule_has_a_place};
pub use laws::{
    a_unit_begins_soundly, an_example_meets_the_premise, broken_rules_are_in_units,
    declarations_are_well_typed, declarators_declare_entries, defined_functions_give_objects,
    expressions_fit_statements, external_declarations_are_well_typed, functions_are_defined_once,
    initialisers_are_well_typed, statements_are_well_typed, units_are_soundly_known,
    units_are_well_typed,
};
