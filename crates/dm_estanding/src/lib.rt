//! What is known where declarations stand (ISO/IEC 9899:2011, 6.2.1, 6.2.2, 6.2.7, 6.7): the scopes that are open, the linkage of
//! what is declared, and the types that all declarations of an object or a function say together.
#![tactic(auto)]

mod declaring;
mod defining;
mod laws;
mod links;
mod naming;
pub mod redeclaring;
mod retyping;
mod scopes;
mod standing;
pub mod storage;
mod wholes;

pub use laws::{
    a_unit_begins_lawfully, changes_add_up, declarators_stay_lawful, names_stay_united,
    redeclared_types_are_compatible, scopes_stay_lawful, typing_stays_lawful,
};
pub use links::{Links, Whole, composite};
pub use standing::{Mark, Retyped, Standing};
pub use wholes::with_whole_kinds;
