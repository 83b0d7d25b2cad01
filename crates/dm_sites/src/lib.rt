//! The places of expressions in a translation unit (ISO/IEC 9899:2011, 6.5, 6.8p4): by which tokens an expression is found, in which full
//! expression it stands, and whether a constant is wanted there.
#![tactic(auto)]

mod examples;
mod laws;
mod links;
mod rows;
mod site;
mod sites;
mod standing;
mod waiting;
mod walk;

pub use examples::{expressions_stand_at_tokens, places_tell_what_stands_round_them};
pub use laws::places_of_expressions;
pub use site::{Above, Site};
pub use sites::Sites;
