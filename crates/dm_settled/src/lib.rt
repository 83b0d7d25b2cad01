//! Safe arguments in programs where the nodes of each full expression stand at one place.
#![tactic(auto)]

mod examples;
mod laws;

pub use examples::a_settled_program;
pub use laws::{
    parts_stand_where_expressions_do, settled_bodies_spare, settled_programs_are_moved,
    settled_safe_expressions_always_come,
};
