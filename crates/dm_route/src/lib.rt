//! How tokens came, as trails one behind the other: a token that comes to an argument's place gets a trail in front of those that it
//! has, in a fixed time, however long these are.
#![tactic(auto)]

mod joining;
mod legs;
mod route;
mod walks;

pub use joining::Joining;
pub use legs::{Legs, are_alike};
pub use route::Route;
pub use walks::{are_same, grown, innermost, regrown, shared_count};
