//! What is done to a definition's text: the change of a macro's definition into a declaration in its place, the bytes
//! of the file after it, and the plan that lists what became of each definition.
#![tactic(auto)]

mod change;
mod editing;
mod laws;
mod plan;

pub use change::{As, Change};
pub use editing::{edit, lies_in};
pub use laws::{a_definition_lies, edits_commute, lines_stay, one_edit, places_move};
pub use plan::{Changed, Entry, Fate, Plan};
