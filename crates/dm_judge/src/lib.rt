//! Whether a macro may become a declaration (ISO/IEC 9899:2011, 6.7, 6.9.1), and which one it becomes.
#![tactic(auto)]

mod change;
mod examples;
mod first;
mod head;
mod notes;
mod proposal;
mod proposing;
mod rule;
mod rules;
mod runs;
mod signature;
mod units;

pub use change::change_with;
pub use examples::{definitions_become_declarations, types_are_spelled_round_declarators};
pub use proposal::Proposal;
pub use proposing::{propose, propose_in};
pub use rules::broken_from_5;
pub use signature::{Parameter, Signature};
pub use units::{Units, indexes_of, names_of};
