//! What is said of a macro's definition.

use dm_edit::Change;
use dm_token::Place;

/// What may become of a definition.
#[derive(Debug, PartialEq, Eq, Drop)]
pub enum Proposal {
    /// It breaks a rule, first at this place.
    Broken { rule: u8, place: Place },
    /// It breaks none, and becomes this.
    Change(Change),
}
