//! What is said of an edit.

use dm_token::Place;

/// Whether an edit is allowed in a unit.
#[derive(Clone, Copy, Debug, PartialEq, Eq)]
pub enum Verdict {
    Allowed,
    /// A rule is broken, first at this place.
    Broken { rule: u8, place: Place },
}
