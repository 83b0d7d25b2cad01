//! What steps do (5.1.2.2.3, 5.1.2.3).

use dm_meaning::Cause;
use dm_token::Place;

/// What has become of a run by a step.
#[derive(Clone, Copy, Debug, PartialEq, Eq)]
pub enum Turn {
    /// It goes on.
    Went,
    /// The program has ended with this status.
    Exited(u8),
    /// The step has undefined behaviour, at the place of the first token of the smallest tree whose step it is.
    Undefined(Cause, Place),
}
