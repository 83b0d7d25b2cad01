//! What runs come to (5.1.2.2.3, 5.1.2.3).

use dm_meaning::Cause;
use dm_token::{List, Place};

/// What a run of some steps has come to, and what it has written.
#[derive(Debug, Drop)]
pub enum Outcome {
    Exited {
        output: List<u8>,
        status: u8,
    },
    Undefined {
        output: List<u8>,
        cause: Cause,
        place: Place,
    },
    /// It has taken all its steps, and goes on.
    Running {
        output: List<u8>,
    },
}
