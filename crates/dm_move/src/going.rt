//! What the steps of full expressions do.

use dm_expression::Expression;
use dm_frame::Use;
use dm_row::Row;
use dm_state::{Ongoing, Turn};
use dm_token::Place;
use std::alloc::Global;

/// What has become of a full expression by its step.
#[derive(Clone, Copy, Debug, PartialEq, Eq)]
pub enum Progress {
    /// It goes on.
    GoesOn,
    /// It waits with a function that has called another one, or the run has ended.
    Left(Turn),
}

/// Room for a full expression where none is under evaluation. It takes no memory.
pub fn no_expression<'a>(alloc: Global) -> Ongoing<'a> {
    Ongoing {
        place: Place {
            file: 0,
            byte: 0,
            line: 0,
            column: 0,
        },
        expression: Expression {
            row: Row::new(alloc),
            locks: Vec::new(alloc),
        },
        use_of: Use::Drops,
    }
}
