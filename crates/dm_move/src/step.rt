//! What the steps of nodes do.

ghost use Rattle.std.specs.Prelude.{◌≡◌, List};
ghost use Rattle.dm_token.specs.declared.place.Place.{Place};
ghost use Rattle.dm_type.specs.CTypes.{CType};
ghost use Rattle.dm_type.specs.Tables.{Table};
ghost use Rattle.dm_meaning.specs.Expressions.{as_move};
ghost use Rattle.dm_meaning.specs.Operations.{World};
ghost use Rattle.dm_meaning.specs.Values as values;
ghost use Rattle.dm_operate.specs.Evaluations.{view_of_did};
ghost use Rattle.dm_program.specs.Sources.{Source};
ghost use Rattle.dm_move.specs.Steps.{view_of_step, Keeps, StepFits};

use dm_meaning::Cause;
use dm_operate::{Did, Evaluation};
use dm_program::Function;
use dm_tree::Core;
use dm_value::{At, Value};

/// What the step of a node does.
#[derive(Drop)]
pub enum Step<'a> {
    /// It gives a result, which has the locks of the operands, and locks the place that it has written, if it has.
    Gives(Evaluation, Option<At>),
    /// It gives a value, and the locks of the operands go.
    Releases(Value),
    /// `&&` or `||` goes on with its second operand.
    Tests(&'a Core),
    /// `?:` or the comma goes on with an operand.
    Picks(&'a Core),
    /// A function is called with these arguments.
    Calls(Function<'a>, Vec<Value>),
    /// It is undefined.
    Fails(Cause),
    /// The program ends with this status.
    Exits(u8),
}

impl<'a> Step<'a> {
    /// What an operator did.
    pub(crate) fn of_did(did: Did) -> Step<'a>
        ensures step { (table : Table) (kind : CType) (place : Place) (locks : List values.At) (world : World)
            → view_of_step table kind place locks world result ≡ as_move kind place locks (view_of_did world did) }
        ensures keeps { (before after : World) → after.output ≡ before.output → Keeps before after result }
        ensures fits { (source : Source) → StepFits source result }
    {
        match did {
            Did::Gives(evaluation, lock) => Step::Gives(evaluation, lock),
            Did::Breaks(cause) => Step::Fails(cause),
        }
    }
}
