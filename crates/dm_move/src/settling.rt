//! The state that the step of a node leaves.

ghost use Rattle.std.specs.Prelude.{◌≡◌, ℕ, ◌+◌, ◌≤◌, List, None, length, map, IfOk};
ghost use Rattle.dm_type.specs.Tables.{Table, type_of};
ghost use Rattle.dm_meaning.specs.Choices.{in_order};
ghost use Rattle.dm_meaning.specs.Expressions.{goes, lifted};
ghost use Rattle.dm_meaning.specs.Operations.{World};
ghost use Rattle.dm_meaning.specs.Programs as programs;
ghost use Rattle.dm_meaning.specs.Running.{Run, filled_in, hole_in};
ghost use Rattle.dm_meaning.specs.States as states;
ghost use Rattle.dm_meaning.specs.Steps.{moved};
ghost use Rattle.dm_program.specs.Sources.{meant};
ghost use Rattle.dm_row.specs.Counts.{weight_in};
ghost use Rattle.dm_frame.specs.Frames.{tasks_of};
ghost use Rattle.dm_frame.specs.Tasks.{view_of_use, ExpressionFits, UseFits};
ghost use Rattle.dm_state.specs.declared.full.Ongoing.{Ongoing as AnyOngoing};
ghost use Rattle.dm_state.specs.Fits.{RunningFits};
ghost use Rattle.dm_state.specs.Standing.{world_of};
ghost use Rattle.dm_move.specs.Progressing.{IsProgress};
ghost use Rattle.dm_value.specs.Places.{view_of_at};
ghost use Rattle.dm_move.specs.Settling.{gap, own_locks, state_before, GoesOn, IsLacking};
ghost use Rattle.dm_move.specs.Steps.{view_of_step, Keeps, StepFits};

use crate::going::{Progress, no_expression};
use crate::leaving::{give, give_unlocked, leave, pick};
use crate::step::Step;
use dm_expression::{Doing, Waiting};
use dm_operate::{Evaluation, Operand};
use dm_program::Program;
use dm_state::{Ongoing, Running, Turn};
use dm_token::Memory;
use dm_tree::Core;
use std::alloc::Global;
use std::mem;

/// What a node did is put in its place in a full expression that lacks it and the locks of its operands.
pub(crate) fn settle<'a>(
    running: &mut Running<'a>,
    alloc: Global,
    program: &Program<'a>,
    ongoing: &mut Ongoing<'a>,
    node: &'a Core,
    locks: usize,
    step: Step<'a>,
) -> Result<Progress, Memory>
    requires none { running.old.full ≡ None }
    requires fits { RunningFits program.now.table running.old }
    requires use_of { UseFits program.now.table ongoing.old.use_of }
    requires room { weight_in ongoing.old.expression.row.0 + locks ≤ length ongoing.old.expression.locks.items }
    requires lacking { IsLacking program.now.table ongoing.old.expression locks }
    requires node { ExpressionFits program.now.table node.now }
    requires step { StepFits program.now step }
    ensures { (tasks : List states.Task) (before : World) → Keeps before (world_of program.now.table running.old.blocks running.old.streams) step.entry
        → IfOk result (λ progress. IsProgress program.now.table progress running.new ongoing.new
        (moved (meant program.now) (in_order before.memory) (state_before program.now.table tasks before running.old) (tasks_of program.now.table running.old.frame) ongoing.old.place
        (view_of_use program.now.table ongoing.old.use_of)
        (lifted (filled_in (gap program.now.table ongoing.old.expression locks)) (hole_in (gap program.now.table ongoing.old.expression locks))
        (view_of_step program.now.table (type_of program.now.table node.now.kind) node.now.place (map view_of_at (own_locks ongoing.old.expression locks))
        (world_of program.now.table running.old.blocks running.old.streams) step.entry)))) }
{
    match step {
        Step::Gives(result, lock) => {
            let operand = Operand {
                kind: node.kind,
                result,
            };
            give(ongoing, locks, operand, lock)?;
            Ok(go_on(running, ongoing))
        }
        Step::Releases(value) => {
            let operand = Operand {
                kind: node.kind,
                result: Evaluation::Value(value),
            };
            give_unlocked(ongoing, locks, operand)?;
            Ok(go_on(running, ongoing))
        }
        Step::Tests(operand) => {
            let waiting = Waiting {
                doing: Doing::GivesTruth,
                node,
            };
            pick(alloc, ongoing, locks, waiting, operand)?;
            Ok(go_on(running, ongoing))
        }
        Step::Picks(operand) => {
            let waiting = Waiting {
                doing: Doing::GivesValue,
                node,
            };
            pick(alloc, ongoing, locks, waiting, operand)?;
            Ok(go_on(running, ongoing))
        }
        Step::Calls(function, arguments) => {
            leave(ongoing, locks)?;
            let waiting = mem::replace(ongoing, no_expression(alloc));
            running.call(
                alloc,
                program,
                function,
                arguments.as_slice(),
                node.kind,
                waiting,
            )?;
            Ok(Progress::Left(Turn::Went))
        }
        Step::Fails(cause) => Ok(Progress::Left(Turn::Undefined(cause, node.place))),
        Step::Exits(status) => Ok(Progress::Left(Turn::Exited(status))),
    }
}

/// A full expression goes on.
fn go_on(running: &Running, ongoing: &Ongoing) -> Progress
    ensures { (table : Table) (program : programs.Program) (names : ℕ → ℕ) (tasks : List states.Task) (before : World) (old : AnyOngoing) (run : Run)
        → running.now.full ≡ None → RunningFits table running.now → GoesOn table old ongoing.now run → IsProgress table result running.now ongoing.now
        (moved program names (state_before table tasks before running.now) (tasks_of table running.now.frame) old.place (view_of_use table old.use_of)
        (goes (world_of table running.now.blocks running.now.streams) run)) }
{
    // Only the contract speaks of them.
    let _ = running;
    let _ = ongoing;
    Progress::GoesOn
}
