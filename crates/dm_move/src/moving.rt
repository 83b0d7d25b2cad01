//! Steps of full expressions (5.1.2.3, 6.5p2).

ghost use Rattle.std.specs.Prelude.{◌≡◌, ◌<◌, ◌++◌, List, None, IfOk};
ghost use Rattle.dm_meaning.specs.Choices.{chosen, in_order};
ghost use Rattle.dm_meaning.specs.States as states;
ghost use Rattle.dm_meaning.specs.Steps.{expression_steps};
ghost use Rattle.dm_memory.specs.Blocks.{view_of_blocks};
ghost use Rattle.dm_program.specs.Sources.{meant};
ghost use Rattle.dm_row.specs.Counts.{ready_in};
ghost use Rattle.dm_frame.specs.Frames.{tasks_of};
ghost use Rattle.dm_frame.specs.Tasks.{view_of_use};
ghost use Rattle.dm_state.specs.Fits.{OngoingFits, RunningFits};
ghost use Rattle.dm_state.specs.Turns.{state_with};
ghost use Rattle.dm_state.specs.Views.{run_of};
ghost use Rattle.dm_move.specs.Progressing.{IsProgress};

use crate::going::Progress;
use crate::nodes::take_step;
use crate::settling::settle;
use dm_program::Program;
use dm_state::{Ongoing, Running};
use dm_token::Memory;
use std::alloc::Global;

/// The step of a full expression that isn't evaluated: that of its ready node of a number from the left, or of the last. After an
/// `Err` the state is lost: nothing is said of it.
pub fn advance<'a>(
    running: &mut Running<'a>,
    alloc: Global,
    program: &Program<'a>,
    ongoing: &mut Ongoing<'a>,
    choice: usize,
) -> Result<Progress, Memory>
    requires none { running.old.full ≡ None }
    requires fits { RunningFits program.now.table running.old }
    requires ongoing { OngoingFits program.now.table ongoing.old }
    requires under_way { 0 < ready_in 0 (ongoing.old.expression.row.0 ++ ongoing.old.expression.row.1) }
    ensures { (tasks : List states.Task) → IfOk result (λ progress. IsProgress program.now.table progress running.new ongoing.new
        (chosen (state_with program.now.table tasks running.old) choice
        (expression_steps (meant program.now) (in_order (view_of_blocks program.now.table running.old.blocks)) (state_with program.now.table tasks running.old)
        (tasks_of program.now.table running.old.frame) ongoing.old.place (view_of_use program.now.table ongoing.old.use_of) (run_of program.now.table ongoing.old.expression)))) }
{
    let taken = ongoing.expression.take(alloc, choice)?;
    let step = take_step(
        alloc,
        program,
        &running.statics,
        &running.frame.objects,
        &mut running.blocks,
        &mut running.streams,
        ongoing.expression.locks.as_slice(),
        taken.node,
        &taken.operands,
    )?;
    let progress = settle(
        running,
        alloc,
        program,
        ongoing,
        taken.node.node,
        taken.locks,
        step,
    )?;
    Ok(progress)
}
