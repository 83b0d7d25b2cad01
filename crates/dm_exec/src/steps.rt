//! The start of a run and its steps (5.1.2.3).

ghost use Rattle.std.specs.Prelude.{IfOk};
ghost use Rattle.dm_program.specs.Sources.{meant};
ghost use Rattle.dm_state.specs.Fits.{RunningFits};
ghost use Rattle.dm_state.specs.Views.{view_of_running};
ghost use Rattle.dm_exec.specs.Outcomes.{IsStart, IsStep, IsStepOf};
ghost use Rattle.dm_exec.specs.Shown.{running_in, shown, IsApart, StateFits};

use crate::state::{Going, State};
use crate::taking::take_step;
use dm_move::no_expression;
use dm_program::Program;
use dm_state::Turn;
use dm_token::Memory;
use std::alloc::Global;

/// The state at the beginning of a run on an input (5.1.2.2.1).
pub fn start<'a>(alloc: Global, program: &Program<'a>, input: &'a [u8]) -> Result<State<'a>, Memory>
    ensures begins { IfOk result (λ state. IsStart (meant program.now) input.now (shown program.now.table state)) }
    ensures fits { IfOk result (StateFits program.now.table) }
{
    let running = dm_start::start(alloc, program, input)?;
    let going = Going {
        running,
        ongoing: no_expression(alloc),
        goes: false,
    };
    Ok(State {
        going,
        turn: Some(Turn::Went),
    })
}

/// The step of a number, counted from 0 from the left, or the last where there are fewer. A state that has ended stays, and its
/// end is answered again. After an `Err` each later step answers `Memory`.
pub fn step<'a>(
    alloc: Global,
    program: &Program<'a>,
    state: &mut State<'a>,
    choice: u64,
) -> Result<Turn, Memory>
    requires { StateFits program.now.table state.old }
    ensures step { IsStep (meant program.now) choice (shown program.now.table state.old) result (shown program.now.table state.new) }
    ensures fits { StateFits program.now.table state.new }
{
    match state.turn {
        Some(Turn::Went) => {
            let turn = next_step(alloc, program, state, choice as usize)?;
            Ok(turn)
        }
        Some(Turn::Exited(status)) => Ok(Turn::Exited(status)),
        Some(Turn::Undefined(cause, place)) => Ok(Turn::Undefined(cause, place)),
        None => Err(Memory),
    }
}

/// The same of one that goes on.
fn next_step<'a>(
    alloc: Global,
    program: &Program<'a>,
    state: &mut State<'a>,
    choice: usize,
) -> Result<Turn, Memory>
    requires fits { RunningFits program.now.table (running_in state.old.going) }
    requires apart { IsApart state.old.going }
    ensures step { IsStepOf (meant program.now) choice (view_of_running program.now.table (running_in state.old.going)) result (shown program.now.table state.new) }
    ensures fits { StateFits program.now.table state.new }
{
    state.turn = None;
    let turn = take_step(alloc, program, &mut state.going, choice)?;
    state.turn = Some(turn);
    Ok(turn)
}
