//! Whole runs, of so many steps in an order (5.1.2.3).

ghost use Rattle.std.specs.Prelude.{◌≡◌, Some, IfOk, OnOk, option_map};
ghost use Rattle.dm_type.specs.Tables.{Table};
ghost use Rattle.dm_program.specs.Sources.{meant};
ghost use Rattle.dm_exec.specs.Orders.{choices};
ghost use Rattle.dm_exec.specs.Outcomes.{outcome_seen, IsRun};
ghost use Rattle.dm_exec.specs.Shown.{shown, StateFits};
ghost use Rattle.dm_exec.specs.Runs.{after_seen};

use crate::order::Choices;
use crate::outcome::Outcome;
use crate::state::{Going, State};
use crate::steps::{start, step};
use dm_meaning::chosen_runs;
use dm_primitive::Streams;
use dm_program::Program;
use dm_state::{Running, Turn};
use dm_token::{List, Memory};
use std::alloc::Global;

/// A run of so many steps on an input, in the order of a number: of order 0 each step is the first from the left, of order 1 the
/// last, and each further order makes choices of its own. The run may end before.
pub fn run_for<'a>(
    alloc: Global,
    program: &Program<'a>,
    input: &'a [u8],
    order: u64,
    n: u64,
) -> Result<Outcome, Memory>
    ensures { IfOk result (IsRun (meant program.now) order n input.now) }
{
    let mut state = start(alloc, program, input)?;
    take_steps(alloc, program, &mut state, order, n)?;
    // The law by which such a run is one of the machine's.
    chosen_runs();
    outcome_of(state)
}

/// Takes so many steps, or fewer where the run ends before.
fn take_steps<'a>(
    alloc: Global,
    program: &Program<'a>,
    state: &mut State<'a>,
    order: u64,
    n: u64,
) -> Result<(), Memory>
    requires { StateFits program.now.table state.old }
    ensures { OnOk result (shown program.now.table state.new ≡ option_map (after_seen (meant program.now) (choices order n)) (shown program.now.table state.old)) }
{
    let mut choices = Choices::of(order);
    for _ in 0..n {
        let choice = choices.draw();
        match step(alloc, program, state, choice)? {
            Turn::Went => {}
            Turn::Exited(_) | Turn::Undefined(_, _) => return Ok(()),
        }
    }
    Ok(())
}

/// What a run has come to.
fn outcome_of(state: State) -> Result<Outcome, Memory>
    ensures { (table : Table) → IfOk result (λ outcome. option_map outcome_seen (shown table state.entry) ≡ Some outcome) }
{
    let State { going, turn } = state;
    let Going {
        running,
        ongoing: _ongoing,
        goes: _,
    } = going;
    let output = output_of(running);
    match turn {
        Some(Turn::Went) => Ok(Outcome::Running { output }),
        Some(Turn::Exited(status)) => Ok(Outcome::Exited { output, status }),
        Some(Turn::Undefined(cause, place)) => Ok(Outcome::Undefined {
            output,
            cause,
            place,
        }),
        None => Err(Memory),
    }
}

/// What a run has written.
fn output_of(running: Running) -> List<u8>
    ensures { result ≡ running.entry.streams.output }
{
    let Streams { input: _, output } = running.streams;
    output
}
