//! What comes next in a run.

ghost use Rattle.std.specs.Prelude.{◌≡◌, ◌∷◌, None, Some, length, IfOk, IsSome};
ghost use Rattle.dm_type.specs.Tables.{Table};
ghost use Rattle.dm_frame.specs.Frames.{tasks_of, FrameFits};
ghost use Rattle.dm_frame.specs.Nexts.{next_task, NextFits};
ghost use Rattle.dm_state.specs.declared.full.Full.TheVariants.{Begins, Goes};
ghost use Rattle.dm_state.specs.Fits.{FullFits, OngoingFits, RunningFits};
ghost use Rattle.dm_state.specs.Views.{tasks_with, view_of_full};
ghost use Rattle.dm_exec.specs.Due.{IsDue};

use dm_expression::Expression;
use dm_frame::{Begun, Next};
use dm_program::Program;
use dm_state::{Full, Ongoing, Running};
use dm_token::Memory;
use std::alloc::Global;

/// What comes next in a run.
#[derive(Drop)]
pub(crate) enum Due<'a> {
    /// A step of a full expression, or its end.
    Evaluates(Ongoing<'a>),
    /// A thing that takes one step.
    Takes(Next<'a>),
    /// The closing brace of a body.
    Closes,
}

/// Takes out what comes next.
pub(crate) fn next_due<'a>(
    alloc: Global,
    program: &Program<'a>,
    running: &mut Running<'a>,
) -> Result<Due<'a>, Memory>
    requires { RunningFits program.now.table running.old }
    ensures { IfOk result (λ due. IsDue program.now.table (tasks_with program.now.table running.old.full running.old.frame) due running.old running.new) }
{
    if running.full.is_some() {
        let due = expression_due(alloc, program, running)?;
        Ok(due)
    } else {
        let due = task_due(alloc, program, running)?;
        Ok(due)
    }
}

/// The same where no full expression is under evaluation. Loops go on to it without a step.
fn task_due<'a>(
    alloc: Global,
    program: &Program<'a>,
    running: &mut Running<'a>,
) -> Result<Due<'a>, Memory>
    requires none { running.old.full ≡ None }
    requires fits { RunningFits program.now.table running.old }
    ensures { IfOk result (λ due. IsDue program.now.table (tasks_of program.now.table running.old.frame) due running.old running.new) }
{
    match running.frame.next(alloc, program.layout())? {
        Some(next) => {
            let due = unfolded_due(alloc, program, running, next)?;
            Ok(due)
        }
        None => Ok(Due::Closes),
    }
}

/// The same where this was taken out.
fn unfolded_due<'a>(
    alloc: Global,
    program: &Program<'a>,
    running: &mut Running<'a>,
    next: Next<'a>,
) -> Result<Due<'a>, Memory>
    requires none { running.old.full ≡ None }
    requires fits { NextFits program.now.table (length running.old.frame.objects) (Some next) running.old.frame.tasks }
    ensures { IfOk result (λ due. IsDue program.now.table (next_task program.now.table running.old.frame.objects next.entry ∷ tasks_of program.now.table running.old.frame) due running.old running.new) }
{
    match running.unfold(next)? {
        Some(next) => Ok(Due::Takes(next)),
        None => {
            let due = expression_due(alloc, program, running)?;
            Ok(due)
        }
    }
}

/// The same where a full expression is under evaluation.
fn expression_due<'a>(
    alloc: Global,
    program: &Program<'a>,
    running: &mut Running<'a>,
) -> Result<Due<'a>, Memory>
    requires some { IsSome running.old.full }
    requires full { FullFits program.now.table running.old.full }
    requires frame { FrameFits program.now.table running.old.frame }
    ensures { IfOk result (λ due. IsDue program.now.table (tasks_with program.now.table running.old.full running.old.frame) due running.old running.new) }
{
    let Some(full) = running.full.take() else {
        unreachable!();
    };
    let ongoing = under_evaluation(alloc, program, full)?;
    Ok(Due::Evaluates(ongoing))
}

/// A full expression under evaluation, of which maybe nothing is evaluated.
fn under_evaluation<'a>(
    alloc: Global,
    program: &Program<'a>,
    full: Full<'a>,
) -> Result<Ongoing<'a>, Memory>
    requires { FullFits program.now.table (Some full) }
    ensures same { IfOk result (λ one. view_of_full program.now.table (Goes one) ≡ view_of_full program.now.table full.entry) }
    ensures fits { IfOk result (OngoingFits program.now.table) }
{
    match full {
        Full::Begins(begun) => {
            let ongoing = begin(alloc, program, begun)?;
            Ok(ongoing)
        }
        Full::Goes(ongoing) => Ok(ongoing),
    }
}

/// A full expression begins (6.8p4).
fn begin<'a>(alloc: Global, program: &Program<'a>, begun: Begun<'a>) -> Result<Ongoing<'a>, Memory>
    requires { FullFits program.now.table (Some (Begins begun)) }
    ensures same { IfOk result (λ one. view_of_full program.now.table (Goes one) ≡ view_of_full program.now.table (Begins begun.entry)) }
    ensures fits { IfOk result (OngoingFits program.now.table) }
{
    let Begun { tree, use_of } = begun;
    let expression = Expression::begin(alloc, tree)?;
    Ok(Ongoing {
        place: tree.place,
        expression,
        use_of,
    })
}
