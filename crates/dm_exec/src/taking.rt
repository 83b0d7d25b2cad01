//! Steps of a run that goes on (5.1.2.3).

ghost use Rattle.std.specs.Prelude.{◌≡◌, ◌∷◌, ◌++◌, ℕ, List, [], None, Some, false, length, IfOk};
ghost use Rattle.dm_meaning.specs.States.{Task};
ghost use Rattle.dm_frame.specs.Frames.{tasks_of};
ghost use Rattle.dm_frame.specs.Nexts.{next_task, NextFits};
ghost use Rattle.dm_operate.specs.declared.evaluation.Operand.{Operand as AnyOperand};
ghost use Rattle.dm_program.specs.Sources.{meant};
ghost use Rattle.dm_row.specs.Counts.{ready_in};
ghost use Rattle.dm_row.specs.declared.item.Item.{Item as AnyItem};
ghost use Rattle.dm_row.specs.declared.item.Item.TheVariants.{Done};
ghost use Rattle.dm_expression.specs.declared.waiting.Waiting.{Waiting as AnyWaiting};
ghost use Rattle.dm_state.specs.declared.full.Full.TheVariants.{Goes};
ghost use Rattle.dm_state.specs.Fits.{OngoingFits, RunningFits};
ghost use Rattle.dm_state.specs.Turns.{state_with, IsLeft};
ghost use Rattle.dm_state.specs.Views.{view_of_full, view_of_running};
ghost use Rattle.dm_exec.specs.Due.{chosen_step, TakesStep};
ghost use Rattle.dm_exec.specs.Runs.{next_state};
ghost use Rattle.dm_exec.specs.Shown.{running_in, HasLeft, IsApart};

use crate::due::{Due, next_due};
use crate::state::Going;
use dm_expression::Waiting;
use dm_frame::Next;
use dm_move::{Progress, advance};
use dm_operate::{Evaluation, Operand};
use dm_program::Program;
use dm_row::{Item, Row};
use dm_state::{Ongoing, Running, Turn};
use dm_token::Memory;
use std::alloc::Global;
use std::mem;

/// The step of a number, counted from 0 from the left, or the last.
pub(crate) fn take_step<'a>(
    alloc: Global,
    program: &Program<'a>,
    going: &mut Going<'a>,
    choice: usize,
) -> Result<Turn, Memory>
    requires fits { RunningFits program.now.table (running_in going.old) }
    requires apart { IsApart going.old }
    ensures { IfOk result (λ turn. HasLeft program.now.table turn going.new (next_state (meant program.now) choice (view_of_running program.now.table (running_in going.old)))) }
{
    if going.goes {
        let turn = evaluate(alloc, program, going, choice)?;
        Ok(turn)
    } else {
        let turn = go_to(alloc, program, going, choice)?;
        Ok(turn)
    }
}

/// The same where no full expression goes on beside the rest.
fn go_to<'a>(
    alloc: Global,
    program: &Program<'a>,
    going: &mut Going<'a>,
    choice: usize,
) -> Result<Turn, Memory>
    requires goes { going.old.goes ≡ false }
    requires fits { RunningFits program.now.table going.old.running }
    ensures { IfOk result (λ turn. HasLeft program.now.table turn going.new (next_state (meant program.now) choice (view_of_running program.now.table going.old.running))) }
{
    match next_due(alloc, program, &mut going.running)? {
        Due::Evaluates(ongoing) => {
            hold(going, ongoing);
            let turn = evaluate(alloc, program, going, choice)?;
            Ok(turn)
        }
        Due::Takes(next) => {
            let turn = take(alloc, program, &mut going.running, next)?;
            Ok(turn)
        }
        Due::Closes => {
            let turn = going.running.close(program)?;
            Ok(turn)
        }
    }
}

/// A full expression stands beside the rest.
fn hold<'a>(going: &mut Going<'a>, ongoing: Ongoing<'a>)
    ensures running { going.new.running ≡ going.old.running }
    ensures ongoing { going.new.ongoing ≡ ongoing.entry }
{
    drop(mem::replace(&mut going.ongoing, ongoing));
}

/// The step of a full expression that stands beside the rest, or its end where it is evaluated (6.8p4).
fn evaluate<'a>(
    alloc: Global,
    program: &Program<'a>,
    going: &mut Going<'a>,
    choice: usize,
) -> Result<Turn, Memory>
    requires none { going.old.running.full ≡ None }
    requires fits { RunningFits program.now.table going.old.running }
    requires ongoing { OngoingFits program.now.table going.old.ongoing }
    ensures { (tasks : List Task) → IfOk result (λ turn. HasLeft program.now.table turn going.new
        (chosen_step (meant program.now) choice (state_with program.now.table tasks going.old.running) (view_of_full program.now.table (Goes going.old.ongoing) ∷ tasks_of program.now.table going.old.running.frame))) }
{
    if going.ongoing.expression.is_evaluated() {
        going.goes = false;
        let turn = conclude(alloc, program, &mut going.running, &mut going.ongoing)?;
        Ok(turn)
    } else {
        match advance(
            &mut going.running,
            alloc,
            program,
            &mut going.ongoing,
            choice,
        )? {
            Progress::GoesOn => {
                going.goes = true;
                Ok(Turn::Went)
            }
            Progress::Left(turn) => {
                going.goes = false;
                Ok(turn)
            }
        }
    }
}

/// The end of a full expression.
fn conclude<'a>(
    alloc: Global,
    program: &Program<'a>,
    running: &mut Running<'a>,
    ongoing: &mut Ongoing<'a>,
) -> Result<Turn, Memory>
    requires none { running.old.full ≡ None }
    requires fits { RunningFits program.now.table running.old }
    requires ongoing { OngoingFits program.now.table ongoing.old }
    requires evaluated { ready_in 0 (ongoing.old.expression.row.0 ++ ongoing.old.expression.row.1) ≡ 0 }
    ensures { (tasks : List Task) (choice : ℕ) → IfOk result (λ turn. IsLeft program.now.table turn running.new
        (chosen_step (meant program.now) choice (state_with program.now.table tasks running.old) (view_of_full program.now.table (Goes ongoing.old) ∷ tasks_of program.now.table running.old.frame))) }
{
    let result = result_of(&mut ongoing.expression.row);
    let turn = running.conclude(alloc, program, ongoing.place, &ongoing.use_of, &result)?;
    Ok(turn)
}

/// What an expression gave that is evaluated: its row is one result, which is taken out.
fn result_of(row: &mut Row<Operand, Waiting<'_>>) -> Evaluation
    requires { (operand : AnyOperand) × (weight : ℕ) × (row.old.0 ++ row.old.1 ≡ Done operand weight ∷ []) }
    ensures { (operand : AnyOperand) (weight : ℕ) → row.old.0 ++ row.old.1 ≡ Done operand weight ∷ [] → result ≡ operand.result }
{
    match only_item(row) {
        Some(Item::Done(operand, _)) => operand.result,
        Some(Item::Waits(_, _)) | None => unreachable!(),
    }
}

/// The item of a row that has one.
fn only_item<'a>(row: &mut Row<Operand, Waiting<'a>>) -> Option<Item<Operand, Waiting<'a>>>
    ensures { (item : AnyItem AnyOperand AnyWaiting) → row.old.0 ++ row.old.1 ≡ item ∷ [] → result ≡ Some item }
{
    match row.take_in_front() {
        Some(item) => Some(item),
        None => row.take_behind(),
    }
}

/// The step of a thing that takes one.
fn take<'a>(
    alloc: Global,
    program: &Program<'a>,
    running: &mut Running<'a>,
    next: Next<'a>,
) -> Result<Turn, Memory>
    requires none { running.old.full ≡ None }
    requires fits { RunningFits program.now.table running.old }
    requires next { NextFits program.now.table (length running.old.frame.objects) (Some next) running.old.frame.tasks }
    requires takes { TakesStep (next_task program.now.table running.old.frame.objects next ∷ tasks_of program.now.table running.old.frame) }
    ensures { (tasks : List Task) (choice : ℕ) → IfOk result (λ turn. IsLeft program.now.table turn running.new
        (chosen_step (meant program.now) choice (state_with program.now.table tasks running.old) (next_task program.now.table running.old.frame.objects next.entry ∷ tasks_of program.now.table running.old.frame))) }
{
    match next {
        Next::Begins(tree) => {
            running.begin(alloc, program, tree)?;
            Ok(Turn::Went)
        }
        Next::Declares(local) => {
            running.declare(program, local)?;
            Ok(Turn::Went)
        }
        Next::Initials(at, kind, initial) => {
            running.initialise(alloc, program, at, kind, initial)?;
            Ok(Turn::Went)
        }
        Next::Ends(alive) => {
            running.end(alive);
            Ok(Turn::Went)
        }
        Next::EndsSwitch(alive) => {
            running.end(alive);
            Ok(Turn::Went)
        }
        Next::Leaves => {
            running.leave()?;
            Ok(Turn::Went)
        }
        Next::Skips => {
            running.skip()?;
            Ok(Turn::Went)
        }
        Next::HandsBack(value) => {
            let turn = running.hand_back(program.layout(), value)?;
            Ok(turn)
        }
        Next::Again(_, _) | Next::Tests(_, _) => unreachable!(),
    }
}
