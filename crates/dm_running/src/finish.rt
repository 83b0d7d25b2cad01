//! What comes behind the reading of a unit.

ghost use Rattle.std.specs.Prelude.{◌≡◌, ◌≤◌, ◌⊎◌, Ok, IfOk, OnErr};
ghost use Rattle.dm_io.specs.Faults.{Rose};
ghost use Rattle.dm_io.specs.Output.{appended, MayHaveAppended};
ghost use Rattle.dm_lines.specs.Statuses as statuses;
ghost use Rattle.dm_tree.specs.TypeNumbers.{IsTypedUnit};
ghost use Rattle.dm_run.specs.Texts.{run_text as text_of_run};
ghost use Rattle.dm_words.specs.Requests.{request_of};
ghost use Rattle.dm_running.specs.Finishes.{IsFinishedAs};

use crate::explaining::{explain_definitions, explain_no_main};
use dm_definitions::exceeds_limit;
use dm_exec::{Outcome, run_for};
use dm_io::Sink;
use dm_lines::statuses;
use dm_program::Program;
use dm_reading::Reading;
use dm_run::run_text;
use dm_token::{Memory, Text};
use dm_words::RunWords;
use std::alloc::Global;

/// Runs a unit that was read, where these are the files' names by number, and puts the run.
pub(crate) fn run_reading<S: Sink>(
    alloc: Global,
    asked: &RunWords<'_>,
    reading: &Reading,
    names: &[Text],
    input: &[u8],
    out: &mut S,
) -> Result<u8, Memory>
    requires { IsTypedUnit reading.now.types reading.now.core }
    ensures finished { IsFinishedAs (request_of asked.now) reading.now names.now input.now (S.written out.old) (S.written out.new) (S.faults out.old) (S.faults out.new) result }
    ensures later { S.faults out.old ≤ S.faults out.new }
{
    if exceeds_limit(alloc, reading.pp.read.items())? {
        return explain_definitions(alloc, out, asked.project);
    }
    match Program::of(alloc, &reading.core, &reading.types)? {
        None => explain_no_main(alloc, out, reading.unit.file.bytes()),
        Some(program) => {
            let outcome = run_for(alloc, &program, input, asked.order, asked.steps)?;
            put_run(alloc, out, names, &outcome)
        }
    }
}

/// Puts a run, and answers the status.
fn put_run<S: Sink>(
    alloc: Global,
    out: &mut S,
    names: &[Text],
    outcome: &Outcome,
) -> Result<u8, Memory>
    ensures done { result ≡ Ok statuses.done → S.written out.new ≡ appended (S.written out.old) (text_of_run names.now outcome.now) }
    ensures failed { result ≡ Ok statuses.output_fault → Rose (S.faults out.old) (S.faults out.new)
        × MayHaveAppended (S.written out.old) (S.written out.new) (text_of_run names.now outcome.now) }
    ensures status { IfOk result (λ status. (status ≡ statuses.done) ⊎ (status ≡ statuses.output_fault)) }
    ensures err { OnErr result (S.written out.new ≡ S.written out.old) }
    ensures later { S.faults out.old ≤ S.faults out.new }
{
    let text = run_text(alloc, names, outcome)?;
    out.ready(alloc, text.len())?;
    if out.put(&text) {
        Ok(statuses::DONE)
    } else {
        Ok(statuses::OUTPUT_FAULT)
    }
}
