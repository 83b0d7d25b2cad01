//! Why there is no plan.

ghost use Rattle.std.specs.Prelude.{◌≡◌, ◌≢◌, ◌≤◌, IfOk, OnOk, OnErr};
ghost use Rattle.dm_lines.specs.Puts.{PutsText};
ghost use Rattle.dm_lines.specs.Statuses as statuses;
ghost use Rattle.dm_lines.specs.Stops.{status_of_stop};
ghost use Rattle.dm_lines.specs.Lines.{limit_line as limit_text};
ghost use Rattle.dm_apply.specs.Plans.{line_of_no_plan};

use dm_io::Sink;
use dm_lines::{explain_stop, limit_line, put_line, statuses};
use dm_token::{Limit, Memory, Stop, Text};
use std::alloc::Global;

/// The number that no file has.
const NO_FILE: u32 = u32::MAX;

/// Puts why the reading of a project's units stopped, and answers the status, where these are the files' names by number.
pub(crate) fn explain_no_plan<S: Sink>(
    alloc: Global,
    out: &mut S,
    project: &[u8],
    names: &[Text],
    stop: Stop,
) -> Result<u8, Memory>
    ensures put { OnOk result (PutsText (S.written out.old) (S.written out.new) (S.faults out.old) (S.faults out.new) (line_of_no_plan project.now names.now stop)) }
    ensures status { IfOk result (λ status. (status ≡ status_of_stop stop) × (stop ≢ Stop.Memory)) }
    ensures err { OnErr result (S.written out.new ≡ S.written out.old) }
    ensures later { S.faults out.old ≤ S.faults out.new }
{
    match stop {
        Stop::Limit(
            Limit {
                number,
                file: NO_FILE,
            },
        ) => explain_limit(alloc, out, number, project),
        stop => explain_stop(alloc, out, names, stop),
    }
}

/// Puts that a limit of the whole project is passed, and answers the status.
fn explain_limit<S: Sink>(
    alloc: Global,
    out: &mut S,
    number: u8,
    project: &[u8],
) -> Result<u8, Memory>
    ensures put { OnOk result (PutsText (S.written out.old) (S.written out.new) (S.faults out.old) (S.faults out.new) (limit_text number project.now)) }
    ensures status { IfOk result (λ status. status ≡ statuses.limit_passed) }
    ensures err { OnErr result (S.written out.new ≡ S.written out.old) }
    ensures later { S.faults out.old ≤ S.faults out.new }
{
    let line = limit_line(alloc, number, project)?;
    put_line(alloc, out, line.as_slice())?;
    Ok(statuses::LIMIT_PASSED)
}
