//! Why there is no run.

ghost use Rattle.std.specs.Prelude.{◌≡◌, ◌≤◌, IfOk, OnOk, OnErr};
ghost use Rattle.dm_token.specs.LimitNumbers.{definitions};
ghost use Rattle.dm_lines.specs.Puts.{PutsText};
ghost use Rattle.dm_lines.specs.Statuses as statuses;
ghost use Rattle.dm_lines.specs.Lines.{limit_line as limit_text, refusal_line as refusal_text};
ghost use Rattle.dm_running.specs.Inputs.{line_of_no_input, status_of_no_input};
ghost use Rattle.dm_running.specs.Finishes.{without_main as lacks_main};

use crate::input::NoInput;
use dm_io::Sink;
use dm_lines::{
    limit_line, manifest_faults, manifest_line, put_line, read_fault_line, refusal_line, statuses,
};
use dm_token::limit_numbers::{DEFINITIONS, FILE_BYTES};
use dm_token::refusals::NO_MAIN;
use dm_token::{Memory, Place, Refusal};
use std::alloc::Global;

/// Puts why there is no input, and answers the status.
pub(crate) fn explain_no_input<S: Sink>(
    alloc: Global,
    out: &mut S,
    name: &[u8],
    why: NoInput,
) -> Result<u8, Memory>
    ensures put { OnOk result (PutsText (S.written out.old) (S.written out.new) (S.faults out.old) (S.faults out.new) (line_of_no_input name.now why)) }
    ensures status { IfOk result (λ status. status ≡ status_of_no_input why) }
    ensures err { OnErr result (S.written out.new ≡ S.written out.old) }
    ensures later { S.faults out.old ≤ S.faults out.new }
{
    let line = line_about_no_input(alloc, name, why)?;
    put_line(alloc, out, line.as_slice())?;
    Ok(status_about_no_input(why))
}

fn line_about_no_input(alloc: Global, name: &[u8], why: NoInput) -> Result<Vec<u8>, Memory>
    ensures { IfOk result (λ line. line.items ≡ line_of_no_input name.now why) }
{
    match why {
        NoInput::Missing => manifest_line(alloc, manifest_faults::INPUT, name),
        NoInput::TooLong => limit_line(alloc, FILE_BYTES, name),
        NoInput::ReadFault => read_fault_line(alloc, name),
    }
}

fn status_about_no_input(why: NoInput) -> u8
    ensures { result ≡ status_of_no_input why }
{
    match why {
        NoInput::Missing => statuses::MANIFEST_FAULT,
        NoInput::TooLong => statuses::LIMIT_PASSED,
        NoInput::ReadFault => statuses::READ_FAULT,
    }
}

/// Puts that there are too many definitions, and answers the status.
pub(crate) fn explain_definitions<S: Sink>(
    alloc: Global,
    out: &mut S,
    project: &[u8],
) -> Result<u8, Memory>
    ensures put { OnOk result (PutsText (S.written out.old) (S.written out.new) (S.faults out.old) (S.faults out.new) (limit_text definitions project.now)) }
    ensures status { IfOk result (λ status. status ≡ statuses.limit_passed) }
    ensures err { OnErr result (S.written out.new ≡ S.written out.old) }
    ensures later { S.faults out.old ≤ S.faults out.new }
{
    let line = limit_line(alloc, DEFINITIONS, project)?;
    put_line(alloc, out, line.as_slice())?;
    Ok(statuses::LIMIT_PASSED)
}

/// Puts that a unit defines no `main`, and answers the status.
pub(crate) fn explain_no_main<S: Sink>(
    alloc: Global,
    out: &mut S,
    file: &[u8],
) -> Result<u8, Memory>
    ensures put { OnOk result (PutsText (S.written out.old) (S.written out.new) (S.faults out.old) (S.faults out.new) (refusal_text file.now lacks_main)) }
    ensures status { IfOk result (λ status. status ≡ statuses.refused) }
    ensures err { OnErr result (S.written out.new ≡ S.written out.old) }
    ensures later { S.faults out.old ≤ S.faults out.new }
{
    let line = refusal_line(alloc, file, without_main())?;
    put_line(alloc, out, line.as_slice())?;
    Ok(statuses::REFUSED)
}

fn without_main() -> Refusal
    ensures { result ≡ lacks_main }
{
    Refusal {
        number: NO_MAIN,
        detail: 0,
        place: Place {
            file: 0,
            byte: 0,
            line: 1,
            column: 1,
        },
    }
}
