//! Why a unit's reading stopped.

ghost use Rattle.std.specs.Prelude.{◌≡◌, ◌≢◌, ◌≤◌, [], slice_index_or, IfOk, OnOk, OnErr};
ghost use Rattle.dm_lines.specs.Puts.{PutsText};
ghost use Rattle.dm_lines.specs.Stops.{line_of_stop, status_of_stop};

use crate::line::{limit_line, read_fault_line, refusal_line};
use crate::put::put_line;
use crate::statuses;
use dm_io::Sink;
use dm_token::{Limit, Memory, Refusal, Stop, Text};
use std::alloc::Global;

/// Puts why a unit's reading stopped, and answers the status, where these are the files' names by number.
pub fn explain_stop<S: Sink>(
    alloc: Global,
    out: &mut S,
    names: &[Text],
    stop: Stop,
) -> Result<u8, Memory>
    ensures put { OnOk result (PutsText (S.written out.old) (S.written out.new) (S.faults out.old) (S.faults out.new) (line_of_stop names.now stop)) }
    ensures status { IfOk result (λ status. (status ≡ status_of_stop stop) × (stop ≢ Stop.Memory)) }
    ensures err { OnErr result (S.written out.new ≡ S.written out.old) }
    ensures faults_stay { OnErr result (S.faults out.new ≡ S.faults out.old) }
    ensures later { S.faults out.old ≤ S.faults out.new }
{
    let line = line_about(alloc, names, stop)?;
    put_line(alloc, out, line.as_slice())?;
    Ok(status_about(stop))
}

fn line_about(alloc: Global, names: &[Text], stop: Stop) -> Result<Vec<u8>, Memory>
    ensures line { IfOk result (λ line. line.items ≡ line_of_stop names.now stop) }
    ensures known { OnOk result (stop ≢ Stop.Memory) }
{
    match stop {
        Stop::Memory => Err(Memory),
        Stop::Refused(refusal) => refusal_line(
            alloc,
            name_by_number(names, refusal.place.file),
            refusal,
        ),
        Stop::Limit(Limit { number, file }) => limit_line(
            alloc,
            number,
            name_by_number(names, file),
        ),
        Stop::ReadFault(file) => read_fault_line(alloc, name_by_number(names, file)),
    }
}

fn status_about(stop: Stop) -> u8
    ensures { result ≡ status_of_stop stop }
{
    match stop {
        Stop::Memory => statuses::MEMORY_WANTED,
        Stop::Refused(_) => statuses::REFUSED,
        Stop::Limit(_) => statuses::LIMIT_PASSED,
        Stop::ReadFault(_) => statuses::READ_FAULT,
    }
}

/// The name of a number, which is empty where there is none.
pub fn name_by_number(names: &[Text], file: u32) -> &[u8]
    ensures { result.now ≡ slice_index_or names.now file [] }
{
    match names.get(file as usize) {
        Some(name) => name.bytes(),
        None => &[],
    }
}
