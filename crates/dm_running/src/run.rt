ghost use Rattle.std.specs.Prelude.{◌≡◌, ◌≤◌, Some};
ghost use Rattle.dm_manifest.specs.Units.{IsLawful};
ghost use Rattle.dm_lines.specs.Outside.{outside};
ghost use Rattle.dm_words.specs.Requests.{request_of};
ghost use Rattle.dm_running.specs.Endings.{EndsRunAs, EndsWithInputAs};

use crate::explaining::explain_no_input;
use crate::finish::run_reading;
use crate::input::{Input, find_input};
use crate::reading::read_once;
use dm_io::{Folder, Sink};
use dm_lines::explain_stop;
use dm_search::Loader;
use dm_token::{Memory, Unit};
use dm_words::RunWords;
use std::alloc::Global;

/// Runs a unit as words ask: puts what its program writes and how the run ends, or why there is none. The project and the
/// main file that the words name are those of the unit.
pub fn run_unit<F: Folder, S: Sink>(
    alloc: Global,
    asked: &RunWords<'_>,
    unit: Unit,
    folder: &mut F,
    out: &mut S,
) -> Result<u8, Memory>
    requires { IsLawful unit }
    ensures ending { EndsRunAs (request_of asked.now) unit
        (outside F.Folder S.Sink folder.old out.old)
        (outside F.Folder S.Sink folder.new out.new) result }
    ensures folder_later { F.faults folder.old ≤ F.faults folder.new }
    ensures sink_later { S.faults out.old ≤ S.faults out.new }
{
    match asked.input {
        None => run_with(alloc, asked, unit, &[], folder, out),
        Some(name) => run_on(alloc, asked, unit, name, folder, out),
    }
}

/// Runs a unit on a file.
fn run_on<F: Folder, S: Sink>(
    alloc: Global,
    asked: &RunWords<'_>,
    unit: Unit,
    name: &[u8],
    folder: &mut F,
    out: &mut S,
) -> Result<u8, Memory>
    requires lawful { IsLawful unit }
    requires named { (request_of asked.now).input ≡ Some name.now }
    ensures ending { EndsRunAs (request_of asked.now) unit
        (outside F.Folder S.Sink folder.old out.old)
        (outside F.Folder S.Sink folder.new out.new) result }
    ensures folder_later { F.faults folder.old ≤ F.faults folder.new }
    ensures sink_later { S.faults out.old ≤ S.faults out.new }
{
    match find_input(alloc, folder, name)? {
        Input::Found(bytes) => run_with(alloc, asked, unit, bytes.items(), folder, out),
        Input::Lacking(why) => explain_no_input(alloc, out, name, why),
    }
}

/// Runs a unit on these bytes.
fn run_with<F: Folder, S: Sink>(
    alloc: Global,
    asked: &RunWords<'_>,
    unit: Unit,
    input: &[u8],
    folder: &mut F,
    out: &mut S,
) -> Result<u8, Memory>
    requires { IsLawful unit }
    ensures ending { EndsWithInputAs (request_of asked.now) unit input.now
        (outside F.Folder S.Sink folder.old out.old)
        (outside F.Folder S.Sink folder.new out.new) result }
    ensures folder_later { F.faults folder.old ≤ F.faults folder.new }
    ensures sink_later { S.faults out.old ≤ S.faults out.new }
{
    let mut loader = Loader::new(alloc)?;
    match read_once(alloc, folder, &mut loader, unit) {
        Ok(reading) => run_reading(alloc, asked, &reading, loader.names(), input, out),
        Err(stop) => explain_stop(alloc, out, loader.names(), stop),
    }
}
