ghost use Rattle.std.specs.Prelude.{◌≡◌, ◌≤◌};
ghost use Rattle.dm_lines.specs.Outside.{outside};
ghost use Rattle.dm_words.specs.Requests.{request_of, run};
ghost use Rattle.demacro.specs.Endings.{EndsForAs};

use dm_io::{Folder, Sink};
use dm_running::run_unit;
use dm_sources::{Sought, explain_no_unit, find_unit};
use dm_token::{Memory, Text};
use dm_words::RunWords;
use std::alloc::Global;

/// Runs the unit of a project that words ask for: puts what its program writes and how the run ends, or why there is none.
pub fn run_program<F: Folder, S: Sink>(
    alloc: Global,
    asked: &RunWords<'_>,
    folder: &mut F,
    out: &mut S,
) -> Result<u8, Memory>
    ensures ending { EndsForAs (run (request_of asked.now))
        (outside F.Folder S.Sink folder.old out.old)
        (outside F.Folder S.Sink folder.new out.new) result }
    ensures folder_later { F.faults folder.old ≤ F.faults folder.new }
    ensures sink_later { S.faults out.old ≤ S.faults out.new }
{
    let project = Text::from_bytes(alloc, asked.project)?;
    let file = Text::from_bytes(alloc, asked.file)?;
    match find_unit(alloc, folder, &project, &file)? {
        Sought::Found(unit) => run_unit(alloc, asked, unit, folder, out),
        Sought::Missing(why) => explain_no_unit(alloc, out, project.bytes(), file.bytes(), &why),
    }
}
