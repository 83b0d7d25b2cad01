ghost use Rattle.std.specs.Prelude.{◌≡◌, ◌≤◌};
ghost use Rattle.dm_lines.specs.Outside.{outside};
ghost use Rattle.dm_words.specs.Requests.{apply, plan};
ghost use Rattle.demacro.specs.Endings.{EndsForAs};

use dm_apply::{apply_command, plan_command};
use dm_io::{Folder, Sink};
use dm_sources::{Sources, explain_no_sources, sources_of};
use dm_token::{Memory, Text};
use std::alloc::Global;

/// Plans the changes of a project's files: puts the report, or why there is none. No file is written.
pub fn plan_project<F: Folder, S: Sink>(
    alloc: Global,
    project: &[u8],
    json: bool,
    folder: &mut F,
    out: &mut S,
) -> Result<u8, Memory>
    ensures ending { EndsForAs (plan project.now json)
        (outside F.Folder S.Sink folder.old out.old)
        (outside F.Folder S.Sink folder.new out.new) result }
    ensures folder_later { F.faults folder.old ≤ F.faults folder.new }
    ensures sink_later { S.faults out.old ≤ S.faults out.new }
{
    let project = Text::from_bytes(alloc, project)?;
    match sources_of(alloc, folder, &project)? {
        Sources::Found(units) => plan_command(alloc, &project, units.items(), json, folder, out),
        Sources::Missing(why) => explain_no_sources(alloc, out, project.bytes(), &why),
    }
}

/// Changes a project's files as planned: writes them and puts the report, or puts why nothing is written.
pub fn apply_project<F: Folder, S: Sink>(
    alloc: Global,
    project: &[u8],
    json: bool,
    folder: &mut F,
    out: &mut S,
) -> Result<u8, Memory>
    ensures ending { EndsForAs (apply project.now json)
        (outside F.Folder S.Sink folder.old out.old)
        (outside F.Folder S.Sink folder.new out.new) result }
    ensures folder_later { F.faults folder.old ≤ F.faults folder.new }
    ensures sink_later { S.faults out.old ≤ S.faults out.new }
{
    let project = Text::from_bytes(alloc, project)?;
    match sources_of(alloc, folder, &project)? {
        Sources::Found(units) => apply_command(alloc, &project, units.items(), json, folder, out),
        Sources::Missing(why) => explain_no_sources(alloc, out, project.bytes(), &why),
    }
}
