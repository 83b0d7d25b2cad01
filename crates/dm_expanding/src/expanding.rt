ghost use Rattle.std.specs.Prelude.{◌≡◌, ◌≤◌, true};
ghost use Rattle.dm_sources.specs.Sources.{HasShortDefines};
ghost use Rattle.dm_lines.specs.Outside.{outside};
ghost use Rattle.dm_expanding.specs.Endings.{EndsExpandingAs, EndsWithAs};

use crate::listing::put_listing;
use dm_io::{Folder, Sink};
use dm_lines::explain_stop;
use dm_search::Loader;
use dm_sources::{Sought, explain_no_unit, find_unit};
use dm_token::{Memory, Text, Unit};
use dm_unit::unit_tokens;
use std::alloc::Global;

/// Expands the unit of a project with this main file: puts its tokens, or why there are none.
pub fn expand<F: Folder, S: Sink>(
    alloc: Global,
    project: &[u8],
    file: &[u8],
    folder: &mut F,
    out: &mut S,
) -> Result<u8, Memory>
    ensures ending { EndsExpandingAs project.now file.now
        (outside F.Folder S.Sink folder.old out.old)
        (outside F.Folder S.Sink folder.new out.new) result }
    ensures folder_later { F.faults folder.old ≤ F.faults folder.new }
    ensures sink_later { S.faults out.old ≤ S.faults out.new }
{
    let project = Text::from_bytes(alloc, project)?;
    let file = Text::from_bytes(alloc, file)?;
    match find_unit(alloc, folder, &project, &file)? {
        Sought::Found(unit) => expand_unit(alloc, &unit, folder, out),
        Sought::Missing(why) => explain_no_unit(alloc, out, project.bytes(), file.bytes(), &why),
    }
}

/// Expands a unit.
fn expand_unit<F: Folder, S: Sink>(
    alloc: Global,
    unit: &Unit,
    folder: &mut F,
    out: &mut S,
) -> Result<u8, Memory>
    requires { HasShortDefines unit.now }
    ensures ending { EndsWithAs unit.now
        (outside F.Folder S.Sink folder.old out.old)
        (outside F.Folder S.Sink folder.new out.new) result }
    ensures folder_later { F.faults folder.old ≤ F.faults folder.new }
    ensures sink_later { S.faults out.old ≤ S.faults out.new }
{
    let mut loader = Loader::new(alloc)?;
    match unit_tokens(alloc, folder, &mut loader, unit) {
        Ok(tokens) => put_listing(alloc, out, &tokens),
        Err(stop) => explain_stop(alloc, out, loader.names(), stop),
    }
}
