ghost use Rattle.std.specs.Prelude.{◌≡◌, ◌≤◌, All, IfOk};
ghost use Rattle.dm_manifest.specs.Units.{IsLawful};
ghost use Rattle.dm_sources.specs.Sources.{IsLawfulUnit, IsShortUnit, IsSought, ListGives};

use crate::project::{NoSources, Sources, sources_of};
use dm_io::Folder;
use dm_token::{List, Memory, Text, Unit};
use std::alloc::Global;

/// What is found of the unit that is asked for.
#[derive(Debug, Drop)]
pub enum Sought {
    Found(Unit),
    Missing(NoUnit),
}

/// Why there is no such unit.
#[derive(Debug, Drop)]
pub enum NoUnit {
    /// The project has no units.
    Unfound(NoSources),
    /// None of its units has this main file.
    Unlisted,
}

/// The first unit with a main file in a project, which is a C file alone or a manifest.
pub fn find_unit<F: Folder>(
    alloc: Global,
    folder: &mut F,
    project: &Text,
    file: &Text,
) -> Result<Sought, Memory>
    ensures sought { IfOk result (IsSought (F.files folder.old) project.now file.now (F.faults folder.old) (F.faults folder.new)) }
    ensures lawful { IfOk result IsLawfulUnit }
    ensures short { IfOk result IsShortUnit }
    ensures files_stay { F.files folder.new ≡ F.files folder.old }
    ensures later { F.faults folder.old ≤ F.faults folder.new }
{
    match sources_of(alloc, folder, project)? {
        Sources::Found(units) => Ok(unit_in(units, file)),
        Sources::Missing(why) => Ok(Sought::Missing(NoUnit::Unfound(why))),
    }
}

/// The first unit with a main file in a list.
fn unit_in(units: List<Unit>, file: &Text) -> Sought
    requires { All IsLawful units }
    ensures sought { ListGives units file.now result }
    ensures lawful { IsLawfulUnit result }
{
    for unit in units.into_vec() {
        if unit.file == *file {
            return Sought::Found(unit);
        }
    }
    Sought::Missing(NoUnit::Unlisted)
}
