ghost use Rattle.std.specs.Prelude.{◌≡◌, ◌≤◌, [], ◌∷◌, true, length, IfOk};
ghost use Rattle.dm_token.specs.Names.{is_normal_name as names_normally};
ghost use Rattle.dm_token.specs.Limits.{source_length_limit as length_limit};
ghost use Rattle.dm_manifest.specs.Units.{alone};
ghost use Rattle.dm_sources.specs.Sources.{AreLawful, AreShort, AreSought, ManifestGives};

use dm_io::{Folder, Got};
use dm_manifest::{ManifestFault, manifest, unit_alone};
use dm_token::{List, Memory, Text, Unit, is_normal_name, source_length_limit};
use std::alloc::Global;

/// What is found of a project's units.
#[derive(Debug, Drop)]
pub enum Sources {
    Found(List<Unit>),
    Missing(NoSources),
}

/// Why there are no units.
#[derive(Debug, Drop)]
pub enum NoSources {
    /// The project is no normal name.
    ProjectName,
    /// There is no manifest.
    NoManifest,
    /// The manifest is too long.
    TooLong,
    /// The manifest can't be read.
    ReadFault,
    /// The manifest isn't one.
    Manifest(ManifestFault),
}

/// The units of a project, which is a C file alone or a manifest.
pub fn sources_of<F: Folder>(
    alloc: Global,
    folder: &mut F,
    project: &Text,
) -> Result<Sources, Memory>
    ensures sought { IfOk result (AreSought (F.files folder.old) project.now (F.faults folder.old) (F.faults folder.new)) }
    ensures lawful { IfOk result AreLawful }
    ensures short { IfOk result AreShort }
    ensures files_stay { F.files folder.new ≡ F.files folder.old }
    ensures later { F.faults folder.old ≤ F.faults folder.new }
{
    if !is_normal_name(project.bytes()) {
        return Ok(Sources::Missing(NoSources::ProjectName));
    }
    if project.bytes().ends_with(b".c".as_slice()) {
        return file_alone(alloc, project);
    }
    match folder.read(alloc, project, source_length_limit())? {
        Got::Bytes(bytes) => listed(alloc, bytes.items()),
        Got::Absent => Ok(Sources::Missing(NoSources::NoManifest)),
        Got::Long => Ok(Sources::Missing(NoSources::TooLong)),
        Got::Failed => Ok(Sources::Missing(NoSources::ReadFault)),
    }
}

/// The unit of a C file alone.
fn file_alone(alloc: Global, project: &Text) -> Result<Sources, Memory>
    requires { names_normally project.now ≡ true }
    ensures sought { IfOk result (λ sought. sought ≡ Sources.Found (alone project.now ∷ [])) }
    ensures lawful { IfOk result AreLawful }
{
    let mut units = List::new(alloc);
    units.push(unit_alone(alloc, project)?)?;
    Ok(Sources::Found(units))
}

/// The units of a manifest.
fn listed(alloc: Global, bytes: &[u8]) -> Result<Sources, Memory>
    requires { length bytes.now ≤ length_limit }
    ensures sought { IfOk result (ManifestGives bytes.now) }
    ensures lawful { IfOk result AreLawful }
{
    match manifest(alloc, bytes) {
        Ok(units) => Ok(Sources::Found(units)),
        Err(ManifestFault::Memory) => Err(Memory),
        Err(fault) => Ok(Sources::Missing(NoSources::Manifest(fault))),
    }
}
