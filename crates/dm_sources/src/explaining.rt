ghost use Rattle.std.specs.Prelude.{◌≡◌, ◌≤◌, IfOk, OnOk, OnErr};
ghost use Rattle.dm_lines.specs.Puts.{PutsText};
ghost use Rattle.dm_lines.specs.Lines.{manifest_line as manifest_text};
ghost use Rattle.dm_lines.specs.ManifestFaults as faults;
ghost use Rattle.dm_lines.specs.Statuses as statuses;
ghost use Rattle.dm_sources.specs.Explanations.{line_of_fault, line_without_sources, line_without_unit, status_of_fault, status_without_sources, status_without_unit};

use crate::finding::NoUnit;
use crate::project::NoSources;
use dm_io::Sink;
use dm_lines::{limit_line, manifest_faults, manifest_line, put_line, read_fault_line, statuses};
use dm_manifest::ManifestFault;
use dm_token::{Memory, limit_numbers};
use std::alloc::Global;

/// Puts why a project has no units, and answers the status.
pub fn explain_no_sources<S: Sink>(
    alloc: Global,
    out: &mut S,
    project: &[u8],
    why: &NoSources,
) -> Result<u8, Memory>
    ensures put { OnOk result (PutsText (S.written out.old) (S.written out.new) (S.faults out.old) (S.faults out.new) (line_without_sources project.now why.now)) }
    ensures status { IfOk result (λ status. status ≡ status_without_sources why.now) }
    ensures err { OnErr result (S.written out.new ≡ S.written out.old) }
    ensures later { S.faults out.old ≤ S.faults out.new }
{
    let line = line_about_sources(alloc, project, why)?;
    put_line(alloc, out, line.as_slice())?;
    Ok(status_about_sources(why))
}

/// Puts why a project has no unit with this main file, and answers the status.
pub fn explain_no_unit<S: Sink>(
    alloc: Global,
    out: &mut S,
    project: &[u8],
    file: &[u8],
    why: &NoUnit,
) -> Result<u8, Memory>
    ensures put { OnOk result (PutsText (S.written out.old) (S.written out.new) (S.faults out.old) (S.faults out.new) (line_without_unit project.now file.now why.now)) }
    ensures status { IfOk result (λ status. status ≡ status_without_unit why.now) }
    ensures err { OnErr result (S.written out.new ≡ S.written out.old) }
    ensures later { S.faults out.old ≤ S.faults out.new }
{
    match why {
        NoUnit::Unfound(why) => explain_no_sources(alloc, out, project, why),
        NoUnit::Unlisted => explain_unlisted(alloc, out, file),
    }
}

/// Puts that no unit has this main file, and answers the status.
fn explain_unlisted<S: Sink>(alloc: Global, out: &mut S, file: &[u8]) -> Result<u8, Memory>
    ensures put { OnOk result (PutsText (S.written out.old) (S.written out.new) (S.faults out.old) (S.faults out.new) (manifest_text faults.unlisted file.now)) }
    ensures status { IfOk result (λ status. status ≡ statuses.manifest_fault) }
    ensures err { OnErr result (S.written out.new ≡ S.written out.old) }
    ensures later { S.faults out.old ≤ S.faults out.new }
{
    let line = manifest_line(alloc, manifest_faults::UNLISTED, file)?;
    put_line(alloc, out, line.as_slice())?;
    Ok(statuses::MANIFEST_FAULT)
}

fn line_about_sources(alloc: Global, project: &[u8], why: &NoSources) -> Result<Vec<u8>, Memory>
    ensures { IfOk result (λ line. line.items ≡ line_without_sources project.now why.now) }
{
    match why {
        NoSources::ProjectName => manifest_line(alloc, manifest_faults::NAME, project),
        NoSources::NoManifest => manifest_line(alloc, manifest_faults::ABSENT, project),
        NoSources::TooLong => limit_line(alloc, limit_numbers::FILE_BYTES, project),
        NoSources::ReadFault => read_fault_line(alloc, project),
        NoSources::Manifest(fault) => line_about_fault(alloc, project, fault),
    }
}

fn line_about_fault(alloc: Global, project: &[u8], fault: &ManifestFault) -> Result<Vec<u8>, Memory>
    ensures { IfOk result (λ line. line.items ≡ line_of_fault project.now fault.now) }
{
    match fault {
        ManifestFault::Memory => Err(Memory),
        ManifestFault::Json => manifest_line(alloc, manifest_faults::JSON, project),
        ManifestFault::Shape(path) => manifest_line(alloc, manifest_faults::SHAPE, path.bytes()),
        ManifestFault::Name(path) => manifest_line(alloc, manifest_faults::NAME, path.bytes()),
        ManifestFault::Define(path) => manifest_line(alloc, manifest_faults::DEFINE, path.bytes()),
        ManifestFault::Twice(path) => manifest_line(alloc, manifest_faults::TWICE, path.bytes()),
        ManifestFault::TooMany => limit_line(alloc, limit_numbers::UNITS, project),
    }
}

fn status_about_sources(why: &NoSources) -> u8
    ensures { result ≡ status_without_sources why.now }
{
    match why {
        NoSources::TooLong => statuses::LIMIT_PASSED,
        NoSources::ReadFault => statuses::READ_FAULT,
        NoSources::Manifest(fault) => status_about_fault(fault),
        NoSources::ProjectName | NoSources::NoManifest => statuses::MANIFEST_FAULT,
    }
}

fn status_about_fault(fault: &ManifestFault) -> u8
    ensures { result ≡ status_of_fault fault.now }
{
    match fault {
        ManifestFault::Memory => statuses::MEMORY_WANTED,
        ManifestFault::TooMany => statuses::LIMIT_PASSED,
        ManifestFault::Json
        | ManifestFault::Shape(_)
        | ManifestFault::Name(_)
        | ManifestFault::Define(_)
        | ManifestFault::Twice(_) => statuses::MANIFEST_FAULT,
    }
}
