//! The memory that applying a plan needs.

ghost use Rattle.std.specs.Prelude.{◌≡◌, ◌≤◌, ℕ, List as Sequence, length, map, bytes_eq, All, OnOk};
ghost use Rattle.std.specs.List.{IsDistinct};
ghost use Rattle.dm_io.specs.Files.{HasFile};
ghost use Rattle.dm_edit.specs.declared.plan.Changed.{Changed};
ghost use Rattle.dm_apply.specs.Commits.{HasRoom, HasOutputRoom};

use crate::prepared::Prepared;
use dm_edit::Changed;
use dm_io::{Folder, Sink};
use dm_token::{Memory, Text};
use std::alloc::Global;

/// Makes the folder ready for the new bytes of each file, and the sink for the report and any line of a write fault.
pub(crate) fn make_ready<F: Folder, S: Sink>(
    alloc: Global,
    prepared: &Prepared,
    folder: &mut F,
    out: &mut S,
) -> Result<(), Memory>
    requires there { All (λ (file : Changed). HasFile (F.files folder.old) file.name) prepared.now.files }
    requires apart { IsDistinct bytes_eq (map (λ (file : Changed). file.name) prepared.now.files) }
    ensures room { OnOk result (All (HasRoom (F.room folder.new)) prepared.now.files) }
    ensures out_room { OnOk result (HasOutputRoom prepared.now (S.room out.new)) }
    ensures files_stay { F.files folder.new ≡ F.files folder.old }
    ensures folder_faults_stay { F.faults folder.new ≡ F.faults folder.old }
    ensures written_stays { S.written out.new ≡ S.written out.old }
    ensures sink_faults_stay { S.faults out.new ≡ S.faults out.old }
{
    make_rooms(alloc, prepared.files.items(), folder)?;
    let most = longest(prepared.lines.items()).max(prepared.report.bytes().len());
    out.ready(alloc, most)?;
    Ok(())
}

/// Makes the folder ready for the new bytes of each file.
fn make_rooms<F: Folder>(alloc: Global, files: &[Changed], folder: &mut F) -> Result<(), Memory>
    requires there { All (λ (file : Changed). HasFile (F.files folder.old) file.name) files.now }
    requires apart { IsDistinct bytes_eq (map (λ (file : Changed). file.name) files.now) }
    ensures room { OnOk result (All (HasRoom (F.room folder.new)) files.now) }
    ensures files_stay { F.files folder.new ≡ F.files folder.old }
    ensures faults_stay { F.faults folder.new ≡ F.faults folder.old }
{
    for file in files {
        folder.ready(alloc, &file.name, file.bytes.len())?;
    }
    Ok(())
}

/// The length of the longest text, or 0.
fn longest(texts: &[Text]) -> usize
    ensures { All (λ (text : Sequence ℕ). length text ≤ result) texts.now }
{
    texts
        .iter()
        .map(|text| text.bytes().len())
        .max()
        .unwrap_or(0)
}
