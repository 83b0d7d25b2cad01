//! The writes of a plan's files, and its report.

ghost use Rattle.std.specs.Prelude.{◌≡◌, ◌≤◌, ◌<◌, ℕ, length, All, Some, None, IfSome};
ghost use Rattle.dm_io.specs.Faults.{Rose};
ghost use Rattle.dm_io.specs.Files.{HasFile};
ghost use Rattle.dm_edit.specs.declared.plan.Changed.{Changed};
ghost use Rattle.dm_lines.specs.Outside.{outside};
ghost use Rattle.dm_last.specs.Last.{with_files};
ghost use Rattle.dm_apply.specs.Commits.{HasRoom, HasOutputRoom, IsCommittedAs, FailsAt};

use crate::prepared::Prepared;
use dm_edit::Changed;
use dm_io::{Folder, Sink};
use dm_lines::statuses;

/// Writes the files in their order, each once, and then puts the report. Answers status 0 where all is done, 6 where a file could not be
/// written, whose line is put then, and 7 where the report could not be put. It takes no memory.
pub fn commit<F: Folder, S: Sink>(prepared: &Prepared, folder: &mut F, out: &mut S) -> u8
    requires lines { length prepared.now.lines ≡ length prepared.now.files }
    requires there { All (λ (file : Changed). HasFile (F.files folder.old) file.name) prepared.now.files }
    requires room { All (HasRoom (F.room folder.old)) prepared.now.files }
    requires out_room { HasOutputRoom prepared.now (S.room out.old) }
    ensures committed { IsCommittedAs prepared.now
        (outside F.Folder S.Sink folder.old out.old)
        (outside F.Folder S.Sink folder.new out.new) result }
    ensures folder_later { F.faults folder.old ≤ F.faults folder.new }
    ensures sink_later { S.faults out.old ≤ S.faults out.new }
{
    if let Some(failed) = write_files(prepared.files.items(), folder) {
        let line = &prepared.lines.items()[failed];
        let _ = out.put(line.bytes());
        return statuses::WRITE_FAULT;
    }
    if out.put(prepared.report.bytes()) {
        statuses::DONE
    } else {
        statuses::OUTPUT_FAULT
    }
}

/// Writes files up to the first whose write fails, and gives its position.
fn write_files<F: Folder>(files: &[Changed], folder: &mut F) -> Option<usize>
    requires there { All (λ (file : Changed). HasFile (F.files folder.old) file.name) files.now }
    requires room { All (HasRoom (F.room folder.old)) files.now }
    ensures written { result ≡ None → F.files folder.new ≡ with_files (F.files folder.old) files.now }
    ensures inside { IfSome result (λ at. at < length files.now) }
    ensures spoiled { IfSome result (FailsAt (F.files folder.old) (F.files folder.new) files.now) }
    ensures failed { IfSome result (λ (_ : ℕ). Rose (F.faults folder.old) (F.faults folder.new)) }
    ensures later { F.faults folder.old ≤ F.faults folder.new }
{
    for (at, file) in files.iter().enumerate() {
        if !folder.write(&file.name, file.bytes.items()) {
            return Some(at);
        }
    }
    None
}
