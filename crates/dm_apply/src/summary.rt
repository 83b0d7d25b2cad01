//! The summary of a plan of a generated project.

ghost use Rattle.std.specs.Prelude.{◌≡◌, IfOk, Some, length};
ghost use Rattle.dm_io.specs.Files.{Files};
ghost use Rattle.dm_io.specs.MemoryFolder.{files_of as files_in};
ghost use Rattle.dm_report.specs.Counts.{kept_count as kept_number, rewritten_count as rewritten_number};
ghost use Rattle.dm_last.specs.Last.{with_files};
ghost use Rattle.dm_apply.specs.Summaries.{bytes_at, summary_line};

use dm_edit::{Changed, Plan};
use dm_io::MemoryFolder;
use dm_lines::append_all;
use dm_report::{kept_count, rewritten_count};
use dm_token::{Memory, Text};
use itoa::Buffer;
use std::alloc::Global;

/// How many bytes a file has, 0 where there is none.
pub(crate) fn size_of(files: &MemoryFolder, name: &Text) -> usize
    ensures { result ≡ length (bytes_at (Some (files_in files.now)) name.now) }
{
    files.file(name).map_or(0, |bytes| bytes.len())
}

/// How many bytes a file has when others are written, where it had so many before.
pub(crate) fn size_behind(old: usize, files: &[Changed], name: &Text) -> usize
    ensures { (folder : Files) → old ≡ length (bytes_at (Some folder) name.now)
        → result ≡ length (bytes_at (with_files (Some folder) files.now) name.now) }
{
    let mut size = old;
    for file in files {
        if *name == file.name {
            size = file.bytes.len();
        }
    }
    size
}

/// How many definitions a plan has, how many of them are rewritten and kept, and how many bytes there were and are.
pub(crate) fn summary_of(
    alloc: Global,
    plan: &Plan,
    old: usize,
    new: usize,
) -> Result<Vec<u8>, Memory>
    ensures { IfOk result (λ text. text.items ≡ summary_line (length plan.now.entries) (rewritten_number plan.now.entries)
        (kept_number plan.now.entries) old new) }
{
    let mut definitions = Buffer::new();
    let mut rewritten = Buffer::new();
    let mut kept = Buffer::new();
    let mut before = Buffer::new();
    let mut after = Buffer::new();
    let entries = plan.entries.items();
    let mut text = Vec::new(alloc);
    append_all(
        &mut text,
        &[
            b"definitions ",
            definitions.format(entries.len()).as_bytes(),
            b" rewritten ",
            rewritten.format(rewritten_count(entries)).as_bytes(),
            b" kept ",
            kept.format(kept_count(entries)).as_bytes(),
            b" bytes ",
            before.format(old).as_bytes(),
            b" ",
            after.format(new).as_bytes(),
            b"\n",
        ],
    )?;
    Ok(text)
}
