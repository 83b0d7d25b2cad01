ghost use Rattle.std.specs.Prelude.{◌≡◌, ◌++◌, OnOk};
ghost use Rattle.dm_report.specs.Counts.{kept_count as kept_number, rewritten_count as rewritten_number};
ghost use Rattle.dm_report.specs.Lines.{entry_line, kept_text, place_text, rewritten_line, summary_line};

use crate::counts::{kept_count, rewritten_count};
use crate::titles::title;
use crate::words::{file_name, kind_word};
use dm_edit::{Entry, Fate};
use dm_lines::append_all;
use dm_token::{Definition, Memory, Place, Text};
use itoa::Buffer;

/// Appends the line of a definition.
#[tactic(auto, unfolding(crate::specs::Lines::entry_line))]
pub fn append_entry(bytes: &mut Vec<u8>, names: &[Text], entry: &Entry) -> Result<(), Memory>
    ensures { OnOk result (bytes.new.items ≡ bytes.old.items ++ entry_line names.now entry.now) }
{
    let definition = &entry.definition;
    let file = file_name(names, definition.place.file);
    match entry.outcome {
        Fate::Rewritten(kind) => append_rewritten(bytes, file, definition, kind_word(kind)),
        Fate::Kept { rule, place } => {
            append_kept(bytes, file, definition, rule, title(rule))?;
            append_place(bytes, file_name(names, place.file), place)
        }
    }
}

fn append_rewritten<'a>(
    bytes: &mut Vec<u8>,
    file: &'a [u8],
    definition: &'a Definition,
    kind: &'a str,
) -> Result<(), Memory>
    ensures { OnOk result (bytes.new.items ≡ bytes.old.items ++ rewritten_line file.now definition.now kind.now) }
{
    let mut digits = Buffer::new();
    let line = digits.format(definition.place.line).as_bytes();
    let name = definition.name.bytes();
    let kind = kind.as_bytes();
    append_all(
        bytes,
        &[
            b"rewritten ",
            file,
            b":",
            line,
            b" ",
            name,
            b" ",
            kind,
            b"\n",
        ],
    )
}

/// Appends the line of a definition that is kept, up to the place that keeps it.
fn append_kept<'a>(
    bytes: &mut Vec<u8>,
    file: &'a [u8],
    definition: &'a Definition,
    rule: u8,
    title: &'a str,
) -> Result<(), Memory>
    ensures { OnOk result (bytes.new.items ≡ bytes.old.items ++ kept_text file.now definition.now rule title.now) }
{
    let mut line_digits = Buffer::new();
    let mut rule_digits = Buffer::new();
    let line = line_digits.format(definition.place.line).as_bytes();
    let name = definition.name.bytes();
    let number = rule_digits.format(rule).as_bytes();
    let title = title.as_bytes();
    append_all(
        bytes,
        &[
            b"kept ", file, b":", line, b" ", name, b" rule ", number, b" ", title, b" ",
        ],
    )
}

/// Appends a place and the end of the line.
fn append_place(bytes: &mut Vec<u8>, file: &[u8], place: Place) -> Result<(), Memory>
    ensures { OnOk result (bytes.new.items ≡ bytes.old.items ++ place_text file.now place) }
{
    let mut line_digits = Buffer::new();
    let mut column_digits = Buffer::new();
    let line = line_digits.format(place.line).as_bytes();
    let column = column_digits.format(place.column).as_bytes();
    append_all(bytes, &[file, b":", line, b":", column, b"\n"])
}

/// Appends how many definitions are rewritten, and how many are kept.
pub fn append_summary(bytes: &mut Vec<u8>, entries: &[Entry]) -> Result<(), Memory>
    ensures { OnOk result (bytes.new.items ≡ bytes.old.items
        ++ summary_line (rewritten_number entries.now) (kept_number entries.now)) }
{
    let mut rewritten_digits = Buffer::new();
    let mut kept_digits = Buffer::new();
    let rewritten = rewritten_digits.format(rewritten_count(entries)).as_bytes();
    let kept = kept_digits.format(kept_count(entries)).as_bytes();
    append_all(bytes, &[b"rewritten ", rewritten, b" kept ", kept, b"\n"])
}
