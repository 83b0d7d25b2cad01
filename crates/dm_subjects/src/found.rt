//! Definitions that are found again.

ghost use Rattle.std.specs.Prelude.{◌≡◌, find};
ghost use Rattle.std.specs.List.{flat_map};
ghost use Rattle.std.specs.Option.{option_copied};
ghost use Rattle.dm_judge.specs.Proposals.{definitions_in};
ghost use Rattle.dm_rules.specs.Indexes.{readings_of};
ghost use Rattle.dm_subjects.specs.Lines as lines;
ghost use Rattle.dm_subjects.specs.Subjects as seen;

use crate::held::bytes_at;
use crate::lines::{Line, Lines};
use dm_reading::Reading;
use dm_readings::Key;
use dm_rules::Index;
use dm_search::Loader;
use dm_token::{Definition, Origin};

/// Whether a definition stands in a file with its `#` on a line.
fn stands_on(one: &Definition, file: u32, line: Line) -> bool
    ensures { result ≡ lines.stands_on file line one.now }
{
    matches!(one.origin, Origin::File) && one.place.file == file && line.has(one.hash)
}

/// The first definition on a line that a unit reads.
fn definition_in(reading: &Reading, file: u32, line: Line) -> Option<&Definition>
    ensures { option_copied result ≡ find (lines.stands_on file line) (definitions_in reading.now) }
{
    let mut left = reading.pp.read.items();
    while let Some((read, others)) = left.split_first() {
        if stands_on(&read.definition, file, line) {
            return Some(&read.definition);
        }
        left = others;
    }
    None
}

/// The first definition on a line that one of the units reads.
fn definition_on(readings: &[Reading], file: u32, line: Line) -> Option<&Definition>
    ensures { option_copied result ≡ find (lines.stands_on file line) (flat_map definitions_in readings.now) }
{
    let mut left = readings;
    while let Some((reading, others)) = left.split_first() {
        if let Some(definition) = definition_in(reading, file, line) {
            return Some(definition);
        }
        left = others;
    }
    None
}

/// The definition of a key, as the first unit that reads one has it. Goes through the bytes of its file, and through all definitions that
/// the units read, which `definition_by` doesn't.
pub fn definition_at<'a>(
    loader: &Loader,
    readings: &'a [Reading],
    key: Key,
) -> Option<&'a Definition>
    ensures { option_copied result ≡ seen.definition_at loader.now readings.now key }
{
    let line = Line::of(bytes_at(loader, key.file), key.line);
    definition_on(readings, key.file, line)
}

/// The first definition on a line that a unit reads. Each byte of the line is looked up, or each definition is tested where no line follows.
fn definition_by_index<'a>(index: &'a Index, file: u32, line: Line) -> Option<&'a Definition>
    ensures { option_copied result ≡ find (lines.stands_on file line) (definitions_in index.now.reading.now) }
{
    match line.bytes() {
        Some((from, to)) => index.first_between(file, from, to),
        None => definition_in(index.reading, file, line),
    }
}

/// The definition of a key in the file of these lines, as the first unit that reads one has it, by the indexes of the units.
pub fn definition_by<'a>(lines: &Lines, units: &'a [Index], key: Key) -> Option<&'a Definition>
    requires { lines.now.file ≡ key.file }
    ensures { option_copied result ≡ seen.definition_at lines.now.loader.now (readings_of units.now) key }
{
    let line = lines.line(key.line);
    for index in units {
        if let Some(definition) = definition_by_index(index, key.file, line) {
            return Some(definition);
        }
    }
    None
}
