//! The definitions that are judged.

ghost use Rattle.std.specs.Prelude.{◌≡◌, ◌<◌, IfOk, length, map};
ghost use Rattle.dm_readings.specs.Definitions.{definitions_in};
ghost use Rattle.dm_search.specs.Loaded.{Loaded};
ghost use Rattle.dm_subjects.specs.Newlines.{newlines_of};
ghost use Rattle.dm_subjects.specs.Subjects as seen;

use crate::newlines::{line_in, newlines_of_files};
use crate::subject::Subject;
use dm_reading::{Reading, copy_of_definition};
use dm_readings::{Key, definitions};
use dm_search::Loader;
use dm_token::{Definition, List, Memory};
use std::alloc::Global;

/// A definition with its key, where these are the offsets of the newlines of each file.
fn subject_of(
    alloc: Global,
    newlines: &[List<usize>],
    definition: &Definition,
) -> Result<Subject, Memory>
    ensures { IfOk result (λ subject. (loaded : Loaded) → length loaded.held ≡ length loaded.names → newlines.now ≡ newlines_of loaded →
        subject ≡ seen.subject_of loaded definition.now) }
{
    let file = definition.place.file;
    Ok(Subject {
        key: Key {
            file,
            line: line_in(newlines, file, definition.hash),
        },
        definition: copy_of_definition(alloc, definition)?,
    })
}

/// Definitions with their keys.
fn subjects_of(
    alloc: Global,
    loader: &Loader,
    found: &[&Definition],
) -> Result<List<Subject>, Memory>
    requires room { length loader.now.names < 4294967295 }
    ensures { IfOk result (λ subjects. subjects ≡ map (seen.subject_of loader.now) (map (λ one. one.now) found.now)) }
{
    let newlines = newlines_of_files(alloc, loader)?;
    let mut subjects = List::new(alloc);
    for definition in found {
        subjects.push(subject_of(alloc, newlines.items(), definition)?)?;
    }
    Ok(subjects)
}

/// The definitions in files, each once, in the order of first reading, with their keys. Goes once through the bytes of all files.
pub fn subjects(
    alloc: Global,
    loader: &Loader,
    readings: &[Reading],
) -> Result<List<Subject>, Memory>
    requires room { length loader.now.names < 4294967295 }
    ensures { IfOk result (λ found. found ≡ map (seen.subject_of loader.now) (definitions_in readings.now)) }
{
    let found = definitions(alloc, readings)?;
    subjects_of(alloc, loader, found.as_slice())
}
