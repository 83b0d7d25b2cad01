//! The files that are written.

ghost use Rattle.std.specs.Prelude.{◌≡◌, ◌<◌, true, false, IfOk, IsPermutation, IsSortedByKey, filter, length, map, slice_index_or, slice_set};
ghost use Rattle.std.specs.List.{range_with_len};
ghost use Rattle.std.specs.Cmp.Lexicographic.{slice_cmp};
ghost use Rattle.std.specs.Ordering.{nat_cmp};
ghost use Rattle.dm_subjects.specs.Files as seen;
ghost use Rattle.dm_subjects.specs.Files.{changed_file, is_edited, with_mark};

use crate::held::bytes_at;
use dm_edit::{Changed, Entry, Fate};
use dm_search::Loader;
use dm_token::{List, Memory};
use std::alloc::Global;

fn is_rewritten(outcome: Fate) -> bool
    ensures { result ≡ seen.is_rewritten outcome }
{
    matches!(outcome, Fate::Rewritten(_))
}

/// Marks a file, if it is among these.
fn mark(edited: &mut [bool], file: u32)
    ensures { edited.new ≡ slice_set edited.old file true }
{
    let file = file as usize;
    if file < edited.len() {
        edited[file] = true;
    }
}

/// Marks the file of a definition that is rewritten.
fn note(edited: &mut [bool], entry: &Entry)
    ensures { edited.new ≡ with_mark edited.old entry.now }
{
    if is_rewritten(entry.outcome) {
        mark(edited, entry.definition.place.file);
    }
}

/// Of each of so many files, whether a definition in it is rewritten.
fn edited_files(alloc: Global, count: usize, entries: &[Entry]) -> Result<Vec<bool>, Memory>
    ensures { IfOk result (λ edited. edited.items ≡ map (is_edited entries.now) (range_with_len 0 count)) }
{
    let mut edited = vec![in alloc; false; count]?;
    for entry in entries {
        note(edited.as_mut_slice(), entry);
    }
    Ok(edited)
}

/// A file as it is held.
fn held_file(alloc: Global, loader: &Loader, file: u32) -> Result<Changed, Memory>
    requires { file < length loader.now.names }
    ensures { IfOk result (λ one. one ≡ changed_file loader.now file) }
{
    Ok(Changed {
        name: loader.name(file).copy()?,
        bytes: List::from_vec(Vec::from_slice(alloc, bytes_at(loader, file))?),
    })
}

/// The files that are marked, as they are held, in the order of their numbers.
fn marked_files(alloc: Global, loader: &Loader, edited: &[bool]) -> Result<Vec<Changed>, Memory>
    requires room { length loader.now.names < 4294967295 }
    requires numbered { length edited.now ≡ length loader.now.names }
    ensures { IfOk result (λ files. files.items ≡ map (changed_file loader.now) (filter (λ file. slice_index_or edited.now file false) (range_with_len 0 (length edited.now)))) }
{
    let mut files = Vec::new(alloc);
    for (file, is_edited) in edited.iter().enumerate() {
        if *is_edited {
            files.push(held_file(alloc, loader, file as u32)?)?;
        }
    }
    Ok(files)
}

/// The files with a rewritten definition, as they are held, in the byte order of their names.
pub fn changed_files(
    alloc: Global,
    loader: &Loader,
    entries: &[Entry],
) -> Result<List<Changed>, Memory>
    requires room { length loader.now.names < 4294967295 }
    ensures files { IfOk result (IsPermutation (map (changed_file loader.now) (seen.edited_files loader.now entries.now))) }
    ensures ascending { IfOk result (IsSortedByKey (λ one. one.name) (slice_cmp nat_cmp)) }
{
    let edited = edited_files(alloc, loader.names().len(), entries)?;
    let mut files = marked_files(alloc, loader, edited.as_slice())?;
    files.sort_by(|one, other| one.name.cmp(&other.name))?;
    Ok(List::from_vec(files))
}
