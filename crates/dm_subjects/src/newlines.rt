//! The offsets of the newlines of files, by which the lines of many bytes are found.

ghost use Rattle.std.specs.Prelude.{◌≡◌, ◌<◌, ℕ, List as Sequence, [], IfOk, length, slice_index_or};
ghost use Rattle.dm_token.specs.Places.{line_at};
ghost use Rattle.dm_search.specs.Loaded.{Loaded};
ghost use Rattle.dm_subjects.specs.Newlines.{newlines_from, newlines_of};
ghost use Rattle.dm_subjects.specs.Subjects as seen;

use crate::held::bytes_at;
use dm_search::Loader;
use dm_token::{List, Memory};
use std::alloc::Global;

/// The offsets of the newlines among bytes.
fn newlines_in(alloc: Global, bytes: &[u8]) -> Result<List<usize>, Memory>
    ensures { IfOk result (λ offsets. offsets ≡ newlines_from 0 bytes.now) }
{
    let mut offsets = List::new(alloc);
    for (at, byte) in bytes.iter().enumerate() {
        if *byte == b'\n' {
            offsets.push(at)?;
        }
    }
    Ok(offsets)
}

/// Those of the newlines of each file, by its number.
pub(crate) fn newlines_of_files(alloc: Global, loader: &Loader) -> Result<List<List<usize>>, Memory>
    requires room { length loader.now.names < 4294967295 }
    ensures newlines { IfOk result (λ newlines. newlines ≡ newlines_of loader.now) }
    ensures slots { length loader.now.held ≡ length loader.now.names }
{
    let count = loader.names().len();
    let mut newlines = List::new(alloc);
    for file in 0..count {
        newlines.push(newlines_in(alloc, bytes_at(loader, file as u32))?)?;
    }
    Ok(newlines)
}

/// Those of a file, or none where there is no such file.
fn newlines_at(newlines: &[List<usize>], file: u32) -> &[usize]
    ensures { result.now ≡ slice_index_or newlines.now file [] }
{
    match newlines.get(file as usize) {
        Some(offsets) => offsets.items(),
        None => &[],
    }
}

/// The line of the byte at an offset, where these are the offsets of the newlines.
fn line_by(newlines: &[usize], offset: u32) -> usize
    ensures { (bytes : Sequence ℕ) → newlines.now ≡ newlines_from 0 bytes → result ≡ line_at bytes offset }
{
    1 + newlines.partition_point(|newline| *newline < offset as usize)
}

/// The line of the byte at an offset of a file.
pub(crate) fn line_in(newlines: &[List<usize>], file: u32, offset: u32) -> usize
    ensures { (loaded : Loaded) → length loaded.held ≡ length loaded.names → newlines.now ≡ newlines_of loaded →
        result ≡ line_at (seen.bytes_at loaded file) offset }
{
    line_by(newlines_at(newlines, file), offset)
}
