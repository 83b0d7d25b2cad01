//! The offsets of the bytes of lines.

ghost use Rattle.std.specs.Prelude.{◌≡◌, ◌↔◌, ◌<◌, ◌≤◌, ◌==◌, ℕ, Some as there, IfNone, IfOk, IfSome, slice_get, take};
ghost use Rattle.dm_token.specs.Places.{line_at, newlines};
ghost use Rattle.dm_subjects.specs.Lines as seen;
ghost use Rattle.dm_subjects.specs.Lines.{is_on};
ghost use Rattle.dm_subjects.specs.Newlines.{starts_from};
ghost use Rattle.dm_subjects.specs.Subjects as subjects;

use crate::held::bytes_at;
use dm_search::Loader;
use dm_token::{List, Memory};
use std::alloc::Global;

/// Where one line of a file begins, and where the next one does, if the file has them.
#[derive(Clone, Copy)]
pub(crate) struct Line {
    first: Option<usize>,
    next: Option<usize>,
}

impl Line {
    /// The line of this number, counted from 1.
    pub(crate) fn of(bytes: &[u8], number: usize) -> Line
        ensures { (offset : ℕ) → is_on result offset ≡ (line_at bytes.now offset == number) }
    {
        let Some(before) = number.checked_sub(1) else {
            return Line {
                first: None,
                next: None,
            };
        };
        Line {
            first: behind_newlines(bytes, before),
            next: behind_newlines(bytes, number),
        }
    }

    /// Its first byte and the one behind it, if another line follows. More bytes than a file may have count as none.
    pub(crate) fn bytes(&self) -> Option<(u32, u32)>
        ensures { IfSome result (λ bytes. (self.now.first ≡ there bytes.0) × (self.now.next ≡ there bytes.1)) }
    {
        let first = small(self.first)?;
        let next = small(self.next)?;
        Some((first, next))
    }

    /// Whether the byte at an offset stands on the line.
    pub(crate) fn has(&self, offset: u32) -> bool
        ensures { result ≡ is_on self.now offset }
    {
        reaches(offset, self.first) && !reaches(offset, self.next)
    }
}

/// Whether an offset is at or behind another one, if there is one.
fn reaches(offset: u32, from: Option<usize>) -> bool
    ensures { result ≡ seen.reaches offset from }
{
    match from {
        Some(from) => from <= offset as usize,
        None => false,
    }
}

/// The offset behind so many newlines, if there are so many.
fn behind_newlines(bytes: &[u8], count: usize) -> Option<usize>
    ensures found { IfSome result (λ from. (offset : ℕ) → (from ≤ offset) ↔ (count ≤ newlines (take offset bytes.now))) }
    ensures none { IfNone result ((offset : ℕ) → newlines (take offset bytes.now) < count) }
{
    let mut left = count;
    for (at, byte) in bytes.iter().enumerate() {
        if left == 0 {
            return Some(at);
        }
        if *byte == b'\n' {
            left -= 1;
        }
    }
    if left == 0 { Some(bytes.len()) } else { None }
}

/// A number of 32 bits.
fn small(number: Option<usize>) -> Option<u32>
    ensures { IfSome result (λ small. number ≡ there small) }
{
    match number {
        Some(number) if number <= u32::MAX as usize => Some(number as u32),
        _ => None,
    }
}

/// The lines of one file that a loader holds.
#[derive(Drop)]
pub struct Lines<'l> {
    pub loader: &'l Loader,
    pub file: u32,
    /// Where each line but the first begins.
    starts: List<usize>,
    ghost are_starts: { starts ≡ starts_from 0 (subjects.bytes_at loader.now file) },
}

/// Where lines begin behind the newlines among bytes.
fn starts_in(alloc: Global, bytes: &[u8]) -> Result<List<usize>, Memory>
    ensures { IfOk result (λ starts. starts ≡ starts_from 0 bytes.now) }
{
    let mut starts = List::new(alloc);
    for (at, byte) in bytes.iter().enumerate() {
        if *byte == b'\n' {
            starts.push(at + 1)?;
        }
    }
    Ok(starts)
}

impl<'l> Lines<'l> {
    /// Those of a file. Goes once through its bytes.
    pub fn of(alloc: Global, loader: &'l Loader, file: u32) -> Result<Lines<'l>, Memory>
        ensures loader { IfOk result (λ made. made.loader.now ≡ loader.now) }
        ensures file { IfOk result (λ made. made.file ≡ file) }
    {
        let starts = starts_in(alloc, bytes_at(loader, file))?;
        Ok(Lines {
            loader,
            file,
            starts,
        })
    }

    /// Those of this file, whose bytes are gone through where they are of another file.
    pub fn at(self, alloc: Global, file: u32) -> Result<Lines<'l>, Memory>
        ensures loader { IfOk result (λ made. made.loader.now ≡ self.entry.loader.now) }
        ensures file { IfOk result (λ made. made.file ≡ file) }
    {
        if self.file == file {
            return Ok(self);
        }
        let lines = Lines::of(alloc, self.loader, file)?;
        Ok(lines)
    }

    /// The line of this number, counted from 1.
    pub(crate) fn line(&self, number: usize) -> Line
        ensures { (offset : ℕ) → is_on result offset ≡ (line_at (subjects.bytes_at self.now.loader.now self.now.file) offset == number) }
    {
        let Some(before) = number.checked_sub(1) else {
            return Line {
                first: None,
                next: None,
            };
        };
        Line {
            first: self.start(before),
            next: self.start(number),
        }
    }

    /// Where the line behind so many newlines begins, if there are so many.
    fn start(&self, count: usize) -> Option<usize>
        ensures found { IfSome result (λ from. (offset : ℕ) → (from ≤ offset) ↔ (count ≤ newlines (take offset (subjects.bytes_at self.now.loader.now self.now.file)))) }
        ensures none { IfNone result ((offset : ℕ) → newlines (take offset (subjects.bytes_at self.now.loader.now self.now.file)) < count) }
    {
        if count == 0 {
            return Some(0);
        }
        start_at(self.starts.items(), count - 1)
    }
}

/// Where the line of this number among some begins, if there is one.
fn start_at(starts: &[usize], number: usize) -> Option<usize>
    ensures { result ≡ slice_get starts.now number }
{
    starts.get(number).copied()
}
