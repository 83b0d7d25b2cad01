ghost use Rattle.std.specs.Prelude.{◌≡◌, ◌≢◌, ◌≤◌, ◌↔◌, ℕ, List as Sequence, Option, Some, None, length, IsTrue, IfOk, OnOk, OnErr, false, true};
ghost use Rattle.std.specs.Bool.{OnTrue, OnFalse};
ghost use Rattle.std.specs.Option.{option_copied};
ghost use Rattle.std.specs.FinMap as finite;
ghost use Rattle.dm_io.specs.Files.{Files, HasFile, MayHaveSpoiled, with_file, file_at};
ghost use Rattle.dm_io.specs.Faults.{Rose};
ghost use Rattle.dm_io.specs.Answers.{IsAnswer, HasAtMost, reading_of};
ghost use Rattle.dm_io.specs.Calls.{no_calls, is_due, after_call};
ghost use Rattle.dm_io.specs.MemoryFolder.{files_of, calls_of, room_of};

use crate::calls::Calls;
use crate::folder::{Folder, Got};
use crate::shelf::{find_file, make_room_for, replace_file};
use crate::stored::Stored;
use dm_token::{List, Memory, Text};
use std::alloc::Global;

/// A folder of files in memory, some of whose calls are to fail.
///
/// Readings and writes are numbered from 0 in the order of calls. Such a call fails exactly where its number is
/// listed: then it raises a fault and changes no bytes.
#[derive(Debug, Drop)]
pub struct MemoryFolder {
    files: Vec<Stored>,
    calls: Calls,
}

impl MemoryFolder {
    /// A folder without files. It takes no memory.
    pub fn new(alloc: Global, failing: List<u32>) -> MemoryFolder
        ensures files { files_of result ≡ finite.empty }
        ensures calls { calls_of result ≡ no_calls failing }
    {
        MemoryFolder {
            files: Vec::new(alloc),
            calls: Calls::new(failing),
        }
    }

    /// Adds a file. It isn't one of the numbered calls, and after an `Err` nothing is changed.
    pub fn add(&mut self, name: &Text, bytes: &[u8]) -> Result<(), Memory>
        requires { file_at (files_of self.old) name.now ≡ None }
        ensures ok { OnOk result (files_of self.new ≡ finite.insert (files_of self.old) name.now bytes.now) }
        ensures err { OnErr result (files_of self.new ≡ files_of self.old) }
        ensures calls { calls_of self.new ≡ calls_of self.old }
    {
        let stored = Stored::new(*self.files.allocator(), name.bytes(), bytes)?;
        self.files.push(stored)?;
        Ok(())
    }

    /// The bytes of a file.
    pub fn file(&self, name: &Text) -> Option<&[u8]>
        ensures { option_copied result ≡ file_at (files_of self.now) name.now }
    {
        let stored = find_file(&self.files, name.bytes())?;
        Some(stored.bytes())
    }
}

impl Folder for MemoryFolder {
    ghost files = { λ folder. Some (files_of folder) };

    ghost room = { room_of };

    ghost faults = { λ folder. (calls_of folder).faults };

    fn read(&mut self, alloc: Global, name: &Text, most: usize) -> Result<Got, Memory>
        ensures answer { IfOk result (IsAnswer (Some (files_of self.old)) name.now most) }
        ensures bounded { IfOk result (HasAtMost most) }
        ensures failed { result ≡ Ok Got.Failed → Rose (calls_of self.old).faults (calls_of self.new).faults }
        ensures files_stay { Some (files_of self.new) ≡ Some (files_of self.old) }
        ensures rooms_stay { (other : Sequence ℕ) → room_of self.new other ≡ room_of self.old other }
        ensures later { (calls_of self.old).faults ≤ (calls_of self.new).faults }

        // It fails exactly where the call is listed, and counts as one call.
        ensures due { IsTrue (is_due (calls_of self.old)) ↔ (result ≡ Ok Got.Failed) }
        ensures counted { calls_of self.new ≡ after_call (calls_of self.old) }
    {
        if self.calls.next_fails() {
            return Ok(Got::Failed);
        }
        copy_of(alloc, self.file(name), most)
    }

    fn ready(&mut self, _alloc: Global, name: &Text, most: usize) -> Result<(), Memory>
        requires { HasFile (Some (files_of self.old)) name.now }
        ensures ready { OnOk result (most ≤ room_of self.new name.now) }
        ensures err { OnErr result (room_of self.new name.now ≡ room_of self.old name.now) }
        ensures files_stay { Some (files_of self.new) ≡ Some (files_of self.old) }
        ensures rooms_stay { (other : Sequence ℕ) → other ≢ name.now → room_of self.new other ≡ room_of self.old other }
        ensures faults_stay { (calls_of self.new).faults ≡ (calls_of self.old).faults }

        // It isn't one of the numbered calls.
        ensures calls_stay { calls_of self.new ≡ calls_of self.old }
    {
        make_room_for(&mut self.files, name.bytes(), most)
    }

    fn write(&mut self, name: &Text, bytes: &[u8]) -> bool
        requires there { HasFile (Some (files_of self.old)) name.now }
        requires ready { length bytes.now ≤ room_of self.old name.now }
        ensures written { OnTrue result (Some (files_of self.new) ≡ with_file (Some (files_of self.old)) name.now bytes.now) }
        ensures spoiled { OnFalse result (MayHaveSpoiled (Some (files_of self.old)) (Some (files_of self.new)) name.now) }
        ensures failed { result ≡ false → Rose (calls_of self.old).faults (calls_of self.new).faults }
        ensures rooms_stay { (other : Sequence ℕ) → room_of self.new other ≡ room_of self.old other }
        ensures later { (calls_of self.old).faults ≤ (calls_of self.new).faults }

        // It fails exactly where the call is listed, then changes nothing, and counts as one call.
        ensures due { IsTrue (is_due (calls_of self.old)) ↔ (result ≡ false) }
        ensures unchanged { result ≡ false → files_of self.new ≡ files_of self.old }
        ensures counted { calls_of self.new ≡ after_call (calls_of self.old) }
    {
        if self.calls.next_fails() {
            return false;
        }
        replace_file(&mut self.files, name.bytes(), bytes);
        true
    }
}

/// A copy of a file of at most so many bytes.
fn copy_of(alloc: Global, found: Option<&[u8]>, most: usize) -> Result<Got, Memory>
    ensures { IfOk result (λ got. got ≡ reading_of (option_copied found.entry) most) }
{
    match found {
        None => Ok(Got::Absent),
        Some(bytes) if bytes.len() > most => Ok(Got::Long),
        Some(bytes) => Ok(Got::Bytes(List::from_vec(Vec::from_slice(alloc, bytes)?))),
    }
}
