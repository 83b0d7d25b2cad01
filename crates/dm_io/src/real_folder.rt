ghost use Rattle.std.specs.Prelude.{◌≡◌, ◌≤◌, ◌^◌, ℕ, List, None, Ok, IfOk, false, if◌then◌else◌};
ghost use Rattle.std.specs.Bool.{OnTrue, OnFalse};
ghost use Rattle.dm_token.specs.Names.{is_normal_name};
ghost use Rattle.dm_io.specs.Faults.{Rose, one_more};
ghost use Rattle.dm_io.specs.Answers.{HasAtMost};

use crate::disk::{read_file, replace_file};
use crate::folder::{Folder, Got};
use dm_token::{Memory, Text};
use std::alloc::Global;
use std::io::ErrorKind;
use std::rt::Files;

/// The real files below the current folder. It doesn't tell them.
///
/// A name that is no normal name has no file here. A folder, a pipe or a device in a file's place can't be read or
/// written. A file that is written keeps its permissions, and keeps its old bytes where the write fails, unless no
/// spare file can be made in its folder or its name is a symbolic link.
#[derive(Debug, Drop)]
pub struct RealFolder<R: Files> {
    files: R,
    /// How many errors there were, or the greatest number.
    faults: u64,
}

impl<R: Files> RealFolder<R> {
    ghost use Rattle.dm_io.specs.RealFolder.{faults_of};

    /// The files of the runtime, without faults so far. It takes no memory.
    pub fn new(files: R) -> RealFolder<R>
        ensures { faults_of result ≡ 0 }
    {
        RealFolder { files, faults: 0 }
    }
}

impl<R: Files> Folder for RealFolder<R> {
    ghost use Rattle.dm_io.specs.RealFolder.{faults_of, has_failed};

    ghost files = { λ _. None };

    ghost room = { λ _ _. 2 ^ 64 };

    ghost faults = { faults_of };

    fn read(&mut self, alloc: Global, name: &Text, most: usize) -> Result<Got, Memory>
        ensures bounded { IfOk result (HasAtMost most) }
        ensures failed { result ≡ Ok Got.Failed → Rose (faults_of self.old) (faults_of self.new) }
        ensures later { faults_of self.old ≤ faults_of self.new }

        // A fault is counted exactly where the reading failed.
        ensures counted { faults_of self.new ≡ (if has_failed result then one_more (faults_of self.old) else faults_of self.old) }
        // Another name than a normal one has no file here.
        ensures outside { is_normal_name name.now ≡ false → result ≡ Ok Got.Absent }
    {
        match read_file(&self.files, alloc, name.bytes(), most) {
            Ok(got) => Ok(got),
            Err(error) if error.kind() == ErrorKind::OutOfMemory => Err(Memory),
            Err(_) => {
                self.faults = self.faults.saturating_add(1);
                Ok(Got::Failed)
            }
        }
    }

    fn ready(&mut self, _alloc: Global, _name: &Text, _most: usize) -> Result<(), Memory> {
        Ok(())
    }

    fn write(&mut self, name: &Text, bytes: &[u8]) -> bool
        ensures failed { result ≡ false → Rose (faults_of self.old) (faults_of self.new) }
        ensures later { faults_of self.old ≤ faults_of self.new }

        // A fault is counted exactly where the write failed.
        ensures counted { faults_of self.new ≡ (if result then faults_of self.old else one_more (faults_of self.old)) }
        // At another name than a normal one it answers that it failed.
        ensures outside { is_normal_name name.now ≡ false → result ≡ false }
    {
        let written = replace_file(&self.files, name.bytes(), bytes).is_ok();
        if !written {
            self.faults = self.faults.saturating_add(1);
        }
        written
    }
}
