//! A folder in memory of which no call fails.

ghost use Rattle.std.specs.Prelude.{◌≡◌, Some, []};
ghost use Rattle.dm_io.specs.MemoryFolder.{files_of, calls_of, room_of};

use dm_io::{Folder, Got, MemoryFolder};
use dm_token::{Memory, Text};
use std::alloc::Global;

/// A folder in memory of which no call is to fail, so that it counts no fault.
#[derive(Debug, Drop)]
pub(crate) struct QuietFolder {
    folder: MemoryFolder,
    ghost quiet: { (calls_of folder).failing ≡ [] },
}

impl QuietFolder {
    pub fn new(folder: MemoryFolder) -> QuietFolder
        requires { (calls_of folder).failing ≡ [] }
        ensures { result.folder ≡ folder }
    {
        QuietFolder { folder }
    }
}

impl Folder for QuietFolder {
    ghost files = { λ quiet. Some (files_of quiet.folder) };

    ghost room = { λ quiet. room_of quiet.folder };

    ghost faults = { λ quiet. 0 };

    fn read(&mut self, alloc: Global, name: &Text, most: usize) -> Result<Got, Memory> {
        self.folder.read(alloc, name, most)
    }

    fn ready(&mut self, alloc: Global, name: &Text, most: usize) -> Result<(), Memory> {
        self.folder.ready(alloc, name, most)
    }

    fn write(&mut self, name: &Text, bytes: &[u8]) -> bool {
        self.folder.write(name, bytes)
    }
}
