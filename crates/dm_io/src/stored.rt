ghost use Rattle.std.specs.Prelude.{◌≡◌, ◌≤◌, length, nat_eq, position, Some, IfOk, OnOk, OnErr};
ghost use Rattle.std.specs.Vec.{vec_capacity};
ghost use Rattle.std.specs.Cmp.Lexicographic.{pointwise};
ghost use Rattle.std.specs.Option.{option_copied};
ghost use Rattle.std.specs.List.{find};

use dm_token::{Memory, Text};
use std::alloc::Global;

/// A file of a folder in memory.
#[derive(Debug, Drop)]
pub struct Stored {
    name: Text,
    bytes: Vec<u8>,
    /// How many bytes may be put into it without taking memory.
    room: usize,
    ghost has_room: { room ≤ vec_capacity bytes },
}

impl Stored {
    ghost use Rattle.dm_io.specs.Stored.{Holds};

    pub fn new(alloc: Global, name: &[u8], bytes: &[u8]) -> Result<Stored, Memory>
        ensures { IfOk result (λ stored. Holds stored name.now bytes.now 0) }
    {
        let name = Text::from_bytes(alloc, name)?;
        let bytes = Vec::from_slice(alloc, bytes)?;
        Ok(Stored {
            name,
            bytes,
            room: 0,
        })
    }

    pub fn has_name(&self, name: &[u8]) -> bool
        ensures { result ≡ pointwise nat_eq self.now.name name.now }
    {
        self.name.bytes() == name
    }

    pub fn bytes(&self) -> &[u8]
        ensures { result.now ≡ self.now.bytes.items }
    {
        self.bytes.as_slice()
    }

    /// Takes the memory for so many bytes.
    pub fn make_room(&mut self, most: usize) -> Result<(), Memory>
        ensures ok { OnOk result (Holds self.new self.old.name self.old.bytes.items most) }
        ensures err { OnErr result (Holds self.new self.old.name self.old.bytes.items self.old.room) }
    {
        let more = most.saturating_sub(self.bytes.len());
        self.bytes.reserve(more)?;
        self.room = most;
        Ok(())
    }

    /// Puts other bytes into the file.
    pub fn replace(&mut self, bytes: &[u8])
        requires { length bytes.now ≤ self.old.room }
        ensures { Holds self.new self.old.name bytes.now self.old.room }
    {
        self.bytes.clear();
        let _ = self.bytes.extend_from_slice(bytes);
    }
}
