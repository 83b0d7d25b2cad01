ghost use Rattle.std.specs.Prelude.{◌≡◌, ◌+◌, ◌≤◌, ◌↔◌, Some, length, IsTrue, OnOk, OnErr, false, []};
ghost use Rattle.std.specs.Bool.{OnTrue, OnFalse};
ghost use Rattle.std.specs.Vec.{vec_len, vec_capacity};
ghost use Rattle.dm_io.specs.Output.{appended, MayHaveAppended};
ghost use Rattle.dm_io.specs.Faults.{Rose};

use crate::calls::Calls;
use crate::sink::Sink;
use dm_token::{List, Memory};
use std::alloc::Global;

/// Output kept in memory, some of whose calls are to fail.
///
/// The calls of `put` are numbered from 0 in their order. Such a call fails exactly where its number is listed: then
/// it raises a fault and writes nothing.
#[derive(Debug, Drop)]
pub struct MemorySink {
    bytes: Vec<u8>,
    /// How many bytes may be written without taking memory.
    room: usize,
    calls: Calls,
    ghost has_room: { vec_len bytes + room ≤ vec_capacity bytes },
}

impl MemorySink {
    ghost use Rattle.dm_io.specs.Calls.{no_calls};
    ghost use Rattle.dm_io.specs.MemorySink.{bytes_of, calls_of};

    /// A sink with nothing written. It takes no memory.
    pub fn new(alloc: Global, failing: List<u32>) -> MemorySink
        ensures bytes { bytes_of result ≡ [] }
        ensures calls { calls_of result ≡ no_calls failing }
    {
        MemorySink {
            bytes: Vec::new(alloc),
            room: 0,
            calls: Calls::new(failing),
        }
    }

    /// What was written.
    pub fn bytes(&self) -> &[u8]
        ensures { result.now ≡ bytes_of self.now }
    {
        self.bytes.as_slice()
    }
}

impl Sink for MemorySink {
    ghost use Rattle.dm_io.specs.Calls.{is_due, after_call};
    ghost use Rattle.dm_io.specs.MemorySink.{bytes_of, room_of, calls_of};

    ghost written = { λ sink. Some (bytes_of sink) };

    ghost room = { room_of };

    ghost faults = { λ sink. (calls_of sink).faults };

    fn ready(&mut self, _alloc: Global, most: usize) -> Result<(), Memory>
        ensures ready { OnOk result (most ≤ room_of self.new) }
        ensures err { OnErr result (room_of self.new ≡ room_of self.old) }
        ensures written_stays { Some (bytes_of self.new) ≡ Some (bytes_of self.old) }
        ensures faults_stay { (calls_of self.new).faults ≡ (calls_of self.old).faults }

        // It isn't one of the numbered calls.
        ensures calls_stay { calls_of self.new ≡ calls_of self.old }
    {
        self.bytes.reserve(most)?;
        self.room = most;
        Ok(())
    }

    fn put(&mut self, bytes: &[u8]) -> bool
        requires { length bytes.now ≤ room_of self.old }
        ensures whole { OnTrue result (Some (bytes_of self.new) ≡ appended (Some (bytes_of self.old)) bytes.now) }
        ensures front { OnFalse result (MayHaveAppended (Some (bytes_of self.old)) (Some (bytes_of self.new)) bytes.now) }
        ensures failed { result ≡ false → Rose (calls_of self.old).faults (calls_of self.new).faults }
        ensures rooms { room_of self.old ≤ room_of self.new + length bytes.now }
        ensures later { (calls_of self.old).faults ≤ (calls_of self.new).faults }

        // It fails exactly where the call is listed, then writes nothing, and counts as one call.
        ensures due { IsTrue (is_due (calls_of self.old)) ↔ (result ≡ false) }
        ensures unchanged { result ≡ false → bytes_of self.new ≡ bytes_of self.old }
        ensures counted { calls_of self.new ≡ after_call (calls_of self.old) }
    {
        if self.calls.next_fails() {
            return false;
        }
        self.room -= bytes.len();
        self.bytes.extend_from_slice(bytes).is_ok()
    }
}
