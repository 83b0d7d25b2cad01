ghost use Rattle.std.specs.Prelude.{◌≡◌, ◌+◌, ◌≤◌, ℕ, List, Option, length, false, OnOk, OnErr};
ghost use Rattle.std.specs.Bool.{OnTrue, OnFalse};
ghost use Rattle.dm_io.specs.Output.{appended, MayHaveAppended};
ghost use Rattle.dm_io.specs.Faults.{Rose};

use dm_token::Memory;
use std::alloc::Global;

/// Where output goes.
///
/// It may tell what was written, and then contracts say what each call adds. Faults are as in a `Folder`.
pub trait Sink {
    /// All bytes that were written, where they are told.
    ghost written: { Self → Option (List ℕ) };

    /// The number of bytes for which memory is taken.
    ghost room: { Self → ℕ };

    /// How many faults there were.
    ghost faults: { Self → ℕ };

    /// Takes the memory with which `put` may write so many bytes. After an `Err` nothing is changed.
    fn ready(&mut self, alloc: Global, most: usize) -> Result<(), Memory>
        ensures ready { OnOk result (most ≤ room self.new) }
        ensures err { OnErr result (room self.new ≡ room self.old) }
        ensures written_stays { written self.new ≡ written self.old }
        ensures faults_stay { faults self.new ≡ faults self.old };

    /// Writes the bytes, and says whether it did. It takes no memory. After `false` only a front of them, maybe an
    /// empty one, is written.
    fn put(&mut self, bytes: &[u8]) -> bool
        requires { length bytes.now ≤ room self.old }
        ensures whole { OnTrue result (written self.new ≡ appended (written self.old) bytes.now) }
        ensures front { OnFalse result (MayHaveAppended (written self.old) (written self.new) bytes.now) }
        ensures failed { result ≡ false → Rose (faults self.old) (faults self.new) }
        ensures rooms { room self.old ≤ room self.new + length bytes.now }
        ensures later { faults self.old ≤ faults self.new };
}
