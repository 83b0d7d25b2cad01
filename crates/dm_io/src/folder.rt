ghost use Rattle.std.specs.Prelude.{◌≡◌, ◌≢◌, ◌≤◌, ℕ, List, Option, length, false, IfOk, OnOk, OnErr};
ghost use Rattle.std.specs.Bool.{OnTrue, OnFalse};
ghost use Rattle.dm_io.specs.Files.{Files, HasFile, MayHaveSpoiled, with_file};
ghost use Rattle.dm_io.specs.Faults.{Rose};
ghost use Rattle.dm_io.specs.Answers.{IsAnswer, HasAtMost};

use dm_token::{List, Memory, Text};
use std::alloc::Global;

/// What a reading gives.
#[derive(Debug, PartialEq, Eq, Drop)]
pub enum Got {
    /// The whole file.
    Bytes(List<u8>),
    /// There is no such file.
    Absent,
    /// The file has more bytes than were asked for.
    Long,
    /// The file could not be read.
    Failed,
}

/// A folder of files, named from its top by normal names.
///
/// It may tell its files, and then contracts say what each call does to them. A fault is an error of the world
/// outside, as an unreadable disk. An answer that speaks of a fault comes only where the count of faults rose in that
/// call: where it is greater afterwards, or stands at its greatest value.
pub trait Folder {
    /// The bytes of each file by its name, where they are told.
    ghost files: { Self → Option Files };

    /// The number of bytes for which memory is taken at a name.
    ghost room: { Self → List ℕ → ℕ };

    /// How many faults there were.
    ghost faults: { Self → ℕ };

    /// Reads a file of at most so many bytes.
    fn read(&mut self, alloc: Global, name: &Text, most: usize) -> Result<Got, Memory>
        ensures answer { IfOk result (IsAnswer (files self.old) name.now most) }
        ensures bounded { IfOk result (HasAtMost most) }
        ensures failed { result ≡ Ok Got.Failed → Rose (faults self.old) (faults self.new) }
        ensures files_stay { files self.new ≡ files self.old }
        ensures rooms_stay { (other : List ℕ) → room self.new other ≡ room self.old other }
        ensures later { faults self.old ≤ faults self.new };

    /// Takes the memory with which `write` may put so many bytes at the name. After an `Err` nothing is changed.
    fn ready(&mut self, alloc: Global, name: &Text, most: usize) -> Result<(), Memory>
        requires { HasFile (files self.old) name.now }
        ensures ready { OnOk result (most ≤ room self.new name.now) }
        ensures err { OnErr result (room self.new name.now ≡ room self.old name.now) }
        ensures files_stay { files self.new ≡ files self.old }
        ensures rooms_stay { (other : List ℕ) → other ≢ name.now → room self.new other ≡ room self.old other }
        ensures faults_stay { faults self.new ≡ faults self.old };

    /// Gives a file new bytes, and says whether it did. It takes no memory. After `false` the file has any bytes or
    /// is absent.
    fn write(&mut self, name: &Text, bytes: &[u8]) -> bool
        requires there { HasFile (files self.old) name.now }
        requires ready { length bytes.now ≤ room self.old name.now }
        ensures written { OnTrue result (files self.new ≡ with_file (files self.old) name.now bytes.now) }
        ensures spoiled { OnFalse result (MayHaveSpoiled (files self.old) (files self.new) name.now) }
        ensures failed { result ≡ false → Rose (faults self.old) (faults self.new) }
        ensures rooms_stay { (other : List ℕ) → room self.new other ≡ room self.old other }
        ensures later { faults self.old ≤ faults self.new };
}
