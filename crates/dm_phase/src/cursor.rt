ghost use Rattle.std.specs.Prelude.{◌≡◌, ◌+◌, ◌<◌, ◌≤◌, ◌^◌, length, drop, slice_index_or};
ghost use Rattle.dm_phase.specs.Sparse.{IsClear, first_from as first, behind_jump as behind};
ghost use Rattle.dm_phase.specs.Walking.{ahead, IsSound};

use crate::Character;
use crate::jump::Jump;

/// A way through the characters of a text, from the first to the last.
#[derive(Drop)]
pub struct Cursor<'a> {
    /// The number of the next character.
    pub index: usize,
    /// The bytes of the characters that are left.
    pub(crate) rest: &'a [u8],
    /// The offset of the next character, unless there is a jump at it.
    pub(crate) at: u32,
    /// The jumps that are left.
    pub(crate) jumps: &'a [Jump],
}

impl Cursor<'_> {
    /// The next character.
    pub fn first(&self) -> Character
        requires sound { IsSound self.now }
        requires some { 0 < length (ahead self.now) }
        ensures first { slice_index_or (ahead self.now) 0 result ≡ result }
        ensures small { result.at + result.width < 2 ^ 32 }
    {
        first_from(self.jumps, self.index, self.at, self.rest[0])
    }

    /// Passes so many characters.
    pub fn advance(&mut self, count: usize)
        requires sound { IsSound self.old }
        requires inside { count ≤ length (ahead self.old) }
        ensures sound { IsSound self.new }
        ensures further { ahead self.new ≡ drop count (ahead self.old) }
        ensures index { self.new.index ≡ self.old.index + count }
    {
        let mut left = count;
        let mut clear = clear_from(self.jumps, self.index);
        while left > clear {
            self.pass(clear);
            self.step();
            left -= clear + 1;
            clear = clear_from(self.jumps, self.index);
        }
        self.pass(left);
    }

    // Passes so many characters, at none of which there is a jump.
    fn pass(&mut self, count: usize)
        requires sound { IsSound self.old }
        requires inside { count ≤ length (ahead self.old) }
        requires clear { IsClear self.old.index count self.old.jumps.now }
        ensures sound { IsSound self.new }
        ensures further { ahead self.new ≡ drop count (ahead self.old) }
        ensures index { self.new.index ≡ self.old.index + count }
    {
        self.rest = self.rest.split_at(count).1;
        self.index += count;
        self.at += count as u32;
    }

    // Passes one character.
    fn step(&mut self)
        requires sound { IsSound self.old }
        requires some { 0 < length (ahead self.old) }
        ensures sound { IsSound self.new }
        ensures further { ahead self.new ≡ drop 1 (ahead self.old) }
        ensures index { self.new.index ≡ self.old.index + 1 }
    {
        let first = self.first();
        self.jumps = behind_jump(self.jumps, self.index);
        self.rest = self.rest.split_at(1).1;
        self.index += 1;
        self.at = first.at + first.width;
    }
}

// A character with this byte and this number.
#[tactic(auto, unfolding(crate::specs::Sparse::first_from))]
fn first_from(jumps: &[Jump], index: usize, at: u32, byte: u8) -> Character
    ensures { result ≡ first index at jumps.now byte }
{
    match jumps {
        [jump, ..] if jump.index == index => Character {
            byte,
            at: jump.at,
            width: jump.width,
        },
        _ => Character { byte, at, width: 1 },
    }
}

// The jumps behind the character with this number.
#[tactic(auto, unfolding(crate::specs::Sparse::behind_jump))]
fn behind_jump<'a>(jumps: &'a [Jump], index: usize) -> &'a [Jump]
    ensures { result.now ≡ behind index jumps.now }
{
    match jumps {
        [jump, ..] if jump.index == index => jumps.split_at(1).1,
        _ => jumps,
    }
}

// So many characters, at none of which there is a jump.
fn clear_from(jumps: &[Jump], index: usize) -> usize
    ensures { IsClear index result jumps.now }
{
    match jumps {
        [jump, ..] if jump.index >= index => jump.index - index,
        _ => usize::MAX,
    }
}
