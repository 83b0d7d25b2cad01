ghost use Rattle.std.specs.Prelude.{◌≡◌, ◌+◌, ◌<◌, ◌^◌, [], ◌∷◌, ◌++◌, length, IfOk, OnOk};
ghost use Rattle.dm_phase.specs.Phases.{characters_at};
ghost use Rattle.dm_phase.specs.Sparse.{plain};
ghost use Rattle.dm_phase.specs.Writing.{written, IsKept};

use crate::Character;
use crate::jump::Jump;
use std::alloc::{AllocError, Global};

/// Characters that are written one after another.
#[derive(Drop)]
pub struct Writer {
    /// Their bytes.
    pub text: Vec<u8>,
    /// Where they jump.
    pub jumps: Vec<Jump>,
    /// The offset at which the last one ends.
    pub end: u32,
}

impl Writer {
    /// No characters, with room for the bytes of so many.
    #[tactic(auto, unfolding(crate::specs::Sparse::characters_from, crate::specs::Sparse::spends))]
    pub fn with_capacity(alloc: Global, most: usize) -> Result<Writer, AllocError>
        ensures text { IfOk result (λ writer. written writer ≡ []) }
        ensures kept { IfOk result (λ writer. IsKept writer) }
    {
        Ok(Writer {
            text: Vec::with_capacity(alloc, most)?,
            jumps: Vec::new(alloc),
            end: 0,
        })
    }

    /// Adds a character.
    pub fn push(&mut self, character: Character) -> Result<(), AllocError>
        requires kept { IsKept self.old }
        requires fits { character.at + character.width < 2 ^ 32 }
        ensures text { OnOk result (written self.new ≡ written self.old ++ character ∷ []) }
        ensures kept { OnOk result (IsKept self.new) }
        ensures end { OnOk result (self.new.end ≡ character.at + character.width) }
    {
        if character.width == 1 && character.at == self.end {
            self.push_plain(character.byte)
        } else {
            self.push_jump(character)
        }
    }

    // Adds a character that stands for one byte, directly behind the last.
    fn push_plain(&mut self, byte: u8) -> Result<(), AllocError>
        requires kept { IsKept self.old }
        requires fits { self.old.end + 1 < 2 ^ 32 }
        ensures text { OnOk result (written self.new ≡ written self.old ++ plain byte self.old.end ∷ []) }
        ensures kept { OnOk result (IsKept self.new) }
        ensures end { OnOk result (self.new.end ≡ self.old.end + 1) }
    {
        self.text.push(byte)?;
        self.end += 1;
        Ok(())
    }

    // Adds any character.
    fn push_jump(&mut self, character: Character) -> Result<(), AllocError>
        requires kept { IsKept self.old }
        requires fits { character.at + character.width < 2 ^ 32 }
        ensures text { OnOk result (written self.new ≡ written self.old ++ character ∷ []) }
        ensures kept { OnOk result (IsKept self.new) }
        ensures end { OnOk result (self.new.end ≡ character.at + character.width) }
    {
        let Character { byte, at, width } = character;
        let index = self.text.len();
        self.jumps.push(Jump { index, at, width })?;
        self.text.push(byte)?;
        self.end = at + width;
        Ok(())
    }

    /// Adds bytes that stand for themselves, from an offset on.
    pub fn append(&mut self, at: u32, run: &[u8]) -> Result<(), AllocError>
        requires kept { IsKept self.old }
        requires fits { at + length run.now < 2 ^ 32 }
        ensures text { OnOk result (written self.new ≡ written self.old ++ characters_at at run.now) }
        ensures kept { OnOk result (IsKept self.new) }
    {
        if run.is_empty() {
            return Ok(());
        }
        self.push(Character {
            byte: run[0],
            at,
            width: 1,
        })?;
        self.append_plain(run.split_at(1).1)?;
        Ok(())
    }

    // Adds bytes that stand for themselves, directly behind the last character.
    fn append_plain(&mut self, run: &[u8]) -> Result<(), AllocError>
        requires kept { IsKept self.old }
        requires fits { self.old.end + length run.now < 2 ^ 32 }
        ensures text { OnOk result (written self.new ≡ written self.old ++ characters_at self.old.end run.now) }
        ensures kept { OnOk result (IsKept self.new) }
    {
        self.text.extend_from_slice(run)?;
        self.end += run.len() as u32;
        Ok(())
    }
}
