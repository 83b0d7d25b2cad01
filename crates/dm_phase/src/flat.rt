ghost use Rattle.std.specs.Prelude.{◌≡◌, ◌-◌, ◌≤◌, ◌^◌, IfOk, length, map, slice_range};
ghost use Rattle.dm_phase.specs.Positions.{InOrder};
ghost use Rattle.dm_phase.specs.Walking.{ahead, IsSound};
ghost use Rattle.dm_phase.specs.Writing.{written};

use crate::Character;
use crate::cursor::Cursor;
use crate::jump::Jump;
use crate::writer::Writer;
use dm_token::{Buffer, List, Memory, Text};
use std::alloc::Global;
use std::marker::Model;

/// A source file after phases 1 and 2, seen as the list of its characters.
#[derive(Debug, Drop)]
pub struct Flat {
    /// The characters' bytes.
    text: Buffer,
    /// Where they jump.
    jumps: Vec<Jump>,
}

impl Model for Flat {
    ghost use Rattle.dm_phase.specs.FlatText.{FlatText};

    ghost Value = { FlatText };

    ghost use Rattle.std.specs.Prelude.{◌-◌, ◌^◌};
    ghost use Rattle.dm_phase.specs.Positions.{InOrder};
    ghost use Rattle.dm_phase.specs.Sparse.{characters_from};

    ghost view = { λ flat. record { characters = characters_from 0 0 flat.jumps.items flat.text } };

    ghost invariant = { λ flat. InOrder 0 (2 ^ 32 - 1) (characters_from 0 0 flat.jumps.items flat.text) };
}

impl Flat {
    // What was written.
    pub(crate) fn of(alloc: Global, writer: Writer) -> Result<Flat, Memory>
        requires { InOrder 0 (2 ^ 32 - 1) (written writer) }
        ensures { IfOk result (λ flat. flat.characters ≡ written writer) }
    {
        let Writer { text, jumps, .. } = writer;
        let text = Buffer::new(alloc, text)?;
        Ok(Flat { text, jumps })
    }

    /// The bytes of the characters.
    pub fn bytes(&self) -> &[u8]
        ensures { result.now ≡ map (λ character. character.byte) self.now.characters }
    {
        self.text.bytes()
    }

    /// The bytes of the characters from one number up to another, which are shared and not copied.
    pub fn text(&self, from: usize, to: usize) -> Result<Text, Memory>
        requires ordered { from ≤ to }
        requires inside { to ≤ length self.now.characters }
        ensures { IfOk result (λ text. text ≡ slice_range (map (λ character. character.byte) self.now.characters) from to) }
    {
        self.text.text(from, to)
    }

    /// A list of the characters.
    pub fn characters(&self, alloc: Global) -> Result<List<Character>, Memory>
        ensures { IfOk result (λ list. list ≡ self.now.characters) }
    {
        let mut characters = Vec::new(alloc);
        let mut cursor = self.cursor();
        let count = self.bytes().len();
        for _number in 0..count {
            characters.push(cursor.first())?;
            cursor.advance(1);
        }
        Ok(List::from_vec(characters))
    }

    /// A cursor at the first character.
    pub fn cursor(&self) -> Cursor<'_>
        ensures sound { IsSound result }
        ensures first { result.index ≡ 0 }
        ensures whole { ahead result ≡ self.now.characters }
    {
        Cursor {
            index: 0,
            rest: self.text.bytes(),
            at: 0,
            jumps: self.jumps.as_slice(),
        }
    }
}
