//! Positions by number.

ghost use Rattle.std.specs.Prelude.{◌≡◌, ◌+◌, IfOk, OnOk};
ghost use Rattle.dm_names.specs.Positions as positions;

use crate::identifier::{Entered, Identifier};
use crate::seen::Shown;
use dm_token::Memory;
use std::alloc::Global;
use std::collections::HashMap;

/// A position for each of some numbers, looked up by hash.
#[derive(Drop)]
pub struct Positions {
    pub(crate) map: HashMap<u32, u32>,
}

impl Positions {
    /// No positions. It takes no memory.
    pub(crate) fn new(alloc: Global) -> Positions
        ensures { positions.lookup_in result ≡ positions.no_positions }
    {
        Positions {
            map: HashMap::new(alloc),
        }
    }

    /// The position of a number, if it has one.
    pub(crate) fn get(&self, number: u32) -> Option<u32>
        ensures { result ≡ positions.lookup_in self.now number }
    {
        self.map.get(&number).copied()
    }

    /// Gives a number a position, unless it has one.
    fn note(&mut self, number: u32, position: u32) -> Result<(), Memory>
        ensures { OnOk result (positions.lookup_in self.new ≡ positions.noted (positions.lookup_in self.old) number position) }
    {
        if self.get(number).is_none() {
            self.map.insert(number, position)?;
        }
        Ok(())
    }

    /// The positions of identifiers by their tokens.
    pub(crate) fn note_identifiers(&mut self, identifiers: &[Identifier]) -> Result<(), Memory>
        ensures { OnOk result (positions.lookup_in self.new ≡ positions.identifiers_noted (positions.lookup_in self.old) 0 identifiers.now) }
    {
        let mut position = 0u32;
        for identifier in identifiers {
            self.note(identifier.at, position)?;
            position = next(position)?;
        }
        Ok(())
    }

    fn note_entered(&mut self, external: u32, entered: &[Entered]) -> Result<(), Memory>
        ensures { OnOk result (positions.lookup_in self.new ≡ positions.entered_noted (positions.lookup_in self.old) external entered.now) }
    {
        for one in entered {
            self.note(one.number, external)?;
        }
        Ok(())
    }

    /// The external declarations that declare entries in file scope first, by the numbers of these.
    pub(crate) fn note_shown(&mut self, all: &[Shown]) -> Result<(), Memory>
        ensures { OnOk result (positions.lookup_in self.new ≡ positions.shown_noted (positions.lookup_in self.old) 0 all.now) }
    {
        let mut external = 0u32;
        for shown in all {
            self.note_entered(external, shown.entered.items())?;
            external = next(external)?;
        }
        Ok(())
    }
}

/// The next number. One that doesn't fit counts as want of memory.
fn next(number: u32) -> Result<u32, Memory>
    ensures { IfOk result (λ next. next ≡ number + 1) }
{
    number.checked_add(1).ok_or(Memory)
}
