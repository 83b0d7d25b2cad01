ghost use Rattle.std.specs.Prelude.{◌≡◌, IsTrue, IfOk, IfSome};
ghost use Rattle.std.specs.FinSet as set;

use crate::hidden::{Hidden, are_same};
use dm_token::Memory;
use std::alloc::Global;
use std::marker::Model;

/// How many places there are at first for hide sets with what they became, a power of 2.
const FIRST_PLACES: usize = 16;

/// How many there are at most.
const MOST_PLACES: usize = 4_096;

/// How many macros a set hides at most whose extensions are kept.
const MOST_HIDDEN: usize = 4_096;

/// A hide set, and the same with one macro more. Contracts see what it became.
#[derive(Drop)]
struct Extension {
    before: Hidden,
    number: u32,
    after: Hidden,
}

impl Model for Extension {
    ghost use Rattle.std.specs.Prelude.{◌≡◌};
    ghost use Rattle.std.specs.Coded.{coded_ℕ};
    ghost use Rattle.std.specs.FinSet as set;
    ghost use Rattle.dm_expand.specs.HideSets.{HiddenNumbers};

    ghost Value = { HiddenNumbers };

    ghost coded = { set.code coded_ℕ };

    ghost view = { λ extension. extension.after };

    ghost invariant = { λ extension. extension.after ≡ set.insert extension.before extension.number };
}

impl Extension {
    fn new(hidden: &Hidden, number: u32) -> Result<Extension, Memory>
        ensures { IfOk result (λ extension. extension ≡ set.insert hidden.now number) }
    {
        let before = hidden.copy()?;
        let after = hidden.with(number)?;
        Ok(Extension {
            before,
            number,
            after,
        })
    }

    // Whether it is sure that this is what a set becomes with one macro more.
    fn is_of(&self, hidden: &Hidden, number: u32) -> bool
        ensures { IsTrue result → self.now ≡ set.insert hidden.now number }
    {
        if self.number != number {
            return false;
        }
        are_same(&self.before, hidden)
    }

    // What it became.
    fn after(&self) -> Result<Hidden, Memory>
        ensures { IfOk result (λ after. after ≡ self.now) }
    {
        self.after.copy()
    }

    // What a set becomes with one macro more, where this is it.
    fn of(&self, hidden: &Hidden, number: u32) -> Result<Option<Hidden>, Memory>
        ensures { IfOk result (λ found. IfSome found (λ more. more ≡ set.insert hidden.now number)) }
    {
        if !self.is_of(hidden, number) {
            return Ok(None);
        }
        let after = self.after()?;
        Ok(Some(after))
    }
}

/// What hide sets became with one macro more, so that tokens of the same way share them. Each has its place by the macro and
/// by how many others are hidden, and gives it up to the next one there. Where a place is taken and there aren't the most yet,
/// all are given up for twice as many.
#[derive(Drop)]
pub struct Extensions {
    places: Vec<Option<Extension>>,
}

impl Extensions {
    pub fn new(alloc: Global) -> Extensions {
        Extensions {
            places: Vec::new(alloc),
        }
    }

    /// A hide set with one macro more.
    pub fn with(&mut self, hidden: &Hidden, number: u32) -> Result<Hidden, Memory>
        ensures { IfOk result (λ more. more ≡ set.insert hidden.now number) }
    {
        if hidden.count() > MOST_HIDDEN {
            return hidden.with(number);
        }
        if let Some(more) = self.known(hidden, number)? {
            return Ok(more);
        }
        let extension = Extension::new(hidden, number)?;
        let more = extension.after()?;
        self.keep(extension)?;
        Ok(more)
    }

    // The same, where it is kept.
    fn known(&self, hidden: &Hidden, number: u32) -> Result<Option<Hidden>, Memory>
        ensures { IfOk result (λ found. IfSome found (λ more. more ≡ set.insert hidden.now number)) }
    {
        let index = place_of(self.places.len(), hidden, number);
        match self.places.as_slice().get(index) {
            Some(Some(extension)) => {
                let found = extension.of(hidden, number)?;
                Ok(found)
            }
            _ => Ok(None),
        }
    }

    // Keeps one at its place.
    fn keep(&mut self, extension: Extension) -> Result<(), Memory> {
        if self.is_taken(&extension) && self.places.len() < MOST_PLACES {
            self.places = more_places(*self.places.allocator(), self.places.len())?;
        }
        let index = place_of(self.places.len(), &extension.before, extension.number);
        if index < self.places.len() {
            self.places[index] = Some(extension);
        }
        Ok(())
    }

    // Whether there is no place for one, or another one has it.
    fn is_taken(&self, extension: &Extension) -> bool {
        let index = place_of(self.places.len(), &extension.before, extension.number);
        match self.places.as_slice().get(index) {
            None => true,
            Some(place) => place.is_some(),
        }
    }
}

// The place among so many, a power of 2, of what a set becomes with one macro more. Those of a chain are mostly apart.
fn place_of(places: usize, hidden: &Hidden, number: u32) -> usize {
    if places == 0 {
        return 0;
    }
    let depth = hidden.count();
    (number as usize ^ depth.wrapping_mul(2)) & (places - 1)
}

// Twice as many places, all of them free.
fn more_places(alloc: Global, count: usize) -> Result<Vec<Option<Extension>>, Memory> {
    let wanted = count.saturating_mul(2).max(FIRST_PLACES);
    let mut places = Vec::with_capacity(alloc, wanted)?;
    for _ in 0..wanted {
        places.push(None)?;
    }
    Ok(places)
}
