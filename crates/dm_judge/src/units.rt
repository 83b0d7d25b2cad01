//! The units of a project, with what answers for each definition that they read.

ghost use Rattle.std.specs.Prelude.{◌≡◌, ◌<◌, suc, None as absent, IfOk, OnOk, length, replicate};
ghost use Rattle.dm_token.specs.declared.expansion.Definition.{Definition as SeenDefinition};
ghost use Rattle.dm_meaning.specs.Replaced.{Zipped};
ghost use Rattle.dm_rules.specs.Indexes.{readings_of};
ghost use Rattle.dm_meanings.specs.Named.{AreNamesOf};
ghost use Rattle.dm_judge.specs.Units as seen;
ghost use Rattle.dm_judge.specs.Units.{AreReady, AreReadyTo, AreTyped, AreWhole};

use crate::notes::Notes;
use dm_meanings::{Meanings, names_in};
use dm_names::Names;
use dm_reading::Reading;
use dm_rules::{Index, Words};
use dm_token::{Definition, Memory};
use std::alloc::Global;

/// The units of a project in order. What is asked of a definition is looked up, and no unit is gone through for it but once: for the first
/// definition that it expands, if that keeps the rules 1 to 8.
#[derive(Drop)]
pub struct Units<'u, 'r> {
    pub(crate) indexes: &'u [Index<'r>],
    /// What their names mean.
    pub(crate) names: &'u [Names],
    /// What tells types too, of the units that were gone through for a definition.
    pub(crate) meanings: Vec<Option<Meanings<'u, 'r>>>,
    /// What their trees do.
    pub(crate) notes: Vec<Option<Notes<'r>>>,
    /// The names that some unit defines.
    pub(crate) macros: Words,
}

/// The indexes of some readings, each gone through once.
pub fn indexes_of<'r>(alloc: Global, readings: &'r [Reading]) -> Result<Vec<Index<'r>>, Memory>
    ensures { IfOk result (λ made. readings_of made.items ≡ readings.now) }
{
    let mut made = Vec::new(alloc);
    for reading in readings {
        made.push(Index::of(alloc, reading)?)?;
    }
    Ok(made)
}

/// What the names of some readings mean, each gone through once.
pub fn names_of(alloc: Global, readings: &[Reading]) -> Result<Vec<Names>, Memory>
    requires { AreTyped readings.now }
    ensures { IfOk result (λ made. Zipped AreNamesOf readings.now made.items) }
{
    let mut made = Vec::new(alloc);
    for reading in readings {
        let names = names_in(alloc, reading)?;
        made.push(names)?;
    }
    Ok(made)
}

/// So many places without an item.
fn empty_slots<T: Drop>(alloc: Global, count: usize) -> Result<Vec<Option<T>>, Memory>
    ensures { IfOk result (λ made. made.items ≡ replicate count absent) }
{
    let mut made = Vec::new(alloc);
    for _ in 0..count {
        made.push(None)?;
    }
    Ok(made)
}

impl<'u, 'r> Units<'u, 'r> {
    /// Those of some readings with their indexes, and with what their names mean.
    pub fn of(
        alloc: Global,
        indexes: &'u [Index<'r>],
        names: &'u [Names],
    ) -> Result<Units<'u, 'r>, Memory>
        requires typed { AreTyped (readings_of indexes.now) }
        requires named { Zipped AreNamesOf (readings_of indexes.now) names.now }
        ensures whole { IfOk result AreWhole }
        ensures indexes { IfOk result (λ made. made.indexes.now ≡ indexes.now) }
    {
        let meanings = empty_slots(alloc, indexes.len())?;
        let notes = empty_slots(alloc, indexes.len())?;
        let macros = Words::of_macros(alloc, indexes)?;
        Ok(Units {
            indexes,
            names,
            meanings,
            notes,
            macros,
        })
    }

    /// Goes through each unit that expands a definition, if it wasn't gone through before.
    pub(crate) fn look_up(&mut self, alloc: Global, definition: &Definition) -> Result<(), Memory>
        requires { AreWhole self.old }
        ensures whole { OnOk result (AreWhole self.new) }
        ensures indexes { OnOk result (self.new.indexes.now ≡ self.old.indexes.now) }
        ensures ready { OnOk result (AreReady definition.now self.new) }
    {
        let indexes = self.indexes;
        for number in 0..indexes.len() {
            if indexes[number].is_used(definition) {
                self.look_into(alloc, number)?;
            }
        }
        Ok(())
    }

    /// Goes through a unit, if it wasn't gone through before.
    fn look_into(&mut self, alloc: Global, number: usize) -> Result<(), Memory>
        requires inside { number < length self.old.indexes.now }
        requires whole { AreWhole self.old }
        ensures whole { OnOk result (AreWhole self.new) }
        ensures indexes { OnOk result (self.new.indexes.now ≡ self.old.indexes.now) }
        ensures ready { OnOk result ((definition : SeenDefinition) → AreReadyTo definition number (seen.readings_of self.old) self.old.meanings.items
            → AreReadyTo definition (suc number) (seen.readings_of self.new) self.new.meanings.items) }
    {
        if self.meanings[number].is_some() {
            return Ok(());
        }
        let (indexes, names) = (self.indexes, self.names);
        let meanings = Meanings::of(alloc, &indexes[number], &names[number])?;
        let notes = Notes::of(alloc, &meanings.sites)?;
        self.meanings[number] = Some(meanings);
        self.notes[number] = Some(notes);
        Ok(())
    }
}
