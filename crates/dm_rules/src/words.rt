//! Sets of names.

ghost use Rattle.std.specs.Prelude.{◌≡◌, ◌||◌, ℕ, [], bytes_eq, List as Sequence, IfOk, OnOk};
ghost use Rattle.std.specs.List.{list_any};
ghost use Rattle.dm_macro.specs.Signs as signs;
ghost use Rattle.dm_mentions.specs.Mentions.{is_definition};
ghost use Rattle.dm_rules.specs.Indexes.{readings_of};
ghost use Rattle.dm_rules.specs.Words as words;
ghost use Rattle.dm_rules.specs.Words.{AreMacros, AreNames, AreSpelled};

use crate::index::Index;
use dm_macro::is_identifier;
use dm_name_map::NameMap;
use dm_token::{Memory, PpToken, Read, Text};
use std::alloc::Global;

/// Some names, looked up by hash.
#[derive(Drop)]
pub struct Words {
    names: NameMap,
}

impl Words {
    /// No name. Takes no memory.
    fn new(alloc: Global) -> Words
        ensures { AreNames result [] }
    {
        Words {
            names: NameMap::new(alloc),
        }
    }

    /// With one more name.
    fn add(&mut self, name: &Text) -> Result<(), Memory>
        ensures { OnOk result ((other : Sequence ℕ) → words.has self.new other ≡ (words.has self.old other || bytes_eq other name.now)) }
    {
        self.names.insert(name.copy()?, 0)?;
        Ok(())
    }

    /// With the name that a token is, if it is one.
    fn add_token(&mut self, token: &PpToken) -> Result<(), Memory>
        ensures { OnOk result ((other : Sequence ℕ) → words.has self.new other ≡ (words.has self.old other || signs.is_word other token.now)) }
    {
        if is_identifier(token) {
            self.add(&token.spelling)?;
        }
        Ok(())
    }

    /// These names.
    pub fn of(alloc: Global, names: &[Text]) -> Result<Words, Memory>
        ensures { IfOk result (λ made. AreNames made names.now) }
    {
        let mut made = Words::new(alloc);
        for name in names {
            made.add(name)?;
        }
        Ok(made)
    }

    /// The identifiers of a replacement list.
    pub(crate) fn in_body(alloc: Global, body: &[PpToken]) -> Result<Words, Memory>
        ensures { IfOk result (λ made. AreSpelled made body.now) }
    {
        let mut made = Words::new(alloc);
        for token in body {
            made.add_token(token)?;
        }
        Ok(made)
    }

    /// With the names that a unit defines.
    fn add_definitions(&mut self, read: &[Read]) -> Result<(), Memory>
        ensures { OnOk result ((other : Sequence ℕ) → words.has self.new other ≡ (words.has self.old other || list_any (is_definition other) read.now)) }
    {
        for one in read {
            self.add(&one.definition.name)?;
        }
        Ok(())
    }

    /// The names that some unit defines. Goes once through what the units read.
    pub fn of_macros(alloc: Global, units: &[Index]) -> Result<Words, Memory>
        ensures { IfOk result (λ made. AreMacros made (readings_of units.now)) }
    {
        let mut made = Words::new(alloc);
        for unit in units {
            made.add_definitions(unit.reading.pp.read.items())?;
        }
        Ok(made)
    }

    /// Whether a name is among them.
    pub fn has(&self, name: &Text) -> bool
        ensures { result ≡ words.has self.now name.now }
    {
        self.names.get(name).is_some()
    }
}
