//! Numbers by names, looked up by hash.

ghost use Rattle.std.specs.Prelude.{◌≡◌, OnOk, OnErr};
ghost use Rattle.std.specs.FinMap as finite;

use dm_token::{Memory, Text};
use std::alloc::Global;
use std::collections::HashMap;
use std::marker::Model;

/// A number for each of some names. Contracts see it as a finite map.
#[derive(Drop)]
pub struct NameMap {
    map: HashMap<Text, u32>,
}

impl Model for NameMap {
    ghost use Rattle.std.specs.Coded.{coded_list, coded_ℕ};
    ghost use Rattle.std.specs.FinMap as finite;
    ghost use Rattle.dm_name_map.specs.Numbers.{Numbers};

    ghost Value = { Numbers };

    ghost coded = { finite.code (coded_list coded_ℕ) coded_ℕ };

    ghost view = { λ names. finite.from_entries names.map.entries };
}

impl NameMap {
    /// The map of no name. It takes no memory.
    pub fn new(alloc: Global) -> NameMap
        ensures { result ≡ finite.empty }
    {
        NameMap {
            map: HashMap::new(alloc),
        }
    }

    /// The number of the name, if it has one.
    pub fn get(&self, name: &Text) -> Option<u32>
        ensures { result ≡ finite.get self.now name.now }
    {
        self.map.get(name).copied()
    }

    /// Gives the name the number.
    pub fn insert(&mut self, name: Text, number: u32) -> Result<(), Memory>
        ensures ok { OnOk result (self.new ≡ finite.insert self.old name number) }
        ensures err { OnErr result (self.new ≡ self.old) }
    {
        self.map.insert(name, number)?;
        Ok(())
    }

    /// Takes the name out. True where it had a number.
    pub fn remove(&mut self, name: &Text) -> bool
        ensures had { result ≡ finite.contains_key self.old name.now }
        ensures removed { self.new ≡ finite.remove self.old name.now }
    {
        self.map.remove(name).is_some()
    }
}
