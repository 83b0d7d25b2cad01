//! What names name.

ghost use Rattle.std.specs.Prelude.{◌≡◌, OnOk, OnErr};
ghost use Rattle.std.specs.FinMap as finite;
ghost use Rattle.dm_pexpr.specs.NameMaps.{entry_of, with_entry};

use dm_token::{Memory, Text};
use std::alloc::Global;
use std::collections::HashMap;
use std::marker::Model;

/// Names, each with whether it names a type (6.7.8). Contracts see it as a finite map.
#[derive(Drop)]
pub struct Names {
    map: HashMap<Text, bool>,
}

impl Model for Names {
    ghost use Rattle.std.specs.FinMap as finite;
    ghost use Rattle.dm_pexpr.specs.NameMaps.{NameMap, name_map_code};

    ghost Value = { NameMap };

    ghost coded = { name_map_code };

    ghost view = { λ names. finite.from_entries names.map.entries };
}

impl Names {
    /// The map of no name. It takes no memory.
    pub fn new(alloc: Global) -> Names
        ensures { result ≡ finite.empty }
    {
        Names {
            map: HashMap::new(alloc),
        }
    }

    /// Whether the name names a type, or `None` where nothing is known of it. It takes no memory.
    pub fn get(&self, name: &Text) -> Option<bool>
        ensures { result ≡ entry_of self.now name.now }
    {
        self.map.get(name).copied()
    }

    /// Gives the name an entry, or none.
    pub fn set(&mut self, name: &Text, entry: Option<bool>) -> Result<(), Memory>
        ensures ok { OnOk result (self.new ≡ with_entry self.old name.now entry) }
        ensures err { OnErr result (self.new ≡ self.old) }
    {
        match entry {
            Some(entry) => self.insert(name.copy()?, entry),
            None => {
                self.remove(name);
                Ok(())
            }
        }
    }

    // Gives the name an entry.
    fn insert(&mut self, name: Text, entry: bool) -> Result<(), Memory>
        ensures ok { OnOk result (self.new ≡ finite.insert self.old name entry) }
        ensures err { OnErr result (self.new ≡ self.old) }
    {
        self.map.insert(name, entry)?;
        Ok(())
    }

    // Takes the name out.
    fn remove(&mut self, name: &Text)
        ensures { self.new ≡ finite.remove self.old name.now }
    {
        self.map.remove(name);
    }
}
