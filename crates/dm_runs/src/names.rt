//! The names whose expansions are in a unit, looked up by the numbers of these.

ghost use Rattle.std.specs.Prelude.{◌≡◌, IfOk};
ghost use Rattle.dm_runs.specs.Runs as runs;

use dm_token::{Expansion, Memory, Place};
use std::alloc::Global;
use std::collections::HashMap;
use std::marker::Model;

/// The expansions of a unit, of which the first with a number is found. Contracts see the expansions.
#[derive(Drop)]
pub(crate) struct Names<'a> {
    expansions: &'a [Expansion],
    by_number: HashMap<u32, Place>,
}

impl<'a> Model for Names<'a> {
    ghost use Rattle.std.specs.Prelude.{List as Sequence};
    ghost use Rattle.dm_token.specs.declared.expansion.Expansion.{Expansion as SeenExpansion};
    ghost use Rattle.dm_runs.specs.Lookups.{AreNames};

    ghost Value = { Sequence SeenExpansion };

    ghost view = { λ names. names.expansions.now };

    ghost invariant = { λ names. AreNames names.by_number names.expansions.now };
}

impl<'a> Names<'a> {
    /// Those of some expansions.
    pub(crate) fn of(alloc: Global, expansions: &'a [Expansion]) -> Result<Names<'a>, Memory>
        ensures { IfOk result (λ made. made ≡ expansions.now) }
    {
        let mut by_number = HashMap::new(alloc);
        let mut left = expansions;
        while let Some((last, before)) = left.split_last() {
            by_number.insert(last.instance, last.name)?;
            left = before;
        }
        Ok(Names {
            expansions,
            by_number,
        })
    }

    /// The place of the name whose expansion has this number.
    pub(crate) fn get(&self, instance: u32) -> Option<Place>
        ensures { result ≡ runs.name_of self.now instance }
    {
        self.by_number.get(&instance).copied()
    }
}
