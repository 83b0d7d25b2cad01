//! Readings with what tells the types of their expressions and what their names mean.

ghost use Rattle.std.specs.Prelude.{◌≡◌, length, IfOk, IsTrue};
ghost use Rattle.std.specs.List.{list_all};
ghost use Rattle.std.specs.Coded.{codes};
ghost use Rattle.dm_tree.specs.contracts.tree.Core as core;
ghost use Rattle.dm_tree.specs.contracts.tree.Initial as initial;
ghost use Rattle.dm_tree.specs.contracts.tree.Local as local;
ghost use Rattle.dm_tree.specs.TypeNumbers.{IsTypedUnit, external_has_known};
ghost use Rattle.dm_meanings.specs.Named.{AreNamesOf};

use dm_names::Names;
use dm_reading::Reading;
use dm_rules::Index;
use dm_sites::Sites;
use dm_token::Memory;
use std::alloc::Global;

/// What the names of a reading mean, made in one walk over its syntax.
pub fn names_in(alloc: Global, reading: &Reading) -> Result<Names, Memory>
    requires { IsTypedUnit reading.now.types reading.now.core }
    ensures { IfOk result (AreNamesOf reading.now) }
{
    Names::of(
        alloc,
        reading.tokens.items(),
        reading.syntax.items(),
        &reading.core,
        &reading.types,
    )
}

/// A reading, and what its names mean.
#[derive(Clone, Copy)]
pub struct Named<'a> {
    pub reading: &'a Reading,
    pub names: &'a Names,
    ghost has_names: { ∥ AreNamesOf reading.now names.now ∥₁ },
}

impl<'a> Named<'a> {
    pub fn new(reading: &'a Reading, names: &'a Names) -> Named<'a>
        requires { AreNamesOf reading.now names.now }
        ensures { result.reading.now ≡ reading.now }
    {
        Named { reading, names }
    }
}

/// A reading with what looks up the types of its expressions and what its names mean.
#[derive(Drop)]
pub struct Meanings<'u, 'r> {
    pub index: &'u Index<'r>,
    pub sites: Sites<'r>,
    pub names: &'u Names,
    ghost has_types: { IsTrue (list_all (external_has_known (length index.now.reading.now.types.shapes)) index.now.reading.now.core.externals) },
    ghost has_sites: { sites ≡ index.now.reading.now.core } by { Prim.hlevel (codes, core.the_row.coded, initial.the_row.coded, local.the_row.coded) },
    ghost has_names: { ∥ AreNamesOf index.now.reading.now names.now ∥₁ },
}

impl<'u, 'r> Meanings<'u, 'r> {
    /// Those of a reading whose names are known, made in one walk over its trees.
    pub fn of(
        alloc: Global,
        index: &'u Index<'r>,
        names: &'u Names,
    ) -> Result<Meanings<'u, 'r>, Memory>
        requires typed { IsTypedUnit index.now.reading.now.types index.now.reading.now.core }
        requires names { AreNamesOf index.now.reading.now names.now }
        ensures { IfOk result (λ made. made.index.now.reading.now ≡ index.now.reading.now) }
    {
        let sites = Sites::of(alloc, &index.reading.core)?;
        Ok(Meanings {
            index,
            sites,
            names,
        })
    }
}
