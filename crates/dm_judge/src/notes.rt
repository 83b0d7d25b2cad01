//! What the typed trees of a unit do, noted once.

ghost use Rattle.std.specs.Prelude.{◌≡◌, IfOk};
ghost use Rattle.std.specs.Coded.{codes};
ghost use Rattle.dm_tree.specs.contracts.tree.Core as core;
ghost use Rattle.dm_tree.specs.contracts.tree.Initial as initial;
ghost use Rattle.dm_tree.specs.contracts.tree.Local as local;

use dm_around::Surroundings;
use dm_effect::QuietFunctions;
use dm_sites::Sites;
use dm_stable::Objects;
use dm_token::Memory;
use std::alloc::Global;

/// Which functions of a unit are quiet, what stands round its places, and what its trees do to its objects.
#[derive(Drop)]
pub struct Notes<'a> {
    pub(crate) quiet: QuietFunctions<'a>,
    pub(crate) objects: Objects<'a>,
    pub(crate) surroundings: Surroundings<'a>,
    ghost same_unit: { objects ≡ quiet } by { Prim.hlevel (codes, core.the_row.coded, initial.the_row.coded, local.the_row.coded) },
    ghost same_round: { surroundings ≡ quiet } by { Prim.hlevel (codes, core.the_row.coded, initial.the_row.coded, local.the_row.coded) },
}

impl<'a> Notes<'a> {
    /// Those of the unit of these places.
    pub(crate) fn of(alloc: Global, sites: &Sites<'a>) -> Result<Notes<'a>, Memory>
        ensures { IfOk result (λ made. made.quiet ≡ sites.now) }
    {
        let unit = sites.unit();
        let quiet = QuietFunctions::of(alloc, unit)?;
        let objects = Objects::of(alloc, unit)?;
        let surroundings = Surroundings::of(alloc, sites, &quiet)?;
        Ok(Notes {
            quiet,
            objects,
            surroundings,
        })
    }
}
