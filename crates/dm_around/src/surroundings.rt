//! What stands round the places of a unit.

ghost use Rattle.std.specs.Prelude.{◌≡◌, ◌+◌, ◌&&◌, Some, drop, is_some, length, nat_le, nat_lt, slice_get, IfOk, IfSome};
ghost use Rattle.std.specs.List.{list_all, list_any};
ghost use Rattle.dm_type.specs.Tables.{Table};
ghost use Rattle.dm_tree.specs.Paths.{nodes_in};
ghost use Rattle.dm_tree.specs.TypeNumbers.{IsTypedUnit};
ghost use Rattle.dm_tree.specs.Views.{view_of_unit};
ghost use Rattle.dm_effect.specs.Entities.{writes};
ghost use Rattle.dm_effect.specs.Quiet as quieting;
ghost use Rattle.dm_effect.specs.Sequencing as sequencing;
ghost use Rattle.dm_effect.specs.Sequencing.{around};
ghost use Rattle.dm_sites.specs.Sites.{sites_of_unit, Site as SeenSite};

use crate::beside::is_written_around;
use crate::ends::ends_of;
use crate::links::{Link, links_of};
use crate::noise::{Noise, noise_at, noises_of};
use crate::parents::parents_of;
use crate::ways::{Way, is_in, way_at, ways_of};
use crate::writes::{row_of, writes_of};
use dm_effect::QuietFunctions;
use dm_sites::Sites;
use dm_token::{List, Memory};
use dm_tree::CoreUnit;
use std::alloc::Global;
use std::marker::Model;

/// What stands round the places of expressions in a unit, noted once for all of them. Contracts see the unit.
#[derive(Drop)]
pub struct Surroundings<'a> {
    unit: &'a CoreUnit,
    noises: Vec<Noise>,
    /// By the number of a place, that of the first one behind those inside it.
    ends: Vec<usize>,
    /// By the number of a place, the nearest expression above it that leaves its operands unsequenced.
    links: Vec<Option<Link>>,
    /// By the number of an object, the numbers of the places that store into it.
    writes: Vec<List<usize>>,
    /// By the number of a place, the way to it.
    ways: Vec<Way>,
}

impl<'a> Model for Surroundings<'a> {
    ghost use Rattle.std.specs.Coded.{codes};
    ghost use Rattle.dm_tree.specs.contracts.tree.Core as core;
    ghost use Rattle.dm_tree.specs.contracts.tree.Initial as initial;
    ghost use Rattle.dm_tree.specs.contracts.tree.Local as local;
    ghost use Rattle.dm_tree.specs.declared.unit.CoreUnit.{CoreUnit as OneUnit};
    ghost use Rattle.dm_around.specs.Noted.{AreNoted};

    ghost Value = { OneUnit };

    ghost coded = { Prim.hlevel (codes, core.the_row.coded, initial.the_row.coded, local.the_row.coded) };

    ghost view = { λ all. all.unit.now };

    ghost invariant = { λ all. AreNoted all.unit.now all.noises.items all.ends.items all.links.items all.writes.items all.ways.items };
}

impl<'a> Surroundings<'a> {
    /// Those of a unit, of which it is known which functions are quiet. Goes through the places a few times; the operands of an
    /// expression that leaves them unsequenced are gone through again where one of them calls or stores, so this is linear for each
    /// level of such expressions.
    // A function of its own in each program, so that profiles tell what it costs.
    #[inline(never)]
    pub fn of(
        alloc: Global,
        sites: &Sites<'a>,
        quiet: &QuietFunctions,
    ) -> Result<Surroundings<'a>, Memory>
        requires { quiet.now ≡ sites.now }
        ensures { IfOk result (λ made. made ≡ sites.now) }
    {
        let parents = parents_of(alloc, sites)?;
        let noises = noises_of(alloc, sites, quiet, parents.as_slice())?;
        let total = parents.len();
        let ends = ends_of(alloc, sites, total)?;
        let links = links_of(alloc, sites, parents.as_slice())?;
        let writes = writes_of(alloc, sites, total)?;
        let ways = ways_of(alloc, sites, parents.as_slice())?;
        Ok(Surroundings {
            unit: sites.unit(),
            noises,
            ends,
            links,
            writes,
            ways,
        })
    }

    /// Whether what stands at the place with this number, and all operands that are unsequenced to it, are quiet. Takes the time of a walk
    /// over what stands there.
    pub fn are_quiet(&self, sites: &Sites, quiet: &QuietFunctions, number: usize) -> bool
        requires sites { sites.now ≡ self.now }
        requires quiet { quiet.now ≡ self.now }
        ensures { (types : Table) (site : SeenSite) → IsTypedUnit types self.now → slice_get (sites_of_unit (view_of_unit types self.now)) number ≡ Some site
            → result ≡ list_all (quieting.is_quiet (view_of_unit types self.now)) (around site.path site.full) }
    {
        if noise_at(self.noises.as_slice(), number).beside {
            return false;
        }
        match sites.get(number) {
            Some(site) => quiet.is_quiet(site.tree),
            None => false,
        }
    }

    /// Whether what stands at the place with this number, or an operand that is unsequenced to it, stores into an object by its name. Goes
    /// up the expressions above the place, and looks only at where the object is stored into.
    pub fn is_written(&self, number: usize, object: u32) -> bool
        ensures { (types : Table) (site : SeenSite) → IsTypedUnit types self.now → slice_get (sites_of_unit (view_of_unit types self.now)) number ≡ Some site
            → result ≡ list_any (writes object) (around site.path site.full) }
    {
        let row = row_of(self.writes.as_slice(), object);
        let (ends, links) = (self.ends.as_slice(), self.links.as_slice());
        is_written_around(row, ends, links, number)
    }

    /// Whether what stands at the second place is evaluated in any case where what stands at the first one round it is, and nothing picks
    /// it. None where it isn't inside. Takes no walk.
    pub fn is_first(&self, whole: usize, part: usize) -> Option<bool>
        ensures inside { (types : Table) (upper : SeenSite) → IsTypedUnit types self.now → slice_get (sites_of_unit (view_of_unit types self.now)) whole ≡ Some upper
            → is_some result ≡ (nat_le whole part && nat_lt part (whole + nodes_in upper.tree)) }
        ensures first { IfSome result (λ answer. (types : Table) (upper site : SeenSite) → IsTypedUnit types self.now
            → slice_get (sites_of_unit (view_of_unit types self.now)) whole ≡ Some upper → slice_get (sites_of_unit (view_of_unit types self.now)) part ≡ Some site
            → answer ≡ sequencing.is_first (drop (length upper.path) site.path) upper.tree) }
    {
        if !is_in(self.ends.as_slice(), whole, part) {
            return None;
        }
        let ways = self.ways.as_slice();
        let (outer, inner) = (way_at(ways, whole), way_at(ways, part));
        Some(inner.gate <= outer.depth)
    }
}
