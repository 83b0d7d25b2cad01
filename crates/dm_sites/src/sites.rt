//! The places of expressions in a unit.

ghost use Rattle.std.specs.Prelude.{◌≡◌, IfOk, map, option_map, option_and_then, slice_get, List as Sequence};
ghost use Rattle.std.specs.Option.{option_copied};
ghost use Rattle.dm_type.specs.Tables.{Table};
ghost use Rattle.dm_tree.specs.Views.{view_of_unit};
ghost use Rattle.dm_sites.specs.Links.{passes};
ghost use Rattle.dm_sites.specs.Seen.{above_at, path_at, seen};
ghost use Rattle.dm_sites.specs.Sites.{is_site_of, site_of, sites_of_unit, Site as SeenSite};

use crate::links::{ends, link, linked};
use crate::site::{Above, Site};
use crate::standing::stands;
use crate::walk::walk;
use dm_effect::Path;
use dm_token::{List, Memory, Span};
use dm_tree::CoreUnit;
use std::alloc::Global;
use std::marker::Model;

/// The places of expressions in a unit, each with a number: one stands before those inside it. Contracts see the unit.
#[derive(Drop)]
pub struct Sites<'a> {
    unit: &'a CoreUnit,
    found: Vec<Site<'a>>,
    /// By the sum of the ends of an expression's span, the number of its first place.
    heads: Vec<Option<usize>>,
    /// By the number of a place, that of the next one with the same sum.
    next: Vec<Option<usize>>,
}

impl<'a> Model for Sites<'a> {
    ghost use Rattle.std.specs.Coded.{codes};
    ghost use Rattle.dm_tree.specs.contracts.tree.Core as core;
    ghost use Rattle.dm_tree.specs.contracts.tree.Initial as initial;
    ghost use Rattle.dm_tree.specs.contracts.tree.Local as local;
    ghost use Rattle.dm_tree.specs.declared.unit.CoreUnit.{CoreUnit as OneUnit};
    ghost use Rattle.dm_sites.specs.Walks.{AreSites};

    ghost Value = { OneUnit };

    ghost coded = { Prim.hlevel (codes, core.the_row.coded, initial.the_row.coded, local.the_row.coded) };

    ghost view = { λ all. all.unit.now };

    ghost invariant = { λ all. AreSites all.unit.now all.found.items all.heads.items all.next.items };
}

impl<'a> Sites<'a> {
    /// Those of a unit, found in one walk over its trees.
    pub fn of(alloc: Global, unit: &'a CoreUnit) -> Result<Sites<'a>, Memory>
        ensures { IfOk result (λ made. made ≡ unit.now) }
    {
        let found = walk(alloc, unit)?;
        let links = link(alloc, found.as_slice())?;
        Ok(Sites {
            unit,
            found,
            heads: links.heads,
            next: links.next,
        })
    }

    /// The unit.
    pub fn unit(&self) -> &'a CoreUnit
        ensures { result.now ≡ self.now }
    {
        self.unit
    }

    /// The place with this number.
    pub fn get(&self, number: usize) -> Option<&Site<'a>>
        ensures { (types : Table) → let all = sites_of_unit (view_of_unit types self.now) in option_map (seen types all) (option_copied result) ≡ slice_get all number }
    {
        self.found.get(number)
    }

    /// The number of the place of the value of the expression that has these tokens.
    pub fn find(&self, span: Span) -> Option<usize>
        ensures { (types : Table) → option_and_then (slice_get (sites_of_unit (view_of_unit types self.now))) result ≡ site_of (view_of_unit types self.now) span }
    {
        let mut at = linked(self.heads.as_slice(), ends(span));
        while let Some(number) = at {
            if is_at(self.found.as_slice(), number, span) {
                return Some(number);
            }
            at = linked(self.next.as_slice(), number);
        }
        None
    }

    /// The way to the place with this number from its full expression.
    pub fn path(&self, alloc: Global, number: usize) -> Result<Path, Memory>
        ensures { IfOk result (λ path. (types : Table) → path ≡ path_at (sites_of_unit (view_of_unit types self.now)) number) }
    {
        let mut parts = Vec::new(alloc);
        let mut at = number;
        while let Some(above) = above(self.found.as_slice(), at) {
            parts.push(above.part)?;
            at = above.site;
        }
        parts.reverse();
        Ok(List::from_vec(parts))
    }
}

/// Whether the place with this number is that of the expression that has these tokens.
fn is_at(found: &[Site], number: usize, span: Span) -> bool
    ensures { (types : Table) (all : Sequence SeenSite) → map (seen types all) found.now ≡ all → passes (is_site_of span) (slice_get all number) ≡ result }
{
    match found.get(number) {
        Some(site) => site.apart && stands(span, site.tree),
        None => false,
    }
}

/// Where the place with this number stands in its full expression.
fn above(found: &[Site], number: usize) -> Option<Above>
    ensures { result ≡ above_at found.now number }
{
    match found.get(number) {
        Some(site) => site.above,
        None => None,
    }
}
