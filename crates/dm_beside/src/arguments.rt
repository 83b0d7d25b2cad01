//! What is known of the arguments of a run.

ghost use Rattle.std.specs.Prelude.{◌≡◌, false, drop, length, IfOk, IsTrue};
ghost use Rattle.std.specs.List.{list_all};
ghost use Rattle.dm_type.specs.Tables.{Table};
ghost use Rattle.dm_tree.specs.TypeNumbers.{entry_has_known, external_has_known};
ghost use Rattle.dm_tree.specs.Views.{view, view_of_unit};
ghost use Rattle.dm_effect.specs.Quiet.{is_quiet};
ghost use Rattle.dm_effect.specs.Sequencing.{around, is_first};
ghost use Rattle.dm_sites.specs.Seen.{path_at};
ghost use Rattle.dm_sites.specs.Sites.{sites_of_unit};
ghost use Rattle.dm_beside.specs.Tallies.{fact_in, placed};

use crate::tally::{Fact, Facts};
use dm_effect::{Path, first};
use dm_sites::{Site, Sites};
use dm_stable::{Objects, is_safe, is_stable_where};
use dm_token::{List, Memory, Span};
use dm_type::Types;
use std::alloc::Global;

/// The arguments of the run that stands at a place of a unit, to which a way leads.
#[derive(Drop)]
pub(crate) struct Arguments<'a> {
    pub alloc: Global,
    pub sites: &'a Sites<'a>,
    pub objects: &'a Objects<'a>,
    pub types: &'a Types,
    pub run: &'a Site<'a>,
    pub at: &'a Path,
    /// Whether the run and what is unsequenced to it are quiet.
    pub calm: bool,
    ghost calmly: { calm ≡ list_all (is_quiet (view_of_unit types.now sites.now)) (around at.now (view types.now run.now.full.now)) },
    ghost noted: { objects.now ≡ sites.now },
    ghost entries: { IsTrue (list_all (entry_has_known (length types.now.shapes)) sites.now.declared) },
    ghost trees: { IsTrue (list_all (external_has_known (length types.now.shapes)) sites.now.externals) },
}

impl<'a> Facts for Arguments<'a> {
    ghost told = { λ it. fact_in it.types.now (view_of_unit it.types.now it.sites.now) (placed it.types.now it.run.now it.at.now) };

    fn tell(&self, span: Span) -> Result<Fact, Memory> {
        let Some(number) = self.sites.find(span) else {
            return Ok(unknown());
        };
        let Some(argument) = self.sites.get(number) else {
            return Ok(unknown());
        };
        let full = self.run.full;
        let at = self.at;
        let first = is_first_in(self.alloc, self.sites, self.run, at, number)?;
        let stable = is_stable_where(self.calm, self.objects, self.types, full, at, argument.tree);
        let safe = is_safe(self.objects, self.types, argument.tree);
        Ok(Fact {
            first,
            stable,
            safe,
        })
    }
}

/// Nothing is known of what isn't one expression.
pub(crate) fn unknown() -> Fact
    ensures first { result.first ≡ false }
    ensures stable { result.stable ≡ false }
    ensures safe { result.safe ≡ false }
{
    Fact {
        first: false,
        stable: false,
        safe: false,
    }
}

/// Whether the argument at the place with this number is evaluated in any case, and nothing of the run picks it.
pub(crate) fn is_first_in(
    alloc: Global,
    sites: &Sites,
    run: &Site,
    at: &Path,
    argument: usize,
) -> Result<bool, Memory>
    ensures { IfOk result (λ answer. (types : Table) → answer ≡ is_first (drop (length at.now) (path_at (sites_of_unit (view_of_unit types sites.now)) argument)) (view types run.now.tree.now)) }
{
    let whole = sites.path(alloc, argument)?;
    let way = behind(alloc, whole.items(), at.len())?;
    Ok(first(run.tree, &way))
}

/// A way without its first steps.
fn behind(alloc: Global, way: &[usize], count: usize) -> Result<Path, Memory>
    ensures { IfOk result (λ rest. rest ≡ drop count way.now) }
{
    if count < way.len() {
        let (_, rest) = way.split_at(count);
        Ok(List::from_vec(rest.to_vec(alloc)?))
    } else {
        Ok(List::new(alloc))
    }
}
