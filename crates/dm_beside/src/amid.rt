//! What is known of the arguments of a run, where it is noted what stands round the places of its unit.

ghost use Rattle.std.specs.Prelude.{◌≡◌, Some, length, slice_get, IfOk, IsTrue};
ghost use Rattle.std.specs.List.{list_all, list_any};
ghost use Rattle.dm_tree.specs.TypeNumbers.{entry_has_known, external_has_known};
ghost use Rattle.dm_tree.specs.Views.{view};
ghost use Rattle.dm_effect.specs.Entities as entities;
ghost use Rattle.dm_effect.specs.Quiet.{is_quiet};
ghost use Rattle.dm_effect.specs.Sequencing.{around};
ghost use Rattle.dm_effect.specs.Stable as stable;
ghost use Rattle.dm_sites.specs.Sites.{Site as SeenSite};
ghost use Rattle.dm_beside.specs.Amid.{IsPlaced, places_at, run_at, unit_at};
ghost use Rattle.dm_beside.specs.Evaluation as evaluation;
ghost use Rattle.dm_beside.specs.Tallies.{fact_in};

use crate::arguments::{is_first_in, unknown};
use crate::tally::{Fact, Facts};
use dm_around::Surroundings;
use dm_effect::is_pure;
use dm_sites::{Site, Sites};
use dm_stable::{Names, Objects, has_steady_leaves, is_safe, is_scalar_local};
use dm_token::{Memory, Span};
use dm_tree::Core;
use dm_type::Types;
use std::alloc::Global;

/// The arguments of the run that stands at the place with a number of a unit.
#[derive(Drop)]
pub(crate) struct NotedArguments<'a> {
    pub alloc: Global,
    pub sites: &'a Sites<'a>,
    pub surroundings: &'a Surroundings<'a>,
    pub objects: &'a Objects<'a>,
    pub types: &'a Types,
    pub run: &'a Site<'a>,
    pub number: usize,
    /// Whether the run and what is unsequenced to it are quiet.
    pub calm: bool,
    ghost calmly: { let site = run_at types.now sites.now run.now in calm ≡ list_all (is_quiet (unit_at types.now sites.now)) (around site.path site.full) },
    ghost noted: { objects.now ≡ sites.now },
    ghost round: { surroundings.now ≡ sites.now },
    ghost entries: { IsTrue (list_all (entry_has_known (length types.now.shapes)) sites.now.declared) },
    ghost trees: { IsTrue (list_all (external_has_known (length types.now.shapes)) sites.now.externals) },
    ghost placed: { ∥ IsPlaced types.now sites.now run.now number ∥₁ },
}

impl<'a> Names for NotedArguments<'a> {
    ghost test = { λ it. let site = run_at it.types.now it.sites.now it.run.now in stable.stays (unit_at it.types.now it.sites.now) (around site.path site.full) };

    fn pass(&self, object: u32) -> bool {
        self.is_local(object) && !self.is_addressed(object) && !self.is_written(object)
    }
}

impl<'a> NotedArguments<'a> {
    /// Whether an object is an automatic one of a scalar type.
    fn is_local(&self, object: u32) -> bool
        ensures { result ≡ stable.is_scalar_local (slice_get (unit_at self.now.types.now self.now.sites.now).declared object) }
    {
        is_scalar_local(self.objects.unit(), self.types, object)
    }

    /// Whether its address is taken somewhere in the unit.
    fn is_addressed(&self, object: u32) -> bool
        ensures { result ≡ entities.is_addressed (unit_at self.now.types.now self.now.sites.now) object }
    {
        self.objects.is_addressed(object)
    }

    /// Whether something round the run stores into it.
    fn is_written(&self, object: u32) -> bool
        ensures { let site = run_at self.now.types.now self.now.sites.now self.now.run.now in result ≡ list_any (entities.writes object) (around site.path site.full) }
    {
        self.surroundings.is_written(self.number, object)
    }

    /// Whether the argument at the place with this number is evaluated in any case, and nothing of the run picks it.
    fn is_first(&self, argument: usize) -> Result<bool, Memory>
        ensures { IfOk result (λ answer. (site : SeenSite) → slice_get (places_at self.now.types.now self.now.sites.now) argument ≡ Some site
            → answer ≡ evaluation.is_first_in (run_at self.now.types.now self.now.sites.now self.now.run.now) site) }
    {
        match self.surroundings.is_first(self.number, argument) {
            Some(answer) => Ok(answer),
            None => {
                let at = self.sites.path(self.alloc, self.number)?;
                let answer = is_first_in(self.alloc, self.sites, self.run, &at, argument)?;
                Ok(answer)
            }
        }
    }

    /// Whether the value of an argument stays the same while the run and what is unsequenced to it are evaluated.
    fn is_stable(&self, argument: &Core) -> bool
        ensures { let site = run_at self.now.types.now self.now.sites.now self.now.run.now in
            result ≡ stable.is_stable (unit_at self.now.types.now self.now.sites.now) site.full site.path (view self.now.types.now argument.now) }
    {
        if !is_pure(argument) {
            return false;
        }
        if self.calm {
            return true;
        }
        has_steady_leaves(argument, self)
    }
}

impl<'a> Facts for NotedArguments<'a> {
    ghost told = { λ it. fact_in it.types.now (unit_at it.types.now it.sites.now) (run_at it.types.now it.sites.now it.run.now) };

    fn tell(&self, span: Span) -> Result<Fact, Memory> {
        let Some(number) = self.sites.find(span) else {
            return Ok(unknown());
        };
        let Some(argument) = self.sites.get(number) else {
            return Ok(unknown());
        };
        let first = self.is_first(number)?;
        let stable = self.is_stable(argument.tree);
        let safe = is_safe(self.objects, self.types, argument.tree);
        Ok(Fact {
            first,
            stable,
            safe,
        })
    }
}
