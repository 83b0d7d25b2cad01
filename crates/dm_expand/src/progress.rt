ghost use Rattle.std.specs.Prelude.{◌≡◌, [], ◌∷◌, ◌≤◌, ◌<◌, Ok, Err, map, OnOk, IfErr};
ghost use Rattle.dm_token.specs.Limits.{most_work};
ghost use Rattle.dm_expand.specs.Steps as steps;
ghost use Rattle.dm_expand.specs.Predefined.{name_of as place_of_name};
ghost use Rattle.dm_expand.specs.Views.{StopsAs, IsWithin, AreNumberedSo, taken_along};

use crate::item::Item;
use dm_route::{Route, innermost};
use dm_token::{Expansion, Limit, MOST_WORK, Mark, Place, Stop, Trail, limit_numbers};
use std::alloc::Global;
use std::marker::Model;

/// What an expansion of a list has done so far. Contracts see the next expansion's number, the count of work, and the
/// expansions in the order in which they were made.
#[derive(Drop)]
pub struct Progress {
    pub instance: u32,
    pub spent: u32,
    pub expansions: Vec<Expansion>,
    /// The number of the first of these expansions.
    pub first: u32,
}

impl Model for Progress {
    ghost use Rattle.std.specs.Coded.{codes};
    ghost use Rattle.dm_expand.specs.Steps as steps;
    ghost use Rattle.dm_expand.specs.Laws.{AreNumbered};

    ghost Value = { steps.Progress };

    ghost coded = { Prim.hlevel (codes) };

    ghost view = { λ progress. record { instance = progress.instance; spent = progress.spent; expansions = progress.expansions.items } };

    ghost invariant = { λ progress. AreNumbered progress.first progress.expansions.items progress.instance };
}

impl Progress {
    /// Before anything is done.
    #[tactic(auto, unfolding(crate::specs::Steps::at_start))]
    pub fn new(alloc: Global, instance: u32, spent: u32) -> Progress
        ensures { result ≡ steps.at_start instance spent }
    {
        Progress {
            instance,
            spent,
            expansions: Vec::new(alloc),
            first: instance,
        }
    }

    /// The number of the next expansion.
    pub fn next_instance(&self) -> u32
        ensures { result ≡ self.now.instance }
    {
        self.instance
    }

    /// Counts work for a name at this place. As soon as it is more than the greatest, it stops.
    pub fn spend(&mut self, place: Place, work: usize) -> Result<(), Stop>
        requires { self.old.spent ≤ most_work }
        ensures ok { OnOk result (steps.spend place work self.old ≡ Ok self.new) }
        ensures stop { IfErr result (λ stop. steps.spend place work self.old ≡ Err stop) }
    {
        let left = MOST_WORK - self.spent;
        if work > left as usize {
            return Err(too_much(place));
        }
        self.spent += work as u32;
        Ok(())
    }

    /// Begins an expansion, which counts as work and takes the next number. `foreign` says whether some token of the
    /// invocation came by another way than the name.
    pub fn begin(&mut self, definition: u32, name: &Item, foreign: bool) -> Result<(), Stop>
        requires { IsWithin self.old }
        ensures ok { OnOk result (steps.begin definition name.now foreign self.old ≡ Ok self.new) }
        ensures stop { IfErr result (λ stop. StopsAs (steps.begin definition name.now foreign self.old) stop) }
    {
        self.spend(name.pp.place, 1)?;
        let made = Expansion {
            definition,
            instance: self.instance,
            name: name.pp.place,
            trail: name.trail.trail(*self.expansions.allocator())?,
            taken: false,
            foreign,
        };
        self.expansions.push(made)?;
        self.instance += 1;
        Ok(())
    }

    /// `#` or `##` uses an argument: each expansion whose mark one of its tokens carries is taken.
    pub fn take(&mut self, argument: &[Item])
        ensures { self.new ≡ steps.take_argument argument.now self.old }
    {
        let first = self.first;
        take_in(self.expansions.as_mut_slice(), first, argument);
    }

    /// The place of the name of the expansion with this number, and else another place.
    pub fn name_of(&self, instance: u32, other: Place) -> Place
        ensures { result ≡ place_of_name instance self.now.expansions other }
    {
        if instance < self.first {
            return other;
        }
        let made = self.expansions.as_slice();
        let index = (instance - self.first) as usize;
        if index < made.len() {
            return made[index].name;
        }
        other
    }
}

// The limit of the work, passed for a name at this place.
#[tactic(auto, unfolding(crate::specs::Steps::too_much))]
fn too_much(place: Place) -> Stop
    ensures { result ≡ steps.too_much place }
{
    Stop::Limit(Limit {
        number: limit_numbers::WORK,
        file: place.file,
    })
}

// Marks those of these expansions as taken whose marks one of these tokens carries. They are numbered from the first one's
// number on, so a mark tells where its expansion stands.
fn take_in(expansions: &mut [Expansion], first: u32, argument: &[Item])
    requires { AreNumberedSo first expansions.old }
    ensures { expansions.new ≡ map (steps.taken_by argument.now) expansions.old }
{
    for item in argument {
        take_on(expansions, first, &item.trail);
    }
}

// Marks those as taken whose marks a route has.
fn take_on(expansions: &mut [Expansion], first: u32, route: &Route)
    requires { AreNumberedSo first expansions.old }
    ensures { expansions.new ≡ map (taken_along route.now) expansions.old }
{
    let (legs, own) = route.parts();
    let mut left = legs;
    'legs: while let Some((trail, behind)) = left.split() {
        take_along(expansions, first, trail);
        left = behind;
    }
    take_along(expansions, first, own);
}

// Marks those as taken whose marks a trail has.
fn take_along(expansions: &mut [Expansion], first: u32, trail: &Trail)
    requires { AreNumberedSo first expansions.old }
    ensures { expansions.new ≡ map (taken_along trail.now) expansions.old }
{
    let mut left = trail;
    'walk: while let Some((mark, outer)) = innermost(left) {
        take_marked(expansions, first, mark);
        left = outer;
    }
}

// Marks the one as taken whose mark this is.
fn take_marked(expansions: &mut [Expansion], first: u32, mark: Mark)
    requires { AreNumberedSo first expansions.old }
    ensures { expansions.new ≡ map (taken_along (mark ∷ [])) expansions.old }
{
    let Mark::Expansion {
        definition: _,
        instance,
    } = mark
    else {
        return;
    };
    if instance < first {
        return;
    }
    let index = (instance - first) as usize;
    if index < expansions.len() {
        expansions[index].taken = true;
    }
}
