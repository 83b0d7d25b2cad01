ghost use Rattle.std.specs.Prelude.{◌≡◌, false, ◌<◌, ◌≤◌, ◌++◌, length, slice_get, IfOk, IfSome};
ghost use Rattle.dm_expand.specs.Trails as trails;
ghost use Rattle.dm_expand.specs.Ways as ways;

use crate::item::Item;
use dm_route::{Legs, Route, are_alike, are_same, innermost, regrown, shared_count};
use dm_token::{Mark, Memory, Trail};
use std::alloc::Global;
use std::marker::Model;

/// The way of an argument to one of its parameter's places. Contracts see the trail of the macro's name, and the base:
/// that trail with the marks of the expansion and of the argument. Neighbours mostly came alike, so what was led on last is
/// kept with what became of it.
#[derive(Drop)]
pub struct Way {
    alloc: Global,
    name: Trail,
    base: Trail,
    /// The base alone.
    first: Legs,
    /// The last trail without others in front of it, and what is left of it past the name's.
    last: Trail,
    left: Trail,
    /// The last trails that stood in front of another one, and what became of them.
    last_legs: Legs,
    became: Legs,
    /// Room for marks.
    marks: Vec<Mark>,
}

impl Model for Way {
    ghost use Rattle.std.specs.Prelude.{◌≡◌};
    ghost use Rattle.std.specs.Coded.{codes};
    ghost use Rattle.dm_expand.specs.Trails.{past};
    ghost use Rattle.dm_expand.specs.Ways as ways;

    ghost Value = { ways.Way };

    ghost coded = { Prim.hlevel (codes) };

    ghost view = { λ way. ways.way_of way.name way.base };

    ghost invariant = { λ way. ways.IsKept way.name way.base way.first way.last way.left way.last_legs way.became };
}

impl Way {
    pub fn new(alloc: Global, name: &Trail, base: Trail) -> Result<Way, Memory>
        requires { 0 < length base }
        ensures { IfOk result (λ way. way ≡ ways.way_of name.now base) }
    {
        let name = name.copy()?;
        let nothing = Legs::none();
        let first = nothing.behind(alloc, &base)?;
        Ok(Way {
            alloc,
            name,
            base,
            first,
            last: Trail::empty(alloc),
            left: Trail::empty(alloc),
            last_legs: Legs::none(),
            became: Legs::none(),
            marks: Vec::new(alloc),
        })
    }

    /// What becomes of the route of one of the argument's tokens.
    pub fn lead(&mut self, route: &Route) -> Result<Route, Memory>
        ensures led { IfOk result (λ longer. longer ≡ ways.led self.old route.now) }
        ensures same { self.new ≡ self.old }
    {
        let (legs, own) = route.parts();
        if legs.is_none() {
            let longer = self.lead_trail(own)?;
            return Ok(longer);
        }
        if let Some(led) = self.lead_legs(legs)? {
            let last = own.copy()?;
            return Ok(Route::new(led, last));
        }
        let whole = route.trail(self.alloc)?;
        let longer = self.lead_trail(&whole)?;
        Ok(longer)
    }

    // What becomes of a trail that no others stand in front of.
    fn lead_trail(&mut self, trail: &Trail) -> Result<Route, Memory>
        ensures led { IfOk result (λ longer. longer ≡ ways.led self.old trail.now) }
        ensures same { self.new ≡ self.old }
    {
        let left = self.past_name(trail)?;
        let first = self.first.copy()?;
        Ok(Route::new(first, left))
    }

    // What is left of a trail past what it has in common with the name's.
    fn past_name(&mut self, trail: &Trail) -> Result<Trail, Memory>
        ensures left { IfOk result (λ left. left ≡ trails.past self.old.name trail.now) }
        ensures same { self.new ≡ self.old }
    {
        if are_same(&self.last, trail) {
            return self.left.copy();
        }
        let left = self.cut(trail)?;
        let last = trail.copy()?;
        let copy = left.copy()?;
        self.last = last;
        self.left = left;
        Ok(copy)
    }

    // The same, made anew.
    fn cut(&mut self, trail: &Trail) -> Result<Trail, Memory>
        ensures left { IfOk result (λ left. left ≡ trails.past self.old.name trail.now) }
        ensures same { self.new ≡ self.old }
    {
        let shared = shared_count(&self.name, trail);
        if shared == 0 {
            let same = trail.copy()?;
            return Ok(same);
        }
        let left = regrown(&mut self.marks, Trail::empty(self.alloc), trail, shared)?;
        Ok(left)
    }

    // What becomes of trails that stand in front of another one, unless that depends on the other one.
    fn lead_legs(&mut self, legs: &Legs) -> Result<Option<Legs>, Memory>
        ensures led { IfOk result (λ found. IfSome found (ways.LeadsTo self.old legs.now)) }
        ensures same { self.new ≡ self.old }
    {
        if !self.last_legs.is_none() && are_alike(&self.last_legs, legs) {
            let became = self.became.copy()?;
            return Ok(Some(became));
        }
        let Some(became) = self.led_legs(legs)? else {
            return Ok(None);
        };
        self.keep(legs, &became)?;
        Ok(Some(became))
    }

    // Keeps what becomes of trails that stand in front of another one.
    fn keep(&mut self, legs: &Legs, became: &Legs) -> Result<(), Memory>
        requires { ways.LeadsTo self.old legs.now became.now }
        ensures { self.new ≡ self.old }
    {
        let last = legs.copy()?;
        let kept = became.copy()?;
        self.last_legs = last;
        self.became = kept;
        Ok(())
    }

    // The same, made anew: the outermost of the trails loses what it has in common with the name's, and the base is put in front.
    fn led_legs(&mut self, legs: &Legs) -> Result<Option<Legs>, Memory>
        ensures led { IfOk result (λ found. IfSome found (ways.LeadsTo self.old legs.now)) }
        ensures same { self.new ≡ self.old }
    {
        let Some((outer, behind)) = legs.split() else {
            return Ok(None);
        };
        let shared = shared_count(&self.name, outer);
        if depends(shared, outer.length(), self.name.length()) {
            return Ok(None);
        }
        if shared == 0 {
            let whole = legs.behind(self.alloc, &self.base)?;
            return Ok(Some(whole));
        }
        let rest = regrown(&mut self.marks, Trail::empty(self.alloc), outer, shared)?;
        let inner = with_front(self.alloc, &rest, behind)?;
        let became = inner.behind(self.alloc, &self.base)?;
        Ok(Some(became))
    }
}

// Whether what a name and other marks have in common may go on behind these, where each has so many marks.
fn depends(shared: u32, outer: u32, name: u32) -> bool
    ensures { result ≡ false → shared ≡ outer → name ≤ shared }
{
    shared == outer && shared < name
}

// A trail in front of others, if it has marks.
fn with_front(alloc: Global, trail: &Trail, behind: &Legs) -> Result<Legs, Memory>
    ensures { IfOk result (λ legs. legs ≡ trail.now ++ behind.now) }
{
    if trail.length() == 0 {
        return behind.copy();
    }
    behind.behind(alloc, trail)
}

// Whether a route begins with a trail.
pub fn begins_with(alloc: Global, name: &Trail, route: &Route) -> Result<bool, Memory>
    ensures { IfOk result (λ begins. begins ≡ trails.begins_with name.now route.now) }
{
    if name.length() == 0 {
        return Ok(true);
    }
    let begins = route.begins_with(alloc, name)?;
    Ok(begins)
}

/// Whether some token didn't come by the way that the name came.
pub fn come_otherwise(alloc: Global, name: &Trail, items: &[Item]) -> Result<bool, Memory>
    ensures { IfOk result (λ otherwise. otherwise ≡ trails.come_otherwise name.now items.now) }
{
    if name.length() == 0 {
        return Ok(false);
    }
    for item in items {
        let begins = begins_with(alloc, name, &item.trail)?;
        if !begins {
            return Ok(true);
        }
    }
    Ok(false)
}

// The outermost mark of a trail.
fn first_mark(trail: &Trail) -> Option<Mark>
    ensures { result ≡ slice_get trail.now 0 }
{
    let mut first = None;
    let mut left = trail;
    'walk: while let Some((mark, outer)) = innermost(left) {
        first = Some(mark);
        left = outer;
    }
    first
}

/// The outermost mark of a route.
pub fn first_of(route: &Route) -> Option<Mark>
    ensures { result ≡ slice_get route.now 0 }
{
    first_mark(route.front())
}
