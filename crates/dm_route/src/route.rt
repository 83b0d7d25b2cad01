ghost use Rattle.std.specs.Prelude.{◌≡◌, [], ◌++◌, length, IfOk, IsTrue, ◌↔◌};
ghost use Rattle.dm_token.specs.Prefixes.{IsPrefix};

use crate::joining::Joining;
use crate::legs::{Legs, are_alike};
use crate::walks::are_same;
use dm_token::{Memory, Trail};
use std::alloc::Global;
use std::marker::Model;

/// How a token came: the ways that it was led on, the last one first, and behind them a trail of its own. Contracts see all the
/// marks.
#[derive(Drop)]
pub struct Route {
    legs: Legs,
    own: Trail,
}

impl Model for Route {
    ghost use Rattle.std.specs.Prelude.{List, ◌++◌};
    ghost use Rattle.std.specs.Coded.{codes};
    ghost use Rattle.dm_token.specs.declared.expansion.Mark.{Mark};

    ghost Value = { List Mark };

    ghost coded = { Prim.hlevel (codes) };

    ghost view = { λ route. route.legs ++ route.own };
}

impl Route {
    /// Trails, and another one behind them.
    pub fn new(legs: Legs, own: Trail) -> Route
        ensures { result ≡ legs ++ own }
    {
        Route { legs, own }
    }

    /// A trail alone.
    pub fn of(own: Trail) -> Route
        ensures { result ≡ own }
    {
        Route {
            legs: Legs::none(),
            own,
        }
    }

    /// The same marks, which are shared.
    pub fn copy(&self) -> Result<Route, Memory>
        ensures { IfOk result (λ route. route ≡ self.now) }
    {
        Ok(Route {
            legs: self.legs.copy()?,
            own: self.own.copy()?,
        })
    }

    /// The ways that it was led on, and the trail behind them.
    pub fn parts(&self) -> (&Legs, &Trail)
        ensures { self.now ≡ result.0.now ++ result.1.now }
    {
        (&self.legs, &self.own)
    }

    /// The outermost of its trails. It has no marks only where there are none at all.
    pub fn front(&self) -> &Trail
        ensures begins { IsPrefix result.now self.now }
        ensures all { length result.now ≡ 0 → self.now ≡ [] }
    {
        match self.legs.split() {
            None => &self.own,
            Some((trail, _)) => trail,
        }
    }

    /// Whether it begins with the marks of a trail.
    pub fn begins_with(&self, alloc: Global, trail: &Trail) -> Result<bool, Memory>
        ensures { IfOk result (λ begins. IsTrue begins ↔ IsPrefix trail.now self.now) }
    {
        let front = self.front();
        if trail.length() <= front.length() {
            return Ok(trail.begins(front));
        }
        let whole = self.trail(alloc)?;
        Ok(trail.begins(&whole))
    }

    /// All its marks as one trail.
    pub fn trail(&self, alloc: Global) -> Result<Trail, Memory>
        ensures { IfOk result (λ trail. trail ≡ self.now) }
    {
        let mut joining = Joining::new(alloc);
        joining.join(self)
    }

    /// Whether it is sure that two routes have the same marks.
    pub fn is_like(&self, other: &Route) -> bool
        ensures { IsTrue result → self.now ≡ other.now }
    {
        are_alike(&self.legs, &other.legs) && are_same(&self.own, &other.own)
    }
}
