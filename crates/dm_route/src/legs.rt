ghost use Rattle.std.specs.Prelude.{◌≡◌, false, ◌<◌, [], ◌++◌, length, IfOk, IsTrue, MatchOption};

use crate::walks::are_same;
use dm_token::{Memory, Trail};
use std::alloc::Global;
use std::marker::Model;
use std::rc::Rc;

/// How many trails are looked through at most to see whether two ways are alike.
const FEW: u32 = 16;

/// Trails one behind the other, the outermost first, none of them without marks. Contracts see all their marks. Those that end with
/// the same trails may share these, so a copy takes no memory, and one with a trail more in front takes the memory of that.
#[cycle(legs)]
pub struct Legs {
    first: Option<Rc<Leg>>,
}

/// The outermost trail, and those behind it.
#[cycle(legs)]
#[derive(Drop)]
struct Leg {
    trail: Trail,
    behind: Legs,
    /// How many trails there are, this one among them, as far as a number holds that.
    count: u32,
}

impl Model for Legs {
    ghost use Rattle.std.specs.Prelude.{List, length};
    ghost use Rattle.dm_token.specs.declared.expansion.Mark.{Mark};

    ghost Value = { List Mark };

    ghost use Rattle.dm_route.specs.Legs.{marks_of, HasMarks};

    ghost view = { λ legs. marks_of legs.first };

    ghost invariant = { λ legs. HasMarks legs.first };

    ghost size = { length };

    ghost use Rattle.dm_route.specs.LegFalls.{behind_is_shorter};

    ghost size_decreases = { λ legs has. behind_is_shorter legs.first has };
}

impl Legs {
    /// No trails. They take no memory.
    pub fn none() -> Legs
        ensures { result ≡ [] }
    {
        Legs { first: None }
    }

    /// These trails with one more in front of them.
    pub fn behind(&self, alloc: Global, trail: &Trail) -> Result<Legs, Memory>
        requires { 0 < length trail.now }
        ensures { IfOk result (λ legs. legs ≡ trail.now ++ self.now) }
    {
        let leg = Leg {
            trail: trail.copy()?,
            behind: self.copy()?,
            count: self.count().saturating_add(1),
        };
        let first = Rc::new(alloc, leg)?;
        Ok(Legs { first: Some(first) })
    }

    /// The same trails, which are shared. It fails only where a counter of owners is full.
    pub fn copy(&self) -> Result<Legs, Memory>
        ensures { IfOk result (λ legs. legs ≡ self.now) }
    {
        let first = match &self.first {
            None => None,
            Some(leg) => Some(leg.clone()?),
        };
        Ok(Legs { first })
    }

    /// The outermost trail, and those behind it.
    pub fn split(&self) -> Option<(&Trail, &Legs)>
        ensures { MatchOption result (self.now ≡ []) (λ found. (self.now ≡ found.0.now ++ found.1.now) × (0 < length found.0.now)) }
    {
        match self.leg() {
            None => None,
            Some(leg) => Some((&leg.trail, &leg.behind)),
        }
    }

    /// Whether there are none.
    pub fn is_none(&self) -> bool
        ensures nothing { IsTrue result → self.now ≡ [] }
        ensures some { result ≡ false → 0 < length self.now }
    {
        match self.leg() {
            None => true,
            Some(_) => false,
        }
    }

    // The outermost trail with those behind it.
    fn leg(&self) -> Option<&Leg>
        ensures { MatchOption result (self.now ≡ []) (λ leg. (self.now ≡ leg.now.trail ++ leg.now.behind) × (0 < length leg.now.trail)) }
    {
        match &self.first {
            None => None,
            Some(leg) => Some(leg.as_ref()),
        }
    }

    // How many trails there are, as far as that is known.
    fn count(&self) -> u32 {
        match &self.first {
            None => 0,
            Some(leg) => leg.as_ref().count,
        }
    }
}

impl Leg {
    // The trails behind the outermost one.
    fn into_behind(self) -> Legs
        ensures { result ≡ self.behind }
    {
        let Leg {
            trail: _,
            behind,
            count: _,
        } = self;
        behind
    }
}

/// In a loop, so that many trails take no more of the stack than few.
impl Drop for Legs {
    fn drop(mut self) {
        loop {
            let Legs { first } = self;
            let Some(first) = first else {
                return;
            };
            match Rc::into_inner(first) {
                None => return,
                Some(leg) => self = leg.into_behind(),
            }
        }
    }
}

/// Whether it is sure that two ways have the same marks. Only few trails are looked through, so that it takes no longer where there
/// are many.
pub fn are_alike(left: &Legs, right: &Legs) -> bool
    ensures { IsTrue result → left.now ≡ right.now }
{
    if left.count() != right.count() || left.count() > FEW {
        return false;
    }
    let mut mine = left;
    let mut theirs = right;
    while let (Some(one), Some(other)) = (mine.leg(), theirs.leg()) {
        if !are_same(&one.trail, &other.trail) {
            return false;
        }
        mine = &one.behind;
        theirs = &other.behind;
    }
    if !mine.is_none() {
        return false;
    }
    theirs.is_none()
}
