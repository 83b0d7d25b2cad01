ghost use Rattle.std.specs.Prelude.{◌≡◌, ◌≤◌, ◌++◌, length, take, IfOk, OnOk, IsTrue};

use crate::route::Route;
use crate::walks::{grown, outermost, take_behind};
use dm_token::{Mark, Memory, Trail};
use std::alloc::Global;
use std::marker::Model;

/// Makes trails of routes. The last one is kept, so that the next one shares the marks with which both begin. Contracts see that one.
#[derive(Drop)]
pub struct Joining {
    alloc: Global,
    route: Route,
    trail: Trail,
    /// The marks of that trail.
    marks: Vec<Mark>,
    /// Room for marks.
    room: Vec<Mark>,
}

impl Model for Joining {
    ghost use Rattle.std.specs.Prelude.{List, ◌≡◌};
    ghost use Rattle.std.specs.Coded.{codes};
    ghost use Rattle.dm_token.specs.declared.expansion.Mark.{Mark};

    ghost Value = { List Mark };

    ghost coded = { Prim.hlevel (codes) };

    ghost view = { λ joining. joining.trail };

    ghost invariant = { λ joining. (joining.trail ≡ joining.route) × (joining.marks.items ≡ joining.trail) };
}

impl Joining {
    pub fn new(alloc: Global) -> Joining {
        Joining {
            alloc,
            route: Route::of(Trail::empty(alloc)),
            trail: Trail::empty(alloc),
            marks: Vec::new(alloc),
            room: Vec::new(alloc),
        }
    }

    /// The trail of a route.
    pub fn join(&mut self, route: &Route) -> Result<Trail, Memory>
        ensures { IfOk result (λ trail. trail ≡ route.now) }
    {
        let (legs, own) = route.parts();
        if legs.is_none() {
            return own.copy();
        }
        if !self.route.is_like(route) {
            self.make(route)?;
        }
        self.trail.copy()
    }

    // Makes the trail of another route.
    fn make(&mut self, route: &Route) -> Result<(), Memory>
        ensures { OnOk result (self.new ≡ route.now) }
    {
        let marks = marks_of(self.alloc, route, &mut self.room)?;
        let trail = shared_trail(&self.trail, self.marks.as_slice(), marks.as_slice())?;
        let route = route.copy()?;
        self.route = route;
        self.trail = trail;
        self.marks = marks;
        Ok(())
    }
}

// Whether two marks are the same.
fn is_mark(left: Mark, right: Mark) -> bool
    ensures { IsTrue result → left ≡ right }
{
    left == right
}

// How many marks two lists share from the first on.
fn shared_front(left: &[Mark], right: &[Mark]) -> usize
    ensures left { result ≤ length left.now }
    ensures right { result ≤ length right.now }
    ensures same { take result left.now ≡ take result right.now }
{
    let most = left.len().min(right.len());
    for index in 0..most {
        if !is_mark(left[index], right[index]) {
            return index;
        }
    }
    most
}

// The same count of a trail's marks, which fits what they are counted by.
fn fitting(count: usize, trail: &Trail) -> u32
    requires { count ≤ length trail.now }
    ensures { result ≡ count }
{
    let all = trail.length();
    if count < all as usize {
        return count as u32;
    }
    all
}

// The trail with these marks, which shares with another one, whose marks are known, those with which both begin.
fn shared_trail(other: &Trail, known: &[Mark], marks: &[Mark]) -> Result<Trail, Memory>
    requires { known.now ≡ other.now }
    ensures { IfOk result (λ trail. trail ≡ marks.now) }
{
    let shared = shared_front(known, marks);
    let front = outermost(other, fitting(shared, other)).copy()?;
    grown_by(front, &marks[shared..])
}

// A trail with these marks behind its own.
fn grown_by(trail: Trail, marks: &[Mark]) -> Result<Trail, Memory>
    ensures { IfOk result (λ longer. longer ≡ trail ++ marks.now) }
{
    let mut longer = trail;
    for mark in marks {
        longer = grown(&longer, *mark)?;
    }
    Ok(longer)
}

// All marks of a route. `room` is room for marks.
fn marks_of(alloc: Global, route: &Route, room: &mut Vec<Mark>) -> Result<Vec<Mark>, Memory>
    ensures { IfOk result (λ marks. marks.items ≡ route.now) }
{
    let (legs, own) = route.parts();
    let mut marks = Vec::new(alloc);
    let mut left = legs;
    'legs: while let Some((trail, behind)) = left.split() {
        add_marks(trail, &mut marks, room)?;
        left = behind;
    }
    add_marks(own, &mut marks, room)?;
    Ok(marks)
}

// Adds the marks of a trail. `room` is room for them.
fn add_marks(trail: &Trail, marks: &mut Vec<Mark>, room: &mut Vec<Mark>) -> Result<(), Memory>
    ensures { OnOk result (marks.new.items ≡ marks.old.items ++ trail.now) }
{
    take_behind(trail, 0, room)?;
    'marks: while let Some(mark) = room.pop() {
        marks.push(mark)?;
    }
    Ok(())
}
