//! Rows, and the place in them.

ghost use Rattle.std.specs.Prelude.{◌≡◌, ◌<◌, ◌≤◌, ◌+◌, ◌^◌, ◌∷◌, ◌++◌, ◌&&◌, [], length, nat_eq, OnOk, MatchOption};
ghost use Rattle.dm_row.specs.Counts.{ready_in, results_after, is_next_ready, weight_in};
ghost use Rattle.dm_row.specs.declared.item.Item.TheVariants.{Done};
ghost use Rattle.dm_row.specs.Sought.{IsBehind, IsSought};

use crate::item::{Ahead, Item, Passed};
use dm_token::Memory;
use std::alloc::Global;
use std::marker::Model;

/// An item in front of the place, and the counts in front of it.
#[derive(Drop)]
struct Left<R, N> {
    item: Item<R, N>,
    counts: Passed,
}

/// An item behind the place, and the counts behind it.
#[derive(Drop)]
struct Right<R, N> {
    item: Item<R, N>,
    counts: Ahead,
}

/// A row of items with a place in it, which contracts see as the items in front of the place and those behind it. Items are put in and
/// taken out at the place. To move the place takes as many steps as there are items on the way.
#[derive(Drop)]
pub struct Row<R, N> {
    left: Vec<Left<R, N>>,
    passed: Passed,
    /// The nearest one last.
    right: Vec<Right<R, N>>,
    ahead: Ahead,
}

/// How many items may stand on one side of the place.
const MOST: usize = 4_000_000_000;

impl<R, N> Model for Row<R, N> {
    ghost use Rattle.std.specs.Prelude.{List, map, reverse};
    ghost use Rattle.dm_row.specs.declared.item.Item.{Item};
    ghost use Rattle.dm_row.specs.Sides.{items_left, items_right, IsCounted};

    ghost Value = { List (Item R N) × List (Item R N) };

    ghost view = { λ row. (items_left row.left.items, items_right row.right.items) };

    ghost invariant = { λ row. IsCounted row.left.items row.passed row.right.items row.ahead };
}

impl<R: Drop, N: Drop> Row<R, N> {
    /// The empty row. It takes no memory.
    pub fn new(alloc: Global) -> Row<R, N>
        ensures { result ≡ ([], []) }
    {
        Row {
            left: Vec::new(alloc),
            passed: Passed {
                results: 0,
                ready: 0,
                weight: 0,
            },
            right: Vec::new(alloc),
            ahead: Ahead {
                results: 0,
                operands: None,
                ready: 0,
            },
        }
    }

    /// Puts an item in front of the place.
    pub fn put_in_front(&mut self, item: Item<R, N>) -> Result<(), Memory>
        ensures { OnOk result (self.new ≡ (self.old.0 ++ item ∷ [], self.old.1)) }
    {
        let counts = self.passed;
        if self.left.len() >= MOST || item.weight() > usize::MAX - counts.weight {
            return Err(Memory);
        }
        let next = counts.with(&item);
        self.left.push(Left { item, counts })?;
        self.passed = next;
        Ok(())
    }

    /// Puts an item behind the place.
    pub fn put_behind(&mut self, item: Item<R, N>) -> Result<(), Memory>
        ensures { OnOk result (self.new ≡ (self.old.0, item ∷ self.old.1)) }
    {
        if self.right.len() >= MOST {
            return Err(Memory);
        }
        let counts = self.ahead;
        let next = counts.with(&item);
        self.right.push(Right { item, counts })?;
        self.ahead = next;
        Ok(())
    }

    /// Takes the item out that stands directly in front of the place.
    pub fn take_in_front(&mut self) -> Option<Item<R, N>>
        ensures { MatchOption result ((self.old.0 ≡ []) × (self.new ≡ self.old)) (λ item. (self.old.0 ≡ self.new.0 ++ item ∷ []) × (self.new.1 ≡ self.old.1)) }
    {
        let Some(Left { item, counts }) = self.left.pop() else {
            return None;
        };
        self.passed = counts;
        Some(item)
    }

    /// Takes the item out that stands directly behind the place.
    pub fn take_behind(&mut self) -> Option<Item<R, N>>
        ensures { MatchOption result ((self.old.1 ≡ []) × (self.new ≡ self.old)) (λ item. (self.old.1 ≡ item ∷ self.new.1) × (self.new.0 ≡ self.old.0)) }
    {
        let Some(Right { item, counts }) = self.right.pop() else {
            return None;
        };
        self.ahead = counts;
        Some(item)
    }

    /// Takes the result out that stands directly in front of the place, with its weight.
    pub fn take_result(&mut self) -> Option<(R, usize)>
        ensures { MatchOption result (results_after 0 self.old.0 ≡ 0) (λ one. (self.old.0 ≡ self.new.0 ++ Done one.0 one.1 ∷ []) × (self.new.1 ≡ self.old.1)) }
    {
        if self.results_in_front() == 0 {
            return None;
        }
        match self.take_in_front() {
            Some(Item::Done(result, weight)) => Some((result, weight)),
            Some(Item::Waits(_, _)) => None,
            None => None,
        }
    }

    /// How many results stand directly in front of the place.
    pub fn results_in_front(&self) -> usize
        ensures { result ≡ results_after 0 self.now.0 }
    {
        self.passed.results
    }

    /// How many nodes in front of the place have all their operands.
    pub fn ready_in_front(&self) -> usize
        ensures { result ≡ ready_in 0 self.now.0 }
    {
        self.passed.ready
    }

    /// The weights of all results in front of the place.
    pub fn weight_in_front(&self) -> usize
        ensures { result ≡ weight_in self.now.0 }
    {
        self.passed.weight
    }

    /// How many nodes have all their operands.
    pub fn ready(&self) -> usize
        ensures { result ≡ ready_in 0 (self.now.0 ++ self.now.1) }
    {
        self.passed.ready + self.ahead.count(self.passed.results)
    }

    /// Whether a node with all its operands stands directly behind the place.
    fn is_next_ready(&self) -> bool
        ensures { result ≡ is_next_ready (results_after 0 self.now.0) self.now.1 }
    {
        let Some((nearest, _)) = self.right.as_slice().split_last() else {
            return false;
        };
        match &nearest.item {
            Item::Waits(_, operands) => *operands <= self.passed.results,
            Item::Done(_, _) => false,
        }
    }

    /// Whether a node with all its operands stands directly behind the place, with so many of them in front of it.
    fn is_at(&self, number: usize) -> bool
        ensures { result ≡ (is_next_ready (results_after 0 self.now.0) self.now.1 && nat_eq (ready_in 0 self.now.0) number) }
    {
        self.is_next_ready() && self.ready_in_front() == number
    }
    /// Moves the place in front of the item before it, if there is one.
    fn go_back(&mut self) -> Result<(), Memory>
        requires { 0 < length self.old.0 }
        ensures { OnOk result (IsBehind self.new self.old) }
    {
        if let Some(item) = self.take_in_front() {
            self.put_behind(item)?;
        }
        Ok(())
    }

    /// Moves the place behind the item after it, if there is one.
    fn go_on(&mut self) -> Result<(), Memory>
        requires { 0 < length self.old.1 }
        ensures { OnOk result (IsBehind self.old self.new) }
    {
        if let Some(item) = self.take_behind() {
            self.put_in_front(item)?;
        }
        Ok(())
    }

    /// Moves the place back, until there are no more than so many nodes in front of it that have all their operands.
    fn go_back_to(&mut self, number: usize) -> Result<(), Memory>
        ensures { OnOk result ((self.old.0 ++ self.old.1 ≡ self.new.0 ++ self.new.1) × (ready_in 0 self.new.0 ≤ number)) }
    {
        while self.ready_in_front() > number {
            self.go_back()?;
        }
        Ok(())
    }

    /// Moves the place on to the node of a number.
    fn go_on_to(&mut self, number: usize) -> Result<(), Memory>
        requires few { ready_in 0 self.old.0 ≤ number }
        requires there { number < ready_in 0 (self.old.0 ++ self.old.1) }
        ensures { OnOk result (IsSought number self.old self.new) }
    {
        while !self.is_at(number) {
            self.go_on()?;
        }
        Ok(())
    }

    /// Moves the place to the node with all its operands that has so many of them in front of it.
    pub fn seek(&mut self, number: usize) -> Result<(), Memory>
        requires { number < ready_in 0 (self.old.0 ++ self.old.1) }
        ensures { OnOk result (IsSought number self.old self.new) }
    {
        self.go_back_to(number)?;
        self.go_on_to(number)?;
        Ok(())
    }
}
