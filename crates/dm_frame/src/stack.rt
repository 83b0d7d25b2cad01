//! Lists that grow and shrink at their front.

ghost use Rattle.std.specs.Prelude.{◌≡◌, ◌<◌, ◌≤◌, ◌∷◌, [], length, reverse, MatchOption, OnOk, OnErr};

use std::alloc::{AllocError, Global};
use std::marker::Model;

/// A list whose first item is the last that was put in.
#[derive(Drop)]
pub struct Stack<T> {
    items: Vec<T>,
}

impl<T> Model for Stack<T> {
    ghost use Rattle.std.specs.Prelude.{List, reverse};

    ghost Value = { List T };

    ghost view = { λ stack. reverse stack.items.items };
}

impl<T> Stack<T> {
    pub fn new(alloc: Global) -> Stack<T>
        ensures { result ≡ [] }
    {
        Stack {
            items: Vec::new(alloc),
        }
    }

    pub fn len(&self) -> usize
        ensures { result ≡ length self.now }
    {
        self.items.len()
    }

    /// The items, the last one first.
    pub fn oldest_first(&self) -> &[T]
        ensures { reverse result.now ≡ self.now }
    {
        self.items.as_slice()
    }

    /// The first item, which is taken out.
    pub fn pop(&mut self) -> Option<T>
        ensures { MatchOption result ((self.old ≡ []) × (self.new ≡ [])) (λ item. self.old ≡ item ∷ self.new) }
    {
        self.items.pop()
    }

    /// The same, where there are more items than so many.
    pub fn pop_above(&mut self, count: usize) -> Option<T>
        ensures { MatchOption result ((length self.old ≤ count) × (self.new ≡ self.old)) (λ item. (count < length self.old) × (self.old ≡ item ∷ self.new)) }
    {
        if self.items.len() <= count {
            return None;
        }
        self.items.pop()
    }
}

impl<T: Drop> Stack<T> {
    /// One more item in front. After an `Err` the list is unchanged.
    pub fn push(&mut self, item: T) -> Result<(), AllocError>
        ensures ok { OnOk result (self.new ≡ item ∷ self.old) }
        ensures err { OnErr result (self.new ≡ self.old) }
    {
        self.items.push(item)?;
        Ok(())
    }

    /// Takes all items out.
    pub fn clear(&mut self)
        ensures { self.new ≡ [] }
    {
        self.items.clear();
    }
}
