ghost use Rattle.std.specs.Prelude.{◌≡◌, ◌≤◌, [], ◌∷◌, ◌++◌, length, IfOk, OnOk, MatchOption, option_map};
ghost use Rattle.dm_expand.specs.Arguments as arguments;
ghost use Rattle.dm_expand.specs.Views.{enclosed_value};

use crate::arguments::{Enclosed, depth_behind, is_closing};
use crate::item::Item;
use crate::stretch::{Stretch, is_spare};
use dm_token::Memory;
use std::alloc::Global;
use std::collections::VecDeque;
use std::marker::Model;

/// What is still to be scanned of a list: tokens that were put before the others, and the others, which may be shared.
/// Contracts see all of them.
#[derive(Drop)]
pub struct Queue {
    alloc: Global,
    front: VecDeque<Item>,
    behind: Stretch,
}

impl Model for Queue {
    ghost use Rattle.std.specs.Prelude.{List, ◌++◌};
    ghost use Rattle.std.specs.Coded.{codes, coded_list, coded_ℕ};
    ghost use Rattle.std.specs.FinSet as set;
    ghost use Rattle.std.specs.Ordering.{nat_cmp};
    ghost use Rattle.dm_expand.specs.Items as items;

    ghost Value = { List items.Item };

    ghost coded = { Prim.hlevel (codes, coded_list, set.code {R = nat_cmp} coded_ℕ) };

    ghost view = { λ queue. queue.front.items ++ queue.behind };
}

impl Queue {
    pub fn of(alloc: Global, tokens: Stretch) -> Queue
        ensures { result ≡ tokens }
    {
        Queue {
            alloc,
            front: VecDeque::new(alloc),
            behind: tokens,
        }
    }

    /// The first token, which leaves the list.
    pub fn next(&mut self) -> Result<Option<Item>, Memory>
        ensures next { IfOk result (λ next. MatchOption next ((self.old ≡ []) × (self.new ≡ [])) (λ item. self.old ≡ item ∷ self.new)) }
        ensures shorter { length self.new ≤ length self.old }
    {
        if let Some(item) = self.front.pop_front() {
            return Ok(Some(item));
        }
        self.behind.next()
    }

    /// Puts a token before the others.
    pub fn put_back(&mut self, item: Item) -> Result<(), Memory>
        ensures { OnOk result (self.new ≡ item ∷ self.old) }
    {
        self.front.push_front(item)?;
        Ok(())
    }

    /// Puts tokens before the others, and moves the fewer of them and of those that were put there before.
    pub fn put_before(&mut self, tokens: Vec<Item>) -> Result<(), Memory>
        ensures { OnOk result (self.new ≡ tokens.items ++ self.old) }
    {
        if self.front.len() < tokens.len() {
            let mut all = VecDeque::from(tokens);
            all.append(&mut self.front)?;
            self.front = all;
            return Ok(());
        }
        let mut tokens = tokens;
        'tokens: while let Some(item) = tokens.pop() {
            self.put_back(item)?;
        }
        Ok(())
    }

    /// Gives back room once most of it is free, and lets go of tokens that are shared once few of them are left here, so that lists that
    /// wait take little more than their tokens. It is done when a list has shrunk to a quarter, so its tokens aren't moved time and again.
    pub fn give_back(&mut self) -> Result<(), Memory>
        ensures { self.new ≡ self.old }
    {
        if is_spare(self.front.capacity(), self.front.len()) {
            self.front.shrink_to_fit();
        }
        self.behind.let_go()?;
        Ok(())
    }

    /// Takes what stands behind a `(`, through its closing `)`. There is none where the list ends first.
    pub fn take_enclosed(&mut self) -> Result<Option<Enclosed>, Memory>
        ensures found { IfOk result (λ found. arguments.enclosed_in 0 self.old ≡ option_map (enclosed_value self.new) found) }
        ensures shorter { length self.new ≤ length self.old }
    {
        if self.front.is_empty() {
            return self.behind.take_enclosed();
        }
        self.gather_enclosed()
    }

    // The same a token at a time.
    fn gather_enclosed(&mut self) -> Result<Option<Enclosed>, Memory>
        ensures found { IfOk result (λ found. arguments.enclosed_in 0 self.old ≡ option_map (enclosed_value self.new) found) }
        ensures shorter { length self.new ≤ length self.old }
    {
        let mut inside = Vec::new(self.alloc);
        let mut depth = 0;
        'tokens: while let Some(item) = self.next()? {
            if is_closing(depth, &item) {
                let inside = Stretch::of(self.alloc, inside)?;
                return Ok(Some(Enclosed {
                    inside,
                    closing: item,
                }));
            }
            depth = depth_behind(depth, &item);
            inside.push(item)?;
        }
        Ok(None)
    }
}
