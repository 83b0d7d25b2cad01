//! Full expressions under evaluation, and the node whose step is taken.

ghost use Rattle.std.specs.Prelude.{◌≡◌, ◌+◌, ◌<◌, ◌≤◌, ◌==◌, ◌++◌, ◌∷◌, [], length, IfOk, IsTrue, OnOk};
ghost use Rattle.dm_type.specs.Tables.{Table};
ghost use Rattle.dm_tree.specs.Views.{view};
ghost use Rattle.dm_row.specs.Counts.{ready_in, weight_in};
ghost use Rattle.dm_row.specs.declared.item.Item.TheVariants.{Done, Waits};
ghost use Rattle.dm_expression.specs.Given.{lock_list, with_lock, without};
ghost use Rattle.dm_expression.specs.Taken.{number_of, IsTaken};
ghost use Rattle.dm_expression.specs.Waiting.{is_expression, IsPut};

use crate::locks::{insert, remove};
use crate::results::{Taken, take_results};
use crate::trees::put;
use crate::waiting::Waiting;
use dm_row::{Item, Row};
use dm_token::Memory;
use dm_tree::Core;
use std::alloc::Global;

/// A full expression under evaluation: in a row its results, and the nodes that wait for them, in postfix order, and the locks that the
/// results have. The weight of a result is the number of its locks, and locks stand in the order of their results.
#[derive(Drop)]
pub struct Expression<'a, R, L> {
    pub row: Row<R, Waiting<'a>>,
    pub locks: Vec<L>,
}

impl<'a, R: Drop, L: Drop> Expression<'a, R, L> {
    /// An expression of which nothing is evaluated.
    pub fn begin(alloc: Global, tree: &'a Core) -> Result<Expression<'a, R, L>, Memory>
        requires { (types : Table) → IsTrue (is_expression (view types tree.now)) }
        ensures { IfOk result (λ one. IsPut tree.now ([], []) one.row × (one.locks.items ≡ [])) }
    {
        let mut row = Row::new(alloc);
        put(alloc, &mut row, tree)?;
        let locks = Vec::new(alloc);
        Ok(Expression { row, locks })
    }

    /// Whether all of it is evaluated: no node has a step.
    pub fn is_evaluated(&self) -> bool
        ensures { result ≡ (ready_in 0 (self.now.row.0 ++ self.now.row.1) == 0) }
    {
        self.row.ready() == 0
    }

    /// Takes the node out whose step is that of a number, or the last, and its operands.
    pub fn take(&mut self, alloc: Global, choice: usize) -> Result<Taken<'a, R>, Memory>
        requires { 0 < ready_in 0 (self.old.row.0 ++ self.old.row.1) }
        ensures taken { IfOk result (λ taken. IsTaken choice self.old.row self.new.row taken) }
        ensures locks { self.new.locks ≡ self.old.locks }
    {
        let taken = take_node(alloc, &mut self.row, choice)?;
        Ok(taken)
    }

    /// Puts a result where the node was taken out, with so many locks of the operands, and one in front of them, if there is one.
    pub fn give(&mut self, value: R, locks: usize, lock: Option<L>) -> Result<(), Memory>
        requires { weight_in self.old.row.0 + locks ≤ length self.old.locks.items }
        ensures row { OnOk result (self.new.row ≡ (self.old.row.0 ++ Done value (locks + length (lock_list lock)) ∷ [], self.old.row.1)) }
        ensures locks { OnOk result (self.new.locks.items ≡ with_lock (weight_in self.old.row.0) lock self.old.locks.items) }
    {
        let at = self.row.weight_in_front();
        let more = insert(&mut self.locks, at, lock)?;
        self.row.put_in_front(Item::Done(value, locks + more))?;
        Ok(())
    }

    /// Lets the locks of the operands go, of which there are so many.
    pub fn release(&mut self, locks: usize) -> Result<(), Memory>
        requires { weight_in self.old.row.0 + locks ≤ length self.old.locks.items }
        ensures row { self.new.row ≡ self.old.row }
        ensures locks { OnOk result (self.new.locks.items ≡ without (weight_in self.old.row.0) locks self.old.locks.items) }
    {
        let at = self.row.weight_in_front();
        remove(&mut self.locks, at, locks)?;
        Ok(())
    }

    /// Goes on, where a node was taken out, with one of its operands that wasn't evaluated, for whose value the node waits.
    pub fn pick(
        &mut self,
        alloc: Global,
        waiting: Waiting<'a>,
        operand: &'a Core,
    ) -> Result<(), Memory>
        requires { (types : Table) → IsTrue (is_expression (view types operand.now)) }
        ensures row { OnOk result (IsPut operand.now (self.old.row.0, Waits waiting.entry 1 ∷ self.old.row.1) self.new.row) }
        ensures locks { self.new.locks ≡ self.old.locks }
    {
        self.row.put_behind(Item::Waits(waiting, 1))?;
        put(alloc, &mut self.row, operand)?;
        Ok(())
    }
}

/// The same of a row.
fn take_node<'a, R: Drop>(
    alloc: Global,
    row: &mut Row<R, Waiting<'a>>,
    choice: usize,
) -> Result<Taken<'a, R>, Memory>
    requires { 0 < ready_in 0 (row.old.0 ++ row.old.1) }
    ensures { IfOk result (λ taken. IsTaken choice row.old row.new taken) }
{
    let number = chosen(choice, row.ready());
    row.seek(number)?;
    let Some(Item::Waits(node, count)) = row.take_behind() else {
        return Err(Memory);
    };
    let weight = row.weight_in_front();
    let operands = take_results(alloc, row, count)?;
    let locks = weight - row.weight_in_front();
    Ok(Taken {
        node,
        operands,
        locks,
    })
}

/// The number of a choice among so many: the last where there are fewer.
fn chosen(choice: usize, count: usize) -> usize
    requires { 0 < count }
    ensures { result ≡ number_of choice count }
{
    let last = count - 1;
    if choice < last { choice } else { last }
}
