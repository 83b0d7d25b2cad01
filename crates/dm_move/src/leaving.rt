//! What full expressions are once the step of a node is put in its place (6.5p2).

ghost use Rattle.std.specs.Prelude.{◌≡◌, ℕ, ◌+◌, ◌≤◌, ◌++◌, [], length, map, IsTrue, OnOk};
ghost use Rattle.dm_token.specs.declared.place.Place.{Place};
ghost use Rattle.dm_type.specs.CTypes.{CType};
ghost use Rattle.dm_type.specs.Tables.{IsId, Table, type_of};
ghost use Rattle.dm_tree.specs.Views.{view};
ghost use Rattle.dm_meaning.specs.Expressions.{going_on};
ghost use Rattle.dm_meaning.specs.Running.{Doing as AnyDoing, begun, done, every, filled_in, open_parts};
ghost use Rattle.dm_operate.specs.Evaluations.{view_of_evaluation, view_of_lock};
ghost use Rattle.dm_postfix.specs.Postfix.{no_slots, node_of, operand as slot};
ghost use Rattle.dm_row.specs.Counts.{weight_in};
ghost use Rattle.dm_expression.specs.Waiting.{is_expression, view_of_waiting};
ghost use Rattle.dm_frame.specs.Tasks.{ExpressionFits, UseFits};
ghost use Rattle.dm_state.specs.Fits.{LacksCall};
ghost use Rattle.dm_state.specs.Views.{hole_in_one};
ghost use Rattle.dm_value.specs.Places.{view_of_at};
ghost use Rattle.dm_move.specs.Settling.{gap, own_locks, GoesOn, IsLacking};

use dm_expression::Waiting;
use dm_operate::Operand;
use dm_state::Ongoing;
use dm_token::Memory;
use dm_tree::Core;
use dm_value::At;
use std::alloc::Global;

/// The node gives a result, which has the locks of its operands, so many, and one in front of them, if there is one.
pub(crate) fn give(
    ongoing: &mut Ongoing,
    locks: usize,
    operand: Operand,
    lock: Option<At>,
) -> Result<(), Memory>
    requires room { weight_in ongoing.old.expression.row.0 + locks ≤ length ongoing.old.expression.locks.items }
    ensures { (table : Table) → IsLacking table ongoing.old.expression locks → UseFits table ongoing.old.use_of → IsId table operand.kind
        → OnOk result (GoesOn table ongoing.old ongoing.new (filled_in (gap table ongoing.old.expression locks)
        (done (type_of table operand.kind) (view_of_evaluation operand.result) (view_of_lock lock ++ map view_of_at (own_locks ongoing.old.expression locks))))) }
{
    ongoing.expression.give(operand, locks, lock)?;
    Ok(())
}

/// The node gives a result without locks.
pub(crate) fn give_unlocked(
    ongoing: &mut Ongoing,
    locks: usize,
    operand: Operand,
) -> Result<(), Memory>
    requires room { weight_in ongoing.old.expression.row.0 + locks ≤ length ongoing.old.expression.locks.items }
    ensures { (table : Table) → IsLacking table ongoing.old.expression locks → UseFits table ongoing.old.use_of → IsId table operand.kind
        → OnOk result (GoesOn table ongoing.old ongoing.new (filled_in (gap table ongoing.old.expression locks)
        (done (type_of table operand.kind) (view_of_evaluation operand.result) []))) }
{
    ongoing.expression.release(locks)?;
    ongoing.expression.give(operand, 0, None)?;
    Ok(())
}

/// The node goes on with one of its operands.
pub(crate) fn pick<'a>(
    alloc: Global,
    ongoing: &mut Ongoing<'a>,
    locks: usize,
    waiting: Waiting<'a>,
    operand: &'a Core,
) -> Result<(), Memory>
    requires room { weight_in ongoing.old.expression.row.0 + locks ≤ length ongoing.old.expression.locks.items }
    requires operand { (types : Table) → IsTrue (is_expression (view types operand.now)) }
    ensures { (table : Table) (doing : AnyDoing) (kind : CType) (place : Place) → IsLacking table ongoing.old.expression locks → UseFits table ongoing.old.use_of
        → ExpressionFits table waiting.entry.node.now → ExpressionFits table operand.now → open_parts doing ≡ every → view_of_waiting table waiting.entry ≡ node_of doing kind place (slot no_slots)
        → OnOk result (GoesOn table ongoing.old ongoing.new (filled_in (gap table ongoing.old.expression locks) (going_on doing kind place (begun (view table operand.now))))) }
{
    ongoing.expression.release(locks)?;
    ongoing.expression.pick(alloc, waiting, operand)?;
    Ok(())
}

/// The node is left out.
pub(crate) fn leave(ongoing: &mut Ongoing, locks: usize) -> Result<(), Memory>
    requires room { weight_in ongoing.old.expression.row.0 + locks ≤ length ongoing.old.expression.locks.items }
    ensures place { OnOk result (ongoing.new.place ≡ ongoing.old.place) }
    ensures use_of { OnOk result (ongoing.new.use_of ≡ ongoing.old.use_of) }
    ensures hole { (table : Table) → IsLacking table ongoing.old.expression locks → OnOk result (hole_in_one table ongoing.new.expression ≡ gap table ongoing.old.expression locks) }
    ensures lacks { (table : Table) (kind : ℕ) → IsLacking table ongoing.old.expression locks → UseFits table ongoing.old.use_of → IsId table kind → OnOk result (LacksCall table kind ongoing.new) }
{
    ongoing.expression.release(locks)?;
    Ok(())
}
