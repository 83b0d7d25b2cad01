//! Assignments (6.5.2.4, 6.5.3.1, 6.5.16).

ghost use Rattle.std.specs.Prelude.{◌≡◌, ◌∷◌, [], ◌++◌, if◌then◌else◌, List, IfOk, map};
ghost use Rattle.dm_type.specs.Tables.{IsId, Table, type_of};
ghost use Rattle.dm_meaning.specs.declared.cause.Cause.{Cause};
ghost use Rattle.dm_meaning.specs.Causes as table;
ghost use Rattle.dm_meaning.specs.Memory as memory;
ghost use Rattle.dm_meaning.specs.Operations as operations;
ghost use Rattle.dm_value.specs.Places.{view_of_at};
ghost use Rattle.dm_value.specs.Views.{view_of_value};
ghost use Rattle.dm_layout.specs.LaidOut.{laid_out};
ghost use Rattle.dm_memory.specs.Blocks.{view_of_blocks, AreKnown};
ghost use Rattle.dm_operate.specs.Evaluations.{view_of_evaluation, Does};

use crate::evaluation::{Did, Evaluation};
use crate::replacement::{self, Made};
use dm_int::Op;
use dm_layout::Layout;
use dm_meaning::Cause;
use dm_memory::{Blocks, to_store, to_update};
use dm_token::Memory;
use dm_type::TypeId;
use dm_value::{At, Value, sooner};
use std::alloc::Global;

/// A value is stored (6.5.16.1).
pub(crate) fn store(
    alloc: Global,
    layout: &Layout,
    blocks: &mut Blocks,
    locks: &[At],
    kind: TypeId,
    at: &At,
    operand: &Evaluation,
) -> Result<Did, Memory>
    requires kind { IsId layout.now kind }
    requires known { AreKnown layout.now blocks.old }
    ensures did { IfOk result (λ did. Does layout.now blocks.old blocks.new did (λ scene world. operations.on_set (view_of_evaluation operand.now)
        (operations.store_at scene world (map view_of_at locks.now) (type_of layout.now kind) (view_of_at at.now)))) }
    ensures known { AreKnown layout.now blocks.new }
{
    let Some(value) = operand.set() else {
        return Ok(Did::ill());
    };
    if let Some(cause) = to_store(layout, blocks, locks, kind, at) {
        return Ok(Did::Breaks(cause));
    }
    let stored = value.copy()?;
    let did = written(alloc, blocks, at, stored)?;
    Ok(did)
}

/// A value in an object, and what that gives: the value itself.
fn written(alloc: Global, blocks: &mut Blocks, at: &At, value: Value) -> Result<Did, Memory>
    ensures did { (types : Table) → IfOk result (λ did. Does types blocks.old blocks.new did (λ scene world. operations.gives
        (record world { memory = memory.written world.memory (view_of_at at.now) (view_of_value value) }) (operations.of_value (view_of_value value)) (view_of_at at.now ∷ []))) }
    ensures known { (types : Table) → AreKnown types blocks.old → AreKnown types blocks.new }
{
    let given = value.copy()?;
    let did = replaced(alloc, blocks, at, value, given)?;
    Ok(did)
}

/// A value in an object, where another one is given.
fn replaced(
    alloc: Global,
    blocks: &mut Blocks,
    at: &At,
    value: Value,
    given: Value,
) -> Result<Did, Memory>
    ensures did { (types : Table) → IfOk result (λ did. Does types blocks.old blocks.new did (λ scene world. operations.gives
        (record world { memory = memory.written world.memory (view_of_at at.now) (view_of_value value) }) (operations.of_value (view_of_value given)) (view_of_at at.now ∷ []))) }
    ensures known { (types : Table) → AreKnown types blocks.old → AreKnown types blocks.new }
{
    let lock = at.copy()?;
    blocks.store(alloc, at, value)?;
    Ok(Did::Gives(Evaluation::Value(given), Some(lock)))
}

/// A compound assignment (6.5.16.2).
pub(crate) fn update(
    alloc: Global,
    layout: &Layout,
    blocks: &mut Blocks,
    locks: &[At],
    kind: TypeId,
    op: Op,
    works: TypeId,
    at: &At,
    right: &Value,
) -> Result<Did, Memory>
    requires kind { IsId layout.now kind }
    requires works { IsId layout.now works }
    requires known { AreKnown layout.now blocks.old }
    ensures did { IfOk result (λ did. Does layout.now blocks.old blocks.new did (λ scene world. operations.update_at scene world
        (map view_of_at locks.now) (type_of layout.now kind) op (type_of layout.now works) (view_of_at at.now) (view_of_value right.now))) }
    ensures known { AreKnown layout.now blocks.new }
{
    let object = blocks.contents(alloc, at)?;
    let made = replacement::update(alloc, layout, blocks, kind, op, works, &object, right)?;
    let Made { cause, value } = made;
    match why_not(layout, blocks, locks, kind, at, cause) {
        Some(cause) => Ok(Did::Breaks(cause)),
        None => {
            drop(object);
            let did = written(alloc, blocks, at, value)?;
            Ok(did)
        }
    }
}

/// Why replacing the value of a place is undefined, if it is, where this is the cause that what is made of it has.
fn why_not(
    layout: &Layout,
    blocks: &Blocks,
    locks: &[At],
    kind: TypeId,
    at: &At,
    cause: Option<Cause>,
) -> Option<Cause>
    requires kind { IsId layout.now kind }
    requires known { AreKnown layout.now blocks.now }
    ensures { (causes : List Cause) → cause ≡ table.earliest causes → result ≡ table.earliest (causes ++ table.update_causes (laid_out layout.now)
        (view_of_blocks layout.now blocks.now) (map view_of_at locks.now) (type_of layout.now kind) (view_of_at at.now)) }
{
    let accessed = to_update(layout, blocks, locks, kind, at);
    sooner(cause, accessed)
}

/// `++` or `--`, which stands before its operand or behind it.
pub(crate) fn count(
    alloc: Global,
    layout: &Layout,
    blocks: &mut Blocks,
    locks: &[At],
    kind: TypeId,
    plus: bool,
    before: bool,
    at: &At,
) -> Result<Did, Memory>
    requires kind { IsId layout.now kind }
    requires known { AreKnown layout.now blocks.old }
    ensures did { IfOk result (λ did. Does layout.now blocks.old blocks.new did (λ scene world. operations.count_at scene world
        (map view_of_at locks.now) (type_of layout.now kind) plus before (view_of_at at.now))) }
    ensures known { AreKnown layout.now blocks.new }
{
    let object = blocks.contents(alloc, at)?;
    let made = replacement::count(alloc, layout, blocks, kind, plus, &object)?;
    let Made { cause, value } = made;
    match why_not(layout, blocks, locks, kind, at, cause) {
        Some(cause) => Ok(Did::Breaks(cause)),
        None => {
            let did = counted(alloc, blocks, at, value, object, before)?;
            Ok(did)
        }
    }
}

/// A value in an object, where it is given itself, or the one before it.
fn counted(
    alloc: Global,
    blocks: &mut Blocks,
    at: &At,
    value: Value,
    object: Value,
    before: bool,
) -> Result<Did, Memory>
    ensures did { (types : Table) → IfOk result (λ did. Does types blocks.old blocks.new did (λ scene world. operations.gives
        (record world { memory = memory.written world.memory (view_of_at at.now) (view_of_value value) })
        (operations.of_value (if before then view_of_value value else view_of_value object)) (view_of_at at.now ∷ []))) }
    ensures known { (types : Table) → AreKnown types blocks.old → AreKnown types blocks.new }
{
    if before {
        let did = written(alloc, blocks, at, value)?;
        Ok(did)
    } else {
        let did = replaced(alloc, blocks, at, value, object)?;
        Ok(did)
    }
}
