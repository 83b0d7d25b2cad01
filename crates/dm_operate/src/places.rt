//! Lvalues and pointers to them (6.3.2.1, 6.5.2.3, 6.5.3.2).

ghost use Rattle.std.specs.Prelude.{◌≡◌, [], IfOk, map};
ghost use Rattle.dm_type.specs.Tables.{IsId, Table, type_of};
ghost use Rattle.dm_meaning.specs.Operations as operations;
ghost use Rattle.dm_meaning.specs.Operations.{World};
ghost use Rattle.dm_meaning.specs.Values as values;
ghost use Rattle.dm_value.specs.Places.{view_of_at};
ghost use Rattle.dm_value.specs.Views.{view_of_pointer, view_of_value};
ghost use Rattle.dm_memory.specs.Blocks.{AreKnown};
ghost use Rattle.dm_operate.specs.Evaluations.{view_of_did, view_of_evaluation, Does};

use crate::evaluation::{Did, Evaluation, Operand};
use dm_layout::Layout;
use dm_meaning::Cause;
use dm_memory::{Blocks, to_enter, to_follow, to_read};
use dm_token::{Memory, Text};
use dm_type::TypeId;
use dm_value::{At, Name, Part, Pointer, Value};
use std::alloc::Global;
use std::rc::Rc;

/// The object that a declaration names, where the program defines it.
pub fn designated(number: Option<u64>) -> Did
    ensures { (world : World) → view_of_did world result ≡ operations.designated world number }
{
    match number {
        Some(number) => Did::object(At::whole(Name::Numbered(number))),
        None => Did::Breaks(Cause::External),
    }
}

/// The object of a string literal (6.4.5p6).
pub(crate) fn literal(bytes: Text, unit: u32) -> Did
    ensures { (world : World) → view_of_did world result
        ≡ operations.gives world (operations.designates (operations.whole (values.literal_of bytes unit))) [] }
{
    Did::object(At::whole(Name::Literal(bytes, unit)))
}

/// The value of a place (6.3.2.1p2).
pub(crate) fn read(
    alloc: Global,
    layout: &Layout,
    blocks: &Blocks,
    locks: &[At],
    kind: TypeId,
    at: &At,
) -> Result<Did, Memory>
    requires kind { IsId layout.now kind }
    requires known { AreKnown layout.now blocks.now }
    ensures { IfOk result (λ did. Does layout.now blocks.now blocks.now did (λ scene world. operations.read_at scene world
        (map view_of_at locks.now) (type_of layout.now kind) (view_of_at at.now))) }
{
    if let Some(cause) = to_read(layout, blocks, locks, kind, at) {
        return Ok(Did::Breaks(cause));
    }
    let value = blocks.contents(alloc, at)?;
    Ok(Did::plain(value))
}

/// A pointer to a place (6.5.3.2p3).
pub(crate) fn address(alloc: Global, at: At) -> Result<Did, Memory>
    ensures { (world : World) → IfOk result (λ did. view_of_did world did ≡ operations.plain world (values.pointer_value (values.to (view_of_at at)))) }
{
    let place = Rc::new(alloc, at)?;
    Ok(Did::plain(Value::Pointer(Pointer::To(place))))
}

/// A pointer to the first element of an array (6.3.2.1p3).
pub(crate) fn decay(
    alloc: Global,
    layout: &Layout,
    blocks: &Blocks,
    operand: &Operand,
) -> Result<Did, Memory>
    requires kind { IsId layout.now operand.now.kind }
    requires known { AreKnown layout.now blocks.now }
    ensures { IfOk result (λ did. Does layout.now blocks.now blocks.now did (λ scene world.
        operations.on_place (view_of_evaluation operand.now.result) (operations.decayed scene world (type_of layout.now operand.now.kind)))) }
{
    match &operand.result {
        Evaluation::Value(_) => Ok(Did::ill()),
        Evaluation::Object(at) => {
            let cause = to_enter(layout, blocks, operand.kind, at);
            let first = at.part(alloc, 0)?;
            let pointer = address(alloc, first)?;
            Ok(Did::unless(cause, pointer))
        }
    }
}

/// The object to which a pointer points (6.5.3.2p4).
pub(crate) fn follow(blocks: &Blocks, value: &Value) -> Result<Did, Memory>
    ensures { (types : Table) → IfOk result (λ did. Does types blocks.now blocks.now did (λ scene world. operations.followed world (view_of_value value.now))) }
{
    let Value::Pointer(pointer) = value else {
        return Ok(Did::ill());
    };
    let did = followed(blocks, pointer)?;
    Ok(did)
}

fn followed(blocks: &Blocks, pointer: &Pointer) -> Result<Did, Memory>
    ensures { (types : Table) → IfOk result (λ did. Does types blocks.now blocks.now did
        (λ scene world. operations.followed world (values.pointer_value (view_of_pointer pointer.now)))) }
{
    let cause = to_follow(blocks, pointer);
    match pointer {
        Pointer::Null => Ok(Did::unless(cause, Did::ill())),
        Pointer::To(at) => {
            let at = at.as_ref().copy()?;
            Ok(Did::unless(cause, Did::object(at)))
        }
    }
}

/// A member of a struct (6.5.2.3).
pub(crate) fn member(
    alloc: Global,
    layout: &Layout,
    blocks: &Blocks,
    number: u32,
    operand: &Operand,
) -> Result<Did, Memory>
    requires kind { IsId layout.now operand.now.kind }
    requires known { AreKnown layout.now blocks.now }
    ensures { IfOk result (λ did. Does layout.now blocks.now blocks.now did (λ scene world. operations.member_of scene world
        number (type_of layout.now operand.now.kind) (view_of_evaluation operand.now.result))) }
{
    match &operand.result {
        Evaluation::Value(value) => {
            let inner = value.part_or_unset(&[Part::Inner(number)])?;
            Ok(member_value(inner))
        }
        Evaluation::Object(at) => {
            let cause = to_enter(layout, blocks, operand.kind, at);
            let part = at.part(alloc, number)?;
            Ok(Did::unless(cause, Did::object(part)))
        }
    }
}

/// A member of a value, where its scalar was set.
fn member_value(inner: Value) -> Did
    ensures { (world : World) → view_of_did world result ≡ operations.member_value world (view_of_value inner) }
{
    match inner {
        Value::Unset => Did::Breaks(Cause::Unset),
        other => Did::plain(other),
    }
}
