//! Conversions (6.3, 6.5.4).

ghost use Rattle.std.specs.Prelude.{◌≡◌, IfOk};
ghost use Rattle.dm_type.specs.CTypes as ctypes;
ghost use Rattle.dm_type.specs.CTypes.{CType};
ghost use Rattle.dm_type.specs.Tables.{IsId, Table, type_of};
ghost use Rattle.dm_meaning.specs.Operations as operations;
ghost use Rattle.dm_meaning.specs.Operations.{World};
ghost use Rattle.dm_meaning.specs.Values.{pointer_value};
ghost use Rattle.dm_value.specs.Views.{view_of_pointer, view_of_value};
ghost use Rattle.dm_operate.specs.Evaluations.{view_of_did, view_of_evaluation, Does};
ghost use Rattle.dm_operate.specs.Targets.{IsTarget};

use crate::evaluation::{Did, Evaluation};
use crate::numbers::truth_of_kind;
use dm_int::Kind;
use dm_layout::{Layout, bare};
use dm_memory::{Blocks, to_use};
use dm_token::Memory;
use dm_type::{Shape, TypeId};
use dm_value::{Pointer, Value, converted};

/// An operand converted to a type.
pub(crate) fn convert(
    layout: &Layout,
    blocks: &Blocks,
    kind: TypeId,
    operand: &Evaluation,
) -> Result<Did, Memory>
    requires { IsId layout.now kind }
    ensures { IfOk result (λ did. Does layout.now blocks.now blocks.now did (λ scene world. operations.convert_to world (type_of layout.now kind) (view_of_evaluation operand.now))) }
{
    let target = target_of(layout, kind);
    if let Target::Void = target {
        return Ok(Did::plain(Value::Unset));
    }
    match operand.set() {
        Some(value) => {
            let did = convert_value(blocks, target, value)?;
            Ok(did)
        }
        None => Ok(Did::ill()),
    }
}

/// What is converted to.
#[derive(Clone, Copy)]
enum Target {
    Void,
    Integer(Kind),
    Pointer,
    /// What isn't scalar.
    Whole,
}

/// What a type is for conversions.
fn target_of(layout: &Layout, kind: TypeId) -> Target
    requires { IsId layout.now kind }
    ensures { IsTarget result (ctypes.bare (type_of layout.now kind)) }
{
    let types = layout.types();
    match types.shape(bare(types, kind)) {
        Shape::Void => Target::Void,
        Shape::Integer(kind) => Target::Integer(*kind),
        Shape::Pointer(_) => Target::Pointer,
        Shape::Array(_, _) | Shape::Struct(_) | Shape::Function(_, _) | Shape::Const(_) => {
            Target::Whole
        }
    }
}

/// A value that was set, converted.
fn convert_value(blocks: &Blocks, target: Target, value: &Value) -> Result<Did, Memory>
    ensures { (types : Table) (type : CType) → IsTarget target type
        → IfOk result (λ did. Does types blocks.now blocks.now did (λ scene world. operations.converted world type (view_of_value value.now))) }
{
    match target {
        Target::Integer(kind) => Ok(to_integer(blocks, kind, value)?),
        Target::Pointer => Ok(to_pointer(blocks, value)?),
        Target::Void | Target::Whole => Ok(unchanged(value)?),
    }
}

/// A value that stays as it is.
fn unchanged(value: &Value) -> Result<Did, Memory>
    ensures { (world : World) → IfOk result (λ did. view_of_did world did ≡ operations.plain world (view_of_value value.now)) }
{
    let same = value.copy()?;
    Ok(Did::plain(same))
}

/// A value converted to an integer type (6.3.1.2, 6.3.1.3).
fn to_integer(blocks: &Blocks, kind: Kind, value: &Value) -> Result<Did, Memory>
    ensures { (types : Table) → IfOk result (λ did. Does types blocks.now blocks.now did (λ scene world. operations.converted world (ctypes.integer kind) (view_of_value value.now))) }
{
    match value {
        Value::Integer(integer) => Ok(Did::plain(Value::Integer(converted(kind, *integer)))),
        Value::Pointer(pointer) => Ok(truth_of_pointer(blocks, kind, pointer)),
        Value::Parts(_) | Value::Unset => Ok(unchanged(value)?),
    }
}

/// Whether a pointer isn't null, as an integer.
fn truth_of_pointer(blocks: &Blocks, kind: Kind, pointer: &Pointer) -> Did
    ensures { (types : Table) → Does types blocks.now blocks.now result (λ scene world. operations.converted world (ctypes.integer kind) (pointer_value (view_of_pointer pointer.now))) }
{
    let cause = to_use(blocks, pointer);
    let truth = Value::Integer(truth_of_kind(kind, !pointer.is_null()));
    Did::unless(cause, Did::plain(truth))
}

/// A value converted to a pointer type (6.3.2.3).
fn to_pointer(blocks: &Blocks, value: &Value) -> Result<Did, Memory>
    ensures { (types : Table) (target : CType) → IfOk result (λ did. Does types blocks.now blocks.now did (λ scene world. operations.converted world (ctypes.pointer target) (view_of_value value.now))) }
{
    match value {
        Value::Integer(_) => Ok(Did::plain(Value::Pointer(Pointer::Null))),
        Value::Pointer(pointer) => {
            let did = used(blocks, pointer)?;
            Ok(did)
        }
        Value::Parts(_) | Value::Unset => Ok(unchanged(value)?),
    }
}

/// A pointer, where it may be used.
fn used(blocks: &Blocks, pointer: &Pointer) -> Result<Did, Memory>
    ensures { (types : Table) (target : CType) → IfOk result (λ did. Does types blocks.now blocks.now did (λ scene world. operations.converted world (ctypes.pointer target) (pointer_value (view_of_pointer pointer.now)))) }
{
    match to_use(blocks, pointer) {
        Some(cause) => Ok(Did::Breaks(cause)),
        None => {
            let same = pointer.copy()?;
            Ok(Did::plain(Value::Pointer(same)))
        }
    }
}
