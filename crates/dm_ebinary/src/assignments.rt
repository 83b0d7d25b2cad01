//! Assignments (6.5.16).

ghost use Rattle.std.specs.Prelude.{◌≡◌, ◌&&◌, ◌||◌, if◌then◌else◌, List, IfOk, IfSome, Some, None, option_map, option_and_then};
ghost use Rattle.dm_type.specs.CTypes as types_of_c;
ghost use Rattle.dm_type.specs.declared.shape.Shape.{Shape as OneShape};
ghost use Rattle.dm_type.specs.Tables.{type_of, IsId};
ghost use Rattle.dm_syn.specs.Sources.{symbol_at};
ghost use Rattle.dm_tree.specs.Constants as constants;
ghost use Rattle.dm_tree.specs.Scenes as scenes;
ghost use Rattle.dm_tree.specs.Trees.{Tree, kind_of};
ghost use Rattle.dm_typing.specs.Fitting.{IsNumbered};
ghost use Rattle.dm_typing.specs.Operators as operators;
ghost use Rattle.dm_typing.specs.Operators.{row_at};
ghost use Rattle.dm_typing.specs.Rules as rules;
ghost use Rattle.dm_typing.specs.Typing as typing;
ghost use Rattle.dm_typing.specs.Views.{Begins, seen, type_over, view_over, known_over, source_of, setting_of, Gives, Grows};
ghost use Rattle.dm_ebinary.specs.Stores as stores;
ghost use Rattle.dm_ebinary.specs.Stores.{updated_over, IsUpdated};

use crate::ways::{Sides, as_type_if, both_kinds, sides_of};
use dm_eunary::counting::is_modifiable;
use dm_int::{Kind, Op};
use dm_spell::punctuator;
use dm_syn::Symbol;
use dm_token::{Memory, Stop};
use dm_tree::Core;
use dm_type::{Shape, TypeId, Types};
use dm_typing::looks::{
    are_alike, bare, is_const, is_integer, is_same, is_scalar, is_void, points_to_complete, target,
};
use dm_typing::values::is_null;
use dm_typing::{Extent, Known, Typer};

/// The type in which the operator of a compound assignment works, and that to which the right operand is converted, if it is.
#[derive(Clone, Copy)]
pub(crate) struct Operand {
    pub works: TypeId,
    pub to: Option<TypeId>,
}

/// The operator of a compound assignment (6.5.16.2).
fn operator_of_assignment(row: u16) -> Option<Op>
    ensures { result ≡ operators.operator_of_assignment row }
{
    match row {
        punctuator::STAR_EQUALS => Some(Op::Mul),
        punctuator::SLASH_EQUALS => Some(Op::Div),
        punctuator::PERCENT_EQUALS => Some(Op::Rem),
        punctuator::PLUS_EQUALS => Some(Op::Add),
        punctuator::MINUS_EQUALS => Some(Op::Sub),
        punctuator::LEFT_SHIFT_EQUALS => Some(Op::Shl),
        punctuator::RIGHT_SHIFT_EQUALS => Some(Op::Shr),
        punctuator::AMPERSAND_EQUALS => Some(Op::And),
        punctuator::CARET_EQUALS => Some(Op::Xor),
        punctuator::BAR_EQUALS => Some(Op::Or),
        _ => None,
    }
}

/// Whether the operator moves a pointer (6.5.16.2p1).
fn moves(op: Op) -> bool
    ensures { result ≡ rules.moves op }
{
    matches!(op, Op::Add | Op::Sub)
}

/// Whether a value of the type may be assigned to an integer of the kind.
fn fits_kind(types: &Types, kind: Kind, value: TypeId) -> bool
    requires { IsId types.now value }
    ensures { result ≡ stores.fits_kind kind (type_of types.now value) }
{
    match kind {
        Kind::Bool => is_scalar(types, value),
        _ => is_integer(types, value),
    }
}

/// Whether one of two types is void, or they are compatible, all of it but for const.
fn are_convertible(types: &Types, to: TypeId, from: TypeId) -> bool
    requires to { IsId types.now to }
    requires from { IsId types.now from }
    ensures { result ≡ (scenes.are_alike (type_of types.now to) (type_of types.now from) || scenes.is_void (types_of_c.bare (type_of types.now to)) || scenes.is_void (types_of_c.bare (type_of types.now from))) }
{
    are_alike(types, to, from)
        || is_void(types, bare(types, to))
        || is_void(types, bare(types, from))
}

/// Whether a pointer keeps the const of what it points to (6.5.16.1p1).
fn keeps_const(types: &Types, to: TypeId, from: TypeId) -> bool
    requires to { IsId types.now to }
    requires from { IsId types.now from }
    ensures { result ≡ rules.keeps_const (type_of types.now to) (type_of types.now from) }
{
    is_const(types, to) || !is_const(types, from)
}

/// Whether a pointer to one type may be assigned to a pointer to another.
fn may_point(types: &Types, to: TypeId, from: TypeId) -> bool
    requires to { IsId types.now to }
    requires from { IsId types.now from }
    ensures { result ≡ stores.may_point (type_of types.now to) (type_of types.now from) }
{
    are_convertible(types, to, from) && keeps_const(types, to, from)
}

/// Whether a value may be assigned to a pointer to a type.
fn is_pointer_assignable(known: &Known, value: &Core, to: TypeId) -> bool
    requires value { IsNumbered known.now.types value.now }
    requires to { IsId known.now.types to }
    ensures { (later : List OneShape) → Begins known.now.types.shapes later →
        result ≡ rules.pointer_assignable (known_over later known.now) (view_over later value.now) (type_of known.now.types to) (scenes.target (kind_of (view_over later value.now))) }
{
    match target(&known.types, value.kind) {
        Some(from) => {
            if may_point(&known.types, to, from) {
                return true;
            }
            is_null(known, value)
        }
        None => is_null(known, value),
    }
}

/// Whether a value may be assigned to an object of a type (6.5.16.1p1).
pub fn is_assignable(known: &Known, value: &Core, kind: TypeId) -> bool
    requires value { IsNumbered known.now.types value.now }
    requires kind { IsId known.now.types kind }
    ensures { (later : List OneShape) → Begins known.now.types.shapes later → result ≡ rules.is_assignable (known_over later known.now) (view_over later value.now) (type_over later kind) }
{
    let kind = bare(&known.types, kind);
    match known.types.shape(kind) {
        Shape::Integer(integer) => fits_kind(&known.types, *integer, value.kind),
        Shape::Pointer(to) => is_pointer_assignable(known, value, *to),
        Shape::Struct(_) => is_same(&known.types, value.kind, kind),
        _ => false,
    }
}

/// Whether the operator moves a pointer to a complete object type by an integer (6.5.16.2p1).
fn may_move(known: &Known, op: Op, pointer: TypeId, other: TypeId) -> bool
    requires pointer { IsId known.now.types pointer }
    requires other { IsId known.now.types other }
    ensures { result ≡ stores.may_move (seen known.now) op (type_of known.now.types pointer) (type_of known.now.types other) }
{
    is_integer(&known.types, other) && moves(op) && points_to_complete(known, pointer)
}

/// The right operand of `+=` or `-=` on a pointer to a complete object type, which is an integer (6.5.16.2p1).
fn moved(known: &Known, op: Op, object: TypeId, value: &Core) -> Option<Operand>
    requires object { IsId known.now.types object }
    requires value { IsNumbered known.now.types value.now }
    ensures operand { (later : List OneShape) → Begins known.now.types.shapes later → option_map (updated_over later (view_over later value.now)) result ≡
        (if stores.may_move (seen known.now) op (type_of known.now.types object) (kind_of (view_over later value.now)) then Some (type_over later object, view_over later value.now) else None) }
    ensures numbered { IfSome result (IsUpdated known.now.types) }
{
    if may_move(known, op, object, value.kind) {
        return Some(Operand {
            works: object,
            to: None,
        });
    }
    None
}

/// An assignment by its symbol (C28, C29).
pub fn typed_assignment(
    typer: &Typer<'_>,
    known: &mut Known,
    at: Extent,
    operator: u32,
    object: Core,
    value: Core,
) -> Result<Core, Stop>
    requires object { IsNumbered known.old.types object }
    requires value { IsNumbered known.old.types value }
    ensures gives { (later : List OneShape) → Begins known.new.types.shapes later → Gives (view_over later) (source_of typer.now) (known_over later known.new) result
        (typing.typed_assignment (setting_of typer.now) (known_over later known.old) at operator (view_over later object) (view_over later value) (symbol_at (source_of typer.now) operator)) }
    ensures numbered { IfOk result (IsNumbered known.new.types) }
    ensures grows { Grows known.old known.new }
{
    match typer.symbol(operator) {
        Symbol::Equals => typed_store(typer, known, at, object, value),
        _ => match assignment_at(typer, operator) {
            Some(op) => updated(typer, known, at, op, object, value),
            None => Err(typer.broken(29, at.inner.first)),
        },
    }
}

/// `=` (C28).
fn typed_store(
    typer: &Typer<'_>,
    known: &Known,
    at: Extent,
    object: Core,
    value: Core,
) -> Result<Core, Stop>
    requires object { IsNumbered known.now.types object }
    requires value { IsNumbered known.now.types value }
    ensures gives { (later : List OneShape) → Begins known.now.types.shapes later → Gives (view_over later) (source_of typer.now) (known_over later known.now) result
        (typing.typed_store (setting_of typer.now) (known_over later known.now) at (view_over later object) (view_over later value)) }
    ensures numbered { IfOk result (IsNumbered known.now.types) }
{
    let fits = may_store(typer, known, &object, &value)?;
    if !fits {
        return Err(typer.broken(28, at.inner.first));
    }
    let kind = bare(&known.types, object.kind);
    let value = typer.as_type(known, object.kind, value)?;
    let made = typer.store(at, object, value, kind)?;
    Ok(made)
}

/// Whether an object may be written, and the value is assignable to it.
fn may_store(typer: &Typer<'_>, known: &Known, object: &Core, value: &Core) -> Result<bool, Memory>
    requires object { IsNumbered known.now.types object.now }
    requires value { IsNumbered known.now.types value.now }
    ensures { IfOk result (λ it. (later : List OneShape) → Begins known.now.types.shapes later →
        it ≡ (rules.is_modifiable (known_over later known.now) (view_over later object.now) && rules.is_assignable (known_over later known.now) (view_over later value.now) (kind_of (view_over later object.now)))) }
{
    let modifiable = is_modifiable(typer, known, object)?;
    if !modifiable {
        return Ok(false);
    }
    Ok(is_assignable(known, value, object.kind))
}

/// The operator of the token of a compound assignment.
fn assignment_at(typer: &Typer<'_>, operator: u32) -> Option<Op>
    ensures { result ≡ option_and_then operators.operator_of_assignment (row_at (source_of typer.now) operator) }
{
    match typer.row(operator) {
        Some(row) => operator_of_assignment(row),
        None => None,
    }
}

/// A compound assignment (C29).
fn updated(
    typer: &Typer<'_>,
    known: &mut Known,
    at: Extent,
    op: Op,
    object: Core,
    value: Core,
) -> Result<Core, Stop>
    requires object { IsNumbered known.old.types object }
    requires value { IsNumbered known.old.types value }
    ensures gives { (later : List OneShape) → Begins known.new.types.shapes later → Gives (view_over later) (source_of typer.now) (known_over later known.new) result
        (typing.typed_update (setting_of typer.now) (known_over later known.old) at (view_over later object) (view_over later value) (Some op)) }
    ensures numbered { IfOk result (IsNumbered known.new.types) }
    ensures grows { Grows known.old known.new }
{
    let found = operand_of(typer, known, op, &object, &value)?;
    match found {
        Some(right) => {
            let made = changed(typer, known, at, op, right, object, value)?;
            Ok(made)
        }
        None => Err(typer.broken(29, at.inner.first)),
    }
}

/// The node of a compound assignment on its right operand after its conversion.
fn changed(
    typer: &Typer<'_>,
    known: &Known,
    at: Extent,
    op: Op,
    right: Operand,
    object: Core,
    value: Core,
) -> Result<Core, Memory>
    requires object { IsNumbered known.now.types object }
    requires value { IsNumbered known.now.types value }
    requires operand { IsUpdated known.now.types right }
    ensures view { IfOk result (λ made. (later : List OneShape) → Begins known.now.types.shapes later → view_over later made ≡ stores.update (source_of typer.now) at op (view_over later object) (updated_over later (view_over later value) right)) }
    ensures numbered { IfOk result (IsNumbered known.now.types) }
{
    let kind = bare(&known.types, object.kind);
    let value = as_type_if(typer, known, right.to, value)?;
    let made = typer.update(at, op, right.works, object, value, kind)?;
    Ok(made)
}

/// The right operand of a compound assignment to an object, which is one that may be written.
fn operand_of(
    typer: &Typer<'_>,
    known: &mut Known,
    op: Op,
    object: &Core,
    value: &Core,
) -> Result<Option<Operand>, Memory>
    requires object { IsNumbered known.old.types object.now }
    requires value { IsNumbered known.old.types value.now }
    ensures operand { IfOk result (λ found. (later : List OneShape) → Begins known.new.types.shapes later → option_map (updated_over later (view_over later value.now)) found ≡ rules.updated (known_over later known.old) op (view_over later object.now) (view_over later value.now)) }
    ensures numbered { IfOk result (λ found. IfSome found (IsUpdated known.new.types)) }
    ensures grows { Grows known.old known.new }
{
    let modifiable = is_modifiable(typer, known, object)?;
    if !modifiable {
        return Ok(None);
    }
    let found = updated_by(known, op, object.kind, value)?;
    Ok(found)
}

/// The right operand after its conversion, and the type in which the operator works (6.5.16.2p3).
fn updated_by(
    known: &mut Known,
    op: Op,
    object: TypeId,
    value: &Core,
) -> Result<Option<Operand>, Memory>
    requires object { IsId known.old.types object }
    requires value { IsNumbered known.old.types value.now }
    ensures operand { IfOk result (λ found. (later : List OneShape) → Begins known.new.types.shapes later → option_map (updated_over later (view_over later value.now)) found ≡
        rules.updated_by (known_over later known.old) op (types_of_c.bare (type_over later object)) (view_over later value.now) (constants.integer_kind (type_over later object)) (constants.integer_kind (kind_of (view_over later value.now)))) }
    ensures numbered { IfOk result (λ found. IfSome found (IsUpdated known.new.types)) }
    ensures grows { Grows known.old known.new }
{
    match both_kinds(&known.types, object, value.kind) {
        Some(kinds) => {
            let found = updated_integer(known, op, kinds)?;
            Ok(Some(found))
        }
        None => {
            let plain = bare(&known.types, object);
            Ok(moved(known, op, plain, value))
        }
    }
}

/// An integer on the right of an integer.
fn updated_integer(known: &mut Known, op: Op, kinds: Sides) -> Result<Operand, Memory>
    ensures operand { IfOk result (λ found. (later : List OneShape) → Begins known.new.types.shapes later → (value : Tree) → updated_over later value found ≡ rules.updated_integer op kinds.left kinds.right value) }
    ensures numbered { IfOk result (IsUpdated known.new.types) }
    ensures grows { Grows known.old known.new }
{
    let brought = sides_of(op, kinds);
    let to = known.intern(Shape::Integer(brought.right))?;
    let works = known.intern(Shape::Integer(brought.left))?;
    Ok(Operand {
        works,
        to: Some(to),
    })
}
