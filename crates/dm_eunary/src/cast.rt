//! Casts (6.5.4).

ghost use Rattle.std.specs.Prelude.{◌≡◌, List, IfOk, map};
ghost use Rattle.dm_type.specs.declared.shape.Shape.{Shape as OneShape};
ghost use Rattle.dm_type.specs.Tables.{IsId, type_of};
ghost use Rattle.dm_tree.specs.Operands as operands;
ghost use Rattle.dm_tree.specs.Scenes as scenes;
ghost use Rattle.dm_tree.specs.Trees.{kind_of};
ghost use Rattle.dm_typing.specs.Fitting.{IsNumbered, AreNumbered};
ghost use Rattle.dm_typing.specs.Rules as rules;
ghost use Rattle.dm_typing.specs.Typing as typing;
ghost use Rattle.dm_eunary.specs.Unary as unary;
ghost use Rattle.dm_typing.specs.Views.{Begins, type_over, view_over, known_over, source_of, setting_of, Gives};

use dm_int::Kind;
use dm_token::{List, Stop};
use dm_tree::Core;
use dm_type::{Shape, TypeId, Types};
use dm_typing::looks::{are_alike, bare, is_integer, is_scalar, is_void, target};
use dm_typing::values::is_null;
use dm_typing::{Extent, Known, Typer};

/// A cast to a type without const, and the trees in its type name (C18).
pub fn typed_cast(
    typer: &Typer<'_>,
    known: &Known,
    at: Extent,
    kind: TypeId,
    constants: List<Core>,
    operand: Core,
) -> Result<Core, Stop>
    requires kind { IsId known.now.types kind }
    requires constants { AreNumbered known.now.types constants }
    requires operand { IsNumbered known.now.types operand }
    ensures gives { (later : List OneShape) → Begins known.now.types.shapes later → Gives (view_over later) (source_of typer.now) (known_over later known.now) result
        (typing.typed_cast (setting_of typer.now) (known_over later known.now) at (type_over later kind) (map (view_over later) constants) (view_over later operand)) }
    ensures numbered { IfOk result (IsNumbered known.now.types) }
{
    if !may_be_cast(known, &operand, kind) {
        return Err(typer.broken(18, at.inner.first));
    }
    let made = typer.convert(at, operand, constants, kind)?;
    Ok(made)
}

/// Whether a value may be cast to a type: to void, between integers, between pointers to compatible types or to or from
/// `void *`, from a pointer to `_Bool`, or from a null pointer constant to a pointer (C18).
fn may_be_cast(known: &Known, operand: &Core, kind: TypeId) -> bool
    requires kind { IsId known.now.types kind }
    requires operand { IsNumbered known.now.types operand.now }
    ensures { (later : List OneShape) → Begins known.now.types.shapes later →
        result ≡ rules.may_be_cast (known_over later known.now) (view_over later operand.now) (type_over later kind) }
{
    match known.types.shape(kind) {
        Shape::Void => true,
        Shape::Integer(to) => may_be_integer(&known.types, operand.kind, *to),
        Shape::Pointer(to) => may_be_pointer(known, operand, *to),
        Shape::Array(_, _) => false,
        Shape::Struct(_) => false,
        Shape::Function(_, _) => false,
        Shape::Const(_) => false,
    }
}

/// Whether a value of a type may become one of a kind: of an integer type, or for `_Bool` of a scalar type.
fn may_be_integer(types: &Types, id: TypeId, kind: Kind) -> bool
    requires { IsId types.now id }
    ensures { result ≡ unary.may_be_integer (type_of types.now id) kind }
{
    match kind {
        Kind::Bool => is_scalar(types, id),
        _ => is_integer(types, id),
    }
}

/// Whether a value may become a pointer to a type.
fn may_be_pointer(known: &Known, operand: &Core, to: TypeId) -> bool
    requires target { IsId known.now.types to }
    requires operand { IsNumbered known.now.types operand.now }
    ensures { (later : List OneShape) → Begins known.now.types.shapes later →
        result ≡ rules.may_become_pointer (known_over later known.now) (view_over later operand.now) (type_over later to) (scenes.target (kind_of (view_over later operand.now))) }
{
    let null = is_null(known, operand);
    match target(&known.types, operand.kind) {
        Some(from) => are_convertible(&known.types, to, from) || null,
        None => null,
    }
}

/// Whether pointers to these types may become one another: the types are compatible, their const apart, or one is void.
pub fn are_convertible(types: &Types, to: TypeId, from: TypeId) -> bool
    requires left { IsId types.now to }
    requires right { IsId types.now from }
    ensures { result ≡ operands.are_convertible (type_of types.now to) (type_of types.now from) }
{
    are_alike(types, to, from)
        || is_void(types, bare(types, to))
        || is_void(types, bare(types, from))
}
