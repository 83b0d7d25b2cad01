//! The conditional operator (6.5.15).

ghost use Rattle.std.specs.Prelude.{◌≡◌, ◌||◌, List, IfOk, IfSome, IsTrue, Some, None, if◌then◌else◌, option_map};
ghost use Rattle.dm_type.specs.Alike as alike;
ghost use Rattle.dm_type.specs.CTypes as types_of_c;
ghost use Rattle.dm_type.specs.CTypes.{pointer};
ghost use Rattle.dm_type.specs.declared.shape.Shape.{Shape as OneShape};
ghost use Rattle.dm_type.specs.Tables.{type_of, IsId};
ghost use Rattle.dm_tree.specs.Scenes as scenes;
ghost use Rattle.dm_typing.specs.Fitting.{IsNumbered};
ghost use Rattle.dm_typing.specs.Rules as rules;
ghost use Rattle.dm_typing.specs.Typing as typing;
ghost use Rattle.dm_typing.specs.Views.{Begins, type_over, view_over, known_over, source_of, setting_of, Gives, Grows};
ghost use Rattle.dm_ebinary.specs.Arms as arms;
ghost use Rattle.dm_ebinary.specs.Arms.{IsNumberBy};
ghost use Rattle.dm_ebinary.specs.Pairs.{pair_by, IsWay};

use crate::ways::{Way, as_type_if, both_kinds};
use dm_int::common;
use dm_token::{Memory, Stop};
use dm_tree::Core;
use dm_type::{Shape, TypeId, Types};
use dm_typing::looks::{are_alike, bare, is_const, is_scalar, is_void, target};
use dm_typing::values::is_null;
use dm_typing::{Extent, Known, Typer};

/// Of void twice and of two structs: whether they are one type.
fn same_plainly(types: &Types, a: TypeId, b: TypeId) -> Option<bool>
    requires left { IsId types.now a }
    requires right { IsId types.now b }
    ensures { result ≡ arms.same_plainly (type_of types.now a) (type_of types.now b) }
{
    match (types.shape(a), types.shape(b)) {
        (Shape::Void, Shape::Void) => Some(true),
        (Shape::Struct(one), Shape::Struct(other)) => Some(*one == *other),
        _ => None,
    }
}

/// Whether one of two types is const.
fn either_const(types: &Types, a: TypeId, b: TypeId) -> bool
    requires left { IsId types.now a }
    requires right { IsId types.now b }
    ensures { result ≡ (types_of_c.is_const (type_of types.now a) || types_of_c.is_const (type_of types.now b)) }
{
    is_const(types, a) || is_const(types, b)
}

/// Whether one of two types is void, const or not.
fn either_void(types: &Types, a: TypeId, b: TypeId) -> bool
    requires left { IsId types.now a }
    requires right { IsId types.now b }
    ensures { result ≡ (scenes.is_void (types_of_c.bare (type_of types.now a)) || scenes.is_void (types_of_c.bare (type_of types.now b))) }
{
    is_void(types, bare(types, a)) || is_void(types, bare(types, b))
}

/// A type where a test holds.
fn type_if(test: bool, kind: TypeId) -> Option<TypeId>
    ensures { result ≡ (if test then Some kind else None) }
{
    if test { Some(kind) } else { None }
}

/// The number of the composite type of two compatible types (6.2.7p3). After an `Err` nothing is changed.
fn composite(known: &mut Known, a: TypeId, b: TypeId) -> Result<TypeId, Memory>
    requires left { IsId known.old.types a }
    requires right { IsId known.old.types b }
    requires compatible { IsTrue (alike.are_compatible (type_of known.old.types a) (type_of known.old.types b)) }
    ensures number { IfOk result (λ id. IsNumberBy known.new.types.shapes id (λ later. alike.composite (type_over later a) (type_over later b))) }
    ensures grows { Grows known.old known.new }
{
    let id = known.types.composite(a, b)?;
    Ok(id)
}

/// The number of a type, or of its const version.
fn const_if(known: &mut Known, constant: bool, to: TypeId) -> Result<TypeId, Memory>
    requires { IsId known.old.types to }
    ensures number { IfOk result (λ id. IsNumberBy known.new.types.shapes id (λ later. rules.with_const_if constant (type_over later to))) }
    ensures grows { Grows known.old known.new }
{
    if !constant {
        return Ok(to);
    }
    let kind = known.intern(Shape::Const(to))?;
    Ok(kind)
}

/// The number of the pointer to a type, or to its const version.
fn pointer_to(known: &mut Known, constant: bool, to: TypeId) -> Result<TypeId, Memory>
    requires { IsId known.old.types to }
    ensures number { IfOk result (λ id. IsNumberBy known.new.types.shapes id (λ later. pointer (rules.with_const_if constant (type_over later to)))) }
    ensures grows { Grows known.old known.new }
{
    let inner = const_if(known, constant, to)?;
    let kind = known.intern(Shape::Pointer(inner))?;
    Ok(kind)
}

/// The pointer to the composite of two types that are compatible, their const apart, with the const of both.
fn pointer_to_composite(known: &mut Known, to: TypeId, from: TypeId) -> Result<TypeId, Memory>
    requires left { IsId known.old.types to }
    requires right { IsId known.old.types from }
    requires alike { IsTrue (scenes.are_alike (type_of known.old.types to) (type_of known.old.types from)) }
    ensures number { IfOk result (λ id. IsNumberBy known.new.types.shapes id (λ later. pointer (rules.with_const_if (types_of_c.is_const (type_over later to) || types_of_c.is_const (type_over later from)) (alike.composite (types_of_c.bare (type_over later to)) (types_of_c.bare (type_over later from)))))) }
    ensures grows { Grows known.old known.new }
{
    let constant = either_const(&known.types, to, from);
    let one = bare(&known.types, to);
    let other = bare(&known.types, from);
    let both = composite(known, one, other)?;
    let kind = pointer_to(known, constant, both)?;
    Ok(kind)
}

/// The pointer to void, with the const of two types.
fn pointer_to_void(known: &mut Known, to: TypeId, from: TypeId) -> Result<TypeId, Memory>
    requires left { IsId known.old.types to }
    requires right { IsId known.old.types from }
    ensures number { IfOk result (λ id. IsNumberBy known.new.types.shapes id (λ later. pointer (rules.with_const_if (types_of_c.is_const (type_over later to) || types_of_c.is_const (type_over later from)) types_of_c.void))) }
    ensures grows { Grows known.old known.new }
{
    let constant = either_const(&known.types, to, from);
    let void = known.intern(Shape::Void)?;
    let kind = pointer_to(known, constant, void)?;
    Ok(kind)
}

/// The type of two pointers (6.5.15p6).
fn pointer_arms(
    known: &mut Known,
    a: &Core,
    b: &Core,
    to: TypeId,
    from: TypeId,
) -> Result<Option<TypeId>, Memory>
    requires left { IsNumbered known.old.types a.now }
    requires right { IsNumbered known.old.types b.now }
    requires to { IsId known.old.types to }
    requires from { IsId known.old.types from }
    ensures kind { IfOk result (λ found. (later : List OneShape) → Begins known.new.types.shapes later → option_map (type_over later) found ≡ rules.pointer_arms (known_over later known.old) (view_over later a.now) (view_over later b.now) (type_over later to) (type_over later from)) }
    ensures numbered { IfOk result (λ found. IfSome found (IsId known.new.types)) }
    ensures grows { Grows known.old known.new }
{
    if are_alike(&known.types, to, from) {
        let kind = pointer_to_composite(known, to, from)?;
        return Ok(Some(kind));
    }
    if is_null(known, b) {
        return Ok(Some(a.kind));
    }
    if is_null(known, a) {
        return Ok(Some(b.kind));
    }
    if either_void(&known.types, to, from) {
        let kind = pointer_to_void(known, to, from)?;
        return Ok(Some(kind));
    }
    Ok(None)
}

/// The type of two arms of which one is a pointer.
fn arms_by_targets(known: &mut Known, a: &Core, b: &Core) -> Result<Option<TypeId>, Memory>
    requires left { IsNumbered known.old.types a.now }
    requires right { IsNumbered known.old.types b.now }
    ensures kind { IfOk result (λ found. (later : List OneShape) → Begins known.new.types.shapes later → option_map (type_over later) found ≡ arms.by_plainness (known_over later known.old) (view_over later a.now) (view_over later b.now) None) }
    ensures numbered { IfOk result (λ found. IfSome found (IsId known.new.types)) }
    ensures grows { Grows known.old known.new }
{
    match target(&known.types, a.kind) {
        Some(to) => match target(&known.types, b.kind) {
            Some(from) => {
                let found = pointer_arms(known, a, b, to, from)?;
                Ok(found)
            }
            None => Ok(type_if(is_null(known, b), a.kind)),
        },
        None => match target(&known.types, b.kind) {
            Some(_from) => Ok(type_if(is_null(known, a), b.kind)),
            None => Ok(None),
        },
    }
}

/// The type of two arms that aren't both integers.
fn arms_of_types(known: &mut Known, a: &Core, b: &Core) -> Result<Option<TypeId>, Memory>
    requires left { IsNumbered known.old.types a.now }
    requires right { IsNumbered known.old.types b.now }
    ensures kind { IfOk result (λ found. (later : List OneShape) → Begins known.new.types.shapes later → option_map (type_over later) found ≡ arms.kind_of_types (known_over later known.old) (view_over later a.now) (view_over later b.now)) }
    ensures numbered { IfOk result (λ found. IfSome found (IsId known.new.types)) }
    ensures grows { Grows known.old known.new }
{
    match same_plainly(&known.types, a.kind, b.kind) {
        Some(same) => Ok(type_if(same, a.kind)),
        None => {
            let found = arms_by_targets(known, a, b)?;
            Ok(found)
        }
    }
}

/// The type to which the arms are converted (6.5.15p3, p5, p6): that of integers, void, a struct, or that of pointers.
fn arms_kind(known: &mut Known, a: &Core, b: &Core) -> Result<Option<TypeId>, Memory>
    requires left { IsNumbered known.old.types a.now }
    requires right { IsNumbered known.old.types b.now }
    ensures kind { IfOk result (λ found. (later : List OneShape) → Begins known.new.types.shapes later → option_map (type_over later) found ≡ arms.arms_kind (known_over later known.old) (view_over later a.now) (view_over later b.now)) }
    ensures numbered { IfOk result (λ found. IfSome found (IsId known.new.types)) }
    ensures grows { Grows known.old known.new }
{
    match both_kinds(&known.types, a.kind, b.kind) {
        Some(kinds) => {
            let kind = known.intern(Shape::Integer(common(kinds.left, kinds.right)))?;
            Ok(Some(kind))
        }
        None => {
            let found = arms_of_types(known, a, b)?;
            Ok(found)
        }
    }
}

/// `a ? b : c` (C27).
pub fn typed_choice(
    typer: &Typer<'_>,
    known: &mut Known,
    at: Extent,
    condition: Core,
    a: Core,
    b: Core,
) -> Result<Core, Stop>
    requires condition { IsNumbered known.old.types condition }
    requires left { IsNumbered known.old.types a }
    requires right { IsNumbered known.old.types b }
    ensures gives { (later : List OneShape) → Begins known.new.types.shapes later → Gives (view_over later) (source_of typer.now) (known_over later known.new) result
        (typing.typed_choice (setting_of typer.now) (known_over later known.old) at (view_over later condition) (view_over later a) (view_over later b)) }
    ensures numbered { IfOk result (IsNumbered known.new.types) }
    ensures grows { Grows known.old known.new }
{
    let found = arms_behind(known, &condition, &a, &b)?;
    match found {
        Some(way) => {
            let made = chosen(typer, known, at, condition, way, a, b)?;
            Ok(made)
        }
        None => Err(typer.broken(27, at.inner.first)),
    }
}

/// How the arms come together behind a condition, which is a scalar.
fn arms_behind(
    known: &mut Known,
    condition: &Core,
    a: &Core,
    b: &Core,
) -> Result<Option<Way>, Memory>
    requires condition { IsNumbered known.old.types condition.now }
    requires left { IsNumbered known.old.types a.now }
    requires right { IsNumbered known.old.types b.now }
    ensures way { IfOk result (λ found. (later : List OneShape) → Begins known.new.types.shapes later → option_map (pair_by later (view_over later a.now) (view_over later b.now)) found ≡ arms.arms_behind (known_over later known.old) (view_over later condition.now) (view_over later a.now) (view_over later b.now)) }
    ensures numbered { IfOk result (λ found. IfSome found (IsWay known.new.types)) }
    ensures grows { Grows known.old known.new }
{
    if !is_scalar(&known.types, condition.kind) {
        return Ok(None);
    }
    let found = arms(known, a, b)?;
    Ok(found)
}

/// How the arms come together.
fn arms(known: &mut Known, a: &Core, b: &Core) -> Result<Option<Way>, Memory>
    requires left { IsNumbered known.old.types a.now }
    requires right { IsNumbered known.old.types b.now }
    ensures way { IfOk result (λ found. (later : List OneShape) → Begins known.new.types.shapes later → option_map (pair_by later (view_over later a.now) (view_over later b.now)) found ≡ rules.arms (known_over later known.old) (view_over later a.now) (view_over later b.now)) }
    ensures numbered { IfOk result (λ found. IfSome found (IsWay known.new.types)) }
    ensures grows { Grows known.old known.new }
{
    let found = arms_kind(known, a, b)?;
    match found {
        Some(kind) => Ok(Some(Way {
            left: Some(kind),
            right: Some(kind),
            kind,
        })),
        None => Ok(None),
    }
}

/// The node of the conditional operator on its arms after their conversions.
fn chosen(
    typer: &Typer<'_>,
    known: &Known,
    at: Extent,
    condition: Core,
    way: Way,
    a: Core,
    b: Core,
) -> Result<Core, Memory>
    requires condition { IsNumbered known.now.types condition }
    requires left { IsNumbered known.now.types a }
    requires right { IsNumbered known.now.types b }
    requires way { IsWay known.now.types way }
    ensures view { IfOk result (λ made. (later : List OneShape) → Begins known.now.types.shapes later → view_over later made ≡ arms.choice (source_of typer.now) at (view_over later condition) (pair_by later (view_over later a) (view_over later b) way)) }
    ensures numbered { IfOk result (IsNumbered known.now.types) }
{
    let left = as_type_if(typer, known, way.left, a)?;
    let right = as_type_if(typer, known, way.right, b)?;
    let made = typer.choose(at, condition, left, right, way.kind)?;
    Ok(made)
}
