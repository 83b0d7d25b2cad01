//! Parts of arrays and structs by their number, and the scalar that stands first.

ghost use Rattle.std.specs.Prelude.{◌≡◌, ◌<◌, ◌+◌, false, List, length, Option, Some, None, IfOk, IfSome, IfNone, option_map, if◌then◌else◌};
ghost use Rattle.dm_type.specs.declared.shape.Shape.{Shape as OneShape};
ghost use Rattle.dm_type.specs.CTypes.{CType};
ghost use Rattle.dm_type.specs.Tables.{IsId, type_of};
ghost use Rattle.dm_tree.specs.Scenes as scenes;
ghost use Rattle.dm_typing.specs.Views.{Begins, type_over, table_over, known_over, Grows};
ghost use Rattle.dm_edecl.specs.Initialising as initialising;
ghost use Rattle.dm_edecl.specs.Initialising.{First as OneFirst, first_in_array};
ghost use Rattle.dm_einitial.specs.Steps.{part_over, PartFits, first_over, FirstFits, within, is_sized, member_number, element_number, bare_part};

use dm_token::Memory;
use dm_type::{Shape, TypeId, Types};
use dm_typing::Known;
use dm_typing::looks::is_scalar;

/// The type of a part, before the const of the whole goes to it.
#[derive(Clone, Copy)]
pub(crate) struct BarePart {
    pub kind: TypeId,
    pub becomes_const: bool,
}

/// A scalar, and how many parts are round it.
#[derive(Clone, Copy)]
pub struct First {
    pub depth: u32,
    pub kind: TypeId,
}

/// A member of a struct by the numbers of both (6.5.2.3).
fn member_of(types: &Types, number: u32, n: usize) -> Option<TypeId>
    requires { number < length types.now.structs }
    ensures member { result ≡ member_number types.now number n }
    ensures numbered { IfSome result (IsId types.now) }
{
    let members = types.members(number)?;
    let member = members.get(n)?;
    Some(member.kind)
}

/// A member of a struct by its number. Other types have none.
fn member(types: &Types, kind: TypeId, n: usize) -> Option<TypeId>
    requires { IsId types.now kind }
    ensures member { (later : List OneShape) → Begins types.now.shapes later → option_map (type_over later) result ≡ scenes.member_type (table_over later types.now) (type_over later kind) n }
    ensures numbered { IfSome result (IsId types.now) }
{
    match types.shape(kind) {
        Shape::Struct(number) => member_of(types, *number, n),
        _ => None,
    }
}

/// An element of an array by its number.
fn element(inner: TypeId, many: Option<u64>, n: usize) -> Option<BarePart>
    ensures { result ≡ element_number inner many n }
{
    let many = many?;
    if (n as u64) < many {
        Some(BarePart {
            kind: inner,
            becomes_const: false,
        })
    } else {
        None
    }
}

/// A member, which becomes const or not.
fn as_part(member: Option<TypeId>, becomes_const: bool) -> Option<BarePart>
    ensures { result ≡ option_map (bare_part becomes_const) member }
{
    let kind = member?;
    Some(BarePart {
        kind,
        becomes_const,
    })
}

/// A part of an array or a struct by its number, before the const of the whole goes to it.
fn bare_part(types: &Types, kind: TypeId, n: usize) -> Option<BarePart>
    requires { IsId types.now kind }
    ensures part { (later : List OneShape) → Begins types.now.shapes later → option_map (part_over later) result ≡ scenes.part_type (table_over later types.now) (type_over later kind) n }
    ensures numbered { IfSome result (PartFits types.now) }
{
    match types.shape(kind) {
        Shape::Array(inner, many) => element(*inner, *many, n),
        Shape::Struct(number) => as_part(member_of(types, *number, n), false),
        Shape::Const(inner) => as_part(member(types, *inner, n), true),
        _ => None,
    }
}

/// The type of a part of an array or a struct by its number. A member of a const struct is const (6.5.2.3p3).
pub fn part(known: &mut Known, kind: TypeId, n: usize) -> Result<Option<TypeId>, Memory>
    requires { IsId known.old.types kind }
    ensures part { IfOk result (λ found. (later : List OneShape) → Begins known.new.types.shapes later → option_map (type_over later) found ≡ scenes.part_type (known_over later known.old).types (type_over later kind) n) }
    ensures numbered { IfOk result (λ found. IfSome found (IsId known.new.types)) }
    ensures grows { Grows known.old known.new }
{
    match bare_part(&known.types, kind, n) {
        Some(part) => {
            if part.becomes_const {
                let made = known.intern(Shape::Const(part.kind))?;
                return Ok(Some(made));
            }
            Ok(Some(part.kind))
        }
        None => Ok(None),
    }
}

/// One part more round a scalar. More than 4,294,967,295 count as want of memory.
fn deeper(first: First, kind: TypeId) -> Result<First, Memory>
    ensures { IfOk result (λ next. next ≡ record { depth = first.depth + 1; kind = kind }) }
{
    let depth = first.depth.checked_add(1).ok_or(Memory)?;
    Ok(First { depth, kind })
}

/// The type of the elements of an array of known length. In it stands first what stands first in an element.
fn sized_elements(types: &Types, kind: TypeId) -> Option<TypeId>
    requires { IsId types.now kind }
    ensures some { IfSome result (λ inner. (first_of : CType → Option OneFirst) → first_in_array first_of (type_of types.now kind) ≡ option_map initialising.deeper (first_in_array first_of (type_of types.now inner))) }
    ensures none { IfNone result (is_sized (type_of types.now kind) ≡ false) }
    ensures below { IfSome result (λ inner. inner < kind) }
    ensures numbered { IfSome result (IsId types.now) }
{
    match types.shape(kind) {
        Shape::Array(inner, many) => { if many.is_some() { Some(*inner) } else { None } }
        _ => None,
    }
}

/// The elements of an array of arrays, however many arrays are in each other.
fn through_arrays(types: &Types, first: First) -> Result<First, Memory>
    requires { IsId types.now first.kind }
    ensures same { IfOk result (λ found. (first_of : CType → Option OneFirst) → within found.depth (first_in_array first_of (type_of types.now found.kind)) ≡ within first.depth (first_in_array first_of (type_of types.now first.kind))) }
    ensures element { IfOk result (λ found. is_sized (type_of types.now found.kind) ≡ false) }
    ensures numbered { IfOk result (FirstFits types.now) }
{
    let mut found = first;
    while let Some(inner) = sized_elements(types, found.kind) {
        let next = deeper(found, inner)?;
        found = next;
    }
    Ok(found)
}

/// A scalar, or nothing.
fn if_scalar(types: &Types, first: First) -> Option<First>
    requires { IsId types.now first.kind }
    ensures scalar { result ≡ (if scenes.is_scalar (type_of types.now first.kind) then Some first else None) }
{
    if is_scalar(types, first.kind) {
        Some(first)
    } else {
        None
    }
}

/// The scalar that stands first in a type: in an array in its first element, and in a struct in its first member. Structs
/// are not more deeply in each other than there are, so the way ends.
pub fn first_scalar(known: &mut Known, kind: TypeId) -> Result<Option<First>, Memory>
    requires { IsId known.old.types kind }
    ensures first { IfOk result (λ found. (later : List OneShape) → Begins known.new.types.shapes later → option_map (first_over later) found ≡ initialising.first_scalar (known_over later known.old).types (type_over later kind)) }
    ensures numbered { IfOk result (λ found. IfSome found (FirstFits known.new.types)) }
    ensures grows { Grows known.old known.new }
{
    let mut at = First { depth: 0, kind };
    let mut structs = known.types.struct_count();
    while structs > 0 {
        let here = through_arrays(&known.types, at)?;
        if is_scalar(&known.types, here.kind) {
            return Ok(Some(here));
        }
        let found = part(known, here.kind, 0)?;
        match found {
            Some(inner) => {
                let next = deeper(here, inner)?;
                at = next;
            }
            None => return Ok(None),
        }
        structs -= 1;
    }
    let here = through_arrays(&known.types, at)?;
    Ok(if_scalar(&known.types, here))
}
