//! Arrays that string literals initialise (6.7.9p14).

ghost use Rattle.std.specs.Prelude.{◌≡◌, IfOk, option_map, slice_get};
ghost use Rattle.dm_type.specs.Tables.{IsId, type_of};
ghost use Rattle.dm_layout.specs.Kinds.{type_of_object, IsKnownType};
ghost use Rattle.dm_meaning.specs.Memory as memory;
ghost use Rattle.dm_meaning.specs.Objects as objects;
ghost use Rattle.dm_meaning.specs.Statements as statements;
ghost use Rattle.dm_value.specs.Views.{view_of_value};
ghost use Rattle.dm_first_value.specs.Texts.{characters_in, element_of, kind_of_integers};

use dm_int::{Kind, convert};
use dm_layout::{Layout, ObjectType, bare_kind};
use dm_token::Memory;
use dm_type::{Shape, TypeId};
use dm_value::{Integer, Pointer, Value, converted, nth};
use std::alloc::Global;

/// The value that a string literal of these bytes gives an array of this type: its characters with the closing 0, as many as
/// there is room for, and 0 behind them. It is unset where the type is no array.
pub fn text_array(
    alloc: Global,
    layout: &Layout,
    kind: &ObjectType,
    bytes: Option<&[u8]>,
) -> Result<Value, Memory>
    requires { IsKnownType layout.now kind.now }
    ensures { IfOk result (λ value. view_of_value value ≡ statements.array_of (type_of_object layout.now kind.now) (characters_in bytes.entry)) }
{
    match kind {
        ObjectType::Known(kind) => known_array(alloc, layout, *kind, bytes),
        ObjectType::Text(length) => elements(alloc, layout, &ObjectType::Character, *length, bytes),
        ObjectType::Void | ObjectType::Character => Ok(Value::Unset),
    }
}

/// The same for a type with a number.
fn known_array(
    alloc: Global,
    layout: &Layout,
    kind: TypeId,
    bytes: Option<&[u8]>,
) -> Result<Value, Memory>
    requires { IsId layout.now kind }
    ensures { IfOk result (λ value. view_of_value value ≡ statements.array_of (type_of layout.now kind) (characters_in bytes.entry)) }
{
    match layout.types().shape(kind) {
        Shape::Array(element, Some(count)) => {
            let element = bare_kind(layout, &ObjectType::Known(*element));
            elements(alloc, layout, &element, *count, bytes)
        }
        _ => Ok(Value::Unset),
    }
}

/// An array of so many elements of a type.
fn elements(
    alloc: Global,
    layout: &Layout,
    kind: &ObjectType,
    count: u64,
    bytes: Option<&[u8]>,
) -> Result<Value, Memory>
    requires { IsKnownType layout.now kind.now }
    ensures { IfOk result (λ value. view_of_value value ≡ statements.text_of (type_of_object layout.now kind.now) count (characters_in bytes.entry)) }
{
    let mut all = Vec::new(alloc);
    for number in 0..count {
        all.push(element(layout, kind, bytes, number))?;
    }
    let array = Value::of_parts(alloc, all)?;
    Ok(array)
}

/// The element of a number: a character of the literal, or 0 behind its end.
fn element(layout: &Layout, kind: &ObjectType, bytes: Option<&[u8]>, number: u64) -> Value
    requires { IsKnownType layout.now kind.now }
    ensures { view_of_value result ≡ element_of (type_of_object layout.now kind.now) (slice_get (characters_in bytes.entry) number) }
{
    match nth_byte(bytes, number) {
        Some(byte) => character(layout, kind, byte),
        None => zero(layout, kind),
    }
}

/// The byte of a number, of which the last is the closing 0.
fn nth_byte(bytes: Option<&[u8]>, number: u64) -> Option<u8>
    ensures { option_map memory.character result ≡ slice_get (characters_in bytes.entry) number }
{
    let bytes = bytes?;
    match nth(bytes, number as usize) {
        Some(byte) => Some(*byte),
        None => {
            if number == bytes.len() as u64 {
                Some(0)
            } else {
                None
            }
        }
    }
}

/// A byte as an element of a type.
fn character(layout: &Layout, kind: &ObjectType, byte: u8) -> Value
    requires { IsKnownType layout.now kind.now }
    ensures { view_of_value result ≡ statements.as_element (type_of_object layout.now kind.now) (memory.character byte) }
{
    let character = Integer::new(Kind::Char, convert(Kind::Char, i128::from(byte)));
    match integer_kind(layout, kind) {
        Some(kind) => Value::Integer(converted(kind, character)),
        None => Value::Integer(character),
    }
}

/// The kind of a type of integers.
fn integer_kind(layout: &Layout, kind: &ObjectType) -> Option<Kind>
    requires { IsKnownType layout.now kind.now }
    ensures { result ≡ kind_of_integers (type_of_object layout.now kind.now) }
{
    match kind {
        ObjectType::Known(kind) => known_kind(layout, *kind),
        ObjectType::Character => Some(Kind::Char),
        ObjectType::Void | ObjectType::Text(_) => None,
    }
}

/// The same for a type with a number.
fn known_kind(layout: &Layout, kind: TypeId) -> Option<Kind>
    requires { IsId layout.now kind }
    ensures { result ≡ kind_of_integers (type_of layout.now kind) }
{
    match layout.types().shape(kind) {
        Shape::Integer(kind) => Some(*kind),
        _ => None,
    }
}

/// 0, or a null pointer.
fn zero(layout: &Layout, kind: &ObjectType) -> Value
    requires { IsKnownType layout.now kind.now }
    ensures { view_of_value result ≡ objects.zero_of (type_of_object layout.now kind.now) }
{
    match kind {
        ObjectType::Known(kind) => known_zero(layout, *kind),
        ObjectType::Character => Value::Integer(Integer::new(Kind::Char, 0)),
        ObjectType::Void | ObjectType::Text(_) => Value::Unset,
    }
}

/// The same for a type with a number.
fn known_zero(layout: &Layout, kind: TypeId) -> Value
    requires { IsId layout.now kind }
    ensures { view_of_value result ≡ objects.zero_of (type_of layout.now kind) }
{
    match layout.types().shape(kind) {
        Shape::Integer(kind) => Value::Integer(Integer::new(*kind, 0)),
        Shape::Pointer(_) => Value::Pointer(Pointer::Null),
        _ => Value::Unset,
    }
}
