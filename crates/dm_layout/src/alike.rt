//! Which types are compatible, const apart (6.2.7, 6.7.3p9).

ghost use Rattle.std.specs.Prelude.{◌≡◌, ◌+◌, ◌<◌, Some};
ghost use Rattle.dm_int.specs.declared.Kind.TheVariants.{Char};
ghost use Rattle.dm_type.specs.Alike.{lengths_agree};
ghost use Rattle.dm_type.specs.CTypes as ctypes;
ghost use Rattle.dm_type.specs.Tables.{IsId, type_of};
ghost use Rattle.dm_meaning.specs.Objects as objects;
ghost use Rattle.dm_layout.specs.Alikes.{IsFewer, IsPlain, Means};

use dm_int::Kind;
use dm_type::{Shape, TypeId, Types};

/// How two types compare.
#[derive(Clone, Copy)]
enum Likeness {
    /// They are compatible, or they aren't.
    Known(bool),
    /// As these two do, which they are made of.
    Of(TypeId, TypeId),
}

/// Compares two types but for the pair of types that they are made of.
fn compared(types: &Types, a: TypeId, b: TypeId) -> Likeness
    requires left { IsId types.now a }
    requires right { IsId types.now b }
    ensures means { Means types.now result (objects.agree_without_const (type_of types.now a) (type_of types.now b)) }
    ensures fewer { IsFewer (a + b) result }
{
    match types.shape(a) {
        Shape::Const(inner) => Likeness::Of(*inner, b),
        Shape::Array(element, length) => array_compared(types, a, *element, *length, b),
        _ => plain_compared(types, a, b),
    }
}

/// Compares an array type with another type.
fn array_compared(
    types: &Types,
    a: TypeId,
    element: TypeId,
    length: Option<u64>,
    b: TypeId,
) -> Likeness
    requires left { IsId types.now a }
    requires right { IsId types.now b }
    requires array { type_of types.now a ≡ ctypes.array (type_of types.now element) length }
    requires below { element < a }
    ensures means { Means types.now result (objects.agree_without_const (type_of types.now a) (type_of types.now b)) }
    ensures fewer { IsFewer (a + b) result }
{
    match types.shape(b) {
        Shape::Const(inner) => Likeness::Of(a, *inner),
        Shape::Array(other, count) => {
            if may_be_one(length, *count) {
                Likeness::Of(element, *other)
            } else {
                Likeness::Known(false)
            }
        }
        _ => Likeness::Known(false),
    }
}

/// Whether two lengths of arrays may be one.
fn may_be_one(length: Option<u64>, count: Option<u64>) -> bool
    ensures { result ≡ lengths_agree length count }
{
    match length {
        Some(length) => count.is_none_or(|count| count == length),
        None => true,
    }
}

/// Compares a type that is neither const nor an array with another type.
fn plain_compared(types: &Types, a: TypeId, b: TypeId) -> Likeness
    requires left { IsId types.now a }
    requires right { IsId types.now b }
    requires plain { IsPlain (type_of types.now a) }
    ensures means { Means types.now result (objects.agree_without_const (type_of types.now a) (type_of types.now b)) }
    ensures fewer { IsFewer (a + b) result }
{
    match types.shape(b) {
        Shape::Const(inner) => Likeness::Of(a, *inner),
        Shape::Array(_, _) => Likeness::Known(false),
        _ => Likeness::Known(types.compatible(a, b)),
    }
}

/// Whether two types are compatible, const apart.
pub fn agree_without_const(types: &Types, a: TypeId, b: TypeId) -> bool
    requires left { IsId types.now a }
    requires right { IsId types.now b }
    ensures { result ≡ objects.agree_without_const (type_of types.now a) (type_of types.now b) }
{
    let mut left = a;
    let mut right = b;
    loop {
        match compared(types, left, right) {
            Likeness::Known(answer) => return answer,
            Likeness::Of(inner, other) => {
                left = inner;
                right = other;
            }
        }
    }
}

/// Whether a type is void, const apart.
pub(crate) fn is_void(types: &Types, id: TypeId) -> bool
    requires { IsId types.now id }
    ensures { result ≡ objects.agree_without_const ctypes.void (type_of types.now id) }
{
    match types.shape(id) {
        Shape::Void => true,
        Shape::Const(inner) => is_void(types, *inner),
        _ => false,
    }
}

/// Whether a type is that of the array of a string literal, const apart.
pub fn is_text(types: &Types, id: TypeId, length: u64) -> bool
    requires { IsId types.now id }
    ensures { result ≡ objects.agree_without_const (ctypes.array (ctypes.integer Char) (Some length)) (type_of types.now id) }
{
    match types.shape(id) {
        Shape::Array(inner, Some(count)) => length == *count && is_char(types, *inner),
        Shape::Array(inner, None) => is_char(types, *inner),
        Shape::Const(inner) => is_text(types, *inner, length),
        _ => false,
    }
}

/// Whether a type is char, const apart.
pub fn is_char(types: &Types, id: TypeId) -> bool
    requires { IsId types.now id }
    ensures { result ≡ objects.agree_without_const (ctypes.integer Char) (type_of types.now id) }
{
    match types.shape(id) {
        Shape::Integer(Kind::Char) => true,
        Shape::Const(inner) => is_char(types, *inner),
        _ => false,
    }
}
