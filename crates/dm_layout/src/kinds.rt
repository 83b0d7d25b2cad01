//! The types of objects, those of string literals among them (6.4.5p6).

ghost use Rattle.std.specs.Prelude.{◌≡◌};
ghost use Rattle.dm_type.specs.CTypes as ctypes;
ghost use Rattle.dm_type.specs.Tables.{IsId, type_of};
ghost use Rattle.dm_meaning.specs.Objects as objects;
ghost use Rattle.dm_layout.specs.Kinds.{type_of_object, IsKnownType};
ghost use Rattle.dm_layout.specs.LaidOut.{laid_out};

use crate::alike::{agree_without_const, is_char, is_text, is_void};
use crate::layout::{Layout, bare};
use dm_int::Kind;
use dm_type::{Shape, TypeId, Types};

/// The type of an object or of a part of one. The types of string literals need not have a number.
#[derive(Drop)]
pub enum ObjectType {
    Known(TypeId),
    /// What has no type.
    Void,
    /// The array of a string literal, of so many characters with the closing 0.
    Text(u64),
    /// A character of a string literal.
    Character,
}

/// Whether a type is such as the target of a pointer, const apart.
pub(crate) fn is_target(layout: &Layout, kind: &ObjectType, target: TypeId) -> bool
    requires kind { IsKnownType layout.now kind.now }
    requires target { IsId layout.now target }
    ensures { result ≡ objects.agree_without_const (type_of_object layout.now kind.now) (type_of layout.now target) }
{
    let types = layout.types();
    match kind {
        ObjectType::Known(kind) => agree_without_const(types, *kind, target),
        ObjectType::Void => is_void(types, target),
        ObjectType::Text(length) => is_text(types, target, *length),
        ObjectType::Character => is_char(types, target),
    }
}

pub(crate) fn is_array(layout: &Layout, whole: &ObjectType) -> bool
    requires { IsKnownType layout.now whole.now }
    ensures { result ≡ objects.is_array (type_of_object layout.now whole.now) }
{
    match whole {
        ObjectType::Known(whole) => is_array_shape(layout.types(), *whole),
        ObjectType::Text(_) => true,
        ObjectType::Void | ObjectType::Character => false,
    }
}

fn is_array_shape(types: &Types, id: TypeId) -> bool
    requires { IsId types.now id }
    ensures { result ≡ objects.is_array (type_of types.now id) }
{
    match types.shape(id) {
        Shape::Array(_, _) => true,
        _ => false,
    }
}

/// A type without its own const.
pub fn bare_kind(layout: &Layout, kind: &ObjectType) -> ObjectType
    requires { IsKnownType layout.now kind.now }
    ensures bare { type_of_object layout.now result ≡ ctypes.bare (type_of_object layout.now kind.now) }
    ensures known { IsKnownType layout.now result }
{
    match kind {
        ObjectType::Known(kind) => ObjectType::Known(bare(layout.types(), *kind)),
        ObjectType::Void => ObjectType::Void,
        ObjectType::Text(length) => ObjectType::Text(*length),
        ObjectType::Character => ObjectType::Character,
    }
}

/// The type of a part of an object that isn't const itself, where it doesn't matter whether an element is there.
pub fn inner(layout: &Layout, whole: &ObjectType, number: u32) -> ObjectType
    requires { IsKnownType layout.now whole.now }
    ensures inner { type_of_object layout.now result ≡ objects.inner_type (laid_out layout.now) (type_of_object layout.now whole.now) number }
    ensures known { IsKnownType layout.now result }
{
    match whole {
        ObjectType::Known(whole) => inner_known(layout, *whole, number),
        ObjectType::Text(_) => ObjectType::Character,
        ObjectType::Void | ObjectType::Character => ObjectType::Void,
    }
}

fn inner_known(layout: &Layout, whole: TypeId, number: u32) -> ObjectType
    requires { IsId layout.now whole }
    ensures inner { type_of_object layout.now result ≡ objects.inner_type (laid_out layout.now) (type_of layout.now whole) number }
    ensures known { IsKnownType layout.now result }
{
    match layout.types().shape(whole) {
        Shape::Array(element, _) => ObjectType::Known(*element),
        Shape::Struct(structure) => layout.member_kind(*structure, number),
        _ => ObjectType::Void,
    }
}
