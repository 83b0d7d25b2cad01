//! Looks at types by number.

ghost use Rattle.std.specs.Prelude.{◌≡◌, ◌&&◌, option_map, IfSome};
ghost use Rattle.dm_type.specs.CTypes as types_of_c;
ghost use Rattle.dm_type.specs.Tables.{type_of, Has, IsId};
ghost use Rattle.dm_tree.specs.Constants as constants;
ghost use Rattle.dm_tree.specs.Scenes as scenes;
ghost use Rattle.dm_typing.specs.Conversions as conversions;
ghost use Rattle.dm_typing.specs.Rules as rules;
ghost use Rattle.dm_typing.specs.Views as views;
ghost use Rattle.dm_typing.specs.Views.{seen};

use crate::known::Known;
use dm_int::Kind;
use dm_type::{Shape, TypeId, Types};

/// A type without its own const.
pub fn bare(types: &Types, id: TypeId) -> TypeId
    requires { IsId types.now id }
    ensures { Has types.now result (types_of_c.bare (type_of types.now id)) }
{
    match types.shape(id) {
        Shape::Const(inner) => *inner,
        _ => id,
    }
}

/// Whether the type itself is const-qualified.
pub fn is_const(types: &Types, id: TypeId) -> bool
    requires { IsId types.now id }
    ensures { result ≡ types_of_c.is_const (type_of types.now id) }
{
    matches!(types.shape(id), Shape::Const(_))
}

/// The kind of an integer type, const or not.
pub fn integer_kind(types: &Types, id: TypeId) -> Option<Kind>
    requires { IsId types.now id }
    ensures { result ≡ constants.integer_kind (type_of types.now id) }
{
    match types.shape(bare(types, id)) {
        Shape::Integer(kind) => Some(*kind),
        _ => None,
    }
}

/// What a pointer type, const or not, points to.
pub fn target(types: &Types, id: TypeId) -> Option<TypeId>
    requires { IsId types.now id }
    ensures target { option_map (type_of types.now) result ≡ scenes.target (type_of types.now id) }
    ensures numbered { IfSome result (IsId types.now) }
{
    match types.shape(bare(types, id)) {
        Shape::Pointer(to) => Some(*to),
        _ => None,
    }
}

/// Whether the type is an integer type, const or not.
pub fn is_integer(types: &Types, id: TypeId) -> bool
    requires { IsId types.now id }
    ensures { result ≡ scenes.is_integer (type_of types.now id) }
{
    integer_kind(types, id).is_some()
}

/// Whether the type is a pointer type, const or not.
pub fn is_pointer(types: &Types, id: TypeId) -> bool
    requires { IsId types.now id }
    ensures { result ≡ scenes.is_pointer (type_of types.now id) }
{
    target(types, id).is_some()
}

/// Whether the type is a scalar type (6.2.5p21).
pub fn is_scalar(types: &Types, id: TypeId) -> bool
    requires { IsId types.now id }
    ensures { result ≡ scenes.is_scalar (type_of types.now id) }
{
    is_integer(types, id) || is_pointer(types, id)
}

/// Whether the type is void itself.
pub fn is_void(types: &Types, id: TypeId) -> bool
    requires { IsId types.now id }
    ensures { result ≡ scenes.is_void (type_of types.now id) }
{
    matches!(types.shape(id), Shape::Void)
}

/// Whether the type is an array.
pub fn is_array(types: &Types, id: TypeId) -> bool
    requires { IsId types.now id }
    ensures { result ≡ scenes.is_array (type_of types.now id) }
{
    matches!(types.shape(id), Shape::Array(_, _))
}

/// Whether the type is that of a function.
pub fn is_function(types: &Types, id: TypeId) -> bool
    requires { IsId types.now id }
    ensures { result ≡ scenes.is_function (type_of types.now id) }
{
    matches!(types.shape(id), Shape::Function(_, _))
}

/// Whether the type is a complete object type (6.2.5p1).
pub fn is_complete(known: &Known, id: TypeId) -> bool
    requires { IsId known.now.types id }
    ensures { result ≡ conversions.is_complete (seen known.now) (type_of known.now.types id) }
{
    known.types.size(id).is_some()
}

/// What a pointer to a complete object type points to.
pub fn complete_target(known: &Known, id: TypeId) -> Option<TypeId>
    requires { IsId known.now.types id }
    ensures target { option_map (type_of known.now.types) result ≡ conversions.complete_target (seen known.now) (type_of known.now.types id) }
    ensures numbered { IfSome result (IsId known.now.types) }
{
    let to = target(&known.types, id)?;
    if is_complete(known, to) {
        Some(to)
    } else {
        None
    }
}

/// Whether the type is that of pointers to a complete object type.
pub fn points_to_complete(known: &Known, id: TypeId) -> bool
    requires { IsId known.now.types id }
    ensures { result ≡ rules.points_to_complete (seen known.now) (type_of known.now.types id) }
{
    complete_target(known, id).is_some()
}

/// Whether two types are compatible, their const apart.
pub fn are_alike(types: &Types, a: TypeId, b: TypeId) -> bool
    requires left { IsId types.now a }
    requires right { IsId types.now b }
    ensures { result ≡ scenes.are_alike (type_of types.now a) (type_of types.now b) }
{
    types.compatible(bare(types, a), bare(types, b))
}

/// Whether two types are those of pointers to types that are compatible, their const apart.
pub fn point_alike(types: &Types, a: TypeId, b: TypeId) -> bool
    requires left { IsId types.now a }
    requires right { IsId types.now b }
    ensures { result ≡ rules.point_alike (type_of types.now a) (type_of types.now b) }
{
    match (target(types, a), target(types, b)) {
        (Some(to), Some(from)) => are_alike(types, to, from),
        _ => false,
    }
}

/// Whether the type is that of pointers to void, const or not.
pub fn is_void_pointer(types: &Types, id: TypeId) -> bool
    requires { IsId types.now id }
    ensures { result ≡ rules.is_void_pointer (type_of types.now id) }
{
    match target(types, id) {
        Some(to) => is_void(types, bare(types, to)),
        None => false,
    }
}

/// Whether two types are one.
pub fn is_same(types: &Types, a: TypeId, b: TypeId) -> bool
    requires left { IsId types.now a }
    requires right { IsId types.now b }
    ensures { result ≡ conversions.is_same (type_of types.now a) (type_of types.now b) }
{
    // Says that the types of the table differ, so equal ones have one number.
    let _ = types.shape(a);
    a == b
}

/// The type of the elements of an array.
pub fn elements(types: &Types, id: TypeId) -> Option<TypeId>
    requires { IsId types.now id }
    ensures elements { option_map (type_of types.now) result ≡ views.elements (type_of types.now id) }
    ensures numbered { IfSome result (IsId types.now) }
{
    match types.shape(id) {
        Shape::Array(inner, _) => Some(*inner),
        _ => None,
    }
}

/// Whether the type is that of pointers to void, neither of them const.
pub fn is_plain_void_pointer(types: &Types, id: TypeId) -> bool
    requires { IsId types.now id }
    ensures { result ≡ views.is_plain_void_pointer (type_of types.now id) }
{
    match types.shape(id) {
        Shape::Pointer(to) => is_void(types, *to),
        _ => false,
    }
}

/// Whether two types are scalar types (6.2.5p21).
pub fn are_scalars(types: &Types, a: TypeId, b: TypeId) -> bool
    requires left { IsId types.now a }
    requires right { IsId types.now b }
    ensures { result ≡ (scenes.is_scalar (type_of types.now a) && scenes.is_scalar (type_of types.now b)) }
{
    is_scalar(types, a) && is_scalar(types, b)
}
