//! Whether a type of one unit is that of another.

ghost use Rattle.std.specs.Prelude.{◌≡◌, ◌<◌, ◌↔◌, All, IsTrue, length, map};
ghost use Rattle.dm_type.specs.Tables.{IsId, type_of};
ghost use Rattle.dm_agree.specs.SameTypes as same;
ghost use Rattle.dm_agree.specs.SameTypes.{Means, IsUnder};

use dm_type::{Shape, TypeId, Types};

/// How two types compare.
#[derive(Clone, Copy)]
pub(crate) enum Compared {
    /// They are the same, or they aren't.
    Known(bool),
    /// As these two do, which they are made of.
    Like(TypeId, TypeId),
}

/// Whether a type of the new unit, written out, is one of the old, structs by their numbers. It takes no memory. It goes down into the
/// parameters of functions alone, which are no functions themselves.
#[cycle(comparison)]
pub fn is_same_type(new: &Types, a: TypeId, old: &Types, b: TypeId) -> bool
    requires left { IsId new.now a }
    requires right { IsId old.now b }
    ensures test { result ≡ same.same_type (type_of new.now a) (type_of old.now b) }
    ensures fact { IsTrue result ↔ (type_of new.now a ≡ type_of old.now b) }
{
    let mut left = a;
    let mut right = b;
    loop {
        match compare_shapes(new, left, old, right) {
            Compared::Known(answer) => return answer,
            Compared::Like(inner, other) => {
                left = inner;
                right = other;
            }
        }
    }
}

/// Compares two types but for one pair of types that they are made of.
#[cycle(comparison)]
fn compare_shapes(new: &Types, a: TypeId, old: &Types, b: TypeId) -> Compared
    requires left { IsId new.now a }
    requires right { IsId old.now b }
    ensures means { Means new.now old.now result (same.same_type (type_of new.now a) (type_of old.now b)) }
    ensures under { IsUnder a result }
{
    match (new.shape(a), old.shape(b)) {
        (Shape::Void, Shape::Void) => Compared::Known(true),
        (Shape::Integer(kind), Shape::Integer(other)) => Compared::Known(kind == other),
        (Shape::Pointer(inner), Shape::Pointer(other))
        | (Shape::Const(inner), Shape::Const(other)) => Compared::Like(*inner, *other),
        (Shape::Array(inner, length), Shape::Array(other, count)) => {
            if is_same_length(*length, *count) {
                Compared::Like(*inner, *other)
            } else {
                Compared::Known(false)
            }
        }
        (Shape::Struct(number), Shape::Struct(other)) => Compared::Known(number == other),
        (Shape::Function(first, parameters), Shape::Function(second, others)) => {
            if are_same_types(new, a, parameters.items(), old, others.items()) {
                Compared::Like(*first, *second)
            } else {
                Compared::Known(false)
            }
        }
        _ => Compared::Known(false),
    }
}

/// Whether types below a limit are the same as others, one by one.
#[cycle(comparison)]
fn are_same_types(
    new: &Types,
    limit: TypeId,
    parameters: &[TypeId],
    old: &Types,
    others: &[TypeId],
) -> bool
    requires limit { limit < length new.now.shapes }
    requires left { All (λ id. id < limit) parameters.now }
    requires right { All (IsId old.now) others.now }
    ensures { result ≡ same.same_listed (map (type_of new.now) parameters.now) (map (type_of old.now) others.now) }
{
    if parameters.len() != others.len() {
        return false;
    }
    for (i, parameter) in parameters.iter().enumerate() {
        if !is_same_type(new, *parameter, old, others[i]) {
            return false;
        }
    }
    true
}

fn is_same_length(length: Option<u64>, count: Option<u64>) -> bool
    ensures { result ≡ same.same_length length count }
{
    match (length, count) {
        (None, None) => true,
        (Some(length), Some(count)) => length == count,
        _ => false,
    }
}
