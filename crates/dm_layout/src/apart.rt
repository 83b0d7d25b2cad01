//! How far parts of one object lie apart (6.5.6p9).

ghost use Rattle.std.specs.Prelude.{◌≡◌, ◌==◌, ◌&&◌, length, map};
ghost use Rattle.dm_type.specs.Tables.{IsId, type_of};
ghost use Rattle.dm_meaning.specs.Objects as objects;
ghost use Rattle.dm_layout.specs.Distances.{distance_at_end, distance_in_array, index_at_end};
ghost use Rattle.dm_layout.specs.Kinds.{type_of_object, IsKnownType};
ghost use Rattle.dm_layout.specs.LaidOut.{laid_out};
ghost use Rattle.dm_value.specs.Parts.{view_of_part};

use crate::kinds::{ObjectType, bare_kind, inner, is_array, is_target};
use crate::layout::Layout;
use dm_type::{Shape, TypeId};
use dm_value::Part;

/// How many elements of the target's type lie between two paths into an object, if both lead to elements of one array, or one
/// past its end.
pub fn distance(
    layout: &Layout,
    kind: ObjectType,
    target: TypeId,
    a: &[Part],
    b: &[Part],
) -> Option<i128>
    requires kind { IsKnownType layout.now kind }
    requires target { IsId layout.now target }
    ensures { result ≡ objects.distance (laid_out layout.now) (type_of_object layout.now kind) (type_of layout.now target) (map view_of_part a.now) (map view_of_part b.now) }
{
    let mut at = kind;
    let mut left = a;
    let mut right = b;
    while let Some((first, rest)) = left.split_first() {
        let Some((other, others)) = right.split_first() else {
            return at_end(layout, &at, target, left, right);
        };
        let Part::Inner(number) = first else {
            return at_end(layout, &at, target, left, right);
        };
        let Part::Inner(another) = other else {
            return at_end(layout, &at, target, left, right);
        };
        let whole = bare_kind(layout, &at);
        if are_last_elements(layout, &whole, rest, others) {
            return in_array(layout, &whole, target, *number, *another);
        }
        if *number != *another {
            return None;
        }
        at = inner(layout, &whole, *number);
        left = rest;
        right = others;
    }
    at_end(layout, &at, target, left, right)
}

/// Whether the last steps of two paths are to elements of an array.
fn are_last_elements(layout: &Layout, whole: &ObjectType, rest: &[Part], others: &[Part]) -> bool
    requires { IsKnownType layout.now whole.now }
    ensures { result ≡ (objects.is_array (type_of_object layout.now whole.now) && ((length rest.now == 0) && (length others.now == 0))) }
{
    is_array(layout, whole) && (rest.is_empty() && others.is_empty())
}

/// How far two elements of an array lie apart.
fn in_array(
    layout: &Layout,
    whole: &ObjectType,
    target: TypeId,
    number: u32,
    another: u32,
) -> Option<i128>
    requires whole { IsKnownType layout.now whole.now }
    requires target { IsId layout.now target }
    ensures { result ≡ distance_in_array (type_of_object layout.now whole.now) (type_of layout.now target) number another }
{
    match whole {
        ObjectType::Known(whole) => in_known_array(layout, *whole, target, number, another),
        ObjectType::Text(_) => between(layout, &ObjectType::Character, target, number, another),
        ObjectType::Void | ObjectType::Character => None,
    }
}

fn in_known_array(
    layout: &Layout,
    whole: TypeId,
    target: TypeId,
    number: u32,
    another: u32,
) -> Option<i128>
    requires whole { IsId layout.now whole }
    requires target { IsId layout.now target }
    ensures { result ≡ distance_in_array (type_of layout.now whole) (type_of layout.now target) number another }
{
    match layout.types().shape(whole) {
        Shape::Array(element, _) => between(
            layout,
            &ObjectType::Known(*element),
            target,
            number,
            another,
        ),
        _ => None,
    }
}

/// How far elements of a type lie apart, if the target is such.
fn between(
    layout: &Layout,
    element: &ObjectType,
    target: TypeId,
    number: u32,
    another: u32,
) -> Option<i128>
    requires element { IsKnownType layout.now element.now }
    requires target { IsId layout.now target }
    ensures { result ≡ objects.distance_alone (type_of_object layout.now element.now) (type_of layout.now target) number another }
{
    if is_target(layout, element, target) {
        Some(i128::from(number) - i128::from(another))
    } else {
        None
    }
}

/// How far two places lie apart where nothing, or one past, is left of each path.
fn at_end(
    layout: &Layout,
    kind: &ObjectType,
    target: TypeId,
    left: &[Part],
    right: &[Part],
) -> Option<i128>
    requires kind { IsKnownType layout.now kind.now }
    requires target { IsId layout.now target }
    ensures { result ≡ distance_at_end (type_of_object layout.now kind.now) (type_of layout.now target) (map view_of_part left.now) (map view_of_part right.now) }
{
    let first = index(left)?;
    let second = index(right)?;
    between(layout, kind, target, first, second)
}

/// The number of an object, as an array of one, to which the end of a path leads.
fn index(steps: &[Part]) -> Option<u32>
    ensures { result ≡ index_at_end (map view_of_part steps.now) }
{
    match steps.split_first() {
        None => Some(0),
        Some((Part::Inner(_), _)) => None,
        Some((Part::Past, rest)) => { if rest.is_empty() { Some(1) } else { None } }
    }
}
