//! Where pointers may move within an object (6.5.6p8).

ghost use Rattle.std.specs.Prelude.{◌≡◌, ◌==◌, ◌&&◌, ◌∷◌, [], ◌++◌, length, map, option_map, take};
ghost use Rattle.dm_type.specs.Tables.{IsId, type_of};
ghost use Rattle.dm_meaning.specs.Objects as objects;
ghost use Rattle.dm_layout.specs.LaidOut.{laid_out};
ghost use Rattle.dm_meaning.specs.Values as values;
ghost use Rattle.dm_layout.specs.Kinds.{type_of_object, IsKnownType};
ghost use Rattle.dm_layout.specs.Moves.{IsCount, moved_path, steps_of};
ghost use Rattle.dm_value.specs.Parts.{view_of_part};

use crate::kinds::{ObjectType, bare_kind, inner, is_array, is_target};
use crate::layout::Layout;
use dm_type::{Shape, TypeId};
use dm_value::Part;

/// What follows the steps of a path that stay when a pointer moves.
#[derive(Clone, Copy, Debug)]
pub enum Tail {
    Element(u64),
    /// The object itself, as an array of one.
    Itself,
    /// One past it.
    Past,
}

/// A number that isn't negative and at most the greatest.
fn up_to(greatest: u64, number: i128) -> Option<u64>
    ensures { result ≡ objects.up_to greatest number }
{
    if 0 <= number && number <= i128::from(greatest) {
        Some(number as u64)
    } else {
        None
    }
}

/// Where a pointer to an object, or one past it, moves, where the object is no element of an array.
fn moved_alone(
    layout: &Layout,
    kind: &ObjectType,
    target: TypeId,
    index: u32,
    count: i128,
) -> Option<Tail>
    requires kind { IsKnownType layout.now kind.now }
    requires target { IsId layout.now target }
    requires count { IsCount count }
    ensures { option_map steps_of result ≡ objects.moved_alone (type_of_object layout.now kind.now) (type_of layout.now target) index count }
{
    if !is_target(layout, kind, target) {
        return None;
    }
    match up_to(1, i128::from(index) + count) {
        Some(0) => Some(Tail::Itself),
        Some(_) => Some(Tail::Past),
        None => None,
    }
}

/// Where a pointer to an element moves within its array.
fn moved_along(
    layout: &Layout,
    whole: &ObjectType,
    target: TypeId,
    number: u32,
    count: i128,
) -> Option<Tail>
    requires whole { IsKnownType layout.now whole.now }
    requires target { IsId layout.now target }
    requires count { IsCount count }
    ensures { option_map steps_of result ≡ objects.moved_along (type_of_object layout.now whole.now) (type_of layout.now target) number count }
{
    match whole {
        ObjectType::Known(whole) => moved_along_known(layout, *whole, target, number, count),
        ObjectType::Text(length) => {
            if is_target(layout, &ObjectType::Character, target) {
                element_at(up_to(*length, i128::from(number) + count))
            } else {
                None
            }
        }
        ObjectType::Void | ObjectType::Character => None,
    }
}

fn moved_along_known(
    layout: &Layout,
    whole: TypeId,
    target: TypeId,
    number: u32,
    count: i128,
) -> Option<Tail>
    requires whole { IsId layout.now whole }
    requires target { IsId layout.now target }
    requires count { IsCount count }
    ensures { option_map steps_of result ≡ objects.moved_along (type_of layout.now whole) (type_of layout.now target) number count }
{
    match layout.types().shape(whole) {
        Shape::Array(element, Some(length)) => {
            if is_target(layout, &ObjectType::Known(*element), target) {
                element_at(up_to(*length, i128::from(number) + count))
            } else {
                None
            }
        }
        _ => None,
    }
}

fn element_at(number: Option<u64>) -> Option<Tail>
    ensures { option_map steps_of result ≡ option_map (λ index. values.part index ∷ []) number }
{
    match number {
        Some(number) => Some(Tail::Element(number)),
        None => None,
    }
}

/// Whether the last step of a path is one to an element of an array.
fn is_last_element(layout: &Layout, whole: &ObjectType, rest: &[Part]) -> bool
    requires { IsKnownType layout.now whole.now }
    ensures { result ≡ (objects.is_array (type_of_object layout.now whole.now) && (length rest.now == 0)) }
{
    is_array(layout, whole) && rest.is_empty()
}

/// How many steps of a path stay, and what follows them, where a pointer moves by so many elements of its target's type. None
/// where it leaves the array and one past its end, or there is no array of such elements.
pub fn moved(
    layout: &Layout,
    kind: ObjectType,
    target: TypeId,
    steps: &[Part],
    count: i128,
) -> Option<(usize, Tail)>
    requires kind { IsKnownType layout.now kind }
    requires target { IsId layout.now target }
    requires count { IsCount count }
    ensures { moved_path (map view_of_part steps.now) result ≡ objects.moved_in (laid_out layout.now) (type_of_object layout.now kind) (type_of layout.now target) (map view_of_part steps.now) count }
{
    let mut at = kind;
    let mut left = steps;
    let mut stays = 0;
    while let Some((first, rest)) = left.split_first() {
        let Part::Inner(number) = first else {
            return behind(stays, one_past(layout, &at, target, rest, count));
        };
        let whole = bare_kind(layout, &at);
        if is_last_element(layout, &whole, rest) {
            return behind(stays, moved_along(layout, &whole, target, *number, count));
        }
        at = inner(layout, &whole, *number);
        left = rest;
        stays += 1;
    }
    behind(stays, moved_alone(layout, &at, target, 0, count))
}

/// Where a pointer to one past an object moves, where nothing follows in its path.
fn one_past(
    layout: &Layout,
    kind: &ObjectType,
    target: TypeId,
    rest: &[Part],
    count: i128,
) -> Option<Tail>
    requires kind { IsKnownType layout.now kind.now }
    requires target { IsId layout.now target }
    requires count { IsCount count }
    ensures { option_map steps_of result
        ≡ objects.moved_in (laid_out layout.now) (type_of_object layout.now kind.now) (type_of layout.now target) (values.past ∷ map view_of_part rest.now) count }
{
    if rest.is_empty() {
        moved_alone(layout, kind, target, 1, count)
    } else {
        None
    }
}

fn behind(stays: usize, tail: Option<Tail>) -> Option<(usize, Tail)>
    ensures { (path : values.Path) → moved_path path result ≡ option_map (λ last. take stays path ++ last) (option_map steps_of tail) }
{
    match tail {
        Some(tail) => Some((stays, tail)),
        None => None,
    }
}
