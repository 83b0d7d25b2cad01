//! First values of objects that have a list of initialisers in braces (6.7.9p16 to p21).

ghost use Rattle.std.specs.Prelude.{◌≡◌, ◌++◌, IfOk, OnOk, length, map, take, drop};
ghost use Rattle.dm_layout.specs.Kinds.{type_of_object, IsKnownType};
ghost use Rattle.dm_layout.specs.LaidOut.{laid_out};
ghost use Rattle.dm_meaning.specs.Objects.{all_zero};
ghost use Rattle.dm_meaning.specs.Statements as statements;
ghost use Rattle.dm_meaning.specs.Values as values;
ghost use Rattle.dm_value.specs.Views.{view_of_value};

use crate::filled::Scalars;
use crate::object::first_of;
use dm_layout::{Layout, ObjectType};
use dm_token::Memory;
use dm_value::Value;
use std::alloc::Global;

/// The value of an object when a list in braces begins: so many of its first parts stay as they were before until their
/// initialisers are evaluated, and the others are 0 (6.7.9p19, p21).
pub fn listed_value(
    alloc: Global,
    layout: &Layout,
    kind: &ObjectType,
    count: usize,
    before: &Value,
) -> Result<Value, Memory>
    requires { IsKnownType layout.now kind.now }
    ensures { IfOk result (λ value. view_of_value value ≡ statements.value_listed (laid_out layout.now) (type_of_object layout.now kind.now) count (view_of_value before.now)) }
{
    let mut given = Vec::new(alloc);
    append(&mut given, front(before.all_parts(), count))?;
    let value = followed_by_zeros(alloc, layout, kind, given, count)?;
    Ok(value)
}

/// The value of an object whose first parts have these values, and the others are 0.
pub fn completed(
    alloc: Global,
    layout: &Layout,
    kind: &ObjectType,
    given: Vec<Value>,
) -> Result<Value, Memory>
    requires { IsKnownType layout.now kind.now }
    ensures { IfOk result (λ value. view_of_value value ≡ values.parts (values.values (map view_of_value given.items
        ++ drop (length given.items) (values.parts_in (all_zero (laid_out layout.now) (type_of_object layout.now kind.now)))))) }
{
    let count = given.len();
    let value = followed_by_zeros(alloc, layout, kind, given, count)?;
    Ok(value)
}

/// The value of these parts and, behind them, those of 0 from a number on.
fn followed_by_zeros(
    alloc: Global,
    layout: &Layout,
    kind: &ObjectType,
    given: Vec<Value>,
    count: usize,
) -> Result<Value, Memory>
    requires { IsKnownType layout.now kind.now }
    ensures { IfOk result (λ value. view_of_value value ≡ values.parts (values.values (map view_of_value given.items
        ++ drop count (values.parts_in (all_zero (laid_out layout.now) (type_of_object layout.now kind.now)))))) }
{
    let zero = first_of(alloc, layout, Scalars::Zero, kind)?;
    let mut parts = given;
    append(&mut parts, behind(zero.all_parts(), count))?;
    let value = Value::of_parts(alloc, parts)?;
    Ok(value)
}

/// The first values, at most so many.
fn front(all: &[Value], count: usize) -> &[Value]
    ensures { result.now ≡ take count all.now }
{
    if count < all.len() {
        all.split_at(count).0
    } else {
        all
    }
}

/// The values behind the first, of which there are so many.
fn behind(all: &[Value], count: usize) -> &[Value]
    ensures { result.now ≡ drop count all.now }
{
    if count < all.len() {
        all.split_at(count).1
    } else {
        &[]
    }
}

/// Puts copies of values behind others.
fn append(all: &mut Vec<Value>, more: &[Value]) -> Result<(), Memory>
    ensures { OnOk result (map view_of_value all.new.items ≡ map view_of_value all.old.items ++ map view_of_value more.now) }
{
    for value in more {
        all.push(value.copy()?)?;
    }
    Ok(())
}
