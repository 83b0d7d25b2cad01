//! First values of objects (6.7.9p10).

ghost use Rattle.std.specs.Prelude.{◌≡◌, replicate, IfOk};
ghost use Rattle.dm_type.specs.CTypes as ctypes;
ghost use Rattle.dm_type.specs.CTypes.{CType};
ghost use Rattle.dm_type.specs.Tables.{Has, IsId, type_of};
ghost use Rattle.dm_layout.specs.LaidOut.{laid_out};
ghost use Rattle.dm_meaning.specs.Objects as objects;
ghost use Rattle.dm_value.specs.Views.{view_of_value};
ghost use Rattle.dm_meaning.specs.Values as values;
ghost use Rattle.dm_first_value.specs.Firsts.{scalar_of};

use dm_int::Kind;
use dm_layout::{Element, Layout};
use dm_token::Memory;
use dm_type::{Shape, TypeId};
use dm_value::{Integer, Pointer, Value};
use std::alloc::Global;

/// The first value of the scalars of an object.
#[derive(Clone, Copy)]
pub enum Scalars {
    /// They aren't set.
    Unset,
    /// Each is 0 or a null pointer.
    Zero,
}

impl Scalars {
    /// That of an integer.
    pub(crate) fn integer(self, kind: Kind) -> Value
        ensures { view_of_value result ≡ scalar_of self (ctypes.integer kind) }
    {
        match self {
            Scalars::Unset => Value::Unset,
            Scalars::Zero => Value::Integer(Integer::new(kind, 0)),
        }
    }

    /// That of a pointer.
    fn pointer(self) -> Value
        ensures { (type : CType) → view_of_value result ≡ scalar_of self (ctypes.pointer type) }
    {
        match self {
            Scalars::Unset => Value::Unset,
            Scalars::Zero => Value::Pointer(Pointer::Null),
        }
    }
}

/// The first value of an object of a type.
pub fn first_value(
    alloc: Global,
    layout: &Layout,
    scalars: Scalars,
    kind: TypeId,
) -> Result<Value, Memory>
    requires { IsId layout.now kind }
    ensures { IfOk result (λ value. view_of_value value ≡ objects.filled_with (laid_out layout.now) (scalar_of scalars) (type_of layout.now kind)) }
{
    let depth = layout.types().struct_count();
    let value = filled(alloc, layout, scalars, depth, kind)?;
    Ok(value)
}

/// The same, in which so many structs may lie within each other.
#[cycle(first)]
fn filled(
    alloc: Global,
    layout: &Layout,
    scalars: Scalars,
    depth: usize,
    kind: TypeId,
) -> Result<Value, Memory>
    requires { IsId layout.now kind }
    ensures { IfOk result (λ value. view_of_value value
        ≡ objects.filled (scalar_of scalars) (objects.filled_struct (laid_out layout.now) (scalar_of scalars) depth) (type_of layout.now kind)) }
{
    match layout.types().shape(kind) {
        Shape::Array(element, Some(count)) => {
            let first = filled(alloc, layout, scalars, depth, *element)?;
            let value = repeated(alloc, first, *count)?;
            Ok(value)
        }
        Shape::Struct(structure) => {
            let value = filled_struct(alloc, layout, scalars, depth, kind, *structure)?;
            Ok(value)
        }
        Shape::Const(inner) => {
            let value = filled(alloc, layout, scalars, depth, *inner)?;
            Ok(value)
        }
        Shape::Integer(kind) => Ok(scalars.integer(*kind)),
        Shape::Pointer(_) => Ok(scalars.pointer()),
        _ => Ok(Value::Unset),
    }
}

/// The first value of a struct.
#[cycle(first)]
fn filled_struct(
    alloc: Global,
    layout: &Layout,
    scalars: Scalars,
    depth: usize,
    kind: TypeId,
    structure: u32,
) -> Result<Value, Memory>
    requires { Has layout.now kind (ctypes.struct structure) }
    ensures { IfOk result (λ value. view_of_value value ≡ objects.filled_struct (laid_out layout.now) (scalar_of scalars) depth structure) }
{
    if depth == 0 {
        return Ok(Value::Unset);
    }
    let mut number = 0u32;
    let mut values = Vec::new(alloc);
    while let Element::Of(member) = layout.element(kind, number) {
        values.push(filled(alloc, layout, scalars, depth - 1, member)?)?;
        number = number.checked_add(1).ok_or(Memory)?;
    }
    let value = Value::of_parts(alloc, values)?;
    Ok(value)
}

/// An array of so many elements of one value.
pub(crate) fn repeated(alloc: Global, value: Value, count: u64) -> Result<Value, Memory>
    ensures { IfOk result (λ array. view_of_value array ≡ values.parts (values.values (replicate count (view_of_value value)))) }
{
    let mut all = Vec::new(alloc);
    for _ in 0..count {
        all.push(value.copy()?)?;
    }
    let array = Value::of_parts(alloc, all)?;
    Ok(array)
}
