//! Storing into a part of a value (6.5.16p3).

ghost use Rattle.std.specs.Prelude.{◌≡◌, IfOk, map, slice_set};
ghost use Rattle.dm_meaning.specs.Values as values;
ghost use Rattle.dm_value.specs.Parts.{view_of_part};
ghost use Rattle.dm_value.specs.Closed.{closed};
ghost use Rattle.dm_value.specs.Views.{view_of_value};

use crate::path::Part;
use crate::value::Value;
use dm_token::{List, Memory};
use std::alloc::Global;
use std::mem;
use std::rc::Rc;

/// A value that was taken apart: its parts, and the number of the one that was taken out.
#[derive(Drop)]
struct Opened {
    parts: Vec<Value>,
    number: usize,
}

impl Value {
    /// The value of these parts.
    pub fn of_parts(alloc: Global, parts: Vec<Value>) -> Result<Value, Memory>
        ensures { IfOk result (λ value. view_of_value value ≡ values.parts (values.values (map view_of_value parts.items))) }
    {
        let parts = Rc::new(alloc, List::from_vec(parts))?;
        Ok(Value::Parts(parts))
    }

    /// The parts of a value, which are copied where other values share them.
    fn into_parts(self, alloc: Global) -> Result<Vec<Value>, Memory>
        ensures { IfOk result (λ parts. map view_of_value parts.items ≡ values.parts_in (view_of_value self)) }
    {
        match self {
            Value::Parts(parts) => match Rc::try_unwrap(parts) {
                Ok(parts) => Ok(parts.into_vec()),
                Err(shared) => Ok(copies(alloc, shared.as_ref().items())?),
            },
            _ => Ok(Vec::new(alloc)),
        }
    }

    /// The value with another one in place of the part to which a path leads.
    pub fn with_part(self, alloc: Global, steps: &[Part], new: Value) -> Result<Value, Memory>
        ensures { IfOk result (λ value. view_of_value value ≡ values.with_part (map view_of_part steps.now) (view_of_value new) (view_of_value self)) }
    {
        let mut outer = Vec::new(alloc);
        let mut at = self;
        let mut left = steps;
        while let Some((first, rest)) = left.split_first() {
            let Part::Inner(number) = first else {
                return Ok(close(alloc, outer, at)?);
            };
            let number = *number as usize;
            let mut parts = at.into_parts(alloc)?;
            if parts.len() <= number {
                let whole = Value::of_parts(alloc, parts)?;
                return Ok(close(alloc, outer, whole)?);
            }
            at = mem::replace(&mut parts[number], Value::Unset);
            outer.push(Opened { parts, number })?;
            left = rest;
        }
        Ok(close(alloc, outer, new)?)
    }
}

/// Copies of values.
fn copies(alloc: Global, all: &[Value]) -> Result<Vec<Value>, Memory>
    ensures { IfOk result (λ copies. map view_of_value copies.items ≡ map view_of_value all.now) }
{
    let mut copies = Vec::new(alloc);
    for value in all {
        copies.push(value.copy()?)?;
    }
    Ok(copies)
}

/// What was taken apart, the outermost first, with a value in place of the innermost part.
fn close(alloc: Global, outer: Vec<Opened>, inner: Value) -> Result<Value, Memory>
    ensures { IfOk result (λ value. view_of_value value ≡ closed outer.items (view_of_value inner)) }
{
    let mut outer = outer;
    let mut at = inner;
    while let Some(opened) = outer.pop() {
        let Opened { parts, number } = opened;
        at = Value::of_parts(alloc, replaced(parts, number, at))?;
    }
    Ok(at)
}

/// The parts with another one in place of that of a number, where there is one.
fn replaced(parts: Vec<Value>, number: usize, value: Value) -> Vec<Value>
    ensures { result.items ≡ slice_set parts.items number value }
{
    let mut parts = parts;
    if number < parts.len() {
        parts[number] = value;
    }
    parts
}
