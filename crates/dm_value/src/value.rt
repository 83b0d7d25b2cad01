//! Values, and their parts (6.2.6).

ghost use Rattle.std.specs.Prelude.{◌≡◌, ◌∷◌, [], IfOk, None, Some, MatchOption, map};
ghost use Rattle.dm_meaning.specs.Causes as causes;
ghost use Rattle.dm_meaning.specs.Causes.{is_unset};
ghost use Rattle.dm_meaning.specs.Memory.{or_unset};
ghost use Rattle.dm_meaning.specs.Values as values;
ghost use Rattle.dm_value.specs.Parts.{view_of_part};
ghost use Rattle.dm_value.specs.Views.{view_of_pointer, view_of_value};

use crate::integer::Integer;
use crate::items::nth;
use crate::path::Part;
use crate::place::At;
use dm_token::{List, Memory};
use std::rc::Rc;

/// A pointer. Those to one place may share it.
#[derive(Drop)]
pub enum Pointer {
    Null,
    To(Rc<At>),
}

/// A value. Copies of one share its parts.
#[derive(Drop)]
pub enum Value {
    Integer(Integer),
    Pointer(Pointer),
    /// The members of a struct, or the elements of an array.
    Parts(Rc<List<Value>>),
    /// A scalar that was never set.
    Unset,
}

impl Pointer {
    /// The same pointer. It fails only where a counter of owners is full.
    pub fn copy(&self) -> Result<Pointer, Memory>
        ensures { IfOk result (λ pointer. view_of_pointer pointer ≡ view_of_pointer self.now) }
    {
        match self {
            Pointer::Null => Ok(Pointer::Null),
            Pointer::To(at) => Ok(Pointer::To(at.clone()?)),
        }
    }

    pub fn is_null(&self) -> bool
        ensures { result ≡ causes.is_null (view_of_pointer self.now) }
    {
        match self {
            Pointer::Null => true,
            Pointer::To(_) => false,
        }
    }

    /// Whether two pointers point into one object.
    pub fn in_one_object(&self, other: &Pointer) -> bool
        ensures { result ≡ causes.in_one_object (view_of_pointer self.now) (view_of_pointer other.now) }
    {
        match (self, other) {
            (Pointer::To(at), Pointer::To(another)) => at
                .as_ref()
                .name
                .is_same(&another.as_ref().name),
            _ => false,
        }
    }
}

impl Value {
    /// The same value. It fails only where a counter of owners is full.
    pub fn copy(&self) -> Result<Value, Memory>
        ensures { IfOk result (λ value. view_of_value value ≡ view_of_value self.now) }
    {
        match self {
            Value::Integer(integer) => Ok(Value::Integer(*integer)),
            Value::Pointer(pointer) => Ok(Value::Pointer(pointer.copy()?)),
            Value::Parts(parts) => Ok(Value::Parts(parts.clone()?)),
            Value::Unset => Ok(Value::Unset),
        }
    }

    /// Its parts, none where it has none.
    pub fn all_parts(&self) -> &[Value]
        ensures { map view_of_value result.now ≡ values.parts_in (view_of_value self.now) }
    {
        match self {
            Value::Parts(parts) => parts.as_ref().items(),
            _ => &[],
        }
    }

    /// One of its parts, if there is one of this number.
    fn inner(&self, number: u32) -> Option<&Value>
        ensures { MatchOption result (values.part_value (view_of_value self.now) (values.part number ∷ []) ≡ None)
            (λ inner. values.part_value (view_of_value self.now) (values.part number ∷ []) ≡ Some (view_of_value inner.now)) }
    {
        match self {
            Value::Parts(parts) => nth(parts.as_ref().items(), number as usize),
            _ => None,
        }
    }

    /// The part to which a path leads, if it leads to one.
    pub fn part(&self, steps: &[Part]) -> Option<&Value>
        ensures { MatchOption result (values.part_value (view_of_value self.now) (map view_of_part steps.now) ≡ None)
            (λ inner. values.part_value (view_of_value self.now) (map view_of_part steps.now) ≡ Some (view_of_value inner.now)) }
    {
        let mut at = self;
        let mut left = steps;
        while let Some((first, rest)) = left.split_first() {
            let Part::Inner(number) = first else {
                return None;
            };
            at = at.inner(*number)?;
            left = rest;
        }
        Some(at)
    }

    /// The value of the part to which a path leads, unset where it leads to none.
    pub fn part_or_unset(&self, steps: &[Part]) -> Result<Value, Memory>
        ensures { IfOk result (λ value. view_of_value value ≡ or_unset (values.part_value (view_of_value self.now) (map view_of_part steps.now))) }
    {
        match self.part(steps) {
            Some(inner) => inner.copy(),
            None => Ok(Value::Unset),
        }
    }

    /// Whether it is no value that was set.
    fn is_unset(&self) -> bool
        ensures { result ≡ is_unset (view_of_value self.now) }
    {
        match self {
            Value::Unset => true,
            _ => false,
        }
    }

    /// Whether the part to which a path leads, if it leads to one, is no value that was set.
    pub fn is_unset_part(&self, steps: &[Part]) -> bool
        ensures { result ≡ is_unset (or_unset (values.part_value (view_of_value self.now) (map view_of_part steps.now))) }
    {
        match self.part(steps) {
            Some(inner) => inner.is_unset(),
            None => true,
        }
    }
}
