//! First values of objects whose types need not have a number.

ghost use Rattle.std.specs.Prelude.{◌≡◌, IfOk};
ghost use Rattle.dm_int.specs.declared.Kind.TheVariants.{Char};
ghost use Rattle.dm_layout.specs.Kinds.{type_of_object, IsKnownType};
ghost use Rattle.dm_layout.specs.LaidOut.{laid_out};
ghost use Rattle.dm_meaning.specs.Objects as objects;
ghost use Rattle.dm_value.specs.Views.{view_of_value};
ghost use Rattle.dm_first_value.specs.Firsts.{scalar_of};

use crate::filled::{Scalars, first_value, repeated};
use dm_int::Kind;
use dm_layout::{Layout, ObjectType};
use dm_token::Memory;
use dm_value::Value;
use std::alloc::Global;

/// The first value of an object of a type.
pub(crate) fn first_of(
    alloc: Global,
    layout: &Layout,
    scalars: Scalars,
    kind: &ObjectType,
) -> Result<Value, Memory>
    requires { IsKnownType layout.now kind.now }
    ensures { IfOk result (λ value. view_of_value value ≡ objects.filled_with (laid_out layout.now) (scalar_of scalars) (type_of_object layout.now kind.now)) }
{
    match kind {
        ObjectType::Known(kind) => first_value(alloc, layout, scalars, *kind),
        ObjectType::Void => Ok(Value::Unset),
        ObjectType::Text(length) => repeated(alloc, scalars.integer(Kind::Char), *length),
        ObjectType::Character => Ok(scalars.integer(Kind::Char)),
    }
}
