//! At which byte of its object a part begins (6.5.8p5, 6.5.9p6).

ghost use Rattle.std.specs.Prelude.{◌≡◌, IfOk, map};
ghost use Rattle.dm_type.specs.Layouts.{size_of};
ghost use Rattle.dm_type.specs.Tables.{IsId, type_of};
ghost use Rattle.dm_meaning.specs.Objects as objects;
ghost use Rattle.dm_meaning.specs.Programs.{or_zero};
ghost use Rattle.dm_layout.specs.Kinds.{type_of_object, IsKnownType};
ghost use Rattle.dm_layout.specs.LaidOut.{laid_out};
ghost use Rattle.dm_value.specs.Parts.{view_of_part};

use crate::kinds::{ObjectType, bare_kind, inner};
use crate::layout::Layout;
use dm_token::{MOST_TYPE_BYTES, Memory};
use dm_type::{Shape, TypeId};
use dm_value::Part;

/// The first byte to which a path leads, from the object's first. A number beyond 2 to the 64 counts as want of memory: no object
/// has such a byte.
pub fn byte_of(layout: &Layout, kind: ObjectType, steps: &[Part]) -> Result<u64, Memory>
    requires { IsKnownType layout.now kind }
    ensures { IfOk result (λ byte. byte ≡ objects.byte_of (laid_out layout.now) (type_of_object layout.now kind) (map view_of_part steps.now)) }
{
    let mut at = kind;
    let mut left = steps;
    let mut byte = 0u64;
    while let Some((first, rest)) = left.split_first() {
        let Part::Inner(number) = first else {
            let end = byte.checked_add(size(layout, &at)).ok_or(Memory)?;
            return Ok(end);
        };
        let whole = bare_kind(layout, &at);
        let offset = offset(layout, &whole, *number)?;
        byte = byte.checked_add(offset).ok_or(Memory)?;
        at = inner(layout, &whole, *number);
        left = rest;
    }
    Ok(byte)
}

/// The bytes of an object of a type, 0 where it has no size.
pub fn size(layout: &Layout, kind: &ObjectType) -> u64
    requires { IsKnownType layout.now kind.now }
    ensures { result ≡ or_zero (size_of layout.now (type_of_object layout.now kind.now)) }
{
    match kind {
        ObjectType::Known(kind) => layout.types().size(*kind).unwrap_or(0),
        ObjectType::Void => 0,
        ObjectType::Text(length) => {
            if u128::from(*length) <= MOST_TYPE_BYTES {
                *length
            } else {
                0
            }
        }
        ObjectType::Character => 1,
    }
}

/// The first byte of a part.
fn offset(layout: &Layout, whole: &ObjectType, number: u32) -> Result<u64, Memory>
    requires { IsKnownType layout.now whole.now }
    ensures { IfOk result (λ offset. offset ≡ objects.offset_of (laid_out layout.now) (type_of_object layout.now whole.now) number) }
{
    match whole {
        ObjectType::Known(whole) => Ok(offset_known(layout, *whole, number)?),
        ObjectType::Text(_) => Ok(u64::from(number)),
        ObjectType::Void | ObjectType::Character => Ok(0),
    }
}

fn offset_known(layout: &Layout, whole: TypeId, number: u32) -> Result<u64, Memory>
    requires { IsId layout.now whole }
    ensures { IfOk result (λ offset. offset ≡ objects.offset_of (laid_out layout.now) (type_of layout.now whole) number) }
{
    match layout.types().shape(whole) {
        Shape::Array(element, _) => {
            let size = size(layout, &ObjectType::Known(*element));
            let offset = u64::from(number).checked_mul(size).ok_or(Memory)?;
            Ok(offset)
        }
        Shape::Struct(structure) => Ok(layout.member_offset(*structure, number)),
        _ => Ok(0),
    }
}
