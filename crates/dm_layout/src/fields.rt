//! Where the members of structs begin (6.7.2.1p15).

ghost use Rattle.std.specs.Prelude.{◌≡◌, ◌<◌, All, IfOk, length, map, option_map};
ghost use Rattle.dm_type.specs.Layouts as layouts;
ghost use Rattle.dm_type.specs.Tables.{IsId, members_of, type_of};
ghost use Rattle.dm_meaning.specs.Programs.{fields_in};
ghost use Rattle.dm_layout.specs.Fields.{view_of_field};

use crate::layout::Field;
use dm_token::{List, Memory};
use dm_type::{TypeId, Types};
use std::alloc::Global;

/// The members of a struct, none where they aren't known. One whose type has no size ends them.
pub(crate) fn fields(alloc: Global, types: &Types, number: u32) -> Result<List<Field>, Memory>
    requires { number < length types.now.structs }
    ensures same { IfOk result (λ fields. map (view_of_field types.now) fields ≡ fields_in types.now (members_of types.now number)) }
    ensures known { IfOk result (λ fields. All (λ field. IsId types.now field.kind) fields) }
{
    let mut fields = Vec::new(alloc);
    let Some(members) = types.members(number) else {
        return Ok(List::from_vec(fields));
    };
    let mut left = members;
    let mut end = 0;
    while let Some((member, rest)) = left.split_first() {
        let Some((size, alignment)) = room(types, member.kind) else {
            return Ok(List::from_vec(fields));
        };
        let offset = rounded_up(alignment, end)?;
        fields.push(Field {
            kind: member.kind,
            offset,
        })?;
        end = offset.checked_add(size).ok_or(Memory)?;
        left = rest;
    }
    Ok(List::from_vec(fields))
}

/// How many bytes an object of a type takes, and of what its address is a multiple, if it has a size.
fn room(types: &Types, id: TypeId) -> Option<(u64, u64)>
    requires { IsId types.now id }
    ensures { result ≡ option_map (λ layout. (layout.size, layout.alignment)) (layouts.layout_of types.now (type_of types.now id)) }
{
    match (types.size(id), types.alignment(id)) {
        (Some(size), Some(alignment)) => Some((size, alignment)),
        _ => None,
    }
}

/// The least multiple of an alignment that isn't below a number of bytes. A struct that is larger than can be said counts as
/// want of memory.
fn rounded_up(alignment: u64, bytes: u64) -> Result<u64, Memory>
    ensures { IfOk result (λ offset. offset ≡ layouts.round_up alignment bytes) }
{
    if alignment == 0 {
        return Ok(0);
    }
    let whole = bytes.checked_add(alignment - 1).ok_or(Memory)?;
    Ok(whole / alignment * alignment)
}
