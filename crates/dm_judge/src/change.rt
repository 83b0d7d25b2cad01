//! What definitions become.

ghost use Rattle.std.specs.Prelude.{◌≡◌, All, IfOk};
ghost use Rattle.dm_type.specs.Tables.{IsId, type_of};
ghost use Rattle.dm_beside.specs.Places.{is_int as is_seen_int};
ghost use Rattle.dm_judge.specs.Changes as changes;

use crate::head::{head_of, tail_of};
use crate::signature::Signature;
use dm_edit::{As, Change};
use dm_int::Kind;
use dm_reading::copy_of_definition;
use dm_token::{Definition, Memory, Text};
use dm_type::{Shape, TypeId, Types};
use std::alloc::Global;

/// Whether the type is `int`.
fn is_int(types: &Types, id: TypeId) -> bool
    requires { IsId types.now id }
    ensures { result ≡ is_seen_int (type_of types.now id) }
{
    matches!(types.shape(id), Shape::Integer(Kind::Int))
}

/// The kind of declaration that a definition becomes, by the type of what its expansion leaves.
fn kind_with(definition: &Definition, types: &Types, id: TypeId) -> As
    requires { IsId types.now id }
    ensures { result ≡ changes.kind_with definition.now (type_of types.now id) }
{
    if definition.parameters.is_some() {
        As::Function
    } else if is_int(types, id) {
        As::Enumerator
    } else {
        As::Constant
    }
}

/// What a definition becomes, with the types of an expansion. Only structs of these numbers may be named. None where a
/// type can't be spelled.
pub fn change_with(
    alloc: Global,
    definition: &Definition,
    types: &Types,
    visible: &[u32],
    signature: &Signature,
) -> Result<Option<Change>, Memory>
    requires result { IsId types.now signature.now.result }
    requires parameters { All (λ one. IsId types.now one.kind) signature.now.parameters }
    ensures { IfOk result (λ change. change ≡ changes.change_with types.now visible.now definition.now (changes.signature_over types.now signature.now)) }
{
    let kind = kind_with(definition, types, signature.result);
    match head_of(alloc, kind, definition, types, visible, signature)? {
        None => Ok(None),
        Some(head) => Ok(Some(Change {
            definition: copy_of_definition(alloc, definition)?,
            kind,
            head,
            tail: Text::new(alloc, tail_of(kind))?,
        })),
    }
}
