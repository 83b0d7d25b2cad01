//! Whether two units have the same structs.

ghost use Rattle.std.specs.Prelude.{◌≡◌, ◌<◌, ◌↔◌, All, IfOk, IfSome, IsTrue, length, map, option_map, slice_get};
ghost use Rattle.std.specs.Option.{option_copied};
ghost use Rattle.dm_type.specs.Structs.{AreSameStructs, shown_member, shown_struct};
ghost use Rattle.dm_type.specs.Tables.{IsId};

use crate::entries::is_same_name;
use dm_agree::is_same_type;
use dm_token::{Memory, Text};
use dm_type::{Layout, Member, Types};

/// Whether the structs of two units are the same by number. More than 4,294,967,295 of them count as want of memory.
pub(crate) fn are_same_structs(old: &Types, new: &Types) -> Result<bool, Memory>
    ensures { IfOk result (λ answer. IsTrue answer ↔ AreSameStructs old.now new.now) }
{
    let count = old.struct_count();
    if new.struct_count() != count {
        return Ok(false);
    }
    for number in 0..count {
        let Ok(number) = u32::try_from(number) else {
            return Err(Memory);
        };
        if !is_same_struct(new, old, number) {
            return Ok(false);
        }
    }
    Ok(true)
}

/// Whether two structs have the same tag, members of the same names and types, and the same layout.
fn is_same_struct(new: &Types, old: &Types, number: u32) -> bool
    requires new { number < length new.now.structs }
    requires old { number < length old.now.structs }
    ensures { IsTrue result ↔ (option_map (shown_struct new.now) (slice_get new.now.structs number) ≡ option_map (shown_struct old.now) (slice_get old.now.structs number)) }
{
    is_same_tag(new.tag(number), old.tag(number))
        && is_same_layout(new.layout_of_struct(number), old.layout_of_struct(number))
        && are_same_contents(new, new.members(number), old, old.members(number))
}

fn is_same_tag(tag: Option<&Text>, other: Option<&Text>) -> bool
    ensures { IsTrue result ↔ (option_copied tag.entry ≡ option_copied other.entry) }
{
    match (tag, other) {
        (None, None) => true,
        (Some(tag), Some(other)) => is_same_name(tag, other),
        _ => false,
    }
}

fn is_same_layout(layout: Option<Layout>, other: Option<Layout>) -> bool
    ensures { IsTrue result ↔ (layout ≡ other) }
{
    match (layout, other) {
        (None, None) => true,
        (Some(layout), Some(other)) => layout == other,
        _ => false,
    }
}

/// Whether members, which may not be known, are others.
fn are_same_contents(
    new_types: &Types,
    new: Option<&[Member]>,
    old_types: &Types,
    old: Option<&[Member]>,
) -> bool
    requires new { IfSome new (λ members. All (λ member. IsId new_types.now member.kind) members.now) }
    requires old { IfSome old (λ members. All (λ member. IsId old_types.now member.kind) members.now) }
    ensures { IsTrue result ↔ (option_map (map (shown_member new_types.now)) (option_copied new.entry) ≡ option_map (map (shown_member old_types.now)) (option_copied old.entry)) }
{
    match (new, old) {
        (None, None) => true,
        (Some(new), Some(old)) => are_same_members(new_types, new, old_types, old),
        _ => false,
    }
}

fn are_same_members(new_types: &Types, new: &[Member], old_types: &Types, old: &[Member]) -> bool
    requires new { All (λ member. IsId new_types.now member.kind) new.now }
    requires old { All (λ member. IsId old_types.now member.kind) old.now }
    ensures { IsTrue result ↔ (map (shown_member new_types.now) new.now ≡ map (shown_member old_types.now) old.now) }
{
    if new.len() != old.len() {
        return false;
    }
    for i in 0..new.len() {
        if !is_same_member(new_types, &new[i], old_types, &old[i]) {
            return false;
        }
    }
    true
}

fn is_same_member(new_types: &Types, new: &Member, old_types: &Types, old: &Member) -> bool
    requires new { IsId new_types.now new.now.kind }
    requires old { IsId old_types.now old.now.kind }
    ensures { IsTrue result ↔ (shown_member new_types.now new.now ≡ shown_member old_types.now old.now) }
{
    is_same_name(&new.name, &old.name) && is_same_type(new_types, new.kind, old_types, old.kind)
}
