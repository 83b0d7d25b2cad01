//! Whether the declarations of two units are the same.

ghost use Rattle.std.specs.Prelude.{◌≡◌, ◌+◌, ◌<◌, ◌↔◌, IsTrue, length, map, Some};
ghost use Rattle.std.specs.List.{list_all};
ghost use Rattle.dm_type.specs.Tables.{IsId};
ghost use Rattle.dm_tree.specs.TypeNumbers.{entry_has_known};
ghost use Rattle.dm_tree.specs.Views.{entries_of, view_of_declared};
ghost use Rattle.dm_align.specs.Units.{entry_of, without};

use crate::slices::around;
use dm_agree::{Block, is_same_type};
use dm_token::Text;
use dm_tree::{Declared, Linkage, Sort};
use dm_type::Types;

/// Whether the new declarations without a block are the old ones, places apart.
pub(crate) fn are_other_entries(
    new_types: &Types,
    new: &[Declared],
    block: Block,
    old_types: &Types,
    old: &[Declared],
) -> bool
    requires new { IsTrue (list_all (entry_has_known (length new_types.now.shapes)) new.now) }
    requires old { IsTrue (list_all (entry_has_known (length old_types.now.shapes)) old.now) }
    ensures { IsTrue result ↔ (map entry_of (without block.first block.count (entries_of new_types.now new.now)) ≡ map entry_of (entries_of old_types.now old.now)) }
{
    let (front, back) = around(new, block.first as usize, block.count as usize);
    if old.len() < front.len() {
        return false;
    }
    let (before, behind) = old.split_at(front.len());
    are_same_entries(new_types, front, old_types, before)
        && are_same_entries(new_types, back, old_types, behind)
}

/// Whether declarations are others one by one, places apart.
pub(crate) fn are_same_entries(
    new_types: &Types,
    new: &[Declared],
    old_types: &Types,
    old: &[Declared],
) -> bool
    requires new { IsTrue (list_all (entry_has_known (length new_types.now.shapes)) new.now) }
    requires old { IsTrue (list_all (entry_has_known (length old_types.now.shapes)) old.now) }
    ensures { IsTrue result ↔ (map entry_of (entries_of new_types.now new.now) ≡ map entry_of (entries_of old_types.now old.now)) }
{
    if new.len() != old.len() {
        return false;
    }
    for i in 0..new.len() {
        if !is_same_entry(new_types, &new[i], old_types, &old[i]) {
            return false;
        }
    }
    true
}

/// Whether the names, sorts, types and linkage of two declarations are the same.
fn is_same_entry(new_types: &Types, new: &Declared, old_types: &Types, old: &Declared) -> bool
    requires new { IsId new_types.now new.now.kind }
    requires old { IsId old_types.now old.now.kind }
    ensures { IsTrue result ↔ (entry_of (view_of_declared new_types.now new.now) ≡ entry_of (view_of_declared old_types.now old.now)) }
{
    is_same_name(&new.name, &old.name)
        && is_same_sort(new.sort, old.sort)
        && is_same_linkage(new.linkage, old.linkage)
        && is_same_type(new_types, new.kind, old_types, old.kind)
}

/// Whether two names have the same bytes.
pub(crate) fn is_same_name(name: &Text, other: &Text) -> bool
    ensures { IsTrue result ↔ (name.now ≡ other.now) }
{
    name == other
}

fn is_same_sort(sort: Sort, other: Sort) -> bool
    ensures { IsTrue result ↔ (sort ≡ other) }
{
    sort == other
}

fn is_same_linkage(linkage: Linkage, other: Linkage) -> bool
    ensures { IsTrue result ↔ (linkage ≡ other) }
{
    linkage == other
}
