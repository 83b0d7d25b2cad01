//! Objects that nothing writes while an expression is evaluated.

ghost use Rattle.std.specs.Prelude.{◌≡◌, length, slice_get, IsTrue};
ghost use Rattle.std.specs.List.{list_all};
ghost use Rattle.dm_tree.specs.TypeNumbers.{entry_has_known};
ghost use Rattle.dm_tree.specs.Views.{view, view_of_unit};
ghost use Rattle.dm_effect.specs.Sequencing.{around};
ghost use Rattle.dm_effect.specs.Stable as stable;

use crate::kinds::is_scalar;
use crate::names::{Names, entry_of};
use crate::objects::Objects;
use dm_effect::{Path, is_written_around};
use dm_tree::{Core, CoreUnit, Sort};
use dm_type::Types;

/// The automatic objects of scalar types of which no address is taken in a unit, and which neither what stands at a place of a full
/// expression nor an operand that is unsequenced to it writes.
#[derive(Drop)]
pub(crate) struct Kept<'a> {
    pub unit: &'a CoreUnit,
    pub objects: &'a Objects<'a>,
    pub types: &'a Types,
    pub full: &'a Core,
    pub at: &'a Path,
    ghost known: { IsTrue (list_all (entry_has_known (length types.now.shapes)) unit.now.declared) },
    ghost same: { objects.now ≡ unit.now },
}

impl<'a> Names for Kept<'a> {
    ghost test = { λ kept. stable.stays (view_of_unit kept.types.now kept.unit.now) (around kept.at.now (view kept.types.now kept.full.now)) };

    fn pass(&self, object: u32) -> bool {
        if !is_scalar_local(self.unit, self.types, object) {
            return false;
        }
        !self.objects.is_addressed(object) && !is_written_around(self.full, self.at, object)
    }
}

/// Whether an object is an automatic one of a scalar type.
pub fn is_scalar_local(unit: &CoreUnit, types: &Types, object: u32) -> bool
    requires { IsTrue (list_all (entry_has_known (length types.now.shapes)) unit.now.declared) }
    ensures { result ≡ stable.is_scalar_local (slice_get (view_of_unit types.now unit.now).declared object) }
{
    match entry_of(unit, object) {
        Some(entry) => is_automatic(entry.sort) && is_scalar(types, entry.kind),
        None => false,
    }
}

/// Whether it is an object of automatic storage duration.
fn is_automatic(sort: Sort) -> bool
    ensures { result ≡ stable.is_automatic_sort sort }
{
    matches!(sort, Sort::Object { fixed: false })
}
