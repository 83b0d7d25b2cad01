//! Objects that have a value.

ghost use Rattle.std.specs.Prelude.{◌≡◌, length, IsTrue};
ghost use Rattle.std.specs.List.{list_all};
ghost use Rattle.dm_type.specs.Tables.{Table};
ghost use Rattle.dm_tree.specs.TypeNumbers.{entry_has_known};
ghost use Rattle.dm_tree.specs.Views.{view, view_of_unit};
ghost use Rattle.dm_effect.specs.Safe as safe;

use crate::kinds::is_integer;
use crate::names::{Names, entry_of};
use crate::objects::Objects;
use dm_effect::{is_defined, is_initialised, is_parameter};
use dm_tree::{Core, CoreUnit, Sort};
use dm_type::Types;

/// The objects of integer types that have a value where an argument stands.
#[derive(Drop)]
pub(crate) struct Set<'a> {
    pub unit: &'a CoreUnit,
    pub types: &'a Types,
    pub argument: &'a Core,
    ghost known: { IsTrue (list_all (entry_has_known (length types.now.shapes)) unit.now.declared) },
}

impl<'a> Names for Set<'a> {
    ghost test = { λ set. safe.is_set (view_of_unit set.types.now set.unit.now) (view set.types.now set.argument.now) };

    fn pass(&self, object: u32) -> bool {
        match entry_of(self.unit, object) {
            Some(entry) => {
                is_integer(self.types, entry.kind)
                    && is_set(self.unit, self.argument, object, entry.sort)
            }
            None => false,
        }
    }
}

/// Whether an object of this sort has a value there.
fn is_set(unit: &CoreUnit, argument: &Core, object: u32, sort: Sort) -> bool
    ensures { (types : Table) → result ≡ safe.is_set_sort (view_of_unit types unit.now) (view types argument.now) object sort }
{
    match sort {
        Sort::Object { fixed: true } => is_defined(unit, object),
        Sort::Object { fixed: false } => {
            is_parameter(unit, object) || is_initialised(unit, argument, object)
        }
        _ => false,
    }
}

/// The same, in a unit of which it is known what its trees do.
#[derive(Drop)]
pub(crate) struct Known<'a> {
    pub unit: &'a CoreUnit,
    pub objects: &'a Objects<'a>,
    pub types: &'a Types,
    pub argument: &'a Core,
    ghost known: { IsTrue (list_all (entry_has_known (length types.now.shapes)) unit.now.declared) },
    ghost same: { objects.now ≡ unit.now },
}

impl<'a> Names for Known<'a> {
    ghost test = { λ set. safe.is_set (view_of_unit set.types.now set.unit.now) (view set.types.now set.argument.now) };

    fn pass(&self, object: u32) -> bool {
        match entry_of(self.unit, object) {
            Some(entry) => {
                is_integer(self.types, entry.kind)
                    && is_known_set(self.objects, self.argument, object, entry.sort)
            }
            None => false,
        }
    }
}

/// Whether an object of this sort has a value there.
fn is_known_set(objects: &Objects, argument: &Core, object: u32, sort: Sort) -> bool
    ensures { (types : Table) → result ≡ safe.is_set_sort (view_of_unit types objects.now) (view types argument.now) object sort }
{
    match sort {
        Sort::Object { fixed: true } => objects.is_defined(object),
        Sort::Object { fixed: false } => {
            objects.is_parameter(object) || objects.is_initialised(argument, object)
        }
        _ => false,
    }
}
