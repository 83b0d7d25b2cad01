//! What the reading of a unit gives to the calls of this crate.

ghost use Rattle.std.specs.Prelude.{length, IsTrue};
ghost use Rattle.std.specs.List.{list_all};
ghost use Rattle.dm_type.specs.Tables.{Table};
ghost use Rattle.dm_tree.specs.declared.unit.CoreUnit.{CoreUnit};
ghost use Rattle.dm_tree.specs.TypeNumbers.{IsTypedUnit, entry_has_known};

/// Each number of a type in the entries of a typed unit is that of one of its types.
pub fn typed_units_have_known_entries()
    ensures { (types : Table) (one : CoreUnit) → IsTypedUnit types one → IsTrue (list_all (entry_has_known (length types.shapes)) one.declared) }
{}
