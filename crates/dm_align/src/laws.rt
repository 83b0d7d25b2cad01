//! What follows from the definitions.

ghost use Rattle.std.specs.Prelude.{◌≡◌, ℕ, List, [], Option, None, Some, option_map, slice_get};
ghost use Rattle.dm_runs.specs.declared.run.Run.{Run};
ghost use Rattle.dm_type.specs.Tables.{Table};
ghost use Rattle.dm_tree.specs.Units.{TypedUnit};
ghost use Rattle.dm_align.specs.Units.{AreAligned, Insertion, IsPut, moved, entry_of};

/// A unit is aligned with itself where nothing is put in and no run stands.
pub fn units_are_aligned_with_themselves()
    ensures { (types : Table) (one : TypedUnit) → AreAligned types types one one [] None }
{}

/// Each old declaration has a number of its own among the new ones, which is none of what is put in, and there it has its name, sort, type
/// and linkage.
pub fn old_declarations_have_new_numbers()
    ensures injective { (put : Option Insertion) (c d : ℕ) → moved put c ≡ moved put d → c ≡ d }
    ensures apart { (put : Insertion) (d : ℕ) → ¬ IsPut put (moved (Some put) d) }
    ensures told { (old_types new_types : Table) (old new : TypedUnit) (runs : List Run) (put : Option Insertion)
        → AreAligned old_types new_types old new runs put
        → (d : ℕ) → option_map entry_of (slice_get new.declared (moved put d)) ≡ option_map entry_of (slice_get old.declared d) }
{}
