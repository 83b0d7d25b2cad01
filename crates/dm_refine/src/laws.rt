//! What follows for the programs of aligned units.

ghost use Rattle.std.specs.Prelude.{◌≡◌, ℕ, List, [], Option, None, Some, ℤ};
ghost use Rattle.dm_runs.specs.declared.run.Run.{Run};
ghost use Rattle.dm_type.specs.Tables.{Table};
ghost use Rattle.dm_tree.specs.Typing.{IsWellTypedUnit};
ghost use Rattle.dm_tree.specs.Units.{TypedUnit};
ghost use Rattle.dm_meaning.specs.Refinement.{Refines};
ghost use Rattle.dm_meaning.specs.Units.{machine_of, program_of};
ghost use Rattle.dm_effect.specs.Scoped.{IsScopedUnit};
ghost use Rattle.dm_sound.specs.TypedTrees.{IsSoundTable};
ghost use Rattle.dm_agree.specs.Agreement.{added_constant};
ghost use Rattle.dm_align.specs.Units.{Insertion, AreAligned, added_by};
ghost use Rattle.dm_refine.specs.Kinds.{IsNoFunction};

use dm_rewrite::named_units_refine;

/// Where nothing is put in, as in a unit that doesn't read the definition, each of the two programs refines the other.
pub fn unread_units_refine()
    ensures new { (old_types new_types : Table) (old new : TypedUnit) (runs : List Run)
        → IsWellTypedUnit old_types old → IsWellTypedUnit new_types new → AreAligned old_types new_types old new runs None
        → Refines (machine_of (program_of new_types new)) (machine_of (program_of old_types old)) }
    ensures old { (old_types new_types : Table) (old new : TypedUnit) (runs : List Run)
        → IsWellTypedUnit old_types old → IsWellTypedUnit new_types new → AreAligned old_types new_types old new runs None
        → Refines (machine_of (program_of old_types old)) (machine_of (program_of new_types new)) }
{}

/// Where a const object is put in, whose value is read in place of the runs, the new program refines the old one. The units need be well typed
/// and scoped: what wants a constant is none where an object is read (6.6p6), and no object of file scope is automatic.
pub fn named_constant_units_refine()
    ensures { (old_types new_types : Table) (old new : TypedUnit) (runs : List Run) (put : Insertion) (d : ℕ) (value : ℤ)
        → IsSoundTable new_types → IsWellTypedUnit old_types old → IsWellTypedUnit new_types new → IsScopedUnit new
        → AreAligned old_types new_types old new runs (Some put) → put.added ≡ added_constant d value
        → Refines (machine_of (program_of new_types new)) (machine_of (program_of old_types old)) }
{
    // The law on which its proof rests.
    named_units_refine();
}

/// So the new program refines the old one wherever the macro has no parameter list, and nothing, an enumerator or a const object is put in. That
/// the table is sound, and the units well typed and scoped, each reading gives.
pub fn object_like_macros_refine()
    ensures { (old_types new_types : Table) (old new : TypedUnit) (runs : List Run) (put : Option Insertion)
        → IsSoundTable new_types → IsWellTypedUnit old_types old → IsWellTypedUnit new_types new → IsScopedUnit new
        → AreAligned old_types new_types old new runs put → IsNoFunction (added_by put)
        → Refines (machine_of (program_of new_types new)) (machine_of (program_of old_types old)) }
{
    // The law on which its proof rests.
    named_constant_units_refine();
}
