//! What follows for the programs of aligned units.

ghost use Rattle.std.specs.Prelude.{◌≡◌, ℕ, Bool, IsTrue, List, Some, length};
ghost use Rattle.std.specs.List.{AllByRecursion};
ghost use Rattle.dm_runs.specs.declared.run.Run.{Run};
ghost use Rattle.dm_type.specs.Tables.{Table};
ghost use Rattle.dm_tree.specs.Trees.{Tree};
ghost use Rattle.dm_tree.specs.Typing.{IsWellTypedUnit};
ghost use Rattle.dm_tree.specs.Units.{TypedUnit};
ghost use Rattle.dm_meaning.specs.Refinement.{Refines};
ghost use Rattle.dm_meaning.specs.Units.{machine_of, program_of};
ghost use Rattle.dm_sound.specs.TypedRuns.{IsTypedProgram};
ghost use Rattle.dm_effect.specs.Scoped.{IsScopedUnit};
ghost use Rattle.dm_agree.specs.Agreement.{added_function};
ghost use Rattle.dm_align.specs.Units.{AreAligned, Insertion, rewriting_of};
ghost use Rattle.dm_plain.specs.Plain.{HasPlainTypes};
ghost use Rattle.dm_late.specs.Settled.{erased_program};
ghost use Rattle.dm_central.specs.ClosedPrograms.{AreAlwaysSafe};
ghost use Rattle.dm_beside.specs.Evaluation.{evaluates_alike};
ghost use Rattle.dm_told.specs.Told.{ArePlacesTold};
ghost use Rattle.dm_standing.specs.Calls.{HasArguments, HasOccurrences, MayCall};
ghost use Rattle.dm_steady.specs.Steady.{IsSafeInPlace};

use dm_late::late_typed_units_refine;
use dm_standing::calls_are_evaluated;

/// Where a function is put in, which is called in place of the runs, the new program refines the old one, if each run keeps the rules 10 and 14: no
/// constant is wanted where it stands, and each argument may be evaluated once, before everything else of the run. Each occurrence stands in its run,
/// and each parameter has one. The places of the old unit are told by their tokens. An argument that stays the same need not be evaluated in any case,
/// if its evaluation can't be undefined. Such arguments are to pass a test where their full expressions stand, and what passes it is to come to
/// something in each state of each run of the old program in which it stands in the full expression under evaluation.
pub fn evaluated_typed_units_refine()
    ensures { (old_types new_types : Table) (old new : TypedUnit) (runs : List Run) (put : Insertion) (f : ℕ) (parameters : List ℕ) (body : Tree)
        (safe : Tree → Bool)
        → IsWellTypedUnit old_types old → IsWellTypedUnit new_types new → IsScopedUnit new → IsTypedProgram (program_of new_types new) → ArePlacesTold old
        → AreAligned old_types new_types old new runs (Some put) → put.added ≡ added_function f parameters body
        → HasPlainTypes new body
        → IsSafeInPlace old_types old safe → AreAlwaysSafe (erased_program (program_of old_types old)) safe
        → AllByRecursion (λ (run : Run). MayCall old_types old run × HasArguments (rewriting_of old_types old runs (Some put)) old (length parameters) run
        × HasOccurrences (rewriting_of old_types old runs (Some put)) old run × IsTrue (evaluates_alike old_types old run)) runs
        → Refines (machine_of (program_of new_types new)) (machine_of (program_of old_types old)) }
{
    calls_are_evaluated();
    late_typed_units_refine();
}
