ghost use Rattle.std.specs.Prelude.{◌≡◌, ℕ, IsTrue, List, Some, length};
ghost use Rattle.std.specs.List.{AllByRecursion};
ghost use Rattle.dm_runs.specs.declared.run.Run.{Run};
ghost use Rattle.dm_type.specs.Tables.{Table};
ghost use Rattle.dm_tree.specs.Trees.{Tree};
ghost use Rattle.dm_tree.specs.Typing.{IsWellTypedUnit};
ghost use Rattle.dm_tree.specs.Units.{TypedUnit};
ghost use Rattle.dm_meaning.specs.Refinement.{Refines};
ghost use Rattle.dm_meaning.specs.Units.{machine_of, program_of};
ghost use Rattle.dm_sound.specs.TypedRuns.{IsTypedProgram};
ghost use Rattle.dm_effect.specs.Scoped.{IsScopedUnit};
ghost use Rattle.dm_initialised.specs.Once.{IsDeclaredOnce};
ghost use Rattle.dm_scoped.specs.Spans.{IsLaidOutUnit};
ghost use Rattle.dm_agree.specs.Agreement.{added_function};
ghost use Rattle.dm_align.specs.Units.{AreAligned, Insertion, rewriting_of};
ghost use Rattle.dm_plain.specs.Plain.{HasPlainTypes};
ghost use Rattle.dm_late.specs.Settled.{erased_program};
ghost use Rattle.dm_central.specs.ClosedPrograms.{AreAlwaysSafe};
ghost use Rattle.dm_beside.specs.Evaluation.{evaluates_alike};
ghost use Rattle.dm_standing.specs.Calls.{HasArguments, HasOccurrences, MayCall};
ghost use Rattle.dm_steady.specs.Steady.{IsSafeInPlace};
ghost use Rattle.dm_in_place.specs.InPlace.{is_safe_in_place};

use dm_in_place::{safe_arguments_are_safe_in_place, set_objects_are_declared};
use dm_initialised::{first_values_are_given, units_give_settled_programs};
use dm_settled::settled_safe_expressions_always_come;
use dm_steady::evaluated_typed_units_refine;
use dm_told::places_are_told;

/// The arguments that pass the test come to something in each state of each run of the old program in which they stand in the full expression under
/// evaluation: in a unit that is typed and scoped.
pub fn safe_arguments_always_come()
    ensures { (types : Table) (one : TypedUnit) → IsWellTypedUnit types one → IsScopedUnit one → IsTypedProgram (program_of types one)
        → AreAlwaysSafe (erased_program (program_of types one)) (is_safe_in_place types one) }
{
    first_values_are_given();
    units_give_settled_programs();
    set_objects_are_declared();
    settled_safe_expressions_always_come();
}

/// And the arguments of runs that can't be undefined pass it, where the nodes of the unit stand in order, and each automatic object is declared once.
pub fn safe_arguments_are_found()
    ensures { (types : Table) (one : TypedUnit) → IsWellTypedUnit types one → IsScopedUnit one → IsLaidOutUnit one → IsDeclaredOnce one
        → IsSafeInPlace types one (is_safe_in_place types one) }
{
    safe_arguments_are_safe_in_place();
}

/// Where a function is put in, which is called in place of the runs, the new program refines the old one, if each run keeps the rules 10 and 14: no
/// constant is wanted where it stands, and each argument may be evaluated once, before everything else of the run. Each occurrence stands in its run,
/// and each parameter has one. Of the units all is asked that holds of those of readings.
pub fn evaluated_units_refine()
    ensures { (old_types new_types : Table) (old new : TypedUnit) (runs : List Run) (put : Insertion) (f : ℕ) (parameters : List ℕ) (body : Tree)
        → IsWellTypedUnit old_types old → IsScopedUnit old → IsTypedProgram (program_of old_types old) → IsLaidOutUnit old → IsDeclaredOnce old
        → IsWellTypedUnit new_types new → IsScopedUnit new → IsTypedProgram (program_of new_types new)
        → AreAligned old_types new_types old new runs (Some put) → put.added ≡ added_function f parameters body → HasPlainTypes new body
        → AllByRecursion (λ (run : Run). MayCall old_types old run × HasArguments (rewriting_of old_types old runs (Some put)) old (length parameters) run
        × HasOccurrences (rewriting_of old_types old runs (Some put)) old run × IsTrue (evaluates_alike old_types old run)) runs
        → Refines (machine_of (program_of new_types new)) (machine_of (program_of old_types old)) }
{
    places_are_told();
    safe_arguments_are_found();
    safe_arguments_always_come();
    evaluated_typed_units_refine();
}
