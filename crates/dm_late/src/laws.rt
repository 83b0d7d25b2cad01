//! What follows for the programs of aligned units.

ghost use Rattle.std.specs.Prelude.{◌≡◌, ℕ, List, [], Some};
ghost use Rattle.dm_runs.specs.declared.run.Run.{Run};
ghost use Rattle.dm_type.specs.Tables.{Table};
ghost use Rattle.dm_tree.specs.Trees.{Tree};
ghost use Rattle.dm_tree.specs.Typing.{IsWellTypedUnit};
ghost use Rattle.dm_tree.specs.Units.{TypedUnit};
ghost use Rattle.dm_meaning.specs.Refinement.{Refines};
ghost use Rattle.dm_meaning.specs.Units.{machine_of, program_of};
ghost use Rattle.dm_effect.specs.Scoped.{IsScopedUnit};
ghost use Rattle.dm_agree.specs.Agreement.{added_function};
ghost use Rattle.dm_align.specs.Units.{AreAligned, Insertion, moved, other_externals, rewriting_of};
ghost use Rattle.dm_central.specs.ClosedPrograms.{AreAlwaysSafe};
ghost use Rattle.dm_sound.specs.TypedRuns.{IsTypedProgram};
ghost use Rattle.dm_plain.specs.Plain.{HasPlainTypes};
ghost use Rattle.dm_refine.specs.Calls.{AreOthersEvaluated};
ghost use Rattle.dm_late.specs.Settled.{erased_program};
ghost use Rattle.dm_late.specs.Late.{AreClosed, AreQuiet, AreReadFirst, EvaluateAlike, Judged};

/// Where a function is put in, which is called in place of the runs, the new program refines the old one. It may have no result, and one expression
/// statement for its body; the new program is typed, as those of readings are. No array length or enumerator's value in a type name in its expression
/// names an automatic object, and no operand of sizeof in the rest of the new unit calls it. Each parameter is read first, and once: then nothing is
/// asked of its argument, which is evaluated once, as for a call. Some may be read again, at any places, where in each run the argument neither stores
/// nor calls, and reads nothing that the run, or what is unsequenced to it, writes: these write nothing at all, or the argument reads only closed
/// objects that they don't write. Such a parameter needn't be read first, where in each run its argument passes a test there where its full expression
/// stands; what passes it is to come to something in each state of each run of the old program in which it stands in the full expression under
/// evaluation.
pub fn late_typed_units_refine()
    ensures { (old_types new_types : Table) (old new : TypedUnit) (runs : List Run) (put : Insertion) (f : ℕ) (parameters : List ℕ) (body : Tree)
        (judged : Judged)
        → IsWellTypedUnit old_types old → IsWellTypedUnit new_types new → IsScopedUnit new → IsTypedProgram (program_of new_types new)
        → AreAligned old_types new_types old new runs (Some put) → put.added ≡ added_function f parameters body
        → HasPlainTypes new body → AreOthersEvaluated f put new → AreReadFirst judged runs parameters body
        → EvaluateAlike judged (rewriting_of old_types old runs (Some put)) parameters (other_externals (Some put) new.externals) old.externals
        → AreClosed judged old (moved (Some put)) (program_of new_types new) → AreQuiet judged (program_of old_types old)
        → AreAlwaysSafe (erased_program (program_of old_types old)) judged.safe
        → Refines (machine_of (program_of new_types new)) (machine_of (program_of old_types old)) }
{}

/// Where the macro has no run, nothing is asked of the function's expression: it is never called.
pub fn uncalled_units_refine()
    ensures { (old_types new_types : Table) (old new : TypedUnit) (put : Insertion) (f : ℕ) (parameters : List ℕ) (body : Tree)
        → IsWellTypedUnit old_types old → IsWellTypedUnit new_types new → IsScopedUnit new
        → AreAligned old_types new_types old new [] (Some put) → put.added ≡ added_function f parameters body → AreOthersEvaluated f put new
        → Refines (machine_of (program_of new_types new)) (machine_of (program_of old_types old)) }
{}
