//! A small unit that meets the premises of the law on arguments that are read late.

ghost use Rattle.std.specs.Prelude.{[], ◌∷◌, Some};
ghost use Rattle.dm_type.specs.Tables.{no_type};
ghost use Rattle.dm_tree.specs.Typing.{IsWellTypedUnit};
ghost use Rattle.dm_meaning.specs.Units.{program_of};
ghost use Rattle.dm_effect.specs.Scoped.{IsScopedUnit};
ghost use Rattle.dm_align.specs.Examples as examples;
ghost use Rattle.dm_align.specs.Units.{AreAligned, moved, other_externals};
ghost use Rattle.dm_sound.specs.TypedRuns.{IsTypedProgram};
ghost use Rattle.dm_central.specs.ClosedPrograms.{AreAlwaysSafe};
ghost use Rattle.dm_plain.specs.Plain.{HasPlainTypes};
ghost use Rattle.dm_refine.specs.Calls.{AreOthersEvaluated};
ghost use Rattle.dm_late.specs.Examples.{judged};
ghost use Rattle.dm_late.specs.Settled.{erased_program};
ghost use Rattle.dm_late.specs.Late.{AreClosed, AreQuiet, AreReadFirst, EvaluateAlike};

/// `int f(int x, int y) { return MAX(x, y); }` with `static inline int MAX(int a, int b) { return ((a)>(b)?(a):(b)); }` refines the unit with
/// `#define MAX(a,b) ((a)>(b)?(a):(b))` in its place. Both parameters are read twice.
pub fn a_maximum_refines()
    ensures old_typed { IsWellTypedUnit no_type examples.max_old }
    ensures new_typed { IsWellTypedUnit no_type examples.max_new }
    ensures scoped { IsScopedUnit examples.max_new }
    ensures sound { IsTypedProgram (program_of no_type examples.max_new) }
    ensures aligned { AreAligned no_type no_type examples.max_old examples.max_new (examples.run_of_max ∷ []) (Some examples.max_put) }
    ensures lengths { HasPlainTypes examples.max_new examples.max_body }
    ensures evaluated { AreOthersEvaluated 2 examples.max_put examples.max_new }
    ensures first { AreReadFirst judged (examples.run_of_max ∷ []) (0 ∷ 1 ∷ []) examples.max_body }
    ensures alike { EvaluateAlike judged examples.max_rewriting (0 ∷ 1 ∷ []) (other_externals (Some examples.max_put) examples.max_new.externals)
        examples.max_old.externals }
    ensures closed { AreClosed judged examples.max_old (moved (Some examples.max_put)) (program_of no_type examples.max_new) }
    ensures quiet { AreQuiet judged (program_of no_type examples.max_old) }
    ensures safe { AreAlwaysSafe (erased_program (program_of no_type examples.max_old)) judged.safe }
{}
