//! What holds of programs in which a function drops the value of its expression.

ghost use Rattle.std.specs.Prelude.{◌≡◌, ℕ, false, List, true};
ghost use Rattle.dm_type.specs.CTypes.{bare};
ghost use Rattle.dm_tree.specs.Scenes.{is_void};
ghost use Rattle.dm_tree.specs.Trees.{Tree, kind_of};
ghost use Rattle.dm_meaning.specs.Called.{Gives};
ghost use Rattle.dm_meaning.specs.Programs.{declaration_of, Definition, Program};
ghost use Rattle.dm_meaning.specs.Refinement.{Refines};
ghost use Rattle.dm_meaning.specs.Statements.{type_declared};
ghost use Rattle.dm_meaning.specs.Steps.{gives_nothing, is_main};
ghost use Rattle.dm_meaning.specs.Units.{machine_of};
ghost use Rattle.dm_sound.specs.TypedRuns.{IsTypedProgram};
ghost use Rattle.dm_void.specs.Bodies.{AreUncalled, IsNeverCalled, IsRestated, with_functions};

/// A typed program with a function without a result, whose body is one expression statement, refines the program in which that function returns the
/// value of the expression, if this has none either. That program isn't typed, but the machine runs it: so what is proved of functions that return
/// an expression holds of those too that only evaluate it.
pub fn dropped_values_refine()
    ensures { (program : Program) (f : ℕ) (value : Tree) (functions : List Definition)
        → IsTypedProgram program → IsRestated program f value value functions → gives_nothing (type_declared program f) ≡ true
        → is_main (declaration_of program f) ≡ false → Gives value → is_void (bare (kind_of value)) ≡ true
        → Refines (machine_of program) (machine_of (with_functions program functions)) }
{}

/// A function that no other one names, and that isn't `main`, is never called.
pub fn unnamed_functions_never_run()
    ensures { (program : Program) (f : ℕ) → AreUncalled program f → is_main (declaration_of program f) ≡ false → IsNeverCalled program f }
{}

/// Where the function is never called, it may return any other expression.
pub fn uncalled_functions_refine()
    ensures { (program : Program) (f : ℕ) (value other : Tree) (functions : List Definition)
        → IsRestated program f value other functions → is_main (declaration_of program f) ≡ false → IsNeverCalled program f
        → Refines (machine_of program) (machine_of (with_functions program functions)) }
{}
