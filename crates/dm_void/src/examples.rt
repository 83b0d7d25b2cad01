//! A small program that meets the premises of the laws.

ghost use Rattle.std.specs.Prelude.{◌≡◌, false, true};
ghost use Rattle.dm_type.specs.CTypes.{bare};
ghost use Rattle.dm_tree.specs.Scenes.{is_void};
ghost use Rattle.dm_tree.specs.Trees.{kind_of};
ghost use Rattle.dm_meaning.specs.Called.{Gives};
ghost use Rattle.dm_meaning.specs.Programs.{declaration_of};
ghost use Rattle.dm_meaning.specs.Statements.{type_declared};
ghost use Rattle.dm_meaning.specs.Steps.{gives_nothing, is_main};
ghost use Rattle.dm_sound.specs.TypedRuns.{IsTypedProgram};
ghost use Rattle.dm_void.specs.Bodies.{AreUncalled, IsNeverCalled, IsRestated};
ghost use Rattle.dm_void.specs.Examples as examples;

use crate::laws::unnamed_functions_never_run;

/// `void f(void) { (void)0; }`, and the function that returns `(void)0`. No function calls it.
pub fn a_dropped_value()
    ensures typed { IsTypedProgram examples.program }
    ensures restated { IsRestated examples.program 0 examples.value examples.value examples.functions }
    ensures nothing { gives_nothing (type_declared examples.program 0) ≡ true }
    ensures other { is_main (declaration_of examples.program 0) ≡ false }
    ensures gives { Gives examples.value }
    ensures void { is_void (bare (kind_of examples.value)) ≡ true }
    ensures uncalled { AreUncalled examples.program 0 }
    ensures never { IsNeverCalled examples.program 0 }
{
    unnamed_functions_never_run();
}
