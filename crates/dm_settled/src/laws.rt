ghost use Rattle.std.specs.Prelude.{◌≡◌, ℕ, Bool};
ghost use Rattle.dm_tree.specs.Trees.{spans_of, Spans, Tree};
ghost use Rattle.dm_meaning.specs.Programs.{Program};
ghost use Rattle.dm_sound.specs.TypedRuns.{IsTypedProgram};
ghost use Rattle.dm_meaning.specs.Running.{begun};
ghost use Rattle.dm_spans.specs.MovedPrograms.{IsMovedProgram, StandAt};
ghost use Rattle.dm_initialised.specs.Settled.{IsSettledProgram};
ghost use Rattle.dm_central.specs.ClosedPrograms.{AreAlwaysSafe};
ghost use Rattle.dm_central.specs.Standing.{StandsIn};
ghost use Rattle.dm_safe.specs.SafePrograms.{AreSafeTrees};
ghost use Rattle.dm_safe.specs.Spared.{TreeSpares};
ghost use Rattle.dm_late.specs.Settled.{erased_program, settled};
ghost use Rattle.dm_settled.specs.Apart.{IsApartTree};

/// The program in which the nodes of each full expression stand where that does is the program, moved.
pub fn settled_programs_are_moved()
    ensures { (program : Program) → IsMovedProgram program (erased_program program) }
{}

/// So, where a program is typed, and certain objects are set where it names them, the safe expressions of that program come to a value in each
/// state of each run.
pub fn settled_safe_expressions_always_come()
    ensures { (program : Program) (needs : ℕ → Bool) (sets : Tree → ℕ → Bool) (safe : Tree → Bool) → IsTypedProgram program
        → IsSettledProgram needs program → AreSafeTrees (erased_program program) needs sets safe → AreAlwaysSafe (erased_program program) safe }
{}

/// Where all nodes of an expression stand at one place, so does each tree that stands in it.
pub fn parts_stand_where_expressions_do()
    ensures { (at : Spans) (tree other : Tree) → StandAt at other → StandsIn (begun tree) (begun other) → (spans_of tree).place ≡ at.place }
{}

/// In a settled body no expression in an initialiser of an object takes that for set, if none does that has the place of an expression of that
/// initialiser.
pub fn settled_bodies_spare()
    ensures { (needs : ℕ → Bool) (sets : Tree → ℕ → Bool) (tree : Tree) → IsApartTree needs sets tree → TreeSpares needs sets (settled tree) }
{}
