//! A small program that meets the premises of the laws.

ghost use Rattle.std.specs.Prelude.{◌≡◌, ℕ, ◌==◌, true, false, List, []};
ghost use Rattle.dm_meaning.specs.Among.{IsAmong};
ghost use Rattle.dm_meaning.specs.Called.{new_of};
ghost use Rattle.dm_meaning.specs.Examples.{nested_call};
ghost use Rattle.dm_meaning.specs.Expressions.{Move, moves};
ghost use Rattle.dm_meaning.specs.MoreObjects.{IsMade, ObjectsMade};
ghost use Rattle.dm_meaning.specs.Operations.{World};
ghost use Rattle.dm_meaning.specs.Refinement.{Refines};
ghost use Rattle.dm_meaning.specs.Running.{Run, Hole, begun};
ghost use Rattle.dm_meaning.specs.States.{State};
ghost use Rattle.dm_meaning.specs.Steps.{Step};
ghost use Rattle.dm_meaning.specs.Units.{Begins, machine_of};
ghost use Rattle.dm_rewrite.specs.ClosedStates.{NamesOnly, ProgramNamesOnly};
ghost use Rattle.dm_central.specs.Added.{IsAdded};
ghost use Rattle.dm_central.specs.Agreement.{BegunOutside, RunAgrees};
ghost use Rattle.dm_central.specs.Bodies.{nothing_known, CallsInPlace, IsWholeProgram};
ghost use Rattle.dm_central.specs.ClosedFrames.{AreAllClosed};
ghost use Rattle.dm_central.specs.ClosedPrograms.{known_where, known_closed, AreListed, AreOnlyNamed};
ghost use Rattle.dm_central.specs.Examples as examples;
ghost use Rattle.dm_central.specs.NodeSteps.{new_scene};
ghost use Rattle.dm_central.specs.Outcomes.{Met};
ghost use Rattle.dm_central.specs.QuietFrames.{AreQuiet};
ghost use Rattle.dm_central.specs.Waiting.{AreOwn};

/// `twice(y)`, where `int twice(int x) { return x + x; }`, agrees with `y + y`, in which y stands untouched until it is read, twice.
pub fn an_argument_is_read_twice()
    ensures added { IsAdded examples.calling_twice }
    ensures begun_call { BegunOutside examples.calling_twice examples.stage examples.nowhere_safe [] examples.calling examples.sum }
    ensures agrees { RunAgrees examples.calling_twice examples.stage examples.in_main examples.world [] (begun examples.calling) (begun examples.sum) }
    ensures steps { (move : Move Run Hole)
        → IsAmong move (moves (new_scene examples.calling_twice examples.objects) examples.world [] (begun examples.calling))
        → Met examples.calling_twice examples.stage examples.in_main examples.world [] [] (begun examples.sum) move }
{}

/// So `int y = 2; return twice(y);` refines `int y = 2; return y + y;`.
pub fn a_call_that_reads_its_argument_twice_refines()
    ensures calls { CallsInPlace examples.calling_twice nothing_known }
    ensures whole { IsWholeProgram examples.calling_twice.old }
    ensures refines { Refines (machine_of (new_of examples.calling_twice)) (machine_of examples.calling_twice.old) }
{}

/// In `int h(int a) { return a + a; } int main(void) { return h(h(3)); }` a is only read, so each object that it names is closed from when it is made.
pub fn objects_are_closed_when_they_are_made()
    ensures names { (d : ℕ) → (d == 2) ≡ true → ProgramNamesOnly d nested_call }
    ensures begins { (input : List ℕ) (state : State) → Begins nested_call input state → AreAllClosed (λ d. d == 2) state }
    ensures steps { (starts : List World) (state other : State) → Step nested_call state other
        → ((n : ℕ) → IsMade state.world.memory n → IsMade other.world.memory n)
        → AreOwn other.statics starts other.frame.objects → ObjectsMade other.world.memory other.frame.objects
        → AreAllClosed (λ d. d == 2) state → AreAllClosed (λ d. d == 2) other }
{}

/// In `int y = 2; return (y + g()) + y;` y is read behind a call, but no pointer leads to it. So `return around(y);` in its place refines this, where
/// `int around(int x) { return (x + g()) + x; }`.
pub fn an_argument_is_read_behind_a_call()
    ensures calls { CallsInPlace examples.calling_around (known_closed (λ d. d == 1)) }
    ensures names_old { (d : ℕ) → (d == 1) ≡ true → ProgramNamesOnly d examples.calling_around.old }
    ensures names_body { (d : ℕ) → (d == 1) ≡ true → NamesOnly (examples.beyond_twice d) (examples.around_of 3 4) }
    ensures listed { AreListed examples.calling_around }
    ensures named { AreOnlyNamed examples.calling_around (λ d. d == 1) }
    ensures whole { IsWholeProgram examples.calling_around.old }
    ensures refines { Refines (machine_of (new_of examples.calling_around)) (machine_of examples.calling_around.old) }
{}

/// It refines it also where nothing is known of y, since `int g(void) { return 3; }` writes nothing.
pub fn an_argument_is_read_behind_a_quiet_call()
    ensures calls { CallsInPlace examples.calling_around (known_where (λ d. false) (λ f. f == 2)) }
    ensures named { AreOnlyNamed examples.calling_around (λ d. false) }
    ensures quiet { AreQuiet examples.calling_around.old (λ f. f == 2) }
    ensures refines { Refines (machine_of (new_of examples.calling_around)) (machine_of examples.calling_around.old) }
{}
