//! Small programs in the midst of an expression, which meet the premises of the laws; each is proved by computing.

ghost use Rattle.std.specs.Prelude.{◌≡◌, ℕ, false, List, [], ◌∷◌, replicate, Some, IsSomeAnd, pos};
ghost use Rattle.dm_int.specs.declared.Kind.TheVariants.{Int};
ghost use Rattle.dm_meaning.specs.Among.{IsAmong};
ghost use Rattle.dm_meaning.specs.Choices.{run_by};
ghost use Rattle.dm_meaning.specs.Examples.{at, and_count, by_choice, counted_sum, types};
ghost use Rattle.dm_meaning.specs.Expressions.{Move, goes, moves};
ghost use Rattle.dm_meaning.specs.Machines.{exited};
ghost use Rattle.dm_meaning.specs.Memory.{IsFresh, killed};
ghost use Rattle.dm_meaning.specs.Refinement.{Refines};
ghost use Rattle.dm_meaning.specs.Running.{Run, Hole, filled_in};
ghost use Rattle.dm_meaning.specs.Simulation.{GoesWrong};
ghost use Rattle.dm_meaning.specs.States.{returns, State};
ghost use Rattle.dm_meaning.specs.Steps.{opened_memory, scene_of, Step};
ghost use Rattle.dm_meaning.specs.Units.{machine_of, program_of};
ghost use Rattle.dm_meaning.specs.Values.{At, integer_value};
ghost use Rattle.dm_rewrite.specs.Aside.{Claims, IsForeseen};
ghost use Rattle.dm_rewrite.specs.Closed.{MemoryAvoids, IsClosedIn, StaysClosed};
ghost use Rattle.dm_rewrite.specs.Computed.{computed, IsPure};
ghost use Rattle.dm_rewrite.specs.ClosedStates.{ProgramNamesOnly, IsClosedState};
ghost use Rattle.dm_rewrite.specs.Effects.{on_object, effects_of, ChangesOnly, LeavesNoMore};
ghost use Rattle.dm_rewrite.specs.Examples as examples;
ghost use Rattle.dm_rewrite.specs.KeptMemory.{KeepsPlaces};
ghost use Rattle.dm_rewrite.specs.StepEffects.{stage_of, next_effects, StillHolds};
ghost use Rattle.dm_rewrite.specs.NamedConstants.{new_of as named_of, IsNaming, AddsObject};
ghost use Rattle.dm_rewrite.specs.NamedUnits.{IsUnitNaming};
ghost use Rattle.dm_rewrite.specs.PureSteps.{IsAt, Evaluated};

/// In `i++ + i` the second operand is evaluated at once, and reads i; where i was counted before, the program can go wrong.
pub fn an_operand_is_evaluated_at_once()
    ensures at { IsSomeAnd (run_by counted_sum (replicate 5 0) []) (λ state. IsAt (at 0) (examples.beside examples.first) returns [] state examples.second) }
    ensures pure { IsPure examples.second }
    ensures computed { IsSomeAnd (run_by counted_sum (replicate 5 0) [])
        (λ state. computed (scene_of counted_sum state) state.world examples.second ≡ Some (examples.read_as 0)) }
    ensures evaluated { IsSomeAnd (run_by counted_sum (replicate 5 0) [])
        (λ state. Evaluated counted_sum (at 0) (examples.beside examples.first) returns [] state examples.second) }
    ensures at_counted { IsSomeAnd (run_by counted_sum (replicate 7 0) [])
        (λ state. IsAt (at 0) (examples.beside examples.first_done) returns [] state examples.second) }
    ensures wrong { IsSomeAnd (run_by counted_sum (replicate 7 0) []) (λ state. GoesWrong (machine_of counted_sum) state) }
{}

/// A step of `y++` changes y alone, so what x comes to is the same before and behind it.
pub fn a_count_leaves_other_objects()
    ensures effects { effects_of examples.stage examples.counting_y ≡ on_object 2 ∷ [] }
    ensures step { IsAmong (goes (examples.world 6) examples.y_counted) (moves examples.stage.scene (examples.world 5) [] examples.counting_y) }
    ensures changes { ChangesOnly examples.stage (on_object 2 ∷ []) (examples.world 5) (examples.world 6) }
    ensures places { KeepsPlaces (examples.world 5).memory (examples.world 6).memory examples.x_read.reads }
    ensures before { computed examples.stage.scene (examples.world 5) examples.reading_x ≡ Some examples.x_read }
    ensures behind { computed examples.stage.scene (examples.world 6) examples.reading_x ≡ Some examples.x_read }
{}

/// The value of x can be computed on the side: x is designated before `y++` and read behind it.
pub fn a_value_is_computed_aside()
    ensures first { Claims examples.stage.scene (examples.world 5) examples.reading_x (filled_in examples.x_left_out examples.x_designated) }
    ensures kept { Claims examples.stage.scene (examples.world 6) examples.reading_x (filled_in examples.x_left_out examples.x_designated) }
    ensures foreseen { IsForeseen examples.stage.scene (examples.world 5) examples.reading_x examples.x_left_out examples.x_designated }
{}

/// In `x && y++` x is only read, so no step of it makes a pointer to x, and it may write y alone. In `&x` it is more than read.
pub fn an_object_stays_closed()
    ensures memory { MemoryAvoids 1 (examples.world 5).memory }
    ensures closed { IsClosedIn 1 examples.objects examples.both_read }
    ensures steps { (locks : List At) (move : Move Run Hole) → IsAmong move (moves examples.stage.scene (examples.world 5) locks examples.both_read)
        → StaysClosed 1 examples.objects move }
    ensures no_more { (locks : List At) (move : Move Run Hole) → IsAmong move (moves examples.stage.scene (examples.world 5) locks examples.both_read)
        → LeavesNoMore examples.stage (on_object 2 ∷ []) move }
    ensures not_closed { IsClosedIn 1 examples.objects examples.address_of_x → ⊥ }
{}

/// So x is closed all along a run of `int x = 2; int y = 5; x && y++; return y;`.
pub fn an_object_stays_closed_in_a_run()
    ensures program { ProgramNamesOnly 1 (and_count 2) }
    ensures state { IsSomeAnd (run_by (and_count 2) (replicate 8 0) []) (IsClosedState 1 1) }
    ensures steps { IsSomeAnd (run_by (and_count 2) (replicate 8 0) [])
        (λ state. (other : State) → Step (and_count 2) state other → IsClosedState 1 1 other) }
{}

/// A call makes an object, which dies when the call returns: neither x nor y have changed then.
pub fn a_call_leaves_other_objects()
    ensures { (names : ℕ → ℕ) → IsFresh names (examples.world 5).memory → ChangesOnly examples.stage [] (examples.world 5)
        (record (examples.world 5) {
          memory =
              killed (names 0 ∷ []) (opened_memory (and_count 2) names examples.function (integer_value Int (pos 3) ∷ []) (examples.world 5).memory);
        }) }
{}

/// In `x && y++` x holds 2 behind each step of `y++`.
pub fn a_step_leaves_other_objects()
    ensures effects { IsSomeAnd (run_by (and_count 2) (replicate 12 0) [])
        (λ state. next_effects (stage_of (and_count 2) (1 ∷ []) (λ f. false) state) state ≡ on_object 2 ∷ []) }
    ensures steps { IsSomeAnd (run_by (and_count 2) (replicate 12 0) [])
        (λ state. (other : State) → Step (and_count 2) state other → StillHolds other.world.memory 1 (examples.holding 2)) }
{}

/// `int before = 1; static const int SIX = 6; int behind = 2; int main(void) { return SIX + behind; }` refines
/// `int before = 1; int behind = 2; int main(void) { return 3 * 2 + behind; }`.
pub fn a_named_constant_refines()
    ensures constant { by_choice 0 60 [] examples.naming_six.old ≡ Some (exited 8, []) }
    ensures named { by_choice 0 60 [] (named_of examples.naming_six) ≡ Some (exited 8, []) }
    ensures premises { IsNaming examples.naming_six }
    ensures statics { AddsObject examples.naming_six }
    ensures refines { Refines (machine_of (named_of examples.naming_six)) (machine_of examples.naming_six.old) }
    ensures unit_premises { IsUnitNaming types examples.named_unit examples.sum_unit examples.beyond_added 2 Int (pos 6) }
    ensures units_refine { Refines (machine_of (program_of types examples.named_unit)) (machine_of (program_of types examples.sum_unit)) }
{}
