ghost use Rattle.std.specs.Prelude.{◌≡◌, ◌⊎◌, ℕ, Bool, true, false, List, [], length, Some, option_map};
ghost use Rattle.dm_token.specs.declared.place.Place.{Place};
ghost use Rattle.dm_type.specs.CTypes.{CType};
ghost use Rattle.dm_tree.specs.Trees.{call, Tree};
ghost use Rattle.dm_meaning.specs.Among.{IsAmong};
ghost use Rattle.dm_meaning.specs.Called.{Called, new_of};
ghost use Rattle.dm_meaning.specs.CalledWithAll.{given, AreDistinct};
ghost use Rattle.dm_meaning.specs.Expressions.{Move, goes, calls, lifted, moves_in, kind_of_run, function_named, node_step, moves};
ghost use Rattle.dm_meaning.specs.Extending.{AreAmong};
ghost use Rattle.dm_meaning.specs.Memory.{Memory};
ghost use Rattle.dm_meaning.specs.MoreObjects.{IsMade, ObjectsMade, TasksSettled};
ghost use Rattle.dm_meaning.specs.Operations.{of_value, Operand, World, Objects};
ghost use Rattle.dm_meaning.specs.Programs.{Program};
ghost use Rattle.dm_meaning.specs.Refinement.{Refines};
ghost use Rattle.dm_meaning.specs.Running.{Doing, evaluates, Run, done, Runs, more_runs, begun, Open, every, first_open, others_open, open_parts, Hole, Holes, all_filled_in, AreOpen, locks_in, operands_in};
ghost use Rattle.dm_meaning.specs.States.{State};
ghost use Rattle.dm_meaning.specs.Statements.{unfolded};
ghost use Rattle.dm_meaning.specs.Steps.{lacks_value, Step};
ghost use Rattle.dm_meaning.proofs.EntryLemmas.{AllSpare};
ghost use Rattle.dm_meaning.proofs.PassStateLemmas.{Spare, flat};
ghost use Rattle.dm_meaning.specs.Units.{Begins, machine_of};
ghost use Rattle.dm_meaning.specs.Values.{At, Value};
ghost use Rattle.dm_meaning.proofs.MatchLemmas.{may_stand};
ghost use Rattle.dm_meaning.proofs.PassRunLemmas.{AllYield, MoveYieldsAll};
ghost use Rattle.dm_meaning.proofs.RunLemmas.{redone};
ghost use Rattle.dm_rewrite.specs.Closed.{MemoryAvoids, IsClosedIn};
ghost use Rattle.dm_rewrite.specs.ClosedStates.{NamesOnly, ProgramNamesOnly};
ghost use Rattle.dm_rewrite.specs.Computed.{Computed, computed, IsPure};
ghost use Rattle.dm_rewrite.specs.Effects.{Effect, Stage, effects_of, ChangesOnly, IsNoMore};
ghost use Rattle.dm_rewrite.specs.PureSteps.{Meets};
ghost use Rattle.dm_meaning.proofs.LikenessLemmas.{Likeness};
ghost use Rattle.dm_central.specs.Added.{IsAdded};
ghost use Rattle.dm_central.specs.Bodies.{Known, nothing_known, IsWholeProgram, CallsInPlace};
ghost use Rattle.dm_central.specs.ClosedFrames.{AreAllClosed};
ghost use Rattle.dm_central.specs.ClosedPrograms.{known_with, known_where, known_closed, AreOnlyNamed, AreListed, AreAlwaysSafe};
ghost use Rattle.dm_central.specs.LeftAlone.{AreLeftAlone, AreKept};
ghost use Rattle.dm_central.specs.QuietFrames.{WritesNothing, IsQuietTree, AreQuiet, AreQuietFrames};
ghost use Rattle.dm_central.specs.Waiting.{AreOwn, IsWaiting};
ghost use Rattle.dm_central.specs.StateAgreement.{TreeFits, RunFits, Related, worlds_after, Met as StateMet, IsSteady};
ghost use Rattle.dm_central.specs.Agreement.{Entry, Mode, outside, inside, is_inside, IsReading, AreUnbegun, open_effects, beside_first, before_rest, BegunOutside, IsPassed, RunAgrees, RunsAgree};
ghost use Rattle.dm_central.specs.Arguments.{ReadsApart, Way, untouched, AllFollowed, ReadsFirst, StandsOpen};
ghost use Rattle.dm_central.specs.Apart.{ReadsFreeNames};
ghost use Rattle.dm_central.specs.ArgumentSteps.{IsAtOnce, StandsOnce, ArgumentStep};
ghost use Rattle.dm_central.specs.Entries.{entries_for};
ghost use Rattle.dm_central.specs.NodeSteps.{new_scene, old_stage, MeanTheSame};
ghost use Rattle.dm_central.specs.Outcomes.{StepAgrees, StepsAgree, Met, AreSafe, IsClaimed, AreReady, Entered, IsAtCall, calling, calling_hole, IsEntering};

/// Trees that agree still do in a later world that differs only in what others may write.
pub fn agreement_kept()
    ensures { (change : Called) (stage : Stage) (mode : Mode) (world later : World) (beside : List Effect) (run other : Run)
        → ChangesOnly stage beside world later → RunAgrees change stage mode world beside run other
        → RunAgrees change stage mode later beside run other }
{}

/// And beside trees that may write less.
pub fn agreement_beside_less()
    ensures { (change : Called) (stage : Stage) (mode : Mode) (world : World) (beside less : List Effect) (run other : Run)
        → IsNoMore stage beside less → RunAgrees change stage mode world beside run other
        → RunAgrees change stage mode world less run other }
{}

/// Trees of which nothing is evaluated agree in every world.
pub fn begun_agreement()
    ensures { (change : Called) (stage : Stage) (safe : Tree → Bool) (world : World) (beside : List Effect) (tree other : Tree)
        → BegunOutside change stage safe beside tree other
        → RunAgrees change stage (outside safe) world beside (begun tree) (begun other) }
{}

/// When one operand of a node takes a step, all still agree, in the world that it leaves, where the operand writes only what it may, and no more
/// than before behind the step.
pub fn moved_operands()
    ensures first { (change : Called) (stage : Stage) (mode : Mode) (world after : World) (before beside : List Effect) (opens : Open)
        (first : Run) (rest : Runs) (other : Run) (others : Runs) (first_later other_later : Run) → first_open opens ≡ true
        → RunsAgree change stage mode world before beside opens (more_runs first rest) (more_runs other others)
        → ChangesOnly stage (effects_of stage other) world after → IsNoMore stage (effects_of stage other) (effects_of stage other_later)
        → RunAgrees change stage mode after (beside_first stage opens before beside others) first_later other_later
        ⊎ IsReading change mode first_later other_later
        → RunsAgree change stage mode after before beside opens (more_runs first_later rest) (more_runs other_later others) }
    ensures others { (change : Called) (stage : Stage) (mode : Mode) (world after : World) (before beside : List Effect) (opens : Open)
        (first : Run) (rest : Runs) (other : Run) (others rest_later others_later : Runs)
        → RunsAgree change stage mode world before beside opens (more_runs first rest) (more_runs other others)
        → ChangesOnly stage (open_effects stage (others_open opens) others) world after
        → IsNoMore stage (open_effects stage (others_open opens) others) (open_effects stage (others_open opens) others_later)
        → RunsAgree change stage mode after (before_rest stage opens before other) beside (others_open opens) rest_later others_later
        → RunsAgree change stage mode after before beside opens (more_runs first rest_later) (more_runs other others_later) }
{}

/// A step of the old arguments of a call that isn't evaluated yet is one of an argument that stands in the old program, or one of an argument that
/// is followed aside; or an untouched argument comes to nothing, or reads what is locked.
pub fn argument_steps()
    ensures { (stage : Stage) (world : World) (locks : List At) (beside : List Effect) (ways : List Way) (inner : Runs)
        → AllFollowed stage world beside ways inner → (move : Move Runs Holes) → IsAmong move (moves_in stage.scene world locks every inner)
        → ArgumentStep stage world locks beside ways inner move }
{}

/// Where the arguments of such a call stand in the old program.
pub fn argument_places()
    // One that is evaluated at once stands at one place, and so does each part of it.
    ensures at_once { (change : Called) (stage : Stage) (mode : Mode) (world : World) (beside : List Effect)
        → AreDistinct change.added.parameters → ((p : ℕ) → IsAmong p change.added.parameters → (c : ℕ) → change.rename c ≡ p → ⊥)
        → (kind : CType) (other : Run) (inner : Runs) (passed : IsPassed change stage mode world beside (evaluates call) kind other inner)
        → (holes : Holes) (run : Run) → inner ≡ all_filled_in holes run → IsAtOnce passed.ways holes
        → StandsOnce change passed.kinds passed.ways change.body other holes run }
    // An untouched one whose parameter is read first stands, untouched, in a part that may be evaluated.
    ensures first { (change : Called) (stage : Stage) (mode : Mode) (world : World) (beside : List Effect)
        → AreDistinct change.added.parameters → ((p : ℕ) → IsAmong p change.added.parameters → (c : ℕ) → change.rename c ≡ p → ⊥)
        → (kind : CType) (other : Run) (inner : Runs) (passed : IsPassed change stage mode world beside (evaluates call) kind other inner)
        → (tree : Tree) → IsAmong (untouched tree) passed.ways
        → ((p : ℕ) → given change.added.parameters passed.ways p ≡ Some (untouched tree) → ReadsFirst p change.body)
        → StandsOpen (begun tree) other }
{}

/// What meets a step of the arguments of such a call, by what meets it in the old arguments.
pub fn call_steps()
    // A step of them: a step of the old program, or none, where it is one aside.
    ensures stepped { (change : Called) (stage : Stage) (mode : Mode) (world : World) (locks : List At) (beside : List Effect) (kind : CType)
        (place : Place) (other : Run) (inner : Runs) (named : Run) (at : IsAtCall change stage mode world locks beside kind other inner named)
        (x n : Move Runs Holes) → MoveYieldsAll at.passed.kinds x → IsAmong n (moves_in stage.scene world locks every inner)
        → StepsAgree change stage mode world [] beside every x n
        → Met change stage mode world locks beside other (lifted (calling kind place named) (calling_hole kind place named) x) }
    // No step of them.
    ensures stood { (change : Called) (stage : Stage) (mode : Mode) (world : World) (locks : List At) (beside : List Effect) (kind : CType)
        (place : Place) (other : Run) (inner : Runs) (named : Run) (at : IsAtCall change stage mode world locks beside kind other inner named)
        (parts : Runs) → AllYield at.passed.kinds parts → RunsAgree change stage mode world [] beside every parts inner
        → Met change stage mode world locks beside other (goes world (calling kind place named parts)) }
    // A part of one comes to nothing, or reads what is locked.
    ensures failed { (change : Called) (stage : Stage) (mode : Mode) (world : World) (locks : List At) (beside : List Effect) (kind : CType)
        (other : Run) (inner : Runs) (named : Run) → IsAtCall change stage mode world locks beside kind other inner named
        → (holes : Holes) → AreOpen every holes → (tree : Run) → IsPure tree → inner ≡ all_filled_in holes tree
        → Meets locks (computed stage.scene world tree) → (move : Move Run Hole) → Met change stage mode world locks beside other move }
    // The added function is called in one: the old program goes on in its expression, or it stands still, since it is known what the call comes to.
    ensures entered { (change : Called) (stage : Stage) (mode : Mode) (world : World) (locks : List At) (beside : List Effect) (kind : CType)
        (place : Place) (other : Run) (inner : Runs) (named : Run) (at : IsAtCall change stage mode world locks beside kind other inner named)
        (called_kind : CType) (holes : Holes) (values : List Value)
        → IsEntering change stage mode world beside at.passed.kinds inner called_kind holes values
        → Met change stage mode world locks beside other (calls change.added.function values called_kind (calling_hole kind place named holes)) }
    // It is called where it stands nowhere in the old program.
    ensures entered_aside { (change : Called) (stage : Stage) (mode : Mode) (world : World) (locks : List At) (beside : List Effect) (kind : CType)
        (place : Place) (other : Run) (inner : Runs) (named : Run) (at : IsAtCall change stage mode world locks beside kind other inner named)
        → is_inside mode ≡ false → (values : List Value) (called_kind : CType) (holes : Holes) (run : Run) → IsPure run → (found : Computed)
        → computed stage.scene world run ≡ Some found → (value : Value) → found.result ≡ of_value value → lacks_value called_kind value ≡ false
        → Entered change stage world values called_kind run
        → ((n : ℕ) → IsAmong n stage.closed → IsClosedIn n stage.scene.objects run) → MoveYieldsAll at.passed.kinds (calls change.added.function values called_kind holes)
        → ((later : World) → ChangesOnly stage [] world later
        → RunsAgree change stage mode later [] beside every (all_filled_in holes (done called_kind (of_value value) [])) inner)
        → Met change stage mode world locks beside other (calls change.added.function values called_kind (calling_hole kind place named holes)) }
{}

/// What trees that agree have in common.
pub fn common_facts()
    // They have one type, and name one function, if any.
    ensures facts { (change : Called) → IsAdded change → (stage : Stage) (mode : Mode) (world : World) (beside : List Effect) (run other : Run)
        → RunAgrees change stage mode world beside run other
        → (kind_of_run run ≡ kind_of_run other) × (function_named run ≡ option_map change.rename (function_named other)) }
    // Where the operands of the new node are evaluated, so are those of the old one, to the same results.
    ensures operands { (change : Called) (stage : Stage) (mode : Mode) (world : World) (before beside : List Effect) (opens : Open) (parts others : Runs)
        (operands : List Operand) → RunsAgree change stage mode world before beside opens parts others
        → operands_in opens parts ≡ Some operands → operands_in opens others ≡ Some operands }
    // The new tree has locked nothing that the old one hasn't.
    ensures locks { (change : Called) → IsAdded change → (stage : Stage) (mode : Mode) (world : World) (beside : List Effect) (run other : Run)
        → RunAgrees change stage mode world beside run other → AreAmong (locks_in run) (locks_in other) }
    // An operand that wasn't begun agrees in any world.
    ensures unbegun { (change : Called) (stage : Stage) (mode : Mode) (world : World) (beside : List Effect) (run other : Run)
        → AreUnbegun change stage mode beside run other
        → RunAgrees change stage mode world beside run other ⊎ IsReading change mode run other }
{}

/// The step of a node whose operands are evaluated agrees with that of the old node, beside at least the same locks.
pub fn node_steps()
    ensures { (change : Called) → IsAdded change → (news objects : Objects) (closed : List ℕ) (quiet : ℕ → Bool) (mode : Mode)
        → MeanTheSame change mode news objects → (world : World) (fewer locks : List At) → AreAmong fewer locks → (beside : List Effect)
        (doing : Doing) (kind : CType) (place at : Place) (parts others : Runs) (operands : List Operand)
        → RunsAgree change (old_stage change objects closed quiet) mode world [] beside (open_parts doing) parts others
        → may_stand change.old (is_inside mode) doing ≡ true
        → StepAgrees change (old_stage change objects closed quiet) mode world beside
        (node_step (new_scene change news) world fewer (redone change.rename doing) kind place parts operands)
        (node_step (old_stage change objects closed quiet).scene world locks doing kind at others operands) }
{}

/// Each step of a tree of the new program is met in a tree of the old one that agrees with it, where closed objects are only named, parameters can
/// be read, and the expressions that always come to something do.
pub fn tree_steps()
    ensures each { (change : Called) → IsAdded change → (news objects : Objects) (closed : List ℕ) (quiet : ℕ → Bool) (mode : Mode)
        → MeanTheSame change mode news objects → (world : World) (fewer locks : List At) → AreAmong fewer locks
        → AreReady change mode news (old_stage change objects closed quiet) world fewer
        → ((n : ℕ) → IsAmong n closed → MemoryAvoids n world.memory)
        → (beside : List Effect) (run other : Run) → RunAgrees change (old_stage change objects closed quiet) mode world beside run other
        → AreSafe (old_stage change objects closed quiet) mode world locks beside other
        → ((n : ℕ) → IsAmong n closed → IsClosedIn n objects other)
        → (move : Move Run Hole) → IsAmong move (moves (new_scene change news) world fewer run)
        → Met change (old_stage change objects closed quiet) mode world locks beside other move }
    // A parameter's read, alone: it is met so, or names the parameter, which is still to be read.
    ensures read { (change : Called) → IsAdded change → (news objects : Objects) (closed : List ℕ) (quiet : ℕ → Bool) (mode : Mode)
        → MeanTheSame change mode news objects → (world : World) (fewer locks : List At) → AreAmong fewer locks
        → AreReady change mode news (old_stage change objects closed quiet) world fewer
        → ((n : ℕ) → IsAmong n closed → MemoryAvoids n world.memory)
        → (beside : List Effect) (run other : Run) → IsReading change mode run other
        → (move : Move Run Hole) → IsAmong move (moves (new_scene change news) world fewer run)
        → Met change (old_stage change objects closed quiet) mode world locks beside other move
        ⊎ ((later : Run) × (move ≡ goes world later) × IsReading change mode later other) }
{}

/// Where the added function is entered, its body agrees with the expression that the old program has.
pub fn entered_expressions()
    // It does in any world, wherever its parameters' objects are: where it reads one, the old program has the value, or the untouched argument.
    ensures agrees { (change : Called) (stage : Stage) (world : World) (values : List Value) (kind : CType) (run : Run)
        (entered : Entered change stage world values kind run) (stored : List ℕ) → length stored ≡ length change.added.parameters
        → (inner_stage : Stage) (later : World) (beside : List Effect)
        → RunAgrees change inner_stage (inside (entries_for change.added.parameters stored values entered.ways)) later beside (begun change.body) run
        ⊎ IsReading change (inside (entries_for change.added.parameters stored values entered.ways)) (begun change.body) run }
    // The untouched argument comes to the value of the parameter, if to anything.
    ensures claimed { (change : Called) (stage : Stage) (world : World) (values : List Value) (kind : CType) (run : Run)
        (entered : Entered change stage world values kind run) (stored : List ℕ) (entry : Entry)
        → IsAmong entry (entries_for change.added.parameters stored values entered.ways) → IsClaimed stage world entry.value entry.stood }
{}

/// A tree that reads objects by their names alone reads nothing that trees beside it write, where these have no effect on those objects. So a local
/// object to which no pointer leads may be read late.
pub fn named_reads_are_apart()
    ensures { (stage : Stage) (effects : List Effect) (tree : Tree) → ReadsFreeNames stage effects tree → ReadsApart stage effects (begun tree) }
{}

/// Statements that agree begin, decide and end alike.
pub fn bodies_alike()
    ensures { (change : Called) (known : Known) → CallsInPlace change known
        → Likeness change (TreeFits change known) (RunFits change known) }
{}

/// Each step of the new program from a state that is related to one of the old program is met in the old one: the old one goes on to a state that is
/// related to the state after the step, by one step or by all steps of an untouched argument; or it stays, where the new one has fewer steps left before
/// the old one has to move, and where the added function is entered or left; or the old one can go wrong. The old program's memory has the objects of
/// the parameters too, in which it differs from `memory`.
pub fn state_steps()
    ensures { (change : Called) (known : Known) → CallsInPlace change known → (w : ℕ) (spare : Spare) (starts : List World) (state later other : State)
        → Related change known w spare starts state other → (memory : Memory) → AllSpare change other.world.memory memory (flat spare)
        → TasksSettled memory (unfolded other.frame.tasks) → IsSteady change known starts other → Step (new_of change) state later
        → StateMet change known w spare starts other later }
{}

/// Where all trees of a program name what certain declarations declare only where it is read or written, a step leaves the objects closed that they
/// name, in the frame that is running and in all that wait: those that were closed, and those that it makes. When a run begins they are closed.
pub fn closed_objects_stay()
    ensures begins { (program : Program) (test : ℕ → Bool) → ((d : ℕ) → test d ≡ true → ProgramNamesOnly d program) → (input : List ℕ) (state : State)
        → Begins program input state → AreAllClosed test state }
    ensures steps { (program : Program) (test : ℕ → Bool) → ((d : ℕ) → test d ≡ true → ProgramNamesOnly d program) → (starts : List World) (state other : State)
        → Step program state other → ((n : ℕ) → IsMade state.world.memory n → IsMade other.world.memory n)
        → AreOwn other.statics starts other.frame.objects → ObjectsMade other.world.memory other.frame.objects
        → AreAllClosed test state → AreAllClosed test other }
{}

/// Frames above leave these objects alone: no name stands for them there, no initialiser is one of theirs, and no full expression has an effect on
/// them.
pub fn closed_objects_are_left_alone()
    ensures begins { (program : Program) (test : ℕ → Bool) (input : List ℕ) (state : State) → Begins program input state → AreLeftAlone program test state }
    ensures steps { (program : Program) (test : ℕ → Bool) (starts : List World) (state other : State) → Step program state other
        → AreOwn state.statics starts state.frame.objects → AreAllClosed test state → AreLeftAlone program test state → AreLeftAlone program test other }
{}

/// A function whose body is one `return` of a tree that neither stores nor calls others than such functions writes nothing that was there when it was
/// called. In its frame no other tree is evaluated, and the frames above it are such too.
pub fn quiet_functions_stay_quiet()
    ensures trees { (program : Program) (quiet : ℕ → Bool) (tree : Tree) → WritesNothing quiet tree → IsQuietTree program quiet tree }
    ensures begins { (program : Program) (quiet : ℕ → Bool) → AreQuiet program quiet → (input : List ℕ) (state : State) → Begins program input state
        → AreQuietFrames program quiet state }
    ensures steps { (program : Program) (quiet : ℕ → Bool) → AreQuiet program quiet → (state other : State) → Step program state other
        → AreQuietFrames program quiet state → AreQuietFrames program quiet other }
{}

/// So what a frame that waits knows of memory stays: closed objects hold what they held when the function above was called, and all objects do where
/// that is quiet.
pub fn waiting_frames_are_kept()
    ensures { (program : Program) (quiet test : ℕ → Bool) (state other : State) → Step program state other → AreLeftAlone program test state
        → AreQuietFrames program quiet state → (starts : List World) → IsWaiting starts state
        → IsWaiting (worlds_after starts state.world state.callers other.callers) other
        → AreKept program quiet test state.statics state.frame.function starts state.callers state.world
        → AreKept program quiet test other.statics other.frame.function (worlds_after starts state.world state.callers other.callers) other.callers other.world }
{}

/// A program that calls an added function in place of its expression refines the program with the expression, with the arguments in it. An argument is
/// evaluated in both at once; or its parameter is read first, and it may be read again or not at all, where it neither stores nor calls, and reads
/// nothing that the expression writes, nor what is evaluated beside it, by the names in them.
pub fn calls_refine()
    ensures { (change : Called) → CallsInPlace change nothing_known → IsWholeProgram change.old
        → Refines (machine_of (new_of change)) (machine_of change.old) }
{}

/// In the new program such objects are only named too, where the added function's expression doesn't name them otherwise.
pub fn new_programs_only_name()
    ensures { (change : Called) (known : Known) → CallsInPlace change known → (d : ℕ) → known.closed d ≡ true → AreListed change
        → ProgramNamesOnly d change.old → NamesOnly (change.rename d) change.body → ProgramNamesOnly (change.rename d) (new_of change) }
{}

/// So it does where certain local objects are known to be closed: what declares them is named only where it is read or written, in both programs. Then
/// no function that is called changes them, and nothing that is stored through a pointer. So an argument that reads them may be read behind calls.
pub fn closed_calls_refine()
    ensures { (change : Called) (closed : ℕ → Bool) → CallsInPlace change (known_closed closed) → AreOnlyNamed change closed → IsWholeProgram change.old
        → Refines (machine_of (new_of change)) (machine_of change.old) }
{}

/// And where certain functions are known to write nothing that was there when they were called: an argument that reads any objects may be read behind
/// calls of these.
pub fn known_calls_refine()
    ensures { (change : Called) (closed quiet : ℕ → Bool) → CallsInPlace change (known_where closed quiet) → AreOnlyNamed change closed
        → AreQuiet change.old quiet → IsWholeProgram change.old → Refines (machine_of (new_of change)) (machine_of change.old) }
{}

/// And where certain expressions are known to come to something wherever they stand in the full expression under evaluation: such an argument need
/// not be read first, only somewhere. The new program evaluates it, also where the old one never does.
pub fn safe_calls_refine()
    ensures { (change : Called) (closed quiet : ℕ → Bool) (safe : Tree → Bool) → CallsInPlace change (known_with closed quiet safe)
        → AreOnlyNamed change closed → AreQuiet change.old quiet → AreAlwaysSafe change.old safe → IsWholeProgram change.old
        → Refines (machine_of (new_of change)) (machine_of change.old) }
{}
