ghost use Rattle.std.specs.Prelude.{◌≡◌, ◌⊎◌, ℕ, Bool, true, false, List, [], length, Some, None, ℤ};
ghost use Rattle.dm_token.specs.declared.place.Place.{Place};
ghost use Rattle.dm_int.specs.declared.Kind.{Kind};
ghost use Rattle.dm_type.specs.CTypes.{CType};
ghost use Rattle.dm_type.specs.Tables.{Table};
ghost use Rattle.dm_tree.specs.Trees.{Label, Tree};
ghost use Rattle.dm_tree.specs.Units.{TypedUnit};
ghost use Rattle.dm_meaning.specs.Among.{IsAmong};
ghost use Rattle.dm_meaning.specs.Memory.{Block, look_up, killed};
ghost use Rattle.dm_meaning.specs.Programs.{Definition, Program};
ghost use Rattle.dm_meaning.specs.Refinement.{Refines};
ghost use Rattle.dm_meaning.specs.Simulation.{GoesWrong};
ghost use Rattle.dm_meaning.specs.States.{Use, Task, State};
ghost use Rattle.dm_meaning.specs.Steps.{opened_memory, scene_of, Step};
ghost use Rattle.dm_meaning.specs.Units.{start, machine_of, program_of};
ghost use Rattle.dm_meaning.specs.Values.{At, Value, numbered, overlaps_any};
ghost use Rattle.dm_meaning.specs.Operations.{World, Scene, Operand, Objects, object_named, operate, whole};
ghost use Rattle.dm_meaning.specs.Running.{Run, Hole, begun, IsOpen, filled_in, locks_in};
ghost use Rattle.dm_meaning.specs.Expressions.{Move, goes, moves, kind_of_run};
ghost use Rattle.dm_rewrite.specs.Computed.{Computed, computed, IsPure, is_pure_label};
ghost use Rattle.dm_rewrite.specs.Aside.{Claims, Follows, AsideFits, IsForeseen};
ghost use Rattle.dm_rewrite.specs.Closed.{MemoryAvoids, IsClosedIn, StaysClosed};
ghost use Rattle.dm_rewrite.specs.ClosedStates.{ProgramNamesOnly, OnlyNames, IsUnreached, IsClosedState};
ghost use Rattle.dm_rewrite.specs.Effects.{Effect, Stage, IsFree, effects_of, Writes, ChangesOnly, LeavesNoMore};
ghost use Rattle.dm_rewrite.specs.KeptMemory.{HasSameObjects, KeepsPlaces};
ghost use Rattle.dm_rewrite.specs.NamedConstants.{Named, new_of as named_of, IsNaming, NameAlike, HasHeld, RunAgrees, Matched, AddsObject};
ghost use Rattle.dm_rewrite.specs.NamedUnits.{IsUnitNaming};
ghost use Rattle.dm_rewrite.specs.StepEffects.{stage_of, next_effects, StillHolds};
ghost use Rattle.dm_rewrite.specs.PureSteps.{DidPlain, StepKeeps, Meets, IsAt, Evaluated};

/// The step of a node that neither stores nor calls leaves the world as it is, and locks nothing.
pub fn plain_steps()
    ensures { (scene : Scene) (world : World) (locks : List At) (label : Label) (kind : CType) (operands : List Operand)
        → is_pure_label label ≡ true → DidPlain world (operate scene world locks label kind operands) }
{}

/// A tree that neither stores nor calls is evaluated in any order to one result.
pub fn pure_steps()
    // Each of its steps, beside any locks, leaves such a tree in the same world, which comes to the same result and reads no more. It is
    // undefined only where the tree comes to nothing, or reads a place that is locked.
    ensures each { (scene : Scene) (world : World) (locks : List At) (run : Run) → IsPure run
        → (move : Move Run Hole) → IsAmong move (moves scene world locks run)
        → StepKeeps scene world locks (kind_of_run run) (computed scene world run) move }
    // Anywhere in the full expression that a program is at, it is evaluated in one go, while everything else of the state stands still, or the
    // program can go wrong:
    ensures at_once { (program : Program) (place : Place) (hole : Hole) (use_of : Use) (rest : List Task) (state : State) (run : Run)
        → IsAt place hole use_of rest state run → IsPure run
        → GoesWrong (machine_of program) state ⊎ Evaluated program place hole use_of rest state run }
    // the one where it comes to something and reads nothing that is locked there, the other where it doesn't.
    ensures defined { (program : Program) (place : Place) (hole : Hole) (use_of : Use) (rest : List Task) (state : State) (run : Run)
        → IsAt place hole use_of rest state run → IsPure run
        → (found : Computed) → computed (scene_of program state) state.world run ≡ Some found
        → ((at : At) → IsAmong at found.reads → overlaps_any at (locks_in (filled_in hole run)) ≡ false)
        → Evaluated program place hole use_of rest state run }
    ensures wrong { (program : Program) (place : Place) (hole : Hole) (use_of : Use) (rest : List Task) (state : State) (run : Run)
        → IsAt place hole use_of rest state run → IsPure run
        → Meets (locks_in (filled_in hole run)) (computed (scene_of program state) state.world run)
        → GoesWrong (machine_of program) state }
{}

/// What a tree that neither stores nor calls comes to, it comes to in any later memory in which the objects that can be used are still there, and
/// the places that it reads hold what they held.
pub fn kept_computations()
    ensures { (scene : Scene) (world later : World) → HasSameObjects world.memory later.memory → (run : Run) → IsPure run
        → (found : Computed) → computed scene world run ≡ Some found → KeepsPlaces world.memory later.memory found.reads
        → computed scene later run ≡ Some found }
{}

/// The evaluation of a tree that neither stores nor calls, which the program hasn't begun, can be followed on the side: it comes to what the tree
/// comes to.
pub fn evaluations_aside()
    // Each step of it, beside any locks, still follows the tree, unless the tree comes to nothing now or reads what is locked.
    ensures each { (scene : Scene) (world : World) (locks : List At) (tree aside : Run) → IsPure tree → IsPure aside
        → kind_of_run aside ≡ kind_of_run tree → Follows scene world tree aside
        → (move : Move Run Hole) → IsAmong move (moves scene world locks aside) → AsideFits scene world locks tree move }
    // What a part of it comes to is known beforehand, unless the tree comes to nothing.
    ensures part { (scene : Scene) (world : World) (tree : Run) (hole : Hole) (run : Run) → IsOpen hole → IsPure (filled_in hole run)
        → Follows scene world tree (filled_in hole run) → IsForeseen scene world tree hole run ⊎ (computed scene world tree ≡ None) }
    // It follows the tree in any later memory in which the places that the tree reads hold what they held.
    ensures kept { (scene : Scene) (world later : World) → HasSameObjects world.memory later.memory → (tree aside : Run) → IsPure tree → IsPure aside
        → (claims : Claims scene world tree aside) → KeepsPlaces world.memory later.memory claims.found.reads → Claims scene later tree aside }
{}

/// A step of a tree changes memory only in what the tree may write, by the names in it.
pub fn effects_of_steps()
    ensures writes { (stage : Stage) (world : World) (locks : List At) (run later : Run) (after : World)
        → IsAmong (goes after later) (moves stage.scene world locks run) → Writes world after (effects_of stage run) }
    ensures others_stay { (stage : Stage) (world : World) (locks : List At) (run later : Run) (after : World)
        → IsAmong (goes after later) (moves stage.scene world locks run) → ChangesOnly stage (effects_of stage run) world after }
{}

/// A tree that names an object only where it is read or written makes no pointer to it: each step leaves such a tree, and memory without such
/// pointers, and gives none to a call.
pub fn closed_objects()
    ensures { (n : ℕ) (scene : Scene) (world : World) → MemoryAvoids n world.memory → (locks : List At) (run : Run) → IsClosedIn n scene.objects run
        → (move : Move Run Hole) → IsAmong move (moves scene world locks run) → StaysClosed n scene.objects move }
{}

/// Where closed objects are only named so, a tree may write no more after a step than before, and no more behind a call.
pub fn effects_shrink()
    ensures { (stage : Stage) (world : World) (locks : List At) → ((n : ℕ) → IsAmong n stage.closed → MemoryAvoids n world.memory)
        → (run : Run) → ((n : ℕ) → IsAmong n stage.closed → IsClosedIn n stage.scene.objects run)
        → (move : Move Run Hole) → IsAmong move (moves stage.scene world locks run) → LeavesNoMore stage (effects_of stage run) move }
{}

/// A full expression that begins has no effect on a closed object for which no name stands in its frame.
pub fn unnamed_objects()
    ensures { (stage : Stage) (n : ℕ) → IsAmong n stage.closed → ((d : ℕ) → object_named stage.scene.objects d ≡ Some n → ⊥)
        → (tree : Tree) → IsFree stage.closed (effects_of stage (begun tree)) n }
{}

/// Where all trees of a program name what a declaration declares only where it is read or written, each step leaves an object of that declaration
/// as closed as it was: no pointer to it is in memory, nor among results, arguments and values handed back, in any frame.
pub fn closed_states()
    ensures { (n d : ℕ) (program : Program) → ProgramNamesOnly d program → (state other : State) → IsClosedState n d state → Step program state other
        → IsClosedState n d other }
{}

/// At the beginning of a run no pointer leads to an object that is neither of static storage duration nor argv's.
pub fn closed_beginnings()
    ensures { (n d : ℕ) (program : Program) → ProgramNamesOnly d program → (names : ℕ → ℕ) (main : Definition) → IsAmong main program.functions
        → (input : List ℕ) → ((e : ℕ) → object_named (start names program main input).statics e ≡ Some n → ⊥)
        → OnlyNames n d (start names program main input).statics → (names (length program.statics) ≡ n → ⊥)
        → OnlyNames n d (start names program main input).frame.objects → IsUnreached n d (start names program main input) }
{}

/// What of a world stays so while functions that a frame has called run: changes come one after the other, and objects that are made meanwhile, and
/// that die again, are none that were there.
pub fn changes_of_frames()
    ensures joined { (stage : Stage) (effects : List Effect) (a b c : World) → ChangesOnly stage effects a b → ChangesOnly stage effects b c
        → ChangesOnly stage effects a c }
    ensures opened { (stage : Stage) (effects : List Effect) (start world : World) (program : Program) (names : ℕ → ℕ) (definition : Definition)
        (arguments : List Value) → ((i : ℕ) → look_up start.memory (names i) ≡ None) → ChangesOnly stage effects start world
        → ChangesOnly stage effects start (record world { memory = opened_memory program names definition arguments world.memory }) }
    ensures ended { (stage : Stage) (effects : List Effect) (start world : World) (numbers : List ℕ)
        → ((n : ℕ) → IsAmong n numbers → look_up start.memory n ≡ None) → ChangesOnly stage effects start world
        → ChangesOnly stage effects start (record world { memory = killed numbers world.memory }) }
{}

/// A step of a program writes only in objects that its next task names as written, or that aren't closed where it writes through a pointer: all
/// others hold what they held.
pub fn effects_of_program_steps()
    ensures { (program : Program) (closed : List ℕ) (quiet : ℕ → Bool) (state other : State) → Step program state other
        → (n : ℕ) (block : Block) → look_up state.world.memory n ≡ Some block
        → IsFree closed (next_effects (stage_of program closed quiet state) state) n → StillHolds other.world.memory n block }
{}

/// Where the new program reads an added const object and the old one has an integer constant expression of its type and value, each step of a tree
/// of the new program is met in the old one. The read is a step that gives the value and meets no lock.
pub fn named_constant_steps()
    ensures { (change : Named) (n : ℕ) → IsNaming change → (news objects : Objects) → NameAlike change n news objects
        → (world : World) → HasHeld change n world.memory → (locks : List At) → overlaps_any (whole (numbered n)) locks ≡ false
        → (run other : Run) → RunAgrees change n run other
        → (move : Move Run Hole) → IsAmong move (moves (record { program = named_of change; objects = news }) world locks run)
        → Matched change n (record { program = change.old; objects = objects }) world locks other move }
{}

/// A program in which integer constant expressions have become reads of an added const object of their type and value refines the program with
/// the expressions, where its static objects are those of that program, with the same initialisers, and the added one, at any place among them.
pub fn named_constants_refine()
    ensures { (change : Named) → IsNaming change → AddsObject change → Refines (machine_of (named_of change)) (machine_of change.old) }
{}

/// A translation unit that declares one const object of static storage duration more, in file scope, and reads it in place of integer constant
/// expressions of its type and value, refines the unit without it.
pub fn named_units_refine()
    ensures { (table : Table) (new old : TypedUnit) (rename : ℕ → ℕ) (added : ℕ) (kind : Kind) (value : ℤ)
        → IsUnitNaming table new old rename added kind value
        → Refines (machine_of (program_of table new)) (machine_of (program_of table old)) }
{}
