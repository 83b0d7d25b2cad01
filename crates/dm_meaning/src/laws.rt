ghost use Rattle.std.specs.Prelude.{◌≡◌, ◌⊎◌, ℕ, List, Some, length};
ghost use Rattle.dm_meaning.specs.Among.{IsAmong};
ghost use Rattle.dm_meaning.specs.Machines.{going, RunsWithin};
ghost use Rattle.dm_meaning.specs.MoreObjects.{IsSettled, Spared, with_memory};
ghost use Rattle.dm_meaning.specs.Refinement.{Refines};
ghost use Rattle.dm_meaning.specs.Replaced.{Replaced, new_of, IsReplacement};
ghost use Rattle.dm_meaning.specs.Choices.{run_by};
ghost use Rattle.dm_meaning.specs.Simulation.{IsSimulation, GoesWrong};
ghost use Rattle.dm_meaning.specs.Values.{At, Value};
ghost use Rattle.dm_meaning.specs.Programs.{Program};
ghost use Rattle.dm_tree.specs.Trees.{Label};
ghost use Rattle.dm_type.specs.CTypes.{CType};
ghost use Rattle.dm_meaning.specs.Operations.{World, Scene, Operand, operate};
ghost use Rattle.dm_meaning.specs.Running.{Run, Hole, filled_in, hole_in, IsOpen, locks_in};
ghost use Rattle.dm_meaning.specs.Expressions.{Move, moves, lifted};
ghost use Rattle.dm_meaning.specs.Extending.{Extends, HasAll, AreAmong, SameUnlessUndefined, SameOptionalAnswer};
ghost use Rattle.dm_meaning.specs.Memory.{Memory};
ghost use Rattle.dm_meaning.specs.Objects.{Layout};
ghost use Rattle.dm_meaning.specs.Primitives.{Prim};
ghost use Rattle.dm_meaning.specs.Lifetimes.{IsAlive, numbers_of};
ghost use Rattle.dm_meaning.specs.States.{State};
ghost use Rattle.dm_meaning.specs.Steps.{Step};
ghost use Rattle.dm_meaning.specs.Units.{AreBytes, Begins, machine_of, program_of};
ghost use Rattle.dm_meaning.specs.ReplacedUnits.{IsUnitReplacement};
ghost use Rattle.dm_tree.specs.Units.{TypedUnit};
ghost use Rattle.dm_type.specs.Tables.{Table};

/// A state that hasn't ended has a step.
pub fn unended_steps()
    ensures { (program : Program) (state : State) → state.standing ≡ going → (other : State) × Step program state other }
{}

/// A step of a part of an expression that may be evaluated is a step of the whole.
pub fn inner_steps()
    ensures { (scene : Scene) (world : World) (locks : List At) (hole : Hole) (run : Run) (move : Move Run Hole) → IsOpen hole
        → IsAmong move (moves scene world locks run)
        → IsAmong (lifted (filled_in hole) (hole_in hole) move) (moves scene world locks (filled_in hole run)) }
{}

/// The locks of a part of an expression are among those of the whole.
pub fn inner_locks()
    ensures { (hole : Hole) (run : Run) (lock : At) → IsAmong lock (locks_in run) → IsAmong lock (locks_in (filled_in hole run)) }
{}

/// What a run has come to by choices, one for each step, is what a run of the machine has come to: by as many steps where it
/// hasn't ended, and by no more where it has.
pub fn chosen_runs()
    ensures { (program : Program) (choices input : List ℕ) (state : State) → AreBytes input → run_by program choices input ≡ Some state
        → RunsWithin (machine_of program) input (length choices) state }
{}

/// Each program refines itself.
pub fn refines_itself()
    ensures { (program : Program) → Refines (machine_of program) (machine_of program) }
{}

/// What refines a program that refines another refines that.
pub fn refines_through()
    ensures { (new middle old : Program) → Refines (machine_of new) (machine_of middle) → Refines (machine_of middle) (machine_of old)
        → Refines (machine_of new) (machine_of old) }
{}

/// A relation between the states of two programs.
pub trait Simulation {
    ghost new: { Program };

    ghost old: { Program };

    /// The old program may stand at the second state when the new one stands at the first, and may take at most so many
    /// steps more before the old one has to move.
    ghost relates: { ℕ → State → State → Type 0 };

    /// How many steps that may be when a run begins.
    ghost first: { ℕ };

    /// By how many a step of the old program may raise it.
    ghost rise: { ℕ };
}

/// Where there is a simulation between two programs, the new one refines the old one.
pub fn simulated<S: Simulation>()
    requires { IsSimulation (machine_of S.new) (machine_of S.old) S.relates S.first S.rise }
    ensures { Refines (machine_of S.new) (machine_of S.old) }
{}

/// A program in which integer constant expressions of type int have become enumerators of the same value, at any places,
/// refines the program with the expressions.
pub fn enumerated_refines()
    ensures { (change : Replaced) → IsReplacement change → Refines (machine_of (new_of change)) (machine_of change.old) }
{}

/// The step of a node whose operands are evaluated is the same in a world with more objects and beside fewer locks, unless
/// it is undefined in the smaller one.
pub fn extended_steps()
    ensures { (scene : Scene) (world more : World) → Extends more world → (locks fewer : List At) → AreAmong fewer locks
        → (label : Label) (kind : CType) (operands : List Operand)
        → SameUnlessUndefined (operate scene world locks label kind operands) (operate scene more fewer label kind operands) }
{}

/// A step ends the lifetime of no object but those of the function that is running.
pub fn own_lifetimes()
    ensures { (program : Program) (state other : State) → Step program state other → (n : ℕ) → IsAlive state.world.memory n
        → IsAmong n (numbers_of state.frame.objects) ⊎ IsAlive other.world.memory n }
{}

/// A translation unit in which integer constant expressions of type int have become enumerators of the same value, declared
/// by declarations that are added, refines the unit with the expressions.
pub fn units_refine()
    ensures { (table : Table) (new old : TypedUnit) (rename : ℕ → ℕ) → IsUnitReplacement table new old rename
        → Refines (machine_of (program_of table new)) (machine_of (program_of table old)) }
{}

/// A call of one of the machine's own functions gives the same answer in a memory with more objects, unless it is
/// undefined in the smaller one.
pub fn extended_answers()
    ensures { (layout : Layout) (memory more : Memory) → HasAll more memory
        → (name : List ℕ) (kind : CType) (arguments : List Value) (input output : List ℕ)
        → SameOptionalAnswer (Prim name kind layout memory arguments input output) (Prim name kind layout more arguments input output) }
{}

/// A step from a state with more objects in memory, which the state doesn't name, is a step from the state without them, and
/// leaves them as they were, unless the program can go wrong without them.
pub fn spared_steps()
    ensures { (program : Program) (state later : State) (more : Memory) → IsSettled state → HasAll more state.world.memory
        → Step program (with_memory state more) later → GoesWrong (machine_of program) state ⊎ Spared program state later more }
{}

/// Whatever a state names at the beginning of a run has been made.
pub fn settled_beginnings()
    ensures { (program : Program) (input : List ℕ) (state : State) → Begins program input state → IsSettled state }
{}
