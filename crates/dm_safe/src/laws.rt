ghost use Rattle.std.specs.Prelude.{◌≡◌, ℕ, Bool, true, List, Some, ℤ};
ghost use Rattle.dm_type.specs.CTypes.{CType};
ghost use Rattle.dm_tree.specs.Trees.{Tree};
ghost use Rattle.dm_meaning.specs.Among.{IsAmong};
ghost use Rattle.dm_meaning.specs.Machines.{RunsTo};
ghost use Rattle.dm_meaning.specs.Operations.{Scene, World};
ghost use Rattle.dm_meaning.specs.Programs.{constant_of, Definition, layout, Program};
ghost use Rattle.dm_meaning.specs.Running.{begun};
ghost use Rattle.dm_meaning.specs.States.{State};
ghost use Rattle.dm_meaning.specs.Units.{machine_of};
ghost use Rattle.dm_effect.specs.Forms.{is_built};
ghost use Rattle.dm_effect.specs.Safe.{safe_rule};
ghost use Rattle.dm_sound.specs.TypedRuns.{IsTypedProgram};
ghost use Rattle.dm_sound.specs.TypedSteps.{IsTypedScope};
ghost use Rattle.dm_sound.specs.TypedTrees.{IsTyped};
ghost use Rattle.dm_sound.specs.TypedValues.{AreTyped};
ghost use Rattle.dm_initialised.specs.Settled.{IsSettledProgram};
ghost use Rattle.dm_central.specs.ClosedPrograms.{AreAlwaysSafe};
ghost use Rattle.dm_spans.specs.MovedPrograms.{IsMovedProgram};
ghost use Rattle.dm_safe.specs.Numbers.{ComesTo, ComesToNumber, HoldsInteger, Names};
ghost use Rattle.dm_safe.specs.SafePrograms.{AreSafeTrees};
ghost use Rattle.dm_safe.specs.Spared.{IsSparedState, TreeSpares};

/// The evaluation of a typed integer constant expression with a value comes to that, in any order, and reads nothing.
pub fn constants_come_to_their_values()
    ensures { (scene : Scene) (world : World) → IsTypedScope scene.program → AreTyped (layout scene.program) world.memory → (result : CType) (tree : Tree)
        → IsTyped scene.program result tree → (z : ℤ) → constant_of scene.program tree ≡ Some z → ComesTo scene world tree z }
{}

/// A typed tree that is made by operators that can't go wrong of reads of objects comes to a number, where the objects that it names hold
/// integers, in any order of evaluation.
pub fn safe_trees_come_to_numbers()
    ensures { (scene : Scene) (world : World) → IsTypedScope scene.program → AreTyped (layout scene.program) world.memory → (result : CType)
        (test : ℕ → Bool) (tree : Tree) → IsTyped scene.program result tree → is_built (safe_rule test) tree ≡ true
        → ((d : ℕ) → test d ≡ true → Names d (begun tree) → HoldsInteger scene world.memory d) → ComesToNumber scene world tree }
{}

/// Where no expression in an initialiser of an object takes that for set, none does in a full expression whose value the object, or a part of it, is
/// to have first.
pub fn own_first_values_are_spared()
    ensures { (program : Program) (needs : ℕ → Bool) (sets : Tree → ℕ → Bool) → ((definition : Definition) → IsAmong definition program.functions
        → TreeSpares needs sets definition.body)
        → (input : List ℕ) (n : ℕ) (state : State) → RunsTo (machine_of program) input n state → IsSparedState needs sets state }
{}

/// So the safe expressions of a typed program come to a value in each state of each run, wherever they stand in the full expression that is
/// under evaluation, whether the program evaluates them or not. They read objects that are set where they are named, or of static storage
/// duration.
pub fn safe_expressions_always_come()
    ensures { (program : Program) (needs : ℕ → Bool) (sets : Tree → ℕ → Bool) (safe : Tree → Bool) → IsTypedProgram program
        → IsSettledProgram needs program → AreSafeTrees program needs sets safe → AreAlwaysSafe program safe }
{}

/// Objects that are set where they are named are so where the trees of the program stand elsewhere.
pub fn programs_are_settled_anywhere()
    ensures { (needs : ℕ → Bool) (program other : Program) → IsMovedProgram program other → IsSettledProgram needs program → IsSettledProgram needs other }
{}
