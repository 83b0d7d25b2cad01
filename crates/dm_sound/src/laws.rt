ghost use Rattle.std.specs.Prelude.{◌≡◌, ℕ, IsTrue, List, [], Some};
ghost use Rattle.dm_token.specs.declared.place.Place.{Place};
ghost use Rattle.dm_int.specs.declared.Kind.{Kind};
ghost use Rattle.dm_type.specs.CTypes.{CType, array};
ghost use Rattle.dm_type.specs.Structs.{AreSameStructs};
ghost use Rattle.dm_type.specs.Tables.{Table};
ghost use Rattle.dm_tree.specs.Constants.{integer_kind};
ghost use Rattle.dm_tree.specs.Trees.{Label, Spans, Tree, Trees, node};
ghost use Rattle.dm_tree.specs.declared.unit.CoreUnit.{CoreUnit};
ghost use Rattle.dm_tree.specs.TypeNumbers.{IsTypedUnit};
ghost use Rattle.dm_tree.specs.Typing.{IsWellTypedUnit};
ghost use Rattle.dm_tree.specs.Units.{TypedUnit};
ghost use Rattle.dm_tree.specs.Views.{view_of_unit};
ghost use Rattle.dm_meaning.specs.declared.cause.Cause.{Cause};
ghost use Rattle.dm_meaning.specs.declared.cause.Cause.TheVariants.{NoValue};
ghost use Rattle.dm_meaning.specs.Among.{IsAmong};
ghost use Rattle.dm_meaning.specs.Expressions.{Move, fails, moves};
ghost use Rattle.dm_meaning.specs.Machines.{Goes, RunsTo};
ghost use Rattle.dm_meaning.specs.Memory.{Memory, killed};
ghost use Rattle.dm_meaning.specs.Objects.{Layout, all_unset, all_zero};
ghost use Rattle.dm_meaning.specs.Operations.{Operand, Scene, World, of_value, operate};
ghost use Rattle.dm_meaning.specs.Programs.{Definition, Program, constant_of, layout};
ghost use Rattle.dm_meaning.specs.Running.{Hole, Run, begun, done, filled_in, open_of};
ghost use Rattle.dm_meaning.specs.Statements.{array_of, characters_at, value_listed};
ghost use Rattle.dm_meaning.specs.States.{State};
ghost use Rattle.dm_meaning.specs.Steps.{Step, opened_memory};
ghost use Rattle.dm_meaning.specs.Units.{Begins, machine_of, program_of};
ghost use Rattle.dm_meaning.specs.Values.{At, Value, literal_of};
ghost use Rattle.dm_meaning.specs.Wholes.{is_expression};
ghost use Rattle.dm_sound.specs.Excuses.{HandsBackValues, IsExcusedMove, IsExcusedStep, results_in};
ghost use Rattle.dm_sound.specs.Lacks.{GivesValues, LacksAtBrace};
ghost use Rattle.dm_sound.specs.SameTables.{over};
ghost use Rattle.dm_sound.specs.TypedRuns.{ArgumentsFit, ComesFrom, HoleComesFrom, IsProperUnit, IsTypedProgram, IsTypedWorld, MoveFits};
ghost use Rattle.dm_sound.specs.TypedStates.{IsTypedState};
ghost use Rattle.dm_sound.specs.TypedSteps.{IsTypedScope, AreOperands, DidFits, is_operated};
ghost use Rattle.dm_sound.specs.TypedTrees.{IsSoundTable, IsTyped};
ghost use Rattle.dm_sound.specs.TypedValues.{AreTyped, HasType, IsGiven, has_parts, own_type};

/// The step of a typed node on results of its operands gives a result of the node's type, which for a number is in its kind's range, and
/// leaves each object in memory a value of its type, unless the step is undefined. Where the cause is `type`, an operand designates an
/// object of another type, or the difference of two pointers is too great for its type.
pub fn operators_give_their_types()
    ensures { (scene : Scene) (world : World) (locks : List At) (result : CType) (label : Label) (kind : CType) (spans : Spans) (parts : Trees)
        (operands : List Operand) → IsTypedScope scene.program → IsTyped scene.program result (node label kind spans parts)
        → AreTyped (layout scene.program) world.memory → IsTrue (is_operated label)
        → AreOperands (layout scene.program) (open_of label) parts operands
        → DidFits scene world (node label kind spans parts) operands (operate scene world locks label kind operands) }
{}

/// Each step of an expression under evaluation keeps its type and each object's: what is left comes from the same tree, and a call has
/// an argument of its type for each parameter.
pub fn expressions_keep_their_types()
    ensures { (scene : Scene) (world : World) (locks : List At) (result : CType) (tree : Tree) (run : Run) (move : Move Run Hole)
        → IsTypedProgram scene.program → IsTypedWorld scene.program world → IsTyped scene.program result tree
        → ComesFrom (layout scene.program) tree run → IsAmong move (moves scene world locks run) → MoveFits scene.program world.memory tree move }
{}

/// Where a step of a typed expression is undefined with the cause `type`, that is so because a place that is designated in it holds an
/// object of another type, because two pointers are too far apart, or because `puts` is given what is no text; and never because of the
/// tree: each operand, argument and value that its nodes need is there, and of their types.
pub fn typed_expressions_are_never_ill()
    ensures { (scene : Scene) (world : World) (locks : List At) (result : CType) (tree : Tree) (run : Run) (move : Move Run Hole)
        → IsTypedProgram scene.program → IsTypedWorld scene.program world → IsTyped scene.program result tree
        → IsTrue (is_expression tree) → ComesFrom (layout scene.program) tree run → IsAmong move (moves scene world locks run)
        → IsExcusedMove (layout scene.program) world.memory (results_in run) move }
{}

/// An expression of which nothing is evaluated comes from its tree.
pub fn evaluations_begin()
    ensures { (scene : Scene) (tree : Tree) → ComesFrom (layout scene.program) tree (begun tree) }
{}

/// With a value of the call's type in place of a call, an expression comes from the same tree.
pub fn calls_give_their_types()
    ensures { (scene : Scene) (tree : Tree) (called : CType) (hole : Hole) (value : Value) → HoleComesFrom (layout scene.program) tree called hole
        → IsGiven (layout scene.program) called value → ComesFrom (layout scene.program) tree (filled_in hole (done called (of_value value) [])) }
{}

/// The types of the declarations and of the trees of a unit that the code reads are proper, since a table gave them.
pub fn units_have_proper_types()
    ensures { (types : Table) (one : CoreUnit) → IsProperUnit (view_of_unit types one) }
{}

/// The program of a well-typed unit is typed, where a table gave its types.
pub fn units_give_typed_programs()
    ensures { (types : Table) (one : TypedUnit) → IsSoundTable types → IsWellTypedUnit types one → IsProperUnit one
        → IsTypedProgram (program_of types one) }
{}

/// An object whose scalars aren't set holds a value of its type, and so does one whose scalars are 0 or null pointers.
pub fn first_values_have_their_types()
    ensures { (program : Program) → IsSoundTable program.table → (type : CType)
        → HasType (layout program) type (all_unset (layout program) type) × HasType (layout program) type (all_zero (layout program) type) }
{}

/// When a function is called with an argument of its type for each parameter, the objects of its parameters and of its body hold values of
/// their types, and each object that was there does as before.
pub fn calls_keep_objects_typed()
    ensures { (program : Program) → IsSoundTable program.table → (names : ℕ → ℕ) (definition : Definition) (arguments : List Value) (memory : Memory)
        → ArgumentsFit program definition.parameters arguments → AreTyped (layout program) memory
        → AreTyped (layout program) (opened_memory program names definition arguments memory) }
{}

/// Objects whose lifetime ends hold what they held.
pub fn ends_keep_objects_typed()
    ensures { (program : Program) (numbers : List ℕ) (memory : Memory) → AreTyped (layout program) memory
        → AreTyped (layout program) (killed numbers memory) }
{}

/// When a list in braces begins, what an array or a struct holds is of its type, and so is what a string literal gives an array of
/// characters.
pub fn initialisers_keep_types()
    ensures listed { (program : Program) → IsSoundTable program.table → (type : CType) → IsTrue (has_parts (own_type type)) → (n : ℕ) (value : Value)
        → HasType (layout program) type value → HasType (layout program) type (value_listed (layout program) type n value) }
    ensures literal { (laid : Layout) (element : CType) (kind : Kind) → integer_kind element ≡ Some kind → (count : ℕ) (bytes : List ℕ) (unit : ℕ)
        → HasType laid (array element (Some count)) (array_of (array element (Some count)) (characters_at (literal_of bytes unit))) }
{}

/// Each step of a typed state leaves a typed state: what is left to do in each function that is running is typed, each declaration names
/// an object of its type, each object holds a value of its type, and what a function hands back is of its result's type.
pub fn steps_keep_states_typed()
    ensures { (program : Program) (state other : State) → IsTypedProgram program → IsTypedState program state
        → Step program state other → IsTypedState program other }
{}

/// So is each state of a run that goes on from a typed state.
pub fn runs_stay_typed()
    ensures { (program : Program) (n : ℕ) (state other : State) → IsTypedProgram program
        → IsTypedState program state → Goes (machine_of program) n state other → IsTypedState program other }
{}

/// A run of a typed program on bytes begins in a typed state.
pub fn runs_begin_typed()
    ensures { (program : Program) (input : List ℕ) (state : State) → IsTypedProgram program → Begins program input state
        → IsTypedState program state }
{}

/// Each state of each run of the program of a well-typed unit on bytes is typed.
pub fn typed_programs_run_typed()
    ensures { (types : Table) (one : CoreUnit) (input : List ℕ) (n : ℕ) (state : State) → IsSoundTable types → IsTypedUnit types one
        → RunsTo (machine_of (program_of types (view_of_unit types one))) input n state
        → IsTypedState (program_of types (view_of_unit types one)) state }
{}

/// Where a step of a typed state is undefined with the cause `type`, that is so because a place that is designated in the full expression
/// under evaluation holds an object of another type, because two pointers are too far apart, or because `puts` is given what is no text;
/// and never because a tree were ill typed.
pub fn typed_steps_are_never_ill()
    ensures { (program : Program) (state other : State) → IsTypedProgram program → IsTypedState program state → Step program state other
        → IsExcusedStep program state other }
{}

/// In a typed state, what a function hands back to a call was set, where the call's type has values: no call lacks a value.
pub fn typed_calls_get_their_values()
    ensures { (program : Program) (state : State) → IsTypedState program state → HandsBackValues state }
{}

/// No step of an expression is undefined because a value is lacking (`novalue`), whatever its tree.
pub fn expressions_never_lack_values()
    ensures { (scene : Scene) (world : World) (locks : List At) (run : Run) (cause : Cause) (place : Place)
        → IsAmong (fails cause place) (moves scene world locks run) → ¬ (cause ≡ NoValue) }
{}

/// In a program whose functions give void or values, as those of each typed unit do (6.9.1p3), a step of a typed state is undefined because
/// a value is lacking only at the closing brace of a function that isn't `main` and whose result isn't void (6.9.1p12); never where a call
/// returns.
pub fn values_lack_at_closing_braces_alone()
    ensures { (program : Program) (state other : State) → IsTypedProgram program → GivesValues program → IsTypedState program state
        → Step program state other → LacksAtBrace program state other }
{}

/// Over tables that say the same of structs a program's types are laid out alike, and its constant expressions have the same values. Nothing
/// else of its table is read in a run.
pub fn same_structs_are_laid_out_alike()
    ensures layout { (old new : Table) (program : Program) → AreSameStructs old new → layout (over program new) ≡ layout (over program old) }
    ensures constants { (old new : Table) (program : Program) (tree : Tree) → AreSameStructs old new
        → constant_of (over program new) tree ≡ constant_of (over program old) tree }
{}
