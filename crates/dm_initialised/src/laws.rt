ghost use Rattle.std.specs.Prelude.{◌≡◌, ℕ, Bool, List, ◌++◌, Some};
ghost use Rattle.dm_type.specs.Tables.{Table};
ghost use Rattle.dm_tree.specs.declared.unit.CoreUnit.{CoreUnit};
ghost use Rattle.dm_tree.specs.TypeNumbers.{IsTypedUnit};
ghost use Rattle.dm_tree.specs.Units.{TypedUnit};
ghost use Rattle.dm_tree.specs.Views.{view_of_unit};
ghost use Rattle.dm_meaning.specs.Machines.{RunsTo};
ghost use Rattle.dm_meaning.specs.Lifetimes.{IsAlive};
ghost use Rattle.dm_meaning.specs.Operations.{object_named};
ghost use Rattle.dm_meaning.specs.Programs.{Program};
ghost use Rattle.dm_meaning.specs.States.{State};
ghost use Rattle.dm_meaning.specs.Steps.{Step};
ghost use Rattle.dm_meaning.specs.Units.{Begins, machine_of, program_of};
ghost use Rattle.dm_effect.specs.Scoped.{IsScopedUnit};
ghost use Rattle.dm_sound.specs.TypedRuns.{IsTypedProgram};
ghost use Rattle.dm_sound.specs.TypedTrees.{IsSoundTable};
ghost use Rattle.dm_sound.specs.TypedStates.{IsTypedState};
ghost use Rattle.dm_initialised.specs.Living.{IsLivingState};
ghost use Rattle.dm_initialised.specs.SetStates.{IsSetState, NamesAreSet};
ghost use Rattle.dm_initialised.specs.Settled.{IsSettledProgram};
ghost use Rattle.dm_initialised.specs.Units.{has_first_value, IsInitialisedUnit};

/// A run of a typed program begins where objects are set: the parameters of `main`, and each scalar object of static storage duration.
pub fn runs_begin_set()
    ensures { (program : Program) (needs : ℕ → Bool) (input : List ℕ) (state : State) → IsTypedProgram program → IsSettledProgram needs program
        → Begins program input state → IsSetState program needs state }
{}

/// Each step keeps them so: a declarator with an initialiser has given its object a value by the time that something behind it is
/// evaluated, however control comes there, and what holds a value goes on to hold one.
pub fn steps_keep_objects_set()
    ensures { (program : Program) (needs : ℕ → Bool) (state other : State) → IsTypedProgram program → IsSettledProgram needs program
        → IsTypedState program state → IsSetState program needs state → Step program state other → IsSetState program needs other }
{}

/// In each state of each run on bytes objects are set.
pub fn objects_stay_set()
    ensures { (program : Program) (needs : ℕ → Bool) (input : List ℕ) (n : ℕ) (state : State) → IsTypedProgram program
        → IsSettledProgram needs program → RunsTo (machine_of program) input n state → IsSetState program needs state }
{}

/// Parameters, and objects whose declarators have initialisers, are set wherever a full expression names them that is under evaluation,
/// but for one whose own first value that is.
pub fn initialised_objects_are_set()
    ensures { (program : Program) (needs : ℕ → Bool) (input : List ℕ) (n : ℕ) (state : State) → IsTypedProgram program
        → IsSettledProgram needs program → RunsTo (machine_of program) input n state → NamesAreSet program needs state }
{}

/// The program of a scoped unit is settled for automatic objects each of which is declared once in its function, as a parameter or by a
/// declarator with an initialiser.
pub fn units_give_settled_programs()
    ensures { (types : Table) (one : TypedUnit) (needs : ℕ → Bool) → IsInitialisedUnit needs one → IsScopedUnit one
        → IsSettledProgram needs (program_of types one) }
{}

/// The automatic objects of a unit that have first values are such: parameters, and objects that are declared once in their function, by a
/// declarator with an initialiser that isn't an item of a `switch`.
pub fn first_values_are_given()
    ensures { (one : TypedUnit) → IsInitialisedUnit (has_first_value one) one }
{}

/// So, in each run of the program of a well-typed and scoped unit on bytes, these objects are set wherever a full expression names them that
/// is under evaluation, but for one whose own first value that is.
pub fn units_name_what_is_set()
    ensures { (types : Table) (one : CoreUnit) (needs : ℕ → Bool) (input : List ℕ) (n : ℕ) (state : State) → IsSoundTable types
        → IsTypedUnit types one → IsScopedUnit (view_of_unit types one) → IsInitialisedUnit needs (view_of_unit types one)
        → RunsTo (machine_of (program_of types (view_of_unit types one))) input n state
        → NamesAreSet (program_of types (view_of_unit types one)) needs state }
{}

/// Each step of any program keeps those objects alive that declarations name afterwards, and no two of them one.
pub fn steps_keep_named_objects_alive()
    ensures { (program : Program) (state other : State) → IsLivingState state → Step program state other → IsLivingState other }
{}

/// So, in each state of each run of any program on bytes they are, in the function that is running, in those that wait, and in static
/// storage.
pub fn named_objects_stay_alive()
    ensures { (program : Program) (input : List ℕ) (n : ℕ) (state : State) → RunsTo (machine_of program) input n state → IsLivingState state }
{}

/// In each of these states, an object that a declaration names where control is, is alive.
pub fn named_objects_are_alive()
    ensures { (program : Program) (input : List ℕ) (n : ℕ) (state : State) (d m : ℕ) → RunsTo (machine_of program) input n state
        → object_named (state.statics ++ state.frame.objects) d ≡ Some m → IsAlive state.world.memory m }
{}
