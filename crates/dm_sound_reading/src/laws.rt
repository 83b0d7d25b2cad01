//! What holds of each reading. It takes the premises of the laws on typed programs away, which no reading lacks.

ghost use Rattle.std.specs.Prelude.{◌≡◌, ℕ, Bool, List};
ghost use Rattle.dm_tree.specs.Typing.{IsWellTypedUnit};
ghost use Rattle.dm_tree.specs.Views.{view_of_unit};
ghost use Rattle.dm_meaning.specs.Machines.{RunsTo};
ghost use Rattle.dm_meaning.specs.States.{State};
ghost use Rattle.dm_meaning.specs.Steps.{Step};
ghost use Rattle.dm_meaning.specs.Units.{machine_of, program_of};
ghost use Rattle.dm_effect.specs.Scoped.{IsScopedUnit};
ghost use Rattle.dm_reading.specs.declared.reading.Reading.{Reading};
ghost use Rattle.dm_reading.specs.Layered.{IsLayered};
ghost use Rattle.dm_scoped.specs.Spans.{IsLaidOutUnit};
ghost use Rattle.dm_sound.specs.Lacks.{GivesValues, LacksAtBrace};
ghost use Rattle.dm_sound.specs.TypedRuns.{IsTypedProgram};
ghost use Rattle.dm_sound.specs.TypedStates.{IsTypedState};
ghost use Rattle.dm_sound.specs.TypedTrees.{IsSoundTable};
ghost use Rattle.dm_initialised.specs.SetStates.{IsSetState, NamesAreSet};
ghost use Rattle.dm_initialised.specs.Units.{has_first_value, IsInitialisedUnit};

use dm_outcome::one_reading;

/// The table of a reading's types is sound, its unit is well typed, each name of an automatic object in it stands in the scope of the
/// object's declaration, the nodes of its trees stand inside one another and in order among its tokens, and its program is typed.
pub fn readings_are_sound()
    ensures table { (reading : Reading) → IsLayered reading → IsSoundTable reading.types }
    ensures unit { (reading : Reading) → IsLayered reading → IsWellTypedUnit reading.types (view_of_unit reading.types reading.core) }
    ensures scopes { (reading : Reading) → IsLayered reading → IsScopedUnit (view_of_unit reading.types reading.core) }
    ensures layout { (reading : Reading) → IsLayered reading → IsLaidOutUnit (view_of_unit reading.types reading.core) }
    ensures program { (reading : Reading) → IsLayered reading → IsTypedProgram (program_of reading.types (view_of_unit reading.types reading.core)) }
{}

/// So each state of each run of its program on bytes is typed.
pub fn readings_run_typed()
    ensures { (reading : Reading) (input : List ℕ) (n : ℕ) (state : State) → IsLayered reading
        → RunsTo (machine_of (program_of reading.types (view_of_unit reading.types reading.core))) input n state
        → IsTypedState (program_of reading.types (view_of_unit reading.types reading.core)) state }
{}

/// In each run of its program on bytes, a step is undefined because a value is lacking (`novalue`) only at the closing brace of a function that
/// isn't `main` and whose result isn't void (6.9.1p12): no expression lacks one, and no call.
pub fn readings_lack_values_at_closing_braces_alone()
    ensures results { (reading : Reading) → IsLayered reading → GivesValues (program_of reading.types (view_of_unit reading.types reading.core)) }
    ensures steps { (reading : Reading) (input : List ℕ) (n : ℕ) (state other : State) → IsLayered reading
        → RunsTo (machine_of (program_of reading.types (view_of_unit reading.types reading.core))) input n state
        → Step (program_of reading.types (view_of_unit reading.types reading.core)) state other
        → LacksAtBrace (program_of reading.types (view_of_unit reading.types reading.core)) state other }
{}

/// So in each state of each run on bytes the automatic objects of its unit that have first values are set behind them, and scalar objects of
/// static storage duration are. These objects are set wherever a full expression names them that is under evaluation, but for one whose own
/// first value that is; so are others of which it is known that they are parameters or have initialisers.
pub fn readings_name_what_is_set()
    ensures states { (reading : Reading) (input : List ℕ) (n : ℕ) (state : State) → IsLayered reading
        → RunsTo (machine_of (program_of reading.types (view_of_unit reading.types reading.core))) input n state
        → let unit = view_of_unit reading.types reading.core in IsSetState (program_of reading.types unit) (has_first_value unit) state }
    ensures names { (reading : Reading) (input : List ℕ) (n : ℕ) (state : State) → IsLayered reading
        → RunsTo (machine_of (program_of reading.types (view_of_unit reading.types reading.core))) input n state
        → let unit = view_of_unit reading.types reading.core in NamesAreSet (program_of reading.types unit) (has_first_value unit) state }
    ensures others { (reading : Reading) (needs : ℕ → Bool) (input : List ℕ) (n : ℕ) (state : State) → IsLayered reading
        → IsInitialisedUnit needs (view_of_unit reading.types reading.core)
        → RunsTo (machine_of (program_of reading.types (view_of_unit reading.types reading.core))) input n state
        → NamesAreSet (program_of reading.types (view_of_unit reading.types reading.core)) needs state }
{}

/// Two readings of the same preprocessing tokens have the same runs, whatever numbers types have in each.
pub fn readings_run_alike()
    ensures { (one other : Reading) (input : List ℕ) (n : ℕ) (state : State) → IsLayered one → IsLayered other → other.pp.tokens ≡ one.pp.tokens
        → RunsTo (machine_of (program_of one.types (view_of_unit one.types one.core))) input n state
        → RunsTo (machine_of (program_of other.types (view_of_unit other.types other.core))) input n state }
{
    // The law on which its proof rests.
    one_reading();
}
