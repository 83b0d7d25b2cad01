//! What follows from alignment, and where an edit is allowed.

ghost use Rattle.std.specs.Prelude.{◌≡◌, true, false, List, None, Ok, is_some, length};
ghost use Rattle.std.specs.List.{AllByRecursion};
ghost use Rattle.dm_token.specs.declared.expansion.Definition.{Definition};
ghost use Rattle.dm_token.specs.declared.unit.Unit.{Unit as Source};
ghost use Rattle.dm_io.specs.Files.{Files};
ghost use Rattle.dm_search.specs.Loaded.{Loaded};
ghost use Rattle.dm_unit.specs.Units.{setting_of};
ghost use Rattle.dm_readings.specs.Reading.{IsReading};
ghost use Rattle.dm_local.specs.Kept.{IsOfLoader};
ghost use Rattle.dm_runs.specs.declared.run.Run.{Run};
ghost use Rattle.dm_edit.specs.declared.change.As.TheVariants.{Function};
ghost use Rattle.dm_edit.specs.declared.change.Change.{Change};
ghost use Rattle.dm_reading.specs.declared.reading.Reading.{Reading};
ghost use Rattle.dm_reading.specs.Layered.{IsLayered};
ghost use Rattle.dm_rules.specs.Uses.{reads, runs_in};
ghost use Rattle.dm_meanings.specs.Types.{unit_in};
ghost use Rattle.dm_macro.specs.Bodies.{named_parameters};
ghost use Rattle.dm_agree.specs.Agreement.{Rewriting};
ghost use Rattle.dm_standing.specs.Calls.{HasArguments, HasOccurrences, MayCall};
ghost use Rattle.dm_alignment.specs.Readings.{AreAlignedReadings};
ghost use Rattle.dm_judge.specs.Rules.{broken_first, rules_of};
ghost use Rattle.dm_meaning.specs.Among.{IsAmong};
ghost use Rattle.dm_refined.specs.Allowed.{IsAllowed, RefinesWhereRead, rules_in};
ghost use Rattle.dm_refined.specs.Programs.{AreOfExpansions, IsMadeFor, KeepsCallRules, RefinesReading};

use dm_apart::{named_parameters_occur, occurrences_are_apart};
use dm_declared::readings_declare_once;
use dm_defined::{definitions_are_made, one_definition, parameters_differ};
use dm_evaluated::evaluated_units_refine;
use dm_late::uncalled_units_refine;
use dm_local::marks_are_listed;
use dm_refine::{object_like_macros_refine, unread_units_refine};
use dm_sound_reading::readings_are_sound;
use dm_standing::{arguments_stand, calls_are_evaluated, occurrences_stand};
use dm_told::places_are_told;

/// Where the unit doesn't read the definition, each of the two programs refines the other.
pub fn readings_without_the_definition_refine()
    ensures new { (old new : Reading) (change : Change) → IsLayered old → IsLayered new → AreAlignedReadings old new change
        → reads change.definition old ≡ false → RefinesReading new old }
    ensures old { (old new : Reading) (change : Change) → IsLayered old → IsLayered new → AreAlignedReadings old new change
        → reads change.definition old ≡ false → RefinesReading old new }
{
    // The laws on which its proof rests.
    readings_are_sound();
    unread_units_refine();
}

/// Each run of a unit that is read is of one of the expansions that the rules look at.
pub fn runs_are_of_expansions()
    ensures { (definition : Definition) (files : Files) (unit : Source) (old new : Loaded) (reading : Reading) →
        IsReading (setting_of old new files unit) unit old (Ok reading) new → IsOfLoader old → AreOfExpansions definition reading }
{
    marks_are_listed();
}

/// So where a unit that reads a definition breaks none of the rules that it alone can break, it keeps the rules that a call needs: that on parameters,
/// and in each run those that ask where runs stand.
pub fn unbroken_units_keep_the_rules()
    ensures { (definition : Definition) (files : Files) (unit : Source) (old new : Loaded) (reading : Reading) →
        IsReading (setting_of old new files unit) unit old (Ok reading) new → IsOfLoader old →
        broken_first (rules_in definition reading) ≡ None → reads definition reading ≡ true → KeepsCallRules definition reading }
{
    runs_are_of_expansions();
}

/// So does each unit of a project in which a definition breaks none of all rules.
pub fn unbroken_projects_keep_the_rules()
    ensures { (definition : Definition) (files : Files) (unit : Source) (old new : Loaded) (readings : List Reading) (reading : Reading) →
        IsReading (setting_of old new files unit) unit old (Ok reading) new → IsOfLoader old → IsAmong reading readings →
        broken_first (rules_of definition readings) ≡ None → KeepsCallRules definition reading }
{
    runs_are_of_expansions();
}

/// Where those rules are kept, and the macro has a parameter list, a call may stand where each run stands, each of the macro's parameters has an argument
/// there, and each occurrence stands in the run. The definition is one that the unit's files have where the unit reads it.
pub fn kept_rules_give_arguments()
    ensures { (files : Files) (unit : Source) (before after : Loaded) (old : Reading) (definition : Definition) (it : Rewriting) →
        IsReading (setting_of before after files unit) unit before (Ok old) after → IsMadeFor (setting_of before after files unit) definition
        → KeepsCallRules definition old → is_some definition.parameters ≡ true
        → AllByRecursion (λ (run : Run). MayCall old.types (unit_in old) run
        × HasArguments it (unit_in old) (length (named_parameters definition.parameters)) run × HasOccurrences it (unit_in old) run) (runs_in definition old) }
{
    definitions_are_made();
    one_definition();
    parameters_differ();
    occurrences_are_apart();
    named_parameters_occur();
    readings_are_sound();
    occurrences_stand();
    arguments_stand();
}

/// So where the readings are aligned, the new program refines the old one, whatever the macro becomes.
pub fn kept_readings_refine()
    ensures { (files : Files) (unit : Source) (before after : Loaded) (old new : Reading) (change : Change) →
        IsReading (setting_of before after files unit) unit before (Ok old) after → IsLayered new
        → (change.kind ≡ Function → reads change.definition old ≡ true
        → IsMadeFor (setting_of before after files unit) change.definition × KeepsCallRules change.definition old × (is_some change.definition.parameters ≡ true))
        → AreAlignedReadings old new change → RefinesReading new old }
{
    readings_are_sound();
    readings_declare_once();
    places_are_told();
    kept_rules_give_arguments();
    calls_are_evaluated();
    uncalled_units_refine();
    evaluated_units_refine();
    object_like_macros_refine();
    readings_without_the_definition_refine();
}

/// So it does where an edit is allowed, of a definition that the unit's files have.
pub fn allowed_changes_refine()
    ensures { (old new : Reading) (change : Change) → IsAllowed old new change → RefinesWhereRead old new change }
{
    unbroken_units_keep_the_rules();
    kept_readings_refine();
}
