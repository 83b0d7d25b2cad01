//! Where the refusals lie that the commands put.

ghost use Rattle.std.specs.Prelude.{◌≡◌, Bool, ℕ, List, Option, Some, Ok, Err};
ghost use Rattle.std.specs.List.{AllByRecursion};
ghost use Rattle.dm_token.specs.declared.stop.Refusal.{Refusal};
ghost use Rattle.dm_token.specs.declared.stop.Stop.TheVariants.{Refused};
ghost use Rattle.dm_token.specs.declared.unit.Unit.{Unit as Source};
ghost use Rattle.dm_io.specs.Files.{Files};
ghost use Rattle.dm_search.specs.Fresh.{fresh};
ghost use Rattle.dm_search.specs.Loaded.{Loaded};
ghost use Rattle.dm_lines.specs.Outside.{Outside};
ghost use Rattle.dm_lines.specs.Statuses.{refused};
ghost use Rattle.dm_words.specs.Requests.{RunRequest};
ghost use Rattle.dm_sources.specs.Sources.{IsProject, HasUnit};
ghost use Rattle.dm_defines.specs.Readable.{HasReadableDefines};
ghost use Rattle.dm_places.specs.Places.{LiesInFile};
ghost use Rattle.dm_apply.specs.Endings.{EndsPlanningAs, EndsApplyingAs};
ghost use Rattle.dm_apply.specs.Generation.{EndsGeneratingAs};
ghost use Rattle.dm_apply.specs.Plans.{StopsPlanning};
ghost use Rattle.dm_apply.specs.Summaries.{files_of};
ghost use Rattle.dm_expanding.specs.Endings.{IsReading, EndsExpandingAs};
ghost use Rattle.dm_running.specs.Endings.{EndsRunAs};
ghost use Rattle.dm_running.specs.Readings.{IsUnitReading};
ghost use Rattle.dm_refusals.specs.Refusals.{PutsRefusal, RefusesInFile};

use dm_defines::lawful_defines_are_tokens;
use dm_places::{
    projects_are_refused_in_files, readings_are_refused_in_files, refusals_lie_in_files,
};

/// The text of each define of a project is one of tokens.
pub fn defines_of_projects_are_tokens()
    ensures { (told : Option Files) (project : List ℕ) (units : List Source) → IsProject told project units → AllByRecursion HasReadableDefines units }
{
    // The law on which its proof rests.
    lawful_defines_are_tokens();
}

/// Where the units of a project are refused, the refusal lies in the file that it names; and so it does where one unit is refused by `expand`,
/// up to phase 4, or by `run`, in any layer.
pub fn projects_are_refused_in_their_files()
    ensures plans { (files : Files) (project : List ℕ) (units : List Source) (refusal : Refusal) (known : Loaded) →
        IsProject (Some files) project units → StopsPlanning (Some files) units (Refused refusal) known → LiesInFile fresh known files refusal.place }
    ensures expansions { (files : Files) (project file : List ℕ) (unit : Source) (refusal : Refusal) (known : Loaded) →
        HasUnit (Some files) project file unit → IsReading (Some files) unit (Err (Refused refusal)) known → LiesInFile fresh known files refusal.place }
    ensures runs { (files : Files) (project file : List ℕ) (unit : Source) (refusal : Refusal) (known : Loaded) →
        HasUnit (Some files) project file unit → IsUnitReading (Some files) unit (Err (Refused refusal)) known → LiesInFile fresh known files refusal.place }
{
    // The laws on which its proof rests.
    defines_of_projects_are_tokens();
    projects_are_refused_in_files();
    refusals_lie_in_files();
    readings_are_refused_in_files();
}

/// So where a command ends with the status of a refusal, over a folder that tells its files, it has put the name of a file and a place that
/// lies in it. A generated project is its own folder.
pub fn commands_refuse_in_files()
    ensures plan { (files : Files) (json : Bool) (project : List ℕ) (units : List Source) (before after : Outside) → before.files ≡ Some files →
        IsProject (Some files) project units → EndsPlanningAs json project units before after (Ok refused) → RefusesInFile files before after }
    ensures apply { (files : Files) (json : Bool) (project : List ℕ) (units : List Source) (before after : Outside) → before.files ≡ Some files →
        IsProject (Some files) project units → EndsApplyingAs json project units before after (Ok refused) → RefusesInFile files before after }
    ensures expand { (files : Files) (project file : List ℕ) (before after : Outside) → before.files ≡ Some files →
        EndsExpandingAs project file before after (Ok refused) → RefusesInFile files before after }
    ensures run { (files : Files) (request : RunRequest) (unit : Source) (before after : Outside) → before.files ≡ Some files →
        HasUnit (Some files) request.project request.file unit → EndsRunAs request unit before after (Ok refused) → RefusesInFile files before after }
    ensures generated { (count : ℕ) (before after : Option (List ℕ)) (faults later : ℕ) →
        EndsGeneratingAs count before after faults later (Ok refused) → PutsRefusal (files_of count) before after faults later }
{
    // The laws on which its proof rests.
    projects_are_refused_in_their_files();
    projects_are_refused_in_files();
}
