//! What follows for a project that is planned.

ghost use Rattle.std.specs.Prelude.{◌≡◌, ℕ, List, Some, Ok};
ghost use Rattle.dm_token.specs.declared.unit.Unit.{Unit as Source};
ghost use Rattle.dm_io.specs.Files.{Files};
ghost use Rattle.dm_search.specs.Fresh.{fresh};
ghost use Rattle.dm_search.specs.Loaded.{Loaded};
ghost use Rattle.dm_edit.specs.declared.plan.Plan.{Plan};
ghost use Rattle.dm_planning.specs.Judging.{Project};
ghost use Rattle.dm_planning.specs.Plans.{IsPlan, IsPlanned, ReadsFirst};
ghost use Rattle.dm_last.specs.Last.{with_files};
ghost use Rattle.dm_promise.specs.Promises.{AllRefine, KeepsPrograms};

use dm_defined::definitions_are_made;
use dm_kept::{
    first_readings_are_current, readings_again_are_current, readings_stay_where_bytes_are_put_back,
};
use dm_last::last_readings_are_of_the_files;
use dm_refined::{kept_readings_refine, unbroken_projects_keep_the_rules};

/// Where a folder tells its files, the program of each unit of a planned project, as it is read with all edits, refines the program of the unit as it
/// was read first.
pub fn planned_programs_refine()
    ensures { (files : Files) (units : List Source) (count : ℕ) (first last : Project) (plan : Plan) → ReadsFirst (Some files) units fresh count first
        → IsPlan (Some files) units first last plan → AllRefine last.readings first.readings }
{
    // The laws on which its proof rests.
    kept_readings_refine();
    unbroken_projects_keep_the_rules();
    definitions_are_made();
    first_readings_are_current();
    readings_again_are_current();
    readings_stay_where_bytes_are_put_back();
}

/// So it is once the files of the plan are written: the programs as read with all edits are those of the units over these files.
pub fn applied_programs_refine()
    ensures { (before after : Files) (units : List Source) (new : Loaded) (now : ℕ) (plan : Plan) → IsPlanned (Some before) units fresh 0 (Ok plan) new now
        → with_files (Some before) plan.files ≡ Some after → KeepsPrograms before after units plan }
{
    // The laws on which its proof rests.
    planned_programs_refine();
    last_readings_are_of_the_files();
}
