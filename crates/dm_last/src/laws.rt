//! What the readings of a planned project are, once the files of the plan are written.

ghost use Rattle.std.specs.Prelude.{◌≡◌, ℕ, List, Some};
ghost use Rattle.dm_token.specs.declared.unit.Unit.{Unit as Source};
ghost use Rattle.dm_io.specs.Files.{Files};
ghost use Rattle.dm_search.specs.Fresh.{fresh};
ghost use Rattle.dm_edit.specs.declared.plan.Plan.{Plan};
ghost use Rattle.dm_readings.specs.Units.{KeepsLimits};
ghost use Rattle.dm_planning.specs.Judging.{Project};
ghost use Rattle.dm_planning.specs.Plans.{IsPlan, ReadsFirst};
ghost use Rattle.dm_last.specs.Last.{IsReadOver, with_files};

use dm_kept::{
    first_readings_are_current, readings_again_are_current, readings_stay_where_bytes_are_put_back,
};
use dm_local::readings_hang_on_the_loader;

/// Once the files of a plan are written, the loader of the planning holds what the folder holds, and the readings of the project with all
/// edits are those that its units have over these files, within the limits.
pub fn last_readings_are_of_the_files()
    ensures { (before after : Files) (units : List Source) (count : ℕ) (first last : Project) (plan : Plan) →
        ReadsFirst (Some before) units fresh count first → IsPlan (Some before) units first last plan → KeepsLimits last.readings →
        with_files (Some before) plan.files ≡ Some after → IsReadOver after units last }
{
    // The laws on which its proof rests.
    first_readings_are_current();
    readings_again_are_current();
    readings_stay_where_bytes_are_put_back();
    readings_hang_on_the_loader();
}
