//! Which commands are sure to do what they are asked for.

ghost use Rattle.std.specs.Prelude.{◌≡◌, ◌⊎◌, ℕ, Bool, List, Option, Some};
ghost use Rattle.dm_token.specs.declared.unit.Unit.{Unit as Source};
ghost use Rattle.dm_io.specs.Faults.{Rose};
ghost use Rattle.dm_lines.specs.Outside.{Outside};
ghost use Rattle.dm_lines.specs.Statuses as statuses;
ghost use Rattle.dm_apply.specs.Plans.{HoldsUnits};
ghost use Rattle.dm_apply.specs.Endings.{ApplyEnding, PlanEnding, EndsApplying, EndsPlanning, status_of_apply, status_of_plan};
ghost use Rattle.dm_apply.specs.Generation.{GenEnding, EndsGenerating, status_of_gen};
ghost use Rattle.dm_apply.specs.Summaries.{files_of, units as generated_units};

use dm_readings::one_reading_of_unit;
use dm_unit::one_outcome;

/// Where the files are told, the units are read within the limits and nothing fails, a plan is reported, or memory is wanted.
pub fn complete_plan()
    ensures { (json : Bool) (project : List ℕ) (units : List Source) (before after : Outside) (end : PlanEnding) →
        HoldsUnits before.files units → EndsPlanning json project units before after end →
        ¬ Rose before.folder_faults after.folder_faults → ¬ Rose before.sink_faults after.sink_faults →
        (status_of_plan end ≡ statuses.done) ⊎ (status_of_plan end ≡ statuses.memory_wanted) }
{
    // The laws on which its proof rests.
    one_outcome();
    one_reading_of_unit();
}

/// So a plan is applied.
pub fn complete_apply()
    ensures { (json : Bool) (project : List ℕ) (units : List Source) (before after : Outside) (end : ApplyEnding) →
        HoldsUnits before.files units → EndsApplying json project units before after end →
        ¬ Rose before.folder_faults after.folder_faults → ¬ Rose before.sink_faults after.sink_faults →
        (status_of_apply end ≡ statuses.done) ⊎ (status_of_apply end ≡ statuses.memory_wanted) }
{
    // The laws on which its proof rests.
    one_outcome();
    one_reading_of_unit();
}

/// So the plan of a generated project is summed up.
pub fn complete_gen()
    ensures { (n : ℕ) (before after : Option (List ℕ)) (faults later : ℕ) (end : GenEnding) →
        HoldsUnits (Some (files_of n)) generated_units → EndsGenerating n before after faults later end → ¬ Rose faults later →
        (status_of_gen end ≡ statuses.done) ⊎ (status_of_gen end ≡ statuses.memory_wanted) }
{
    // The laws on which its proof rests.
    one_outcome();
    one_reading_of_unit();
}
