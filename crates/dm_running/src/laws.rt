//! Which runs are sure to be put.

ghost use Rattle.std.specs.Prelude.{◌≡◌, ◌⊎◌};
ghost use Rattle.dm_token.specs.declared.unit.Unit.{Unit as Source};
ghost use Rattle.dm_io.specs.Faults.{Rose};
ghost use Rattle.dm_lines.specs.Outside.{Outside};
ghost use Rattle.dm_lines.specs.Statuses as statuses;
ghost use Rattle.dm_words.specs.Requests.{RunRequest};
ghost use Rattle.dm_running.specs.Endings.{EndsRun, HoldsRun, RunEnding, status_of_run};

use dm_outcome::one_reading;

/// Where the files are told, the input is there, the unit is read and has a typing with a `main`, and nothing fails, the run
/// is put, or memory is wanted.
pub fn complete_run()
    ensures { (request : RunRequest) (unit : Source) (before after : Outside) (ending : RunEnding) → HoldsRun before.files request unit
        → EndsRun request unit before after ending → ¬ Rose before.folder_faults after.folder_faults → ¬ Rose before.sink_faults after.sink_faults
        → (status_of_run ending ≡ statuses.done) ⊎ (status_of_run ending ≡ statuses.memory_wanted) }
{
    // The law on which its proof rests.
    one_reading();
}
