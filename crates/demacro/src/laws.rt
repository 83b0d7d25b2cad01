//! What holds of the endings of a call.

ghost use Rattle.std.specs.Prelude.{◌≡◌, ◌⊎◌, ℕ};
ghost use Rattle.dm_io.specs.Faults.{Rose};
ghost use Rattle.dm_lines.specs.Outside.{Outside};
ghost use Rattle.dm_lines.specs.Statuses as statuses;
ghost use Rattle.dm_words.specs.Requests.{Request};
ghost use Rattle.demacro.specs.Endings.{EndsFor};
ghost use Rattle.demacro.specs.Completeness.{Holds};

use dm_apply::{complete_apply, complete_gen, complete_plan};
use dm_expanding::complete_expansion;
use dm_running::complete_run;

/// Where what is asked for can be done and nothing fails, it is done, or memory is wanted.
pub fn complete_request()
    ensures { (request : Request) (before : Outside) (after : Outside) (status : ℕ) → Holds before.files request → EndsFor request before after status
        → ¬ Rose before.folder_faults after.folder_faults → ¬ Rose before.sink_faults after.sink_faults
        → (status ≡ statuses.done) ⊎ (status ≡ statuses.memory_wanted) }
{
    complete_plan();
    complete_apply();
    complete_expansion();
    complete_run();
    complete_gen();
}
