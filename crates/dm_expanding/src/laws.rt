//! What holds of the endings of `expand`.

ghost use Rattle.std.specs.Prelude.{◌≡◌, ◌⊎◌, ℕ, List};
ghost use Rattle.dm_io.specs.Faults.{Rose};
ghost use Rattle.dm_lines.specs.Outside.{Outside};
ghost use Rattle.dm_lines.specs.Statuses as statuses;
ghost use Rattle.dm_expanding.specs.Endings.{EndsExpanding, HoldsUnit, UnitEnding, status_of_unit};

/// Where the project has the unit, the unit is read and nothing fails, it is listed, or memory is wanted.
pub fn complete_expansion()
    ensures { (project : List ℕ) (file : List ℕ) (before : Outside) (after : Outside) (ending : UnitEnding)
        → HoldsUnit before.files project file → EndsExpanding project file before after ending
        → ¬ Rose before.folder_faults after.folder_faults → ¬ Rose before.sink_faults after.sink_faults
        → (status_of_unit ending ≡ statuses.done) ⊎ (status_of_unit ending ≡ statuses.memory_wanted) }
{}
