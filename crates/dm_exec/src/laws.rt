//! What is so of the definitions.

ghost use Rattle.std.specs.Prelude.{◌≡◌, ℕ};
ghost use Rattle.dm_meaning.specs.Choices.{stepped};
ghost use Rattle.dm_meaning.specs.Programs.{Program};
ghost use Rattle.dm_meaning.specs.States.{State};
ghost use Rattle.dm_exec.specs.Runs.{stepped_seen};
ghost use Rattle.dm_exec.specs.Shown.{seen};

/// What shows of a state takes the steps of the state.
pub fn shown_states_step()
    ensures { (program : Program) (choice : ℕ) (state : State) → stepped_seen program choice (seen state) ≡ seen (stepped program choice state) }
{}
