//! The commands.

ghost use Rattle.std.specs.Prelude.{◌≡◌};
ghost use Rattle.dm_words.specs.Readings.{named};

/// What the first word selects.
#[derive(Clone, Copy, Debug, PartialEq, Eq)]
pub(crate) enum Command {
    Plan,
    Apply,
    Expand,
    Run,
    Gen,
}

/// The command of a name.
pub(crate) fn command_named(name: &str) -> Option<Command>
    ensures { result ≡ named name.now }
{
    match name {
        "plan" => Some(Command::Plan),
        "apply" => Some(Command::Apply),
        "expand" => Some(Command::Expand),
        "run" => Some(Command::Run),
        "gen" => Some(Command::Gen),
        _ => None,
    }
}
