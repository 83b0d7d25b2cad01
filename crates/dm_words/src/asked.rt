//! What words ask for.

ghost use Rattle.std.specs.Prelude.{◌≡◌, map, option_map, string_bytes, IfOk, Ok, None};
ghost use Rattle.dm_words.specs.Requests.{Asks, AsksFor, Request as Wanted, asked_by};

use crate::reading::read;
use crate::testing::command_of;
use dm_token::Memory;
use std::alloc::Global;

/// What good words ask for.
#[derive(Clone, Copy, Debug, PartialEq, Eq)]
pub enum Request<'a> {
    /// To put the report of a project's plan, as JSON or in lines.
    Plan { project: &'a [u8], json: bool },
    /// To write what a project's plan changes and put the report, as JSON or in lines.
    Apply { project: &'a [u8], json: bool },
    /// To put the tokens of the unit of a project that has this main file.
    Expand { project: &'a [u8], file: &'a [u8] },
    /// To run a unit.
    Run(RunWords<'a>),
    /// To plan the generated project of so many definitions.
    Gen { count: u64 },
}

/// What good words of `run` ask for.
#[derive(Clone, Copy, Debug, PartialEq, Eq)]
pub struct RunWords<'a> {
    /// The project: a C file or a manifest.
    pub project: &'a [u8],
    /// The main file of a unit.
    pub file: &'a [u8],
    pub order: u64,
    /// How many steps the run may take.
    pub steps: u64,
    /// The file that the program reads.
    pub input: Option<&'a [u8]>,
}

/// What words ask for, which is nothing where they are not good. The words are the command line without the program's name.
pub fn read_request<'a>(alloc: Global, words: &'a [String]) -> Result<Option<Request<'a>>, Memory>
    ensures asked { IfOk result (λ found. Asks (map string_bytes words.entry.now) (option_map asked_by found)) }

    // Where they are not good, that is told without memory.
    ensures unasked { ((request : Wanted) → ¬ AsksFor (map string_bytes words.entry.now) request) → result ≡ Ok None }
{
    let Some(command) = command_of(words) else {
        return Ok(None);
    };
    match read(alloc, command, words) {
        Ok(request) => Ok(Some(request)),
        Err(_) => Err(Memory),
    }
}
