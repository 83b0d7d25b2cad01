ghost use Rattle.std.specs.Prelude.{◌≡◌, ◌≤◌, ◌⊎◌, ℕ, Bool, List as Sequence, map, string_bytes};
ghost use Rattle.dm_io.specs.Faults.{Rose};
ghost use Rattle.dm_lines.specs.Outside.{outside};
ghost use Rattle.dm_lines.specs.Statuses as statuses;
ghost use Rattle.dm_words.specs.Requests.{AsksFor, Request as Asked, apply, asked_by};
ghost use Rattle.demacro.specs.Applied.{IsApplied};
ghost use Rattle.demacro.specs.Endings.{Ends, EndsAs, EndsForAs, IsModest};
ghost use Rattle.demacro.specs.Completeness.{Holds};

use crate::laws::complete_request;
use crate::planning::{apply_project, plan_project};
use crate::running::run_program;
use crate::usage::explain_usage;
use dm_apply::gen_command;
use dm_expanding::expand;
use dm_io::{Folder, Sink};
use dm_lines::statuses;
use dm_token::Memory;
use dm_words::{Request, one_request, read_request};
use std::alloc::Global;

/// Does what the words say, and answers the exit status.
///
/// The words are the command line without the program's name. M is a project: a `.c` file alone, or a manifest that lists
/// units.
///
/// - `plan M [--json]`: which macros of the project become declarations, and which are kept and why, is put.
/// - `apply M [--json]`: each file that changes is written once, in the byte order of their names, and then the same is put.
/// - `expand M UNIT`: the tokens of the unit with this main file after phase 4 are put.
/// - `run M UNIT [--order N] [--steps N] [--input FILE]`: the unit's program runs, and what it writes and how the run ends
///   are put. An order and a number of steps choose one of the runs that the abstract machine allows.
/// - `gen N`: the plan of a generated project of N macros is summed up. No file is read or written.
///
/// The statuses are: 0 done, 1 wrong words, 2 a fault of the manifest, 3 refused source, 4 a limit passed, 5 a file can't
/// be read, 6 one can't be written, 7 the output can't be put, 8 want of memory.
pub fn run<F: Folder, S: Sink>(alloc: Global, words: &[String], folder: &mut F, out: &mut S) -> u8
    ensures ending { Ends (map string_bytes words.now)
        (outside F.Folder S.Sink folder.old out.old)
        (outside F.Folder S.Sink folder.new out.new) result }
    // A project whose application is done is written as planned, and the programs of its units refine those that they had.
    ensures applied { (project : Sequence ℕ) (json : Bool) → AsksFor (map string_bytes words.now) (apply project json) → result ≡ statuses.done
        → IsApplied project json (outside F.Folder S.Sink folder.old out.old) (outside F.Folder S.Sink folder.new out.new) }
    // Where the words are good, what they ask for can be done and nothing fails, it is done, or memory is wanted.
    ensures complete { (request : Asked) → AsksFor (map string_bytes words.now) request → Holds (F.files folder.old) request
        → ¬ Rose (F.faults folder.old) (F.faults folder.new) → ¬ Rose (S.faults out.old) (S.faults out.new)
        → (result ≡ statuses.done) ⊎ (result ≡ statuses.memory_wanted) }

    ensures folder_later { F.faults folder.old ≤ F.faults folder.new }
    ensures sink_later { S.faults out.old ≤ S.faults out.new }
{
    // The laws on which the clauses `applied` and `complete` rest.
    one_request();
    complete_request();
    match run_words(alloc, words, folder, out) {
        Ok(status) => status,
        Err(Memory) => statuses::MEMORY_WANTED,
    }
}

/// The same, where want of memory is an error.
fn run_words<F: Folder, S: Sink>(
    alloc: Global,
    words: &[String],
    folder: &mut F,
    out: &mut S,
) -> Result<u8, Memory>
    ensures ending { EndsAs (map string_bytes words.now)
        (outside F.Folder S.Sink folder.old out.old)
        (outside F.Folder S.Sink folder.new out.new) result }
    ensures folder_later { F.faults folder.old ≤ F.faults folder.new }
    ensures sink_later { S.faults out.old ≤ S.faults out.new }
{
    match read_request(alloc, words)? {
        Some(request) => serve(alloc, request, folder, out),
        None => explain_usage(alloc, out),
    }
}

/// Does what is asked for.
fn serve<F: Folder, S: Sink>(
    alloc: Global,
    request: Request<'_>,
    folder: &mut F,
    out: &mut S,
) -> Result<u8, Memory>
    requires { IsModest (asked_by request) }
    ensures ending { EndsForAs (asked_by request.entry)
        (outside F.Folder S.Sink folder.old out.old)
        (outside F.Folder S.Sink folder.new out.new) result }
    ensures folder_later { F.faults folder.old ≤ F.faults folder.new }
    ensures sink_later { S.faults out.old ≤ S.faults out.new }
{
    match request {
        Request::Plan { project, json } => plan_project(alloc, project, json, folder, out),
        Request::Apply { project, json } => apply_project(alloc, project, json, folder, out),
        Request::Expand { project, file } => expand(alloc, project, file, folder, out),
        Request::Run(asked) => run_program(alloc, &asked, folder, out),
        Request::Gen { count } => gen_command(alloc, count as u32, out),
    }
}
