ghost use Rattle.std.specs.Prelude.{◌≡◌, ◌≤◌, map, drop, string_bytes, IfOk, MatchResult, true};
ghost use Rattle.std.specs.IoError.{error_kind};
ghost use Rattle.std.specs.Process.{exit_status};
ghost use Rattle.demacro.specs.Arguments.{EndsUnread, PutsUsage, is_want_of_memory, items_of};
ghost use Rattle.demacro.specs.Endings.{Ends};
ghost use Rattle.dm_lines.specs.Outside.{outside};
ghost use Rattle.dm_lines.specs.Statuses as statuses;

use crate::top::run;
use crate::usage::explain_usage;
use dm_io::{Folder, Sink};
use dm_lines::statuses;
use dm_token::Memory;
use std::alloc::Global;
use std::env::Args;
use std::io::{self, ErrorKind};
use std::process::ExitCode;

/// Does what the arguments of the process say, the first of which is the program's own name, and answers the exit code.
/// Arguments that can't be read, since one isn't UTF-8, are wrong words.
pub fn run_process<F: Folder, S: Sink>(
    alloc: Global,
    arguments: io::Result<Args>,
    folder: &mut F,
    out: &mut S,
) -> ExitCode
    ensures ending { let before = outside F.Folder S.Sink folder.old out.old in
        let after = outside F.Folder S.Sink folder.new out.new in
        MatchResult arguments
        (λ given. Ends (map string_bytes (drop 1 (items_of given))) before after (exit_status result))
        (λ error. EndsUnread (error_kind error) before after (exit_status result)) }
{
    match arguments {
        Ok(arguments) => ExitCode::from(run_arguments(alloc, arguments, folder, out)),
        Err(error) => ExitCode::from(explain_unread(alloc, error.kind(), out)),
    }
}

/// Does what the arguments say, and answers the exit status.
fn run_arguments<F: Folder, S: Sink>(
    alloc: Global,
    arguments: Args,
    folder: &mut F,
    out: &mut S,
) -> u8
    ensures { Ends (map string_bytes (drop 1 (items_of arguments)))
        (outside F.Folder S.Sink folder.old out.old) (outside F.Folder S.Sink folder.new out.new) result }
{
    match words_of(alloc, arguments) {
        Ok(words) => run(alloc, &words, folder, out),
        Err(Memory) => statuses::MEMORY_WANTED,
    }
}

/// The words, which are the arguments behind the program's own name.
fn words_of(alloc: Global, mut arguments: Args) -> Result<Vec<String>, Memory>
    ensures { IfOk result (λ words. words.items ≡ drop 1 (items_of arguments)) }
{
    let _own_name = arguments.next();
    let mut words = Vec::new(alloc);
    for word in arguments {
        words.push(word)?;
    }
    Ok(words)
}

/// Puts the usage line, unless the arguments can't be read for want of memory, and answers the exit status.
fn explain_unread<S: Sink>(alloc: Global, why: ErrorKind, out: &mut S) -> u8
    ensures put { PutsUsage (S.written out.old) (S.written out.new) (S.faults out.old) (S.faults out.new) result }
    ensures wanting { is_want_of_memory why ≡ true → result ≡ statuses.memory_wanted }
{
    if why == ErrorKind::OutOfMemory {
        return statuses::MEMORY_WANTED;
    }
    match explain_usage(alloc, out) {
        Ok(status) => status,
        Err(Memory) => statuses::MEMORY_WANTED,
    }
}
