use crate::process::run_process;
use dm_io::{MemoryFolder, MemorySink};
use dm_token::{List, Memory, Text};
use std::alloc::Global;
use std::env::Args;
use std::io::{self, ErrorKind};
use std::process::{Abort, ExitCode};
use std::test::Fail;

mod behaviours;
mod cases;
mod expanding;
mod limits;
mod planning;
mod programs;
mod running;
mod words;

pub const USAGE: &str =
    "usage: demacro plan M [--json] | apply M [--json] | expand M UNIT | run M UNIT [--order N] [--steps N] [--input FILE] | gen N\n";

const LETTER: &str =
    "int putchar(int c);\n#define N 65\nint main(void) { putchar(N + 1); return 0; }\n";

const DONE: &str = "rewritten a.c:2 N enumerator\nrewritten 1 kept 0\n";

fn texts(alloc: Global, words: &[&str]) -> Result<Vec<String>, Fail> {
    let mut texts = Vec::new(alloc);
    for word in words {
        texts.push(String::from_str(alloc, word)?)?;
    }
    Ok(texts)
}

pub fn numbers(alloc: Global, items: &[u32]) -> Result<List<u32>, Fail> {
    Ok(List::from_vec(Vec::from_slice(alloc, items)?))
}

/// A folder with the one file `a.c`.
fn folder_with(
    alloc: Global,
    failing: List<u32>,
    name: &Text,
    bytes: &[u8],
) -> Result<MemoryFolder, Memory> {
    let mut folder = MemoryFolder::new(alloc, failing);
    folder.add(name, bytes)?;
    Ok(folder)
}

/// Ends a process with these arguments on a folder with the one file `a.c`, and compares the exit code and the output.
fn expect_exit<R: Abort + AllocGlobal>(
    rt: &R,
    arguments: io::Result<Args>,
    status: u8,
    output: &str,
) -> Result<(), Fail> {
    let alloc = rt.alloc();
    let name = Text::new(alloc, "a.c")?;
    let mut folder = folder_with(alloc, numbers(alloc, &[])?, &name, LETTER.as_bytes())?;
    let mut out = MemorySink::new(alloc, numbers(alloc, &[])?);
    let code = run_process(alloc, arguments, &mut folder, &mut out);
    assert_eq!(rt; code, ExitCode::from(status), "{output}");
    assert_eq!(rt; out.bytes(), output.as_bytes());
    Ok(())
}

#[test]
fn the_process_ends_by_its_arguments(rt: HostRuntime) -> Result<(), Fail> {
    let good = texts(rt.alloc(), &["demacro", "apply", "a.c"])?;
    expect_exit(&rt, Ok(good.into_iter()), 0, DONE)?;
    let more = texts(rt.alloc(), &["demacro", "apply", "a.c", "a.c"])?;
    expect_exit(&rt, Ok(more.into_iter()), 1, USAGE)?;
    let none = texts(rt.alloc(), &[])?;
    expect_exit(&rt, Ok(none.into_iter()), 1, USAGE)?;
    let unread = io::Error::from(ErrorKind::InvalidData);
    expect_exit(&rt, Err(unread), 1, USAGE)?;
    let wanting = io::Error::from(ErrorKind::OutOfMemory);
    expect_exit(&rt, Err(wanting), 8, "")
}
