//! A generated project, by which the tool is measured: one unit with as many macros as are asked for, of four forms in
//! turn, each expanded once.
#![tactic(auto)]

ghost use Rattle.std.specs.Prelude.{◌≡◌, ◌≤◌, [], codes, IfOk};
ghost use Rattle.std.specs.FinMap as finite;
ghost use Rattle.dm_io.specs.MemoryFolder.{files_of, calls_of};
ghost use Rattle.dm_io.specs.Calls.{no_calls};
ghost use Rattle.dm_gen.specs.Generated.{generated_text, greatest_count, unit_name};

mod lines;

use dm_io::MemoryFolder;
use dm_token::{List, Memory, Text};
use lines::unit_text;
use std::alloc::Global;

/// The greatest number of macros.
pub const GREATEST_COUNT: u32 = 1000;

/// A folder in memory with the one file `g.c`, which has `n` macros. None of its calls fails.
///
/// Macro number i, counted from 0, is by the remainder of i modulo 4 a decimal constant, a function of its argument, a
/// square, or an unsigned constant.
pub fn generated(alloc: Global, n: u32) -> Result<MemoryFolder, Memory>
    requires { n ≤ greatest_count }
    ensures files { IfOk result (λ folder. files_of folder ≡ finite.insert finite.empty unit_name (generated_text n)) }
    ensures calls { IfOk result (λ folder. calls_of folder ≡ no_calls []) }
{
    let name = Text::new(alloc, "g.c")?;
    let text = unit_text(alloc, n)?;
    let mut folder = MemoryFolder::new(alloc, List::new(alloc));
    folder.add(&name, text.as_bytes())?;
    Ok(folder)
}
