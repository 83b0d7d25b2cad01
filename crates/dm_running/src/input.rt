//! The file that a program reads.

ghost use Rattle.std.specs.Prelude.{◌≡◌, ◌≤◌, IfOk};
ghost use Rattle.dm_running.specs.Inputs.{IsInputSought};

use dm_io::{Folder, Got};
use dm_token::{List, Memory, Text, is_normal_name, source_length_limit};
use std::alloc::Global;

/// What is found of an input.
#[derive(Debug, Drop)]
pub(crate) enum Input {
    Found(List<u8>),
    Lacking(NoInput),
}

/// Why there is no input.
#[derive(Clone, Copy, Debug, PartialEq, Eq)]
pub enum NoInput {
    /// There is no such file, or the word is no normal name.
    Missing,
    /// The file is too long.
    TooLong,
    /// The file can't be read.
    ReadFault,
}

/// The bytes of the input's file.
pub(crate) fn find_input<F: Folder>(
    alloc: Global,
    folder: &mut F,
    name: &[u8],
) -> Result<Input, Memory>
    ensures sought { IfOk result (IsInputSought (F.files folder.old) name.now (F.faults folder.old) (F.faults folder.new)) }
    ensures files_stay { F.files folder.new ≡ F.files folder.old }
    ensures later { F.faults folder.old ≤ F.faults folder.new }
{
    if !is_normal_name(name) {
        return Ok(Input::Lacking(NoInput::Missing));
    }
    let name = Text::from_bytes(alloc, name)?;
    match folder.read(alloc, &name, source_length_limit())? {
        Got::Bytes(bytes) => Ok(Input::Found(bytes)),
        Got::Absent => Ok(Input::Lacking(NoInput::Missing)),
        Got::Long => Ok(Input::Lacking(NoInput::TooLong)),
        Got::Failed => Ok(Input::Lacking(NoInput::ReadFault)),
    }
}
