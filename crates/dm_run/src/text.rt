ghost use Rattle.std.specs.Prelude.{◌≡◌, ◌++◌, [], slice_index_or, IfOk, OnOk};
ghost use Rattle.dm_run.specs.Texts.{cause_name as name_of_cause, end_text, exit_text, output_of, run_text as text_of_run, undefined_text};

use dm_exec::Outcome;
use dm_lines::{append_all, name_by_number};
use dm_meaning::Cause;
use dm_token::{Memory, Place, Text};
use itoa::Buffer;
use std::alloc::Global;

/// What a run has written, and how it ended, where these are the files' names by number.
#[tactic(auto, unfolding(crate::specs::Texts::run_text))]
pub fn run_text(alloc: Global, names: &[Text], outcome: &Outcome) -> Result<Vec<u8>, Memory>
    ensures { IfOk result (λ text. text.items ≡ text_of_run names.now outcome.now) }
{
    let mut text = Vec::new(alloc);
    text.extend_from_slice(output(outcome))?;
    append_end(&mut text, names, outcome)?;
    Ok(text)
}

/// What a run has written.
fn output(outcome: &Outcome) -> &[u8]
    ensures { result.now ≡ output_of outcome.now }
{
    match outcome {
        Outcome::Exited { output, status: _ } => output.items(),
        Outcome::Undefined {
            output,
            cause: _,
            place: _,
        } => output.items(),
        Outcome::Running { output } => output.items(),
    }
}

/// Appends how a run ended.
fn append_end(text: &mut Vec<u8>, names: &[Text], outcome: &Outcome) -> Result<(), Memory>
    ensures { OnOk result (text.new.items ≡ text.old.items ++ end_text names.now outcome.now) }
{
    match outcome {
        Outcome::Exited { output: _, status } => append_exit(text, *status),
        Outcome::Undefined {
            output: _,
            cause,
            place,
        } => append_undefined(text, names, *cause, *place),
        Outcome::Running { output: _ } => append_all(text, &[b"[steps]\n"]),
    }
}

fn append_exit(text: &mut Vec<u8>, status: u8) -> Result<(), Memory>
    ensures { OnOk result (text.new.items ≡ text.old.items ++ exit_text status) }
{
    let mut digits = Buffer::new();
    append_all(text, &[b"[exit ", digits.format(status).as_bytes(), b"]\n"])
}

fn append_undefined(
    text: &mut Vec<u8>,
    names: &[Text],
    cause: Cause,
    place: Place,
) -> Result<(), Memory>
    ensures { OnOk result (text.new.items ≡ text.old.items ++ undefined_text (slice_index_or names.now place.file []) cause place) }
{
    append_undefined_in(text, name_by_number(names, place.file), cause, place)
}

/// The same in the file of this name.
fn append_undefined_in(
    text: &mut Vec<u8>,
    file: &[u8],
    cause: Cause,
    place: Place,
) -> Result<(), Memory>
    ensures { OnOk result (text.new.items ≡ text.old.items ++ undefined_text file.now cause place) }
{
    let mut line_digits = Buffer::new();
    let mut column_digits = Buffer::new();
    let line = line_digits.format(place.line).as_bytes();
    let column = column_digits.format(place.column).as_bytes();
    append_all(
        text,
        &[
            b"[undefined ",
            cause_name(cause).as_bytes(),
            b" ",
            file,
            b":",
            line,
            b":",
            column,
            b"]\n",
        ],
    )
}

/// The name of a cause.
#[tactic(auto, unfolding(crate::specs::Texts::cause_name))]
fn cause_name<'a>(cause: Cause) -> &'a str
    ensures { result.now ≡ name_of_cause cause }
{
    match cause {
        Cause::Overflow => "overflow",
        Cause::Division => "division",
        Cause::Shift => "shift",
        Cause::Conflict => "conflict",
        Cause::Null => "null",
        Cause::Bounds => "bounds",
        Cause::Pointer => "pointer",
        Cause::Life => "life",
        Cause::Unset => "unset",
        Cause::OtherType => "type",
        Cause::Const => "const",
        Cause::NoValue => "novalue",
        Cause::External => "external",
    }
}
