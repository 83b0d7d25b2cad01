//! Which words are good.

ghost use Rattle.std.specs.Prelude.{◌≡◌, map, string_bytes};
ghost use Rattle.dm_words.specs.Readings.{Selects, Tests, TakesOn, fits as fits_in, no_values, is_lone, is_pair, may_be_number, is_count as counts};

use crate::command::{Command, command_named};
use crate::number::number;
use crate::part::{Part, next_part};
use dm_gen::GREATEST_COUNT;

/// The operands that were found.
#[derive(Clone, Copy)]
pub(crate) enum Operands<'a> {
    Neither,
    One(&'a [u8]),
    Both(&'a [u8], &'a [u8]),
}

/// What was found so far, each option at most once.
#[derive(Clone, Copy)]
pub(crate) struct Found<'a> {
    operands: Operands<'a>,
    json: bool,
    order: Option<&'a [u8]>,
    steps: Option<&'a [u8]>,
    input: Option<&'a [u8]>,
}

/// The command that the words select, if they are good.
pub(crate) fn command_of(words: &[String]) -> Option<Command>
    ensures { Selects (map string_bytes words.now) result }
{
    let (name, others) = words.split_first()?;
    let command = command_named(name.as_str())?;
    let nothing = Found {
        operands: Operands::Neither,
        json: false,
        order: None,
        steps: None,
        input: None,
    };
    if are_good(command, nothing, others) {
        Some(command)
    } else {
        None
    }
}

/// Whether what was found and the words behind it are what the command takes. It calls itself at most once for each thing that can
/// be found.
fn are_good<'a>(command: Command, found: Found<'a>, words: &'a [String]) -> bool
    ensures { Tests command found.entry (map string_bytes words.entry.now) result }
{
    if words.is_empty() {
        return fits(command, found);
    }
    let Some((part, behind)) = next_part(words) else {
        return false;
    };
    let Some(more) = with_part(found, part) else {
        return false;
    };
    are_good(command, more, behind)
}

/// What was found with one part more, if it may have that one.
fn with_part<'a>(found: Found<'a>, part: Part<'a>) -> Option<Found<'a>>
    ensures { TakesOn found.entry part.entry result }
{
    match part {
        Part::Operand(text) => with_operand(found, text),
        Part::Json => match found.json {
            false => Some(Found {
                json: true,
                ..found
            }),
            true => None,
        },
        Part::Order(value) => match found.order {
            None => Some(Found {
                order: Some(value),
                ..found
            }),
            Some(_) => None,
        },
        Part::Steps(value) => match found.steps {
            None => Some(Found {
                steps: Some(value),
                ..found
            }),
            Some(_) => None,
        },
        Part::Input(value) => match found.input {
            None => Some(Found {
                input: Some(value),
                ..found
            }),
            Some(_) => None,
        },
    }
}

fn with_operand<'a>(found: Found<'a>, text: &'a [u8]) -> Option<Found<'a>>
    ensures { TakesOn found.entry (Part.Operand text.entry) result }
{
    let operands = match found.operands {
        Operands::Neither => Operands::One(text),
        Operands::One(first) => Operands::Both(first, text),
        Operands::Both(_, _) => return None,
    };
    Some(Found { operands, ..found })
}

/// Whether what was found is what the command takes.
fn fits(command: Command, found: Found<'_>) -> bool
    ensures { result ≡ fits_in command found.entry }
{
    match command {
        Command::Plan | Command::Apply => is_one(found.operands) && has_no_values(found),
        Command::Expand => !found.json && is_both(found.operands) && has_no_values(found),
        Command::Run => !found.json
            && is_both(found.operands)
            && is_number(found.order)
            && is_number(found.steps),
        Command::Gen => !found.json && is_count(found.operands) && has_no_values(found),
    }
}

fn has_no_values(found: Found<'_>) -> bool
    ensures { result ≡ no_values found.entry }
{
    found.order.is_none() && found.steps.is_none() && found.input.is_none()
}

fn is_one(operands: Operands<'_>) -> bool
    ensures { result ≡ is_lone operands.entry }
{
    match operands {
        Operands::One(_) => true,
        Operands::Neither | Operands::Both(_, _) => false,
    }
}

fn is_both(operands: Operands<'_>) -> bool
    ensures { result ≡ is_pair operands.entry }
{
    match operands {
        Operands::Both(_, _) => true,
        Operands::Neither | Operands::One(_) => false,
    }
}

/// Whether a value that is given is a number.
fn is_number(value: Option<&[u8]>) -> bool
    ensures { result ≡ may_be_number value.entry }
{
    match value {
        None => true,
        Some(text) => number(text).is_some(),
    }
}

/// Whether one operand is given, and is a number of definitions.
fn is_count(operands: Operands<'_>) -> bool
    ensures { result ≡ counts operands.entry }
{
    match operands {
        Operands::One(text) => match number(text) {
            Some(count) => count <= u64::from(GREATEST_COUNT),
            None => false,
        },
        Operands::Neither | Operands::Both(_, _) => false,
    }
}
