//! How the types of a definition's first run are spelled.

ghost use Rattle.std.specs.Prelude.{◌≡◌, map, option_and_then, IfOk};
ghost use Rattle.dm_meanings.specs.First.{seen};
ghost use Rattle.dm_meanings.specs.Types as types;
ghost use Rattle.dm_meanings.specs.Wanted.{IsWanted, entry_at};

use crate::firsts::first_occurrences;
use crate::meanings::Meanings;
use crate::types::Met;
use dm_token::{Definition, Memory, Span, Text};
use std::alloc::Global;

/// How the types of a run are spelled where the definition stands, if they can be: that of the whole, and by parameter that of what is
/// passed at its first occurrence.
#[derive(Drop)]
pub(crate) struct Wanted {
    pub result: Option<Text>,
    pub parameters: Vec<Option<Text>>,
}

pub(crate) fn is_same_text(one: &Option<Text>, other: &Option<Text>) -> bool
    ensures { result ≡ types.is_same_text one.now other.now }
{
    match (one, other) {
        (Some(one), Some(other)) => one.bytes() == other.bytes(),
        _ => false,
    }
}

/// How the type of what has these tokens is spelled.
fn text_of(
    alloc: Global,
    definition: &Definition,
    unit: &Meanings,
    span: Option<Span>,
) -> Result<Option<Text>, Memory>
    ensures { IfOk result (λ text. text ≡ option_and_then (types.text_at definition.now unit.now.index.now.reading.now) span) }
{
    match span {
        None => Ok(None),
        Some(span) => unit.text_at(alloc, definition, span),
    }
}

/// How the types of what has these tokens are spelled.
fn texts_of(
    alloc: Global,
    definition: &Definition,
    unit: &Meanings,
    spans: &[Option<Span>],
) -> Result<Vec<Option<Text>>, Memory>
    ensures { IfOk result (λ texts. texts.items ≡ map (option_and_then (types.text_at definition.now unit.now.index.now.reading.now)) spans.now) }
{
    let mut texts = Vec::new(alloc);
    for span in spans {
        texts.push(text_of(alloc, definition, unit, *span)?)?;
    }
    Ok(texts)
}

impl Wanted {
    /// Those of the first run.
    pub(crate) fn of(alloc: Global, definition: &Definition, first: &Met) -> Result<Wanted, Memory>
        ensures { IfOk result (IsWanted definition.now (seen first.now)) }
    {
        let result = first.unit.text_at(alloc, definition, first.run.span)?;
        let spans = first_occurrences(alloc, first.run)?;
        let parameters = texts_of(alloc, definition, first.unit, spans.as_slice())?;
        Ok(Wanted { result, parameters })
    }

    /// Whether it is how the type of what is passed for a parameter is spelled.
    pub(crate) fn is_parameter(&self, text: &Option<Text>, parameter: u32) -> bool
        ensures { result ≡ types.is_same_text text.now (entry_at self.now.parameters.items parameter) }
    {
        match self.parameters.get(parameter as usize) {
            Some(wanted) => is_same_text(text, wanted),
            None => false,
        }
    }
}
