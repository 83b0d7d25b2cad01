//! What the tests ask of `elaborate`.

ghost use Rattle.std.specs.Prelude.{◌≤◌, length};
ghost use Rattle.dm_typing.specs.Fitting.{HaveTypes};

use crate::entries::entries;
use crate::units::externals;
use dm_eunit::elaborate;
use dm_read::unit_syntax;
use dm_token::refusals::TYPING;
use dm_token::{CToken, List, Stop};
use dm_tree::CoreUnit;
use dm_type::Types;
use std::alloc::Global;
use std::fmt::Write;
use std::test::Fail;
use test_words::tokens_of;

/// A typed unit, and the types that its numbers stand for.
#[derive(Drop)]
pub struct TypedUnit {
    pub unit: CoreUnit,
    pub types: Types,
    ghost entries: { HaveTypes types unit.declared },
}

/// What typing makes of the unit that tokens are.
fn typed_tokens(alloc: Global, tokens: &[CToken]) -> Result<TypedUnit, Stop>
    requires few { length tokens.now ≤ 1000000 }
{
    let syntax = unit_syntax(alloc, tokens)?;
    let given = elaborate(alloc, tokens, syntax.items())?;
    let (unit, types) = given;
    let made = TypedUnit { unit, types };
    Ok(made)
}

/// The same, where too many tokens are want of memory.
pub fn typed(alloc: Global, tokens: &List<CToken>) -> Result<TypedUnit, Stop> {
    if tokens.len() > 1_000_000 {
        return Err(Stop::Memory);
    }
    typed_tokens(alloc, tokens.items())
}

/// Why a unit is refused: the typing rule that it breaks or refusal 16, and the column of its place.
pub fn refused(alloc: Global, stop: Stop) -> Result<String, Fail> {
    let mut out = String::new(alloc);
    match stop {
        Stop::Refused(refusal) if refusal.number == TYPING => {
            write!(out, "C{} at {}", refusal.detail, refusal.place.column)?;
        }
        Stop::Refused(refusal) => {
            write!(out, "{} at {}", refusal.number, refusal.place.column)?;
        }
        _ => out.push_str("stopped")?,
    }
    Ok(out)
}

/// What a test shows of a typed unit.
#[derive(Clone, Copy)]
pub enum Part {
    /// What is declared.
    Entries,
    /// The typed trees.
    Externals,
}

/// What typing makes of the unit that words are, or why it is refused.
fn shown(alloc: Global, words: &str, part: Part) -> Result<String, Fail> {
    let tokens = tokens_of(alloc, words)?;
    match (typed(alloc, &tokens), part) {
        (Ok(made), Part::Entries) => entries(alloc, &made),
        (Ok(made), Part::Externals) => externals(alloc, made),
        (Err(stop), _) => refused(alloc, stop),
    }
}

/// Of rows with a unit and what is to be shown of it, the first of which something else is shown, and that. Empty where
/// there is none.
pub fn first_other(alloc: Global, rows: &str, part: Part) -> Result<String, Fail> {
    for row in rows.lines() {
        let (words, wanted) = row.split_once(" => ").ok_or("no result")?;
        let line = shown(alloc, words, part)?;
        if line.as_str().trim() != wanted {
            return Ok(format!(in alloc; "{words} => {line}")?);
        }
    }
    Ok(String::new(alloc))
}
