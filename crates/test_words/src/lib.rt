//! Tokens of words between blanks, as tests write them.
#![tactic(auto)]

ghost use Rattle.std.specs.Prelude.{◌≡◌, IfOk};

use dm_int::Kind;
use dm_pexpr::Names;
use dm_spell::{keywords, punctuators};
use dm_token::{CToken, Class, List, Memory, Place, Text, Trail};
use std::alloc::Global;

/// The token of a word, at a column. An integer constant is decimal, and may end in `u` or in `l`; a character constant is
/// one character. The spelling of a string literal is what stands between the quotes.
pub fn token_of(alloc: Global, word: &str, column: u32) -> Result<CToken, Memory>
    ensures { IfOk result (λ token. token.place ≡ record { file = 0; byte = 0; line = 1; column = column }) }
{
    let class = class_of(word);
    let (value, kind) = match class {
        Class::Integer => (value_of(word), kind_of(word) as u8),
        _ => (0, 0),
    };
    Ok(CToken {
        class,
        spelling: Text::new(alloc, word.trim_matches('"'))?,
        value,
        kind,
        place: Place {
            file: 0,
            byte: 0,
            line: 1,
            column,
        },
        trail: Trail::empty(alloc),
    })
}

/// Puts the tokens of words behind others. The column of a token is its position.
pub fn put(alloc: Global, tokens: &mut List<CToken>, words: &str) -> Result<(), Memory> {
    for word in words.split(' ') {
        if !word.is_empty() {
            let column = u32::try_from(tokens.len()).unwrap_or(u32::MAX);
            tokens.push(token_of(alloc, word, column)?)?;
        }
    }
    Ok(())
}

/// The tokens of words.
pub fn tokens_of(alloc: Global, words: &str) -> Result<List<CToken>, Memory> {
    let mut tokens = List::new(alloc);
    put(alloc, &mut tokens, words)?;
    Ok(tokens)
}

/// What is known of names where these name types, and no others do.
pub fn type_names(alloc: Global, names: &[&str]) -> Result<Names, Memory> {
    let mut known = Names::new(alloc);
    for name in names {
        known.set(&Text::new(alloc, name)?, Some(true))?;
    }
    Ok(known)
}

// The class of a word.
fn class_of(word: &str) -> Class {
    if let Some(row) = punctuators().find(word.as_bytes()) {
        return Class::Punctuator(row);
    }
    if let Some(row) = keywords().find(word.as_bytes()) {
        return Class::Keyword(row);
    }
    match word.as_bytes() {
        [b'0'..=b'9' | b'\'', ..] => Class::Integer,
        [b'"', ..] => Class::Literal,
        _ => Class::Identifier,
    }
}

// The value of a constant (6.4.4).
fn value_of(word: &str) -> i128 {
    match word.as_bytes() {
        [b'\'', character, ..] => i128::from(*character),
        _ => decimal(word.trim_end_matches('u').trim_end_matches('l')),
    }
}

// The value of digits.
fn decimal(digits: &str) -> i128 {
    digits.parse::<i128>().unwrap_or(0)
}

// The kind of a constant: without a suffix `int`, or `long` where the value doesn't fit in an `int` (6.4.4.1p5).
fn kind_of(word: &str) -> Kind {
    match word.as_bytes() {
        [.., b'u'] => Kind::UInt,
        [.., b'l'] => Kind::Long,
        _ if value_of(word) > 2_147_483_647 => Kind::Long,
        _ => Kind::Int,
    }
}
