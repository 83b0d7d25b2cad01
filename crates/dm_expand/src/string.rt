ghost use Rattle.std.specs.Prelude.{◌≡◌, ◌++◌, IfOk, OnOk};
ghost use Rattle.dm_expand.specs.Strings as strings;

use crate::item::Item;
use dm_token::{Memory, PpKind, PpToken, Text};
use std::alloc::Global;

/// The string literal that `#` makes of an argument (6.10.3.2).
#[tactic(auto, unfolding(crate::specs::Strings::quoted))]
pub fn quoted(alloc: Global, argument: &[Item]) -> Result<Text, Memory>
    ensures { IfOk result (λ text. text ≡ strings.quoted argument.now) }
{
    let mut bytes = Vec::new(alloc);
    bytes.push(b'"')?;
    spell(argument, &mut bytes)?;
    bytes.push(b'"')?;
    let text = Text::from_vec(alloc, bytes)?;
    Ok(text)
}

// Adds the spellings of an argument's tokens.
#[tactic(auto, unfolding(crate::specs::Strings::spelled))]
fn spell(argument: &[Item], to: &mut Vec<u8>) -> Result<(), Memory>
    ensures { OnOk result (to.new.items ≡ to.old.items ++ strings.spelled argument.now) }
{
    match argument {
        [] => Ok(()),
        [first, others @ ..] => {
            spell_inside(&first.pp, to)?;
            spell_behind(others, to)
        }
    }
}

// Adds the spellings of tokens that follow another.
fn spell_behind(others: &[Item], to: &mut Vec<u8>) -> Result<(), Memory>
    ensures { OnOk result (to.new.items ≡ to.old.items ++ strings.spelled_behind others.now) }
{
    for item in others {
        spell_next(&item.pp, to)?;
    }
    Ok(())
}

// Adds the spelling of a token that follows another, with a space where a blank stands before it.
#[tactic(auto, unfolding(crate::specs::Strings::spelled_next))]
fn spell_next(token: &PpToken, to: &mut Vec<u8>) -> Result<(), Memory>
    ensures { OnOk result (to.new.items ≡ to.old.items ++ strings.spelled_next token.now) }
{
    if token.blank_before {
        to.push(b' ')?;
    }
    spell_inside(token, to)
}

// Adds the spelling of a token inside a string literal.
#[tactic(auto, unfolding(crate::specs::Strings::spelled_inside))]
fn spell_inside(token: &PpToken, to: &mut Vec<u8>) -> Result<(), Memory>
    ensures { OnOk result (to.new.items ≡ to.old.items ++ strings.spelled_inside token.now) }
{
    if is_quoted(token.kind) {
        escape(token.spelling.bytes(), to)
    } else {
        add(token.spelling.bytes(), to)
    }
}

#[tactic(auto, unfolding(crate::specs::Strings::is_quoted))]
fn is_quoted(kind: PpKind) -> bool
    ensures { result ≡ strings.is_quoted kind }
{
    match kind {
        PpKind::Character | PpKind::Literal => true,
        _ => false,
    }
}

// Adds bytes, escaped.
fn escape(bytes: &[u8], to: &mut Vec<u8>) -> Result<(), Memory>
    ensures { OnOk result (to.new.items ≡ to.old.items ++ strings.escaped bytes.now) }
{
    for byte in bytes {
        escape_byte(*byte, to)?;
    }
    Ok(())
}

// Adds a byte, with a backslash before it where it is `"` or a backslash.
#[tactic(auto, unfolding(crate::specs::Strings::escaped_byte))]
fn escape_byte(byte: u8, to: &mut Vec<u8>) -> Result<(), Memory>
    ensures { OnOk result (to.new.items ≡ to.old.items ++ strings.escaped_byte byte) }
{
    if byte == b'"' || byte == b'\\' {
        to.push(b'\\')?;
    }
    to.push(byte)?;
    Ok(())
}

// Adds bytes as they are.
fn add(bytes: &[u8], to: &mut Vec<u8>) -> Result<(), Memory>
    ensures { OnOk result (to.new.items ≡ to.old.items ++ bytes.now) }
{
    to.extend_from_slice(bytes)?;
    Ok(())
}
