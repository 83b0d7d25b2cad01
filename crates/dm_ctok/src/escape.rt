//! What stands between the quotes of character constants and string literals (6.4.4.4, 6.4.5).

ghost use Rattle.std.specs.Prelude.{◌≡◌, ◌≤◌, ◌<◌, length, MatchOption, IfErr, OnOk, Some, None, option_and_then};
ghost use Rattle.dm_ctok.specs.Escapes as escapes;
ghost use Rattle.dm_ctok.specs.Causes.{IsCause};

use crate::digits::{digits_len, is_digit, value_of};
use dm_int::{Kind, convert};
use std::alloc::AllocFailed;

/// The value of a character constant without a prefix (6.4.4.4p10), or `None` where its quotes don't hold exactly one
/// character or escape sequence.
#[tactic(auto, unfolding(crate::specs::Escapes::character_of))]
pub fn character_constant(spelling: &[u8]) -> Option<i128>
    ensures { result ≡ escapes.character_of spelling.now }
{
    let value = single_element(between_quotes(spelling))?;
    Some(convert(Kind::Char, i128::from(value)))
}

/// Why what stands between quotes isn't read.
#[derive(Clone, Copy, Debug, PartialEq, Eq)]
pub enum Unread {
    Memory,
    /// A backslash begins no escape sequence that has a value.
    Escape,
}

impl<T: Drop> From<AllocFailed<T>> for Unread {
    ghost use Rattle.std.specs.Prelude.{◌≡◌};
    ghost use Rattle.dm_ctok.specs.declared.escape.Unread.TheVariants.{Memory as no_memory};

    ghost from_gives = { λ _ unread. unread ≡ no_memory };

    fn from(_error: AllocFailed<T>) -> Unread {
        Unread::Memory
    }
}

/// Appends the values of the characters and escape sequences that bytes consist of.
pub fn append_elements(values: &mut Vec<u8>, bytes: &[u8]) -> Result<(), Unread>
    ensures ok { OnOk result (Some values.new.items ≡ escapes.put_behind values.old.items (escapes.elements bytes.now)) }
    ensures err { IfErr result (λ unread. IsCause unread (escapes.elements bytes.now)) }
{
    let mut rest = bytes;
    while !rest.is_empty() {
        let Some((value, behind)) = element(rest) else {
            return Err(Unread::Escape);
        };
        values.push(value)?;
        rest = behind;
    }
    Ok(())
}

// The value of the one element that bytes consist of.
fn single_element(bytes: &[u8]) -> Option<u8>
    ensures { result ≡ option_and_then escapes.single (escapes.elements bytes.now) }
{
    let (value, behind) = element(bytes)?;
    if behind.is_empty() { Some(value) } else { None }
}

/// What stands between the quotes of a literal.
#[tactic(auto, unfolding(crate::specs::Escapes::between_quotes))]
pub fn between_quotes(spelling: &[u8]) -> &[u8]
    ensures { result.now ≡ escapes.between_quotes spelling.now }
{
    match spelling {
        [_, inner @ .., _] => inner,
        _ => &[],
    }
}

/// The value of the character or escape sequence at the front of bytes, and what stands behind it.
#[tactic(auto, unfolding(crate::specs::Escapes::element))]
pub fn element(bytes: &[u8]) -> Option<(u8, &[u8])>
    ensures { MatchOption result (escapes.element bytes.now ≡ None)
        (λ found. escapes.element bytes.now ≡ Some (found.0, found.1.now)) }
{
    match bytes {
        [] => None,
        [b'\\', behind @ ..] => escape(behind),
        [byte, behind @ ..] => Some((*byte, behind)),
    }
}

// The same of an escape sequence behind its backslash.
#[tactic(auto, unfolding(crate::specs::Escapes::escape))]
fn escape(bytes: &[u8]) -> Option<(u8, &[u8])>
    ensures { MatchOption result (escapes.escape bytes.now ≡ None)
        (λ found. escapes.escape bytes.now ≡ Some (found.0, found.1.now)) }
{
    match bytes {
        [] => None,
        [byte, ..] if is_digit(8, *byte) => octal_escape(bytes),
        [b'x', behind @ ..] => hexadecimal_escape(behind),
        [byte, behind @ ..] => Some((simple_escape(*byte)?, behind)),
    }
}

#[tactic(auto, unfolding(crate::specs::Escapes::simple_escape))]
fn simple_escape(byte: u8) -> Option<u8>
    ensures { result ≡ escapes.simple_escape byte }
{
    match byte {
        b'\'' | b'"' | b'?' | b'\\' => Some(byte),
        b'a' => Some(7),
        b'b' => Some(8),
        b'f' => Some(12),
        b'n' => Some(10),
        b'r' => Some(13),
        b't' => Some(9),
        b'v' => Some(11),
        _ => None,
    }
}

// One to three octal digits.
#[tactic(auto, unfolding(crate::specs::Escapes::octal_escape))]
fn octal_escape(bytes: &[u8]) -> Option<(u8, &[u8])>
    ensures { MatchOption result (escapes.octal_escape bytes.now ≡ None)
        (λ found. escapes.octal_escape bytes.now ≡ Some (found.0, found.1.now)) }
{
    let few = bytes.split_at(bytes.len().min(3)).0;
    numeric(8, digits_len(8, few), bytes)
}

#[tactic(auto, unfolding(crate::specs::Escapes::hexadecimal_escape))]
fn hexadecimal_escape(bytes: &[u8]) -> Option<(u8, &[u8])>
    ensures { MatchOption result (escapes.hexadecimal_escape bytes.now ≡ None)
        (λ found. escapes.hexadecimal_escape bytes.now ≡ Some (found.0, found.1.now)) }
{
    numeric(16, digits_len(16, bytes), bytes)
}

// So many digits to the base, if they are some and their value fits a byte.
#[tactic(auto, unfolding(crate::specs::Escapes::numeric))]
fn numeric(base: u8, count: usize, bytes: &[u8]) -> Option<(u8, &[u8])>
    requires base { 0 < base }
    requires inside { count ≤ length bytes.now }
    ensures { MatchOption result (escapes.numeric base count bytes.now ≡ None)
        (λ found. escapes.numeric base count bytes.now ≡ Some (found.0, found.1.now)) }
{
    if count == 0 {
        return None;
    }
    let (digits, behind) = bytes.split_at(count);
    let value = value_of(base, digits, 255)?;
    Some((value as u8, behind))
}
