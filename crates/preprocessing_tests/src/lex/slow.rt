//! A plain program that cuts a text by trying all its fronts.

use dm_spell::punctuators;
use dm_token::PpKind;
use std::alloc::{AllocError, Global};

/// The kinds and spellings of the tokens of a text, or `None` where a comment is open.
pub fn cut(alloc: Global, text: &[u8]) -> Result<Option<Vec<(PpKind, Vec<u8>)>>, AllocError> {
    let mut found = Vec::new(alloc);
    let mut line = Vec::new(alloc);
    let mut rest = text;
    for _ in 0..=text.len() {
        let Some(first) = rest.first() else {
            return Ok(Some(found));
        };
        if b" \t\x0B\x0C\n".contains(first) {
            if *first == b'\n' {
                line.clear();
            }
            rest = behind(rest, 1);
            continue;
        }
        match comment(rest) {
            Some(0) => return Ok(None),
            Some(length) => rest = behind(rest, length),
            None => {
                let header = line.as_slice() == b"# include ".as_slice()
                    || line.as_slice() == b"%: include ".as_slice();
                let (kind, length) = longest(header, rest);
                let spelling = before(rest, length);
                line.extend_from_slice(spelling)?;
                line.push(b' ')?;
                found.push((kind, Vec::from_slice(alloc, spelling)?))?;
                rest = behind(rest, length);
            }
        }
    }
    Ok(Some(found))
}

fn before(text: &[u8], length: usize) -> &[u8] {
    text.get(..length).unwrap_or(text)
}

fn behind(text: &[u8], length: usize) -> &[u8] {
    text.get(length..).unwrap_or(b"")
}

/// The length of the comment at the front, 0 where it is open.
fn comment(text: &[u8]) -> Option<usize> {
    if text.starts_with(b"//") {
        return Some(
            text.iter()
                .position(|byte| *byte == b'\n')
                .unwrap_or(text.len()),
        );
    }
    if !text.starts_with(b"/*") {
        return None;
    }
    for length in 4..=text.len() {
        if before(text, length).ends_with(b"*/") {
            return Some(length);
        }
    }
    Some(0)
}

/// The longest front that is a token.
fn longest(header: bool, text: &[u8]) -> (PpKind, usize) {
    let mut found = (PpKind::Stray, 1);
    for length in 1..=text.len() {
        if let Some(kind) = kind(header, before(text, length)) {
            found = (kind, length);
        }
    }
    found
}

fn kind(header: bool, spelling: &[u8]) -> Option<PpKind> {
    if header && is_header(spelling) {
        return Some(PpKind::Header);
    }
    if is_identifier(spelling) {
        return Some(PpKind::Identifier);
    }
    if is_number(spelling) {
        return Some(PpKind::Number);
    }
    if is_character(spelling) {
        return Some(PpKind::Character);
    }
    if is_literal(spelling) {
        return Some(PpKind::Literal);
    }
    let row = punctuators().find(spelling)?;
    Some(PpKind::Punctuator(row))
}

fn is_nondigit(byte: u8) -> bool {
    byte.is_ascii_alphabetic() || byte == b'_'
}

fn is_identifier(spelling: &[u8]) -> bool {
    match spelling {
        [first, others @ ..] => is_nondigit(*first)
            && others
                .iter()
                .all(|byte| is_nondigit(*byte) || byte.is_ascii_digit()),
        [] => false,
    }
}

fn is_number(spelling: &[u8]) -> bool {
    match spelling {
        [b'.', first, others @ ..] => first.is_ascii_digit() && continues(others),
        [first, others @ ..] => first.is_ascii_digit() && continues(others),
        [] => false,
    }
}

fn continues(text: &[u8]) -> bool {
    let mut last = b'0';
    for byte in text {
        let sign = (*byte == b'+' || *byte == b'-') && b"eEpP".contains(&last);
        if !(sign || is_nondigit(*byte) || byte.is_ascii_digit() || *byte == b'.') {
            return false;
        }
        last = *byte;
    }
    true
}

fn is_character(spelling: &[u8]) -> bool {
    match spelling {
        [b'L' | b'u' | b'U', others @ ..] => is_quoted(others, b'\'') && others.len() > 2,
        _ => is_quoted(spelling, b'\'') && spelling.len() > 2,
    }
}

fn is_literal(spelling: &[u8]) -> bool {
    match spelling {
        [b'u', b'8', others @ ..] => is_quoted(others, b'"'),
        [b'L' | b'u' | b'U', others @ ..] => is_quoted(others, b'"'),
        _ => is_quoted(spelling, b'"'),
    }
}

/// Whether a text stands between two quotes.
fn is_quoted(text: &[u8], quote: u8) -> bool {
    match text {
        [first, inner @ .., last] => *first == quote && *last == quote && is_inner(inner, quote),
        _ => false,
    }
}

/// Whether no quote and no newline stands free in a text, and no backslash at its end.
fn is_inner(text: &[u8], quote: u8) -> bool {
    let mut escaped = false;
    for byte in text {
        if *byte == b'\n' || (!escaped && *byte == quote) {
            return false;
        }
        escaped = !escaped && *byte == b'\\';
    }
    !escaped
}

fn is_header(spelling: &[u8]) -> bool {
    match spelling {
        [b'<', inner @ .., b'>'] => !inner.is_empty()
            && !inner.contains(&b'>')
            && !inner.contains(&b'\n'),
        [b'"', inner @ .., b'"'] => !inner.is_empty()
            && !inner.contains(&b'"')
            && !inner.contains(&b'\n'),
        _ => false,
    }
}
