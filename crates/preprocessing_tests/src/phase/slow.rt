//! The five rewritings of a text, one after another.

use dm_phase::Character;
use std::alloc::{AllocError, Global};

/// What is rewritten from the left.
#[derive(Clone, Copy)]
enum Rule {
    EndOfLine,
    Trigraph,
    Splice,
}

/// How many characters at the front of a text are rewritten, and to what.
fn rewrite(rule: Rule, text: &[Character]) -> Option<(u32, Option<Character>)> {
    match (rule, text) {
        (Rule::EndOfLine, [a, b, ..]) if a.byte == b'\r' && b.byte == b'\n' => {
            let width = a.width.saturating_add(b.width);
            let at = a.at;
            Some((
                2,
                Some(Character {
                    byte: b'\n',
                    at,
                    width,
                }),
            ))
        }
        (Rule::Trigraph, [a, b, c, ..]) if a.byte == b'?' && b.byte == b'?' => {
            let place = b"=(/)'<!>-".iter().position(|third| *third == c.byte)?;
            let byte = *b"#[\\]^{|}~".get(place)?;
            let at = a.at;
            Some((3, Some(Character { byte, at, width: 3 })))
        }
        (Rule::Splice, [a, b, ..]) if a.byte == b'\\' && b.byte == b'\n' => Some((2, None)),
        _ => None,
    }
}

/// A text after one rewriting.
fn rewritten(alloc: Global, rule: Rule, text: &[Character]) -> Result<Vec<Character>, AllocError> {
    let mut out = Vec::with_capacity(alloc, text.len())?;
    let mut skipped = 0;
    for (place, character) in text.iter().enumerate() {
        if skipped > 0 {
            skipped -= 1;
            continue;
        }
        match rewrite(rule, &text[place..]) {
            Some((count, other)) => {
                skipped = count.saturating_sub(1);
                if let Some(other) = other {
                    out.push(other)?;
                }
            }
            None => out.push(*character)?,
        }
    }
    Ok(out)
}

/// The text of a file, or the offset of the backslash that goes with its last newline.
pub fn flat(alloc: Global, bytes: &[u8]) -> Result<Result<Vec<Character>, u32>, AllocError> {
    let mut text = Vec::with_capacity(alloc, bytes.len())?;
    let mark = match bytes {
        [0xEF, 0xBB, 0xBF, ..] => 3,
        _ => 0,
    };
    for (byte, at) in bytes[mark..].iter().zip(mark as u32..u32::MAX) {
        text.push(Character {
            byte: *byte,
            at,
            width: 1,
        })?;
    }
    if let Some(last) = text.last().copied()
        && last.byte != b'\n'
    {
        text.push(Character {
            byte: b'\n',
            at: last.at.saturating_add(1),
            width: 0,
        })?;
    }
    let text = rewritten(alloc, Rule::EndOfLine, &text)?;
    let text = rewritten(alloc, Rule::Trigraph, &text)?;
    match text.as_slice() {
        [.., a, b] if a.byte == b'\\' && b.byte == b'\n' => Ok(Err(a.at)),
        _ => Ok(Ok(rewritten(alloc, Rule::Splice, &text)?)),
    }
}
