//! The operands and options among the words.

ghost use Rattle.std.specs.Prelude.{◌≡◌, ◌<◌, ◌≤◌, length, IfSome, map, option_map, string_bytes};
ghost use Rattle.dm_words.specs.Readings.{meant, part_of, option_of, name_at as stands_at, value_at, made_of};

use crate::plain::is_plain_word;

/// An operand, or an option with its value.
#[derive(Clone, Copy)]
pub(crate) enum Part<'a> {
    /// M, UNIT or the N of `gen`.
    Operand(&'a [u8]),
    Json,
    Order(&'a [u8]),
    Steps(&'a [u8]),
    Input(&'a [u8]),
}

/// The options that have a value.
#[derive(Clone, Copy)]
pub(crate) enum Name {
    Order,
    Steps,
    Input,
}

/// The first operand or option, and the words behind it.
pub(crate) fn next_part<'a>(words: &'a [String]) -> Option<(Part<'a>, &'a [String])>
    ensures shorter { IfSome result (λ found. length found.1.now < length words.entry.now) }
    ensures part { option_map (λ found. (meant found.0, map string_bytes found.1.now)) result ≡ part_of (map string_bytes words.entry.now) }
{
    let (word, behind) = words.split_first()?;
    let word = word.as_bytes();
    if is_plain_word(word) {
        Some((Part::Operand(word), behind))
    } else if word == b"--json".as_slice() {
        Some((Part::Json, behind))
    } else {
        option(word, behind)
    }
}

/// The option with a value that a word begins.
fn option<'a>(word: &'a [u8], behind: &'a [String]) -> Option<(Part<'a>, &'a [String])>
    ensures shorter { IfSome result (λ found. length found.1.now ≤ length behind.entry.now) }
    ensures part { option_map (λ found. (meant found.0, map string_bytes found.1.now)) result ≡ option_of word.entry.now (map string_bytes behind.entry.now) }
{
    let (name, tail) = name_at(word)?;
    let (value, rest) = value_behind(tail, behind)?;
    let part = made(name, value)?;
    Some((part, rest))
}

/// The option of which a word has the name at its front, and the rest of the word.
fn name_at<'a>(word: &'a [u8]) -> Option<(Name, &'a [u8])>
    ensures { option_map (λ found. (found.0, found.1.now)) result ≡ stands_at word.entry.now }
{
    if let Some(tail) = word.strip_prefix(b"--order".as_slice()) {
        Some((Name::Order, tail))
    } else if let Some(tail) = word.strip_prefix(b"--steps".as_slice()) {
        Some((Name::Steps, tail))
    } else if let Some(tail) = word.strip_prefix(b"--input".as_slice()) {
        Some((Name::Input, tail))
    } else {
        None
    }
}

/// The value of an option with this behind its name, and the words behind that.
fn value_behind<'a>(tail: &'a [u8], behind: &'a [String]) -> Option<(&'a [u8], &'a [String])>
    ensures shorter { IfSome result (λ found. length found.1.now ≤ length behind.entry.now) }
    ensures value { option_map (λ found. (found.0.now, map string_bytes found.1.now)) result ≡ value_at tail.entry.now (map string_bytes behind.entry.now) }
{
    match tail {
        [] => {
            let (value, rest) = behind.split_first()?;
            Some((value.as_bytes(), rest))
        }
        [b'=', value @ ..] => Some((value, behind)),
        _ => None,
    }
}

/// An option with its value, if it may have that one.
fn made<'a>(name: Name, value: &'a [u8]) -> Option<Part<'a>>
    ensures { option_map meant result ≡ made_of name value.entry.now }
{
    if !is_plain_word(value) {
        return None;
    }
    Some(match name {
        Name::Order => Part::Order(value),
        Name::Steps => Part::Steps(value),
        Name::Input => Part::Input(value),
    })
}
