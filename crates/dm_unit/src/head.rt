//! The head of a macro definition: its tokens from `#` through the name, or through the `)` of the parameter list.

ghost use Rattle.std.specs.Prelude.{◌≡◌, ◌==◌, ◌≤◌, suc, length, take, slice_range, position};
ghost use Rattle.std.specs.List.{list_any, position_or_len};
ghost use Rattle.dm_macro.specs.Signs.{is_right_parenthesis as closes};
ghost use Rattle.dm_unit.specs.Definitions.{is_plain_head as plain_head, head_of as head_tokens, parameter_list, are_plain as plain, is_plain_token as plain_token, is_plain_gap as plain_gap, is_one_line as one_line};

use dm_macro::{is_left_parenthesis, is_right_parenthesis};
use dm_token::PpToken;

/// Whether neither a splice nor a comment stands in the head of a `define` directive, where `bytes` are those of its file.
pub(crate) fn is_plain_head(bytes: &[u8], start: &PpToken, line: &[PpToken]) -> bool
    ensures { result ≡ plain_head bytes.now start.now line.now }
{
    are_plain(bytes, start.place.byte as usize, head_of(line))
}

/// The tokens of the head.
fn head_of(line: &[PpToken]) -> &[PpToken]
    ensures { result.now ≡ head_tokens line.now }
{
    match line {
        [_, _, _, behind @ ..] => &line[..3 + parameters_length(behind)],
        _ => line,
    }
}

/// How many tokens the parameter list has, its parentheses among them, where one follows the name.
fn parameters_length(behind: &[PpToken]) -> usize
    ensures list { take result behind.now ≡ parameter_list behind.now }
    ensures inside { result ≤ length behind.now }
{
    match behind {
        [first, ..] if is_left_parenthesis(first) && !first.blank_before => {
            through_closing(behind)
        }
        _ => 0,
    }
}

/// How many tokens stand up to the first `)` and with it.
fn through_closing(tokens: &[PpToken]) -> usize
    ensures list { take result tokens.now ≡ take (suc (position_or_len closes tokens.now)) tokens.now }
    ensures inside { result ≤ length tokens.now }
{
    match closing(tokens) {
        None => tokens.len(),
        Some(place) => place + 1,
    }
}

/// The position of the first `)`.
fn closing(tokens: &[PpToken]) -> Option<usize>
    ensures { result ≡ position closes tokens.now }
{
    tokens.iter().position(|token| is_right_parenthesis(token))
}

/// Whether tokens have no splice in them, and neither splices nor comments stand between them, from an offset on.
fn are_plain(bytes: &[u8], from: usize, tokens: &[PpToken]) -> bool
    ensures { result ≡ plain bytes.now from tokens.now }
{
    let mut from = from;
    let mut rest = tokens;
    while let Some((token, others)) = rest.split_first() {
        if !is_plain_token(bytes, from, token) {
            return false;
        }
        from = token.end as usize;
        rest = others;
    }
    true
}

/// Whether a token has no splice in it, and neither splices nor comments stand before it, from an offset on.
fn is_plain_token(bytes: &[u8], from: usize, token: &PpToken) -> bool
    ensures { result ≡ plain_token bytes.now from token.now }
{
    let start = token.place.byte as usize;
    is_plain_gap(part(bytes, from, start)) && is_one_line(part(bytes, start, token.end as usize))
}

/// The bytes from one offset up to another, as far as there are any.
fn part(bytes: &[u8], from: usize, to: usize) -> &[u8]
    ensures { result.now ≡ slice_range bytes.now from to }
{
    let to = to.min(bytes.len());
    let from = from.min(to);
    &bytes[from..to]
}

fn is_one_line(bytes: &[u8]) -> bool
    ensures { result ≡ one_line bytes.now }
{
    !has_byte(bytes, b'\n')
}

fn is_plain_gap(bytes: &[u8]) -> bool
    ensures { result ≡ plain_gap bytes.now }
{
    is_one_line(bytes) && !has_byte(bytes, b'/')
}

fn has_byte(bytes: &[u8], wanted: u8) -> bool
    ensures { result ≡ list_any (λ byte. byte == wanted) bytes.now }
{
    bytes.iter().any(|byte| *byte == wanted)
}
