//! The lines and the text groups of a file.

ghost use Rattle.std.specs.Prelude.{◌≡◌, ◌<◌, suc, length, drop, position};
ghost use Rattle.std.specs.List.{position_or_len};
ghost use Rattle.dm_unit.specs.Lines.{is_first, begins_directive as begins};

use dm_macro::is_hash;
use dm_token::PpToken;

/// How many tokens the line at the front has.
pub(crate) fn line_length(tokens: &[PpToken]) -> usize
    requires { 0 < length tokens.now }
    ensures { result ≡ suc (position_or_len is_first (drop 1 tokens.now)) }
{
    match next_line(&tokens[1..]) {
        None => tokens.len(),
        Some(place) => place + 1,
    }
}

/// How many tokens the text group at the front has: it goes on up to the next directive.
pub(crate) fn text_length(tokens: &[PpToken]) -> usize
    requires { 0 < length tokens.now }
    ensures { result ≡ suc (position_or_len begins (drop 1 tokens.now)) }
{
    match next_directive(&tokens[1..]) {
        None => tokens.len(),
        Some(place) => place + 1,
    }
}

/// The position of the first token that begins a line.
fn next_line(tokens: &[PpToken]) -> Option<usize>
    ensures { result ≡ position is_first tokens.now }
{
    tokens.iter().position(|token| token.line_first)
}

/// The position of the first token that begins a directive.
fn next_directive(tokens: &[PpToken]) -> Option<usize>
    ensures { result ≡ position begins tokens.now }
{
    tokens.iter().position(|token| begins_directive(token))
}

/// Whether a directive begins with a token.
fn begins_directive(token: &PpToken) -> bool
    ensures { result ≡ begins token.now }
{
    token.line_first && is_hash(token)
}
