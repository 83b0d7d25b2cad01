//! The form of a define.

ghost use Rattle.std.specs.Prelude.{◌≡◌, ◌≢◌, ◌≤◌, false, length, map, Some, None, IfOk, nat_eq, if◌then◌else◌};
ghost use Rattle.std.specs.Option.{option_copied};
ghost use Rattle.std.specs.List.{list_all, starts_with, ends_with};
ghost use Rattle.dm_token.specs.Limits.{source_length_limit as limit};
ghost use Rattle.dm_phase.specs.Phases.{replacement};
ghost use Rattle.dm_lex.specs.Classes.{is_nondigit as nondigit, is_word as word, is_identifier as identifier};
ghost use Rattle.dm_manifest.specs.Defines.{name_of, body_of, may_follow as follows, is_printable as printable, opens_trigraph as trigraph_opens, opens_forbidden as forbidden_opens, somewhere, is_plain as plain, may_stand as stands, line_may_stand as line_stands, is_body as body_is, is_define};

use dm_lex::tokens;
use dm_phase::flatten;
use dm_token::{Memory, PpKind, PpToken, Stop, source_length_limit};
use std::alloc::Global;

/// The name of a define, or `None` where a text isn't of the form.
#[tactic(auto, unfolding(crate::specs::Defines::is_define))]
pub fn define_name(alloc: Global, define: &str) -> Result<Option<&str>, Memory>
    ensures { IfOk result (λ name. option_copied name
        ≡ (if is_define define.now then Some (name_of define.now) else None)) }
{
    if define.len() > source_length_limit() {
        return Ok(None);
    }
    let (name, body) = split(define);
    if !is_identifier(name.as_bytes()) {
        return Ok(None);
    }
    if !may_follow(alloc, body)? {
        return Ok(None);
    }
    Ok(Some(name))
}

// The name, and the body where there is one.
fn split(define: &str) -> (&str, Option<&str>)
    ensures name { result.0.now ≡ name_of define.now }
    ensures body { option_copied result.1 ≡ body_of define.now }
{
    match define.split_once('=') {
        Some((name, body)) => (name, Some(body)),
        None => (define, None),
    }
}

// Whether this is a body, or none.
fn may_follow(alloc: Global, body: Option<&str>) -> Result<bool, Memory>
    ensures { IfOk result (λ may. may ≡ follows (option_copied body.entry)) }
{
    match body {
        Some(body) => is_body(alloc, body),
        None => Ok(true),
    }
}

#[tactic(auto, unfolding(crate::specs::Defines::is_body))]
fn is_body(alloc: Global, body: &str) -> Result<bool, Memory>
    ensures { IfOk result (λ is. is ≡ body_is body.now) }
{
    if !is_plain(body.as_bytes()) {
        return Ok(false);
    }
    let line = format!(in alloc; "#define N {body}")?;
    if line.len() > source_length_limit() {
        return Ok(false);
    }
    line_may_stand(alloc, line.as_bytes())
}

#[tactic(auto, unfolding(crate::specs::Defines::is_plain))]
fn is_plain(body: &[u8]) -> bool
    ensures { result ≡ plain body.now }
{
    has_printable_bytes(body) && !has_forbidden(body) && !body.ends_with(b"\\")
}

fn has_printable_bytes(body: &[u8]) -> bool
    ensures { result ≡ list_all printable body.now }
{
    body.iter().all(|byte| (b' '..=b'~').contains(byte))
}

// Whether what is forbidden begins somewhere.
fn has_forbidden(body: &[u8]) -> bool
    ensures { result ≡ somewhere forbidden_opens body.now }
{
    let mut rest = body;
    while let Some((_, others)) = rest.split_first() {
        if opens_forbidden(rest) {
            return true;
        }
        rest = others;
    }
    false
}

#[tactic(auto, unfolding(crate::specs::Defines::opens_forbidden))]
fn opens_forbidden(bytes: &[u8]) -> bool
    ensures { result ≡ forbidden_opens bytes.now }
{
    bytes.starts_with(b"##") || bytes.starts_with(b"%:%:") || opens_trigraph(bytes)
}

fn opens_trigraph(bytes: &[u8]) -> bool
    ensures { result ≡ trigraph_opens bytes.now }
{
    matches!(
        bytes,
        [
            b'?',
            b'?',
            b'=' | b'(' | b'/' | b')' | b'\'' | b'<' | b'!' | b'>' | b'-',
            ..
        ]
    )
}

// Whether a line has no comment that is open, no quote that doesn't close, and no `__VA_ARGS__`.
fn line_may_stand(alloc: Global, line: &[u8]) -> Result<bool, Memory>
    requires { length line.now ≤ limit }
    ensures { IfOk result (λ may. may ≡ line_stands line.now) }
{
    let flat = match flatten(alloc, 0, line) {
        Ok(flat) => flat,
        Err(stop) => return unless_memory(stop),
    };
    match tokens(alloc, 0, &flat, line) {
        Ok(tokens) => Ok(all_may_stand(tokens.items())),
        Err(stop) => unless_memory(stop),
    }
}

// A line at which the lexer stops may not stand, unless memory ran out.
fn unless_memory(stop: Stop) -> Result<bool, Memory>
    ensures { IfOk result (λ may. (may ≡ false) × (stop ≢ Stop.Memory)) }
{
    match stop {
        Stop::Memory => Err(Memory),
        _ => Ok(false),
    }
}

fn all_may_stand(tokens: &[PpToken]) -> bool
    ensures { result ≡ list_all (λ token. stands token.kind token.spelling) tokens.now }
{
    tokens.iter().all(may_stand)
}

fn may_stand(token: &PpToken) -> bool
    ensures { result ≡ stands token.now.kind token.now.spelling }
{
    let spelling = token.spelling.bytes();
    match token.kind {
        PpKind::Stray => spelling != b"'".as_slice() && spelling != b"\"".as_slice(),
        PpKind::Identifier => spelling != b"__VA_ARGS__".as_slice(),
        _ => true,
    }
}

fn is_identifier(name: &[u8]) -> bool
    ensures { result ≡ identifier name.now }
{
    match name.split_first() {
        None => false,
        Some((first, others)) => is_nondigit(*first) && has_words(others),
    }
}

fn has_words(bytes: &[u8]) -> bool
    ensures { result ≡ list_all word bytes.now }
{
    bytes.iter().all(|byte| is_word(*byte))
}

#[tactic(auto, unfolding(dm_lex::specs::Classes::is_nondigit))]
fn is_nondigit(byte: u8) -> bool
    ensures { result ≡ nondigit byte }
{
    matches!(byte, b'a'..=b'z' | b'A'..=b'Z' | b'_')
}

#[tactic(auto, unfolding(dm_lex::specs::Classes::is_word, dm_lex::specs::Classes::is_digit))]
fn is_word(byte: u8) -> bool
    ensures { result ≡ word byte }
{
    is_nondigit(byte) || byte.is_ascii_digit()
}
