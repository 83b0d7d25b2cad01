//! Tests of preprocessing tokens.

ghost use Rattle.std.specs.Prelude.{◌≡◌};
ghost use Rattle.dm_spell.specs.Punctuators as rows;
ghost use Rattle.dm_macro.specs.Signs as sign;

use dm_spell::punctuator;
use dm_token::{PpKind, PpToken};

/// The name that stands for the variable arguments in a variadic macro's body (6.10.3p5).
pub(crate) const VARIABLE_ARGUMENTS: &[u8; 11] = b"__VA_ARGS__";

fn is_punctuator(token: &PpToken, row: u16) -> bool
    ensures { result ≡ sign.is_punctuator row token.now }
{
    match token.kind {
        PpKind::Punctuator(other) => other == row,
        _ => false,
    }
}

pub fn is_left_parenthesis(token: &PpToken) -> bool
    ensures { result ≡ sign.is_punctuator rows.left_parenthesis token.now }
{
    is_punctuator(token, punctuator::LEFT_PARENTHESIS)
}

pub fn is_right_parenthesis(token: &PpToken) -> bool
    ensures { result ≡ sign.is_right_parenthesis token.now }
{
    is_punctuator(token, punctuator::RIGHT_PARENTHESIS)
}

pub(crate) fn is_ellipsis(token: &PpToken) -> bool
    ensures { result ≡ sign.is_ellipsis token.now }
{
    is_punctuator(token, punctuator::ELLIPSIS)
}

pub fn is_comma(token: &PpToken) -> bool
    ensures { result ≡ sign.is_punctuator rows.comma token.now }
{
    is_punctuator(token, punctuator::COMMA)
}

pub fn is_hash(token: &PpToken) -> bool
    ensures { result ≡ sign.is_hash token.now }
{
    is_punctuator(token, punctuator::HASH) || is_punctuator(token, punctuator::HASH_DIGRAPH)
}

pub(crate) fn is_hash_hash(token: &PpToken) -> bool
    ensures { result ≡ sign.is_hash_hash token.now }
{
    is_punctuator(token, punctuator::HASH_HASH)
        || is_punctuator(token, punctuator::HASH_HASH_DIGRAPH)
}

pub fn is_identifier(token: &PpToken) -> bool
    ensures { result ≡ sign.is_identifier token.now }
{
    matches!(token.kind, PpKind::Identifier)
}

/// Whether a token is this identifier.
pub fn is_word(token: &PpToken, word: &[u8]) -> bool
    ensures { result ≡ sign.is_word word.now token.now }
{
    is_identifier(token) && token.spelling.bytes() == word
}

pub(crate) fn is_variable_arguments(token: &PpToken) -> bool
    ensures { result ≡ sign.is_word sign.variable_arguments token.now }
{
    is_identifier(token) && token.spelling.bytes() == VARIABLE_ARGUMENTS.as_slice()
}

/// Whether a name is predefined (6.10.8.1).
pub fn is_predefined(name: &[u8]) -> bool
    ensures { result ≡ sign.is_predefined name.now }
{
    name == b"__STDC__".as_slice()
        || name == b"__STDC_HOSTED__".as_slice()
        || name == b"__STDC_VERSION__".as_slice()
        || name == b"__LINE__".as_slice()
        || name == b"__FILE__".as_slice()
}

/// Whether a name is one that no directive defines or undefines: a predefined name, `defined` (6.10.8p4) or
/// `__VA_ARGS__` (6.10.3p5).
pub fn is_fixed(name: &[u8]) -> bool
    ensures { result ≡ sign.is_fixed name.now }
{
    is_predefined(name) || name == b"defined".as_slice() || name == VARIABLE_ARGUMENTS.as_slice()
}

pub(crate) fn is_macro_name(token: &PpToken) -> bool
    ensures { result ≡ sign.is_macro_name token.now }
{
    is_identifier(token) && !is_fixed(token.spelling.bytes())
}
