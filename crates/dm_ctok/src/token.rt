//! What one preprocessing token becomes.

ghost use Rattle.std.specs.Prelude.{◌≡◌, ◌≢◌, ◌<◌, ◌^◌, bytes_eq, position, IfOk, IfErr, List, ℕ, ℤ};
ghost use Rattle.dm_spell.specs.Tables.{keyword_rows};
ghost use Rattle.dm_token.specs.declared.stop.Stop.TheVariants.{Refused};
ghost use Rattle.dm_token.specs.declared.token.Class.TheVariants.{Integer};
ghost use Rattle.dm_int.specs.Kinds.{number_of};
ghost use Rattle.dm_token.specs.Answer.{Gives};
ghost use Rattle.dm_ctok.specs.Escapes.{character_of};
ghost use Rattle.dm_ctok.specs.Integers.{integer_of};
ghost use Rattle.dm_ctok.specs.Tokens as tokens;

use crate::escape::character_constant;
use crate::integer::{integer_constant, kind_of};
use dm_int::Kind;
use dm_spell::{Spellings, punctuator};
use dm_token::{CToken, Class, Memory, PpKind, Refusal, Stop, Token, refusals};

/// The row of the first keyword that is left out of the language; those behind it are left out too.
const FIRST_LEFT_OUT: u16 = dm_spell::keyword::AUTO;

/// What a preprocessing token that is no string literal becomes.
#[tactic(auto, unfolding(crate::specs::Tokens::token_of, crate::specs::Tokens::of_kind))]
pub fn ctoken(keywords: &Spellings<'static, 44>, token: &Token) -> Result<CToken, Stop>
    requires table { keywords.now ≡ keyword_rows }
    requires kind { token.now.pp.kind ≢ PpKind.Literal }
    ensures { Gives (λ given. given) result (tokens.token_of token.now) }
{
    match token.pp.kind {
        PpKind::Identifier => word(keywords, token),
        PpKind::Number => number(token),
        PpKind::Character => character(token),
        PpKind::Literal => unreachable!(),
        PpKind::Punctuator(row) => Ok(plain(token, Class::Punctuator(behaving(row)))?),
        PpKind::Header => Err(refusal(token, refusals::BYTE)),
        PpKind::Stray => Err(refusal(token, stray_number(token.pp.spelling.bytes()))),
    }
}

// A keyword or an identifier.
#[tactic(auto, unfolding(crate::specs::Tokens::word))]
fn word(keywords: &Spellings<'static, 44>, token: &Token) -> Result<CToken, Stop>
    requires { keywords.now ≡ keyword_rows }
    ensures { Gives (λ given. given) result (tokens.word token.now (position (bytes_eq token.now.pp.spelling) keyword_rows)) }
{
    match keyword(keywords, token.pp.spelling.bytes()) {
        None => Ok(plain(token, Class::Identifier)?),
        Some(row) if row < FIRST_LEFT_OUT => Ok(plain(token, Class::Keyword(row))?),
        Some(_) => Err(refusal(token, refusals::OUT_OF_SUBSET)),
    }
}

// The row of a keyword.
fn keyword(keywords: &Spellings<'static, 44>, spelling: &[u8]) -> Option<u16>
    requires { keywords.now ≡ keyword_rows }
    ensures { result ≡ position (bytes_eq spelling.now) keyword_rows }
{
    keywords.find(spelling)
}

// An integer constant.
#[tactic(auto, unfolding(crate::specs::Tokens::number, crate::specs::Tokens::valued))]
fn number(token: &Token) -> Result<CToken, Stop>
    ensures { Gives (λ given. given) result (tokens.number token.now) }
{
    match integer(token.pp.spelling.bytes()) {
        None => Err(refusal(token, refusals::CONSTANT)),
        Some((value, kind)) => Ok(constant(token, i128::from(value), kind)?),
    }
}

// The value and the kind of the integer constant that a spelling is.
#[tactic(auto, unfolding(crate::specs::Integers::integer_of))]
fn integer(spelling: &[u8]) -> Option<(u64, Kind)>
    ensures { result ≡ integer_of spelling.now }
{
    let constant = integer_constant(spelling)?;
    let kind = kind_of(constant)?;
    Some((constant.value, kind))
}

// A character constant.
#[tactic(auto, unfolding(crate::specs::Tokens::character, crate::specs::Tokens::valued))]
fn character(token: &Token) -> Result<CToken, Stop>
    ensures { Gives (λ given. given) result (tokens.character token.now) }
{
    let spelling = token.pp.spelling.bytes();
    if is_prefixed(spelling) {
        return Err(refusal(token, refusals::OUT_OF_SUBSET));
    }
    match character_constant(spelling) {
        None => Err(refusal(token, refusals::CONSTANT)),
        Some(value) => Ok(constant(token, value, Kind::Int)?),
    }
}

/// Whether a constant or literal begins with an encoding prefix.
#[tactic(auto, unfolding(crate::specs::Tokens::is_prefixed))]
pub fn is_prefixed(spelling: &[u8]) -> bool
    ensures { result ≡ tokens.is_prefixed spelling.now }
{
    match spelling {
        [] => false,
        [byte, ..] => *byte == b'L' || *byte == b'u' || *byte == b'U',
    }
}

/// The refusal of this number at a token.
pub fn refusal(token: &Token, number: u8) -> Stop
    ensures { result ≡ Refused (tokens.refused token.now number) }
{
    Stop::Refused(Refusal {
        number,
        detail: 0,
        place: token.pp.place,
    })
}

// The row of the punctuator as which one behaves.
#[tactic(auto, unfolding(crate::specs::Tokens::behaving))]
fn behaving(row: u16) -> u16
    ensures { result ≡ tokens.behaving row }
{
    match row {
        punctuator::LEFT_BRACKET_DIGRAPH => punctuator::LEFT_BRACKET,
        punctuator::RIGHT_BRACKET_DIGRAPH => punctuator::RIGHT_BRACKET,
        punctuator::LEFT_BRACE_DIGRAPH => punctuator::LEFT_BRACE,
        punctuator::RIGHT_BRACE_DIGRAPH => punctuator::RIGHT_BRACE,
        punctuator::HASH_DIGRAPH => punctuator::HASH,
        punctuator::HASH_HASH_DIGRAPH => punctuator::HASH_HASH,
        _ => row,
    }
}

// The number of the refusal of what is no token.
#[tactic(auto, unfolding(crate::specs::Tokens::is_quote))]
fn stray_number(spelling: &[u8]) -> u8
    ensures { result ≡ tokens.stray_number spelling.now }
{
    match spelling {
        [b'\''] | [b'"'] => refusals::LITERAL,
        _ => refusals::BYTE,
    }
}

// A token without a value, spelled as before.
fn plain(token: &Token, class: Class) -> Result<CToken, Memory>
    ensures { IfOk result (λ made. made ≡ tokens.plain token.now class) }
{
    Ok(CToken {
        class,
        spelling: token.pp.spelling.copy()?,
        value: 0,
        kind: 0,
        place: token.pp.place,
        trail: token.trail.copy()?,
    })
}

// A constant, spelled as before.
fn constant(token: &Token, value: i128, kind: Kind) -> Result<CToken, Memory>
    ensures { IfOk result (λ made. made ≡ tokens.placed token.now Integer token.now.pp.spelling value (number_of kind)) }
{
    Ok(CToken {
        class: Class::Integer,
        spelling: token.pp.spelling.copy()?,
        value,
        kind: kind as u8,
        place: token.pp.place,
        trail: token.trail.copy()?,
    })
}
