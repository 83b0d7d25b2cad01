//! What the tokens of a condition stand for.

ghost use Rattle.std.specs.Prelude.{◌≡◌, [], ◌∷◌, Some, IfSome};
ghost use Rattle.dm_token.specs.declared.token.PpKind.{PpKind};
ghost use Rattle.dm_ctok.specs.Integers.{first_fit};
ghost use Rattle.dm_cond.specs.Readings.{has_u, kinds_for, symbol_as, symbol_spelled, punctuator_symbols};
ghost use Rattle.dm_cond.specs.Points.{IsSound};

use dm_ctok::{Constant, Suffix, character_constant, integer_constant, is_prefixed};
use dm_int::{Kind, Op};
use dm_token::{PpKind, Token};

/// An operator with one operand (6.5.3.3).
#[derive(Clone, Copy, Debug, PartialEq, Eq)]
pub enum Sign {
    Plus,
    Minus,
    Complement,
    Not,
}

/// An operator with two operands (6.5.5 to 6.5.14).
#[derive(Clone, Copy, Debug, PartialEq, Eq)]
pub enum Operator {
    Integer(Op),
    /// `&&`, which evaluates its right operand only where the left one is other than 0 (6.5.13p4).
    Both,
    /// `||`, which evaluates its right operand only where the left one is 0 (6.5.14p4).
    Either,
}

/// What a token of a condition stands for.
#[derive(Clone, Copy, Debug, PartialEq, Eq)]
pub enum Symbol {
    /// A constant, with its kind and its value.
    Operand(Kind, i128),
    Open,
    Close,
    Question,
    Colon,
    Comma,
    /// `~`
    Complement,
    /// `!`
    Not,
    /// An operator with two operands; `+` and `-` may also have one.
    Operator(Operator),
}

/// What a token stands for in a condition, if anything. An identifier that is left after the expansion is 0 (6.10.1p4).
pub fn symbol_of(token: &Token) -> Option<Symbol>
    ensures value { result ≡ symbol_as token.now.pp.kind token.now.pp.spelling }
    ensures sound { IfSome result IsSound }
{
    let spelling = token.pp.spelling.bytes();
    match token.pp.kind {
        PpKind::Identifier => Some(Symbol::Operand(Kind::Long, 0)),
        PpKind::Number => number(spelling),
        PpKind::Character => character(spelling),
        PpKind::Punctuator(_) => punctuator(spelling),
        PpKind::Literal | PpKind::Header | PpKind::Stray => None,
    }
}

// An integer constant; all signed types count as long, and all unsigned ones as unsigned long.
fn number(spelling: &[u8]) -> Option<Symbol>
    ensures value { result ≡ symbol_as PpKind.Number spelling.now }
    ensures sound { IfSome result IsSound }
{
    let constant = integer_constant(spelling)?;
    let kind = kind_of(constant)?;
    Some(Symbol::Operand(kind, constant.value as i128))
}

// The kind of an integer constant.
fn kind_of(constant: Constant) -> Option<Kind>
    ensures { result ≡ first_fit constant.value (kinds_for constant.is_decimal constant.suffix) }
{
    if is_unsigned(constant.suffix) {
        return Some(Kind::ULong);
    }
    if constant.value < 1 << 63 {
        return Some(Kind::Long);
    }
    if constant.is_decimal {
        None
    } else {
        Some(Kind::ULong)
    }
}

// Whether a suffix has a `u`.
fn is_unsigned(suffix: Suffix) -> bool
    ensures { result ≡ has_u suffix }
{
    matches!(
        suffix,
        Suffix::Unsigned | Suffix::UnsignedLong | Suffix::UnsignedLongLong
    )
}

// A character constant without a prefix.
fn character(spelling: &[u8]) -> Option<Symbol>
    ensures value { result ≡ symbol_as PpKind.Character spelling.now }
    ensures sound { IfSome result IsSound }
{
    if is_prefixed(spelling) {
        return None;
    }
    let value = character_constant(spelling)?;
    Some(Symbol::Operand(Kind::Long, value))
}

// A punctuator, by its spelling.
fn punctuator(spelling: &[u8]) -> Option<Symbol>
    ensures value { result ≡ symbol_spelled spelling.now punctuator_symbols }
    ensures sound { IfSome result IsSound }
{
    match spelling {
        [byte] => one_byte(*byte),
        [first, second] => two_bytes(*first, *second),
        _ => None,
    }
}

// A punctuator of one byte.
fn one_byte(byte: u8) -> Option<Symbol>
    ensures value { result ≡ symbol_spelled (byte ∷ []) punctuator_symbols }
    ensures sound { IfSome result IsSound }
{
    match byte {
        b'(' => Some(Symbol::Open),
        b')' => Some(Symbol::Close),
        b'?' => Some(Symbol::Question),
        b':' => Some(Symbol::Colon),
        b',' => Some(Symbol::Comma),
        b'~' => Some(Symbol::Complement),
        b'!' => Some(Symbol::Not),
        b'+' => integer(Op::Add),
        b'-' => integer(Op::Sub),
        b'*' => integer(Op::Mul),
        b'/' => integer(Op::Div),
        b'%' => integer(Op::Rem),
        b'<' => integer(Op::Less),
        b'>' => integer(Op::Greater),
        b'&' => integer(Op::And),
        b'^' => integer(Op::Xor),
        b'|' => integer(Op::Or),
        _ => None,
    }
}

// A punctuator of two bytes.
fn two_bytes(first: u8, second: u8) -> Option<Symbol>
    ensures value { result ≡ symbol_spelled (first ∷ second ∷ []) punctuator_symbols }
    ensures sound { IfSome result IsSound }
{
    match (first, second) {
        (b'<', b'<') => integer(Op::Shl),
        (b'>', b'>') => integer(Op::Shr),
        (b'<', b'=') => integer(Op::LessEq),
        (b'>', b'=') => integer(Op::GreaterEq),
        (b'=', b'=') => integer(Op::Equal),
        (b'!', b'=') => integer(Op::NotEqual),
        (b'&', b'&') => Some(Symbol::Operator(Operator::Both)),
        (b'|', b'|') => Some(Symbol::Operator(Operator::Either)),
        _ => None,
    }
}

// An operator on integers.
fn integer(op: Op) -> Option<Symbol>
    ensures { result ≡ Some (Symbol.Operator (Operator.Integer op)) }
{
    Some(Symbol::Operator(Operator::Integer(op)))
}
