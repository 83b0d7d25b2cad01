//! Integer constants (6.4.4.1).

ghost use Rattle.std.specs.Prelude.{◌≡◌, ◌<◌, ◌&&◌, ◌||◌, ◌==◌, pos};
ghost use Rattle.dm_int.specs.Kinds.{is_in_range};
ghost use Rattle.dm_ctok.specs.Integers as integers;

use crate::digits::{digits_len, value_of};
use dm_int::{Kind, greatest, least};

/// The suffix of an integer constant (6.4.4.1).
#[derive(Clone, Copy, Debug, PartialEq, Eq)]
pub enum Suffix {
    /// None.
    Plain,
    /// `u`, in either case.
    Unsigned,
    /// `l`, in either case.
    Long,
    UnsignedLong,
    /// `ll` or `LL`.
    LongLong,
    UnsignedLongLong,
}

/// An integer constant as it is written.
#[derive(Clone, Copy, Debug, PartialEq, Eq)]
pub struct Constant {
    pub value: u64,
    /// Whether its digits are decimal, and not octal or hexadecimal.
    pub is_decimal: bool,
    pub suffix: Suffix,
}

/// The integer constant that a spelling is, or `None` where it is none or its value doesn't fit 64 bits.
#[tactic(auto, unfolding(crate::specs::Integers::constant_of, crate::specs::Integers::is_hexadecimal, crate::specs::Integers::is_octal))]
pub fn integer_constant(spelling: &[u8]) -> Option<Constant>
    ensures { result ≡ integers.if_small (integers.constant_of spelling.now) }
{
    match spelling {
        [b'0', b'x' | b'X', digits @ ..] => written(false, 16, digits),
        [b'0', ..] => written(false, 8, spelling),
        _ => written(true, 10, spelling),
    }
}

/// The kind of an integer constant (6.4.4.1p5): the first in the list for its form in which its value fits.
#[tactic(auto, unfolding(crate::specs::Integers::kind_of))]
pub fn kind_of(constant: Constant) -> Option<Kind>
    ensures { result ≡ integers.kind_of constant }
{
    let kinds = kinds_for(constant.is_decimal, constant.suffix);
    kinds
        .iter()
        .copied()
        .find(|kind| fits(*kind, constant.value))
}

// The constant of these digits to the base and a suffix.
#[tactic(auto, unfolding(crate::specs::Integers::written))]
fn written(is_decimal: bool, base: u8, bytes: &[u8]) -> Option<Constant>
    requires { 0 < base }
    ensures { result ≡ integers.if_small (integers.written is_decimal base bytes.now) }
{
    let count = digits_len(base, bytes);
    if count == 0 {
        return None;
    }
    let (digits, behind) = bytes.split_at(count);
    let suffix = suffix_of(behind)?;
    let value = value_of(base, digits, u64::MAX)?;
    Some(Constant {
        value,
        is_decimal,
        suffix,
    })
}

// Whether the bytes are an unsigned-suffix, a long-suffix, a long-long-suffix, or the first beside one of the others.
#[tactic(auto, unfolding(crate::specs::Integers::suffix_of))]
fn suffix_of(bytes: &[u8]) -> Option<Suffix>
    ensures { result ≡ integers.suffix_of bytes.now }
{
    match bytes {
        [] => Some(Suffix::Plain),
        [a] if is_u(*a) => Some(Suffix::Unsigned),
        [a] if is_l(*a) => Some(Suffix::Long),
        [a, b] if (is_u(*a) && is_l(*b)) || (is_l(*a) && is_u(*b)) => Some(Suffix::UnsignedLong),
        [a, b] if is_ll(*a, *b) => Some(Suffix::LongLong),
        [a, b, c] if (is_u(*a) && is_ll(*b, *c)) || (is_ll(*a, *b) && is_u(*c)) => {
            Some(Suffix::UnsignedLongLong)
        }
        _ => None,
    }
}

fn is_u(byte: u8) -> bool
    ensures { result ≡ integers.is_u byte }
{
    byte == b'u' || byte == b'U'
}

fn is_l(byte: u8) -> bool
    ensures { result ≡ integers.is_l byte }
{
    byte == b'l' || byte == b'L'
}

// Both letters in one case.
fn is_ll(first: u8, second: u8) -> bool
    ensures { result ≡ integers.is_ll first second }
{
    is_l(first) && first == second
}

// The list of kinds for a form of constant.
fn kinds_for(is_decimal: bool, suffix: Suffix) -> &'static [Kind]
    ensures { result.now ≡ integers.kinds_for is_decimal suffix }
{
    match (is_decimal, suffix) {
        (true, Suffix::Plain) => &[Kind::Int, Kind::Long, Kind::LLong],
        (false, Suffix::Plain) => &[
            Kind::Int,
            Kind::UInt,
            Kind::Long,
            Kind::ULong,
            Kind::LLong,
            Kind::ULLong,
        ],
        (_, Suffix::Unsigned) => &[Kind::UInt, Kind::ULong, Kind::ULLong],
        (true, Suffix::Long) => &[Kind::Long, Kind::LLong],
        (false, Suffix::Long) => &[Kind::Long, Kind::ULong, Kind::LLong, Kind::ULLong],
        (_, Suffix::UnsignedLong) => &[Kind::ULong, Kind::ULLong],
        (true, Suffix::LongLong) => &[Kind::LLong],
        (false, Suffix::LongLong) => &[Kind::LLong, Kind::ULLong],
        (_, Suffix::UnsignedLongLong) => &[Kind::ULLong],
    }
}

// Whether the value is one of the kind.
fn fits(kind: Kind, value: u64) -> bool
    ensures { result ≡ is_in_range kind (pos value) }
{
    let value = i128::from(value);
    least(kind) <= value && value <= greatest(kind)
}
