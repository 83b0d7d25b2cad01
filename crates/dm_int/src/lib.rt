//! C's integers (ISO/IEC 9899:2011): the twelve integer kinds, their conversions, and what the operators give or why they are undefined.
//!
//! A value of any kind is an `i128`. No call takes memory.
#![tactic(auto)]

ghost use Rattle.std.specs.Prelude.{◌≡◌, ◌≤◌, ◌↔◌, ◌<◌, ◌-◌, ◌^◌, ◌*ℤ◌, ℕ, pos, IsNone, IfOk, slice_get};
ghost use Rattle.dm_int.specs.Kinds as kinds;
ghost use Rattle.dm_int.specs.Operators as operators;

/// An integer kind (6.2.5). Its number is its place in this list, from 0.
#[derive(Debug, Clone, Copy, PartialEq, Eq, Hash)]
pub enum Kind {
    Bool,
    Char,
    SChar,
    UChar,
    Short,
    UShort,
    Int,
    UInt,
    Long,
    ULong,
    LLong,
    ULLong,
}

/// A binary operator on integers (6.5.5 to 6.5.12). `&&`, `||` and the comma are none: they do not always evaluate both operands.
#[derive(Debug, Clone, Copy, PartialEq, Eq, Hash)]
pub enum Op {
    Add,
    Sub,
    Mul,
    Div,
    Rem,
    Shl,
    Shr,
    Less,
    Greater,
    LessEq,
    GreaterEq,
    Equal,
    NotEqual,
    And,
    Xor,
    Or,
}

/// Why an operation is undefined.
#[derive(Debug, Clone, Copy, PartialEq, Eq, Hash)]
pub enum Fault {
    /// The kind is signed and cannot represent the result (6.5p5, 6.5.5p6).
    Overflow,
    /// A division by 0 (6.5.5p5).
    Zero,
    /// A count that is negative or not below the width, or a signed left operand of `<<` that is negative or grows too great (6.5.7).
    Shift,
}

/// The kind of this number: the inverse of `kind as u8`.
pub fn from_number(number: u8) -> Option<Kind>
    ensures kind { result ≡ slice_get kinds.kinds number }
    ensures none { IsNone result ↔ (12 ≤ number) }
{
    match number {
        0 => Some(Kind::Bool),
        1 => Some(Kind::Char),
        2 => Some(Kind::SChar),
        3 => Some(Kind::UChar),
        4 => Some(Kind::Short),
        5 => Some(Kind::UShort),
        6 => Some(Kind::Int),
        7 => Some(Kind::UInt),
        8 => Some(Kind::Long),
        9 => Some(Kind::ULong),
        10 => Some(Kind::LLong),
        11 => Some(Kind::ULLong),
        _ => None,
    }
}

/// The bytes of an object of the kind.
pub fn size(kind: Kind) -> u32
    ensures { result ≡ kinds.size kind }
{
    match kind {
        Kind::Bool | Kind::Char | Kind::SChar | Kind::UChar => 1,
        Kind::Short | Kind::UShort => 2,
        Kind::Int | Kind::UInt => 4,
        Kind::Long | Kind::ULong | Kind::LLong | Kind::ULLong => 8,
    }
}

/// The least value of the kind.
pub fn least(kind: Kind) -> i128
    ensures { result ≡ kinds.least kind }
{
    match kind {
        Kind::Char | Kind::SChar => i8::MIN as i128,
        Kind::Short => i16::MIN as i128,
        Kind::Int => i32::MIN as i128,
        Kind::Long | Kind::LLong => i64::MIN as i128,
        Kind::Bool | Kind::UChar | Kind::UShort | Kind::UInt | Kind::ULong | Kind::ULLong => 0,
    }
}

/// The greatest value of the kind.
pub fn greatest(kind: Kind) -> i128
    ensures { result ≡ kinds.greatest kind }
{
    match kind {
        Kind::Bool => 1,
        Kind::Char | Kind::SChar => i8::MAX as i128,
        Kind::UChar => u8::MAX as i128,
        Kind::Short => i16::MAX as i128,
        Kind::UShort => u16::MAX as i128,
        Kind::Int => i32::MAX as i128,
        Kind::UInt => u32::MAX as i128,
        Kind::Long | Kind::LLong => i64::MAX as i128,
        Kind::ULong | Kind::ULLong => u64::MAX as i128,
    }
}

/// The value converted to the kind (6.3.1.2, 6.3.1.3). A value that a signed kind cannot represent wraps.
pub fn convert(kind: Kind, value: i128) -> i128
    ensures value { result ≡ kinds.convert kind value }
    ensures converted { kinds.IsConverted kind value result }
    ensures in_range { kinds.InRange kind result }
{
    if kind == Kind::Bool {
        i128::from(value != 0)
    } else {
        value_of(kind, bits_of(kind, value))
    }
}

/// The kind after the integer promotions (6.3.1.1).
pub fn promote(kind: Kind) -> Kind
    ensures { result ≡ kinds.promote kind }
{
    match kind {
        Kind::Bool | Kind::Char | Kind::SChar | Kind::UChar | Kind::Short | Kind::UShort =>
            Kind::Int,
        Kind::Int | Kind::UInt | Kind::Long | Kind::ULong | Kind::LLong | Kind::ULLong => kind,
    }
}

/// The common kind of two operands, by the usual arithmetic conversions (6.3.1.8).
pub fn common(a: Kind, b: Kind) -> Kind
    ensures { result ≡ kinds.common a b }
{
    match (promote(a), promote(b)) {
        (Kind::ULong, Kind::LLong) | (Kind::LLong, Kind::ULong) => Kind::ULLong,
        // among other promoted kinds the greater number has the greater rank, or is the unsigned one of a rank
        (a, b) => if (a as u8) < b as u8 { b } else { a },
    }
}

/// What the operator gives on two values of a kind, to which C's promotions and conversions have brought them. The count of a shift, `b`,
/// keeps a kind of its own. A comparison gives 0 or 1.
///
/// # Errors
///
/// The [`Fault`] for which C leaves the operation undefined; never one where it is defined.
pub fn binary(op: Op, kind: Kind, a: i128, b: i128) -> Result<i128, Fault>
    requires left { kinds.InRange kind a }
    requires right { operators.IsRight op kind b }
    ensures answer { result ≡ operators.binary op kind a b }
    ensures in_range { IfOk result (kinds.InRange kind) }
{
    macro_rules! arms {
        (
            exact: $($exact:ident $sign:tt),+;
            special: $($special:ident $function:ident),+;
            relation: $($relation:ident $test:tt),+;
            bitwise: $($bitwise:ident $join:tt),+;
        ) => {
            match op {
                $(Op::$exact => fit(kind, a $sign b, Fault::Overflow),)+
                $(Op::$special => $function(kind, a, b),)+
                $(Op::$relation => Ok(i128::from(a $test b)),)+
                $(Op::$bitwise => Ok(value_of(kind, bits_of(kind, a) $join bits_of(kind, b))),)+
            }
        };
    }
    arms! {
        exact: Add +, Sub -;
        special: Mul multiply, Div divide, Rem remainder, Shl shift_left, Shr shift_right;
        relation: Less <, Greater >, LessEq <=, GreaterEq >=, Equal ==, NotEqual !=;
        bitwise: And &, Xor ^, Or |;
    }
}

/// The negative of a value of the kind (6.5.3.3).
///
/// # Errors
///
/// [`Fault::Overflow`] for the least value of a signed kind.
pub fn negate(kind: Kind, a: i128) -> Result<i128, Fault>
    requires { kinds.InRange kind a }
    ensures answer { result ≡ operators.negate kind a }
    ensures in_range { IfOk result (kinds.InRange kind) }
{
    fit(kind, -a, Fault::Overflow)
}

/// The bitwise complement of a value of the kind (6.5.3.3).
pub fn complement(kind: Kind, a: i128) -> i128
    requires { kinds.InRange kind a }
    ensures value { result ≡ operators.complement kind a }
    ensures in_range { kinds.InRange kind result }
{
    convert(kind, -1 - a)
}

fn is_signed(kind: Kind) -> bool
    ensures { result ≡ kinds.is_signed kind }
{
    match kind {
        Kind::Char | Kind::SChar | Kind::Short | Kind::Int | Kind::Long | Kind::LLong => true,
        Kind::Bool | Kind::UChar | Kind::UShort | Kind::UInt | Kind::ULong | Kind::ULLong => false,
    }
}

// How many bits a value has.
fn width(kind: Kind) -> u32
    ensures { result ≡ kinds.width kind }
{
    if kind == Kind::Bool {
        1
    } else {
        8 * size(kind)
    }
}

// As many ones as the kind has bits.
fn mask(kind: Kind) -> i128
    ensures { result ≡ pos (2 ^ kinds.width kind - 1) }
{
    greatest(kind) - least(kind)
}

// The bits of a value in two's complement, read as a number (6.2.6.2).
fn bits_of(kind: Kind, value: i128) -> u64
    ensures value { result ≡ kinds.bits_of kind value }
    ensures bound { result < 2 ^ kinds.width kind }
{
    (value & mask(kind)) as u64
}

// The value that has these bits.
fn value_of(kind: Kind, bits: u64) -> i128
    requires { bits < 2 ^ kinds.width kind }
    ensures value { result ≡ kinds.value_of kind bits }
    ensures in_range { kinds.InRange kind result }
{
    let value = bits as i128;
    if value > greatest(kind) {
        value - (mask(kind) + 1)
    } else {
        value
    }
}

// The answer where this is the exact result.
fn fit(kind: Kind, value: i128, fault: Fault) -> Result<i128, Fault>
    ensures answer { result ≡ operators.fit kind fault value }
    ensures in_range { IfOk result (kinds.InRange kind) }
{
    if least(kind) <= value && value <= greatest(kind) {
        Ok(value)
    } else if is_signed(kind) {
        Err(fault)
    } else {
        Ok(convert(kind, value))
    }
}

fn multiply(kind: Kind, a: i128, b: i128) -> Result<i128, Fault>
    requires left { kinds.InRange kind a }
    requires right { kinds.InRange kind b }
    ensures answer { result ≡ operators.fit kind Fault.Overflow (a *ℤ b) }
    ensures in_range { IfOk result (kinds.InRange kind) }
{
    if is_signed(kind) {
        fit(kind, a * b, Fault::Overflow)
    } else {
        Ok(convert(kind, (a as u64).wrapping_mul(b as u64) as i128))
    }
}

fn divide(kind: Kind, a: i128, b: i128) -> Result<i128, Fault>
    requires left { kinds.InRange kind a }
    requires right { kinds.InRange kind b }
    ensures answer { result ≡ operators.divide kind a b }
    ensures in_range { IfOk result (kinds.InRange kind) }
{
    if b == 0 {
        return Err(Fault::Zero);
    }
    fit(kind, a / b, Fault::Overflow)
}

fn remainder(kind: Kind, a: i128, b: i128) -> Result<i128, Fault>
    requires left { kinds.InRange kind a }
    requires right { kinds.InRange kind b }
    ensures answer { result ≡ operators.remainder kind a b }
    ensures in_range { IfOk result (kinds.InRange kind) }
{
    if b == 0 {
        Err(Fault::Zero)
    } else if b != -1 {
        Ok(a % b)
    } else if a == least(kind) {
        // the quotient -a is too great
        Err(Fault::Overflow)
    } else {
        Ok(0)
    }
}

fn shift_left(kind: Kind, a: i128, count: i128) -> Result<i128, Fault>
    requires { kinds.InRange kind a }
    ensures answer { result ≡ operators.shift_left kind a count }
    ensures in_range { IfOk result (kinds.InRange kind) }
{
    if 0 <= count && count < i128::from(width(kind)) && 0 <= a {
        fit(kind, a << count as u32, Fault::Shift)
    } else {
        Err(Fault::Shift)
    }
}

fn shift_right(kind: Kind, a: i128, count: i128) -> Result<i128, Fault>
    requires { kinds.InRange kind a }
    ensures answer { result ≡ operators.shift_right kind a count }
    ensures in_range { IfOk result (kinds.InRange kind) }
{
    if 0 <= count && count < i128::from(width(kind)) {
        Ok(a >> count as u32)
    } else {
        Err(Fault::Shift)
    }
}
