//! Expressions that are begun and wait for an operand.

ghost use Rattle.std.specs.Prelude.{◌≡◌};
ghost use Rattle.dm_cond.specs.Machine.{ends_before as ends, completed as whole};
ghost use Rattle.dm_cond.specs.Trees.{level_of as level};

use crate::symbol::{Operator, Sign};
use crate::value::Value;
use dm_int::Op;

/// What stands before the operand that comes next, from one parenthesis or operator on.
#[derive(Clone, Copy, Debug)]
pub enum Frame {
    /// `(`
    Parenthesis,
    Unary(Sign),
    /// A binary operator and its left operand.
    Binary(Operator, Value),
    /// The first operand of `?:`, and `?`.
    Second(Value),
    /// The first and the second operand of `?:`, and `:`.
    Third(Value, Value),
    /// The left operand of a comma, and the comma.
    AfterComma(Value),
}

impl Frame {
    /// Whether the frame's operand ends before an operator of this level.
    pub fn ends_before(self, level: u8) -> bool
        ensures { result ≡ ends level self }
    {
        match self {
            Frame::Parenthesis => false,
            Frame::Unary(_) => true,
            Frame::Binary(operator, _) => level <= level_of(operator),
            Frame::Second(_) => false,
            Frame::Third(_, _) => level <= 1,
            Frame::AfterComma(_) => level == 0,
        }
    }

    /// The value of the expression that the frame and its last operand make.
    pub fn complete(self, last: Value) -> Value
        ensures { result ≡ whole self last }
    {
        match self {
            Frame::Parenthesis => last,
            Frame::Unary(sign) => last.signed(sign),
            Frame::Binary(operator, left) => left.combined(operator, last),
            Frame::Second(_) => last,
            Frame::Third(first, second) => first.chosen(second, last),
            Frame::AfterComma(left) => left.dropped_for(last),
        }
    }
}

/// How closely an operator binds: its level among the productions of 6.5.5 to 6.5.14.
pub fn level_of(operator: Operator) -> u8
    ensures { result ≡ level operator }
{
    match operator {
        Operator::Integer(Op::Mul | Op::Div | Op::Rem) => 11,
        Operator::Integer(Op::Add | Op::Sub) => 10,
        Operator::Integer(Op::Shl | Op::Shr) => 9,
        Operator::Integer(Op::Less | Op::Greater | Op::LessEq | Op::GreaterEq) => 8,
        Operator::Integer(Op::Equal | Op::NotEqual) => 7,
        Operator::Integer(Op::And) => 6,
        Operator::Integer(Op::Xor) => 5,
        Operator::Integer(Op::Or) => 4,
        Operator::Both => 3,
        Operator::Either => 2,
    }
}
