//! The values of expressions in a condition (6.6, 6.10.1p4).

ghost use Rattle.std.specs.Prelude.{◌≡◌, true, IfSome, option_map};
ghost use Rattle.dm_int.specs.Kinds.{InRange};
ghost use Rattle.dm_int.specs.Kinds as kinds;
ghost use Rattle.dm_int.specs.Operators as operators;
ghost use Rattle.dm_cond.specs.Values.{constant_value, signed_value, binary_value, choice_value, comma_value, truth_of as number_truth, shift_value, balanced_value, without_fault as number_or_fault, is_true as truth, is_shift as shifts, is_comparison as compares, result_kind};

use crate::symbol::{Operator, Sign};
use dm_int::{Fault, Kind, Op, binary, common, complement, convert, negate};
use std::marker::Model;

/// The value of an expression. Contracts see its kind and its number, which is of that kind.
#[derive(Clone, Copy, Debug)]
pub struct Value {
    /// An expression has a kind also where it isn't evaluated (6.5.15p5).
    kind: Kind,
    /// `None` where evaluating the expression breaks a rule.
    number: Option<i128>,
}

impl Model for Value {
    ghost use Rattle.std.specs.Prelude.{IfSome};
    ghost use Rattle.dm_int.specs.Kinds.{InRange};
    ghost use Rattle.dm_cond.specs.Values.{Valued};

    ghost Value = { Valued };

    ghost view = { λ value. record { kind = value.kind; number = value.number } };

    ghost invariant = { λ value. IfSome value.number (InRange value.kind) };

    ghost inverse = { λ value. record { kind = value.kind; number = value.number } };
}

impl Value {
    /// That of a constant.
    pub fn constant(kind: Kind, number: i128) -> Value
        requires { InRange kind number }
        ensures { result ≡ constant_value kind number }
    {
        Value {
            kind,
            number: Some(number),
        }
    }

    /// `None` where evaluating the expression breaks a rule.
    pub fn number(self) -> Option<i128>
        ensures { result ≡ self.number }
    {
        self.number
    }

    /// That of an operator with this operand (6.5.3.3).
    pub fn signed(self, sign: Sign) -> Value
        ensures { result ≡ signed_value sign self }
    {
        match sign {
            Sign::Plus => self,
            Sign::Minus => Value {
                kind: self.kind,
                number: match self.number {
                    Some(number) => without_fault(negate(self.kind, number)),
                    None => None,
                },
            },
            Sign::Complement => Value {
                kind: self.kind,
                number: match self.number {
                    Some(number) => Some(complement(self.kind, number)),
                    None => None,
                },
            },
            Sign::Not => Value {
                kind: Kind::Long,
                number: match self.number {
                    Some(number) => Some(truth_of(!is_true(number))),
                    None => None,
                },
            },
        }
    }

    /// That of a binary operator with this left operand (6.5.5 to 6.5.14).
    pub fn combined(self, operator: Operator, right: Value) -> Value
        ensures { result ≡ binary_value operator self right }
    {
        match operator {
            Operator::Integer(op) => self.applied(op, right),
            Operator::Both => Value {
                kind: Kind::Long,
                number: match self.number {
                    Some(number) if is_true(number) => right.truth(),
                    Some(_) => Some(0),
                    None => None,
                },
            },
            Operator::Either => Value {
                kind: Kind::Long,
                number: match self.number {
                    Some(number) if is_true(number) => Some(1),
                    Some(_) => right.truth(),
                    None => None,
                },
            },
        }
    }
}

impl Value {
    // That of an operator on integers with this left operand.
    fn applied(self, op: Op, right: Value) -> Value
        ensures { result ≡ binary_value (Operator.Integer op) self right }
    {
        if is_shift(op) {
            self.shifted(op, right)
        } else {
            self.balanced(op, common(self.kind, right.kind), right)
        }
    }

    // That of a shift of this left operand.
    fn shifted(self, op: Op, count: Value) -> Value
        requires { shifts op ≡ true }
        ensures { result ≡ shift_value op self count }
    {
        Value {
            kind: self.kind,
            number: match (self.number, count.number) {
                (Some(left), Some(right)) => without_fault(binary(op, self.kind, left, right)),
                _ => None,
            },
        }
    }

    // That of another operator, with both operands of a common kind.
    fn balanced(self, op: Op, common: Kind, right: Value) -> Value
        ensures { result ≡ balanced_value op common self right }
    {
        let number = match (self.number, right.number) {
            (Some(left), Some(right)) => {
                answer(op, common, convert(common, left), convert(common, right))
            }
            _ => None,
        };
        Value {
            kind: kind_of_result(op, common),
            number,
        }
    }

    // 0 or 1 for the number, where there is one.
    fn truth(self) -> Option<i128>
        ensures value { result ≡ number_truth self.number }
        ensures in_range { IfSome result (InRange Kind.Long) }
    {
        match self.number {
            Some(number) => Some(truth_of(is_true(number))),
            None => None,
        }
    }

    // The number in another kind, where there is one.
    fn converted(self, kind: Kind) -> Option<i128>
        ensures value { result ≡ option_map (kinds.convert kind) self.number }
        ensures in_range { IfSome result (InRange kind) }
    {
        match self.number {
            Some(number) => Some(convert(kind, number)),
            None => None,
        }
    }

    /// That of `?:` with this first operand (6.5.15).
    pub fn chosen(self, second: Value, third: Value) -> Value
        ensures { result ≡ choice_value self second third }
    {
        let common = common(second.kind, third.kind);
        let number = match self.number {
            Some(number) if is_true(number) => second.converted(common),
            Some(_) => third.converted(common),
            None => None,
        };
        Value {
            kind: common,
            number,
        }
    }

    /// That of a comma with this left operand (6.5.17).
    pub fn dropped_for(self, right: Value) -> Value
        ensures { result ≡ comma_value self right }
    {
        Value {
            kind: right.kind,
            number: None,
        }
    }
}

// The kind of what an operator gives on operands of a common kind.
fn kind_of_result(op: Op, common: Kind) -> Kind
    ensures { result ≡ result_kind op common }
{
    if is_comparison(op) {
        Kind::Long
    } else {
        common
    }
}

// What an operator gives on two numbers, where there is no fault.
#[tactic(auto, using(crate::proofs::Results::results))]
fn answer(op: Op, common: Kind, left: i128, right: i128) -> Option<i128>
    requires left { InRange common left }
    requires right { InRange common right }
    ensures value { result ≡ number_or_fault (operators.binary op common left right) }
    ensures in_range { IfSome result (InRange (result_kind op common)) }
{
    without_fault(binary(op, common, left, right))
}

// Whether an operator shifts.
fn is_shift(op: Op) -> bool
    ensures { result ≡ shifts op }
{
    matches!(op, Op::Shl | Op::Shr)
}

// Whether an operator compares.
fn is_comparison(op: Op) -> bool
    ensures { result ≡ compares op }
{
    matches!(
        op,
        Op::Less | Op::Greater | Op::LessEq | Op::GreaterEq | Op::Equal | Op::NotEqual
    )
}

// 1 where a fact holds, else 0.
fn truth_of(holds: bool) -> i128
    ensures value { result ≡ operators.truth holds }
    ensures in_range { InRange Kind.Long result }
{
    if holds { 1 } else { 0 }
}

// Whether a number is other than 0.
pub fn is_true(number: i128) -> bool
    ensures { result ≡ truth number }
{
    number != 0
}

// The number, where there is no fault.
fn without_fault(answer: Result<i128, Fault>) -> Option<i128>
    ensures { result ≡ number_or_fault answer }
{
    match answer {
        Ok(number) => Some(number),
        Err(_) => None,
    }
}
