ghost use Rattle.std.specs.Prelude.{◌≡◌, IfOk};
ghost use Rattle.dm_int.specs.Kinds.{InRange};
ghost use Rattle.dm_int.specs.Operators.{IsRight};
ghost use Rattle.dm_tree.specs.Evaluation.{counted_value, is_true, unary_value, updated_value};

use crate::tree::Sign;
use dm_int::{Fault, Kind, Op, binary, common, complement, convert, negate};

/// Whether an integer counts as true: it isn't 0 (6.5.13p3, 6.5.14p3, 6.5.15p4).
pub fn is_nonzero(value: i128) -> bool
    ensures { result ≡ is_true value }
{
    value != 0
}

/// What a unary operator gives on a value of the kind (6.5.3.3).
///
/// # Errors
///
/// [`Fault::Overflow`] where the negative isn't representable.
pub fn unary(sign: Sign, kind: Kind, value: i128) -> Result<i128, Fault>
    requires { InRange kind value }
    ensures { result ≡ unary_value sign kind value }
{
    match sign {
        Sign::Plus => Ok(value),
        Sign::Minus => negate(kind, value),
        Sign::Complement => Ok(complement(kind, value)),
        Sign::Not => Ok(i128::from(value == 0)),
    }
}

/// What a compound assignment stores into an object of the kind that has the value `left`, where its operator works in
/// the kind `works` (6.5.16.2).
///
/// # Errors
///
/// The operator's [`Fault`].
pub fn updated(op: Op, works: Kind, kind: Kind, left: i128, right: i128) -> Result<i128, Fault>
    requires { IsRight op works right }
    ensures stored { result ≡ updated_value op works kind left right }
    ensures in_range { IfOk result (InRange kind) }
{
    let value = binary(op, works, convert(works, left), right)?;
    Ok(convert(kind, value))
}

/// What `++` or `--` stores into an object of the kind that has this value (6.5.2.4, 6.5.3.1).
///
/// # Errors
///
/// [`Fault::Overflow`] where the kind is as wide as an `int` or wider, and signed, and cannot represent the sum.
pub fn counted(plus: bool, kind: Kind, value: i128) -> Result<i128, Fault>
    ensures stored { result ≡ counted_value plus kind value }
    ensures in_range { IfOk result (InRange kind) }
{
    let op = if plus { Op::Add } else { Op::Sub };
    updated(op, common(kind, Kind::Int), kind, value, 1)
}
