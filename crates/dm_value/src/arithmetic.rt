//! What operators do with integers (6.3.1, 6.5), and why they may be undefined.

ghost use Rattle.std.specs.Prelude.{◌≡◌, IfOk};
ghost use Rattle.dm_int.specs.Kinds as kinds;
ghost use Rattle.dm_int.specs.Kinds.{InRange};
ghost use Rattle.dm_int.specs.Operators as operators;
ghost use Rattle.dm_int.specs.Operators.{IsRight};
ghost use Rattle.dm_tree.specs.Evaluation.{counted_value, unary_value, updated_value};
ghost use Rattle.dm_meaning.specs.Causes.{fault_cause};
ghost use Rattle.dm_value.specs.Integers.{or_cause, integer_or_cause};

use crate::integer::Integer;
use dm_int::{Fault, Kind, Op};
use dm_meaning::Cause;
use dm_tree::Sign;

/// The cause that a fault of arithmetic is.
fn cause_of(fault: Fault) -> Cause
    ensures { result ≡ fault_cause fault }
{
    match fault {
        Fault::Overflow => Cause::Overflow,
        Fault::Zero => Cause::Division,
        Fault::Shift => Cause::Shift,
    }
}

/// What a binary operator gives on two integers of one kind, but for the count of a shift (6.5.5 to 6.5.12).
///
/// # Errors
///
/// The cause for which the operation is undefined.
pub fn operated(op: Op, left: Integer, right: Integer) -> Result<i128, Cause>
    requires { IsRight op left.kind right.value }
    ensures answer { result ≡ or_cause (operators.binary op left.kind left.value right.value) }
    ensures in_range { IfOk result (InRange left.kind) }
{
    dm_int::binary(op, left.kind(), left.value(), right.value()).map_err(cause_of)
}

/// What a unary operator gives on an integer (6.5.3.3).
///
/// # Errors
///
/// [`Cause::Overflow`] where the negative isn't representable.
pub fn signed(sign: Sign, integer: Integer) -> Result<i128, Cause>
    ensures { result ≡ or_cause (unary_value sign integer.kind integer.value) }
{
    dm_tree::unary(sign, integer.kind(), integer.value()).map_err(cause_of)
}

/// An integer converted to another kind (6.3.1.2, 6.3.1.3).
pub fn converted(kind: Kind, integer: Integer) -> Integer
    ensures kind { result.kind ≡ kind }
    ensures value { result.value ≡ kinds.convert kind integer.value }
{
    Integer::new(kind, dm_int::convert(kind, integer.value()))
}

/// What a compound assignment stores into an object that has this value, where its operator works in the kind `works`
/// (6.5.16.2).
///
/// # Errors
///
/// The cause for which the operation is undefined.
pub fn updated(op: Op, works: Kind, object: Integer, right: Integer) -> Result<Integer, Cause>
    requires { IsRight op works right.value }
    ensures { result ≡ integer_or_cause object.kind (updated_value op works object.kind object.value right.value) }
{
    kept(
        object.kind(),
        dm_tree::updated(op, works, object.kind(), object.value(), right.value()),
    )
}

/// What `++` or `--` stores into an object that has this value (6.5.2.4, 6.5.3.1).
///
/// # Errors
///
/// [`Cause::Overflow`] where the sum isn't representable.
pub fn counted(plus: bool, object: Integer) -> Result<Integer, Cause>
    ensures { result ≡ integer_or_cause object.kind (counted_value plus object.kind object.value) }
{
    kept(
        object.kind(),
        dm_tree::counted(plus, object.kind(), object.value()),
    )
}

/// A number as an integer of a kind, or the cause why there is none.
fn kept(kind: Kind, number: Result<i128, Fault>) -> Result<Integer, Cause>
    requires { IfOk number (InRange kind) }
    ensures { result ≡ integer_or_cause kind number }
{
    match number {
        Ok(value) => Ok(Integer::new(kind, value)),
        Err(fault) => Err(cause_of(fault)),
    }
}
