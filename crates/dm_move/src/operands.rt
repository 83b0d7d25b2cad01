//! The results of operands.

ghost use Rattle.std.specs.Prelude.{◌≡◌, ◌∷◌, ◌<◌, ◌==◌, [], false, length, map, IfOk, IfSome, MatchOption};
ghost use Rattle.dm_type.specs.Tables.{Table};
ghost use Rattle.dm_meaning.specs.Expressions.{value_of};
ghost use Rattle.dm_operate.specs.Evaluations.{view_of_evaluation, view_of_operand, view_of_operands, AreKnownOperands};
ghost use Rattle.dm_expression.specs.Taken.{results_of};
ghost use Rattle.dm_value.specs.Views.{view_of_value};
ghost use Rattle.dm_move.specs.Operands.{AreKnownResults};

use dm_expression::Results;
use dm_operate::{Evaluation, Operand, Operands};
use dm_token::Memory;
use dm_value::Value;
use std::alloc::Global;

/// The operand, where there is one.
pub(crate) fn only(operands: &Results<Operand>) -> Option<&Operand>
    ensures { MatchOption result ((length (results_of operands.now) == 1) ≡ false) (λ one. results_of operands.now ≡ one.now ∷ []) }
{
    match operands {
        Results::One(one) => Some(one),
        Results::Many(all) => only_of(all.as_slice()),
        Results::None | Results::Two(_, _) => None,
    }
}

/// The same of a list.
fn only_of(all: &[Operand]) -> Option<&Operand>
    ensures { MatchOption result ((length all.now == 1) ≡ false) (λ one. all.now ≡ one.now ∷ []) }
{
    match all {
        [one] => Some(one),
        _ => None,
    }
}

/// The operands, where there are at most two.
pub(crate) fn at_most_two(operands: &Results<Operand>) -> Option<Operands<'_>>
    ensures given { (table : Table) → MatchOption result (2 < length (results_of operands.now)) (λ given. view_of_operands table given ≡ map (view_of_operand table) (results_of operands.now)) }
    ensures known { (table : Table) → AreKnownResults table (results_of operands.now) → IfSome result (AreKnownOperands table) }
{
    match operands {
        Results::None => Some(Operands::None),
        Results::One(a) => Some(Operands::One(a)),
        Results::Two(a, b) => Some(Operands::Two(a, b)),
        Results::Many(all) => two_of(all.as_slice()),
    }
}

/// The same of a list.
fn two_of(all: &[Operand]) -> Option<Operands<'_>>
    ensures given { (table : Table) → MatchOption result (2 < length all.now) (λ given. view_of_operands table given ≡ map (view_of_operand table) all.now) }
    ensures known { (table : Table) → AreKnownResults table all.now → IfSome result (AreKnownOperands table) }
{
    match all {
        [] => Some(Operands::None),
        [a] => Some(Operands::One(a)),
        [a, b] => Some(Operands::Two(a, b)),
        _ => None,
    }
}

/// The values of arguments, from the left.
pub(crate) fn values(alloc: Global, operands: &Results<Operand>) -> Result<Vec<Value>, Memory>
    ensures { (table : Table) → IfOk result (λ values. map view_of_value values.items ≡ map (λ a. value_of a.result) (map (view_of_operand table) (results_of operands.now))) }
{
    match operands {
        Results::None => Ok(Vec::new(alloc)),
        Results::One(a) => {
            let mut values = Vec::new(alloc);
            values.push(value_in(a)?)?;
            Ok(values)
        }
        Results::Two(a, b) => {
            let mut values = Vec::new(alloc);
            values.push(value_in(a)?)?;
            values.push(value_in(b)?)?;
            Ok(values)
        }
        Results::Many(all) => {
            let values = values_of(alloc, all.as_slice())?;
            Ok(values)
        }
    }
}

/// The same of a list.
fn values_of(alloc: Global, all: &[Operand]) -> Result<Vec<Value>, Memory>
    ensures { (table : Table) → IfOk result (λ values. map view_of_value values.items ≡ map (λ a. value_of a.result) (map (view_of_operand table) all.now)) }
{
    let mut values = Vec::new(alloc);
    for operand in all {
        values.push(value_in(operand)?)?;
    }
    Ok(values)
}

/// The value of an operand, unset for an lvalue.
fn value_in(operand: &Operand) -> Result<Value, Memory>
    ensures { IfOk result (λ value. view_of_value value ≡ value_of (view_of_evaluation operand.now.result)) }
{
    match &operand.result {
        Evaluation::Value(value) => value.copy(),
        Evaluation::Object(_) => Ok(Value::Unset),
    }
}
