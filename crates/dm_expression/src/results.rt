//! The results of operands.

ghost use Rattle.std.specs.Prelude.{◌≡◌, ◌+◌, ◌≤◌, IfOk};
ghost use Rattle.dm_row.specs.Counts.{results_after, weight_in};
ghost use Rattle.dm_expression.specs.Taken.{results_of, IsOperands};

use crate::waiting::Waiting;
use dm_row::Row;
use dm_token::Memory;
use std::alloc::Global;

/// The results of operands, from the left.
#[derive(Drop)]
pub enum Results<R> {
    None,
    One(R),
    Two(R, R),
    Many(Vec<R>),
}

/// A node whose operands are evaluated, taken out of its expression.
#[derive(Drop)]
pub struct Taken<'a, R> {
    pub node: Waiting<'a>,
    pub operands: Results<R>,
    /// How many locks its operands have.
    pub locks: usize,
}

/// Takes so many results in front of the place.
pub(crate) fn take_results<R: Drop, N: Drop>(
    alloc: Global,
    row: &mut Row<R, N>,
    count: usize,
) -> Result<Results<R>, Memory>
    requires { count ≤ results_after 0 row.old.0 }
    ensures { IfOk result (λ found. IsOperands count row.old row.new (results_of found)) }
{
    match count {
        0 => Ok(Results::None),
        1 => Ok(take_one(row)?),
        2 => Ok(take_two(row)?),
        _ => {
            let all = take_many(alloc, row, count)?;
            Ok(Results::Many(all))
        }
    }
}

fn take_one<R: Drop, N: Drop>(row: &mut Row<R, N>) -> Result<Results<R>, Memory>
    requires { 1 ≤ results_after 0 row.old.0 }
    ensures { IfOk result (λ found. IsOperands 1 row.old row.new (results_of found)) }
{
    match row.take_result() {
        Some((a, _)) => Ok(Results::One(a)),
        None => Err(Memory),
    }
}

fn take_two<R: Drop, N: Drop>(row: &mut Row<R, N>) -> Result<Results<R>, Memory>
    requires { 2 ≤ results_after 0 row.old.0 }
    ensures { IfOk result (λ found. IsOperands 2 row.old row.new (results_of found)) }
{
    let Some((b, _)) = row.take_result() else {
        return Err(Memory);
    };
    match row.take_result() {
        Some((a, _)) => Ok(Results::Two(a, b)),
        None => Err(Memory),
    }
}

fn take_many<R: Drop, N: Drop>(
    alloc: Global,
    row: &mut Row<R, N>,
    count: usize,
) -> Result<Vec<R>, Memory>
    requires { count ≤ results_after 0 row.old.0 }
    ensures { IfOk result (λ found. IsOperands count row.old row.new found.items) }
{
    let mut all = Vec::new(alloc);
    for _ in 0..count {
        let Some((one, _)) = row.take_result() else {
            return Err(Memory);
        };
        all.push(one)?;
    }
    all.reverse();
    Ok(all)
}
