//! Rows as a machine with two stacks would use them.

use dm_row::{Item, Row};
use dm_token::Memory;
use std::alloc::Global;
use std::test::Fail;

/// The row of `a + b * c`: three names, and two operators that wait.
fn sum(alloc: Global) -> Result<Row<u8, u8>, Memory> {
    let mut row = Row::new(alloc);
    row.put_behind(Item::Waits(b'+', 2))?;
    row.put_behind(Item::Waits(b'*', 2))?;
    row.put_behind(Item::Waits(b'c', 0))?;
    row.put_behind(Item::Waits(b'b', 0))?;
    row.put_behind(Item::Waits(b'a', 0))?;
    Ok(row)
}

/// Evaluates the last name, and says how many nodes are ready then, and what the results weigh.
fn after_the_last(alloc: Global) -> Result<(usize, usize), Memory> {
    let mut row = sum(alloc)?;
    if row.ready() == 3 {
        row.seek(2)?;
    }
    drop(row.take_behind());
    row.put_in_front(Item::Done(3, 1))?;
    Ok((row.ready(), row.weight_in_front()))
}

#[test]
fn names_are_ready_and_operators_wait(rt: HostRuntime) -> Result<(), Fail> {
    let row = sum(rt.alloc());
    assert_eq!(rt; row.is_ok_and(|row| row.ready() == 3), true);
    Ok(())
}

#[test]
fn the_last_node_is_found(rt: HostRuntime) -> Result<(), Fail> {
    assert_eq!(rt; after_the_last(rt.alloc()), Ok((2, 1)));
    Ok(())
}
