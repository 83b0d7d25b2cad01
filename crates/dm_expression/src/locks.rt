//! The locks of an expression.

ghost use Rattle.std.specs.Prelude.{◌≡◌, ◌+◌, ◌≤◌, length, IfOk, OnOk};
ghost use Rattle.dm_expression.specs.Given.{lock_list, with_lock, without};

use dm_token::Memory;

/// Puts a lock at a place, if there is one, and counts it.
pub(crate) fn insert<L: Drop>(
    locks: &mut Vec<L>,
    at: usize,
    lock: Option<L>,
) -> Result<usize, Memory>
    requires { at ≤ length locks.old.items }
    ensures count { IfOk result (λ count. count ≡ length (lock_list lock)) }
    ensures locks { OnOk result (locks.new.items ≡ with_lock at lock locks.old.items) }
{
    match lock {
        Some(lock) => {
            locks.insert(at, lock)?;
            Ok(1)
        }
        None => Ok(0),
    }
}

/// Lets so many locks go that stand behind a place.
pub(crate) fn remove<L: Drop>(locks: &mut Vec<L>, at: usize, count: usize) -> Result<(), Memory>
    requires { at + count ≤ length locks.old.items }
    ensures { OnOk result (locks.new.items ≡ without at count locks.old.items) }
{
    let mut later = locks.split_off(at + count)?;
    locks.truncate(at);
    locks.append(&mut later)?;
    Ok(())
}
