//! What pointers and scalars are used for, and why that may be undefined (6.5.3.2p4, 6.5.8p5, 6.5.13p3).

ghost use Rattle.std.specs.Prelude.{◌≡◌, ◌++◌};
ghost use Rattle.dm_type.specs.Tables.{Table};
ghost use Rattle.dm_meaning.specs.Causes as table;
ghost use Rattle.dm_meaning.specs.Operations.{told, truth_of};
ghost use Rattle.dm_memory.specs.Blocks.{view_of_blocks};
ghost use Rattle.dm_memory.specs.Truths.{view_of_truth};
ghost use Rattle.dm_value.specs.Views.{view_of_pointer, view_of_value};

use crate::access::absence;
use crate::blocks::Blocks;
use dm_meaning::Cause;
use dm_tree::is_nonzero;
use dm_value::{Pointer, Value, sooner, when};

/// Why using a pointer is undefined, as by a comparison, a truth test or a conversion, if it is.
pub fn to_use(blocks: &Blocks, pointer: &Pointer) -> Option<Cause>
    ensures { (types : Table) → result ≡ table.earliest (table.use_causes (view_of_blocks types blocks.now) (view_of_pointer pointer.now)) }
{
    match pointer {
        Pointer::Null => None,
        Pointer::To(at) => absence(blocks, &at.as_ref().name),
    }
}

/// Why following a pointer is undefined, if it is (6.5.3.2p4).
pub fn to_follow(blocks: &Blocks, pointer: &Pointer) -> Option<Cause>
    ensures { (types : Table) → result ≡ table.earliest (table.follow_causes (view_of_blocks types blocks.now) (view_of_pointer pointer.now)) }
{
    let null = when(Cause::Null, pointer.is_null());
    let used = to_use(blocks, pointer);
    sooner(null, used)
}

/// Why ordering two pointers is undefined, if it is (6.5.8p5).
pub fn to_order(blocks: &Blocks, a: &Pointer, b: &Pointer) -> Option<Cause>
    ensures { (types : Table) → result ≡ table.earliest (table.order_causes (view_of_blocks types blocks.now) (view_of_pointer a.now) (view_of_pointer b.now)) }
{
    let apart = when(Cause::Pointer, !a.in_one_object(b));
    let first = to_use(blocks, a);
    let second = to_use(blocks, b);
    let one = sooner(apart, first);
    sooner(one, second)
}

/// Whether a scalar compares unequal to 0 (6.5.13p3, 6.8.4.1p2).
///
/// # Errors
///
/// The cause why it can't be told: it was never set, or is a pointer that can't be used.
pub fn truth(blocks: &Blocks, value: &Value) -> Result<bool, Cause>
    ensures { (types : Table) → view_of_truth result ≡ truth_of (view_of_blocks types blocks.now) (view_of_value value.now) }
{
    match value {
        Value::Integer(integer) => Ok(is_nonzero(integer.value())),
        Value::Pointer(pointer) => unless(to_use(blocks, pointer), !pointer.is_null()),
        Value::Parts(_) | Value::Unset => Err(Cause::OtherType),
    }
}

/// A truth, unless there is a cause why it can't be told.
fn unless(cause: Option<Cause>, truth: bool) -> Result<bool, Cause>
    ensures { view_of_truth result ≡ told cause truth }
{
    match cause {
        Some(cause) => Err(cause),
        None => Ok(truth),
    }
}
