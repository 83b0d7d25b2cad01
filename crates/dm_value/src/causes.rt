//! Which cause of undefined behaviour counts where several meet at one step.

ghost use Rattle.std.specs.Prelude.{◌≡◌};
ghost use Rattle.dm_meaning.specs.Causes as table;
ghost use Rattle.dm_value.specs.Sooner as order;

use dm_meaning::Cause;

/// A cause where something holds.
pub fn when(cause: Cause, holds: bool) -> Option<Cause>
    ensures { result ≡ table.earliest (table.when cause holds) }
{
    if holds { Some(cause) } else { None }
}

/// The first of two causes in the table's order, where there are any.
pub fn sooner(first: Option<Cause>, second: Option<Cause>) -> Option<Cause>
    ensures { result ≡ order.sooner first second }
{
    match (first, second) {
        (Some(cause), Some(other)) => {
            if row(cause) <= row(other) {
                first
            } else {
                second
            }
        }
        (Some(_), None) => first,
        (None, _) => second,
    }
}

/// The place of a cause in the table, from 0.
fn row(cause: Cause) -> u8
    ensures { result ≡ table.row cause }
{
    cause as u8
}
