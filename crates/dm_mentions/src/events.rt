//! What directives do to names: definitions and `#undef`s.

ghost use Rattle.std.specs.Prelude.{◌≡◌, ◌≤◌, ◌<◌, ◌+◌, ◌-◌, ◌^◌, ◌++◌, length, drop, nat_le, IfOk, OnOk};
ghost use Rattle.std.specs.List.{prefix_len};
ghost use Rattle.dm_mentions.specs.Mentions as mentions;

use dm_token::{Memory, UnitTokens};
use std::alloc::Global;

/// What a directive does to a name.
#[derive(Clone, Copy, Debug, PartialEq, Eq)]
pub enum Event {
    /// It defines it. The number is that of the definition among those read.
    Defined(u32),
    /// It takes the name's definition away, if there is one. The number is that of the `#undef`.
    Undefined(u32),
}

/// Adds the `#undef`s from one number up to another.
fn add_undefined(events: &mut Vec<Event>, from: usize, to: usize) -> Result<(), Memory>
    requires ordered { from ≤ to }
    requires small { to < 2 ^ 32 }
    ensures { OnOk result (events.new.items ≡ events.old.items ++ mentions.undefined_from from (to - from)) }
{
    for number in from..to {
        events.push(Event::Undefined(number as u32))?;
    }
    Ok(())
}

/// The end of the `#undef`s from a number on that are read before the next definition, behind so many definitions.
fn end_of_undefined(counts: &[u32], from: usize, defined: u32) -> usize
    requires { from ≤ length counts.now }
    ensures end { result ≡ from + prefix_len (λ count. nat_le count defined) (drop from counts.now) }
    ensures within { result ≤ length counts.now }
{
    let mut at = from;
    while at < counts.len() && counts[at] <= defined {
        at += 1;
    }
    at
}

/// The definitions and the `#undef`s of a unit in the order of reading. More than 4,294,967,295 of either count as want
/// of memory.
pub(crate) fn events(alloc: Global, pp: &UnitTokens) -> Result<Vec<Event>, Memory>
    ensures { IfOk result (λ found. found.items ≡ mentions.events pp.now) }
{
    let most = u32::MAX as usize;
    let counts = pp.read_before_undefined.items();
    if pp.read.len() > most || counts.len() > most {
        return Err(Memory);
    }
    let mut found = Vec::new(alloc);
    let mut undefined = 0;
    for number in 0..pp.read.len() {
        let end = end_of_undefined(counts, undefined, number as u32);
        add_undefined(&mut found, undefined, end)?;
        found.push(Event::Defined(number as u32))?;
        undefined = end;
    }
    add_undefined(&mut found, undefined, counts.len())?;
    Ok(found)
}
