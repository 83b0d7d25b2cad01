//! The events of each name.

ghost use Rattle.std.specs.Prelude.{◌≡◌, option_map, IfOk};
ghost use Rattle.dm_mentions.specs.Mentions as mentions;
ghost use Rattle.dm_mentions.specs.Mentions.{AreChains};

use crate::events::Event;
use dm_name_map::NameMap;
use dm_token::{Memory, Text, UnitTokens};
use std::alloc::Global;

/// Where the first event of each name stands among some, and behind each event the next one of its name.
#[derive(Drop)]
pub(crate) struct Chains {
    pub(crate) first: NameMap,
    pub(crate) next: Vec<Option<u32>>,
}

/// The name that an event is of.
fn name_of(pp: &UnitTokens, event: Event) -> Option<&Text>
    ensures { option_map (λ name. name.now) result ≡ mentions.name_of pp.now event }
{
    match event {
        Event::Defined(number) => {
            let read = pp.read.items().get(number as usize)?;
            Some(&read.definition.name)
        }
        Event::Undefined(number) => {
            let one = pp.undefined.items().get(number as usize)?;
            Some(&one.name)
        }
    }
}

/// The chains of events, which are fewer than 4,294,967,296, or count as want of memory.
pub(crate) fn chained(alloc: Global, pp: &UnitTokens, events: &[Event]) -> Result<Chains, Memory>
    ensures { IfOk result (λ chains. AreChains pp.now 0 events.now chains.first chains.next.items) }
{
    if events.len() > u32::MAX as usize {
        return Err(Memory);
    }
    let mut first = NameMap::new(alloc);
    let mut next = Vec::new(alloc);
    let mut left = events;
    while let Some((last, before)) = left.split_last() {
        match name_of(pp, *last) {
            None => next.push(None)?,
            Some(name) => {
                next.push(first.get(name))?;
                first.insert(name.copy()?, before.len() as u32)?;
            }
        }
        left = before;
    }
    next.reverse();
    Ok(Chains { first, next })
}
