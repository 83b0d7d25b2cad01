//! The mentions of names in a unit.

ghost use Rattle.std.specs.Prelude.{◌≡◌, ℕ, List as Sequence, IfOk};
ghost use Rattle.std.specs.List.{position_from};
ghost use Rattle.std.specs.FinMap as finite;
ghost use Rattle.dm_mentions.specs.Mentions as mentions;
ghost use Rattle.dm_mentions.specs.Mentions.{is_mention, is_use, AreChains};
ghost use Rattle.dm_mentions.specs.Tables.{AreTables};

use crate::chains::{Chains, chained};
use crate::events::{Event, events};
use crate::places::{first_uses, identifiers};
use crate::tables::Tables;
use dm_name_map::NameMap;
use dm_runs::is_at;
use dm_token::{Memory, Place, Text, UnitTokens};
use std::alloc::Global;

/// A unit after translation phase 4, with what looks its names up.
#[derive(Drop)]
pub struct Mentions<'a> {
    pub pp: &'a UnitTokens,
    identifiers: NameMap,
    uses: NameMap,
    events: Vec<Event>,
    chains: Chains,
    ghost finds_identifiers: { (name : Sequence ℕ) → finite.get identifiers name ≡ position_from (is_mention name) 0 pp.now.tokens },
    ghost finds_uses: { (name : Sequence ℕ) → finite.get uses name ≡ position_from (is_use name) 0 pp.now.directive_uses },
    ghost has_events: { events.items ≡ mentions.events pp.now },
    ghost has_chains: { AreChains pp.now 0 events.items chains.first chains.next.items },
}

impl<'a> Mentions<'a> {
    /// One walk over the tokens and the directives. Where a list has more than 4,294,967,295 items, that counts as want
    /// of memory.
    pub fn of(alloc: Global, pp: &'a UnitTokens) -> Result<Mentions<'a>, Memory>
        ensures { IfOk result (λ made. made.pp.now ≡ pp.now) }
    {
        let identifiers = identifiers(alloc, pp.tokens.items())?;
        let uses = first_uses(alloc, pp.directive_uses.items())?;
        let events = events(alloc, pp)?;
        let chains = chained(alloc, pp, &events)?;
        Ok(Mentions {
            pp,
            identifiers,
            uses,
            events,
            chains,
        })
    }

    /// The unit with what is known of its names.
    pub fn with_tables(pp: &'a UnitTokens, tables: Tables) -> Mentions<'a>
        requires { AreTables pp.now tables }
        ensures { result.pp.now ≡ pp.now }
    {
        Mentions {
            pp,
            identifiers: tables.identifiers,
            uses: tables.uses,
            events: tables.events,
            chains: tables.chains,
        }
    }

    /// What is known of the names, apart from the unit.
    pub fn into_tables(self) -> Tables
        ensures { AreTables self.entry.pp.now result }
    {
        Tables {
            identifiers: self.identifiers,
            uses: self.uses,
            events: self.events,
            chains: self.chains,
        }
    }

    /// The place of the first token of the list that is the name.
    pub fn identifier(&self, name: &Text) -> Option<Place>
        ensures { result ≡ mentions.identifier_place self.now.pp.now name.now }
    {
        let at = self.identifiers.get(name)?;
        Some(self.pp.tokens.items()[at as usize].pp.place)
    }

    /// The place of the first use of the name by a directive.
    pub fn directive_use(&self, name: &Text) -> Option<Place>
        ensures { result ≡ mentions.use_place self.now.pp.now name.now }
    {
        let at = self.uses.get(name)?;
        Some(self.pp.directive_uses.items()[at as usize].place)
    }

    /// The first event of the name that isn't the first reading of the definition whose `#` is this byte of a file.
    pub fn again(&self, file: u32, hash: u32, name: &Text) -> Option<Event>
        ensures { result ≡ mentions.again self.now.pp.now file hash name.now }
    {
        let first = self.chains.first.get(name)? as usize;
        let event = self.events[first];
        if !self.is_reading(event, file, hash) {
            return Some(event);
        }
        let next = self.chains.next[first]? as usize;
        Some(self.events[next])
    }

    fn is_reading(&self, event: Event, file: u32, hash: u32) -> bool
        ensures { result ≡ mentions.is_reading self.now.pp.now file hash event }
    {
        match event {
            Event::Defined(number) => match self.pp.read.items().get(number as usize) {
                None => false,
                Some(read) => is_at(&read.definition, file, hash),
            },
            Event::Undefined(_) => false,
        }
    }
}
