//! The parts of a replacement list of which the tokens of a run come.

ghost use Rattle.std.specs.Prelude.{◌≡◌, ℕ, nat_lt, slice_get, IfOk};
ghost use Rattle.dm_runs.specs.Lookups as lookups;
ghost use Rattle.dm_runs.specs.Lookups.{ArePlaces, AreTokens};
ghost use Rattle.dm_runs.specs.Names.{named_in};
ghost use Rattle.dm_runs.specs.Runs as runs;

use crate::named::Named;
use crate::stand::Stand;
use dm_token::{CToken, Mark, Memory, Place, PpToken, Trail};
use std::alloc::Global;
use std::collections::HashMap;

/// A place in a file.
#[derive(Clone, Copy, Debug, PartialEq, Eq, Hash)]
pub(crate) struct Spot {
    file: u32,
    byte: u32,
}

/// A place of a parameter in a replacement list.
#[derive(Clone, Copy, Debug, PartialEq, Eq, Hash)]
pub(crate) struct Slot {
    parameter: u32,
    occurrence: u32,
}

/// The parts of a definition's replacement list, looked up by what comes of them.
#[derive(Drop)]
pub(crate) struct Origins<'a> {
    pub(crate) stand: Stand<'a>,
    tokens: HashMap<Spot, usize>,
    places: HashMap<Slot, usize>,
    ghost has_tokens: { AreTokens tokens 0 stand.definition.now.body },
    ghost has_places: { ArePlaces places (named_in stand.definition.now) },
}

fn spot_of(place: Place) -> Spot
    ensures { result ≡ lookups.spot place }
{
    Spot {
        file: place.file,
        byte: place.byte,
    }
}

// The positions of the tokens of a replacement list.
fn tokens_of(alloc: Global, body: &[PpToken]) -> Result<HashMap<Spot, usize>, Memory>
    ensures { IfOk result (λ tokens. AreTokens tokens 0 body.now) }
{
    let mut tokens = HashMap::new(alloc);
    let mut left = body;
    while let Some((last, before)) = left.split_last() {
        tokens.insert(spot_of(last.place), before.len())?;
        left = before;
    }
    Ok(tokens)
}

// The positions of those that name parameters.
fn places_of(alloc: Global, named: &[Named]) -> Result<HashMap<Slot, usize>, Memory>
    ensures { IfOk result (λ places. ArePlaces places named.now) }
{
    let mut places = HashMap::new(alloc);
    let mut left = named;
    while let Some((last, before)) = left.split_last() {
        let slot = Slot {
            parameter: last.parameter,
            occurrence: last.occurrence,
        };
        places.insert(slot, last.at)?;
        left = before;
    }
    Ok(places)
}

// The mark with so many marks outside of it.
fn mark_at(trail: &Trail, outer: u32) -> Option<Mark>
    ensures { result ≡ slice_get trail.now outer }
{
    let mut rest = trail;
    while let Some(shorter) = rest.parent() {
        if shorter.length() == outer {
            return rest.last();
        }
        rest = shorter;
    }
    None
}

impl<'a> Origins<'a> {
    /// Those of the definition of a stand.
    pub(crate) fn of(alloc: Global, stand: Stand<'a>) -> Result<Origins<'a>, Memory>
        requires { stand.named.now ≡ named_in stand.definition.now }
        ensures { IfOk result (λ made. made.stand ≡ stand.entry) }
    {
        let tokens = tokens_of(alloc, stand.definition.body.items())?;
        let places = places_of(alloc, stand.named)?;
        Ok(Origins {
            stand,
            tokens,
            places,
        })
    }

    // The token that is spelled at a place.
    fn token_at(&self, place: Place) -> Option<usize>
        ensures { result ≡ runs.part_at self.now.stand.definition.now place }
    {
        self.tokens.get(&spot_of(place)).copied()
    }

    // The part of the replacement list that a token comes of, by the mark behind those of the run.
    fn part(&self, place: Place, mark: Option<Mark>) -> Option<usize>
        ensures { result ≡ runs.part_by self.now.stand.names.now self.now.stand.definition.now place mark }
    {
        match mark {
            None => self.token_at(place),
            Some(
                Mark::Argument {
                    parameter,
                    occurrence,
                },
            ) => self
                .places
                .get(&Slot {
                    parameter,
                    occurrence,
                })
                .copied(),
            Some(
                Mark::Expansion {
                    definition: _,
                    instance,
                },
            ) => match self.stand.names.get(instance) {
                None => None,
                Some(name) => self.token_at(name),
            },
        }
    }

    /// The part that a token of a run comes of, where the run's marks are so many. The first one counts for none, since nothing
    /// comes before it.
    pub(crate) fn part_of(&self, outer: u32, token: &CToken) -> usize
        ensures { (at : ℕ) → nat_lt at result ≡ runs.is_behind at (runs.part_by self.now.stand.names.now self.now.stand.definition.now token.now.place (slice_get token.now.trail outer)) }
    {
        match self.part(token.place, mark_at(&token.trail, outer)) {
            None => 0,
            Some(part) => part,
        }
    }
}
