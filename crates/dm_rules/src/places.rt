//! Where tokens stand among the external declarations of a unit.

ghost use Rattle.std.specs.Prelude.{◌≡◌, ◌+◌, ◌<◌, ◌^◌, length, map, IfOk};
ghost use Rattle.std.specs.List.{range_with_len};
ghost use Rattle.dm_token.specs.declared.token.Token.{Token as SeenToken};
ghost use Rattle.dm_runs.specs.Spans as spans;
ghost use Rattle.dm_rules.specs.Places as places;
ghost use Rattle.dm_rules.specs.Tables.{AreCounts};

use dm_runs::begun_before;
use dm_token::{Memory, Token};
use dm_tree::CoreExternal;
use std::alloc::Global;

/// The external declarations of a unit, with what tells in constant time where one of its tokens stands.
#[derive(Drop)]
pub(crate) struct Places<'a> {
    pub(crate) externals: &'a [CoreExternal],
    pub(crate) tokens: &'a [Token],
    /// By the number of preprocessing tokens before it.
    positions: Vec<u32>,
    /// By a token of phase 7 before the end of some external declaration, how many end before it.
    before: Vec<u32>,
    ghost are_positions: { positions.items ≡ map (spans.begun_before tokens.now) (range_with_len 0 (length tokens.now + 1)) },
    ghost are_before: { places.AreBefore externals.now before.items },
    ghost few: { length externals.now < 2 ^ 32 },
}

/// What is known of the tokens and of the external declarations, apart from them.
#[derive(Drop)]
pub(crate) struct Counts {
    /// By the number of preprocessing tokens before it, the token of phase 7.
    positions: Vec<u32>,
    /// By a token of phase 7, how many external declarations end before it.
    before: Vec<u32>,
}

/// How many external declarations end before each token that stands before the end of one. More than 4,294,967,295 count as want
/// of memory.
fn ends_before(alloc: Global, externals: &[CoreExternal]) -> Result<Vec<u32>, Memory>
    ensures before { IfOk result (λ before. places.AreBefore externals.now before.items) }
    ensures few { IfOk result (λ _. length externals.now < 2 ^ 32) }
{
    if externals.len() > u32::MAX as usize {
        return Err(Memory);
    }
    let mut before = Vec::new(alloc);
    for number in 0..externals.len() {
        let after = externals[number].span.after as usize;
        if before.len() < after {
            before.resize(after, number as u32)?;
        }
    }
    Ok(before)
}

impl<'a> Places<'a> {
    pub(crate) fn of(
        alloc: Global,
        tokens: &'a [Token],
        externals: &'a [CoreExternal],
    ) -> Result<Places<'a>, Memory>
        ensures tokens { IfOk result (λ made. made.tokens.now ≡ tokens.now) }
        ensures externals { IfOk result (λ made. made.externals.now ≡ externals.now) }
    {
        let positions = begun_before(alloc, tokens)?;
        let before = ends_before(alloc, externals)?;
        Ok(Places {
            externals,
            tokens,
            positions,
            before,
        })
    }

    /// The tokens and the external declarations with what is known of them.
    pub(crate) fn with_counts(
        tokens: &'a [Token],
        externals: &'a [CoreExternal],
        counts: Counts,
    ) -> Places<'a>
        requires { AreCounts tokens.now externals.now counts }
        ensures tokens { result.tokens.now ≡ tokens.now }
        ensures externals { result.externals.now ≡ externals.now }
    {
        Places {
            externals,
            tokens,
            positions: counts.positions,
            before: counts.before,
        }
    }

    /// What is known, apart from the tokens and the external declarations.
    pub(crate) fn into_counts(self) -> Counts
        ensures { AreCounts self.entry.tokens.now self.entry.externals.now result }
    {
        Counts {
            positions: self.positions,
            before: self.before,
        }
    }

    /// The token of phase 7 behind so many preprocessing tokens, of which there are as many.
    fn position(&self, count: u32) -> u32
        ensures { result ≡ spans.begun_before self.now.tokens.now count }
    {
        let last = self.positions.len() - 1;
        self.positions[(count as usize).min(last)]
    }

    /// How many external declarations end before what stands behind so many preprocessing tokens.
    pub(crate) fn externals_before(&self, count: u32) -> u32
        ensures { result ≡ places.externals_before self.now.externals.now (spans.begun_before self.now.tokens.now count) }
    {
        let at = self.position(count) as usize;
        if at < self.before.len() {
            self.before[at]
        } else {
            self.externals.len() as u32
        }
    }

    /// Whether what stands behind so many preprocessing tokens stands inside an external declaration.
    pub(crate) fn is_inside(&self, count: u32) -> bool
        ensures { result ≡ places.is_inside self.now.externals.now (spans.begun_before self.now.tokens.now count) }
    {
        match self.externals.get(self.externals_before(count) as usize) {
            None => false,
            Some(one) => one.span.first < self.position(count),
        }
    }
}
