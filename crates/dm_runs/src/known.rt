//! What is looked up in a unit for its runs.

ghost use Rattle.std.specs.Prelude.{◌≡◌, ◌<◌, length, map, slice_index_or, IfOk};
ghost use Rattle.dm_token.specs.declared.unit.Read.{Read as SeenRead};
ghost use Rattle.dm_runs.specs.Names.{named_in as seen_named};

use crate::named::{Named, named_in};
use crate::names::Names;
use crate::stand::Stand;
use dm_token::{List, Memory, Read, UnitTokens};
use std::alloc::Global;

/// A unit, with what is looked up for the runs of its definitions, made once for all of them.
#[derive(Drop)]
pub(crate) struct Known<'a> {
    pub(crate) pp: &'a UnitTokens,
    names: Names<'a>,
    /// By the number of a definition, the tokens of its replacement list that name parameters.
    named: Vec<List<Named>>,
    ghost has_names: { names ≡ pp.now.expansions },
    ghost has_named: { named.items ≡ map (λ (one : SeenRead). seen_named one.definition) pp.now.read },
}

// The tokens of each replacement list that name parameters.
fn all_named(alloc: Global, read: &[Read]) -> Result<Vec<List<Named>>, Memory>
    ensures { IfOk result (λ named. named.items ≡ map (λ (one : SeenRead). seen_named one.definition) read.now) }
{
    let mut named = Vec::new(alloc);
    for one in read {
        named.push(List::from_vec(named_in(alloc, &one.definition)?))?;
    }
    Ok(named)
}

impl<'a> Known<'a> {
    /// Goes once through the definitions and the expansions.
    pub(crate) fn of(alloc: Global, pp: &'a UnitTokens) -> Result<Known<'a>, Memory>
        ensures { IfOk result (λ made. made.pp.now ≡ pp.now) }
    {
        let names = Names::of(alloc, pp.expansions.items())?;
        let named = all_named(alloc, pp.read.items())?;
        Ok(Known { pp, names, named })
    }

    /// What is looked up for the runs of the definition with this number.
    pub(crate) fn stand(&self, number: usize) -> Stand<'_>
        requires { number < length self.now.pp.now.read }
        ensures names { result.names.now ≡ self.now.pp.now.expansions }
        ensures definition { (other : SeenRead) → result.definition.now ≡ (slice_index_or self.now.pp.now.read number other).definition }
        ensures named { result.named.now ≡ seen_named result.definition.now }
    {
        Stand {
            names: &self.names,
            definition: &self.pp.read.items()[number].definition,
            named: self.named[number].items(),
        }
    }
}
