//! What is proposed for definitions.

ghost use Rattle.std.specs.Prelude.{◌≡◌, Some, IfOk, IsSome, OnOk, find};
ghost use Rattle.std.specs.Option.{option_copied};
ghost use Rattle.dm_runs.specs.Runs.{is_at as is_seen_at};
ghost use Rattle.dm_judge.specs.Proposals as proposals;
ghost use Rattle.dm_judge.specs.Proposals.{IsProposal, proposed};
ghost use Rattle.dm_judge.specs.Units.{AreTyped, AreWhole, readings_of};

use crate::first::change_of;
use crate::proposal::Proposal;
use crate::rules::broken_rule;
use crate::units::{Units, indexes_of, names_of};
use dm_reading::Reading;
use dm_runs::is_at;
use dm_token::{Definition, Memory};
use std::alloc::Global;

/// The first reading in a unit of the definition whose `#` is this byte of a file.
fn definition_in(reading: &Reading, file: u32, hash: u32) -> Option<&Definition>
    ensures { option_copied result ≡ find (is_seen_at file hash) (proposals.definitions_in reading.now) }
{
    let mut left = reading.pp.read.items();
    while let Some((read, others)) = left.split_first() {
        if is_at(&read.definition, file, hash) {
            return Some(&read.definition);
        }
        left = others;
    }
    None
}

/// The definition as the first unit that reads it has it.
fn definition_at(readings: &[Reading], file: u32, hash: u32) -> Option<&Definition>
    ensures { option_copied result ≡ proposals.definition_at readings.now file hash }
{
    let mut left = readings;
    while let Some((reading, others)) = left.split_first() {
        if let Some(definition) = definition_in(reading, file, hash) {
            return Some(definition);
        }
        left = others;
    }
    None
}

/// What may become of a definition. Where it keeps the rules 1 to 8, each unit that expands it is gone through, once for all definitions.
pub fn propose_in(
    alloc: Global,
    units: &mut Units,
    definition: &Definition,
) -> Result<Proposal, Memory>
    requires { AreWhole units.old }
    ensures proposed { IfOk result (λ proposal. proposed (readings_of units.old) definition.now ≡ Some proposal) }
    ensures whole { OnOk result (AreWhole units.new) }
    ensures indexes { OnOk result (units.new.indexes.now ≡ units.old.indexes.now) }
{
    if let Some((rule, place)) = broken_rule(alloc, definition, units)? {
        return Ok(Proposal::Broken { rule, place });
    }
    let change = change_of(alloc, definition, units.meanings.as_slice())?;
    Ok(Proposal::Change(change.unwrap()))
}

/// What may become of the definition whose `#` is this byte of a file, where these are the readings of a project's units.
/// Goes through all units, which `propose_in` does once for all definitions.
pub fn propose(alloc: Global, old: &[Reading], file: u32, hash: u32) -> Result<Proposal, Memory>
    requires read { IsSome (proposals.definition_at old.now file hash) }
    requires typed { AreTyped old.now }
    ensures { IfOk result (IsProposal old.now file hash) }
{
    let indexes = indexes_of(alloc, old)?;
    let names = names_of(alloc, old)?;
    let mut units = Units::of(alloc, indexes.as_slice(), names.as_slice())?;
    let definition = definition_at(old, file, hash).unwrap();
    let proposal = propose_in(alloc, &mut units, definition)?;
    Ok(proposal)
}
