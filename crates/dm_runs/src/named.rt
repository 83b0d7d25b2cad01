//! The tokens of a replacement list that name parameters.

ghost use Rattle.std.specs.Prelude.{◌≡◌, ◌==◌, ◌+◌, ◌<◌, ℕ, [], cond, length, slice_index_or, IfOk, OnOk};
ghost use Rattle.dm_runs.specs.Names.{named_behind, named_in};

use dm_macro::Parameters;
use dm_token::{Definition, Memory, PpToken};
use std::alloc::Global;

/// A token that names a parameter.
#[derive(Clone, Copy, Debug, PartialEq, Eq)]
pub(crate) struct Named {
    /// Its position in the replacement list.
    pub(crate) at: usize,
    pub(crate) parameter: u32,
    pub(crate) occurrence: u32,
}

// A number of 32 bits. A greater one counts as want of memory.
fn small(number: usize) -> Result<u32, Memory>
    ensures { IfOk result (λ small. small ≡ number) }
{
    if number > u32::MAX as usize {
        return Err(Memory);
    }
    Ok(number as u32)
}

// Counts a parameter once more, and says how often it was counted before.
fn count(counts: &mut Vec<usize>, parameter: usize) -> Result<usize, Memory>
    ensures before { IfOk result (λ before. before ≡ slice_index_or counts.old.items parameter 0) }
    ensures counts { OnOk result ((other : ℕ) → slice_index_or counts.new.items other 0 ≡ slice_index_or counts.old.items other 0 + cond (parameter == other) 1 0) }
{
    grow(counts, parameter)?;
    let before = counts[parameter];
    if before == usize::MAX {
        return Err(Memory);
    }
    counts[parameter] = before + 1;
    Ok(before)
}

// There is a count for a parameter.
fn grow(counts: &mut Vec<usize>, parameter: usize) -> Result<(), Memory>
    ensures same { OnOk result ((other : ℕ) → slice_index_or counts.new.items other 0 ≡ slice_index_or counts.old.items other 0) }
    ensures long { OnOk result (parameter < length counts.new.items) }
{
    while counts.len() <= parameter {
        counts.push(0)?;
    }
    Ok(())
}

// Those that name one of these parameters.
fn named_among(
    alloc: Global,
    parameters: &Parameters,
    body: &[PpToken],
) -> Result<Vec<Named>, Memory>
    ensures { IfOk result (λ named. named.items ≡ named_behind parameters.now [] body.now) }
{
    let mut counts = Vec::new(alloc);
    let mut named = Vec::new(alloc);
    for (at, token) in body.iter().enumerate() {
        if let Some(parameter) = parameters.parameter_of(token) {
            let before = count(&mut counts, parameter)?;
            let parameter = small(parameter)?;
            let occurrence = small(before)?;
            named.push(Named {
                at,
                parameter,
                occurrence,
            })?;
        }
    }
    Ok(named)
}

/// The tokens of a replacement list that name parameters. Goes once through the list, and looks each name up.
pub(crate) fn named_in(alloc: Global, definition: &Definition) -> Result<Vec<Named>, Memory>
    ensures { IfOk result (λ named. named.items ≡ named_in definition.now) }
{
    let parameters = Parameters::new(alloc, definition)?;
    named_among(alloc, &parameters, definition.body.items())
}
