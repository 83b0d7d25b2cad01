//! The types of what expansions leave.

ghost use Rattle.std.specs.Prelude.{◌≡◌, option_map, IfOk};
ghost use Rattle.dm_meanings.specs.First.{place_at, readings_of, seen};
ghost use Rattle.dm_meanings.specs.Types as types;
ghost use Rattle.dm_meanings.specs.Types.{Met as SeenMet};
ghost use Rattle.dm_meanings.specs.Wanted.{IsWanted};
ghost use Rattle.dm_rules.specs.Uses.{in_first_unit};

use crate::meanings::Meanings;
use crate::wanted::{Wanted, is_same_text};
use dm_rules::Instances;
use dm_runs::{Occurrence, Run};
use dm_token::{Definition, Memory, Place};
use std::alloc::Global;

/// A run, and its unit.
#[derive(Clone, Copy)]
pub struct Met<'u, 'i, 'r> {
    pub unit: &'u Meanings<'i, 'r>,
    pub run: &'i Run,
}

/// The first run of the first expansion in a unit.
fn first_met<'u, 'i, 'r>(
    definition: &Definition,
    unit: &'u Meanings<'i, 'r>,
) -> Option<Met<'u, 'i, 'r>>
    ensures { option_map seen result ≡ types.first_met definition.now unit.now.index.now.reading.now }
{
    match unit.index.first_run(definition) {
        None => None,
        Some(run) => Some(Met { unit, run }),
    }
}

/// The first run of the first expansion, in the first unit that has one, of those whose types are looked up.
pub fn first_run<'u, 'i, 'r>(
    definition: &Definition,
    units: &'u [Option<Meanings<'i, 'r>>],
) -> Option<Met<'u, 'i, 'r>>
    ensures { option_map seen result ≡ types.first_run definition.now (readings_of units.now) }
{
    for one in units {
        let Some(unit) = one else {
            continue;
        };
        if unit.index.is_used(definition) {
            return first_met(definition, unit);
        }
    }
    None
}

/// Whether what is passed at an occurrence is a value of the type that it has in the first run.
fn has_type(
    alloc: Global,
    definition: &Definition,
    wanted: &Wanted,
    unit: &Meanings,
    one: &Occurrence,
) -> Result<bool, Memory>
    ensures { IfOk result (λ has. (first : SeenMet) → IsWanted definition.now first wanted.now
        → has ≡ types.has_type definition.now first unit.now.index.now.reading.now one.now) }
{
    let text = unit.text_at(alloc, definition, one.span)?;
    Ok(wanted.is_parameter(&text, one.parameter) && !unit.is_void(one.span))
}

/// Whether a run has the type of the first one.
fn has_result(
    alloc: Global,
    definition: &Definition,
    wanted: &Wanted,
    unit: &Meanings,
    run: &Run,
) -> Result<bool, Memory>
    ensures { IfOk result (λ has. (first : SeenMet) → IsWanted definition.now first wanted.now
        → has ≡ types.has_result definition.now first unit.now.index.now.reading.now run.now) }
{
    let text = unit.text_at(alloc, definition, run.span)?;
    Ok(is_same_text(&text, &wanted.result))
}

/// Whether a run has the type of the first one, and what is passed in it the types that it has there.
fn has_types(
    alloc: Global,
    definition: &Definition,
    wanted: &Wanted,
    unit: &Meanings,
    run: &Run,
) -> Result<bool, Memory>
    ensures { IfOk result (λ has. (first : SeenMet) → IsWanted definition.now first wanted.now
        → has ≡ types.has_types definition.now first unit.now.index.now.reading.now run.now) }
{
    if !has_result(alloc, definition, wanted, unit, run)? {
        return Ok(false);
    }
    let occurrences = run.occurrences.items();
    for one in occurrences {
        if !has_type(alloc, definition, wanted, unit, one)? {
            return Ok(false);
        }
    }
    Ok(true)
}

/// The first expansion in a unit that has other types, or one that can't be spelled.
fn type_in(
    alloc: Global,
    definition: &Definition,
    wanted: &Wanted,
    unit: &Meanings,
) -> Result<Option<Place>, Memory>
    ensures { IfOk result (λ place. (first : SeenMet) → IsWanted definition.now first wanted.now
        → place ≡ types.type_in definition.now first unit.now.index.now.reading.now) }
{
    let mut instances = Instances::new(alloc);
    let runs = unit.index.runs_of(definition);
    for run in runs {
        let keeps = has_types(alloc, definition, wanted, unit, run)?;
        instances.add_if(run, !keeps)?;
    }
    Ok(unit.index.first_with(definition, &instances))
}

/// The same, where its types are looked up.
fn type_at(
    alloc: Global,
    definition: &Definition,
    wanted: &Wanted,
    unit: &Option<Meanings>,
) -> Result<Option<Place>, Memory>
    ensures { IfOk result (λ place. (first : SeenMet) → IsWanted definition.now first wanted.now
        → place ≡ place_at (types.type_in definition.now first) unit.now) }
{
    match unit {
        None => Ok(None),
        Some(unit) => type_in(alloc, definition, wanted, unit),
    }
}

/// The first expansion in the first unit that has such a one.
fn type_in_units(
    alloc: Global,
    definition: &Definition,
    wanted: &Wanted,
    units: &[Option<Meanings>],
) -> Result<Option<Place>, Memory>
    ensures { IfOk result (λ place. (first : SeenMet) → IsWanted definition.now first wanted.now
        → place ≡ in_first_unit (types.type_in definition.now first) (readings_of units.now)) }
{
    for unit in units {
        if let Some(place) = type_at(alloc, definition, wanted, unit)? {
            return Ok(Some(place));
        }
    }
    Ok(None)
}

/// Rule 12, Type: each expansion has the type of the first one, and what is passed in it the types of what is passed there, which are
/// not void; and all of these can be spelled where the definition stands. Asked of those units whose types are looked up.
pub fn broken_type(
    alloc: Global,
    definition: &Definition,
    units: &[Option<Meanings>],
) -> Result<Option<Place>, Memory>
    ensures { IfOk result (λ place. place ≡ types.broken_type definition.now (readings_of units.now)) }
{
    match first_run(definition, units) {
        None => Ok(None),
        Some(first) => {
            let wanted = Wanted::of(alloc, definition, &first)?;
            let place = type_in_units(alloc, definition, &wanted, units)?;
            Ok(place)
        }
    }
}
