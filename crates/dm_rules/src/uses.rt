//! What units tell of a definition that they read.

ghost use Rattle.std.specs.Prelude.{◌≡◌, IfOk};
ghost use Rattle.dm_rules.specs.Indexes.{readings_of};
ghost use Rattle.dm_rules.specs.Rules as rules;

use crate::index::Index;
use dm_token::{Definition, Memory, Place};
use std::alloc::Global;

/// Rule 2, Again: no unit that reads the definition reads another one of the name or this one once more, or undefines the name.
pub fn broken_again(definition: &Definition, units: &[Index]) -> Option<Place>
    ensures { result ≡ rules.broken_again definition.now (readings_of units.now) }
{
    for unit in units {
        if let Some(place) = unit.again(definition) {
            return Some(place);
        }
    }
    None
}

/// Rule 3, Directive: no condition of a directive asks for the name.
pub fn broken_directive(definition: &Definition, units: &[Index]) -> Option<Place>
    ensures { result ≡ rules.broken_directive definition.now (readings_of units.now) }
{
    for unit in units {
        if let Some(place) = unit.directive_use(&definition.name) {
            return Some(place);
        }
    }
    None
}

/// Rule 4, Unused: some unit expands it.
pub fn broken_unused(definition: &Definition, units: &[Index]) -> Option<Place>
    ensures { result ≡ rules.broken_unused definition.now (readings_of units.now) }
{
    for unit in units {
        if unit.is_used(definition) {
            return None;
        }
    }
    Some(definition.place)
}

/// Rule 5, Gone: each expansion leaves tokens, `#` and `##` take none of them, and its arguments stand with its name.
pub fn broken_gone(
    alloc: Global,
    definition: &Definition,
    units: &[Index],
) -> Result<Option<Place>, Memory>
    ensures { IfOk result (λ place. place ≡ rules.broken_gone definition.now (readings_of units.now)) }
{
    for unit in units {
        if let Some(place) = unit.gone(alloc, definition)? {
            return Ok(Some(place));
        }
    }
    Ok(None)
}

/// Rule 6, Place: each unit that reads it has it between two external declarations.
pub fn broken_place(definition: &Definition, units: &[Index]) -> Option<Place>
    ensures { result ≡ rules.broken_place definition.now (readings_of units.now) }
{
    for unit in units {
        if unit.stands_inside(definition) {
            return Some(definition.place);
        }
    }
    None
}

/// Rule 7, Name: in no unit that reads it the name is left as an identifier.
pub fn broken_name(definition: &Definition, units: &[Index]) -> Option<Place>
    ensures { result ≡ rules.broken_name definition.now (readings_of units.now) }
{
    for unit in units {
        if let Some(place) = unit.name(definition) {
            return Some(place);
        }
    }
    None
}
