//! All rules, from the least on.

ghost use Rattle.std.specs.Prelude.{◌≡◌, IfNone, IfOk, OnOk};
ghost use Rattle.dm_rules.specs.Rules.{broken_parameter as unfit_in};
ghost use Rattle.dm_meanings.specs.Captures.{broken_capture as captured_in};
ghost use Rattle.dm_meanings.specs.Types.{broken_type as typed_otherwise_in};
ghost use Rattle.dm_judge.specs.Rules as rules;
ghost use Rattle.dm_judge.specs.Units.{AreReady, AreWhole, readings_of};

use crate::rule::RunRule;
use crate::runs::broken_on_runs;
use crate::units::Units;
use dm_meanings::{broken_capture, broken_type};
use dm_rules::{
    broken_again, broken_body, broken_directive, broken_gone, broken_name, broken_parameter,
    broken_place, broken_unused,
};
use dm_token::{Definition, Memory, Place};
use std::alloc::Global;

/// The definition's place, where a parameter can't be one of a function.
fn unfit_parameter(
    alloc: Global,
    definition: &Definition,
    units: &Units,
) -> Result<Option<Place>, Memory>
    requires { AreWhole units.now }
    ensures { IfOk result (λ place. place ≡ unfit_in definition.now (readings_of units.now)) }
{
    let place = broken_parameter(alloc, definition, &units.macros)?;
    Ok(place)
}

/// Where the types of expansions differ first.
fn other_type(
    alloc: Global,
    definition: &Definition,
    units: &Units,
) -> Result<Option<Place>, Memory>
    requires { AreReady definition.now units.now }
    ensures { IfOk result (λ place. place ≡ typed_otherwise_in definition.now (readings_of units.now)) }
{
    let place = broken_type(alloc, definition, units.meanings.as_slice())?;
    Ok(place)
}

/// Where a name of the replacement list means something else first.
fn captured(alloc: Global, definition: &Definition, units: &Units) -> Result<Option<Place>, Memory>
    requires { AreReady definition.now units.now }
    ensures { IfOk result (λ place. place ≡ captured_in definition.now (readings_of units.now)) }
{
    let place = broken_capture(alloc, definition, units.meanings.as_slice())?;
    Ok(place)
}

/// The least of the rules from 9 on that is broken, and where it is broken first.
fn broken_from_9(
    alloc: Global,
    definition: &Definition,
    units: &Units,
) -> Result<Option<(u8, Place)>, Memory>
    requires whole { AreWhole units.now }
    requires ready { AreReady definition.now units.now }
    ensures { IfOk result (λ broken. broken ≡ rules.broken_first (rules.rules_from_9 definition.now (readings_of units.now))) }
{
    if let Some(place) = broken_on_runs(alloc, RunRule::Subtree, definition, units)? {
        return Ok(Some((9, place)));
    }
    if let Some(place) = broken_on_runs(alloc, RunRule::Constant, definition, units)? {
        return Ok(Some((10, place)));
    }
    if let Some(place) = broken_on_runs(alloc, RunRule::Lvalue, definition, units)? {
        return Ok(Some((11, place)));
    }
    if let Some(place) = other_type(alloc, definition, units)? {
        return Ok(Some((12, place)));
    }
    if let Some(place) = captured(alloc, definition, units)? {
        return Ok(Some((13, place)));
    }
    match broken_on_runs(alloc, RunRule::Evaluation, definition, units)? {
        Some(place) => Ok(Some((14, place))),
        None => Ok(None),
    }
}

/// The least of the rules from 5 to 14 that is broken, and where it is broken first. For the rules from 9 on each unit that expands the
/// definition is gone through, if it wasn't before.
pub fn broken_from_5(
    alloc: Global,
    definition: &Definition,
    units: &mut Units,
) -> Result<Option<(u8, Place)>, Memory>
    requires { AreWhole units.old }
    ensures broken { IfOk result (λ broken. broken ≡ rules.broken_first (rules.rules_from_5 definition.now (readings_of units.old))) }
    ensures whole { OnOk result (AreWhole units.new) }
    ensures indexes { OnOk result (units.new.indexes.now ≡ units.old.indexes.now) }
    ensures ready { IfOk result (λ broken. IfNone broken (AreReady definition.now units.new)) }
{
    let indexes = units.indexes;
    if let Some(place) = broken_gone(alloc, definition, indexes)? {
        return Ok(Some((5, place)));
    }
    if let Some(place) = broken_place(definition, indexes) {
        return Ok(Some((6, place)));
    }
    if let Some(place) = broken_name(definition, indexes) {
        return Ok(Some((7, place)));
    }
    if let Some(place) = unfit_parameter(alloc, definition, units)? {
        return Ok(Some((8, place)));
    }
    units.look_up(alloc, definition)?;
    broken_from_9(alloc, definition, units)
}

/// The least rule that a definition breaks, and where it is broken first.
pub(crate) fn broken_rule(
    alloc: Global,
    definition: &Definition,
    units: &mut Units,
) -> Result<Option<(u8, Place)>, Memory>
    requires { AreWhole units.old }
    ensures broken { IfOk result (λ broken. broken ≡ rules.broken_first (rules.rules_of definition.now (readings_of units.old))) }
    ensures whole { OnOk result (AreWhole units.new) }
    ensures indexes { OnOk result (units.new.indexes.now ≡ units.old.indexes.now) }
    ensures ready { IfOk result (λ broken. IfNone broken (AreReady definition.now units.new)) }
{
    let indexes = units.indexes;
    if let Some(place) = broken_body(definition) {
        return Ok(Some((1, place)));
    }
    if let Some(place) = broken_again(definition, indexes) {
        return Ok(Some((2, place)));
    }
    if let Some(place) = broken_directive(definition, indexes) {
        return Ok(Some((3, place)));
    }
    if let Some(place) = broken_unused(definition, indexes) {
        return Ok(Some((4, place)));
    }
    broken_from_5(alloc, definition, units)
}
