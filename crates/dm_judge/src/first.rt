//! What a definition becomes, by the types of its first expansion.

ghost use Rattle.std.specs.Prelude.{◌≡◌, All, IfOk, IfSome, map, option_map};
ghost use Rattle.dm_type.specs.Tables.{IsId};
ghost use Rattle.dm_meanings.specs.First.{readings_of, seen};
ghost use Rattle.dm_meanings.specs.Wanted.{AreFirst};
ghost use Rattle.dm_judge.specs.Changes.{parameter_over, signature_over};
ghost use Rattle.dm_judge.specs.Proposals as proposals;

use crate::change::change_with;
use crate::signature::{Parameter, Signature};
use dm_edit::Change;
use dm_meanings::{Meanings, Met, first_occurrences, first_run, span_of};
use dm_rules::names_of;
use dm_token::{Definition, List, Memory, Span, Text};
use std::alloc::Global;

/// A parameter with the type of what is passed at its first occurrence, if it occurs.
fn parameter_in(
    first: &Met,
    spans: &[Option<Span>],
    number: usize,
    name: &Text,
) -> Result<Option<Parameter>, Memory>
    requires { AreFirst first.now.run.now spans.now }
    ensures same { IfOk result (λ parameter. option_map (parameter_over first.now.unit.now.index.now.reading.now.types) parameter ≡ proposals.parameter_in (seen first.now) number name.now) }
    ensures known { IfOk result (λ parameter. IfSome parameter (λ (one : Parameter). IsId first.now.unit.now.index.now.reading.now.types one.kind)) }
{
    let Some(span) = span_of(spans, number) else {
        return Ok(None);
    };
    match first.unit.kind_at(span) {
        None => Ok(None),
        Some(kind) => Ok(Some(Parameter {
            kind,
            name: name.copy()?,
        })),
    }
}

/// The parameters that occur. Goes once through the occurrences of the run.
fn parameters_in(alloc: Global, first: &Met, names: &[Text]) -> Result<List<Parameter>, Memory>
    ensures same { IfOk result (λ parameters. map (parameter_over first.now.unit.now.index.now.reading.now.types) parameters ≡ proposals.parameters_from (seen first.now) 0 names.now) }
    ensures known { IfOk result (λ parameters. All (λ (one : Parameter). IsId first.now.unit.now.index.now.reading.now.types one.kind) parameters) }
{
    let mut parameters = List::new(alloc);
    let spans = first_occurrences(alloc, first.run)?;
    for number in 0..names.len() {
        if let Some(parameter) = parameter_in(first, spans.as_slice(), number, &names[number])? {
            parameters.push(parameter)?;
        }
    }
    Ok(parameters)
}

/// The types of a run.
fn signature_at(
    alloc: Global,
    definition: &Definition,
    first: &Met,
) -> Result<Option<Signature>, Memory>
    ensures same { IfOk result (λ signature. option_map (signature_over first.now.unit.now.index.now.reading.now.types) signature ≡ proposals.signature_at definition.now (seen first.now)) }
    ensures result { IfOk result (λ signature. IfSome signature (λ (one : Signature). IsId first.now.unit.now.index.now.reading.now.types one.result)) }
    ensures parameters { IfOk result (λ signature. IfSome signature (λ (one : Signature). All (λ (each : Parameter). IsId first.now.unit.now.index.now.reading.now.types each.kind) one.parameters)) }
{
    match first.unit.kind_at(first.run.span) {
        None => Ok(None),
        Some(result) => Ok(Some(Signature {
            result,
            parameters: parameters_in(alloc, first, names_of(definition))?,
        })),
    }
}

fn change_at(alloc: Global, definition: &Definition, first: &Met) -> Result<Option<Change>, Memory>
    ensures { IfOk result (λ change. change ≡ proposals.change_at definition.now (seen first.now)) }
{
    let Some(signature) = signature_at(alloc, definition, first)? else {
        return Ok(None);
    };
    let types = &first.unit.index.reading.types;
    let visible = first.unit.visible(definition);
    change_with(alloc, definition, types, visible, &signature)
}

/// What a definition becomes, by those units whose types are looked up. None where it isn't expanded there, or a type can't be spelled.
pub(crate) fn change_of(
    alloc: Global,
    definition: &Definition,
    units: &[Option<Meanings>],
) -> Result<Option<Change>, Memory>
    ensures { IfOk result (λ change. change ≡ proposals.change_of definition.now (readings_of units.now)) }
{
    match first_run(definition, units) {
        None => Ok(None),
        Some(first) => change_at(alloc, definition, &first),
    }
}
