//! What the names of replacement lists mean.

ghost use Rattle.std.specs.Prelude.{◌≡◌, ◌<◌, ◌≤◌, ◌&&◌, not, slice_get, IfOk};
ghost use Rattle.std.specs.Option.{option_copied};
ghost use Rattle.dm_token.specs.declared.expansion.Definition.{Definition as SeenDefinition};
ghost use Rattle.dm_meanings.specs.Captures as captures;
ghost use Rattle.dm_meanings.specs.First.{place_at, readings_of};
ghost use Rattle.dm_meanings.specs.Own.{AreOwn};
ghost use Rattle.dm_meanings.specs.Subjects.{IsSubject};

use crate::meanings::Meanings;
use crate::own::{is_own, own_tokens};
use dm_names::Identifier;
use dm_rules::{Instances, Words, names_of};
use dm_runs::Run;
use dm_token::{CToken, Definition, Memory, Place};
use std::alloc::Global;

/// A definition, with what is looked up of it in a unit.
#[derive(Drop)]
struct Subject {
    /// The names of its parameters.
    parameters: Words,
    /// How many external declarations end before it.
    behind: u32,
}

/// The token at a position.
fn token_at(tokens: &[CToken], at: u32) -> Option<&CToken>
    ensures { option_copied result ≡ slice_get tokens.now at }
{
    tokens.get(at as usize)
}

/// Whether an identifier is a parameter's name.
fn means_parameter(subject: &Subject, unit: &Meanings, one: Identifier) -> bool
    ensures { (definition : SeenDefinition) → let reading = unit.now.index.now.reading.now in
        IsSubject definition reading subject.now → result ≡ captures.means_parameter definition reading one }
{
    if one.tag {
        return false;
    }
    match token_at(unit.index.reading.tokens.items(), one.at) {
        None => false,
        Some(token) => subject.parameters.has(&token.spelling),
    }
}

/// Whether a token is no name, or means the same where the definition stands.
fn is_kept(subject: &Subject, unit: &Meanings, at: u32) -> bool
    ensures { (definition : SeenDefinition) → let reading = unit.now.index.now.reading.now in
        IsSubject definition reading subject.now → result ≡ captures.is_kept definition reading at }
{
    match unit.meaning(at) {
        None => true,
        Some(one) => {
            !means_parameter(subject, unit, one) && unit.is_visible(subject.behind, one.number)
        }
    }
}

/// Whether a token of a run is one of the macro's own, and means something else where the definition stands.
fn is_captured(subject: &Subject, unit: &Meanings, own: &[bool], run: &Run, at: u32) -> bool
    requires own { AreOwn run.now own.now }
    requires inside { (run.now.span.first ≤ at) × (at < run.now.span.after) }
    ensures { (definition : SeenDefinition) → let reading = unit.now.index.now.reading.now in
        IsSubject definition reading subject.now → result ≡ (captures.is_own run.now at && not (captures.is_kept definition reading at)) }
{
    is_own(own, run, at) && !is_kept(subject, unit, at)
}

/// Whether all names among the macro's own tokens mean the same where the definition stands.
fn keeps_meanings(
    alloc: Global,
    subject: &Subject,
    unit: &Meanings,
    run: &Run,
) -> Result<bool, Memory>
    ensures { IfOk result (λ keeps. (definition : SeenDefinition) → let reading = unit.now.index.now.reading.now in
        IsSubject definition reading subject.now → keeps ≡ captures.keeps_meanings definition reading run.now) }
{
    let own = own_tokens(alloc, run)?;
    for at in run.span.first..run.span.after {
        if is_captured(subject, unit, own.as_slice(), run, at) {
            return Ok(false);
        }
    }
    Ok(true)
}

/// What is looked up of a definition in a unit.
fn subject_in(alloc: Global, definition: &Definition, unit: &Meanings) -> Result<Subject, Memory>
    ensures { IfOk result (IsSubject definition.now unit.now.index.now.reading.now) }
{
    let parameters = Words::of(alloc, names_of(definition))?;
    Ok(Subject {
        parameters,
        behind: unit.index.externals_behind(definition),
    })
}

/// The first expansion in a unit in which a name means something else.
fn capture_in(
    alloc: Global,
    definition: &Definition,
    unit: &Meanings,
) -> Result<Option<Place>, Memory>
    ensures { IfOk result (λ place. place ≡ captures.capture_in definition.now unit.now.index.now.reading.now) }
{
    let subject = subject_in(alloc, definition, unit)?;
    let mut instances = Instances::new(alloc);
    let runs = unit.index.runs_of(definition);
    for run in runs {
        let keeps = keeps_meanings(alloc, &subject, unit, run)?;
        instances.add_if(run, !keeps)?;
    }
    Ok(unit.index.first_with(definition, &instances))
}

/// The same, where its names are looked up.
fn capture_at(
    alloc: Global,
    definition: &Definition,
    unit: &Option<Meanings>,
) -> Result<Option<Place>, Memory>
    ensures { IfOk result (λ place. place ≡ place_at (captures.capture_in definition.now) unit.now) }
{
    match unit {
        None => Ok(None),
        Some(unit) => capture_in(alloc, definition, unit),
    }
}

/// Rule 13, Capture: each name that the macro itself adds means what it means where the definition stands. Asked of those units whose names
/// are looked up.
pub fn broken_capture(
    alloc: Global,
    definition: &Definition,
    units: &[Option<Meanings>],
) -> Result<Option<Place>, Memory>
    ensures { IfOk result (λ place. place ≡ captures.broken_capture definition.now (readings_of units.now)) }
{
    for unit in units {
        if let Some(place) = capture_at(alloc, definition, unit)? {
            return Ok(Some(place));
        }
    }
    Ok(None)
}
