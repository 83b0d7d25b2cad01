ghost use Rattle.std.specs.Prelude.{◌≡◌, map, IfOk};
ghost use Rattle.serde_json.specs.View.{view};
ghost use Rattle.dm_report.specs.JsonReport.{entry_data, kept_data, place_data, plan_data, rewritten_data, whole_data};

use crate::counts::{kept_count, rewritten_count};
use crate::titles::title;
use crate::words::{file_name, kind_word};
use dm_edit::{Entry, Fate, Plan};
use dm_token::{Definition, Memory, Place, Text};
use serde_json::{Value, json};
use std::alloc::{AllocError, Global};

/// The report of a plan as a JSON value.
#[tactic(auto, unfolding(crate::specs::JsonReport::plan_data))]
pub fn plan_value(alloc: Global, plan: &Plan) -> Result<Value, Memory>
    ensures { IfOk result (λ value. view value ≡ plan_data plan.now) }
{
    let entries = plan.entries.items();
    let mut definitions = Vec::new(alloc);
    for entry in entries {
        definitions.push(entry_value(alloc, plan.names.items(), entry)?)?;
    }
    let (kept, rewritten) = (kept_count(entries), rewritten_count(entries));
    Ok(whole_value(alloc, definitions, kept, rewritten)?)
}

fn whole_value(
    alloc: Global,
    definitions: Vec<Value>,
    kept: usize,
    rewritten: usize,
) -> Result<Value, AllocError>
    ensures { IfOk result (λ value. view value ≡ whole_data (map view definitions.items) kept rewritten) }
{
    json!(in alloc; {"definitions": definitions, "kept": kept, "rewritten": rewritten})
}

/// A definition and what becomes of it.
#[tactic(auto, unfolding(crate::specs::JsonReport::entry_data))]
fn entry_value(alloc: Global, names: &[Text], entry: &Entry) -> Result<Value, AllocError>
    ensures { IfOk result (λ value. view value ≡ entry_data names.now entry.now) }
{
    let definition = &entry.definition;
    let file = file_name(names, definition.place.file);
    match entry.outcome {
        Fate::Rewritten(kind) => rewritten_value(alloc, file, definition, kind_word(kind)),
        Fate::Kept { rule, place } => {
            let place = place_value(alloc, file_name(names, place.file), place)?;
            kept_value(alloc, file, definition, place, rule)
        }
    }
}

fn rewritten_value(
    alloc: Global,
    file: &[u8],
    definition: &Definition,
    kind: &str,
) -> Result<Value, AllocError>
    ensures { IfOk result (λ value. view value ≡ rewritten_data file.now definition.now kind.now) }
{
    let line = definition.place.line;
    let file = String::from_utf8_lossy(alloc, file)?;
    let name = String::from_utf8_lossy(alloc, definition.name.bytes())?;
    json!(in alloc; {"as": kind, "file": file, "line": line, "name": name, "outcome": "rewritten"})
}

fn kept_value(
    alloc: Global,
    file: &[u8],
    definition: &Definition,
    place: Value,
    rule: u8,
) -> Result<Value, AllocError>
    ensures { IfOk result (λ value. view value ≡ kept_data file.now definition.now (view place) rule) }
{
    let line = definition.place.line;
    let file = String::from_utf8_lossy(alloc, file)?;
    let name = String::from_utf8_lossy(alloc, definition.name.bytes())?;
    let title = title(rule);
    json!(in alloc; {
        "file": file,
        "line": line,
        "name": name,
        "outcome": "kept",
        "place": place,
        "rule": rule,
        "title": title
    })
}

fn place_value(alloc: Global, file: &[u8], place: Place) -> Result<Value, AllocError>
    ensures { IfOk result (λ value. view value ≡ place_data file.now place) }
{
    let file = String::from_utf8_lossy(alloc, file)?;
    json!(in alloc; {"column": place.column, "file": file, "line": place.line})
}
