//! Whether the parameters of a macro may be those of a function.

ghost use Rattle.std.specs.Prelude.{◌≡◌, bytes_eq, List as Sequence, IfOk};
ghost use Rattle.std.specs.List.{list_any};
ghost use Rattle.dm_token.specs.declared.expansion.Definition.{Definition as SeenDefinition};
ghost use Rattle.dm_spell.specs.Tables.{keyword_rows};
ghost use Rattle.dm_macro.specs.Bodies.{named_parameters};
ghost use Rattle.dm_reading.specs.declared.reading.Reading.{Reading as SeenReading};
ghost use Rattle.dm_rules.specs.Rules as rules;
ghost use Rattle.dm_rules.specs.Words.{AreMacros, AreSpelled};

use crate::words::Words;
use dm_spell::keywords;
use dm_token::{Definition, Memory, Place, Text};
use std::alloc::Global;

fn is_keyword(name: &[u8]) -> bool
    ensures { result ≡ list_any (bytes_eq name.now) keyword_rows }
{
    keywords().find(name).is_some()
}

/// Whether a parameter may be one of a function, where these are the macros of the units and the words of the replacement list.
fn is_parameter(macros: &Words, body: &Words, name: &Text) -> bool
    ensures { (definition : SeenDefinition) (readings : Sequence SeenReading) → AreMacros macros.now readings → AreSpelled body.now definition.body
        → result ≡ rules.is_parameter definition readings name.now }
{
    !is_keyword(name.bytes()) && !macros.has(name) && body.has(name)
}

/// The names of the parameters, `__VA_ARGS__` not among them.
pub fn names_of(definition: &Definition) -> &[Text]
    ensures { result.now ≡ named_parameters definition.now.parameters }
{
    match &definition.parameters {
        None => &[],
        Some(names) => names.items(),
    }
}

/// Rule 8, Parameter: each parameter occurs in the replacement list, and its name is neither a keyword nor that of a macro that some
/// unit defines, of which these are the macros. Goes once through the replacement list, and looks each parameter up.
pub fn broken_parameter(
    alloc: Global,
    definition: &Definition,
    macros: &Words,
) -> Result<Option<Place>, Memory>
    ensures { IfOk result (λ place. (readings : Sequence SeenReading) → AreMacros macros.now readings → place ≡ rules.broken_parameter definition.now readings) }
{
    let body = Words::in_body(alloc, definition.body.items())?;
    let names = names_of(definition);
    for name in names {
        if !is_parameter(macros, &body, name) {
            return Ok(Some(definition.place));
        }
    }
    Ok(None)
}
