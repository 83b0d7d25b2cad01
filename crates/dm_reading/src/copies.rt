//! Units and definitions once more.

ghost use Rattle.std.specs.Prelude.{◌≡◌, IfOk};

use dm_token::{Definition, List, Memory, PpToken, Text, Unit};
use std::alloc::Global;

/// The same unit, with texts of its own.
pub fn copy_of_unit(alloc: Global, unit: &Unit) -> Result<Unit, Memory>
    ensures { IfOk result (λ copy. copy ≡ unit.now) }
{
    Ok(Unit {
        file: copy_of_text(alloc, &unit.file)?,
        include: copy_of_texts(alloc, unit.include.items())?,
        define: copy_of_texts(alloc, unit.define.items())?,
    })
}

/// The same definition, with texts of its own, so that it keeps no bytes of the file in which it stands.
pub fn copy_of_definition(alloc: Global, definition: &Definition) -> Result<Definition, Memory>
    ensures { IfOk result (λ copy. copy ≡ definition.now) }
{
    let name = copy_of_text(alloc, &definition.name)?;
    let parameters = copy_of_parameters(alloc, &definition.parameters)?;
    let body = copy_of_tokens(alloc, definition.body.items())?;
    Ok(Definition {
        name,
        parameters,
        variadic: definition.variadic,
        body,
        origin: definition.origin,
        place: definition.place,
        hash: definition.hash,
        head_end: definition.head_end,
        head_plain: definition.head_plain,
    })
}

fn copy_of_parameters(
    alloc: Global,
    parameters: &Option<List<Text>>,
) -> Result<Option<List<Text>>, Memory>
    ensures { IfOk result (λ copy. copy ≡ parameters.now) }
{
    match parameters {
        None => Ok(None),
        Some(names) => Ok(Some(copy_of_texts(alloc, names.items())?)),
    }
}

fn copy_of_text(alloc: Global, text: &Text) -> Result<Text, Memory>
    ensures { IfOk result (λ copy. copy ≡ text.now) }
{
    Text::from_bytes(alloc, text.bytes())
}

fn copy_of_texts(alloc: Global, texts: &[Text]) -> Result<List<Text>, Memory>
    ensures { IfOk result (λ copy. copy ≡ texts.now) }
{
    let mut copies = List::new(alloc);
    for text in texts {
        copies.push(copy_of_text(alloc, text)?)?;
    }
    Ok(copies)
}

fn copy_of_token(alloc: Global, token: &PpToken) -> Result<PpToken, Memory>
    ensures { IfOk result (λ copy. copy ≡ token.now) }
{
    Ok(PpToken {
        kind: token.kind,
        spelling: copy_of_text(alloc, &token.spelling)?,
        place: token.place,
        end: token.end,
        blank_before: token.blank_before,
        line_first: token.line_first,
    })
}

fn copy_of_tokens(alloc: Global, tokens: &[PpToken]) -> Result<List<PpToken>, Memory>
    ensures { IfOk result (λ copy. copy ≡ tokens.now) }
{
    let mut copies = List::new(alloc);
    for token in tokens {
        copies.push(copy_of_token(alloc, token)?)?;
    }
    Ok(copies)
}
