//! The answer for a unit.

ghost use Rattle.std.specs.Prelude.{◌≡◌, IfOk, IfErr};
ghost use Rattle.dm_unit.specs.States.{Catalogue};
ghost use Rattle.dm_unit.specs.Units.{finished, reads_of};
ghost use Rattle.dm_unit.specs.Views.{state_of};

use crate::reader::Reader;
use dm_token::{Definition, List, Memory, PpToken, Read, Stop, Text, UnitTokens};
use std::alloc::Global;

/// What was read of a unit, as it is given.
pub(crate) fn finish(alloc: Global, reader: Reader) -> Result<UnitTokens, Stop>
    ensures memory { IfErr result (λ stop. stop ≡ Stop.Memory) }
    ensures tokens { (files : Catalogue) → IfOk result (λ tokens. tokens ≡ finished (state_of reader files)) }
{
    let read = reads(alloc, reader.table.definitions(), &reader.before)?;
    let files = List::from_vec(Vec::from_slice(alloc, reader.files_read.as_slice())?);
    let Reader {
        tokens,
        expansions,
        uses,
        undefined,
        read_before,
        ..
    } = reader;
    Ok(UnitTokens {
        tokens: List::from_vec(tokens),
        expansions: List::from_vec(expansions),
        read,
        directive_uses: List::from_vec(uses),
        undefined: List::from_vec(undefined),
        read_before_undefined: List::from_vec(read_before),
        files,
    })
}

/// The definitions, each with the number of tokens before it.
fn reads(alloc: Global, definitions: &[Definition], before: &[u32]) -> Result<List<Read>, Memory>
    ensures { IfOk result (λ reads. reads ≡ reads_of definitions.now before.now) }
{
    let mut reads = List::new(alloc);
    let mut definitions = definitions;
    let mut before = before;
    while let (Some((definition, later)), Some((count, others))) = (
        definitions.split_first(),
        before.split_first(),
    ) {
        let definition = copy(alloc, definition)?;
        reads.push(Read {
            definition,
            before: *count,
        })?;
        definitions = later;
        before = others;
    }
    Ok(reads)
}

/// The same definition, whose spellings are shared.
fn copy(alloc: Global, definition: &Definition) -> Result<Definition, Memory>
    ensures { IfOk result (λ copied. copied ≡ definition.now) }
{
    let parameters = match &definition.parameters {
        None => None,
        Some(names) => Some(copy_names(alloc, names.items())?),
    };
    Ok(Definition {
        name: definition.name.copy()?,
        parameters,
        variadic: definition.variadic,
        body: copy_tokens(alloc, definition.body.items())?,
        origin: definition.origin,
        place: definition.place,
        hash: definition.hash,
        head_end: definition.head_end,
        head_plain: definition.head_plain,
    })
}

fn copy_names(alloc: Global, names: &[Text]) -> Result<List<Text>, Memory>
    ensures { IfOk result (λ copies. copies ≡ names.now) }
{
    let mut copies = List::new(alloc);
    for name in names {
        copies.push(name.copy()?)?;
    }
    Ok(copies)
}

fn copy_tokens(alloc: Global, tokens: &[PpToken]) -> Result<List<PpToken>, Memory>
    ensures { IfOk result (λ copies. copies ≡ tokens.now) }
{
    let mut copies = List::new(alloc);
    for token in tokens {
        copies.push(token.copy()?)?;
    }
    Ok(copies)
}
