//! What the layers behind the preprocessor give of a unit.

ghost use Rattle.std.specs.Prelude.{map, IfOk, IfErr};
ghost use Rattle.dm_syn.specs.Views as view;
ghost use Rattle.dm_tree.specs.TypeNumbers.{IsTypedUnit};
ghost use Rattle.dm_reading.specs.Layered.{HasLayers};
ghost use Rattle.dm_reading.specs.Syntax.{IsSyntax, Refuses};

use crate::syntax::unit_syntax;
use dm_ctok::ctokens;
use dm_eunit::elaborate;
use dm_reading::Layers;
use dm_syn::External;
use dm_token::{CToken, List, Memory, Stop, Token};
use std::alloc::Global;

/// Each layer of preprocessing tokens, or the first stop. The typed unit is well typed.
pub(crate) fn typed_tokens(alloc: Global, tokens: &[Token]) -> Result<Layers, Stop>
    ensures layers { HasLayers tokens.now result }
    ensures well_typed { IfOk result (λ made. IsTypedUnit made.types made.core) }
{
    let made = ctokens(alloc, tokens)?;
    let syntax = syntax_of(alloc, made.items())?;
    let (core, types) = elaborate(alloc, made.items(), syntax.items())?;
    Ok(Layers {
        tokens: made,
        syntax,
        core,
        types,
    })
}

/// The syntax. More than 4,294,967,295 tokens count as want of memory.
fn syntax_of(alloc: Global, tokens: &[CToken]) -> Result<List<External>, Stop>
    ensures syntax { IfOk result (λ externals. IsSyntax tokens.now (map view.external externals)) }
    ensures stop { IfErr result (Refuses tokens.now) }
{
    if tokens.len() > u32::MAX as usize {
        return Err(Stop::from(Memory));
    }
    unit_syntax(alloc, tokens)
}
