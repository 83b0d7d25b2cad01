//! The external declarations of a translation unit (6.9).

ghost use Rattle.std.specs.Prelude.{◌≤◌, length, map, IfOk, IfErr};
ghost use Rattle.dm_syn.specs.Views as view;
ghost use Rattle.dm_reading.specs.Syntax.{IsSyntax, Refuses};

use dm_pexpr::Names;
use dm_pstmt::next_external;
use dm_syn::External;
use dm_token::{CToken, List, Stop};
use std::alloc::Global;

/// The external declarations that a unit's tokens are.
///
/// # Errors
///
/// Refusal 16 at the first token at which no external declaration begins.
pub fn unit_syntax(alloc: Global, tokens: &[CToken]) -> Result<List<External>, Stop>
    requires few { length tokens.now ≤ 4294967295 }
    ensures syntax { IfOk result (λ externals. IsSyntax tokens.now (map view.external externals)) }
    ensures stop { IfErr result (Refuses tokens.now) }
{
    let mut names = Names::new(alloc);
    let mut externals = List::new(alloc);
    let mut at = 0;
    while (at as usize) < tokens.len() {
        let (external, after) = next_external(alloc, tokens, at, &mut names)?;
        externals.push(external)?;
        at = after;
    }
    Ok(externals)
}
