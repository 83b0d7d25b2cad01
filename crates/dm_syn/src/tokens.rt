//! The yield of trees.

ghost use Rattle.std.specs.Prelude.{◌≡◌, IfOk};
ghost use Rattle.dm_syn.specs.Yields.{yield_of as yield_meant, IsInside};

use crate::statement::External;
use dm_token::{CToken, List, Memory};
use std::alloc::Global;

/// The tokens of an external declaration, from left to right, where its span lies inside the tokens.
pub fn yield_of(alloc: Global, tree: &External, tokens: &[CToken]) -> Result<List<CToken>, Memory>
    requires { IsInside tree.now tokens.now }
    ensures { IfOk result (λ list. list ≡ yield_meant tree.now tokens.now) }
{
    let mut list = List::new(alloc);
    let tokens = &tokens[tree.span.first as usize..tree.span.after as usize];
    for token in tokens {
        list.push(copy(token)?)?;
    }
    Ok(list)
}

// The same token, whose spelling and marks are shared.
fn copy(token: &CToken) -> Result<CToken, Memory>
    ensures { IfOk result (λ made. made ≡ token.now) }
{
    Ok(CToken {
        class: token.class,
        spelling: token.spelling.copy()?,
        value: token.value,
        kind: token.kind,
        place: token.place,
        trail: token.trail.copy()?,
    })
}
