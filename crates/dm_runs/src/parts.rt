//! The tokens of phase 7 that preprocessing tokens are parts of.

ghost use Rattle.std.specs.Prelude.{◌≡◌, ◌<◌, ◌+◌, ◌^◌, ◌&&◌, cond, [], ◌∷◌, map, length, IfOk, OnOk};
ghost use Rattle.std.specs.List.{range_with_len};
ghost use Rattle.dm_token.specs.declared.token.Token.{Token as Seen};
ghost use Rattle.dm_runs.specs.Beginnings.{met};
ghost use Rattle.dm_runs.specs.Runs.{first_part};
ghost use Rattle.dm_runs.specs.Spans as spans;
ghost use Rattle.dm_runs.specs.Spans.{is_literal as stands_for_literal};
ghost use Rattle.dm_runs.specs.Trees.{AreLinked};

use crate::beginnings::{Beginnings, Path};
use dm_token::{Memory, PpKind, Token};
use std::alloc::Global;

fn is_literal(kind: PpKind) -> bool
    ensures { result ≡ stands_for_literal kind }
{
    matches!(kind, PpKind::Literal)
}

// How many begin with one more token.
fn with_one_more(begun: u32, is_behind_literal: bool, is_literal: bool) -> u32
    requires { begun + 1 < 2 ^ 32 }
    ensures { result ≡ begun + cond (is_behind_literal && is_literal) 0 1 }
{
    if is_behind_literal && is_literal {
        begun
    } else {
        begun + 1
    }
}

/// For each beginning of the trails of some tokens the token of phase 7 that its first token is part of.
pub(crate) fn first_parts(
    alloc: Global,
    beginnings: &mut Beginnings,
    tokens: &[Token],
) -> Result<Vec<u32>, Memory>
    requires linked { AreLinked beginnings.old.links.keys beginnings.old.trails.items }
    requires start { beginnings.old.trails.items ≡ [] ∷ [] }
    requires counted { length tokens.now < 2 ^ 32 }
    ensures linked { OnOk result (AreLinked beginnings.new.links.keys beginnings.new.trails.items) }
    ensures trails { OnOk result (beginnings.new.trails.items ≡ met (map (λ (token : Seen). token.trail) tokens.now)) }
    ensures parts { IfOk result (λ parts. parts.items ≡ map (first_part tokens.now) beginnings.new.trails.items) }
{
    let mut parts = Vec::new(alloc);
    parts.push(0)?;
    let mut begun = 0;
    let mut is_behind_literal = false;
    let mut path = Path::new(alloc);
    for token in tokens {
        let is_literal = is_literal(token.pp.kind);
        begun = with_one_more(begun, is_behind_literal, is_literal);
        is_behind_literal = is_literal;
        path = beginnings.walk(path, &token.trail)?;
        parts.resize(beginnings.trails.len(), begun - 1)?;
    }
    Ok(parts)
}

/// How many tokens of phase 7 begin among the first tokens of a unit, by their number from none to all. More than
/// 4,294,967,294 tokens count as want of memory.
pub fn begun_before(alloc: Global, tokens: &[Token]) -> Result<Vec<u32>, Memory>
    ensures { IfOk result (λ counts. counts.items ≡ map (spans.begun_before tokens.now) (range_with_len 0 (length tokens.now + 1))) }
{
    if tokens.len() >= u32::MAX as usize {
        return Err(Memory);
    }
    let mut counts = Vec::new(alloc);
    counts.push(0)?;
    let mut begun = 0;
    let mut is_behind_literal = false;
    for token in tokens {
        let is_literal = is_literal(token.pp.kind);
        begun = with_one_more(begun, is_behind_literal, is_literal);
        is_behind_literal = is_literal;
        counts.push(begun)?;
    }
    Ok(counts)
}
