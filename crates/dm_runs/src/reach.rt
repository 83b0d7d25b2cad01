//! Where empty occurrences of parameters would stand.

ghost use Rattle.std.specs.Prelude.{◌≡◌, ◌≤◌, ◌+◌, ℕ, length, IfOk, List as Sequence};
ghost use Rattle.dm_token.specs.declared.expansion.Definition.{Definition as SeenDefinition};
ghost use Rattle.dm_token.specs.declared.expansion.Expansion.{Expansion as SeenExpansion};
ghost use Rattle.dm_token.specs.declared.expansion.Mark.{Mark as SeenMark};
ghost use Rattle.dm_token.specs.declared.token.CToken.{CToken as SeenCToken};
ghost use Rattle.dm_runs.specs.Names.{named_in};
ghost use Rattle.dm_runs.specs.Runs as runs;
ghost use Rattle.dm_runs.specs.Extents.{IsSpanUnder};
ghost use Rattle.dm_runs.specs.Reaches.{AreReached};

use crate::origins::Origins;
use crate::stand::Stand;
use dm_token::{CToken, Memory, Span, Trail};
use std::alloc::Global;

/// For each token of a run, the last part of the replacement list of which it or one before it in the run comes. Goes once through
/// the run and the list.
pub(crate) fn reach_of(
    alloc: Global,
    stand: &Stand,
    tokens: &[CToken],
    prefix: &Trail,
    run: Span,
) -> Result<Vec<usize>, Memory>
    requires named { stand.now.named.now ≡ named_in stand.now.definition.now }
    requires inside { run.after ≤ length tokens.now }
    requires ordered { run.first ≤ run.after }
    requires under { IsSpanUnder prefix.now tokens.now run }
    ensures reached { IfOk result (λ reach. AreReached stand.now.names.now tokens.now stand.now.definition.now prefix.now run reach.items) }
    ensures count { IfOk result (λ reach. run.first + length reach.items ≡ run.after) }
{
    let origins = Origins::of(alloc, *stand)?;
    let outer = prefix.length();
    let mut reach = Vec::new(alloc);
    let mut last = 0;
    for position in run.first..run.after {
        let part = origins.part_of(outer, &tokens[position as usize]);
        last = part.max(last);
        reach.push(last)?;
    }
    Ok(reach)
}

/// Before the first token of a run that comes of a part behind this one, or behind the run.
pub(crate) fn would_stand(reach: &[usize], run: Span, at: usize) -> u32
    requires { run.first + length reach.now ≡ run.after }
    ensures { (expansions : Sequence SeenExpansion) (tokens : Sequence SeenCToken) (definition : SeenDefinition) (prefix : Sequence SeenMark)
        → IsSpanUnder prefix tokens run → run.after ≤ length tokens → AreReached expansions tokens definition prefix run reach.now
        → result ≡ runs.would_stand expansions tokens definition prefix run.after at }
{
    let count = reach.partition_point(|part| *part <= at);
    run.first + count as u32
}
