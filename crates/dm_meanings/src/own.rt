//! Which tokens of a run are the macro's own, and stand in no occurrence of a parameter.

ghost use Rattle.std.specs.Prelude.{◌≡◌, ◌+◌, ◌<◌, ◌≤◌, ◌&&◌, ◌==◌, ℕ, false, not, IfOk, length, slice_index_or};
ghost use Rattle.dm_meanings.specs.Captures as captures;
ghost use Rattle.dm_meanings.specs.Own.{AreOwn};

use dm_runs::Run;
use dm_token::{Memory, Span};
use std::alloc::Global;

/// Takes one token away, if it is among these, of which the first has a number.
fn leave_out(own: &mut [bool], first: u32, token: u32)
    ensures long { length own.new ≡ length own.old }
    ensures own { (at : ℕ) → at < length own.old → slice_index_or own.new at false ≡ (slice_index_or own.old at false && not (first + at == token)) }
{
    if token < first {
        return;
    }
    let at = (token - first) as usize;
    if at < own.len() {
        own[at] = false;
    }
}

/// Takes the tokens of a span away.
fn leave_out_span(own: &mut [bool], first: u32, span: Span)
    ensures long { length own.new ≡ length own.old }
    ensures own { (at : ℕ) → at < length own.old → slice_index_or own.new at false ≡ (slice_index_or own.old at false && not (captures.has_token (first + at) span)) }
{
    for token in span.first..span.after {
        leave_out(own, first, token);
    }
}

/// Of each token of a run, whether it is the macro's own. Goes once through the tokens of the run and of its occurrences.
pub(crate) fn own_tokens(alloc: Global, run: &Run) -> Result<Vec<bool>, Memory>
    ensures { IfOk result (λ own. AreOwn run.now own.items) }
{
    let first = run.span.first;
    let mut own = vec![in alloc; true; run.span.after.saturating_sub(first) as usize]?;
    let occurrences = run.occurrences.items();
    for one in occurrences {
        leave_out_span(own.as_mut_slice(), first, one.span);
    }
    Ok(own)
}

/// Whether a token of a run is one of these.
pub(crate) fn is_own(own: &[bool], run: &Run, at: u32) -> bool
    requires own { AreOwn run.now own.now }
    requires behind { run.now.span.first ≤ at }
    requires before { at < run.now.span.after }
    ensures { result ≡ captures.is_own run.now at }
{
    own[(at - run.span.first) as usize]
}
