//! The first occurrences of parameters.

ghost use Rattle.std.specs.Prelude.{◌≡◌, ◌<◌, ◌==◌, ℕ, Some, if◌then◌else◌, IfOk, OnOk, vec_len};
ghost use Rattle.dm_meanings.specs.Wanted as wanted;
ghost use Rattle.dm_meanings.specs.Wanted.{AreFirst};

use dm_runs::Run;
use dm_token::{Memory, Span};
use std::alloc::Global;

/// What a table has at the position of a parameter.
pub fn span_of(spans: &[Option<Span>], parameter: usize) -> Option<Span>
    ensures { result ≡ wanted.entry_at spans.now parameter }
{
    match spans.get(parameter) {
        Some(span) => *span,
        None => None,
    }
}

/// The table goes beyond this position.
fn grow(spans: &mut Vec<Option<Span>>, at: usize) -> Result<(), Memory>
    ensures same { OnOk result ((n : ℕ) → wanted.entry_at spans.new.items n ≡ wanted.entry_at spans.old.items n) }
    ensures long { OnOk result (at < vec_len spans.new) }
{
    while spans.len() <= at {
        spans.push(None)?;
    }
    Ok(())
}

/// Puts the tokens of an occurrence at the position of its parameter.
fn put(spans: &mut Vec<Option<Span>>, at: usize, span: Span) -> Result<(), Memory>
    ensures { OnOk result ((n : ℕ) → wanted.entry_at spans.new.items n ≡ (if at == n then Some span else wanted.entry_at spans.old.items n)) }
{
    grow(spans, at)?;
    spans[at] = Some(span);
    Ok(())
}

/// By parameter, the tokens of its first occurrence in a run. Goes once through the occurrences, of which the last comes first.
pub fn first_occurrences(alloc: Global, run: &Run) -> Result<Vec<Option<Span>>, Memory>
    ensures { IfOk result (λ spans. AreFirst run.now spans.items) }
{
    let mut spans = Vec::new(alloc);
    let mut left = run.occurrences.items();
    while let Some((one, before)) = left.split_last() {
        put(&mut spans, one.parameter as usize, one.span)?;
        left = before;
    }
    Ok(spans)
}
