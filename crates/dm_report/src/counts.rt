ghost use Rattle.std.specs.Prelude.{◌≡◌};
ghost use Rattle.dm_report.specs.Counts.{is_rewritten, kept_count, rewritten_count};

use dm_edit::{Entry, Fate};

/// How many definitions are rewritten.
pub fn rewritten_count(entries: &[Entry]) -> usize
    ensures { result ≡ rewritten_count entries.now }
{
    entries.iter().filter(|entry| is_rewritten(entry)).count()
}

/// How many are kept.
pub fn kept_count(entries: &[Entry]) -> usize
    ensures { result ≡ kept_count entries.now }
{
    entries.iter().filter(|entry| !is_rewritten(entry)).count()
}

fn is_rewritten(entry: &Entry) -> bool
    ensures { result ≡ is_rewritten entry.now }
{
    matches!(entry.outcome, Fate::Rewritten(_))
}
