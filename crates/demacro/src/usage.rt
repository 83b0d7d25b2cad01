ghost use Rattle.std.specs.Prelude.{◌≡◌, ◌≤◌, IfOk, OnOk, OnErr};
ghost use Rattle.dm_lines.specs.Puts.{PutsText};
ghost use Rattle.dm_lines.specs.Statuses as statuses;
ghost use Rattle.demacro.specs.Usage.{usage_line};

use dm_io::Sink;
use dm_lines::{put_line, statuses};
use dm_token::Memory;
use std::alloc::Global;

/// The usage line.
const USAGE: &[u8] =
    b"usage: demacro plan M [--json] | apply M [--json] | expand M UNIT | run M UNIT [--order N] [--steps N] [--input FILE] | gen N\n";

/// Puts the usage line, and answers the status.
#[tactic(auto, unfolding(crate::specs::Usage::usage_line))]
pub fn explain_usage<S: Sink>(alloc: Global, out: &mut S) -> Result<u8, Memory>
    ensures put { OnOk result (PutsText (S.written out.old) (S.written out.new) (S.faults out.old) (S.faults out.new) usage_line) }
    ensures status { IfOk result (λ status. status ≡ statuses.wrong_words) }
    ensures err { OnErr result (S.written out.new ≡ S.written out.old) }
    ensures later { S.faults out.old ≤ S.faults out.new }
{
    put_line(alloc, out, USAGE)?;
    Ok(statuses::WRONG_WORDS)
}
