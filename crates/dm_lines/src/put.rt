ghost use Rattle.std.specs.Prelude.{◌≡◌, ◌≤◌, OnOk, OnErr};
ghost use Rattle.dm_lines.specs.Puts.{PutsText};

use dm_io::Sink;
use dm_token::Memory;
use std::alloc::Global;

/// Makes the sink ready for a line, and puts it. That the sink fails is no error. After an `Err` nothing is put.
pub fn put_line<S: Sink>(alloc: Global, out: &mut S, line: &[u8]) -> Result<(), Memory>
    ensures put { OnOk result (PutsText (S.written out.old) (S.written out.new) (S.faults out.old) (S.faults out.new) line.now) }
    ensures err { OnErr result (S.written out.new ≡ S.written out.old) }
    ensures faults_stay { OnErr result (S.faults out.new ≡ S.faults out.old) }
    ensures later { S.faults out.old ≤ S.faults out.new }
{
    out.ready(alloc, line.len())?;
    let _ = out.put(line);
    Ok(())
}
