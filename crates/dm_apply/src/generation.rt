//! The plan of a generated project.

ghost use Rattle.std.specs.Prelude.{◌≤◌};
ghost use Rattle.dm_gen.specs.Generated.{greatest_count};
ghost use Rattle.dm_apply.specs.Generation.{EndsGeneratingAs};

use crate::explain::explain_no_plan;
use crate::planning::plan_once;
use crate::quiet::QuietFolder;
use crate::report::put_output;
use crate::summary::{size_behind, size_of, summary_of};
use dm_gen::generated;
use dm_io::Sink;
use dm_manifest::unit_alone;
use dm_search::Loader;
use dm_token::{Memory, Text};
use std::alloc::Global;

/// Makes the plan of the generated project with `n` macros and puts its summary, and answers the status. It reads and writes no file of a
/// folder of the caller's.
pub fn gen_command<S: Sink>(alloc: Global, n: u32, out: &mut S) -> Result<u8, Memory>
    requires { n ≤ greatest_count }
    ensures ending { EndsGeneratingAs n (S.written out.old) (S.written out.new) (S.faults out.old) (S.faults out.new) result }
    ensures later { S.faults out.old ≤ S.faults out.new }
{
    let name = Text::new(alloc, "g.c")?;
    let files = generated(alloc, n)?;
    let old = size_of(&files, &name);
    let mut folder = QuietFolder::new(files);
    let unit = unit_alone(alloc, &name)?;
    let mut loader = Loader::new(alloc)?;
    match plan_once(alloc, &mut folder, &mut loader, &[unit]) {
        Ok(plan) => {
            let new = size_behind(old, plan.files.items(), &name);
            let summary = summary_of(alloc, &plan, old, new)?;
            put_output(alloc, out, &summary)
        }
        Err(stop) => explain_no_plan(alloc, out, name.bytes(), loader.names(), stop),
    }
}
