//! The application of a plan.

ghost use Rattle.std.specs.Prelude.{◌≡◌, ◌≤◌, map, bytes_eq, All, IfOk, OnErr};
ghost use Rattle.std.specs.List.{IsDistinct};
ghost use Rattle.dm_io.specs.Files.{HasFile};
ghost use Rattle.dm_manifest.specs.Units.{IsLawful};
ghost use Rattle.dm_edit.specs.declared.plan.Changed.{Changed};
ghost use Rattle.dm_lines.specs.Outside.{outside};
ghost use Rattle.dm_apply.specs.Commits.{IsCommittedAs};
ghost use Rattle.dm_apply.specs.Plans.{prepared_of};
ghost use Rattle.dm_apply.specs.Endings.{EndsApplyingAs};

use crate::explain::explain_no_plan;
use crate::planning::plan_once;
use crate::prepared::prepare;
use crate::ready::make_ready;
use crate::writing::commit;
use dm_edit::Plan;
use dm_io::{Folder, Sink};
use dm_promise::applied_programs_refine;
use dm_search::Loader;
use dm_token::{Memory, Text, Unit};
use std::alloc::Global;

/// Makes the plan of a project's units, writes the files that it changes, each once and in the order of their names, and then puts its
/// report, as JSON or as lines; or it puts why there is no plan. Answers the status. The project's own word is for messages alone.
///
/// Before the first write all bytes that may be written or put are made, and the folder and the sink are ready for them: from there on the
/// call takes no memory.
pub fn apply_command<F: Folder, S: Sink>(
    alloc: Global,
    project: &Text,
    units: &[Unit],
    json: bool,
    folder: &mut F,
    out: &mut S,
) -> Result<u8, Memory>
    requires { All IsLawful units.now }
    ensures ending { EndsApplyingAs json project.now units.now
        (outside F.Folder S.Sink folder.old out.old)
        (outside F.Folder S.Sink folder.new out.new) result }
    ensures folder_later { F.faults folder.old ≤ F.faults folder.new }
    ensures sink_later { S.faults out.old ≤ S.faults out.new }
{
    // The law of what a plan does to programs.
    applied_programs_refine();
    let mut loader = Loader::new(alloc)?;
    match plan_once(alloc, folder, &mut loader, units) {
        Ok(plan) => apply_plan(alloc, plan, json, folder, out),
        Err(stop) => explain_no_plan(alloc, out, project.bytes(), loader.names(), stop),
    }
}

/// Writes a plan's files and puts its report.
fn apply_plan<F: Folder, S: Sink>(
    alloc: Global,
    plan: Plan,
    json: bool,
    folder: &mut F,
    out: &mut S,
) -> Result<u8, Memory>
    requires there { All (λ (file : Changed). HasFile (F.files folder.old) file.name) plan.files }
    requires apart { IsDistinct bytes_eq (map (λ (file : Changed). file.name) plan.files) }
    ensures committed { IfOk result (IsCommittedAs (prepared_of json plan)
        (outside F.Folder S.Sink folder.old out.old)
        (outside F.Folder S.Sink folder.new out.new)) }
    ensures files_stay { OnErr result (F.files folder.new ≡ F.files folder.old) }
    ensures written_stays { OnErr result (S.written out.new ≡ S.written out.old) }
    ensures folder_later { F.faults folder.old ≤ F.faults folder.new }
    ensures sink_later { S.faults out.old ≤ S.faults out.new }
{
    let prepared = prepare(alloc, plan, json)?;
    make_ready(alloc, &prepared, folder, out)?;
    Ok(commit(&prepared, folder, out))
}
