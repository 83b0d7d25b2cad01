//! The report of a plan.

ghost use Rattle.std.specs.Prelude.{◌≡◌, ◌≤◌, All, IfOk, OnErr};
ghost use Rattle.dm_manifest.specs.Units.{IsLawful};
ghost use Rattle.dm_lines.specs.Outside.{outside};
ghost use Rattle.dm_apply.specs.Plans.{report as report_text};
ghost use Rattle.dm_apply.specs.Outputs.{PutsOutput};
ghost use Rattle.dm_apply.specs.Endings.{EndsPlanningAs};

use crate::explain::explain_no_plan;
use crate::planning::plan_once;
use dm_edit::Plan;
use dm_io::{Folder, Sink};
use dm_lines::statuses;
use dm_report::{json, text};
use dm_search::Loader;
use dm_token::{Memory, Text, Unit};
use std::alloc::Global;

/// Makes the plan of a project's units and puts its report, as JSON or as lines, or why there is no plan, and answers the status.
/// The project's own word is for messages alone.
pub fn plan_command<F: Folder, S: Sink>(
    alloc: Global,
    project: &Text,
    units: &[Unit],
    json: bool,
    folder: &mut F,
    out: &mut S,
) -> Result<u8, Memory>
    requires { All IsLawful units.now }
    ensures ending { EndsPlanningAs json project.now units.now
        (outside F.Folder S.Sink folder.old out.old)
        (outside F.Folder S.Sink folder.new out.new) result }
    ensures folder_later { F.faults folder.old ≤ F.faults folder.new }
    ensures sink_later { S.faults out.old ≤ S.faults out.new }
{
    let mut loader = Loader::new(alloc)?;
    match plan_once(alloc, folder, &mut loader, units) {
        Ok(plan) => put_output(alloc, out, report_of(alloc, &plan, json)?.bytes()),
        Err(stop) => explain_no_plan(alloc, out, project.bytes(), loader.names(), stop),
    }
}

/// The report of a plan, as JSON or as lines.
pub(crate) fn report_of(alloc: Global, plan: &Plan, as_json: bool) -> Result<Text, Memory>
    ensures { IfOk result (λ given. given ≡ report_text as_json plan.now) }
{
    if as_json {
        json(alloc, plan)
    } else {
        text(alloc, plan)
    }
}

/// Puts an output, and answers the status. After an `Err` nothing is put.
pub(crate) fn put_output<S: Sink>(alloc: Global, out: &mut S, text: &[u8]) -> Result<u8, Memory>
    ensures put { IfOk result (PutsOutput (S.written out.old) (S.written out.new) (S.faults out.old) (S.faults out.new) text.now) }
    ensures err { OnErr result (S.written out.new ≡ S.written out.old) }
    ensures later { S.faults out.old ≤ S.faults out.new }
{
    out.ready(alloc, text.len())?;
    if out.put(text) {
        Ok(statuses::DONE)
    } else {
        Ok(statuses::OUTPUT_FAULT)
    }
}
