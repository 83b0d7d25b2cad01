//! All bytes that applying a plan needs.

ghost use Rattle.std.specs.Prelude.{◌≡◌, map, IfOk};
ghost use Rattle.dm_edit.specs.declared.plan.Changed.{Changed};
ghost use Rattle.dm_lines.specs.Lines.{write_fault_line};
ghost use Rattle.dm_apply.specs.Plans.{prepared_of};

use crate::report::report_of;
use dm_edit::{Changed, Plan};
use dm_lines::write_fault_line;
use dm_token::{List, Memory, Text};
use std::alloc::Global;

/// What is applied: all bytes that are written, and all that may be put.
#[derive(Debug, Drop)]
pub struct Prepared {
    /// The files that are written, in this order.
    pub files: List<Changed>,
    /// For each of them what is put where it can't be written.
    pub lines: List<Text>,
    /// What is put where all are written.
    pub report: Text,
}

/// Makes all bytes that applying a plan needs.
pub(crate) fn prepare(alloc: Global, plan: Plan, json: bool) -> Result<Prepared, Memory>
    ensures { IfOk result (λ prepared. prepared ≡ prepared_of json plan) }
{
    let report = report_of(alloc, &plan, json)?;
    let lines = fault_lines(alloc, plan.files.items())?;
    Ok(Prepared {
        files: plan.files,
        lines,
        report,
    })
}

/// For each file the line that says that it can't be written.
fn fault_lines(alloc: Global, files: &[Changed]) -> Result<List<Text>, Memory>
    ensures { IfOk result (λ lines. lines ≡ map (λ (file : Changed). write_fault_line file.name) files.now) }
{
    let mut lines = List::new(alloc);
    for file in files {
        let line = write_fault_line(alloc, file.name.bytes())?;
        lines.push(Text::from_vec(alloc, line)?)?;
    }
    Ok(lines)
}
