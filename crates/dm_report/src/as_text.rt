ghost use Rattle.std.specs.Prelude.{◌≡◌, IfOk};
ghost use Rattle.dm_report.specs.Lines.{report_of};

use crate::lines::{append_entry, append_summary};
use dm_edit::Plan;
use dm_token::{Memory, Text};
use std::alloc::Global;

/// The report of a plan as text: a line for each definition, in the order of the plan, and one that counts them.
#[tactic(auto, unfolding(crate::specs::Lines::report_of))]
pub fn text(alloc: Global, plan: &Plan) -> Result<Text, Memory>
    ensures { IfOk result (λ text. text ≡ report_of plan.now) }
{
    let mut bytes = Vec::new(alloc);
    let entries = plan.entries.items();
    for entry in entries {
        append_entry(&mut bytes, plan.names.items(), entry)?;
    }
    append_summary(&mut bytes, entries)?;
    Text::from_vec(alloc, bytes)
}
