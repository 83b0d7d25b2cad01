ghost use Rattle.std.specs.Prelude.{◌≡◌, Some, string_bytes, IfOk};
ghost use Rattle.serde_json.specs.Read.{read};
ghost use Rattle.serde_json.specs.Written.{compact_text};
ghost use Rattle.dm_report.specs.JsonReport.{ReadsAs, json_of, plan_data};

use crate::values::plan_value;
use dm_edit::Plan;
use dm_token::{Memory, Text};
use std::alloc::Global;

/// The report of a plan as one JSON object without spaces, and a newline. In names bytes that are no UTF-8 become U+FFFD.
pub fn json(alloc: Global, plan: &Plan) -> Result<Text, Memory>
    ensures text { IfOk result (λ text. text ≡ json_of plan.now) }
    ensures reads_back { IfOk result (λ text. ReadsAs text (plan_data plan.now)) }
{
    let mut line = plan_json(alloc, plan)?;
    line.push_str("\n")?;
    Text::from_vec(alloc, line.into_bytes())
}

/// The report of a plan without the newline.
fn plan_json(alloc: Global, plan: &Plan) -> Result<String, Memory>
    ensures text { IfOk result (λ json. string_bytes json ≡ compact_text (plan_data plan.now)) }
    ensures reads_back { IfOk result (λ json. read (string_bytes json) ≡ Some (plan_data plan.now)) }
{
    let report = plan_value(alloc, plan)?;
    Ok(report.to_string(alloc)?)
}
