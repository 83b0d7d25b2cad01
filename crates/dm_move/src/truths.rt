//! Truths of operands, and what they choose (6.5.13 to 6.5.15).

ghost use Rattle.std.specs.Prelude.{◌≡◌, ℕ, Bool, List, map};
ghost use Rattle.dm_token.specs.declared.place.Place.{Place};
ghost use Rattle.dm_type.specs.Tables.{IsId, Table, type_of};
ghost use Rattle.dm_tree.specs.Views.{view};
ghost use Rattle.dm_meaning.specs.Expressions.{both_chosen, by_truth, either_chosen, nth_run, on_operand, operand_chosen, value_of};
ghost use Rattle.dm_meaning.specs.Operations.{World, of_value, truth_in as truth_as, truth_of};
ghost use Rattle.dm_meaning.specs.Running.{Run, Runs, begun, done};
ghost use Rattle.dm_meaning.specs.Values as values;
ghost use Rattle.dm_memory.specs.Blocks.{view_of_blocks};
ghost use Rattle.dm_memory.specs.Truths.{view_of_truth};
ghost use Rattle.dm_operate.specs.Evaluations.{view_of_evaluation, view_of_operand};
ghost use Rattle.dm_expression.specs.Taken.{results_of};
ghost use Rattle.dm_program.specs.Sources.{Source};
ghost use Rattle.dm_frame.specs.Tasks.{ExpressionFits};
ghost use Rattle.dm_move.specs.Steps.{view_of_step, Keeps, StepFits};

use crate::operands::only;
use crate::step::Step;
use dm_expression::Results;
use dm_layout::Layout;
use dm_meaning::Cause;
use dm_memory::{Blocks, truth};
use dm_operate::{Evaluation, Operand, truth_value};
use dm_tree::Core;
use dm_type::TypeId;

/// Whether the operand compares unequal to 0.
///
/// # Errors
///
/// The cause why it can't be told.
pub(crate) fn tested(blocks: &Blocks, operands: &Results<Operand>) -> Result<bool, Cause>
    ensures { (table : Table) (world : World) (place : Place) (next : Bool → Run) → by_truth world place (view_of_truth result) next
        ≡ on_operand place (map (view_of_operand table) (results_of operands.now)) (λ a. by_truth world place (truth_of (view_of_blocks table blocks.now) (value_of a.result)) next) }
{
    match only(operands) {
        Some(operand) => truth_in(blocks, &operand.result),
        None => Err(Cause::OtherType),
    }
}

/// The same of what an operand gave.
fn truth_in(blocks: &Blocks, operand: &Evaluation) -> Result<bool, Cause>
    ensures { (table : Table) → view_of_truth result ≡ truth_of (view_of_blocks table blocks.now) (value_of (view_of_evaluation operand.now)) }
{
    match operand {
        Evaluation::Value(value) => truth(blocks, value),
        Evaluation::Object(_) => Err(Cause::OtherType),
    }
}

/// `&&` goes on with its second operand where the first isn't 0 (6.5.13p4).
pub(crate) fn both<'a>(
    layout: &Layout,
    kind: TypeId,
    second: &'a Core,
    truth: Result<bool, Cause>,
) -> Step<'a>
    requires { IsId layout.now kind }
    ensures step { (place : Place) (locks : List values.At) (world : World) (parts : Runs) → nth_run 1 parts ≡ begun (view layout.now second.now)
        → view_of_step layout.now (type_of layout.now kind) place locks world result ≡ by_truth world place (view_of_truth truth) (both_chosen (type_of layout.now kind) place parts) }
    ensures keeps { (world : World) → Keeps world world result }
    ensures fits { (source : Source) → ExpressionFits source.table second.now → StepFits source result }
{
    match truth {
        Ok(true) => Step::Tests(second),
        Ok(false) => Step::Releases(truth_value(layout, kind, false)),
        Err(cause) => Step::Fails(cause),
    }
}

/// `||` goes on with its second operand where the first is 0 (6.5.14p4).
pub(crate) fn either<'a>(
    layout: &Layout,
    kind: TypeId,
    second: &'a Core,
    truth: Result<bool, Cause>,
) -> Step<'a>
    requires { IsId layout.now kind }
    ensures step { (place : Place) (locks : List values.At) (world : World) (parts : Runs) → nth_run 1 parts ≡ begun (view layout.now second.now)
        → view_of_step layout.now (type_of layout.now kind) place locks world result ≡ by_truth world place (view_of_truth truth) (either_chosen (type_of layout.now kind) place parts) }
    ensures keeps { (world : World) → Keeps world world result }
    ensures fits { (source : Source) → ExpressionFits source.table second.now → StepFits source result }
{
    match truth {
        Ok(true) => Step::Releases(truth_value(layout, kind, true)),
        Ok(false) => Step::Tests(second),
        Err(cause) => Step::Fails(cause),
    }
}

/// `?:` goes on with its second operand where the first isn't 0, and else with the third (6.5.15p4).
pub(crate) fn choice<'a>(second: &'a Core, third: &'a Core, truth: Result<bool, Cause>) -> Step<'a>
    ensures step { (table : Table) (kind : ℕ) (place : Place) (locks : List values.At) (world : World) (parts : Runs) → nth_run 1 parts ≡ begun (view table second.now)
        → nth_run 2 parts ≡ begun (view table third.now)
        → view_of_step table (type_of table kind) place locks world result ≡ by_truth world place (view_of_truth truth) (operand_chosen (type_of table kind) place parts) }
    ensures keeps { (world : World) → Keeps world world result }
    ensures fits { (source : Source) → ExpressionFits source.table second.now → ExpressionFits source.table third.now → StepFits source result }
{
    match truth {
        Ok(true) => Step::Picks(second),
        Ok(false) => Step::Picks(third),
        Err(cause) => Step::Fails(cause),
    }
}

/// `&&` or `||` gives 1 where its second operand isn't 0, and else 0 (6.5.13p3, 6.5.14p3).
pub(crate) fn as_truth<'a>(layout: &Layout, kind: TypeId, truth: Result<bool, Cause>) -> Step<'a>
    requires { IsId layout.now kind }
    ensures step { (place : Place) (locks : List values.At) (world : World) → view_of_step layout.now (type_of layout.now kind) place locks world result
        ≡ by_truth world place (view_of_truth truth) (λ truth. done (type_of layout.now kind) (of_value (truth_as (type_of layout.now kind) truth)) locks) }
    ensures keeps { (world : World) → Keeps world world result }
    ensures fits { (source : Source) → StepFits source result }
{
    match truth {
        Ok(truth) => Step::Gives(Evaluation::Value(truth_value(layout, kind, truth)), None),
        Err(cause) => Step::Fails(cause),
    }
}
