//! Steps of nodes whose operands are evaluated (6.5).

ghost use Rattle.std.specs.Prelude.{◌≡◌, ◌≤◌, List, false, length, map, pos, IfOk, IsTrue};
ghost use Rattle.dm_token.specs.declared.place.Place.{Place};
ghost use Rattle.dm_type.specs.CTypes.{CType};
ghost use Rattle.dm_type.specs.Layouts.{size_of};
ghost use Rattle.dm_type.specs.Tables.{IsId, Table, type_of};
ghost use Rattle.dm_tree.specs.TypeNumbers.{are_known};
ghost use Rattle.dm_tree.specs.Trees.{label_of};
ghost use Rattle.dm_tree.specs.Views.{view};
ghost use Rattle.dm_meaning.specs.Expressions.{as_move, goes, on_operand};
ghost use Rattle.dm_meaning.specs.Operations as operations;
ghost use Rattle.dm_meaning.specs.Operations.{World};
ghost use Rattle.dm_meaning.specs.Programs.{or_zero};
ghost use Rattle.dm_meaning.specs.Running.{done};
ghost use Rattle.dm_meaning.specs.Values as values;
ghost use Rattle.dm_memory.specs.Blocks.{view_of_blocks, AreKnown};
ghost use Rattle.dm_memory.specs.Scenes.{Beside, scene_in, world_in};
ghost use Rattle.dm_operate.specs.Evaluations.{asks_names, view_of_did, view_of_operand};
ghost use Rattle.dm_program.specs.Sources.{Source};
ghost use Rattle.dm_expression.specs.Taken.{results_of};
ghost use Rattle.dm_state.specs.Standing.{world_of};
ghost use Rattle.dm_value.specs.Places.{view_of_at};
ghost use Rattle.dm_move.specs.Operands.{AreKnownResults};
ghost use Rattle.dm_frame.specs.Tasks.{ExpressionFits};
ghost use Rattle.dm_move.specs.Steps.{view_of_step, IsFormStep, IsStep, Keeps, StepFits};

use crate::calls::call;
use crate::names::{enumerator, named};
use crate::operands::{at_most_two, only};
use crate::step::Step;
use crate::truths::{as_truth, both, choice, either, tested};
use crate::way::{Way, way_of};
use dm_expression::{Doing, Results, Waiting};
use dm_frame::Stack;
use dm_layout::Layout;
use dm_meaning::Cause;
use dm_memory::Blocks;
use dm_operate::{Did, Operand, designated, number, operate};
use dm_primitive::Streams;
use dm_program::Program;
use dm_state::Names;
use dm_token::Memory;
use dm_tree::Core;
use dm_type::TypeId;
use dm_value::At;
use std::alloc::Global;

/// The step of a node, beside what stores that are unsequenced with it have locked.
pub(crate) fn take_step<'a>(
    alloc: Global,
    program: &Program<'a>,
    statics: &Names,
    objects: &Stack<(u32, u64)>,
    blocks: &mut Blocks,
    streams: &mut Streams,
    locks: &[At],
    node: Waiting<'a>,
    operands: &Results<Operand>,
) -> Result<Step<'a>, Memory>
    requires known { AreKnown program.now.table blocks.old }
    requires node { ExpressionFits program.now.table node.node.now }
    requires operands { AreKnownResults program.now.table (results_of operands.now) }
    ensures step { IfOk result (IsStep program.now statics.now objects.now (map view_of_at locks.now) node.entry (results_of operands.now)
        (world_of program.now.table blocks.old streams.old) (world_of program.now.table blocks.new streams.new)) }
    ensures keeps { IfOk result (Keeps (world_of program.now.table blocks.old streams.old) (world_of program.now.table blocks.new streams.new)) }
    ensures fits { IfOk result (StepFits program.now) }
    ensures known { AreKnown program.now.table blocks.new }
{
    match node.doing {
        Doing::Evaluates => {
            let step = evaluate(
                alloc, program, statics, objects, blocks, streams, locks, node.node, operands,
            )?;
            Ok(step)
        }
        Doing::GivesTruth => Ok(as_truth(
            program.layout(),
            node.node.kind,
            tested(blocks, operands),
        )),
        Doing::GivesValue => {
            let step = as_value(operands)?;
            Ok(step)
        }
    }
}

/// `?:` or the comma gives the value of the operand that it has chosen (6.5.15p4, 6.5.17p2).
fn as_value<'a>(operands: &Results<Operand>) -> Result<Step<'a>, Memory>
    ensures step { (table : Table) (kind : CType) (place : Place) (locks : List values.At) (world : World) → IfOk result (λ step. view_of_step table kind place locks world step
        ≡ on_operand place (map (view_of_operand table) (results_of operands.now)) (λ a. goes world (done kind a.result locks))) }
    ensures keeps { (world : World) → IfOk result (Keeps world world) }
    ensures fits { (source : Source) → IfOk result (StepFits source) }
{
    match only(operands) {
        Some(operand) => {
            let same = operand.result.copy()?;
            Ok(Step::Gives(same, None))
        }
        None => Ok(Step::Fails(Cause::OtherType)),
    }
}

/// The step of a node that is evaluated as its form says.
fn evaluate<'a>(
    alloc: Global,
    program: &Program<'a>,
    statics: &Names,
    objects: &Stack<(u32, u64)>,
    blocks: &mut Blocks,
    streams: &mut Streams,
    locks: &[At],
    node: &'a Core,
    operands: &Results<Operand>,
) -> Result<Step<'a>, Memory>
    requires known { AreKnown program.now.table blocks.old }
    requires node { ExpressionFits program.now.table node.now }
    requires operands { AreKnownResults program.now.table (results_of operands.now) }
    ensures step { IfOk result (IsFormStep program.now statics.now objects.now (map view_of_at locks.now) node.now (results_of operands.now)
        (world_of program.now.table blocks.old streams.old) (world_of program.now.table blocks.new streams.new)) }
    ensures keeps { IfOk result (Keeps (world_of program.now.table blocks.old streams.old) (world_of program.now.table blocks.new streams.new)) }
    ensures fits { IfOk result (StepFits program.now) }
    ensures known { AreKnown program.now.table blocks.new }
{
    let layout = program.layout();
    match way_of(&node.form) {
        Way::Both(_, second) => Ok(both(layout, node.kind, second, tested(blocks, operands))),
        Way::Either(_, second) => Ok(either(layout, node.kind, second, tested(blocks, operands))),
        Way::Choose(_, second, third) => Ok(choice(second, third, tested(blocks, operands))),
        Way::Comma(_, second) => Ok(Step::Picks(second)),
        Way::Call(function, _) => {
            let step = call(alloc, program, blocks, streams, function, operands)?;
            Ok(step)
        }
        Way::Measures(tree) => Ok(Step::of_did(size(layout, node.kind, tree.kind))),
        Way::Enumerator(declared) => { Ok(Step::of_did(enumerator(program, node.kind, declared))) }
        Way::Object(declared) => { Ok(Step::of_did(designated(named(statics, objects, declared)))) }
        Way::Operates => {
            let step = operated(alloc, layout, blocks, locks, node, operands)?;
            Ok(step)
        }
    }
}

/// The size of a type, as a number (6.5.3.4p2).
fn size(layout: &Layout, kind: TypeId, measured: TypeId) -> Did
    requires kind { IsId layout.now kind }
    requires measured { IsId layout.now measured }
    ensures { (world : World) → view_of_did world result ≡ operations.number_alone world (type_of layout.now kind) (pos (or_zero (size_of layout.now (type_of layout.now measured)))) }
{
    let size = layout.types().size(measured).unwrap_or(0);
    number(layout, kind, i128::from(size))
}

/// The step of an operator, which has at most two operands.
fn operated<'a>(
    alloc: Global,
    layout: &Layout,
    blocks: &mut Blocks,
    locks: &[At],
    node: &Core,
    operands: &Results<Operand>,
) -> Result<Step<'a>, Memory>
    requires known { AreKnown layout.now blocks.old }
    requires node { IsTrue (are_known (length layout.now.shapes) node.now) }
    requires operands { AreKnownResults layout.now (results_of operands.now) }
    requires names { asks_names (label_of (view layout.now node.now)) ≡ false }
    ensures step { (beside : Beside) (place : Place) (own : List values.At) → length (results_of operands.now) ≤ 2
        → IfOk result (λ step. view_of_step layout.now (type_of layout.now node.now.kind) place own (world_in (view_of_blocks layout.now blocks.new) beside) step
        ≡ as_move (type_of layout.now node.now.kind) place own (operations.operate (scene_in layout.now beside) (world_in (view_of_blocks layout.now blocks.old) beside)
        (map view_of_at locks.now) (label_of (view layout.now node.now)) (type_of layout.now node.now.kind) (map (view_of_operand layout.now) (results_of operands.now)))) }
    ensures keeps { (before after : World) → after.output ≡ before.output → IfOk result (Keeps before after) }
    ensures fits { (source : Source) → IfOk result (StepFits source) }
    ensures known { AreKnown layout.now blocks.new }
{
    match at_most_two(operands) {
        Some(operands) => {
            let did = operate(alloc, layout, blocks, locks, node, operands)?;
            Ok(Step::of_did(did))
        }
        None => Ok(Step::Fails(Cause::OtherType)),
    }
}
