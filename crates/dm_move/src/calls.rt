//! Calls (6.5.2.2).

ghost use Rattle.std.specs.Prelude.{◌≡◌, List, Some, map, IfOk};
ghost use Rattle.dm_token.specs.declared.place.Place.{Place};
ghost use Rattle.dm_type.specs.CTypes.{CType};
ghost use Rattle.dm_type.specs.Tables.{Table};
ghost use Rattle.dm_tree.specs.Views.{opened_form, view};
ghost use Rattle.dm_meaning.specs.Expressions as expressions;
ghost use Rattle.dm_meaning.specs.Operations.{Objects};
ghost use Rattle.dm_meaning.specs.Primitives as primitives;
ghost use Rattle.dm_meaning.specs.Programs as programs;
ghost use Rattle.dm_meaning.specs.Running.{begun, evaluates};
ghost use Rattle.dm_meaning.specs.Values as values;
ghost use Rattle.dm_memory.specs.Blocks.{AreKnown};
ghost use Rattle.dm_operate.specs.Evaluations.{view_of_operand};
ghost use Rattle.dm_primitive.specs.Meanings.{IsAnswer};
ghost use Rattle.dm_primitive.specs.declared.streams.Streams.{Streams as AllStreams};
ghost use Rattle.dm_program.specs.Sources.{meant, Source};
ghost use Rattle.dm_expression.specs.Taken.{results_of};
ghost use Rattle.dm_state.specs.Standing.{world_of};
ghost use Rattle.dm_value.specs.Views.{view_of_value};
ghost use Rattle.dm_memory.specs.declared.blocks.Block.{Block};
ghost use Rattle.dm_move.specs.Steps.{scene_with, view_of_step, Keeps, StepFits};

use crate::operands::values;
use crate::step::Step;
use dm_expression::Results;
use dm_meaning::Cause;
use dm_memory::Blocks;
use dm_operate::Operand;
use dm_primitive::{Answer, Primitive, Streams};
use dm_program::Program;
use dm_token::Memory;
use dm_tree::{Core, Form};
use dm_value::Value;
use std::alloc::Global;

/// A call, of which the arguments are evaluated.
pub(crate) fn call<'a>(
    alloc: Global,
    program: &Program<'a>,
    blocks: &Blocks,
    streams: &mut Streams,
    function: &Core,
    operands: &Results<Operand>,
) -> Result<Step<'a>, Memory>
    requires known { AreKnown program.now.table blocks.now }
    ensures step { (statics objects : Objects) (kind : CType) (place : Place) (locks : List values.At) → IfOk result (λ step.
        view_of_step program.now.table kind place locks (world_of program.now.table blocks.now streams.new) step
        ≡ expressions.call_step (scene_with program.now statics objects) (world_of program.now.table blocks.now streams.old) kind place
        (map (λ a. expressions.value_of a.result) (map (view_of_operand program.now.table) (results_of operands.now))) (expressions.function_named (begun (view program.now.table function.now)))) }
    ensures keeps { IfOk result (Keeps (world_of program.now.table blocks.now streams.old) (world_of program.now.table blocks.now streams.new)) }
    ensures fits { IfOk result (StepFits program.now) }
{
    match named_in(&function.form) {
        Some(number) => {
            let arguments = values(alloc, operands)?;
            let step = call_number(alloc, program, blocks, streams, number, arguments)?;
            Ok(step)
        }
        None => Ok(Step::Fails(Cause::OtherType)),
    }
}

/// The function that a form names.
fn named_in(form: &Form) -> Option<u32>
    ensures { (table : Table) → result ≡ expressions.function_in (evaluates (opened_form table form.now).label) }
{
    match form {
        Form::Function(number) => Some(*number),
        _ => None,
    }
}

/// A call of the function of a number.
fn call_number<'a>(
    alloc: Global,
    program: &Program<'a>,
    blocks: &Blocks,
    streams: &mut Streams,
    number: u32,
    arguments: Vec<Value>,
) -> Result<Step<'a>, Memory>
    requires known { AreKnown program.now.table blocks.now }
    ensures step { (statics objects : Objects) (kind : CType) (place : Place) (locks : List values.At) → IfOk result (λ step.
        view_of_step program.now.table kind place locks (world_of program.now.table blocks.now streams.new) step
        ≡ expressions.called (scene_with program.now statics objects) (world_of program.now.table blocks.now streams.old) kind place
        (map view_of_value arguments.items) number (programs.definition_of (meant program.now) number)) }
    ensures keeps { IfOk result (Keeps (world_of program.now.table blocks.now streams.old) (world_of program.now.table blocks.now streams.new)) }
    ensures fits { IfOk result (StepFits program.now) }
{
    match program.function(number) {
        Some(function) => Ok(Step::Calls(function, arguments)),
        None => {
            let step = call_primitive(
                alloc,
                program,
                blocks,
                streams,
                number,
                arguments.as_slice(),
            )?;
            Ok(step)
        }
    }
}

/// A call of a function that the program doesn't define: the machine has it, or there is none.
fn call_primitive<'a>(
    alloc: Global,
    program: &Program<'a>,
    blocks: &Blocks,
    streams: &mut Streams,
    number: u32,
    arguments: &[Value],
) -> Result<Step<'a>, Memory>
    requires known { AreKnown program.now.table blocks.now }
    ensures step { (statics objects : Objects) (kind : CType) (place : Place) (locks : List values.At) → IfOk result (λ step.
        view_of_step program.now.table kind place locks (world_of program.now.table blocks.now streams.new) step
        ≡ expressions.undefined_called (scene_with program.now statics objects) (world_of program.now.table blocks.now streams.old) kind place
        (map view_of_value arguments.now) (programs.declaration_of (meant program.now) number)) }
    ensures keeps { IfOk result (Keeps (world_of program.now.table blocks.now streams.old) (world_of program.now.table blocks.now streams.new)) }
    ensures fits { IfOk result (StepFits program.now) }
{
    let Some(entry) = program.declared(number) else {
        return Ok(Step::Fails(Cause::External));
    };
    let layout = program.layout();
    let Some(primitive) = Primitive::of(layout.types(), entry.name.bytes(), entry.kind) else {
        return Ok(Step::Fails(Cause::External));
    };
    let answer = primitive.call(alloc, layout, blocks, arguments, streams)?;
    Ok(answered(answer))
}

/// What a function of the machine answered.
fn answered<'a>(answer: Answer) -> Step<'a>
    ensures step { (table : Table) (blocks : List Block) (before after : AllStreams) (meant_answer : primitives.Answer) (kind : CType) (place : Place) (locks : List values.At)
        → IsAnswer meant_answer before answer after → view_of_step table kind place locks (world_of table blocks after) result
        ≡ expressions.answered (world_of table blocks before) kind place (Some meant_answer) }
    ensures keeps { (table : Table) (blocks : List Block) (before after : AllStreams) (meant_answer : primitives.Answer)
        → IsAnswer meant_answer before answer after → Keeps (world_of table blocks before) (world_of table blocks after) result }
    ensures fits { (source : Source) → StepFits source result }
{
    match answer {
        Answer::Gives(value) => Step::Releases(value),
        Answer::Stops(status) => Step::Exits(status),
        Answer::Refuses(cause) => Step::Fails(cause),
    }
}
