//! Frames of calls (6.5.2.2, 6.9.1).

ghost use Rattle.std.specs.Prelude.{◌≡◌, ◌∷◌, [], IsSome, map, IfOk, OnOk};
ghost use Rattle.std.specs.List.{AllByRecursion};
ghost use Rattle.dm_type.specs.Tables.{IsId};
ghost use Rattle.dm_memory.specs.Blocks.{view_of_block, view_of_blocks, AreKnown};
ghost use Rattle.dm_meaning.specs.Choices.{in_order};
ghost use Rattle.dm_meaning.specs.Programs as programs;
ghost use Rattle.dm_meaning.specs.Steps as steps;
ghost use Rattle.dm_value.specs.Views.{view_of_value};
ghost use Rattle.dm_program.specs.Functions.{view_of_function, FunctionFits};
ghost use Rattle.dm_program.specs.Sources.{meant};
ghost use Rattle.dm_frame.specs.Calling.{behind_first, first_of, given_block, IsGiven};
ghost use Rattle.dm_frame.specs.Frames.{view_of_frame, FrameFits};

use crate::frame::Frame;
use crate::objects::{enter, make, new_block};
use crate::stack::Stack;
use crate::task::Task;
use dm_memory::{Block, Blocks};
use dm_program::{Function, Program};
use dm_token::Memory;
use dm_value::Value;
use std::alloc::Global;

/// The frame of a call. Its objects are those of the parameters, which have the values of the arguments, and those that the
/// body declares. Where there are fewer arguments than parameters, as in no typed call, the other parameters are unset.
pub fn open<'a>(
    alloc: Global,
    program: &Program<'a>,
    blocks: &mut Blocks,
    function: Function<'a>,
    arguments: &[Value],
) -> Result<Frame<'a>, Memory>
    requires blocks { AreKnown program.now.table blocks.old }
    requires function { FunctionFits program.now function }
    ensures frame { IfOk result (λ frame. view_of_frame program.now.table frame
        ≡ steps.opened_frame (meant program.now) (in_order (view_of_blocks program.now.table blocks.old)) (view_of_function program.now.table function.entry)) }
    ensures memory { let before = view_of_blocks program.now.table blocks.old in OnOk result (view_of_blocks program.now.table blocks.new
        ≡ steps.opened_memory (meant program.now) (in_order before) (view_of_function program.now.table function.entry) (map view_of_value arguments.now) before) }
    ensures known { OnOk result (AreKnown program.now.table blocks.new) }
    ensures fits { IfOk result (FrameFits program.now.table) }
{
    let mut objects = Stack::new(alloc);
    give(
        alloc,
        program,
        &mut objects,
        blocks,
        function.parameters,
        arguments,
    )?;
    enter(alloc, program, &mut objects, blocks, function.items)?;
    let mut tasks = Stack::new(alloc);
    tasks.push(Task::Items(function.items))?;
    Ok(Frame {
        function: function.number,
        objects,
        tasks,
    })
}

/// New objects for parameters, with the values of the arguments.
fn give(
    alloc: Global,
    program: &Program,
    objects: &mut Stack<(u32, u64)>,
    blocks: &mut Blocks,
    parameters: &[u32],
    arguments: &[Value],
) -> Result<(), Memory>
    requires known { AreKnown program.now.table blocks.old }
    requires declared { AllByRecursion (λ d. IsSome (programs.declaration_of (meant program.now) d)) parameters.now }
    ensures { OnOk result (IsGiven (meant program.now) parameters.now (map view_of_value arguments.now) objects.old blocks.old objects.new blocks.new) }
{
    let mut left = parameters;
    let mut values = arguments;
    while let Some((parameter, others)) = left.split_first() {
        let block = parameter_block(alloc, program, *parameter, values)?;
        make(objects, blocks, *parameter, block)?;
        left = others;
        values = others_behind(values);
    }
    Ok(())
}

/// Values without the first.
fn others_behind(values: &[Value]) -> &[Value]
    ensures { map view_of_value result.now ≡ behind_first (map view_of_value values.now) }
{
    match values.split_first() {
        Some((_, others)) => others,
        None => values,
    }
}

/// The object of a parameter, with the first of some values, if there is one.
fn parameter_block(
    alloc: Global,
    program: &Program,
    parameter: u32,
    values: &[Value],
) -> Result<Block, Memory>
    requires { IsSome (programs.declaration_of (meant program.now) parameter) }
    ensures { IfOk result (λ block. (view_of_block program.now.table block ≡ given_block (meant program.now) parameter (first_of (map view_of_value values.now)))
        × IsId program.now.table block.kind) }
{
    let Some(entry) = program.declared(parameter) else {
        unreachable!();
    };
    let mut block = new_block(alloc, program.layout(), entry.kind)?;
    if let Some((value, _)) = values.split_first() {
        block.contents = value.copy()?;
    }
    Ok(block)
}
