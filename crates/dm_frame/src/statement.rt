//! How statements begin (6.8.2 to 6.8.6).

ghost use Rattle.std.specs.Prelude.{◌≡◌, IfOk, OnOk, None, map};
ghost use Rattle.dm_tree.specs.Trees.{block};
ghost use Rattle.dm_tree.specs.Views.{view};
ghost use Rattle.dm_memory.specs.Blocks.{view_of_blocks, AreKnown};
ghost use Rattle.dm_meaning.specs.Choices.{in_order};
ghost use Rattle.dm_meaning.specs.Statements as statements;
ghost use Rattle.dm_program.specs.Sources.{meant};
ghost use Rattle.dm_frame.specs.Frames.{tasks_of, FrameFits, IsBegun};
ghost use Rattle.dm_frame.specs.Tasks.{tree_or_none, view_of_loop, FitsIfThere, LoopFits, StartFits, TreeFits, TreesFit};

use crate::form::inside;
use crate::frame::Frame;
use crate::label::unlabelled;
use crate::objects::{enter, enter_item};
use crate::task::{Begun, Loop, Task};
use dm_memory::Blocks;
use dm_program::Program;
use dm_token::Memory;
use dm_tree::{Core, Form};
use std::alloc::Global;

/// A statement begins, behind its labels. What is then left to do is put into the frame, but for a full expression, which is
/// given back. After an `Err` the frame isn't to be used.
pub fn begin_statement<'a>(
    alloc: Global,
    program: &Program<'a>,
    frame: &mut Frame<'a>,
    blocks: &mut Blocks,
    tree: &'a Core,
) -> Result<Option<Begun<'a>>, Memory>
    requires frame { FrameFits program.now.table frame.old }
    requires blocks { AreKnown program.now.table blocks.old }
    requires tree { TreeFits program.now.table tree.now }
    ensures function { frame.new.function ≡ frame.old.function }
    ensures left { let before = view_of_blocks program.now.table blocks.old in IfOk result (λ begun. IsBegun program.now.table begun frame.new blocks.new
        (statements.begin_statement (meant program.now) (in_order before) frame.old.objects (tasks_of program.now.table frame.old) before (view program.now.table tree.now))) }
{
    let statement = unlabelled(tree);
    match &statement.form {
        Form::Block(items) => {
            begin_block(alloc, program, frame, blocks, items.items())?;
            Ok(None)
        }
        Form::For(start, condition, after, body) => {
            let repeated = Loop {
                condition: inside(condition),
                after: inside(after),
                body: body.get(),
            };
            let begun = begin_for(alloc, program, frame, blocks, inside(start), repeated)?;
            Ok(begun)
        }
        form => {
            let begun = frame.begin_form(form)?;
            Ok(begun)
        }
    }
}

/// A block begins, and what its items declare (6.8.2).
fn begin_block<'a>(
    alloc: Global,
    program: &Program<'a>,
    frame: &mut Frame<'a>,
    blocks: &mut Blocks,
    items: &'a [Core],
) -> Result<(), Memory>
    requires frame { FrameFits program.now.table frame.old }
    requires blocks { AreKnown program.now.table blocks.old }
    requires items { TreesFit program.now.table items.now }
    ensures function { frame.new.function ≡ frame.old.function }
    ensures left { let before = view_of_blocks program.now.table blocks.old in OnOk result (IsBegun program.now.table None frame.new blocks.new
        (statements.begin_form (meant program.now) (in_order before) frame.old.objects (tasks_of program.now.table frame.old) before block (map (view program.now.table) items.now))) }
{
    frame.ends()?;
    frame.tasks.push(Task::Items(items))?;
    enter(alloc, program, &mut frame.objects, blocks, items)?;
    Ok(())
}

/// A `for` begins, and what its first part declares (6.8.5p5, 6.8.5.3p1).
fn begin_for<'a>(
    alloc: Global,
    program: &Program<'a>,
    frame: &mut Frame<'a>,
    blocks: &mut Blocks,
    start: Option<&'a Core>,
    repeated: Loop<'a>,
) -> Result<Option<Begun<'a>>, Memory>
    requires frame { FrameFits program.now.table frame.old }
    requires blocks { AreKnown program.now.table blocks.old }
    requires start { FitsIfThere (StartFits program.now.table) start }
    requires repeated { LoopFits program.now.table repeated }
    ensures function { frame.new.function ≡ frame.old.function }
    ensures left { let before = view_of_blocks program.now.table blocks.old in IfOk result (λ begun. IsBegun program.now.table begun frame.new blocks.new
        (statements.begin_for (meant program.now) (in_order before) frame.old.objects (tasks_of program.now.table frame.old) before (tree_or_none program.now.table start.entry) (view_of_loop program.now.table repeated.entry))) }
{
    frame.ends()?;
    match start {
        None => {
            frame.tests(repeated)?;
            Ok(None)
        }
        Some(start) => {
            enter_item(alloc, program, &mut frame.objects, blocks, start)?;
            frame.tests(repeated)?;
            let begun = frame.begin_start(start)?;
            Ok(begun)
        }
    }
}
