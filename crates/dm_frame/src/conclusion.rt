//! Ends of full expressions (6.8p4).

ghost use Rattle.std.specs.Prelude.{◌≡◌, IfOk};
ghost use Rattle.dm_token.specs.declared.place.Place.{Place};
ghost use Rattle.dm_memory.specs.Blocks.{view_of_blocks, AreKnown};
ghost use Rattle.dm_first_value.specs.Texts.{characters_in};
ghost use Rattle.dm_meaning.specs.Operations.{of_value};
ghost use Rattle.dm_meaning.specs.Statements as statements;
ghost use Rattle.dm_value.specs.Places.{view_of_at, view_of_name};
ghost use Rattle.dm_value.specs.Views.{view_of_value};
ghost use Rattle.dm_program.specs.Sources.{meant};
ghost use Rattle.dm_frame.specs.Frames.{tasks_of, FrameFits};
ghost use Rattle.dm_frame.specs.Conclusions.{value_for, IsConcluded};
ghost use Rattle.dm_frame.specs.Tasks.{view_of_use, UseFits};

use crate::frame::Frame;
use crate::switching::selected;
use crate::task::{Task, Use};
use dm_first_value::text_array;
use dm_layout::Layout;
use dm_meaning::Cause;
use dm_memory::{Blocks, truth};
use dm_program::Program;
use dm_token::Memory;
use dm_value::{At, Name, Value};
use std::alloc::Global;

/// A full expression has given a value, which decides what is left to do in its frame. If the step is undefined its cause is
/// given, and nothing is changed.
pub fn conclude<'a>(
    alloc: Global,
    program: &Program<'a>,
    frame: &mut Frame<'a>,
    blocks: &mut Blocks,
    use_of: &Use<'a>,
    value: &Value,
) -> Result<Option<Cause>, Memory>
    requires frame { FrameFits program.now.table frame.old }
    requires blocks { AreKnown program.now.table blocks.old }
    requires use_of { UseFits program.now.table use_of.now }
    ensures function { frame.new.function ≡ frame.old.function }
    ensures left { IfOk result (λ refused. (place : Place) → IsConcluded program.now.table place refused frame.old frame.new blocks.old blocks.new
        (statements.concluded (meant program.now) frame.old.objects (tasks_of program.now.table frame.old) (view_of_blocks program.now.table blocks.old) place
        (view_of_use program.now.table use_of.now) (of_value (view_of_value value.now)))) }
{
    match use_of {
        Use::Drops => Ok(None),
        Use::Chooses(first, second) => match truth(blocks, value) {
            Ok(true) => {
                frame.tasks.push(Task::Begins(first))?;
                Ok(None)
            }
            Ok(false) => {
                if let Some(second) = second {
                    frame.tasks.push(Task::Begins(second))?;
                }
                Ok(None)
            }
            Err(cause) => Ok(Some(cause)),
        },
        Use::Selects(items) => {
            frame
                .tasks
                .push(Task::Items(selected(program, value, items)))?;
            Ok(None)
        }
        Use::Repeats(repeated) => match truth(blocks, value) {
            Ok(true) => {
                let alive = frame.objects.len();
                frame.tasks.push(Task::Again(alive, *repeated))?;
                frame.tasks.push(Task::Begins(repeated.body))?;
                Ok(None)
            }
            Ok(false) => Ok(None),
            Err(cause) => Ok(Some(cause)),
        },
        Use::Continues(repeated) => {
            frame.tests(*repeated)?;
            Ok(None)
        }
        Use::Returns => {
            frame.tasks.clear();
            frame.tasks.push(Task::HandsBack(value.copy()?))?;
            Ok(None)
        }
        Use::Initialises(at, _) => {
            blocks.store(alloc, at, value.copy()?)?;
            Ok(None)
        }
    }
}

/// The value that counts where a full expression designates an object: the array of a string literal where it initialises
/// another (6.7.9p14), else none.
pub fn designated_value(
    alloc: Global,
    layout: &Layout,
    use_of: &Use,
    at: &At,
) -> Result<Value, Memory>
    requires { UseFits layout.now use_of.now }
    ensures { IfOk result (λ value. view_of_value value ≡ value_for (view_of_use layout.now use_of.now) (view_of_at at.now)) }
{
    match use_of {
        Use::Initialises(_, kind) => text_array(alloc, layout, kind, literal_bytes(&at.name)),
        _ => Ok(Value::Unset),
    }
}

/// The bytes of a string literal, if an object is one.
fn literal_bytes(name: &Name) -> Option<&[u8]>
    ensures { characters_in result ≡ statements.characters_at (view_of_name name.now) }
{
    match name {
        Name::Literal(bytes, _) => Some(bytes.bytes()),
        Name::Numbered(_) | Name::Elsewhere(_) => None,
    }
}
