//! How declarators and initialisers begin (6.7.9).

ghost use Rattle.std.specs.Prelude.{◌≡◌, IfOk, OnOk};
ghost use Rattle.dm_tree.specs.Trees.{in_braces};
ghost use Rattle.dm_tree.specs.Views.{expressions_of_items, items_of, view_of_local};
ghost use Rattle.dm_layout.specs.Kinds.{type_of_object, IsKnownType};
ghost use Rattle.dm_memory.specs.Blocks.{view_of_blocks, AreKnown};
ghost use Rattle.dm_meaning.specs.Memory.{Memory as AllMemory};
ghost use Rattle.dm_meaning.specs.Statements as statements;
ghost use Rattle.dm_meaning.specs.Statements.{onward};
ghost use Rattle.dm_value.specs.Places.{view_of_at};
ghost use Rattle.dm_program.specs.Initials.{view_of_initial};
ghost use Rattle.dm_program.specs.Sources.{meant};
ghost use Rattle.dm_frame.specs.Frames.{tasks_of, FrameFits, IsBegun, IsLeft};
ghost use Rattle.dm_frame.specs.Tasks.{initials_at, InitialFits, InitialsFit, LocalFits};

use crate::frame::Frame;
use crate::objects::automatic;
use crate::task::{Begun, Task, Use};
use dm_first_value::listed_value;
use dm_layout::ObjectType;
use dm_memory::Blocks;
use dm_program::Program;
use dm_token::Memory;
use dm_tree::{Initial, Local};
use dm_value::{At, Name};
use std::alloc::Global;

impl<'a> Frame<'a> {
    /// A declarator begins: an object of automatic storage duration is to get its first value. An object of static storage
    /// duration has had it from the start (6.2.4p3).
    pub fn begin_declarator(
        &mut self,
        program: &Program<'a>,
        local: &'a Local,
    ) -> Result<(), Memory>
        ensures function { self.new.function ≡ self.old.function }
        ensures objects { self.new.objects ≡ self.old.objects }
        ensures left { (memory : AllMemory) → OnOk result (onward self.new.objects (tasks_of program.now.table self.new) memory
            ≡ statements.begin_declarator (meant program.now) self.old.objects (tasks_of program.now.table self.old) memory
            (view_of_local program.now.table local.now).declarator (view_of_local program.now.table local.now).expressions) }
        ensures fits { FrameFits program.now.table self.old → LocalFits program.now.table local.now → OnOk result (FrameFits program.now.table self.new) }
    {
        let Some(kind) = automatic(program, local) else {
            return Ok(());
        };
        let Some(initial) = &local.initial else {
            return Ok(());
        };
        let Some(number) = self.objects.named(local.declared) else {
            return Ok(());
        };
        let at = At::whole(Name::Numbered(number));
        self.tasks
            .push(Task::Initials(at, ObjectType::Known(kind), initial))?;
        Ok(())
    }
}

/// An initialiser begins, of an object or a part of one. An expression is given back. Of a list in braces the parts without
/// an initialiser become 0, and the others stay as they are until they are stored (6.7.9p19, p21); its initialisers are left to
/// do. After an `Err` the frame isn't to be used.
pub fn begin_initialiser<'a>(
    alloc: Global,
    program: &Program<'a>,
    frame: &mut Frame<'a>,
    blocks: &mut Blocks,
    at: At,
    kind: ObjectType,
    initial: &'a Initial,
) -> Result<Option<Begun<'a>>, Memory>
    requires frame { FrameFits program.now.table frame.old }
    requires blocks { AreKnown program.now.table blocks.old }
    requires kind { IsKnownType program.now.table kind }
    requires initial { InitialFits program.now.table initial.now }
    ensures function { frame.new.function ≡ frame.old.function }
    ensures left { let one = view_of_initial program.now.table initial.now in IfOk result (λ begun. IsBegun program.now.table begun frame.new blocks.new
        (statements.begin_initialiser (meant program.now) frame.old.objects (tasks_of program.now.table frame.old) (view_of_blocks program.now.table blocks.old)
        (view_of_at at) (type_of_object program.now.table kind) one.initialiser one.expressions)) }
{
    match initial {
        Initial::Value(tree) => Ok(Some(Begun {
            tree: tree.get(),
            use_of: Use::Initialises(at, kind),
        })),
        Initial::Parts(items) => {
            begin_list(alloc, program, frame, blocks, at, kind, items.items())?;
            Ok(None)
        }
    }
}

/// A list in braces begins.
fn begin_list<'a>(
    alloc: Global,
    program: &Program<'a>,
    frame: &mut Frame<'a>,
    blocks: &mut Blocks,
    at: At,
    kind: ObjectType,
    items: &'a [Initial],
) -> Result<(), Memory>
    requires frame { FrameFits program.now.table frame.old }
    requires blocks { AreKnown program.now.table blocks.old }
    requires kind { IsKnownType program.now.table kind }
    requires items { InitialsFit program.now.table items.now }
    ensures function { frame.new.function ≡ frame.old.function }
    ensures left { let all = initials_at program.now.table items.now in OnOk result (IsLeft program.now.table frame.new blocks.new
        (statements.begin_initialiser (meant program.now) frame.old.objects (tasks_of program.now.table frame.old) (view_of_blocks program.now.table blocks.old)
        (view_of_at at) (type_of_object program.now.table kind) (in_braces (items_of all)) (expressions_of_items all))) }
{
    let before = blocks.contents(alloc, &at)?;
    let value = listed_value(alloc, program.layout(), &kind, items.len(), &before)?;
    blocks.store(alloc, &at, value)?;
    frame.tasks.push(Task::Parts(at, kind, 0, items))?;
    Ok(())
}
