//! Ends of statements, and jumps (6.8.6.2, 6.8.6.3).

ghost use Rattle.std.specs.Prelude.{◌≡◌, ◌≤◌, length, OnOk};
ghost use Rattle.dm_type.specs.Tables.{Table};
ghost use Rattle.dm_memory.specs.Blocks.{view_of_blocks, AreKnown};
ghost use Rattle.dm_meaning.specs.Memory as memory;
ghost use Rattle.dm_meaning.specs.Statements as statements;
ghost use Rattle.dm_frame.specs.Frames.{tasks_of, FrameFits, IsLeft};
ghost use Rattle.dm_frame.specs.Tasks.{kept, TasksFit};

use crate::frame::Frame;
use crate::stack::Stack;
use crate::task::Task;
use dm_memory::Blocks;
use dm_token::Memory;

/// The lifetimes of objects end: only the oldest stay alive, so many of them (6.2.4p2).
pub fn end_objects(objects: &mut Stack<(u32, u64)>, blocks: &mut Blocks, alive: usize)
    ensures objects { objects.new ≡ kept alive objects.old }
    ensures known { (table : Table) → AreKnown table blocks.old → AreKnown table blocks.new }
    ensures blocks { (table : Table) → view_of_blocks table blocks.new
        ≡ memory.killed (statements.named_since (kept alive objects.old) objects.old) (view_of_blocks table blocks.old) }
{
    while let Some((_, number)) = objects.pop_above(alive) {
        blocks.end(number);
    }
}

impl<'a> Frame<'a> {
    /// A statement ends, or the block of a switch: only the objects that were alive before it stay alive.
    pub fn end(&mut self, blocks: &mut Blocks, alive: usize)
        ensures function { self.new.function ≡ self.old.function }
        ensures left { (table : Table) → alive ≤ length self.old.objects → TasksFit table alive self.old.tasks → AreKnown table blocks.old → IsLeft table self.new blocks.new
            (statements.ended (kept alive self.old.objects) self.old.objects (tasks_of table self.old) (view_of_blocks table blocks.old)) }
    {
        end_objects(&mut self.objects, blocks, alive);
    }

    /// Control goes behind the innermost loop or switch (6.8.6.3p2).
    pub fn leave(&mut self, blocks: &mut Blocks) -> Result<(), Memory>
        ensures function { self.new.function ≡ self.old.function }
        ensures left { (table : Table) → FrameFits table self.old → AreKnown table blocks.old → OnOk result (IsLeft table self.new blocks.new
            (statements.after_break self.old.objects (view_of_blocks table blocks.old) (tasks_of table self.old))) }
    {
        while let Some(task) = self.tasks.pop() {
            match task {
                Task::Again(alive, _) => {
                    end_objects(&mut self.objects, blocks, alive);
                    return Ok(());
                }
                Task::EndsSwitch(alive) => {
                    end_objects(&mut self.objects, blocks, alive);
                    self.tasks.push(Task::EndsSwitch(alive))?;
                    return Ok(());
                }
                _ => {}
            }
        }
        Ok(())
    }

    /// Control goes to the end of the body of the innermost loop (6.8.6.2p2).
    pub fn skip(&mut self, blocks: &mut Blocks) -> Result<(), Memory>
        ensures function { self.new.function ≡ self.old.function }
        ensures left { (table : Table) → FrameFits table self.old → AreKnown table blocks.old → OnOk result (IsLeft table self.new blocks.new
            (statements.after_continue self.old.objects (view_of_blocks table blocks.old) (tasks_of table self.old))) }
    {
        while let Some(task) = self.tasks.pop() {
            if let Task::Again(alive, repeated) = task {
                end_objects(&mut self.objects, blocks, alive);
                self.tasks.push(Task::Again(alive, repeated))?;
                return Ok(());
            }
        }
        Ok(())
    }
}
