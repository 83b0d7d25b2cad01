//! Loops that go on without a step (6.8.5).

ghost use Rattle.std.specs.Prelude.{◌≡◌, ◌≤◌, ◌∷◌, None, Some, length, IfOk};
ghost use Rattle.dm_type.specs.Tables.{Table};
ghost use Rattle.dm_meaning.specs.Statements as statements;
ghost use Rattle.dm_frame.specs.Frames.{tasks_of};
ghost use Rattle.dm_frame.specs.Nexts.{next_task, NextFits};
ghost use Rattle.dm_frame.specs.Tasks.{kept, view_of_loop, LoopFits, TasksFit};
ghost use Rattle.dm_state.specs.Unfolding.{left_of, LeftFits};

use crate::full::Full;
use crate::running::Running;
use dm_frame::{Begun, Loop, Next, Task, Use};
use dm_token::Memory;

impl<'a> Running<'a> {
    /// A thing that was taken out, if it takes a step of its own. Of a loop the expression that comes next is then under
    /// evaluation, or its body is given.
    pub fn unfold(&mut self, next: Next<'a>) -> Result<Option<Next<'a>>, Memory>
        requires none { self.old.full ≡ None }
        ensures function { self.new.frame.function ≡ self.old.frame.function }
        ensures objects { self.new.frame.objects ≡ self.old.frame.objects }
        ensures callers { self.new.callers ≡ self.old.callers }
        ensures statics { self.new.statics ≡ self.old.statics }
        ensures blocks { self.new.blocks ≡ self.old.blocks }
        ensures streams { self.new.streams ≡ self.old.streams }
        ensures same { (table : Table) → IfOk result (λ left. statements.unfolded (next_task table self.old.frame.objects next.entry ∷ tasks_of table self.old.frame) ≡ left_of table left self.new) }
        ensures fits { (table : Table) → NextFits table (length self.old.frame.objects) (Some next.entry) self.old.frame.tasks → IfOk result (λ left. LeftFits table left self.new) }
    {
        match next {
            Next::Tests(alive, repeated) => {
                let left = self.test(alive, repeated)?;
                Ok(left)
            }
            Next::Again(alive, repeated) => match repeated.after {
                Some(tree) => {
                    self.full = Some(Full::Begins(Begun {
                        tree,
                        use_of: Use::Continues(repeated),
                    }));
                    Ok(None)
                }
                None => {
                    let left = self.test(alive, repeated)?;
                    Ok(left)
                }
            },
            other => Ok(Some(other)),
        }
    }

    /// A loop goes on at its condition, which may be left out.
    fn test(&mut self, alive: usize, repeated: Loop<'a>) -> Result<Option<Next<'a>>, Memory>
        requires none { self.old.full ≡ None }
        ensures function { self.new.frame.function ≡ self.old.frame.function }
        ensures objects { self.new.frame.objects ≡ self.old.frame.objects }
        ensures callers { self.new.callers ≡ self.old.callers }
        ensures statics { self.new.statics ≡ self.old.statics }
        ensures blocks { self.new.blocks ≡ self.old.blocks }
        ensures streams { self.new.streams ≡ self.old.streams }
        ensures same { (table : Table) → IfOk result (λ left. statements.tested (kept alive self.old.frame.objects) (view_of_loop table repeated.entry) (tasks_of table self.old.frame)
            (view_of_loop table repeated.entry).condition ≡ left_of table left self.new) }
        ensures fits { (table : Table) → alive ≤ length self.old.frame.objects → LoopFits table repeated.entry → TasksFit table alive self.old.frame.tasks
            → IfOk result (λ left. LeftFits table left self.new) }
    {
        match repeated.condition {
            Some(tree) => {
                self.full = Some(Full::Begins(Begun {
                    tree,
                    use_of: Use::Repeats(repeated),
                }));
                Ok(None)
            }
            None => {
                self.frame.tasks.push(Task::Again(alive, repeated))?;
                Ok(Some(Next::Begins(repeated.body)))
            }
        }
    }
}
