//! What is left to do next.

ghost use Rattle.std.specs.Prelude.{◌≡◌, ◌+◌, ◌<◌, ◌≤◌, ◌∷◌, ◌++◌, [], length, map, None, IfOk};
ghost use Rattle.dm_tree.specs.Views.{view, view_of_local};
ghost use Rattle.dm_layout.specs.Kinds.{IsKnownType};
ghost use Rattle.dm_meaning.specs.Statements as statements;
ghost use Rattle.dm_type.specs.Tables.{Table};
ghost use Rattle.dm_frame.specs.Frames.{tasks_of, FrameFits};
ghost use Rattle.dm_frame.specs.Nexts.{view_of_next, NextFits, weight, AreDone};
ghost use Rattle.dm_frame.specs.Tasks.{declares_local, view_of_task, view_of_tasks, InitialsFit, LocalsFit, TasksFit, TreesFit};

use crate::frame::Frame;
use crate::task::{Loop, Task};
use dm_layout::{Layout, ObjectType, bare_kind, inner};
use dm_token::Memory;
use dm_tree::{Core, Form, Initial, Local};
use dm_value::{At, Value};
use std::alloc::Global;

/// One thing that is left to do. A `usize` says how many objects of the frame were alive when a statement began.
#[derive(Drop)]
pub enum Next<'a> {
    /// A statement begins.
    Begins(&'a Core),
    /// A declarator begins.
    Declares(&'a Local),
    /// An initialiser of an object or a part of one begins.
    Initials(At, ObjectType, &'a Initial),
    /// A loop goes on, at what follows its body.
    Again(usize, Loop<'a>),
    /// A loop goes on, at its condition.
    Tests(usize, Loop<'a>),
    /// A statement ends.
    Ends(usize),
    /// The block of a switch ends.
    EndsSwitch(usize),
    /// Control leaves the body of the innermost loop or switch (6.8.6.3).
    Leaves,
    /// Control goes to the end of the body of the innermost loop (6.8.6.2).
    Skips,
    /// The frame ends and gives a value.
    HandsBack(Value),
}

impl<'a> Frame<'a> {
    /// Takes out what is left to do next. None where nothing is left, so that the closing brace of the body comes next.
    pub fn next(&mut self, alloc: Global, layout: &Layout) -> Result<Option<Next<'a>>, Memory>
        requires { FrameFits layout.now self.old }
        ensures objects { self.new.objects ≡ self.old.objects }
        ensures function { self.new.function ≡ self.old.function }
        ensures same { IfOk result (λ next. tasks_of layout.now self.old ≡ view_of_next layout.now self.old.objects next ++ tasks_of layout.now self.new) }
        ensures done { IfOk result (λ next. AreDone next (tasks_of layout.now self.new)) }
        ensures fits { IfOk result (λ next. NextFits layout.now (length self.old.objects) next self.new.tasks) }
    {
        while let Some(task) = self.tasks.pop() {
            let next = self.split(alloc, layout, task)?;
            if next.is_some() {
                return Ok(next);
            }
        }
        Ok(None)
    }

    /// The first of the things for which a task stands, if it stands for any. The others are left to do.
    fn split(
        &mut self,
        alloc: Global,
        layout: &Layout,
        task: Task<'a>,
    ) -> Result<Option<Next<'a>>, Memory>
        requires { TasksFit layout.now (length self.old.objects) (task ∷ self.old.tasks) }
        ensures objects { self.new.objects ≡ self.old.objects }
        ensures function { self.new.function ≡ self.old.function }
        ensures same { IfOk result (λ next. view_of_tasks layout.now self.old.objects (task.entry ∷ self.old.tasks) ≡ view_of_next layout.now self.old.objects next ++ tasks_of layout.now self.new) }
        ensures fits { IfOk result (λ next. NextFits layout.now (length self.old.objects) next self.new.tasks) }
        ensures fewer { IfOk result (λ next. next ≡ None → weight self.new.tasks < weight (task.entry ∷ self.old.tasks)) }
    {
        match task {
            Task::Items(items) => Ok(self.first_item(items)?),
            Task::Begins(tree) => Ok(Some(Next::Begins(tree))),
            Task::Declares(locals) => Ok(self.first_local(locals)?),
            Task::Initials(at, kind, initial) => Ok(Some(Next::Initials(at, kind, initial))),
            Task::Parts(at, kind, number, items) => {
                let next = self.first_part(alloc, layout, (at, kind), number, items)?;
                Ok(next)
            }
            Task::Again(alive, repeated) => Ok(Some(Next::Again(alive, repeated))),
            Task::Tests(alive, repeated) => Ok(Some(Next::Tests(alive, repeated))),
            Task::Ends(alive) => Ok(Some(Next::Ends(alive))),
            Task::EndsSwitch(alive) => Ok(Some(Next::EndsSwitch(alive))),
            Task::Leaves => Ok(Some(Next::Leaves)),
            Task::Skips => Ok(Some(Next::Skips)),
            Task::HandsBack(value) => Ok(Some(Next::HandsBack(value))),
        }
    }

    /// The first item of a block, or the first declarator of a declaration, which takes no step of its own.
    fn first_item(&mut self, items: &'a [Core]) -> Result<Option<Next<'a>>, Memory>
        ensures objects { self.new.objects ≡ self.old.objects }
        ensures function { self.new.function ≡ self.old.function }
        ensures same { (table : Table) → IfOk result (λ next. statements.items_tasks (map (view table) items.now) ++ tasks_of table self.old ≡ view_of_next table self.old.objects next ++ tasks_of table self.new) }
        ensures fits { (table : Table) → FrameFits table self.old → TreesFit table items.now → IfOk result (λ next. NextFits table (length self.old.objects) next self.new.tasks) }
        ensures fewer { IfOk result (λ next. next ≡ None → weight self.new.tasks ≤ length items.now + weight self.old.tasks) }
    {
        let Some((first, rest)) = items.split_first() else {
            return Ok(None);
        };
        self.tasks.push(Task::Items(rest))?;
        match &first.form {
            Form::Declare(_, locals) => Ok(self.first_local(locals.items())?),
            _ => Ok(Some(Next::Begins(first))),
        }
    }

    /// The first of some declarators.
    fn first_local(&mut self, locals: &'a [Local]) -> Result<Option<Next<'a>>, Memory>
        ensures objects { self.new.objects ≡ self.old.objects }
        ensures function { self.new.function ≡ self.old.function }
        ensures same { (table : Table) → IfOk result (λ next. map declares_local (map (view_of_local table) locals.now) ++ tasks_of table self.old ≡ view_of_next table self.old.objects next ++ tasks_of table self.new) }
        ensures fits { (table : Table) → FrameFits table self.old → LocalsFit table locals.now → IfOk result (λ next. NextFits table (length self.old.objects) next self.new.tasks) }
        ensures fewer { IfOk result (λ next. next ≡ None → weight self.new.tasks ≤ weight self.old.tasks) }
    {
        let Some((first, rest)) = locals.split_first() else {
            return Ok(None);
        };
        self.tasks.push(Task::Declares(rest))?;
        Ok(Some(Next::Declares(first)))
    }

    /// The first of the initialisers in braces, for the part of a number.
    fn first_part(
        &mut self,
        alloc: Global,
        layout: &Layout,
        whole: (At, ObjectType),
        number: u32,
        items: &'a [Initial],
    ) -> Result<Option<Next<'a>>, Memory>
        requires { IsKnownType layout.now whole.1 }
        ensures objects { self.new.objects ≡ self.old.objects }
        ensures function { self.new.function ≡ self.old.function }
        ensures same { IfOk result (λ next. view_of_task layout.now self.old.objects (Task.Parts whole.0 whole.1 number items.entry) ++ tasks_of layout.now self.old
            ≡ view_of_next layout.now self.old.objects next ++ tasks_of layout.now self.new) }
        ensures fits { FrameFits layout.now self.old → InitialsFit layout.now items.now → IfOk result (λ next. NextFits layout.now (length self.old.objects) next self.new.tasks) }
        ensures fewer { IfOk result (λ next. next ≡ None → weight self.new.tasks ≤ weight self.old.tasks) }
    {
        let Some((first, rest)) = items.split_first() else {
            return Ok(None);
        };
        let (at, kind) = whole;
        let part = at.part(alloc, number)?;
        let part_kind = inner(layout, &bare_kind(layout, &kind), number);
        let later = number.checked_add(1).ok_or(Memory)?;
        self.tasks.push(Task::Parts(at, kind, later, rest))?;
        Ok(Some(Next::Initials(part, part_kind, first)))
    }
}
