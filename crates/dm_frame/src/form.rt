//! How statements begin that make no objects.

ghost use Rattle.std.specs.Prelude.{◌≡◌, ◌∷◌, [], ◌++◌, length, IfOk, OnOk, None, Some, option_map};
ghost use Rattle.dm_type.specs.Tables.{Table};
ghost use Rattle.dm_tree.specs.Trees.{listed, trees};
ghost use Rattle.dm_tree.specs.Views.{opened_form, view};
ghost use Rattle.dm_meaning.specs.Memory.{Memory as AllMemory};
ghost use Rattle.dm_meaning.specs.Operations.{Objects};
ghost use Rattle.dm_meaning.specs.States as states;
ghost use Rattle.dm_meaning.specs.Statements as statements;
ghost use Rattle.dm_meaning.specs.Statements.{onward};
ghost use Rattle.dm_frame.specs.Forms.{FormFits, IsBegunForm, IsInside, IsPlain};
ghost use Rattle.dm_frame.specs.Frames.{tasks_of, FrameFits};
ghost use Rattle.dm_frame.specs.Tasks.{tree_or_none, view_of_begun, BegunFits, ExpressionFits, FitsIfThere, LoopFits, StartFits, TreeFits};

use crate::frame::Frame;
use crate::task::{Begun, Loop, Task, Use};
use dm_token::{Boxed, Memory};
use dm_tree::{Core, Form};
use dm_value::Value;

/// A part of a form that may be left out.
pub(crate) fn inside(tree: &Option<Boxed<Core>>) -> Option<&Core>
    ensures inside { IsInside tree.now result }
    ensures same { (table : Table) → tree_or_none table result ≡ option_map (view table) tree.now }
{
    match tree {
        Some(tree) => Some(tree.get()),
        None => None,
    }
}

impl<'a> Frame<'a> {
    /// A statement is to end behind what is put in front of this: only the objects that are alive now stay so.
    pub(crate) fn ends(&mut self) -> Result<(), Memory>
        ensures function { self.new.function ≡ self.old.function }
        ensures objects { self.new.objects ≡ self.old.objects }
        ensures tasks { OnOk result (self.new.tasks ≡ Task.Ends (length self.old.objects) ∷ self.old.tasks) }
    {
        let alive = self.objects.len();
        self.tasks.push(Task::Ends(alive))?;
        Ok(())
    }

    /// A loop is to go on at its condition.
    pub(crate) fn tests(&mut self, repeated: Loop<'a>) -> Result<(), Memory>
        ensures function { self.new.function ≡ self.old.function }
        ensures objects { self.new.objects ≡ self.old.objects }
        ensures tasks { OnOk result (self.new.tasks ≡ Task.Tests (length self.old.objects) repeated.entry ∷ self.old.tasks) }
    {
        let alive = self.objects.len();
        self.tasks.push(Task::Tests(alive, repeated))?;
        Ok(())
    }

    /// A statement of this form begins, which is no block and no `for`.
    pub(crate) fn begin_form(&mut self, form: &'a Form) -> Result<Option<Begun<'a>>, Memory>
        requires plain { IsPlain form.now }
        ensures function { self.new.function ≡ self.old.function }
        ensures objects { self.new.objects ≡ self.old.objects }
        ensures same { (table : Table) → IfOk result (λ begun. IsBegunForm table (opened_form table form.now) self.old begun self.new) }
        ensures fits { (table : Table) → FrameFits table self.old → FormFits table form.now → IfOk result (λ begun. FrameFits table self.new × BegunFits table begun) }
    {
        match form {
            Form::Full(tree) => {
                self.ends()?;
                Ok(begun(tree.get(), Use::Drops))
            }
            Form::If(condition, first, second) => {
                self.ends()?;
                let other = inside(second);
                let chosen = first.get();
                Ok(begun(condition.get(), Use::Chooses(chosen, other)))
            }
            Form::Switch(operand, items) => {
                let alive = self.objects.len();
                self.tasks.push(Task::EndsSwitch(alive))?;
                Ok(begun(operand.get(), Use::Selects(items.items())))
            }
            Form::While(condition, body) => {
                self.ends()?;
                self.tests(Loop {
                    condition: Some(condition.get()),
                    after: None,
                    body: body.get(),
                })?;
                Ok(None)
            }
            Form::Do(body, condition) => {
                self.begin_do(body.get(), condition.get())?;
                Ok(None)
            }
            Form::Break => {
                self.tasks.push(Task::Leaves)?;
                Ok(None)
            }
            Form::Continue => {
                self.tasks.push(Task::Skips)?;
                Ok(None)
            }
            Form::Return(value) => {
                let begun = self.begin_return(inside(value))?;
                Ok(begun)
            }
            _ => {
                self.ends()?;
                Ok(None)
            }
        }
    }

    /// The first part of a `for` begins: a declaration or an expression.
    pub(crate) fn begin_start(&mut self, start: &'a Core) -> Result<Option<Begun<'a>>, Memory>
        ensures function { self.new.function ≡ self.old.function }
        ensures objects { self.new.objects ≡ self.old.objects }
        ensures same { (table : Table) → IfOk result (λ begun. view_of_begun table begun ++ tasks_of table self.new ≡ statements.start_tasks (Some (view table start.now)) ++ tasks_of table self.old) }
        ensures fits { (table : Table) → FrameFits table self.old → StartFits table start.now → IfOk result (λ begun. FrameFits table self.new × BegunFits table begun) }
    {
        match &start.form {
            Form::Declare(_, locals) => {
                self.tasks.push(Task::Declares(locals.items()))?;
                Ok(None)
            }
            _ => Ok(begun(start, Use::Drops)),
        }
    }

    /// A `do` begins with its body.
    fn begin_do(&mut self, body: &'a Core, condition: &'a Core) -> Result<(), Memory>
        ensures function { self.new.function ≡ self.old.function }
        ensures objects { self.new.objects ≡ self.old.objects }
        ensures same { (table : Table) → OnOk result (tasks_of table self.new ≡ states.begins (view table body.now)
            ∷ states.again self.old.objects (statements.loop_with (Some (view table condition.now)) None (view table body.now)) ∷ states.ends self.old.objects ∷ tasks_of table self.old) }
        ensures fits { (table : Table) → FrameFits table self.old → TreeFits table body.now → ExpressionFits table condition.now → OnOk result (FrameFits table self.new) }
    {
        self.ends()?;
        let alive = self.objects.len();
        let repeated = Loop {
            condition: Some(condition),
            after: None,
            body,
        };
        self.tasks.push(Task::Again(alive, repeated))?;
        self.tasks.push(Task::Begins(body))?;
        Ok(())
    }

    /// `return` leaves nothing else to do in the frame (6.8.6.4).
    fn begin_return(&mut self, value: Option<&'a Core>) -> Result<Option<Begun<'a>>, Memory>
        ensures function { self.new.function ≡ self.old.function }
        ensures objects { self.new.objects ≡ self.old.objects }
        ensures same { (table : Table) → IfOk result (λ begun. (objects : Objects) (memory : AllMemory) →
            onward objects (view_of_begun table begun ++ tasks_of table self.new) memory ≡ statements.returning objects memory (tree_or_none table value.entry)) }
        ensures fits { (table : Table) → FitsIfThere (ExpressionFits table) value.entry → IfOk result (λ begun. FrameFits table self.new × BegunFits table begun) }
    {
        self.tasks.clear();
        match value {
            Some(tree) => Ok(begun(tree, Use::Returns)),
            None => {
                self.tasks.push(Task::HandsBack(Value::Unset))?;
                Ok(None)
            }
        }
    }
}

/// A full expression begins.
pub(crate) fn begun<'a>(tree: &'a Core, use_of: Use<'a>) -> Option<Begun<'a>>
    ensures { result ≡ Some (record { tree = tree.entry; use_of = use_of.entry }) }
{
    Some(Begun { tree, use_of })
}
