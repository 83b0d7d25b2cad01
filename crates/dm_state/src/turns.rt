//! Steps in a frame, where no full expression is under evaluation (6.8).

ghost use Rattle.std.specs.Prelude.{◌≡◌, ◌≤◌, ◌++◌, ◌∷◌, ℕ, List, None, length, IfOk, OnOk};
ghost use Rattle.dm_type.specs.Tables.{Table};
ghost use Rattle.dm_tree.specs.Views.{view, view_of_local};
ghost use Rattle.dm_layout.specs.Kinds.{type_of_object, IsKnownType};
ghost use Rattle.dm_meaning.specs.Choices.{in_order};
ghost use Rattle.dm_meaning.specs.States as states;
ghost use Rattle.dm_meaning.specs.Statements as statements;
ghost use Rattle.dm_meaning.specs.Steps.{turned};
ghost use Rattle.dm_memory.specs.Blocks.{view_of_blocks, AreKnown};
ghost use Rattle.dm_value.specs.Places.{view_of_at};
ghost use Rattle.dm_program.specs.Initials.{view_of_initial};
ghost use Rattle.dm_program.specs.Sources.{meant};
ghost use Rattle.dm_frame.specs.declared.frame.Frame.{Frame as AnyFrame};
ghost use Rattle.dm_frame.specs.Frames.{tasks_of, FrameFits};
ghost use Rattle.dm_frame.specs.Tasks.{kept, view_of_begun, BegunFits, InitialFits, LocalFits, TasksFit, TreeFits};
ghost use Rattle.dm_state.specs.Fits.{FullFits, CallersFit, RunningFits};
ghost use Rattle.dm_state.specs.Turns.{state_with, IsAfter};
ghost use Rattle.dm_state.specs.Views.{tasks_with};

use crate::full::Full;
use crate::running::Running;
use dm_frame::{Begun, begin_initialiser, begin_statement};
use dm_layout::ObjectType;
use dm_program::Program;
use dm_token::Memory;
use dm_tree::{Core, Initial, Local};
use dm_value::At;
use std::alloc::Global;

/// What begins is under evaluation.
fn full_of<'a>(begun: Option<Begun<'a>>) -> Option<Full<'a>>
    ensures same { (table : Table) (frame : AnyFrame) → tasks_with table result frame ≡ view_of_begun table begun.entry ++ tasks_of table frame }
    ensures fits { (table : Table) → BegunFits table begun.entry → FullFits table result }
{
    match begun {
        Some(begun) => Some(Full::Begins(begun)),
        None => None,
    }
}

impl<'a> Running<'a> {
    /// A statement begins.
    pub fn begin(
        &mut self,
        alloc: Global,
        program: &Program<'a>,
        tree: &'a Core,
    ) -> Result<(), Memory>
        requires { RunningFits program.now.table self.old × TreeFits program.now.table tree.now }
        ensures { OnOk result ((tasks : List states.Task) → IsAfter program.now.table self.new (turned (state_with program.now.table tasks self.old)
            (statements.begin_statement (meant program.now) (in_order (view_of_blocks program.now.table self.old.blocks)) self.old.frame.objects
            (tasks_of program.now.table self.old.frame) (view_of_blocks program.now.table self.old.blocks) (view program.now.table tree.now)))) }
    {
        let begun = begin_statement(alloc, program, &mut self.frame, &mut self.blocks, tree)?;
        self.full = full_of(begun);
        Ok(())
    }

    /// A declarator begins.
    pub fn declare(&mut self, program: &Program<'a>, local: &'a Local) -> Result<(), Memory>
        requires none { self.old.full ≡ None }
        requires fits { RunningFits program.now.table self.old × LocalFits program.now.table local.now }
        ensures { OnOk result ((tasks : List states.Task) → IsAfter program.now.table self.new (turned (state_with program.now.table tasks self.old)
            (statements.begin_declarator (meant program.now) self.old.frame.objects (tasks_of program.now.table self.old.frame) (view_of_blocks program.now.table self.old.blocks)
            (view_of_local program.now.table local.now).declarator (view_of_local program.now.table local.now).expressions))) }
    {
        self.frame.begin_declarator(program, local)?;
        Ok(())
    }

    /// An initialiser begins, of an object or a part of one.
    pub fn initialise(
        &mut self,
        alloc: Global,
        program: &Program<'a>,
        at: At,
        kind: ObjectType,
        initial: &'a Initial,
    ) -> Result<(), Memory>
        requires none { self.old.full ≡ None }
        requires fits { RunningFits program.now.table self.old × IsKnownType program.now.table kind × InitialFits program.now.table initial.now }
        ensures { let one = view_of_initial program.now.table initial.now in OnOk result ((tasks : List states.Task) → IsAfter program.now.table self.new (turned (state_with program.now.table tasks self.old)
            (statements.begin_initialiser (meant program.now) self.old.frame.objects (tasks_of program.now.table self.old.frame) (view_of_blocks program.now.table self.old.blocks)
            (view_of_at at) (type_of_object program.now.table kind) one.initialiser one.expressions))) }
    {
        let started = begin_initialiser(
            alloc,
            program,
            &mut self.frame,
            &mut self.blocks,
            at,
            kind,
            initial,
        )?;
        self.full = full_of(started);
        Ok(())
    }

    /// A statement ends, or the block of a switch: only the objects that were alive before it stay alive, so many of them.
    pub fn end(&mut self, alive: usize)
        requires none { self.old.full ≡ None }
        ensures { (table : Table) (tasks : List states.Task) → alive ≤ length self.old.frame.objects → TasksFit table alive self.old.frame.tasks
            → AreKnown table self.old.blocks → CallersFit table self.old.callers → IsAfter table self.new (turned (state_with table tasks self.old)
            (statements.ended (kept alive self.old.frame.objects) self.old.frame.objects (tasks_of table self.old.frame) (view_of_blocks table self.old.blocks))) }
    {
        self.frame.end(&mut self.blocks, alive);
    }

    /// Control goes behind the innermost loop or switch (6.8.6.3p2).
    pub fn leave(&mut self) -> Result<(), Memory>
        requires none { self.old.full ≡ None }
        ensures { (table : Table) (tasks : List states.Task) → RunningFits table self.old → OnOk result (IsAfter table self.new (turned (state_with table tasks self.old)
            (statements.after_break self.old.frame.objects (view_of_blocks table self.old.blocks) (tasks_of table self.old.frame)))) }
    {
        self.frame.leave(&mut self.blocks)?;
        Ok(())
    }

    /// Control goes to the end of the body of the innermost loop (6.8.6.2p2).
    pub fn skip(&mut self) -> Result<(), Memory>
        requires none { self.old.full ≡ None }
        ensures { (table : Table) (tasks : List states.Task) → RunningFits table self.old → OnOk result (IsAfter table self.new (turned (state_with table tasks self.old)
            (statements.after_continue self.old.frame.objects (view_of_blocks table self.old.blocks) (tasks_of table self.old.frame)))) }
    {
        self.frame.skip(&mut self.blocks)?;
        Ok(())
    }
}
