//! Calls (6.5.2.2).

ghost use Rattle.std.specs.Prelude.{◌≡◌, List, None, Some, map, OnOk};
ghost use Rattle.dm_type.specs.Tables.{type_of};
ghost use Rattle.dm_meaning.specs.Choices.{in_order};
ghost use Rattle.dm_meaning.specs.States as states;
ghost use Rattle.dm_meaning.specs.Steps as steps;
ghost use Rattle.dm_memory.specs.Blocks.{view_of_blocks};
ghost use Rattle.dm_value.specs.Views.{view_of_value};
ghost use Rattle.dm_program.specs.Functions.{view_of_function, FunctionFits};
ghost use Rattle.dm_program.specs.Sources.{meant};
ghost use Rattle.dm_frame.specs.Frames.{tasks_of};
ghost use Rattle.dm_frame.specs.Tasks.{view_of_use};
ghost use Rattle.dm_state.specs.Fits.{LacksCall, RunningFits};
ghost use Rattle.dm_state.specs.Turns.{state_with, IsAfter};
ghost use Rattle.dm_state.specs.Views.{hole_in_one};

use crate::full::Ongoing;
use crate::running::{Caller, Running};
use dm_frame::open;
use dm_program::{Function, Program};
use dm_token::Memory;
use dm_type::TypeId;
use dm_value::Value;
use std::alloc::Global;
use std::mem;

impl<'a> Running<'a> {
    /// A function is called by a call of a type. The one that calls waits, with its full expression that lacks the call.
    pub fn call(
        &mut self,
        alloc: Global,
        program: &Program<'a>,
        function: Function<'a>,
        arguments: &[Value],
        kind: TypeId,
        ongoing: Ongoing<'a>,
    ) -> Result<(), Memory>
        requires none { self.old.full ≡ None }
        requires fits { RunningFits program.now.table self.old }
        requires function { FunctionFits program.now function }
        requires lacks { LacksCall program.now.table kind ongoing }
        ensures { let memory = view_of_blocks program.now.table self.old.blocks in OnOk result ((tasks : List states.Task) → IsAfter program.now.table self.new
            (steps.opened (meant program.now) (in_order memory) (state_with program.now.table tasks self.old) (tasks_of program.now.table self.old.frame) ongoing.entry.place
            (view_of_use program.now.table ongoing.entry.use_of) (type_of program.now.table kind) (hole_in_one program.now.table ongoing.entry.expression)
            (map view_of_value arguments.now) (Some (view_of_function program.now.table function.entry)))) }
    {
        let opened = open(alloc, program, &mut self.blocks, function, arguments)?;
        let frame = mem::replace(&mut self.frame, opened);
        let Ongoing {
            place,
            expression,
            use_of,
        } = ongoing;
        self.callers.push(Caller {
            frame,
            place,
            kind,
            expression,
            use_of,
        })?;
        Ok(())
    }
}
