//! Ends of full expressions (6.8p4).

ghost use Rattle.std.specs.Prelude.{◌≡◌, List, None, IfOk};
ghost use Rattle.dm_meaning.specs.Operations.{of_value};
ghost use Rattle.dm_meaning.specs.States as states;
ghost use Rattle.dm_meaning.specs.Statements as statements;
ghost use Rattle.dm_meaning.specs.Steps.{turned};
ghost use Rattle.dm_memory.specs.Blocks.{view_of_blocks};
ghost use Rattle.dm_value.specs.Views.{view_of_value};
ghost use Rattle.dm_operate.specs.Evaluations.{view_of_evaluation};
ghost use Rattle.dm_program.specs.Sources.{meant};
ghost use Rattle.dm_frame.specs.Frames.{tasks_of};
ghost use Rattle.dm_frame.specs.Tasks.{view_of_use, UseFits};
ghost use Rattle.dm_state.specs.Fits.{RunningFits};
ghost use Rattle.dm_state.specs.Turns.{state_with, IsLeft};

use crate::running::Running;
use crate::turn::Turn;
use dm_frame::{Use, conclude, designated_value};
use dm_operate::Evaluation;
use dm_program::Program;
use dm_token::{Memory, Place};
use dm_value::Value;
use std::alloc::Global;

impl<'a> Running<'a> {
    /// A full expression, which is no longer under evaluation, has given this, which decides what is left to do. The step is
    /// undefined at the place of the expression where a value can't be told from 0.
    pub fn conclude(
        &mut self,
        alloc: Global,
        program: &Program<'a>,
        place: Place,
        use_of: &Use<'a>,
        given: &Evaluation,
    ) -> Result<Turn, Memory>
        requires none { self.old.full ≡ None }
        requires fits { RunningFits program.now.table self.old }
        requires use_of { UseFits program.now.table use_of.now }
        ensures { (tasks : List states.Task) → IfOk result (λ turn. IsLeft program.now.table turn self.new (turned (state_with program.now.table tasks self.old)
            (statements.concluded (meant program.now) self.old.frame.objects (tasks_of program.now.table self.old.frame) (view_of_blocks program.now.table self.old.blocks) place
            (view_of_use program.now.table use_of.now) (view_of_evaluation given.now)))) }
    {
        match given {
            Evaluation::Value(value) => self.conclude_value(alloc, program, place, use_of, value),
            Evaluation::Object(at) => {
                let value = designated_value(alloc, program.layout(), use_of, at)?;
                self.conclude_value(alloc, program, place, use_of, &value)
            }
        }
    }

    /// The same for a value.
    fn conclude_value(
        &mut self,
        alloc: Global,
        program: &Program<'a>,
        place: Place,
        use_of: &Use<'a>,
        value: &Value,
    ) -> Result<Turn, Memory>
        requires none { self.old.full ≡ None }
        requires fits { RunningFits program.now.table self.old }
        requires use_of { UseFits program.now.table use_of.now }
        ensures { (tasks : List states.Task) → IfOk result (λ turn. IsLeft program.now.table turn self.new (turned (state_with program.now.table tasks self.old)
            (statements.concluded (meant program.now) self.old.frame.objects (tasks_of program.now.table self.old.frame) (view_of_blocks program.now.table self.old.blocks) place
            (view_of_use program.now.table use_of.now) (of_value (view_of_value value.now))))) }
    {
        match conclude(
            alloc,
            program,
            &mut self.frame,
            &mut self.blocks,
            use_of,
            value,
        )? {
            None => Ok(Turn::Went),
            Some(cause) => Ok(Turn::Undefined(cause, place)),
        }
    }
}
