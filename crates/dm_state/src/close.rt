//! The closing brace of a body (5.1.2.2.3, 6.9.1p12).

ghost use Rattle.std.specs.Prelude.{◌≡◌, [], None, IfOk, option_map};
ghost use Rattle.dm_type.specs.Tables.{IsId, type_of};
ghost use Rattle.dm_meaning.specs.Programs as programs;
ghost use Rattle.dm_meaning.specs.Statements.{type_declared};
ghost use Rattle.dm_meaning.specs.Steps as steps;
ghost use Rattle.dm_value.specs.Views.{view_of_value};
ghost use Rattle.dm_program.specs.Sources.{meant};
ghost use Rattle.dm_frame.specs.Frames.{tasks_of};
ghost use Rattle.dm_state.specs.Closing.{closing};
ghost use Rattle.dm_state.specs.Fits.{RunningFits};
ghost use Rattle.dm_state.specs.Turns.{IsLeft};
ghost use Rattle.dm_state.specs.Views.{view_of_running};

use crate::hand_back::is_void;
use crate::running::Running;
use crate::turn::Turn;
use dm_frame::Task;
use dm_int::Kind;
use dm_layout::{Layout, bare};
use dm_meaning::Cause;
use dm_program::Program;
use dm_token::{Memory, Place};
use dm_type::{Shape, TypeId};
use dm_value::{Integer, Value};

impl<'a> Running<'a> {
    /// Control reaches the closing brace of the body of the function that is running.
    pub fn close(&mut self, program: &Program<'a>) -> Result<Turn, Memory>
        requires none { self.old.full ≡ None }
        requires fits { RunningFits program.now.table self.old }
        requires done { tasks_of program.now.table self.old.frame ≡ [] }
        ensures { IfOk result (λ turn. IsLeft program.now.table turn self.new (steps.closed (meant program.now) (view_of_running program.now.table self.old))) }
    {
        match closing_value(program, self.frame.function) {
            Some(value) => {
                self.frame.tasks.push(Task::HandsBack(value))?;
                Ok(Turn::Went)
            }
            None => Ok(Turn::Undefined(Cause::NoValue, body_place(program, self.frame.function))),
        }
    }
}

/// The value that a function gives at its closing brace, if it may come there.
fn closing_value(program: &Program, number: u32) -> Option<Value>
    ensures { option_map view_of_value result ≡ closing (meant program.now) number }
{
    if is_main(program, number) {
        Some(Value::Integer(Integer::new(Kind::Int, 0)))
    } else if gives_nothing(program, number) {
        Some(Value::Unset)
    } else {
        None
    }
}

/// Whether a function is `main`.
fn is_main(program: &Program, number: u32) -> bool
    ensures { result ≡ steps.is_main (programs.declaration_of (meant program.now) number) }
{
    match program.declared(number) {
        Some(entry) => entry.name.bytes() == b"main".as_slice(),
        None => false,
    }
}

/// Whether a function's result is void, const or not.
fn gives_nothing(program: &Program, number: u32) -> bool
    ensures { result ≡ steps.gives_nothing (type_declared (meant program.now) number) }
{
    match program.declared(number) {
        Some(entry) => results_in_void(program.layout(), entry.kind),
        None => false,
    }
}

/// Whether a type is that of functions whose result is void, const or not.
fn results_in_void(layout: &Layout, kind: TypeId) -> bool
    requires { IsId layout.now kind }
    ensures { result ≡ steps.gives_nothing (type_of layout.now kind) }
{
    match layout.types().shape(kind) {
        Shape::Function(result, _) => is_void(layout, bare(layout.types(), *result)),
        _ => false,
    }
}

/// The place of a function's body.
fn body_place(program: &Program, number: u32) -> Place
    ensures { result ≡ steps.body_place (programs.definition_of (meant program.now) number) steps.no_place }
{
    match program.function(number) {
        Some(function) => function.body.place,
        None => Place {
            file: 0,
            byte: 0,
            line: 0,
            column: 0,
        },
    }
}
