//! Ends of frames (6.9.1p12, 5.1.2.2.3).

ghost use Rattle.std.specs.Prelude.{◌≡◌, ◌≤◌, List, length, IfOk, OnOk};
ghost use Rattle.dm_type.specs.Tables.{IsId, Table, type_of};
ghost use Rattle.dm_tree.specs.Scenes as scenes;
ghost use Rattle.dm_meaning.specs.States as states;
ghost use Rattle.dm_meaning.specs.Steps as steps;
ghost use Rattle.dm_value.specs.Views.{view_of_value};
ghost use Rattle.dm_row.specs.Counts.{weight_in};
ghost use Rattle.dm_frame.specs.Frames.{FrameFits};
ghost use Rattle.dm_state.specs.Fits.{CallerFits, FullFits, RunningFits};
ghost use Rattle.dm_state.specs.Turns.{state_with, IsLeft};
ghost use Rattle.dm_state.specs.Views.{frame_with, view_of_caller};

use crate::full::{Full, Ongoing};
use crate::running::{Caller, Running};
use crate::turn::Turn;
use dm_frame::end_objects;
use dm_layout::{Layout, bare};
use dm_meaning::Cause;
use dm_operate::{Evaluation, Operand};
use dm_primitive::byte_in;
use dm_token::Memory;
use dm_type::{Shape, TypeId};
use dm_value::Value;

impl<'a> Running<'a> {
    /// The frame gives a value to the function that called it, or the program ends (5.1.2.2.3).
    pub fn hand_back(&mut self, layout: &Layout, value: Value) -> Result<Turn, Memory>
        requires { RunningFits layout.now self.old }
        ensures { (tasks : List states.Task) → IfOk result (λ turn. let state = state_with layout.now tasks self.old in
            IsLeft layout.now turn self.new (steps.handed_back state (view_of_value value) state.callers)) }
    {
        let Some(caller) = self.callers.pop() else {
            return Ok(Turn::Exited(status_of(&value)));
        };
        if lacks_value(layout, caller.kind, &value) {
            return Ok(Turn::Undefined(Cause::NoValue, caller.place));
        }
        end_objects(&mut self.frame.objects, &mut self.blocks, 0);
        self.resume(caller, value)?;
        Ok(Turn::Went)
    }

    /// The function that called goes on: the value is that of the call.
    fn resume(&mut self, caller: Caller<'a>, value: Value) -> Result<(), Memory>
        requires { weight_in caller.expression.row.0 ≤ length caller.expression.locks.items }
        ensures callers { self.new.callers ≡ self.old.callers }
        ensures statics { self.new.statics ≡ self.old.statics }
        ensures blocks { self.new.blocks ≡ self.old.blocks }
        ensures streams { self.new.streams ≡ self.old.streams }
        ensures frame { (table : Table) → CallerFits table caller.entry → OnOk result (frame_with table self.new.full self.new.frame
            ≡ steps.resumed (view_of_caller table caller.entry) (view_of_value value)) }
        ensures fits { (table : Table) → CallerFits table caller.entry → OnOk result (FrameFits table self.new.frame × FullFits table self.new.full) }
    {
        let Caller {
            frame,
            place,
            kind,
            mut expression,
            use_of,
        } = caller;
        let result = Evaluation::Value(value);
        expression.give(Operand { kind, result }, 0, None)?;
        self.frame = frame;
        self.full = Some(Full::Goes(Ongoing {
            place,
            expression,
            use_of,
        }));
        Ok(())
    }
}

/// The status of a program that ends with a value.
fn status_of(value: &Value) -> u8
    ensures { result ≡ steps.status_of (view_of_value value.now) }
{
    match value {
        Value::Integer(status) => byte_in(status.value()),
        _ => 0,
    }
}

/// Whether a call of a type that isn't void lacks its value (6.9.1p12).
fn lacks_value(layout: &Layout, kind: TypeId, value: &Value) -> bool
    requires { IsId layout.now kind }
    ensures { result ≡ steps.lacks_value (type_of layout.now kind) (view_of_value value.now) }
{
    match value {
        Value::Unset => !is_void(layout, bare(layout.types(), kind)),
        _ => false,
    }
}

/// Whether a type is void.
pub(crate) fn is_void(layout: &Layout, kind: TypeId) -> bool
    requires { IsId layout.now kind }
    ensures { result ≡ scenes.is_void (type_of layout.now kind) }
{
    match layout.types().shape(kind) {
        Shape::Void => true,
        _ => false,
    }
}
