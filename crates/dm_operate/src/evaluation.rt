//! What evaluating an expression gives (6.5p1), and what the step of a node does.

ghost use Rattle.std.specs.Prelude.{◌≡◌, [], None, Some, IfOk, IfSome, MatchOption};
ghost use Rattle.dm_type.specs.Tables.{IsId, Table};
ghost use Rattle.dm_meaning.specs.Operations as operations;
ghost use Rattle.dm_meaning.specs.Operations.{World};
ghost use Rattle.dm_meaning.specs.Values as values;
ghost use Rattle.dm_value.specs.Places.{view_of_at};
ghost use Rattle.dm_value.specs.Views.{view_of_value};
ghost use Rattle.dm_operate.specs.Evaluations.{view_of_did, view_of_evaluation, view_of_operand, view_of_operands, AreKnownOperands};

use dm_meaning::Cause;
use dm_token::Memory;
use dm_type::TypeId;
use dm_value::{At, Value};

/// What evaluating an expression gives.
#[derive(Drop)]
pub enum Evaluation {
    Value(Value),
    /// The object, or part of one, that an lvalue designates (6.3.2.1p1).
    Object(At),
}

/// An operand that is evaluated: its type, and what that gave.
#[derive(Drop)]
pub struct Operand {
    pub kind: TypeId,
    pub result: Evaluation,
}

/// The operands of a node that may be evaluated, from the left.
#[derive(Clone, Copy)]
pub enum Operands<'a> {
    None,
    One(&'a Operand),
    Two(&'a Operand, &'a Operand),
}

/// What the step of a node does.
#[derive(Drop)]
pub enum Did {
    /// It gives a result, and locks the place that it has written, if it has.
    Gives(Evaluation, Option<At>),
    /// It is undefined.
    Breaks(Cause),
}

impl Did {
    /// It gives a value, and writes nothing.
    pub(crate) fn plain(value: Value) -> Did
        ensures { (world : World) → view_of_did world result ≡ operations.plain world (view_of_value value) }
    {
        Did::Gives(Evaluation::Value(value), None)
    }

    /// It designates an object.
    pub(crate) fn object(at: At) -> Did
        ensures { (world : World) → view_of_did world result ≡ operations.gives world (operations.designates (view_of_at at)) [] }
    {
        Did::Gives(Evaluation::Object(at), None)
    }

    /// What no typed tree comes to.
    pub(crate) fn ill() -> Did
        ensures { (world : World) → view_of_did world result ≡ operations.ill }
    {
        Did::Breaks(Cause::OtherType)
    }

    /// What is undefined where there is a cause.
    pub(crate) fn unless(cause: Option<Cause>, did: Did) -> Did
        ensures { (world : World) → view_of_did world result ≡ operations.decided cause (view_of_did world did) }
    {
        match cause {
            Some(cause) => Did::Breaks(cause),
            None => did,
        }
    }
}

impl Evaluation {
    /// The same evaluation. It fails only where a counter of owners is full.
    pub fn copy(&self) -> Result<Evaluation, Memory>
        ensures { IfOk result (λ evaluation. view_of_evaluation evaluation ≡ view_of_evaluation self.now) }
    {
        match self {
            Evaluation::Value(value) => Ok(Evaluation::Value(value.copy()?)),
            Evaluation::Object(at) => Ok(Evaluation::Object(at.copy()?)),
        }
    }

    /// The value that was set, if it is one.
    pub(crate) fn set(&self) -> Option<&Value>
        ensures { (next : values.Value → operations.Did) → MatchOption result (operations.on_set (view_of_evaluation self.now) next ≡ operations.ill)
            (λ value. operations.on_set (view_of_evaluation self.now) next ≡ next (view_of_value value.now)) }
    {
        match self {
            Evaluation::Value(Value::Unset) | Evaluation::Object(_) => None,
            Evaluation::Value(value) => Some(value),
        }
    }
}

impl<'a> Operands<'a> {
    /// The operand, where there is one.
    pub(crate) fn one(self) -> Option<&'a Operand>
        ensures given { (table : Table) (next : operations.Operand → operations.Did) → MatchOption result (operations.on_one (view_of_operands table self.entry) next ≡ operations.ill)
            (λ a. operations.on_one (view_of_operands table self.entry) next ≡ next (view_of_operand table a.now)) }
        ensures known { (table : Table) → AreKnownOperands table self.entry → IfSome result (λ a. IsId table a.now.kind) }
    {
        match self {
            Operands::One(a) => Some(a),
            Operands::None | Operands::Two(_, _) => None,
        }
    }

    /// The value of the operand, where there is one and it is a value.
    pub(crate) fn value(self) -> Option<&'a Value>
        ensures { (table : Table) (next : values.Value → operations.Did)
            → MatchOption result (operations.on_one (view_of_operands table self.entry) (λ a. operations.on_value a.result next) ≡ operations.ill)
            (λ value. operations.on_one (view_of_operands table self.entry) (λ a. operations.on_value a.result next) ≡ next (view_of_value value.now)) }
    {
        match self {
            Operands::One(
                Operand {
                    kind: _,
                    result: Evaluation::Value(value),
                },
            ) => Some(value),
            _ => None,
        }
    }

    /// What the operand designates, where there is one and it is an lvalue.
    pub(crate) fn place(self) -> Option<&'a At>
        ensures { (table : Table) (next : values.At → operations.Did)
            → MatchOption result (operations.on_one (view_of_operands table self.entry) (λ a. operations.on_place a.result next) ≡ operations.ill)
            (λ at. operations.on_one (view_of_operands table self.entry) (λ a. operations.on_place a.result next) ≡ next (view_of_at at.now)) }
    {
        match self {
            Operands::One(
                Operand {
                    kind: _,
                    result: Evaluation::Object(at),
                },
            ) => Some(at),
            _ => None,
        }
    }

    /// The operands, where there are two.
    pub(crate) fn two(self) -> Option<(&'a Operand, &'a Operand)>
        ensures given { (table : Table) (next : operations.Operand → operations.Operand → operations.Did)
            → MatchOption result (operations.on_two (view_of_operands table self.entry) next ≡ operations.ill)
            (λ both. operations.on_two (view_of_operands table self.entry) next ≡ next (view_of_operand table both.0.now) (view_of_operand table both.1.now)) }
        ensures known { (table : Table) → AreKnownOperands table self.entry → IfSome result (λ both. IsId table both.0.now.kind × IsId table both.1.now.kind) }
    {
        match self {
            Operands::Two(a, b) => Some((a, b)),
            Operands::None | Operands::One(_) => None,
        }
    }
}
