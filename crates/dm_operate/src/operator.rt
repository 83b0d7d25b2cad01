//! The operator of a node, whatever its operands are.

ghost use Rattle.std.specs.Prelude.{length, IfOk, IsTrue};
ghost use Rattle.dm_tree.specs.TypeNumbers.{are_known_in_form};
ghost use Rattle.dm_tree.specs.Views.{opened_form};
ghost use Rattle.dm_operate.specs.Operators.{Stands, IsKnownOperator};

use dm_int::Op;
use dm_token::{Memory, Text};
use dm_tree::{Form, Sign};
use dm_type::{TypeId, Types};

/// What a node does with its operands.
#[derive(Drop)]
pub enum Operator {
    Leaf(Leaf),
    Convert,
    Decay,
    Member(u32),
    Value(OnValue),
    Place(OnPlace),
    Binary(Op),
    Store,
    Update(Op, TypeId),
    /// What has no such step: names, and the forms that don't evaluate all their operands or are no expressions.
    Other,
}

/// The operators without operands.
#[derive(Drop)]
pub enum Leaf {
    Number(i128),
    Literal(Text, u32),
    Function,
    SizeofKind(TypeId),
}

/// The operators on a value.
#[derive(Clone, Copy)]
pub enum OnValue {
    Follow,
    Unary(Sign),
}

/// The operators on an object that an lvalue designates.
#[derive(Clone, Copy)]
pub enum OnPlace {
    Read,
    Address,
    Count { plus: bool, before: bool },
}

/// The operator of a form. It fails only where a counter of owners is full.
pub(crate) fn operator_of(types: &Types, form: &Form) -> Result<Operator, Memory>
    requires { IsTrue (are_known_in_form (length types.now.shapes) form.now) }
    ensures stands { IfOk result (λ operator. Stands types.now operator (opened_form types.now form.now).label) }
    ensures known { IfOk result (IsKnownOperator types.now) }
{
    // Only the contract speaks of the types.
    let _ = types;
    match form {
        Form::Number(value) => Ok(Operator::Leaf(Leaf::Number(*value))),
        Form::Literal(bytes, unit) => Ok(Operator::Leaf(Leaf::Literal(bytes.copy()?, *unit))),
        Form::Function(_) => Ok(Operator::Leaf(Leaf::Function)),
        Form::SizeofKind(kind, _) => Ok(Operator::Leaf(Leaf::SizeofKind(*kind))),
        Form::Convert(_, _) => Ok(Operator::Convert),
        Form::Decay(_) => Ok(Operator::Decay),
        Form::Member(_, number) => Ok(Operator::Member(*number)),
        Form::Follow(_) => Ok(Operator::Value(OnValue::Follow)),
        Form::Unary(sign, _) => Ok(Operator::Value(OnValue::Unary(*sign))),
        Form::Read(_) => Ok(Operator::Place(OnPlace::Read)),
        Form::Address(_) => Ok(Operator::Place(OnPlace::Address)),
        Form::Count {
            plus,
            before,
            object: _,
        } => Ok(Operator::Place(OnPlace::Count {
            plus: *plus,
            before: *before,
        })),
        Form::Binary(op, _, _) => Ok(Operator::Binary(*op)),
        Form::Store(_, _) => Ok(Operator::Store),
        Form::Update(op, works, _, _) => Ok(Operator::Update(*op, *works)),
        _ => Ok(Operator::Other),
    }
}
