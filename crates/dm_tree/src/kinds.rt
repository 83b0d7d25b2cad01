ghost use Rattle.std.specs.Prelude.{◌≡◌, IsTrue};
ghost use Rattle.dm_int.specs.Kinds.{InRange, is_in_range};
ghost use Rattle.dm_int.specs.Operators.{IsRight};
ghost use Rattle.dm_tree.specs.Evaluation.{is_right};
ghost use Rattle.dm_type.specs.Tables.{IsId, type_of};
ghost use Rattle.dm_tree.specs.Constants as constants;

use dm_int::{Kind, Op, greatest, least};
use dm_type::{Shape, TypeId, Types};

/// The kind of an integer type, const or not.
pub fn integer_kind(types: &Types, id: TypeId) -> Option<Kind>
    requires { IsId types.now id }
    ensures { result ≡ constants.integer_kind (type_of types.now id) }
{
    match types.shape(id) {
        Shape::Integer(kind) => Some(*kind),
        Shape::Const(inner) => plain_kind(types, *inner),
        _ => None,
    }
}

/// The kind of a type that is an integer type and not const.
fn plain_kind(types: &Types, id: TypeId) -> Option<Kind>
    requires { IsId types.now id }
    ensures { result ≡ constants.kind_if_integer (type_of types.now id) }
{
    match types.shape(id) {
        Shape::Integer(kind) => Some(*kind),
        _ => None,
    }
}

/// Whether a number is a value of the kind.
pub fn in_range(kind: Kind, value: i128) -> bool
    ensures test { result ≡ is_in_range kind value }
    ensures fact { IsTrue result → InRange kind value }
{
    least(kind) <= value && value <= greatest(kind)
}

/// Whether a number may stand on the right of an operator on values of the kind.
pub fn may_stand_right(op: Op, kind: Kind, value: i128) -> bool
    ensures test { result ≡ is_right op kind value }
    ensures fact { IsTrue result → IsRight op kind value }
{
    op == Op::Shl || op == Op::Shr || in_range(kind, value)
}
