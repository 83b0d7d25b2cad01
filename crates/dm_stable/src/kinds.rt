//! Types (6.2.5), and operators that can't go wrong in them (6.5).

ghost use Rattle.std.specs.Prelude.{◌≡◌, is_some};
ghost use Rattle.dm_type.specs.Tables.{IsId, type_of};
ghost use Rattle.dm_tree.specs.Operands as operands;
ghost use Rattle.dm_tree.specs.Scenes as scenes;
ghost use Rattle.dm_effect.specs.Safe as safe;

use dm_int::{Kind, Op};
use dm_tree::{Sign, integer_kind};
use dm_type::{Shape, TypeId, Types};

/// Whether a type is an integer type, const or not.
pub(crate) fn is_integer(types: &Types, id: TypeId) -> bool
    requires { IsId types.now id }
    ensures { result ≡ scenes.is_integer (type_of types.now id) }
{
    integer_kind(types, id).is_some()
}

/// Whether a type is a scalar type, const or not (6.2.5p21).
pub(crate) fn is_scalar(types: &Types, id: TypeId) -> bool
    requires { IsId types.now id }
    ensures { result ≡ scenes.is_scalar (type_of types.now id) }
{
    is_integer(types, id) || is_pointer(types, id)
}

/// Whether a type is a pointer type, const or not.
fn is_pointer(types: &Types, id: TypeId) -> bool
    requires { IsId types.now id }
    ensures { result ≡ scenes.is_pointer (type_of types.now id) }
{
    match types.shape(id) {
        Shape::Pointer(_) => true,
        Shape::Const(inner) => is_plain_pointer(types, *inner),
        _ => false,
    }
}

/// Whether a type is a pointer type and not const.
fn is_plain_pointer(types: &Types, id: TypeId) -> bool
    requires { IsId types.now id }
    ensures { result ≡ is_some (scenes.if_pointer (type_of types.now id)) }
{
    matches!(types.shape(id), Shape::Pointer(_))
}

/// Whether a unary operator can't go wrong.
pub(crate) fn is_safe_sign(sign: Sign) -> bool
    ensures { result ≡ safe.is_safe_sign sign }
{
    match sign {
        Sign::Minus => false,
        Sign::Plus | Sign::Complement | Sign::Not => true,
    }
}

/// Whether a binary operator can't go wrong, where its result has this type.
pub(crate) fn is_safe_operator(types: &Types, op: Op, id: TypeId) -> bool
    requires { IsId types.now id }
    ensures { result ≡ safe.is_safe_operator op (type_of types.now id) }
{
    match op {
        Op::And | Op::Or | Op::Xor => true,
        Op::Add | Op::Sub | Op::Mul => wraps(integer_kind(types, id)),
        _ => is_comparison(op),
    }
}

/// Whether results of the kind wrap (6.2.5p9).
fn wraps(kind: Option<Kind>) -> bool
    ensures { result ≡ safe.wraps kind }
{
    match kind {
        None => false,
        Some(kind) => match kind {
            Kind::Char | Kind::SChar | Kind::Short | Kind::Int | Kind::Long | Kind::LLong => false,
            Kind::Bool | Kind::UChar | Kind::UShort | Kind::UInt | Kind::ULong | Kind::ULLong => {
                true
            }
        },
    }
}

/// Whether a binary operator is a relation or an equality (6.5.8, 6.5.9).
fn is_comparison(op: Op) -> bool
    ensures { result ≡ operands.is_comparison op }
{
    matches!(
        op,
        Op::Less | Op::Greater | Op::LessEq | Op::GreaterEq | Op::Equal | Op::NotEqual
    )
}
