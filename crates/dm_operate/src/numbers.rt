//! Numbers as values of types (6.2.6.2).

ghost use Rattle.std.specs.Prelude.{◌≡◌};
ghost use Rattle.dm_int.specs.Kinds as kinds;
ghost use Rattle.dm_int.specs.Operators as operators;
ghost use Rattle.dm_type.specs.Tables.{IsId, type_of};
ghost use Rattle.dm_meaning.specs.Operations as operations;
ghost use Rattle.dm_meaning.specs.Operations.{World};
ghost use Rattle.dm_meaning.specs.Values.{integer_value};
ghost use Rattle.dm_value.specs.Views.{view_of_value};
ghost use Rattle.dm_operate.specs.Evaluations.{view_of_did};
ghost use Rattle.dm_operate.specs.Numbers.{number_kind};

use crate::evaluation::Did;
use dm_int::Kind;
use dm_layout::Layout;
use dm_tree::{in_range, integer_kind};
use dm_type::TypeId;
use dm_value::{Integer, Value};

/// The kind of a number of a type: int, where that isn't an integer type.
fn kind_of_number(layout: &Layout, kind: TypeId) -> Kind
    requires { IsId layout.now kind }
    ensures { result ≡ number_kind (type_of layout.now kind) }
{
    match integer_kind(layout.types(), kind) {
        Some(kind) => kind,
        None => Kind::Int,
    }
}

/// A number alone, where the type has it.
pub fn number(layout: &Layout, kind: TypeId, value: i128) -> Did
    requires { IsId layout.now kind }
    ensures { (world : World) → view_of_did world result ≡ operations.number_alone world (type_of layout.now kind) value }
{
    of_kind(kind_of_number(layout, kind), value)
}

/// A number alone, where the kind has it.
fn of_kind(kind: Kind, value: i128) -> Did
    ensures { (world : World) → view_of_did world result ≡ operations.provided (kinds.is_in_range kind value) (operations.plain world (integer_value kind value)) }
{
    if in_range(kind, value) {
        Did::plain(Value::Integer(Integer::new(kind, value)))
    } else {
        Did::ill()
    }
}

/// 1 or 0 of a type, as something holds or not.
pub fn truth_value(layout: &Layout, kind: TypeId, holds: bool) -> Value
    requires { IsId layout.now kind }
    ensures { view_of_value result ≡ operations.truth_in (type_of layout.now kind) holds }
{
    Value::Integer(truth_of_kind(kind_of_number(layout, kind), holds))
}

/// The same of a kind.
pub(crate) fn truth_of_kind(kind: Kind, holds: bool) -> Integer
    ensures kind { result.kind ≡ kind }
    ensures value { result.value ≡ operators.truth holds }
{
    if holds {
        Integer::new(kind, 1)
    } else {
        Integer::new(kind, 0)
    }
}
