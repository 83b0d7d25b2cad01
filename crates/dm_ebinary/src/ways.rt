//! How two operands come together: what is found by their types, before either is converted.

ghost use Rattle.std.specs.Prelude.{◌≡◌, List, IfOk, IfSome, option_map};
ghost use Rattle.dm_type.specs.declared.shape.Shape.{Shape as OneShape};
ghost use Rattle.dm_type.specs.Tables.{type_of, IsId};
ghost use Rattle.dm_tree.specs.Constants as constants;
ghost use Rattle.dm_tree.specs.Evaluation as evaluation;
ghost use Rattle.dm_typing.specs.Fitting.{IsNumbered};
ghost use Rattle.dm_typing.specs.Views.{Begins, type_over, view_over};
ghost use Rattle.dm_ebinary.specs.Pairs as pairs;

use dm_int::{Kind, Op, common, promote};
use dm_token::Memory;
use dm_tree::Core;
use dm_type::{TypeId, Types};
use dm_typing::looks::integer_kind;
use dm_typing::{Known, Typer};

/// The types to which two operands are converted, where they are, and the type of the whole.
#[derive(Clone, Copy)]
pub(crate) struct Way {
    pub left: Option<TypeId>,
    pub right: Option<TypeId>,
    pub kind: TypeId,
}

/// The kinds of two integers.
#[derive(Clone, Copy)]
pub(crate) struct Sides {
    pub left: Kind,
    pub right: Kind,
}

/// Whether the operator is a shift, whose operands are promoted one by one (6.5.7p3).
fn is_shift(op: Op) -> bool
    ensures { result ≡ evaluation.is_shift op }
{
    matches!(op, Op::Shl | Op::Shr)
}

/// The kinds to which an operator brings integers.
pub(crate) fn sides_of(op: Op, kinds: Sides) -> Sides
    ensures { result ≡ pairs.sides_of op kinds.left kinds.right }
{
    if is_shift(op) {
        let left = promote(kinds.left);
        let right = promote(kinds.right);
        return Sides { left, right };
    }
    let both = common(kinds.left, kinds.right);
    Sides {
        left: both,
        right: both,
    }
}

/// The kinds of two types, if both are integers.
pub(crate) fn both_kinds(types: &Types, a: TypeId, b: TypeId) -> Option<Sides>
    requires left { IsId types.now a }
    requires right { IsId types.now b }
    ensures { result ≡ pairs.both_kinds (constants.integer_kind (type_of types.now a)) (constants.integer_kind (type_of types.now b)) }
{
    match (integer_kind(types, a), integer_kind(types, b)) {
        (Some(left), Some(right)) => Some(Sides { left, right }),
        _ => None,
    }
}

/// An operand after its conversion, if it is to be converted.
pub(crate) fn as_type_if(
    typer: &Typer<'_>,
    known: &Known,
    to: Option<TypeId>,
    core: Core,
) -> Result<Core, Memory>
    requires to { IfSome to (IsId known.now.types) }
    requires core { IsNumbered known.now.types core }
    ensures value { IfOk result (λ made. (later : List OneShape) → Begins known.now.types.shapes later → view_over later made ≡ pairs.as_type_if (option_map (type_over later) to) (view_over later core)) }
    ensures numbered { IfOk result (IsNumbered known.now.types) }
{
    match to {
        Some(kind) => {
            let made = typer.as_type(known, kind, core)?;
            Ok(made)
        }
        None => Ok(core),
    }
}
