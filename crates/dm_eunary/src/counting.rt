//! What may be written, and counting (6.3.2.1, 6.5.2.4, 6.5.3.1).

ghost use Rattle.std.specs.Prelude.{◌≡◌, ◌&&◌, ◌||◌, not, List, IfOk};
ghost use Rattle.dm_type.specs.declared.shape.Shape.{Shape as OneShape};
ghost use Rattle.dm_type.specs.Tables.{IsId, type_of};
ghost use Rattle.dm_tree.specs.Scenes as scenes;
ghost use Rattle.dm_typing.specs.Conversions as conversions;
ghost use Rattle.dm_typing.specs.Fitting.{IsNumbered};
ghost use Rattle.dm_typing.specs.Operators.{row_at};
ghost use Rattle.dm_typing.specs.Rules as rules;
ghost use Rattle.dm_typing.specs.Typing as typing;
ghost use Rattle.dm_eunary.specs.Unary as unary;
ghost use Rattle.dm_typing.specs.Views.{Begins, seen, view_over, known_over, source_of, setting_of, Gives};

use crate::parts::has_const;
use dm_spell::punctuator::INCREMENT;
use dm_token::{Memory, Stop};
use dm_tree::Core;
use dm_type::TypeId;
use dm_typing::looks::{bare, is_array, is_complete, is_integer, points_to_complete};
use dm_typing::values::is_lvalue;
use dm_typing::{Extent, Known, Typer};

/// `++` and `--`, before their operand or behind it (C13).
pub fn typed_count(
    typer: &Typer<'_>,
    known: &Known,
    at: Extent,
    operator: u32,
    before: bool,
    operand: Core,
) -> Result<Core, Stop>
    requires { IsNumbered known.now.types operand }
    ensures gives { (later : List OneShape) → Begins known.now.types.shapes later → Gives (view_over later) (source_of typer.now) (known_over later known.now) result
        (typing.typed_count (setting_of typer.now) (known_over later known.now) at operator before (view_over later operand)) }
    ensures numbered { IfOk result (IsNumbered known.now.types) }
{
    let may = may_be_counted(typer, known, &operand)?;
    if !may {
        return Err(typer.broken(13, at.inner.first));
    }
    let kind = bare(&known.types, operand.kind);
    let made = typer.count(at, is_plus_plus(typer, operator), before, operand, kind)?;
    Ok(made)
}

/// Whether a token is `++`.
fn is_plus_plus(typer: &Typer<'_>, operator: u32) -> bool
    ensures { result ≡ typing.is_plus_plus (row_at (source_of typer.now) operator) }
{
    match typer.row(operator) {
        Some(row) => row == INCREMENT,
        None => false,
    }
}

/// Whether `++` and `--` may have an operand: a modifiable lvalue that is an integer or a pointer to a complete object
/// type (C13).
fn may_be_counted(typer: &Typer<'_>, known: &Known, operand: &Core) -> Result<bool, Memory>
    requires { IsNumbered known.now.types operand.now }
    ensures { IfOk result (λ may. (later : List OneShape) → Begins known.now.types.shapes later →
        may ≡ rules.may_be_counted (known_over later known.now) (view_over later operand.now)) }
{
    if !is_countable(known, operand.kind) {
        return Ok(false);
    }
    let may = is_modifiable(typer, known, operand)?;
    Ok(may)
}

/// Whether a tree is an lvalue that may be written: complete, no array, and without a const part (6.3.2.1p1).
pub fn is_modifiable(typer: &Typer<'_>, known: &Known, core: &Core) -> Result<bool, Memory>
    requires { IsNumbered known.now.types core.now }
    ensures { IfOk result (λ may. (later : List OneShape) → Begins known.now.types.shapes later →
        may ≡ rules.is_modifiable (known_over later known.now) (view_over later core.now)) }
{
    if !is_whole_object(known, core) {
        return Ok(false);
    }
    let has = has_const(typer.alloc, &known.types, core.kind)?;
    Ok(!has)
}

/// Whether a tree is an lvalue of a complete type that is no array.
fn is_whole_object(known: &Known, core: &Core) -> bool
    requires { IsNumbered known.now.types core.now }
    ensures { (later : List OneShape) → Begins known.now.types.shapes later →
        result ≡ unary.is_whole_object (known_over later known.now) (view_over later core.now) }
{
    if !is_lvalue(core) {
        return false;
    }
    is_whole(known, core.kind)
}

/// Whether a type is complete and no array.
fn is_whole(known: &Known, id: TypeId) -> bool
    requires { IsId known.now.types id }
    ensures { result ≡ (not (scenes.is_array (type_of known.now.types id)) && conversions.is_complete (seen known.now) (type_of known.now.types id)) }
{
    !is_array(&known.types, id) && is_complete(known, id)
}

/// Whether a type is an integer type or that of pointers to a complete object type.
fn is_countable(known: &Known, id: TypeId) -> bool
    requires { IsId known.now.types id }
    ensures { result ≡ (scenes.is_integer (type_of known.now.types id) || rules.points_to_complete (seen known.now) (type_of known.now.types id)) }
{
    is_integer(&known.types, id) || points_to_complete(known, id)
}
