//! Signs, and the prefix operators by their tokens (6.5.3).

ghost use Rattle.std.specs.Prelude.{◌≡◌, ◌≢◌, List, IfOk};
ghost use Rattle.dm_tree.specs.declared.tree.Sign.TheVariants as sign_of;
ghost use Rattle.dm_type.specs.declared.shape.Shape.{Shape as OneShape};
ghost use Rattle.dm_syn.specs.Sources.{symbol_at};
ghost use Rattle.dm_typing.specs.Conversions as conversions;
ghost use Rattle.dm_typing.specs.Fitting.{IsNumbered};
ghost use Rattle.dm_typing.specs.Operators as operators;
ghost use Rattle.dm_typing.specs.Typing as typing;
ghost use Rattle.dm_eunary.specs.Unary as unary;
ghost use Rattle.dm_typing.specs.Views.{Begins, view_over, known_over, source_of, setting_of, Gives, Grows};

use crate::counting::typed_count;
use dm_int::{Kind, promote};
use dm_spell::punctuator;
use dm_syn::Symbol;
use dm_token::Stop;
use dm_tree::{Core, Sign};
use dm_type::Shape;
use dm_typing::looks::{integer_kind, is_scalar};
use dm_typing::{Extent, Known, Typer};

/// The sign of a row in the table of punctuators (6.5.3.3).
fn sign_of_row(row: u16) -> Option<Sign>
    ensures { result ≡ operators.sign_of_row row }
{
    match row {
        punctuator::PLUS => Some(Sign::Plus),
        punctuator::MINUS => Some(Sign::Minus),
        punctuator::TILDE => Some(Sign::Complement),
        punctuator::EXCLAMATION => Some(Sign::Not),
        _ => None,
    }
}

/// A prefix operator by its symbol.
pub fn typed_prefix(
    typer: &Typer<'_>,
    known: &mut Known,
    at: Extent,
    operator: u32,
    operand: Core,
) -> Result<Core, Stop>
    requires { IsNumbered known.old.types operand }
    ensures gives { (later : List OneShape) → Begins known.new.types.shapes later → Gives (view_over later) (source_of typer.now) (known_over later known.new) result
        (typing.typed_prefix (setting_of typer.now) (known_over later known.old) at operator (view_over later operand) (symbol_at (source_of typer.now) operator)) }
    ensures numbered { IfOk result (IsNumbered known.new.types) }
    ensures grows { Grows known.old known.new }
{
    match typer.symbol(operator) {
        Symbol::Increment => typed_count(typer, known, at, operator, true, operand),
        Symbol::Ampersand => typer.typed_address(known, at, operand),
        Symbol::Star => typed_value_followed(typer, known, at, operand),
        _ => typed_value_signed(typer, known, at, operator, operand),
    }
}

/// `*` at what an operand stands for (C15).
fn typed_value_followed(
    typer: &Typer<'_>,
    known: &mut Known,
    at: Extent,
    operand: Core,
) -> Result<Core, Stop>
    requires { IsNumbered known.old.types operand }
    ensures gives { (later : List OneShape) → Begins known.new.types.shapes later → Gives (view_over later) (source_of typer.now) (known_over later known.new) result
        (typing.typed_follow (setting_of typer.now) (known_over later known.old) at (conversions.as_value (view_over later operand))) }
    ensures numbered { IfOk result (IsNumbered known.new.types) }
    ensures grows { Grows known.old known.new }
{
    let operand = typer.as_value(known, operand)?;
    typer.typed_follow(known, at, operand)
}

/// A sign at what an operand stands for (C16).
fn typed_value_signed(
    typer: &Typer<'_>,
    known: &mut Known,
    at: Extent,
    operator: u32,
    operand: Core,
) -> Result<Core, Stop>
    requires { IsNumbered known.old.types operand }
    ensures gives { (later : List OneShape) → Begins known.new.types.shapes later → Gives (view_over later) (source_of typer.now) (known_over later known.new) result
        (typing.typed_sign (setting_of typer.now) (known_over later known.old) at operator (conversions.as_value (view_over later operand))) }
    ensures numbered { IfOk result (IsNumbered known.new.types) }
    ensures grows { Grows known.old known.new }
{
    let operand = typer.as_value(known, operand)?;
    typed_sign(typer, known, at, operator, operand)
}

/// `+`, `-`, `~` and `!` (C16).
fn typed_sign(
    typer: &Typer<'_>,
    known: &mut Known,
    at: Extent,
    operator: u32,
    operand: Core,
) -> Result<Core, Stop>
    requires { IsNumbered known.old.types operand }
    ensures gives { (later : List OneShape) → Begins known.new.types.shapes later → Gives (view_over later) (source_of typer.now) (known_over later known.new) result
        (typing.typed_sign (setting_of typer.now) (known_over later known.old) at operator (view_over later operand)) }
    ensures numbered { IfOk result (IsNumbered known.new.types) }
    ensures grows { Grows known.old known.new }
{
    match sign_at(typer, operator) {
        Some(Sign::Not) => typed_not(typer, known, at, operand),
        Some(sign) => typed_integer_sign(typer, known, at, sign, operand),
        None => Err(typer.broken(16, at.inner.first)),
    }
}

/// The sign that a token is.
fn sign_at(typer: &Typer<'_>, operator: u32) -> Option<Sign>
    ensures { result ≡ unary.sign_at (source_of typer.now) operator }
{
    match typer.row(operator) {
        Some(row) => sign_of_row(row),
        None => None,
    }
}

/// `!`, which has a scalar (C16).
fn typed_not(typer: &Typer<'_>, known: &mut Known, at: Extent, operand: Core) -> Result<Core, Stop>
    requires { IsNumbered known.old.types operand }
    ensures gives { (later : List OneShape) → Begins known.new.types.shapes later → Gives (view_over later) (source_of typer.now) (known_over later known.new) result
        (unary.typed_by_sign (setting_of typer.now) (known_over later known.old) at (view_over later operand) sign_of.Not) }
    ensures numbered { IfOk result (IsNumbered known.new.types) }
    ensures grows { Grows known.old known.new }
{
    if !is_scalar(&known.types, operand.kind) {
        return Err(typer.broken(16, at.inner.first));
    }
    let kind = known.intern(Shape::Integer(Kind::Int))?;
    let made = typer.unary(at, Sign::Not, operand, kind)?;
    Ok(made)
}

/// `+`, `-` and `~`, which have an integer (C16).
fn typed_integer_sign(
    typer: &Typer<'_>,
    known: &mut Known,
    at: Extent,
    sign: Sign,
    operand: Core,
) -> Result<Core, Stop>
    requires sign { sign ≢ sign_of.Not }
    requires operand { IsNumbered known.old.types operand }
    ensures gives { (later : List OneShape) → Begins known.new.types.shapes later → Gives (view_over later) (source_of typer.now) (known_over later known.new) result
        (unary.typed_by_sign (setting_of typer.now) (known_over later known.old) at (view_over later operand) sign) }
    ensures numbered { IfOk result (IsNumbered known.new.types) }
    ensures grows { Grows known.old known.new }
{
    match integer_kind(&known.types, operand.kind) {
        Some(kind) => {
            let operand = typer.promoted(known, kind, operand)?;
            let kind = known.intern(Shape::Integer(promote(kind)))?;
            let made = typer.unary(at, sign, operand, kind)?;
            Ok(made)
        }
        None => Err(typer.broken(16, at.inner.first)),
    }
}
