//! The expressions of statements: conditions, the operand of a switch, and expressions that may be absent (6.8.3 to 6.8.5).

ghost use Rattle.std.specs.Prelude.{List as Sequence, Some, IfOk, option_map};
ghost use Rattle.dm_type.specs.declared.shape.Shape.{Shape as OneShape};
ghost use Rattle.dm_syn.specs.Views as syntax;
ghost use Rattle.dm_tree.specs.Constants as constants;
ghost use Rattle.dm_tree.specs.Scenes as scenes;
ghost use Rattle.dm_tree.specs.Trees.{kind_of};
ghost use Rattle.dm_typing.specs.Fitting.{IsNumbered};
ghost use Rattle.dm_typing.specs.Known.{given, obeys, if_given};
ghost use Rattle.dm_typing.specs.Views.{Begins, view_over, known_over, source_of, setting_of, Gives, Grows};
ghost use Rattle.dm_edeclarator.specs.Steps.{Follows};
ghost use Rattle.dm_edecl.specs.Statements as statements;
ghost use Rattle.dm_estatement.specs.Parts.{optional_over, OptionalFits, subject_over, SubjectFits};

use dm_eexpr::expressions::value_of;
use dm_int::{Kind, promote};
use dm_syn::Expr;
use dm_token::Stop;
use dm_tree::Core;
use dm_typing::looks::{integer_kind, is_scalar};
use dm_typing::{Known, Typer};

/// The operand of a switch, which is promoted, and its kind (6.8.4.2p5).
#[derive(Drop)]
pub(crate) struct Subject {
    pub tree: Core,
    pub kind: Kind,
}

/// The value of an expression that may be absent.
pub(crate) fn typed_optional(
    typer: &Typer<'_>,
    known: &mut Known,
    expr: &Option<Expr>,
) -> Result<Option<Core>, Stop>
    ensures { Follows OptionalFits optional_over (source_of typer.now) known.old known.new result (λ later. statements.typed_optional (setting_of typer.now) (known_over later known.old) (option_map syntax.expr expr.now)) }
{
    match expr {
        None => Ok(None),
        Some(expr) => present(typer, known, expr),
    }
}

/// The value of an expression that is there.
fn present(typer: &Typer<'_>, known: &mut Known, expr: &Expr) -> Result<Option<Core>, Stop>
    ensures { Follows OptionalFits optional_over (source_of typer.now) known.old known.new result (λ later. statements.typed_optional (setting_of typer.now) (known_over later known.old) (Some (syntax.expr expr.now))) }
{
    let value = value_of(typer, known, true, expr)?;
    Ok(Some(value))
}

/// A condition (C32).
pub(crate) fn typed_condition(
    typer: &Typer<'_>,
    known: &mut Known,
    expr: &Expr,
) -> Result<Core, Stop>
    ensures { Follows IsNumbered view_over (source_of typer.now) known.old known.new result (λ later. statements.typed_condition (setting_of typer.now) (known_over later known.old) (syntax.expr expr.now)) }
{
    let value = value_of(typer, known, true, expr)?;
    scalar(typer, known, expr.span.first, value)
}

/// A value that is a scalar.
fn scalar(typer: &Typer<'_>, known: &Known, here: u32, value: Core) -> Result<Core, Stop>
    requires { IsNumbered known.now.types value }
    ensures gives { (later : Sequence OneShape) → Begins known.now.types.shapes later → Gives (view_over later) (source_of typer.now) (known_over later known.now) result
        (obeys (scenes.is_scalar (kind_of (view_over later value))) 32 here (given (known_over later known.now) (view_over later value))) }
    ensures numbered { IfOk result (IsNumbered known.now.types) }
{
    if !is_scalar(&known.types, value.kind) {
        return Err(typer.broken(32, here));
    }
    Ok(value)
}

/// A condition that may be absent (6.8.5.3).
pub(crate) fn typed_optional_condition(
    typer: &Typer<'_>,
    known: &mut Known,
    expr: &Option<Expr>,
) -> Result<Option<Core>, Stop>
    ensures { Follows OptionalFits optional_over (source_of typer.now) known.old known.new result (λ later. statements.typed_optional_condition (setting_of typer.now) (known_over later known.old) (option_map syntax.expr expr.now)) }
{
    match expr {
        None => Ok(None),
        Some(expr) => present_condition(typer, known, expr),
    }
}

/// A condition that is there.
fn present_condition(
    typer: &Typer<'_>,
    known: &mut Known,
    expr: &Expr,
) -> Result<Option<Core>, Stop>
    ensures { Follows OptionalFits optional_over (source_of typer.now) known.old known.new result (λ later. statements.typed_optional_condition (setting_of typer.now) (known_over later known.old) (Some (syntax.expr expr.now))) }
{
    let value = typed_condition(typer, known, expr)?;
    Ok(Some(value))
}

/// The operand of a switch (C32).
pub(crate) fn typed_subject(
    typer: &Typer<'_>,
    known: &mut Known,
    expr: &Expr,
) -> Result<Subject, Stop>
    ensures { Follows SubjectFits subject_over (source_of typer.now) known.old known.new result (λ later. statements.typed_subject (setting_of typer.now) (known_over later known.old) (syntax.expr expr.now)) }
{
    let value = value_of(typer, known, true, expr)?;
    integer_operand(typer, known, expr.span.first, value)
}

/// A value that is an integer, promoted.
fn integer_operand(
    typer: &Typer<'_>,
    known: &mut Known,
    here: u32,
    value: Core,
) -> Result<Subject, Stop>
    requires { IsNumbered known.old.types value }
    ensures gives { (later : Sequence OneShape) → Begins known.new.types.shapes later → Gives (subject_over later) (source_of typer.now) (known_over later known.new) result
        (if_given (constants.integer_kind (kind_of (view_over later value))) 32 here (λ kind. given (known_over later known.old) (statements.subject (view_over later value) kind))) }
    ensures numbered { IfOk result (SubjectFits known.new.types) }
    ensures grows { Grows known.old known.new }
{
    match integer_kind(&known.types, value.kind) {
        None => Err(typer.broken(32, here)),
        Some(kind) => {
            let tree = typer.promoted(known, kind, value)?;
            Ok(Subject {
                tree,
                kind: promote(kind),
            })
        }
    }
}
