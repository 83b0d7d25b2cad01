//! `return` (6.8.6.4).

ghost use Rattle.std.specs.Prelude.{◌≡◌, List as Sequence, map, IfOk, option_map};
ghost use Rattle.dm_type.specs.declared.shape.Shape.{Shape as OneShape};
ghost use Rattle.dm_type.specs.Tables.{IsId};
ghost use Rattle.dm_syn.specs.Views as syntax;
ghost use Rattle.dm_typing.specs.Conversions as conversions;
ghost use Rattle.dm_typing.specs.Fitting.{IsNumbered};
ghost use Rattle.dm_typing.specs.Views.{Begins, type_over, view_over, known_over, source_of, setting_of, Gives};
ghost use Rattle.dm_edeclarator.specs.Steps.{Follows};
ghost use Rattle.dm_edecl.specs.Statements as statements;
ghost use Rattle.dm_estatement.specs.Parts.{optional_over, OptionalFits, WithinFits, may_be_returned};

use crate::conditions::typed_optional;
use crate::nodes::giving;
use crate::within::Within;
use dm_ebinary::assignments::is_assignable;
use dm_syn::Expr;
use dm_token::{Memory, Span, Stop};
use dm_tree::Core;
use dm_type::TypeId;
use dm_typing::looks::is_void;
use dm_typing::{Known, Typer};

/// `return` with a value that is assignable to the result, or without one where that is void (C34).
pub(crate) fn typed_return(
    typer: &Typer<'_>,
    within: &Within,
    known: &mut Known,
    span: Span,
    expr: &Option<Expr>,
) -> Result<Core, Stop>
    requires { WithinFits known.old.types within.now }
    ensures { Follows IsNumbered view_over (source_of typer.now) known.old known.new result (λ later. statements.typed_return (setting_of typer.now) (known_over later known.old) (type_over later within.now.result) span (option_map syntax.expr expr.now)) }
{
    let value = typed_optional(typer, known, expr)?;
    returned(typer, within, known, span, value)
}

/// The same of a value that is typed.
fn returned(
    typer: &Typer<'_>,
    within: &Within,
    known: &Known,
    span: Span,
    value: Option<Core>,
) -> Result<Core, Stop>
    requires within { WithinFits known.now.types within.now }
    requires value { OptionalFits known.now.types value }
    ensures gives { (later : Sequence OneShape) → Begins known.now.types.shapes later → Gives (view_over later) (source_of typer.now) (known_over later known.now) result
        (statements.returned (setting_of typer.now) (known_over later known.now) (type_over later within.now.result) span (optional_over later value)) }
    ensures numbered { IfOk result (IsNumbered known.now.types) }
{
    if !may_return(known, within.result, &value) {
        return Err(typer.broken(34, span.first));
    }
    let given = converted(typer, known, within.result, value)?;
    let made = giving(typer, within.statement, span, given)?;
    Ok(made)
}

/// Whether such a value may be returned, or none.
fn may_return(known: &Known, kind: TypeId, value: &Option<Core>) -> bool
    requires kind { IsId known.now.types kind }
    requires value { OptionalFits known.now.types value.now }
    ensures { (later : Sequence OneShape) → Begins known.now.types.shapes later → result ≡ may_be_returned (known_over later known.now) (type_over later kind) (optional_over later value.now) }
{
    match value {
        None => is_void(&known.types, kind),
        Some(value) => is_assignable(known, value, kind),
    }
}

/// The value as the result has it.
fn converted(
    typer: &Typer<'_>,
    known: &Known,
    kind: TypeId,
    value: Option<Core>,
) -> Result<Option<Core>, Memory>
    requires kind { IsId known.now.types kind }
    requires value { OptionalFits known.now.types value }
    ensures value { IfOk result (λ made. (later : Sequence OneShape) → Begins known.now.types.shapes later → optional_over later made ≡ map (conversions.as_type (type_over later kind)) (optional_over later value)) }
    ensures numbered { IfOk result (OptionalFits known.now.types) }
{
    match value {
        None => Ok(None),
        Some(value) => {
            let made = typer.as_type(known, kind, value)?;
            Ok(Some(made))
        }
    }
}
