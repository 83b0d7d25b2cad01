//! Statements that hold no others, and the clauses of a `for` (6.8.3, 6.8.5.3, 6.8.6).

ghost use Rattle.std.specs.Prelude.{[], option_map};
ghost use Rattle.dm_syn.specs.Views as syntax;
ghost use Rattle.dm_tree.specs.Trees as label;
ghost use Rattle.dm_typing.specs.Fitting.{IsNumbered};
ghost use Rattle.dm_typing.specs.Views.{view_over, source_of, setting_of};
ghost use Rattle.dm_edecl.specs.Standing.{goes_on, typing, keeps};
ghost use Rattle.dm_edecl.specs.Statements as statements;
ghost use Rattle.dm_estanding.specs.Proceeding.{Proceeds};
ghost use Rattle.dm_estatement.specs.Parts as parts;
ghost use Rattle.dm_estatement.specs.Parts.{optional_over, OptionalFits, clauses_over, ClausesFit, WithinFits};

use crate::here::{optional_condition_here, optional_here};
use crate::nodes::{Clauses, breaking, continuing, declaration as declaration_node, full};
use crate::within::Within;
use dm_edeclaration::declarations::typed_declaration;
use dm_edeclaration::items::TypedLocals;
use dm_estanding::Standing;
use dm_syn::{Declaration, Expr, ForStart};
use dm_token::{Span, Stop};
use dm_tree::Core;
use dm_typing::Typer;

/// An expression statement, or the empty one.
pub(crate) fn expression(
    typer: &Typer<'_>,
    within: &Within,
    standing: &mut Standing,
    span: Span,
    expr: &Option<Expr>,
) -> Result<Core, Stop>
    requires { WithinFits standing.old.known.types within.now }
    ensures { Proceeds IsNumbered view_over (source_of typer.now) standing.old standing.new result (λ later before. typing before (statements.typed_optional (setting_of typer.now) before.known (option_map syntax.expr expr.now))
        (λ behind values. goes_on behind (statements.full_statement (setting_of typer.now) span values))) }
{
    let value = optional_here(typer, standing, expr)?;
    let made = full(typer, within.statement, span, value)?;
    Ok(made)
}

/// `break` (C33).
pub(crate) fn break_here(
    typer: &Typer<'_>,
    within: &Within,
    standing: &Standing,
    span: Span,
) -> Result<Core, Stop>
    requires { WithinFits standing.now.known.types within.now }
    ensures { Proceeds IsNumbered view_over (source_of typer.now) standing.now standing.now result (λ later before. keeps within.now.breaks 33 span.first (goes_on before (statements.statement (setting_of typer.now) span label.break []))) }
{
    if !within.breaks {
        return Err(typer.broken(33, span.first));
    }
    Ok(breaking(typer, within.statement, span))
}

/// `continue` (C33).
pub(crate) fn continue_here(
    typer: &Typer<'_>,
    within: &Within,
    standing: &Standing,
    span: Span,
) -> Result<Core, Stop>
    requires { WithinFits standing.now.known.types within.now }
    ensures { Proceeds IsNumbered view_over (source_of typer.now) standing.now standing.now result (λ later before. keeps within.now.continues 33 span.first (goes_on before (statements.statement (setting_of typer.now) span label.continue []))) }
{
    if !within.continues {
        return Err(typer.broken(33, span.first));
    }
    Ok(continuing(typer, within.statement, span))
}

/// A declaration.
pub(crate) fn declared_in(
    typer: &Typer<'_>,
    within: &Within,
    standing: &mut Standing,
    declaration: &Declaration,
) -> Result<Core, Stop>
    requires { WithinFits standing.old.known.types within.now }
    ensures { Proceeds IsNumbered view_over (source_of typer.now) standing.old standing.new result (λ later before. statements.declared_in (setting_of typer.now) before (syntax.declaration declaration.now)) }
{
    let declared = typed_declaration(typer, standing, declaration)?;
    let TypedLocals { constants, locals } = declared;
    Ok(declaration_node(typer, within.statement, declaration.span, constants, locals))
}

/// The first clause of a `for`.
pub(crate) fn start_here(
    typer: &Typer<'_>,
    within: &Within,
    standing: &mut Standing,
    start: &ForStart,
) -> Result<Option<Core>, Stop>
    requires { WithinFits standing.old.known.types within.now }
    ensures { Proceeds OptionalFits optional_over (source_of typer.now) standing.old standing.new result (λ later before. statements.typed_start (setting_of typer.now) before (syntax.start start.now)) }
{
    match start {
        ForStart::Expression(expr) => optional_here(typer, standing, expr),
        ForStart::Declaration(declaration) => {
            let made = declared_in(typer, within, standing, declaration)?;
            Ok(Some(made))
        }
    }
}

/// The clauses of a `for`.
pub(crate) fn clauses_here(
    typer: &Typer<'_>,
    within: &Within,
    standing: &mut Standing,
    start: &ForStart,
    condition: &Option<Expr>,
    step: &Option<Expr>,
) -> Result<Clauses, Stop>
    requires { WithinFits standing.old.known.types within.now }
    ensures { Proceeds ClausesFit clauses_over (source_of typer.now) standing.old standing.new result (λ later before. parts.typed_clauses (setting_of typer.now) before (syntax.start start.now) (option_map syntax.expr condition.now) (option_map syntax.expr step.now)) }
{
    let first = start_here(typer, within, standing, start)?;
    let condition = optional_condition_here(typer, standing, condition)?;
    let step = optional_here(typer, standing, step)?;
    Ok(Clauses {
        first,
        condition,
        step,
    })
}
