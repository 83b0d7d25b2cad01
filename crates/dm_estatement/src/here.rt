//! The expressions of statements where these stand.

ghost use Rattle.std.specs.Prelude.{◌≡◌, false, Some, IfOk, option_map};
ghost use Rattle.dm_syn.specs.Views as syntax;
ghost use Rattle.dm_typing.specs.Fitting.{IsNumbered};
ghost use Rattle.dm_typing.specs.Views.{type_over, view_over, source_of, setting_of};
ghost use Rattle.dm_edecl.specs.Standing.{goes_on, typing};
ghost use Rattle.dm_edecl.specs.Statements as statements;
ghost use Rattle.dm_estanding.specs.Proceeding.{Proceeds};
ghost use Rattle.dm_estatement.specs.Parts.{optional_over, OptionalFits, subject_over, SubjectFits, case_over, CaseFits, labels_of, WithinFits};

use crate::conditions::{
    Subject, typed_condition, typed_optional, typed_optional_condition, typed_subject,
};
use crate::labels::{CaseValue, Labels, typed_case};
use crate::returns::typed_return;
use crate::within::Within;
use dm_estanding::Standing;
use dm_int::Kind;
use dm_syn::Expr;
use dm_token::{Span, Stop};
use dm_tree::Core;
use dm_typing::Typer;

/// An expression that may be absent.
pub(crate) fn optional_here(
    typer: &Typer<'_>,
    standing: &mut Standing,
    expr: &Option<Expr>,
) -> Result<Option<Core>, Stop>
    ensures { Proceeds OptionalFits optional_over (source_of typer.now) standing.old standing.new result (λ later before. typing before (statements.typed_optional (setting_of typer.now) before.known (option_map syntax.expr expr.now)) (λ behind it. goes_on behind it)) }
{
    typed_optional(typer, &mut standing.known, expr)
}

/// A condition.
pub(crate) fn condition_here(
    typer: &Typer<'_>,
    standing: &mut Standing,
    expr: &Expr,
) -> Result<Core, Stop>
    ensures { Proceeds IsNumbered view_over (source_of typer.now) standing.old standing.new result (λ later before. typing before (statements.typed_condition (setting_of typer.now) before.known (syntax.expr expr.now)) (λ behind it. goes_on behind it)) }
{
    typed_condition(typer, &mut standing.known, expr)
}

/// A condition that may be absent.
pub(crate) fn optional_condition_here(
    typer: &Typer<'_>,
    standing: &mut Standing,
    expr: &Option<Expr>,
) -> Result<Option<Core>, Stop>
    ensures { Proceeds OptionalFits optional_over (source_of typer.now) standing.old standing.new result (λ later before. typing before (statements.typed_optional_condition (setting_of typer.now) before.known (option_map syntax.expr expr.now)) (λ behind it. goes_on behind it)) }
{
    typed_optional_condition(typer, &mut standing.known, expr)
}

/// The operand of a switch.
pub(crate) fn subject_here(
    typer: &Typer<'_>,
    standing: &mut Standing,
    expr: &Expr,
) -> Result<Subject, Stop>
    ensures { Proceeds SubjectFits subject_over (source_of typer.now) standing.old standing.new result (λ later before. typing before (statements.typed_subject (setting_of typer.now) before.known (syntax.expr expr.now)) (λ behind it. goes_on behind it)) }
{
    typed_subject(typer, &mut standing.known, expr)
}

/// The value of a `case`.
pub(crate) fn case_here(
    typer: &Typer<'_>,
    standing: &mut Standing,
    kind: Kind,
    labels: &Labels,
    expr: &Expr,
) -> Result<CaseValue, Stop>
    ensures proceeds { Proceeds CaseFits case_over (source_of typer.now) standing.old standing.new result (λ later before. typing before (statements.typed_case (setting_of typer.now) before.known kind (labels_of labels.now) (syntax.expr expr.now)) (λ behind it. goes_on behind it)) }
    ensures fresh { IfOk result (λ one. statements.is_label_among (Some one.value) (labels_of labels.now) ≡ false) }
{
    typed_case(typer, &mut standing.known, kind, labels, expr)
}

/// `return`.
pub(crate) fn return_here(
    typer: &Typer<'_>,
    within: &Within,
    standing: &mut Standing,
    span: Span,
    expr: &Option<Expr>,
) -> Result<Core, Stop>
    requires { WithinFits standing.old.known.types within.now }
    ensures { Proceeds IsNumbered view_over (source_of typer.now) standing.old standing.new result (λ later before. typing before (statements.typed_return (setting_of typer.now) before.known (type_over later within.now.result) span (option_map syntax.expr expr.now)) (λ behind it. goes_on behind it)) }
{
    typed_return(typer, within, &mut standing.known, span, expr)
}
