//! The typing of expressions (6.5).

ghost use Rattle.std.specs.Prelude.{map};
ghost use Rattle.dm_syn.specs.Trees as tree;
ghost use Rattle.dm_syn.specs.Views as syntax;
ghost use Rattle.dm_typing.specs.Fitting.{IsNumbered, AreNumbered};
ghost use Rattle.dm_typing.specs.Typing as typing;
ghost use Rattle.dm_edeclarator.specs.Steps.{Follows};
ghost use Rattle.dm_eexpr.specs.Parts.{valued, views_over};
ghost use Rattle.dm_typing.specs.Views.{view_over, known_over, source_of, setting_of};

use crate::syntax::typed_name;
use dm_ebinary::assignments::typed_assignment;
use dm_ebinary::choices::typed_choice;
use dm_ebinary::operations::typed_binary;
use dm_enames::calls::{comma_of, typed_call};
use dm_enames::members::{typed_arrow, typed_member};
use dm_enames::objects::{constant, literal, named};
use dm_eunary::cast::typed_cast;
use dm_eunary::counting::typed_count;
use dm_eunary::unary::typed_prefix;
use dm_syn::{Expr, ExprForm, TypeName};
use dm_token::{List, Span, Stop};
use dm_tree::Core;
use dm_typing::looks::bare;
use dm_typing::{Extent, Known, Typer};

/// The typed tree of an expression. `used` says whether it is evaluated, and so uses functions (6.9p3).
#[cycle(typing)]
pub fn typed(typer: &Typer<'_>, known: &mut Known, used: bool, expr: &Expr) -> Result<Core, Stop>
    ensures { Follows IsNumbered view_over (source_of typer.now) known.old known.new result (λ later. typing.typed (setting_of typer.now) used (known_over later known.old) (syntax.expr expr.now)) }
{
    typed_within(typer, known, used, expr.span, expr)
}

/// The value of an expression.
#[cycle(typing)]
pub fn value_of(typer: &Typer<'_>, known: &mut Known, used: bool, expr: &Expr) -> Result<Core, Stop>
    ensures { Follows IsNumbered view_over (source_of typer.now) known.old known.new result (λ later. valued (typing.typed (setting_of typer.now) used (known_over later known.old) (syntax.expr expr.now))) }
{
    let tree = typed(typer, known, used, expr)?;
    let made = typer.as_value(known, tree)?;
    Ok(made)
}

/// The same as `typed` where the span with all parentheses round the expression is this one.
#[cycle(typing)]
fn typed_within(
    typer: &Typer<'_>,
    known: &mut Known,
    used: bool,
    outer: Span,
    expr: &Expr,
) -> Result<Core, Stop>
    ensures { Follows IsNumbered view_over (source_of typer.now) known.old known.new result (λ later. typing.typed_within (setting_of typer.now) used (known_over later known.old) outer (syntax.expr expr.now)) }
{
    let at = Extent {
        inner: expr.span,
        outer,
    };
    formed(typer, known, used, at, &expr.form)
}

/// An expression by its form.
#[cycle(typing)]
fn formed(
    typer: &Typer<'_>,
    known: &mut Known,
    used: bool,
    at: Extent,
    form: &ExprForm,
) -> Result<Core, Stop>
    ensures { Follows IsNumbered view_over (source_of typer.now) known.old known.new result (λ later. typing.typed_within (setting_of typer.now) used (known_over later known.old) at.outer (syntax.expr_form form.now at.inner)) }
{
    match form {
        ExprForm::Name => named(typer, known, used, at),
        ExprForm::Constant => {
            let made = constant(typer, known, at)?;
            Ok(made)
        }
        ExprForm::Literal => {
            let made = literal(typer, known, at)?;
            Ok(made)
        }
        ExprForm::Paren(inner) => typed_within(typer, known, used, at.outer, inner.get()),
        ExprForm::Call(callee, arguments) => {
            call_form(typer, known, used, at, callee.get(), arguments.items())
        }
        ExprForm::Cast(named, cast) => cast_form(typer, known, used, at, named.get(), cast.get()),
        ExprForm::SizeofName(sized) => sizeof_name_form(typer, known, used, at, sized.get()),
        ExprForm::SizeofExpr(measured) => sizeof_form(typer, known, used, at, measured.get()),
        ExprForm::Comma(parts) => comma_form(typer, known, used, at, parts.items()),
        ExprForm::Index(a, b) => index_form(typer, known, used, at, a.get(), b.get()),
        ExprForm::Member(whole, name) => member_form(typer, known, used, at, whole.get(), *name),
        ExprForm::Arrow(pointing, name) => {
            arrow_form(typer, known, used, at, pointing.get(), *name)
        }
        ExprForm::Postfix(counted, operator) => {
            postfix_form(typer, known, used, at, counted.get(), *operator)
        }
        ExprForm::Prefix(operator, operand) => {
            prefix_form(typer, known, used, at, *operator, operand.get())
        }
        ExprForm::Binary(left, operator, right) => {
            binary_form(typer, known, used, at, *operator, left.get(), right.get())
        }
        ExprForm::Conditional(condition, first, second) => {
            conditional_form(
                typer,
                known,
                used,
                at,
                condition.get(),
                first.get(),
                second.get(),
            )
        }
        ExprForm::Assign(object, operator, value) => {
            assign_form(typer, known, used, at, *operator, object.get(), value.get())
        }
    }
}

/// `a.b` (6.5.2.3).
#[cycle(typing)]
fn member_form(
    typer: &Typer<'_>,
    known: &mut Known,
    used: bool,
    at: Extent,
    whole: &Expr,
    name: u32,
) -> Result<Core, Stop>
    ensures { Follows IsNumbered view_over (source_of typer.now) known.old known.new result (λ later. typing.typed_within (setting_of typer.now) used (known_over later known.old) at.outer (tree.member at.inner (syntax.expr whole.now) name)) }
{
    let whole = typed(typer, known, used, whole)?;
    typed_member(typer, known, at, name, whole)
}

/// `a->b` (6.5.2.3).
#[cycle(typing)]
fn arrow_form(
    typer: &Typer<'_>,
    known: &mut Known,
    used: bool,
    at: Extent,
    pointing: &Expr,
    name: u32,
) -> Result<Core, Stop>
    ensures { Follows IsNumbered view_over (source_of typer.now) known.old known.new result (λ later. typing.typed_within (setting_of typer.now) used (known_over later known.old) at.outer (tree.arrow at.inner (syntax.expr pointing.now) name)) }
{
    let pointing = value_of(typer, known, used, pointing)?;
    typed_arrow(typer, known, at, name, pointing)
}

/// `++` or `--` behind its operand (6.5.2.4).
#[cycle(typing)]
fn postfix_form(
    typer: &Typer<'_>,
    known: &mut Known,
    used: bool,
    at: Extent,
    operand: &Expr,
    operator: u32,
) -> Result<Core, Stop>
    ensures { Follows IsNumbered view_over (source_of typer.now) known.old known.new result (λ later. typing.typed_within (setting_of typer.now) used (known_over later known.old) at.outer (tree.postfix at.inner (syntax.expr operand.now) operator)) }
{
    let operand = typed(typer, known, used, operand)?;
    typed_count(typer, known, at, operator, false, operand)
}

/// An operator in front of its operand (6.5.3.1 to 6.5.3.3).
#[cycle(typing)]
fn prefix_form(
    typer: &Typer<'_>,
    known: &mut Known,
    used: bool,
    at: Extent,
    operator: u32,
    operand: &Expr,
) -> Result<Core, Stop>
    ensures { Follows IsNumbered view_over (source_of typer.now) known.old known.new result (λ later. typing.typed_within (setting_of typer.now) used (known_over later known.old) at.outer (tree.prefix at.inner operator (syntax.expr operand.now))) }
{
    let operand = typed(typer, known, used, operand)?;
    typed_prefix(typer, known, at, operator, operand)
}

/// `sizeof` of an expression, which isn't evaluated (6.5.3.4).
#[cycle(typing)]
fn sizeof_form(
    typer: &Typer<'_>,
    known: &mut Known,
    used: bool,
    at: Extent,
    operand: &Expr,
) -> Result<Core, Stop>
    ensures { Follows IsNumbered view_over (source_of typer.now) known.old known.new result (λ later. typing.typed_within (setting_of typer.now) used (known_over later known.old) at.outer (tree.sizeof_expr at.inner (syntax.expr operand.now))) }
{
    let operand = typed(typer, known, false, operand)?;
    typer.typed_sizeof(known, at, operand)
}

/// `sizeof` of a type name (6.5.3.4).
#[cycle(typing)]
fn sizeof_name_form(
    typer: &Typer<'_>,
    known: &mut Known,
    used: bool,
    at: Extent,
    name: &TypeName,
) -> Result<Core, Stop>
    ensures { Follows IsNumbered view_over (source_of typer.now) known.old known.new result (λ later. typing.typed_within (setting_of typer.now) used (known_over later known.old) at.outer (tree.sizeof_name at.inner (syntax.type_name name.now))) }
{
    let named = typed_name(typer, known, false, name)?;
    typer.typed_sizeof_name(known, at, named.kind, named.constants)
}

/// Expressions with commas between them (6.5.17).
#[cycle(typing)]
fn comma_form(
    typer: &Typer<'_>,
    known: &mut Known,
    used: bool,
    at: Extent,
    parts: &[Expr],
) -> Result<Core, Stop>
    ensures { Follows IsNumbered view_over (source_of typer.now) known.old known.new result (λ later. typing.typed_within (setting_of typer.now) used (known_over later known.old) at.outer (tree.comma at.inner (syntax.exprs (map syntax.expr parts.now)))) }
{
    let values = values(typer, known, used, parts)?;
    comma_of(typer, at, values)
}

/// `a[b]` (6.5.2.1).
#[cycle(typing)]
fn index_form(
    typer: &Typer<'_>,
    known: &mut Known,
    used: bool,
    at: Extent,
    a: &Expr,
    b: &Expr,
) -> Result<Core, Stop>
    ensures { Follows IsNumbered view_over (source_of typer.now) known.old known.new result (λ later. typing.typed_within (setting_of typer.now) used (known_over later known.old) at.outer (tree.index at.inner (syntax.expr a.now) (syntax.expr b.now))) }
{
    let a = value_of(typer, known, used, a)?;
    let b = value_of(typer, known, used, b)?;
    typer.typed_index(known, at, a, b)
}

/// An operator between two operands (6.5.5 to 6.5.14).
#[cycle(typing)]
fn binary_form(
    typer: &Typer<'_>,
    known: &mut Known,
    used: bool,
    at: Extent,
    operator: u32,
    a: &Expr,
    b: &Expr,
) -> Result<Core, Stop>
    ensures { Follows IsNumbered view_over (source_of typer.now) known.old known.new result (λ later. typing.typed_within (setting_of typer.now) used (known_over later known.old) at.outer (tree.binary at.inner (syntax.expr a.now) operator (syntax.expr b.now))) }
{
    let a = value_of(typer, known, used, a)?;
    let b = value_of(typer, known, used, b)?;
    typed_binary(typer, known, at, operator, a, b)
}

/// `?:` (6.5.15).
#[cycle(typing)]
fn conditional_form(
    typer: &Typer<'_>,
    known: &mut Known,
    used: bool,
    at: Extent,
    condition: &Expr,
    a: &Expr,
    b: &Expr,
) -> Result<Core, Stop>
    ensures { Follows IsNumbered view_over (source_of typer.now) known.old known.new result (λ later. typing.typed_within (setting_of typer.now) used (known_over later known.old) at.outer (tree.conditional at.inner (syntax.expr condition.now) (syntax.expr a.now) (syntax.expr b.now))) }
{
    let condition = value_of(typer, known, used, condition)?;
    let a = value_of(typer, known, used, a)?;
    let b = value_of(typer, known, used, b)?;
    typed_choice(typer, known, at, condition, a, b)
}

/// An assignment (6.5.16).
#[cycle(typing)]
fn assign_form(
    typer: &Typer<'_>,
    known: &mut Known,
    used: bool,
    at: Extent,
    operator: u32,
    object: &Expr,
    value: &Expr,
) -> Result<Core, Stop>
    ensures { Follows IsNumbered view_over (source_of typer.now) known.old known.new result (λ later. typing.typed_within (setting_of typer.now) used (known_over later known.old) at.outer (tree.assign at.inner (syntax.expr object.now) operator (syntax.expr value.now))) }
{
    let object = typed(typer, known, used, object)?;
    let value = value_of(typer, known, used, value)?;
    typed_assignment(typer, known, at, operator, object, value)
}

/// A call (6.5.2.2).
#[cycle(typing)]
fn call_form(
    typer: &Typer<'_>,
    known: &mut Known,
    used: bool,
    at: Extent,
    callee: &Expr,
    arguments: &[Expr],
) -> Result<Core, Stop>
    ensures { Follows IsNumbered view_over (source_of typer.now) known.old known.new result (λ later. typing.typed_within (setting_of typer.now) used (known_over later known.old) at.outer (tree.call at.inner (syntax.expr callee.now) (syntax.exprs (map syntax.expr arguments.now)))) }
{
    let tree = typed(typer, known, used, callee)?;
    let values = values(typer, known, used, arguments)?;
    typed_call(typer, known, at, callee, tree, values)
}

/// A cast (6.5.4).
#[cycle(typing)]
fn cast_form(
    typer: &Typer<'_>,
    known: &mut Known,
    used: bool,
    at: Extent,
    name: &TypeName,
    operand: &Expr,
) -> Result<Core, Stop>
    ensures { Follows IsNumbered view_over (source_of typer.now) known.old known.new result (λ later. typing.typed_within (setting_of typer.now) used (known_over later known.old) at.outer (tree.cast at.inner (syntax.type_name name.now) (syntax.expr operand.now))) }
{
    let named = typed_name(typer, known, used, name)?;
    let kind = bare(&known.types, named.kind);
    let operand = value_of(typer, known, used, operand)?;
    typed_cast(typer, known, at, kind, named.constants, operand)
}

/// The values of expressions, from left to right.
#[cycle(typing)]
fn values(
    typer: &Typer<'_>,
    known: &mut Known,
    used: bool,
    exprs: &[Expr],
) -> Result<List<Core>, Stop>
    ensures { Follows AreNumbered views_over (source_of typer.now) known.old known.new result (λ later. typing.typed_values (setting_of typer.now) used (known_over later known.old) (syntax.exprs (map syntax.expr exprs.now))) }
{
    let mut values = List::new(typer.alloc);
    for expr in exprs {
        let value = value_of(typer, known, used, expr)?;
        values.push(value)?;
    }
    Ok(values)
}
