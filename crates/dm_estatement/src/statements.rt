//! Statements by their syntax (6.8).

ghost use Rattle.std.specs.Prelude.{◌≡◌, [], map, option_map};
ghost use Rattle.dm_syn.specs.Trees as tree;
ghost use Rattle.dm_syn.specs.Views as syntax;
ghost use Rattle.dm_typing.specs.Fitting.{IsNumbered, AreNumbered};
ghost use Rattle.dm_typing.specs.Views.{view_over, source_of, setting_of};
ghost use Rattle.dm_edecl.specs.Standing as standings;
ghost use Rattle.dm_edecl.specs.Statements as statements;
ghost use Rattle.dm_estanding.specs.Proceeding.{Proceeds};
ghost use Rattle.dm_estatement.specs.Parts as parts;
ghost use Rattle.dm_estatement.specs.Parts.{within_over, WithinFits, trees_over, optional_over, OptionalFits, labelled_over, LabelledFits, all_over, AllFit, labels_of};

use crate::conditions::Subject;
use crate::here::{condition_here, return_here, subject_here};
use crate::labels::Labels;
use crate::nodes::{
    block as block_node, case as case_node, choice as choice_node, default as default_node,
    do_loop, for_loop, switch as switch_node, while_loop,
};
use crate::simple::{break_here, clauses_here, continue_here, declared_in, expression};
use crate::switches::{
    AllLabelled, Labelled, joined, label_here, none_labelled, trees_of, with_default,
};
use crate::within::Within;
use dm_estanding::Standing;
use dm_int::Kind;
use dm_syn::{Expr, ForStart, Item, Stmt, StmtForm, SwitchForm, SwitchItem};
use dm_token::{Boxed, List, Span, Stop};
use dm_tree::Core;
use dm_typing::Typer;

/// The typed tree of a statement, or the first typing rule that it breaks.
#[cycle(statements)]
pub fn typed_stmt(
    typer: &Typer<'_>,
    within: &Within,
    standing: &mut Standing,
    stmt: &Stmt,
) -> Result<Core, Stop>
    requires { WithinFits standing.old.known.types within.now }
    ensures { Proceeds IsNumbered view_over (source_of typer.now) standing.old standing.new result (λ later before. statements.typed_stmt (setting_of typer.now) (within_over later within.now) before (syntax.stmt stmt.now)) }
{
    if opens_scope(stmt) {
        own_scope(typer, within, standing, stmt)
    } else {
        stmt_inside(typer, within, standing, stmt)
    }
}

/// Whether a statement is a scope of its own (6.8.2, 6.8.4p3, 6.8.5p5).
fn opens_scope(stmt: &Stmt) -> bool
    ensures { result ≡ parts.opens_scope (syntax.stmt stmt.now) }
{
    match &stmt.form {
        StmtForm::Expression(_) | StmtForm::Break | StmtForm::Continue | StmtForm::Return(_) => {
            false
        }
        _ => true,
    }
}

/// A statement in a scope of its own.
#[cycle(statements)]
fn own_scope(
    typer: &Typer<'_>,
    within: &Within,
    standing: &mut Standing,
    stmt: &Stmt,
) -> Result<Core, Stop>
    requires { WithinFits standing.old.known.types within.now }
    ensures { Proceeds IsNumbered view_over (source_of typer.now) standing.old standing.new result (λ later before. standings.in_scope before (λ inside. parts.stmt_inside (setting_of typer.now) (within_over later within.now) inside (syntax.stmt stmt.now))) }
{
    let mark = standing.open()?;
    let made = stmt_inside(typer, within, standing, stmt)?;
    standing.close(mark);
    Ok(made)
}

/// A statement that is part of another, which is a scope of its own (6.8.4p3, 6.8.5p5).
#[cycle(statements)]
fn part(
    typer: &Typer<'_>,
    within: &Within,
    standing: &mut Standing,
    stmt: &Stmt,
) -> Result<Core, Stop>
    requires { WithinFits standing.old.known.types within.now }
    ensures { Proceeds IsNumbered view_over (source_of typer.now) standing.old standing.new result (λ later before. parts.scoped_stmt (setting_of typer.now) (within_over later within.now) before (syntax.stmt stmt.now)) }
{
    let opened = standing.open()?;
    let made = typed_stmt(typer, within, standing, stmt)?;
    standing.close(opened);
    Ok(made)
}

/// A statement by its form, inside its own scope.
#[cycle(statements)]
fn stmt_inside(
    typer: &Typer<'_>,
    within: &Within,
    standing: &mut Standing,
    stmt: &Stmt,
) -> Result<Core, Stop>
    requires { WithinFits standing.old.known.types within.now }
    ensures { Proceeds IsNumbered view_over (source_of typer.now) standing.old standing.new result (λ later before. parts.stmt_inside (setting_of typer.now) (within_over later within.now) before (syntax.stmt stmt.now)) }
{
    let span = stmt.span;
    match &stmt.form {
        StmtForm::Block(items) => block(typer, within, standing, span, items.items()),
        StmtForm::Expression(expr) => expression(typer, within, standing, span, expr),
        StmtForm::If(condition, body, other) => {
            choice(typer, within, standing, span, condition, body.get(), other)
        }
        StmtForm::Switch(operand, items) => {
            switch(typer, within, standing, span, operand, items.items())
        }
        StmtForm::While(condition, body) => {
            while_statement(typer, within, standing, span, condition, body.get())
        }
        StmtForm::Do(body, condition) => {
            do_statement(typer, within, standing, span, body.get(), condition)
        }
        StmtForm::For(start, condition, step, body) => {
            for_statement(
                typer,
                within,
                standing,
                span,
                start,
                condition,
                step,
                body.get(),
            )
        }
        StmtForm::Break => break_here(typer, within, standing, span),
        StmtForm::Continue => continue_here(typer, within, standing, span),
        StmtForm::Return(expr) => return_here(typer, within, standing, span, expr),
    }
}

/// A block (6.8.2).
#[cycle(statements)]
fn block(
    typer: &Typer<'_>,
    within: &Within,
    standing: &mut Standing,
    span: Span,
    items: &[Item],
) -> Result<Core, Stop>
    requires { WithinFits standing.old.known.types within.now }
    ensures { Proceeds IsNumbered view_over (source_of typer.now) standing.old standing.new result (λ later before. parts.stmt_inside (setting_of typer.now) (within_over later within.now) before (tree.block span (syntax.block_items (map syntax.block_item items.now)))) }
{
    let trees = typed_items_in(typer, within, standing, items)?;
    Ok(block_node(typer, within.statement, span, trees))
}

/// `if`, with what stands behind `else` if that does (6.8.4.1).
#[cycle(statements)]
fn choice(
    typer: &Typer<'_>,
    within: &Within,
    standing: &mut Standing,
    span: Span,
    condition: &Expr,
    body: &Stmt,
    other: &Option<Boxed<Stmt>>,
) -> Result<Core, Stop>
    requires { WithinFits standing.old.known.types within.now }
    ensures { Proceeds IsNumbered view_over (source_of typer.now) standing.old standing.new result (λ later before. parts.choice_inside (setting_of typer.now) (within_over later within.now) before span (syntax.expr condition.now) (syntax.stmt body.now) (option_map syntax.stmt other.now)) }
{
    let value = condition_here(typer, standing, condition)?;
    let first = part(typer, within, standing, body)?;
    let second = other_part(typer, within, standing, other)?;
    let made = choice_node(typer, within.statement, span, value, first, second)?;
    Ok(made)
}

/// What stands behind `else`, if that does.
#[cycle(statements)]
fn other_part(
    typer: &Typer<'_>,
    within: &Within,
    standing: &mut Standing,
    other: &Option<Boxed<Stmt>>,
) -> Result<Option<Core>, Stop>
    requires { WithinFits standing.old.known.types within.now }
    ensures { Proceeds OptionalFits optional_over (source_of typer.now) standing.old standing.new result (λ later before. parts.other_part (setting_of typer.now) (within_over later within.now) before (option_map syntax.stmt other.now)) }
{
    match other {
        None => Ok(None),
        Some(other) => {
            let made = part(typer, within, standing, other.get())?;
            Ok(Some(made))
        }
    }
}

/// `switch` (6.8.4.2).
#[cycle(statements)]
fn switch(
    typer: &Typer<'_>,
    within: &Within,
    standing: &mut Standing,
    span: Span,
    operand: &Expr,
    items: &[SwitchItem],
) -> Result<Core, Stop>
    requires { WithinFits standing.old.known.types within.now }
    ensures { Proceeds IsNumbered view_over (source_of typer.now) standing.old standing.new result (λ later before. parts.stmt_inside (setting_of typer.now) (within_over later within.now) before (tree.switch span (syntax.expr operand.now) (syntax.switch_items (map syntax.switch_item items.now)))) }
{
    let subject = subject_here(typer, standing, operand)?;
    let Subject { tree, kind } = subject;
    let all = switch_part(typer, within, kind, standing, items)?;
    let made = switch_node(typer, within.statement, span, tree, trees_of(all))?;
    Ok(made)
}

/// The items of a switch, which are a scope of their own.
#[cycle(statements)]
fn switch_part(
    typer: &Typer<'_>,
    within: &Within,
    kind: Kind,
    standing: &mut Standing,
    items: &[SwitchItem],
) -> Result<AllLabelled, Stop>
    requires { WithinFits standing.old.known.types within.now }
    ensures { Proceeds AllFit all_over (source_of typer.now) standing.old standing.new result (λ later before. parts.switch_part (setting_of typer.now) (within_over later within.now) kind before (syntax.switch_items (map syntax.switch_item items.now))) }
{
    let begun = standing.open()?;
    let made = typed_switch_items(typer, &within.in_switch(), kind, standing, items)?;
    standing.close(begun);
    Ok(made)
}

/// `while` (6.8.5.1).
#[cycle(statements)]
fn while_statement(
    typer: &Typer<'_>,
    within: &Within,
    standing: &mut Standing,
    span: Span,
    condition: &Expr,
    body: &Stmt,
) -> Result<Core, Stop>
    requires { WithinFits standing.old.known.types within.now }
    ensures { Proceeds IsNumbered view_over (source_of typer.now) standing.old standing.new result (λ later before. parts.stmt_inside (setting_of typer.now) (within_over later within.now) before (tree.while span (syntax.expr condition.now) (syntax.stmt body.now))) }
{
    let value = condition_here(typer, standing, condition)?;
    let body = part(typer, &within.in_loop(), standing, body)?;
    let made = while_loop(typer, within.statement, span, value, body)?;
    Ok(made)
}

/// `do` (6.8.5.2).
#[cycle(statements)]
fn do_statement(
    typer: &Typer<'_>,
    within: &Within,
    standing: &mut Standing,
    span: Span,
    body: &Stmt,
    condition: &Expr,
) -> Result<Core, Stop>
    requires { WithinFits standing.old.known.types within.now }
    ensures { Proceeds IsNumbered view_over (source_of typer.now) standing.old standing.new result (λ later before. parts.stmt_inside (setting_of typer.now) (within_over later within.now) before (tree.do_while span (syntax.stmt body.now) (syntax.expr condition.now))) }
{
    let body = part(typer, &within.in_loop(), standing, body)?;
    let value = condition_here(typer, standing, condition)?;
    let made = do_loop(typer, within.statement, span, body, value)?;
    Ok(made)
}

/// `for` (6.8.5.3).
#[cycle(statements)]
fn for_statement(
    typer: &Typer<'_>,
    within: &Within,
    standing: &mut Standing,
    span: Span,
    start: &ForStart,
    condition: &Option<Expr>,
    step: &Option<Expr>,
    body: &Stmt,
) -> Result<Core, Stop>
    requires { WithinFits standing.old.known.types within.now }
    ensures { Proceeds IsNumbered view_over (source_of typer.now) standing.old standing.new result (λ later before. parts.stmt_inside (setting_of typer.now) (within_over later within.now) before (tree.for_loop span (syntax.start start.now) (option_map syntax.expr condition.now) (option_map syntax.expr step.now) (syntax.stmt body.now))) }
{
    let clauses = clauses_here(typer, within, standing, start, condition, step)?;
    let body = part(typer, &within.in_loop(), standing, body)?;
    let made = for_loop(typer, within.statement, span, clauses, body)?;
    Ok(made)
}

/// The declarations and statements of a block, or the first typing rule that they break.
#[cycle(statements)]
pub fn typed_items_in(
    typer: &Typer<'_>,
    within: &Within,
    standing: &mut Standing,
    items: &[Item],
) -> Result<List<Core>, Stop>
    requires { WithinFits standing.old.known.types within.now }
    ensures { Proceeds AreNumbered trees_over (source_of typer.now) standing.old standing.new result (λ later before. statements.typed_items_in (setting_of typer.now) (within_over later within.now) before (syntax.block_items (map syntax.block_item items.now))) }
{
    let mut trees = List::new(typer.alloc);
    for item in items {
        let made = typed_item_in(typer, within, standing, item)?;
        trees.push(made)?;
    }
    Ok(trees)
}

/// A declaration or a statement of a block.
#[cycle(statements)]
fn typed_item_in(
    typer: &Typer<'_>,
    within: &Within,
    standing: &mut Standing,
    item: &Item,
) -> Result<Core, Stop>
    requires { WithinFits standing.old.known.types within.now }
    ensures { Proceeds IsNumbered view_over (source_of typer.now) standing.old standing.new result (λ later before. statements.typed_item_in (setting_of typer.now) (within_over later within.now) before (syntax.block_item item.now)) }
{
    match item {
        Item::Declaration(declaration) => declared_in(typer, within, standing, declaration),
        Item::Statement(stmt) => typed_stmt(typer, within, standing, stmt),
    }
}

/// The items of a switch whose operand has this kind.
#[cycle(statements)]
fn typed_switch_items(
    typer: &Typer<'_>,
    within: &Within,
    kind: Kind,
    standing: &mut Standing,
    items: &[SwitchItem],
) -> Result<AllLabelled, Stop>
    requires { WithinFits standing.old.known.types within.now }
    ensures { Proceeds AllFit all_over (source_of typer.now) standing.old standing.new result (λ later before. statements.typed_switch_items (setting_of typer.now) (within_over later within.now) kind before [] (syntax.switch_items (map syntax.switch_item items.now))) }
{
    let mut all = none_labelled(typer.alloc);
    for item in items {
        let made = item_behind(typer, within, kind, standing, all, item)?;
        all = made;
    }
    Ok(all)
}

/// One item more.
#[cycle(statements)]
fn item_behind(
    typer: &Typer<'_>,
    within: &Within,
    kind: Kind,
    standing: &mut Standing,
    all: AllLabelled,
    item: &SwitchItem,
) -> Result<AllLabelled, Stop>
    requires within { WithinFits standing.old.known.types within.now }
    requires all { AllFit standing.old.known.types all }
    ensures { Proceeds AllFit all_over (source_of typer.now) standing.old standing.new result (λ later before. parts.item_behind (setting_of typer.now) (within_over later within.now) kind (all_over later all) before (syntax.switch_item item.now)) }
{
    let AllLabelled { trees, labels } = all;
    let made = typed_switch_item(typer, within, kind, standing, labels, item)?;
    let joined = joined(trees, made)?;
    Ok(joined)
}

/// A statement with its labels (6.8.1), behind other labels.
#[cycle(statements)]
fn typed_switch_item(
    typer: &Typer<'_>,
    within: &Within,
    kind: Kind,
    standing: &mut Standing,
    labels: Labels,
    item: &SwitchItem,
) -> Result<Labelled, Stop>
    requires { WithinFits standing.old.known.types within.now }
    ensures { Proceeds LabelledFits labelled_over (source_of typer.now) standing.old standing.new result (λ later before. statements.typed_switch_item (setting_of typer.now) (within_over later within.now) kind before (labels_of labels) (syntax.switch_item item.now)) }
{
    match &item.form {
        SwitchForm::Case(expr, inner) => {
            case_item(
                typer,
                within,
                kind,
                standing,
                labels,
                item.span,
                expr,
                inner.get(),
            )
        }
        SwitchForm::Default(inner) => {
            default_item(
                typer,
                within,
                kind,
                standing,
                labels,
                item.span,
                inner.get(),
            )
        }
        SwitchForm::Statement(stmt) => {
            let tree = typed_stmt(typer, within, standing, stmt)?;
            Ok(Labelled { tree, labels })
        }
    }
}

/// `case` and what it labels.
#[cycle(statements)]
fn case_item(
    typer: &Typer<'_>,
    within: &Within,
    kind: Kind,
    standing: &mut Standing,
    labels: Labels,
    span: Span,
    expr: &Expr,
    inner: &SwitchItem,
) -> Result<Labelled, Stop>
    requires { WithinFits standing.old.known.types within.now }
    ensures { Proceeds LabelledFits labelled_over (source_of typer.now) standing.old standing.new result (λ later before. statements.typed_switch_item (setting_of typer.now) (within_over later within.now) kind before (labels_of labels) (tree.case span (syntax.expr expr.now) (syntax.switch_item inner.now))) }
{
    let one = label_here(typer, standing, kind, labels, expr)?;
    let Labelled {
        tree: value,
        labels,
    } = one;
    let made = typed_switch_item(typer, within, kind, standing, labels, inner)?;
    let Labelled { tree, labels } = made;
    let tree = case_node(typer, within.statement, span, value, tree)?;
    Ok(Labelled { tree, labels })
}

/// `default` and what it labels (C31).
#[cycle(statements)]
fn default_item(
    typer: &Typer<'_>,
    within: &Within,
    kind: Kind,
    standing: &mut Standing,
    labels: Labels,
    span: Span,
    inner: &SwitchItem,
) -> Result<Labelled, Stop>
    requires { WithinFits standing.old.known.types within.now }
    ensures { Proceeds LabelledFits labelled_over (source_of typer.now) standing.old standing.new result (λ later before. statements.typed_switch_item (setting_of typer.now) (within_over later within.now) kind before (labels_of labels) (tree.default span (syntax.switch_item inner.now))) }
{
    let labels = with_default(typer, labels, span.first)?;
    let made = typed_switch_item(typer, within, kind, standing, labels, inner)?;
    let Labelled { tree, labels } = made;
    let tree = default_node(typer, within.statement, span, tree)?;
    Ok(Labelled { tree, labels })
}
