//! The nodes of statements.

ghost use Rattle.std.specs.Prelude.{◌≡◌, ℕ, true, ◌&&◌, nat_lt, is_some, [], ◌∷◌, ◌++◌, length, map, option_map, IfOk};
ghost use Rattle.dm_type.specs.Tables.{Table, type_of};
ghost use Rattle.dm_tree.specs.Trees as label;
ghost use Rattle.dm_tree.specs.TypeNumbers.{are_known, are_known_in_local, all_pass, passes_if_there};
ghost use Rattle.dm_tree.specs.Views.{view, view_of_local, if_there, declarators_of, expressions_of_locals};
ghost use Rattle.dm_typing.specs.Conversions.{made};
ghost use Rattle.dm_typing.specs.Typing as typing;
ghost use Rattle.dm_typing.specs.Views.{source_of};
ghost use Rattle.dm_estatement.specs.Parts.{full_label};

use dm_token::{Boxed, List, Memory, Span};
use dm_tree::{Core, Form, Local};
use dm_type::TypeId;
use dm_typing::{Extent, Typer};

/// The three clauses of a `for` (6.8.5.3).
#[derive(Drop)]
pub(crate) struct Clauses {
    pub first: Option<Core>,
    pub condition: Option<Core>,
    pub step: Option<Core>,
}

/// A statement's own tokens.
fn extent(span: Span) -> Extent
    ensures { result ≡ typing.extent span span }
{
    Extent {
        inner: span,
        outer: span,
    }
}

/// A tree below a node that may be absent.
fn boxed_if(typer: &Typer<'_>, tree: Option<Core>) -> Result<Option<Boxed<Core>>, Memory>
    ensures { IfOk result (λ boxed. boxed ≡ tree) }
{
    match tree {
        None => Ok(None),
        Some(tree) => {
            let boxed = typer.boxed(tree)?;
            Ok(Some(boxed))
        }
    }
}

/// A block (6.8.2).
pub(crate) fn block(typer: &Typer<'_>, kind: TypeId, span: Span, items: List<Core>) -> Core
    ensures view { (types : Table) → view types result ≡ made (source_of typer.now) (typing.extent span span) label.block (type_of types kind) (map (view types) items) }
    ensures known { (n : ℕ) → are_known n result ≡ (nat_lt kind n && all_pass (map (are_known n) items)) }
{
    typer.made(extent(span), Form::Block(items), kind)
}

/// A declaration (6.7).
pub(crate) fn declaration(
    typer: &Typer<'_>,
    kind: TypeId,
    span: Span,
    constants: List<Core>,
    locals: List<Local>,
) -> Core
    ensures view { (types : Table) → view types result ≡ made (source_of typer.now) (typing.extent span span) (label.declare (length (map (view types) constants)) (declarators_of (map (view_of_local types) locals)))
        (type_of types kind) (map (view types) constants ++ expressions_of_locals (map (view_of_local types) locals)) }
    ensures known { (n : ℕ) → are_known n result ≡ (nat_lt kind n && (all_pass (map (are_known n) constants) && all_pass (map (are_known_in_local n) locals))) }
{
    typer.made(extent(span), Form::Declare(constants, locals), kind)
}

/// An expression statement, or the empty one (6.8.3).
pub(crate) fn full(
    typer: &Typer<'_>,
    kind: TypeId,
    span: Span,
    value: Option<Core>,
) -> Result<Core, Memory>
    ensures view { IfOk result (λ core. (types : Table) → view types core ≡ made (source_of typer.now) (typing.extent span span) (full_label value) (type_of types kind) (if_there (option_map (view types) value))) }
    ensures known { IfOk result (λ core. (n : ℕ) → are_known n core ≡ (nat_lt kind n && passes_if_there (option_map (are_known n) value))) }
{
    match value {
        None => Ok(typer.made(extent(span), Form::Empty, kind)),
        Some(value) => {
            let value = typer.boxed(value)?;
            Ok(typer.made(extent(span), Form::Full(value), kind))
        }
    }
}

/// `if` (6.8.4.1).
pub(crate) fn choice(
    typer: &Typer<'_>,
    kind: TypeId,
    span: Span,
    condition: Core,
    body: Core,
    other: Option<Core>,
) -> Result<Core, Memory>
    ensures view { IfOk result (λ core. (types : Table) → view types core ≡ made (source_of typer.now) (typing.extent span span) label.if_statement (type_of types kind) (view types condition ∷ view types body ∷ if_there (option_map (view types) other))) }
    ensures known { IfOk result (λ core. (n : ℕ) → are_known n core ≡ (nat_lt kind n && (are_known n condition && (are_known n body && passes_if_there (option_map (are_known n) other))))) }
{
    let condition = typer.boxed(condition)?;
    let body = typer.boxed(body)?;
    let form = Form::If(condition, body, boxed_if(typer, other)?);
    Ok(typer.made(extent(span), form, kind))
}

/// `switch` (6.8.4.2).
pub(crate) fn switch(
    typer: &Typer<'_>,
    kind: TypeId,
    span: Span,
    operand: Core,
    items: List<Core>,
) -> Result<Core, Memory>
    ensures view { IfOk result (λ core. (types : Table) → view types core ≡ made (source_of typer.now) (typing.extent span span) label.switch (type_of types kind) (view types operand ∷ map (view types) items)) }
    ensures known { IfOk result (λ core. (n : ℕ) → are_known n core ≡ (nat_lt kind n && (are_known n operand && all_pass (map (are_known n) items)))) }
{
    let form = Form::Switch(typer.boxed(operand)?, items);
    Ok(typer.made(extent(span), form, kind))
}

/// `case` and the statement that it labels (6.8.1).
pub(crate) fn case(
    typer: &Typer<'_>,
    kind: TypeId,
    span: Span,
    value: Core,
    item: Core,
) -> Result<Core, Memory>
    ensures view { IfOk result (λ core. (types : Table) → view types core ≡ made (source_of typer.now) (typing.extent span span) label.case (type_of types kind) (view types value ∷ view types item ∷ [])) }
    ensures known { IfOk result (λ core. (n : ℕ) → are_known n core ≡ (nat_lt kind n && (are_known n value && are_known n item))) }
{
    let value = typer.boxed(value)?;
    let form = Form::Case(value, typer.boxed(item)?);
    Ok(typer.made(extent(span), form, kind))
}

/// `default` and the statement that it labels (6.8.1).
pub(crate) fn default(
    typer: &Typer<'_>,
    kind: TypeId,
    span: Span,
    item: Core,
) -> Result<Core, Memory>
    ensures view { IfOk result (λ core. (types : Table) → view types core ≡ made (source_of typer.now) (typing.extent span span) label.default (type_of types kind) (view types item ∷ [])) }
    ensures known { IfOk result (λ core. (n : ℕ) → are_known n core ≡ (nat_lt kind n && are_known n item)) }
{
    let form = Form::Default(typer.boxed(item)?);
    Ok(typer.made(extent(span), form, kind))
}

/// `while` (6.8.5.1).
pub(crate) fn while_loop(
    typer: &Typer<'_>,
    kind: TypeId,
    span: Span,
    condition: Core,
    body: Core,
) -> Result<Core, Memory>
    ensures view { IfOk result (λ core. (types : Table) → view types core ≡ made (source_of typer.now) (typing.extent span span) label.while_loop (type_of types kind) (view types condition ∷ view types body ∷ [])) }
    ensures known { IfOk result (λ core. (n : ℕ) → are_known n core ≡ (nat_lt kind n && (are_known n condition && are_known n body))) }
{
    let condition = typer.boxed(condition)?;
    let form = Form::While(condition, typer.boxed(body)?);
    Ok(typer.made(extent(span), form, kind))
}

/// `do` (6.8.5.2).
pub(crate) fn do_loop(
    typer: &Typer<'_>,
    kind: TypeId,
    span: Span,
    body: Core,
    condition: Core,
) -> Result<Core, Memory>
    ensures view { IfOk result (λ core. (types : Table) → view types core ≡ made (source_of typer.now) (typing.extent span span) label.do_loop (type_of types kind) (view types body ∷ view types condition ∷ [])) }
    ensures known { IfOk result (λ core. (n : ℕ) → are_known n core ≡ (nat_lt kind n && (are_known n body && are_known n condition))) }
{
    let body = typer.boxed(body)?;
    let form = Form::Do(body, typer.boxed(condition)?);
    Ok(typer.made(extent(span), form, kind))
}

/// `for` (6.8.5.3).
pub(crate) fn for_loop(
    typer: &Typer<'_>,
    kind: TypeId,
    span: Span,
    clauses: Clauses,
    body: Core,
) -> Result<Core, Memory>
    ensures view { IfOk result (λ core. (types : Table) → view types core ≡ made (source_of typer.now) (typing.extent span span) (label.for_loop (is_some clauses.first) (is_some clauses.condition) (is_some clauses.step)) (type_of types kind)
        (if_there (option_map (view types) clauses.first) ++ (if_there (option_map (view types) clauses.condition) ++ (if_there (option_map (view types) clauses.step) ++ view types body ∷ [])))) }
    ensures known { IfOk result (λ core. (n : ℕ) → are_known n core ≡ (nat_lt kind n && (passes_if_there (option_map (are_known n) clauses.first) && (passes_if_there (option_map (are_known n) clauses.condition)
        && (passes_if_there (option_map (are_known n) clauses.step) && are_known n body))))) }
{
    let Clauses {
        first,
        condition,
        step,
    } = clauses;
    let body = typer.boxed(body)?;
    let first = boxed_if(typer, first)?;
    let condition = boxed_if(typer, condition)?;
    let step = boxed_if(typer, step)?;
    Ok(for_boxed(typer, kind, span, first, condition, step, body))
}

/// The same of trees that are boxed.
fn for_boxed(
    typer: &Typer<'_>,
    kind: TypeId,
    span: Span,
    first: Option<Boxed<Core>>,
    condition: Option<Boxed<Core>>,
    step: Option<Boxed<Core>>,
    body: Boxed<Core>,
) -> Core
    ensures view { (types : Table) → view types result ≡ made (source_of typer.now) (typing.extent span span) (label.for_loop (is_some first) (is_some condition) (is_some step)) (type_of types kind)
        (if_there (option_map (view types) first) ++ (if_there (option_map (view types) condition) ++ (if_there (option_map (view types) step) ++ view types body ∷ []))) }
    ensures known { (n : ℕ) → are_known n result ≡ (nat_lt kind n && (passes_if_there (option_map (are_known n) first) && (passes_if_there (option_map (are_known n) condition)
        && (passes_if_there (option_map (are_known n) step) && are_known n body)))) }
{
    typer.made(extent(span), Form::For(first, condition, step, body), kind)
}

/// `break` (6.8.6.3).
pub(crate) fn breaking(typer: &Typer<'_>, kind: TypeId, span: Span) -> Core
    ensures view { (types : Table) → view types result ≡ made (source_of typer.now) (typing.extent span span) label.break (type_of types kind) [] }
    ensures known { (n : ℕ) → are_known n result ≡ (nat_lt kind n && true) }
{
    typer.made(extent(span), Form::Break, kind)
}

/// `continue` (6.8.6.2).
pub(crate) fn continuing(typer: &Typer<'_>, kind: TypeId, span: Span) -> Core
    ensures view { (types : Table) → view types result ≡ made (source_of typer.now) (typing.extent span span) label.continue (type_of types kind) [] }
    ensures known { (n : ℕ) → are_known n result ≡ (nat_lt kind n && true) }
{
    typer.made(extent(span), Form::Continue, kind)
}

/// `return` (6.8.6.4).
pub(crate) fn giving(
    typer: &Typer<'_>,
    kind: TypeId,
    span: Span,
    value: Option<Core>,
) -> Result<Core, Memory>
    ensures view { IfOk result (λ core. (types : Table) → view types core ≡ made (source_of typer.now) (typing.extent span span) label.return (type_of types kind) (if_there (option_map (view types) value))) }
    ensures known { IfOk result (λ core. (n : ℕ) → are_known n core ≡ (nat_lt kind n && passes_if_there (option_map (are_known n) value))) }
{
    let form = Form::Return(boxed_if(typer, value)?);
    Ok(typer.made(extent(span), form, kind))
}
