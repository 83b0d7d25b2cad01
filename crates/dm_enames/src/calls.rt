//! Calls and commas (6.5.2.2, 6.5.17).

ghost use Rattle.std.specs.Prelude.{◌≡◌, ◌&&◌, All, List, [], ◌∷◌, IfOk, IfSome, map, MatchOption, option_map};
ghost use Rattle.dm_syn.specs.Views as syntax;
ghost use Rattle.dm_type.specs.declared.shape.Shape.{Shape as OneShape};
ghost use Rattle.dm_type.specs.CTypes.{all_of};
ghost use Rattle.dm_type.specs.Tables.{Table, IsId, type_of};
ghost use Rattle.dm_tree.specs.Trees.{label_of};
ghost use Rattle.dm_tree.specs.Views.{view};
ghost use Rattle.dm_typing.specs.Fitting.{IsNumbered, AreNumbered};
ghost use Rattle.dm_typing.specs.Known as meant;
ghost use Rattle.dm_typing.specs.Known.{given, if_given};
ghost use Rattle.dm_enames.specs.Meanings as meanings;
ghost use Rattle.dm_enames.specs.Meanings.{call_over};
ghost use Rattle.dm_typing.specs.Rules as rules;
ghost use Rattle.dm_typing.specs.Typing as typing;
ghost use Rattle.dm_typing.specs.Views.{Begins, type_over, view_over, known_over, source_of, setting_of, Gives};

use dm_ebinary::assignments::is_assignable;
use dm_syn::{Expr, ExprForm};
use dm_token::{List, Memory, Stop};
use dm_tree::{Core, Form};
use dm_type::{Shape, TypeId, Types};
use dm_typing::looks::bare;
use dm_typing::{Extent, Known, Typer};
use std::collections::VecDeque;

/// The type of a call's result, and its arguments after their conversions.
#[derive(Drop)]
pub struct Call {
    pub kind: TypeId,
    pub arguments: List<Core>,
}

/// Whether an expression is a name, in parentheses or not.
fn is_name(expr: &Expr) -> bool
    ensures { result ≡ typing.is_name (syntax.expr expr.now) }
{
    match &expr.form {
        ExprForm::Name => true,
        ExprForm::Paren(inner) => is_name(inner.get()),
        _ => false,
    }
}

/// Whether the tree is the name of a function.
fn is_function_name(core: &Core) -> bool
    ensures { (types : Table) → result ≡ typing.is_function_label (label_of (view types core.now)) }
{
    matches!(&core.form, Form::Function(_))
}

/// Whether what is called is named, and a function.
fn names_function(callee: &Expr, tree: &Core) -> bool
    ensures { (types : Table) → result ≡ (typing.is_name (syntax.expr callee.now) && typing.is_function_label (label_of (view types tree.now))) }
{
    is_name(callee) && is_function_name(tree)
}

/// The types of the result and of the parameters of a function type.
fn function_of(types: &Types, id: TypeId) -> Option<(TypeId, &[TypeId])>
    requires { IsId types.now id }
    ensures parts { option_map (λ parts. (type_of types.now parts.0, all_of (map (type_of types.now) parts.1.now))) result ≡ meanings.parts_of (type_of types.now id) }
    ensures numbered { IfSome result (λ parts. IsId types.now parts.0 × All (IsId types.now) parts.1.now) }
{
    match types.shape(id) {
        Shape::Function(result, parameters) => Some((*result, parameters.items())),
        _ => None,
    }
}

/// The first tree of a queue, which leaves it.
fn next_of(queue: &mut VecDeque<Core>) -> Option<Core>
    ensures { MatchOption result ((queue.old.items ≡ []) × (queue.new.items ≡ [])) (λ tree. queue.old.items ≡ tree ∷ queue.new.items) }
{
    queue.pop_front()
}

/// A call (C10).
pub fn typed_call(
    typer: &Typer<'_>,
    known: &Known,
    at: Extent,
    callee: &Expr,
    tree: Core,
    values: List<Core>,
) -> Result<Core, Stop>
    requires tree { IsNumbered known.now.types tree }
    requires values { AreNumbered known.now.types values }
    ensures gives { (later : List OneShape) → Begins known.now.types.shapes later → Gives (view_over later) (source_of typer.now) (known_over later known.now) result
        (typing.typed_call (setting_of typer.now) (known_over later known.now) at (syntax.expr callee.now) (view_over later tree) (map (view_over later) values)) }
    ensures numbered { IfOk result (IsNumbered known.now.types) }
{
    if !names_function(callee, &tree) {
        return Err(typer.broken(10, at.inner.first));
    }
    let found = call_of(typer, known, tree.kind, values)?;
    match found {
        Some(call) => {
            let made = typer.called(at, tree, call.arguments, call.kind)?;
            Ok(made)
        }
        None => Err(typer.broken(10, at.inner.first)),
    }
}

/// The call of a function of a type with these values, if they may be passed (6.5.2.2p2).
fn call_of(
    typer: &Typer<'_>,
    known: &Known,
    kind: TypeId,
    values: List<Core>,
) -> Result<Option<Call>, Memory>
    requires kind { IsId known.now.types kind }
    requires values { AreNumbered known.now.types values }
    ensures call { IfOk result (λ call. (later : List OneShape) → Begins known.now.types.shapes later
        → option_map (call_over later) call ≡ rules.called (known_over later known.now) (type_over later kind) (map (view_over later) values)) }
    ensures numbered { IfOk result (λ call. IfSome call (λ one. IsId known.now.types one.kind × AreNumbered known.now.types one.arguments)) }
{
    match function_of(&known.types, kind) {
        Some(parts) => {
            let arguments = passed(typer, known, values, parts.1)?;
            Ok(called_with(bare(&known.types, parts.0), arguments))
        }
        None => Ok(None),
    }
}

/// Arguments after their conversions, if they are as many as the parameters and may be passed.
fn passed(
    typer: &Typer<'_>,
    known: &Known,
    values: List<Core>,
    parameters: &[TypeId],
) -> Result<Option<List<Core>>, Memory>
    requires values { AreNumbered known.now.types values }
    requires parameters { All (IsId known.now.types) parameters.now }
    ensures passed { IfOk result (λ passed. (later : List OneShape) → Begins known.now.types.shapes later
        → option_map (map (view_over later)) passed ≡ rules.passed (known_over later known.now) (map (view_over later) values) (all_of (map (type_over later) parameters.now))) }
    ensures numbered { IfOk result (λ passed. IfSome passed (AreNumbered known.now.types)) }
{
    let mut queue = VecDeque::from(values.into_vec());
    let mut passed = List::new(typer.alloc);
    let mut rest = parameters;
    while let Some(value) = next_of(&mut queue) {
        let Some((parameter, others)) = rest.split_first() else {
            return Ok(None);
        };
        let made = argument(typer, known, value, *parameter)?;
        let Some(converted) = made else {
            return Ok(None);
        };
        passed.push(converted)?;
        rest = others;
    }
    if rest.is_empty() {
        Ok(Some(passed))
    } else {
        Ok(None)
    }
}

/// An argument after its conversion, if it may be passed.
fn argument(
    typer: &Typer<'_>,
    known: &Known,
    value: Core,
    parameter: TypeId,
) -> Result<Option<Core>, Memory>
    requires value { IsNumbered known.now.types value }
    requires parameter { IsId known.now.types parameter }
    ensures argument { IfOk result (λ made. (later : List OneShape) → Begins known.now.types.shapes later
        → option_map (view_over later) made ≡ meanings.argument (known_over later known.now) (view_over later value) (type_over later parameter)) }
    ensures numbered { IfOk result (λ made. IfSome made (IsNumbered known.now.types)) }
{
    if !is_assignable(known, &value, parameter) {
        return Ok(None);
    }
    let made = typer.as_type(known, parameter, value)?;
    Ok(Some(made))
}

/// Commas nest to the left (6.5.17).
pub fn comma_of(typer: &Typer<'_>, at: Extent, values: List<Core>) -> Result<Core, Stop>
    ensures gives { (later : List OneShape) (known : meant.Known) → Gives (view_over later) (source_of typer.now) known result
        (if_given (typing.comma_of (setting_of typer.now) at (map (view_over later) values)) 1 at.inner.first (λ made. given known made)) }
    ensures numbered { IfOk result (λ made. (types : Table) → AreNumbered types values → IsNumbered types made) }
{
    let mut queue = VecDeque::from(values.into_vec());
    match next_of(&mut queue) {
        Some(first) => {
            let made = comma_behind(typer, at, first, queue)?;
            Ok(made)
        }
        None => Err(typer.broken(1, at.inner.first)),
    }
}

/// What stands behind a comma's first part follows it from left to right.
fn comma_behind(
    typer: &Typer<'_>,
    at: Extent,
    first: Core,
    others: VecDeque<Core>,
) -> Result<Core, Memory>
    ensures tree { IfOk result (λ made. (later : List OneShape) → view_over later made ≡ typing.comma_tree (setting_of typer.now) at (view_over later first) (map (view_over later) others.items)) }
    ensures numbered { IfOk result (λ made. (types : Table) → IsNumbered types first → AreNumbered types others.items → IsNumbered types made) }
{
    let mut queue = others;
    let mut tree = first;
    while let Some(second) = next_of(&mut queue) {
        let kind = second.kind;
        tree = typer.comma(at, tree, second, kind)?;
    }
    Ok(tree)
}

/// A call whose arguments may be passed.
fn called_with(kind: TypeId, passed: Option<List<Core>>) -> Option<Call>
    ensures { result ≡ option_map (meanings.call_with kind) passed }
{
    match passed {
        Some(arguments) => Some(Call { kind, arguments }),
        None => None,
    }
}
