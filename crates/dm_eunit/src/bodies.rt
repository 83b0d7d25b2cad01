//! The bodies of function definitions (6.9.1).

ghost use Rattle.std.specs.Prelude.{◌≡◌, ℕ, ◌&&◌, nat_lt, List as Sequence, map, option_map, IfOk, IfSome};
ghost use Rattle.std.specs.FinMap as finite;
ghost use Rattle.dm_type.specs.declared.shape.Shape.{Shape as OneShape};
ghost use Rattle.dm_type.specs.Tables.{Table, IsId, type_of};
ghost use Rattle.dm_syn.specs.Views as syntax;
ghost use Rattle.dm_tree.specs.Trees as label;
ghost use Rattle.dm_tree.specs.TypeNumbers.{are_known, all_pass};
ghost use Rattle.dm_tree.specs.Views.{view};
ghost use Rattle.dm_typing.specs.Conversions.{made};
ghost use Rattle.dm_typing.specs.Fitting.{IsNumbered};
ghost use Rattle.dm_typing.specs.Typing as typing;
ghost use Rattle.dm_typing.specs.Views.{Begins, type_over, view_over, source_of, setting_of, Grows};
ghost use Rattle.dm_edecl.specs.Units as units;
ghost use Rattle.dm_estanding.specs.Proceeding.{Proceeds};
ghost use Rattle.dm_estatement.specs.Parts.{within_over, WithinFits};
ghost use Rattle.dm_eunit.specs.Functions as functions;
ghost use Rattle.dm_eunit.specs.Naming.{with_names};

use crate::naming::Numbered;
use crate::reopening::reopened;
use dm_estanding::Standing;
use dm_estatement::Within;
use dm_estatement::statements::{typed_items_in, typed_stmt};
use dm_syn::{Item, Stmt, StmtForm};
use dm_token::{List, Memory, Span, Stop};
use dm_tree::{Core, Form};
use dm_type::{Shape, TypeId, Types};
use dm_typing::looks::bare;
use dm_typing::{Extent, Known, Typer};

/// The type of a function's result, without its const (6.7.6.3p5).
fn answer_of(types: &Types, kind: TypeId) -> Option<TypeId>
    requires { IsId types.now kind }
    ensures answer { option_map (type_of types.now) result ≡ functions.answer_of (type_of types.now kind) }
    ensures numbered { IfSome result (IsId types.now) }
{
    match types.shape(kind) {
        Shape::Function(result, _) => Some(bare(types, *result)),
        _ => None,
    }
}

/// The same, and void for any other type.
fn result_of(known: &mut Known, kind: TypeId) -> Result<TypeId, Memory>
    requires { IsId known.old.types kind }
    ensures answer { IfOk result (λ answer. (later : Sequence OneShape) → Begins known.new.types.shapes later → type_over later answer ≡ units.result_of (type_over later kind)) }
    ensures numbered { IfOk result (IsId known.new.types) }
    ensures grows { Grows known.old known.new }
{
    match answer_of(&known.types, kind) {
        Some(answer) => Ok(answer),
        None => {
            let void = known.intern(Shape::Void)?;
            Ok(void)
        }
    }
}

/// Within the body of a function of this type.
fn within_of(known: &mut Known, kind: TypeId) -> Result<Within, Memory>
    requires { IsId known.old.types kind }
    ensures within { IfOk result (λ within. (later : Sequence OneShape) → Begins known.new.types.shapes later → within_over later within ≡ units.body_within (type_over later kind)) }
    ensures fits { IfOk result (WithinFits known.new.types) }
    ensures grows { Grows known.old known.new }
{
    let answer = result_of(known, kind)?;
    let within = Within::function(known, answer)?;
    Ok(within)
}

/// The body of a function of this type, whose parameters have these names.
pub(crate) fn body_of(
    typer: &Typer<'_>,
    standing: &mut Standing,
    kind: TypeId,
    names: &[Numbered],
    stmt: &Stmt,
) -> Result<Core, Stop>
    requires { IsId standing.old.known.types kind }
    ensures { Proceeds IsNumbered view_over (source_of typer.now) standing.old standing.new result (λ later before. units.typed_body (setting_of typer.now) (units.body_within (type_over later kind)) before (with_names finite.empty names.now) (syntax.stmt stmt.now)) }
{
    let within = within_of(&mut standing.known, kind)?;
    typed_body(typer, &within, standing, names, stmt)
}

/// A body, which is one scope with the parameters (6.2.1p4).
fn typed_body(
    typer: &Typer<'_>,
    within: &Within,
    standing: &mut Standing,
    names: &[Numbered],
    stmt: &Stmt,
) -> Result<Core, Stop>
    requires { WithinFits standing.old.known.types within.now }
    ensures { Proceeds IsNumbered view_over (source_of typer.now) standing.old standing.new result (λ later before. units.typed_body (setting_of typer.now) (within_over later within.now) before (with_names finite.empty names.now) (syntax.stmt stmt.now)) }
{
    match &stmt.form {
        StmtForm::Block(items) => {
            block_scoped(typer, within, standing, names, stmt.span, items.items())
        }
        _ => typed_stmt(typer, within, standing, stmt),
    }
}

/// A block that is one scope with these names.
fn block_scoped(
    typer: &Typer<'_>,
    within: &Within,
    standing: &mut Standing,
    names: &[Numbered],
    span: Span,
    items: &[Item],
) -> Result<Core, Stop>
    requires { WithinFits standing.old.known.types within.now }
    ensures { Proceeds IsNumbered view_over (source_of typer.now) standing.old standing.new result (λ later before. functions.block_scoped (setting_of typer.now) (within_over later within.now) before (with_names finite.empty names.now) span (syntax.block_items (map syntax.block_item items.now))) }
{
    let mark = reopened(standing, names)?;
    let made = block_inside(typer, within, standing, span, items)?;
    standing.close(mark);
    Ok(made)
}

/// A block without its scope.
fn block_inside(
    typer: &Typer<'_>,
    within: &Within,
    standing: &mut Standing,
    span: Span,
    items: &[Item],
) -> Result<Core, Stop>
    requires { WithinFits standing.old.known.types within.now }
    ensures { Proceeds IsNumbered view_over (source_of typer.now) standing.old standing.new result (λ later inside. functions.block_inside (setting_of typer.now) (within_over later within.now) span (syntax.block_items (map syntax.block_item items.now)) inside) }
{
    let kind = within.statement;
    let trees = typed_items_in(typer, within, standing, items)?;
    Ok(block(typer, kind, span, trees))
}

/// The node of a block (6.8.2).
fn block(typer: &Typer<'_>, kind: TypeId, span: Span, items: List<Core>) -> Core
    ensures view { (types : Table) → view types result ≡ made (source_of typer.now) (typing.extent span span) label.block (type_of types kind) (map (view types) items) }
    ensures known { (n : ℕ) → are_known n result ≡ (nat_lt kind n && all_pass (map (are_known n) items)) }
{
    let at = Extent {
        inner: span,
        outer: span,
    };
    typer.made(at, Form::Block(items), kind)
}
