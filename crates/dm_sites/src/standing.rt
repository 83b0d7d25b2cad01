//! Where expressions stand among the tokens.

ghost use Rattle.std.specs.Prelude.{◌≡◌};
ghost use Rattle.dm_type.specs.Tables.{Table};
ghost use Rattle.dm_tree.specs.Initialisers.{shares_tokens};
ghost use Rattle.dm_tree.specs.Trees.{label_of, spans_of};
ghost use Rattle.dm_tree.specs.Trees as trees;
ghost use Rattle.dm_tree.specs.Views.{opened_form, view};
ghost use Rattle.dm_sites.specs.Standing as standing;
ghost use Rattle.dm_sites.specs.Sites as sites;

use dm_token::Span;
use dm_tree::{Core, Form};

/// Whether a form is a statement or a declaration.
pub(crate) fn is_statement(form: &Form) -> bool
    ensures { (types : Table) → trees.is_statement (opened_form types form.now).label ≡ result }
{
    match form {
        Form::Block(_)
        | Form::Declare(_, _)
        | Form::Full(_)
        | Form::Empty
        | Form::If(_, _, _)
        | Form::Switch(_, _)
        | Form::Case(_, _)
        | Form::Default(_)
        | Form::While(_, _)
        | Form::Do(_, _)
        | Form::For(_, _, _, _)
        | Form::Break
        | Form::Continue
        | Form::Return(_) => true,
        _ => false,
    }
}

/// Whether a form is another one than a declaration and `case`.
pub(crate) fn has_full_parts(form: &Form) -> bool
    ensures { (types : Table) → sites.has_full_parts (opened_form types form.now).label ≡ result }
{
    match form {
        Form::Declare(_, _) | Form::Case(_, _) => false,
        _ => true,
    }
}

/// Whether the part with this number is an array length or an enumerator's value in a type name.
pub(crate) fn is_in_type_name(form: &Form, part: usize) -> bool
    ensures { (types : Table) → sites.is_in_type_name (opened_form types form.now).label part ≡ result }
{
    match form {
        Form::Convert(_, _) => 0 < part,
        Form::SizeofKind(_, _) => true,
        _ => false,
    }
}

/// Whether a form is `sizeof`.
pub(crate) fn is_sizeof(form: &Form) -> bool
    ensures { (types : Table) → sites.is_sizeof (opened_form types form.now).label ≡ result }
{
    match form {
        Form::SizeofTree(_) | Form::SizeofKind(_, _) => true,
        _ => false,
    }
}

/// Whether a part has the tokens of the node above it.
fn shares(above: &Core, part: &Core) -> bool
    ensures { (types : Table) → shares_tokens (spans_of (view types above.now)) (view types part.now) ≡ result }
{
    above.inner.first == part.inner.first && above.inner.after == part.inner.after
}

/// Whether a form is a conversion.
fn is_conversion(form: &Form) -> bool
    ensures { (types : Table) → standing.is_conversion (opened_form types form.now).label ≡ result }
{
    match form {
        Form::Convert(_, _) => true,
        _ => false,
    }
}

/// Whether a part of a node is an expression of its own.
pub(crate) fn is_apart(above: &Core, part: &Core) -> bool
    ensures { (types : Table) → standing.is_apart (label_of (view types above.now)) (spans_of (view types above.now)) (view types part.now) ≡ result }
{
    is_conversion(&above.form) || !shares(above, part)
}

/// Whether a tree is a conversion that isn't written.
fn is_implied_conversion(tree: &Core) -> bool
    ensures { (types : Table) → standing.is_implied_conversion (view types tree.now) ≡ result }
{
    match &tree.form {
        Form::Convert(operand, _) => shares(tree, operand.get()),
        _ => false,
    }
}

/// Whether a tree is the value of an expression that is written.
pub(crate) fn is_value(tree: &Core) -> bool
    ensures { (types : Table) → standing.is_value (view types tree.now) ≡ result }
{
    !is_statement(&tree.form) && !is_implied_conversion(tree)
}

/// Whether these are the tokens of a tree, with some of the pairs of parentheses round it or none.
fn is_extent(span: Span, tree: &Core) -> bool
    ensures { (types : Table) → standing.is_extent span (spans_of (view types tree.now)) ≡ result }
{
    if tree.outer.first <= span.first && span.first <= tree.inner.first {
        let pairs = tree.inner.first - span.first;
        span.after as u64 == tree.inner.after as u64 + pairs as u64
    } else {
        false
    }
}

/// Whether a tree is the value of the expression of these tokens.
pub(crate) fn stands(span: Span, tree: &Core) -> bool
    ensures { (types : Table) → standing.stands span (view types tree.now) ≡ result }
{
    is_value(tree) && is_extent(span, tree)
}
