//! Which trees are the value of an expression that is written, and which parts of a node are expressions of their own.

ghost use Rattle.std.specs.Prelude.{◌≡◌};
ghost use Rattle.dm_type.specs.Tables.{Table};
ghost use Rattle.dm_tree.specs.Trees as trees;
ghost use Rattle.dm_tree.specs.Trees.{label_of, spans_of};
ghost use Rattle.dm_tree.specs.Views.{opened_form, view};
ghost use Rattle.dm_sites.specs.Standing as standing;

use dm_tree::{Core, Form};

fn is_statement(form: &Form) -> bool
    ensures { (types : Table) → trees.is_statement (opened_form types form.now).label ≡ result }
{
    matches!(
        form,
        Form::Block(_)
            | Form::Declare(_, _)
            | Form::Full(_)
            | Form::Empty
            | Form::If(_, _, _)
            | Form::Switch(_, _)
            | Form::Case(_, _)
            | Form::Default(_)
            | Form::While(_, _)
            | Form::Do(_, _)
            | Form::For(_, _, _, _)
            | Form::Break
            | Form::Continue
            | Form::Return(_)
    )
}

/// Whether a tree is a conversion with the tokens of its operand.
fn is_implied(tree: &Core) -> bool
    ensures { (types : Table) → standing.is_implied_conversion (view types tree.now) ≡ result }
{
    match &tree.form {
        Form::Convert(operand, _) => tree.inner == operand.get().inner,
        _ => false,
    }
}

/// Whether a tree is the value of an expression that is written.
pub fn is_value(tree: &Core) -> bool
    ensures { (types : Table) → standing.is_value (view types tree.now) ≡ result }
{
    !is_statement(&tree.form) && !is_implied(tree)
}

/// Whether a part is an expression of its own.
pub(crate) fn is_apart(above: &Core, part: &Core) -> bool
    ensures { (types : Table) → standing.is_apart (label_of (view types above.now)) (spans_of (view types above.now)) (view types part.now) ≡ result }
{
    match &above.form {
        Form::Convert(_, _) => true,
        _ => above.inner != part.inner,
    }
}
