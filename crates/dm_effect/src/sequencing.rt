//! Where a tree stands among the operands of an expression (5.1.2.3p3, 6.5p3).

ghost use Rattle.std.specs.Prelude.{◌≡◌};
ghost use Rattle.dm_type.specs.Tables.{Table};
ghost use Rattle.dm_tree.specs.Views.{opened_form, view};
ghost use Rattle.dm_effect.specs.Sequencing as sequencing;

use crate::parts::part;
use dm_token::List;
use dm_tree::{Core, Form};

/// Numbers of parts, from the whole downwards, each counted from 0.
pub type Path = List<usize>;

/// Whether nothing on the way to a place is picked by another operand, and nothing on it isn't evaluated. A way that leads to no
/// tree isn't so.
pub fn first(body: &Core, at: &Path) -> bool
    ensures { (types : Table) → result ≡ sequencing.is_first at.now (view types body.now) }
{
    let mut tree = body;
    let mut left = at.items();
    while let Some((number, rest)) = left.split_first() {
        if !comes_first(&tree.form, *number) {
            return false;
        }
        match part(tree, *number) {
            Some(next) => tree = next,
            None => return false,
        }
        left = rest;
    }
    true
}

/// Whether the part with this number is evaluated before its node picks another one.
fn comes_first(form: &Form, number: usize) -> bool
    ensures { (types : Table) → result ≡ sequencing.comes_first (opened_form types form.now).label number }
{
    match form {
        Form::Both(_, _)
        | Form::Either(_, _)
        | Form::Choose(_, _, _)
        | Form::Comma(_, _)
        | Form::Convert(_, _) => number == 0,
        Form::SizeofTree(_) | Form::SizeofKind(_, _) => false,
        _ => true,
    }
}
