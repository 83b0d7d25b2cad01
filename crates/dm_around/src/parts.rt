//! The parts of expressions.

ghost use Rattle.std.specs.Prelude.{◌≡◌, ◌≤◌, false, length, option_map};
ghost use Rattle.std.specs.Option.{option_copied};
ghost use Rattle.dm_type.specs.Tables.{Table};
ghost use Rattle.dm_tree.specs.Trees.{is_statement};
ghost use Rattle.dm_tree.specs.Views.{if_there, opened_form, view};
ghost use Rattle.dm_effect.specs.Sequencing as sequencing;

use dm_effect::parts_of;
use dm_tree::{Core, Form};

/// How many parts an expression has.
pub(crate) fn count_parts(form: &Form) -> usize
    ensures { (types : Table) → is_statement (opened_form types form.now).label ≡ false → result ≡ length (opened_form types form.now).parts }
{
    let parts = parts_of(form);
    let singles = count(parts.first)
        + count(parts.second)
        + count(parts.third)
        + count(parts.fourth);
    singles + parts.items.len()
}

/// How many trees are there.
fn count(part: Option<&Core>) -> usize
    ensures same { (types : Table) → result ≡ length (if_there (option_map (view types) (option_copied part.entry))) }
    ensures few { result ≤ 1 }
{
    match part {
        Some(_) => 1,
        None => 0,
    }
}

/// Whether an expression leaves its operands unsequenced (6.5p3).
pub(crate) fn is_unsequenced(form: &Form) -> bool
    ensures { (types : Table) → sequencing.is_unsequenced (opened_form types form.now).label ≡ result }
{
    match form {
        Form::Binary(_, _, _) | Form::Store(_, _) | Form::Update(_, _, _, _) | Form::Call(_, _) =>
            true,
        _ => false,
    }
}
