//! Nodes that aren't evaluated, and their operands.

ghost use Rattle.std.specs.Prelude.{◌≡◌, ℕ, false, map, IsTrue};
ghost use Rattle.dm_type.specs.Tables.{Table};
ghost use Rattle.dm_tree.specs.Trees.{is_statement};
ghost use Rattle.dm_tree.specs.TypeNumbers.{are_known_in_form};
ghost use Rattle.dm_tree.specs.Views.{opened_form, view};
ghost use Rattle.dm_expression.specs.Operands.{open_trees, cores_in, AreAllKnown};
ghost use Rattle.dm_meaning.specs.Running.{open_of};

use dm_tree::{Core, Form};

/// What a node that isn't evaluated does.
#[derive(Clone, Copy, Debug)]
pub enum Doing {
    /// As its form says.
    Evaluates,
    /// `&&` or `||` has chosen its second operand, and gives 1 or 0 for its value.
    GivesTruth,
    /// `?:` or the comma has chosen an operand, and gives its value.
    GivesValue,
}

/// A node that isn't evaluated.
#[derive(Clone, Copy)]
pub struct Waiting<'a> {
    pub doing: Doing,
    pub node: &'a Core,
}

/// The operands of a node that may be evaluated, from the left.
#[derive(Clone, Copy)]
pub enum Operands<'a> {
    None,
    One(&'a Core),
    Two(&'a Core, &'a Core),
    Many(&'a [Core]),
}

/// Which operands of a form may be evaluated: of `&&`, `||`, `?:` and the comma the first alone (6.5.13p4, 6.5.14p4, 6.5.15p4,
/// 6.5.17p2), of `sizeof` none (6.5.3.4p2), of a call the arguments, of other expressions all.
pub fn open_operands(form: &Form) -> Operands<'_>
    ensures trees { (types : Table) → is_statement (opened_form types form.now).label ≡ false
        → map (view types) (cores_in result) ≡ open_trees (open_of (opened_form types form.now).label) (opened_form types form.now).parts }
    ensures known { (n : ℕ) → IsTrue (are_known_in_form n form.now) → AreAllKnown n (cores_in result) }
{
    match form {
        Form::Read(a)
        | Form::Decay(a)
        | Form::Address(a)
        | Form::Follow(a)
        | Form::Member(a, _)
        | Form::Unary(_, a)
        | Form::Convert(a, _)
        | Form::Both(a, _)
        | Form::Either(a, _)
        | Form::Choose(a, _, _)
        | Form::Comma(a, _) => Operands::One(a.get()),
        Form::Count {
            plus: _,
            before: _,
            object,
        } => Operands::One(object.get()),
        Form::Binary(_, a, b) | Form::Store(a, b) | Form::Update(_, _, a, b) => {
            Operands::Two(a.get(), b.get())
        }
        Form::Call(_, arguments) => Operands::Many(arguments.items()),
        _ => Operands::None,
    }
}
