//! Which kind of step a node has.

ghost use Rattle.dm_move.specs.Ways.{IsWay};
ghost use Rattle.dm_type.specs.Tables.{Table};

use dm_tree::{Core, Form};

/// Which kind of step a node has that is evaluated as its form says.
#[derive(Clone, Copy)]
pub enum Way<'a> {
    /// `&&`, with its operands.
    Both(&'a Core, &'a Core),
    /// `||`.
    Either(&'a Core, &'a Core),
    /// `?:`.
    Choose(&'a Core, &'a Core, &'a Core),
    Comma(&'a Core, &'a Core),
    /// A call, with the tree that names the function, and the arguments.
    Call(&'a Core, &'a [Core]),
    /// `sizeof` of an expression.
    Measures(&'a Core),
    Enumerator(u32),
    Object(u32),
    /// An operator, a constant, or a function's name.
    Operates,
}

/// Which kind of step a node of a form has.
pub(crate) fn way_of(form: &Form) -> Way<'_>
    ensures { (table : Table) → IsWay table result form.now }
{
    match form {
        Form::Both(a, b) => Way::Both(a.get(), b.get()),
        Form::Either(a, b) => Way::Either(a.get(), b.get()),
        Form::Choose(a, b, c) => Way::Choose(a.get(), b.get(), c.get()),
        Form::Comma(a, b) => Way::Comma(a.get(), b.get()),
        Form::Call(function, arguments) => Way::Call(function.get(), arguments.items()),
        Form::SizeofTree(a) => Way::Measures(a.get()),
        Form::Enumerator(declared) => Way::Enumerator(*declared),
        Form::Object(declared) => Way::Object(*declared),
        Form::Convert(_, _) => Way::Operates,
        Form::SizeofKind(_, _) => Way::Operates,
        _ => Way::Operates,
    }
}
