//! The forms of nodes without the trees below them, and whether two are the same.

ghost use Rattle.std.specs.Prelude.{◌≡◌, ◌↔◌, ℕ, IsTrue, length};
ghost use Rattle.dm_type.specs.Tables.{Table};
ghost use Rattle.dm_tree.specs.TypeNumbers.{are_known_in_form};
ghost use Rattle.dm_tree.specs.Views.{opened_form};
ghost use Rattle.dm_meaning.specs.Replaced.{relabelled};
ghost use Rattle.dm_agree.specs.Heads.{label_of_head, declaring, plain_label, IsDeclaration, IsKnownHead};
ghost use Rattle.dm_agree.specs.Moves.{moved_past};

use crate::initial::are_same_declarators;
use crate::moves::{Block, is_moved};
use crate::types::is_same_type;
use dm_int::Op;
use dm_tree::{Form, Sign};
use dm_type::{TypeId, Types};

/// A form, and what it has beside the trees.
#[derive(Clone, Copy)]
pub(crate) enum Head<'a> {
    Number(i128),
    Enumerator(u32),
    /// The bytes, and the number of the unit.
    Literal(&'a [u8], u32),
    Object(u32),
    Function(u32),
    Member(u32),
    Unary(Sign),
    Binary(Op),
    Update(Op, TypeId),
    /// `++` or `--`: whether it adds, and whether it stands before its operand.
    Count(bool, bool),
    SizeofKind(TypeId),
    /// A declaration itself.
    Declare(&'a Form),
    /// Which of the first three parts are there.
    For(bool, bool, bool),
    Plain(Plain),
}

/// A form that has nothing beside the trees.
#[derive(Clone, Copy, PartialEq, Eq)]
pub(crate) enum Plain {
    Read,
    Decay,
    Convert,
    Address,
    Follow,
    Both,
    Either,
    Choose,
    Comma,
    Store,
    Call,
    SizeofTree,
    Block,
    Full,
    Empty,
    If,
    Switch,
    Case,
    Default,
    While,
    Do,
    Break,
    Continue,
    Return,
}

pub(crate) fn head_of(form: &Form) -> Head<'_>
    ensures label { (types : Table) → (opened_form types form.now).label ≡ label_of_head types result }
    ensures known { (n : ℕ) → IsTrue (are_known_in_form n form.now) → IsKnownHead n result }
{
    match form {
        Form::Number(value) => Head::Number(*value),
        Form::Enumerator(at) => Head::Enumerator(*at),
        Form::Literal(text, unit) => Head::Literal(text.bytes(), *unit),
        Form::Object(at) => Head::Object(*at),
        Form::Function(at) => Head::Function(*at),
        Form::Member(_, n) => Head::Member(*n),
        Form::Unary(sign, _) => Head::Unary(*sign),
        Form::Binary(op, _, _) => Head::Binary(*op),
        Form::Update(op, works, _, _) => Head::Update(*op, *works),
        Form::Count {
            plus,
            before,
            object: _,
        } => Head::Count(*plus, *before),
        Form::SizeofKind(kind, _) => Head::SizeofKind(*kind),
        Form::Declare(_, _) => Head::Declare(form),
        Form::For(a, b, c, _) => Head::For(a.is_some(), b.is_some(), c.is_some()),
        Form::Read(_) => Head::Plain(Plain::Read),
        Form::Decay(_) => Head::Plain(Plain::Decay),
        Form::Convert(_, _) => Head::Plain(Plain::Convert),
        Form::Address(_) => Head::Plain(Plain::Address),
        Form::Follow(_) => Head::Plain(Plain::Follow),
        Form::Both(_, _) => Head::Plain(Plain::Both),
        Form::Either(_, _) => Head::Plain(Plain::Either),
        Form::Choose(_, _, _) => Head::Plain(Plain::Choose),
        Form::Comma(_, _) => Head::Plain(Plain::Comma),
        Form::Store(_, _) => Head::Plain(Plain::Store),
        Form::Call(_, _) => Head::Plain(Plain::Call),
        Form::SizeofTree(_) => Head::Plain(Plain::SizeofTree),
        Form::Block(_) => Head::Plain(Plain::Block),
        Form::Full(_) => Head::Plain(Plain::Full),
        Form::Empty => Head::Plain(Plain::Empty),
        Form::If(_, _, _) => Head::Plain(Plain::If),
        Form::Switch(_, _) => Head::Plain(Plain::Switch),
        Form::Case(_, _) => Head::Plain(Plain::Case),
        Form::Default(_) => Head::Plain(Plain::Default),
        Form::While(_, _) => Head::Plain(Plain::While),
        Form::Do(_, _) => Head::Plain(Plain::Do),
        Form::Break => Head::Plain(Plain::Break),
        Form::Continue => Head::Plain(Plain::Continue),
        Form::Return(_) => Head::Plain(Plain::Return),
    }
}

/// Whether the label of a new node is that of an old one, with the new numbers of declarations.
pub(crate) fn is_same_label(
    block: Option<Block>,
    new_types: &Types,
    new: &Form,
    old_types: &Types,
    old: &Form,
) -> bool
    requires new { IsTrue (are_known_in_form (length new_types.now.shapes) new.now) }
    requires old { IsTrue (are_known_in_form (length old_types.now.shapes) old.now) }
    ensures { IsTrue result ↔ ((opened_form new_types.now new.now).label ≡ relabelled (moved_past block) (opened_form old_types.now old.now).label) }
{
    let head = head_of(new);
    let other = head_of(old);
    is_same_head(block, new_types, &head, old_types, &other)
}

fn is_same_head(
    block: Option<Block>,
    new_types: &Types,
    new: &Head,
    old_types: &Types,
    old: &Head,
) -> bool
    requires new { IsKnownHead (length new_types.now.shapes) new.now }
    requires old { IsKnownHead (length old_types.now.shapes) old.now }
    ensures { IsTrue result ↔ (label_of_head new_types.now new.now ≡ relabelled (moved_past block) (label_of_head old_types.now old.now)) }
{
    match (new, old) {
        (Head::Number(a), Head::Number(b)) => a == b,
        (Head::Enumerator(a), Head::Enumerator(b))
        | (Head::Object(a), Head::Object(b))
        | (Head::Function(a), Head::Function(b)) => is_moved(block, *a, *b),
        (Head::Literal(bytes, unit), Head::Literal(others, number)) => {
            bytes == others && unit == number
        }
        (Head::Member(a), Head::Member(b)) => a == b,
        (Head::Unary(a), Head::Unary(b)) => a == b,
        (Head::Binary(a), Head::Binary(b)) => a == b,
        (Head::Update(a, works), Head::Update(b, other)) => {
            a == b && is_same_type(new_types, *works, old_types, *other)
        }
        (Head::Count(plus, before), Head::Count(other, place)) => plus == other && before == place,
        (Head::SizeofKind(a), Head::SizeofKind(b)) => is_same_type(new_types, *a, old_types, *b),
        (Head::Declare(a), Head::Declare(b)) => is_same_declaration(block, a, b),
        (Head::For(a, b, c), Head::For(first, second, third)) => {
            a == first && b == second && c == third
        }
        (Head::Plain(a), Head::Plain(b)) => is_same_plain(*a, *b),
        _ => false,
    }
}

fn is_same_declaration(block: Option<Block>, new: &Form, old: &Form) -> bool
    requires new { IsDeclaration new.now }
    requires old { IsDeclaration old.now }
    ensures { (a b : Table) → IsTrue result ↔ (declaring (opened_form a new.now).label ≡ relabelled (moved_past block) (declaring (opened_form b old.now).label)) }
{
    match (new, old) {
        (Form::Declare(lengths, locals), Form::Declare(others, declarators)) => {
            if lengths.len() != others.len() {
                return false;
            }
            are_same_declarators(block, locals.items(), declarators.items())
        }
        _ => unreachable!(),
    }
}

fn is_same_plain(a: Plain, b: Plain) -> bool
    ensures { IsTrue result ↔ (plain_label a ≡ plain_label b) }
{
    a == b
}
