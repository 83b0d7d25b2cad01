use dm_int::Op;
use dm_token::{Boxed, List, Place, Span, Text};
use dm_type::TypeId;

/// A node of a typed tree: an expression (6.5) or a statement (6.8). Reads of objects, decays of arrays and conversions
/// (6.3) are nodes of their own, which have the spans of the syntax that they come from.
#[cycle(tree)]
pub struct Core {
    pub form: Form,
    /// The node's type; a statement's is void.
    pub kind: TypeId,
    /// Its own tokens.
    pub inner: Span,
    /// Its tokens with all parentheses round it.
    pub outer: Span,
    /// The place of the first token of `inner`.
    pub place: Place,
}

/// The form of a node, with the trees below it. A `u32` is the position of a declaration in the unit's list of them,
/// unless said otherwise.
#[cycle(tree)]
pub enum Form {
    /// The value of a constant (6.4.4).
    Number(i128),
    Enumerator(u32),
    /// The bytes of a string literal without the closing 0 (6.4.5), and the number of the unit that it stands in,
    /// counted from 0.
    Literal(Text, u32),
    Object(u32),
    Function(u32),
    /// The value of what an lvalue designates (6.3.2.1p2).
    Read(Boxed<Core>),
    /// The pointer to the first element of an array (6.3.2.1p3).
    Decay(Boxed<Core>),
    /// A conversion to the node's type (6.3, 6.5.4), and the array lengths and enumerator values in the type name.
    Convert(Boxed<Core>, List<Core>),
    /// Unary `&` (6.5.3.2).
    Address(Boxed<Core>),
    /// Unary `*` (6.5.3.2). `a[b]` follows the sum.
    Follow(Boxed<Core>),
    /// A member and its number, from 0 (6.5.2.3). `p->n` is a member of what `p` points to.
    Member(Boxed<Core>, u32),
    Unary(Sign, Boxed<Core>),
    Binary(Op, Boxed<Core>, Boxed<Core>),
    /// `&&` (6.5.13).
    Both(Boxed<Core>, Boxed<Core>),
    /// `||` (6.5.14).
    Either(Boxed<Core>, Boxed<Core>),
    /// `?:` (6.5.15).
    Choose(Boxed<Core>, Boxed<Core>, Boxed<Core>),
    Comma(Boxed<Core>, Boxed<Core>),
    /// `=` (6.5.16.1).
    Store(Boxed<Core>, Boxed<Core>),
    /// A compound assignment, with the type in which its operator works (6.5.16.2).
    Update(Op, TypeId, Boxed<Core>, Boxed<Core>),
    /// `++` and `--` (6.5.2.4, 6.5.3.1).
    Count {
        plus: bool,
        /// Whether it stands before its operand.
        before: bool,
        object: Boxed<Core>,
    },
    Call(Boxed<Core>, List<Core>),
    SizeofTree(Boxed<Core>),
    /// `sizeof` of a type name, and the array lengths and enumerator values in it.
    SizeofKind(TypeId, List<Core>),
    Block(List<Core>),
    /// A declaration: its array lengths and enumerator values, and its declarators.
    Declare(List<Core>, List<Local>),
    /// An expression statement (6.8.3).
    Full(Boxed<Core>),
    Empty,
    If(Boxed<Core>, Boxed<Core>, Option<Boxed<Core>>),
    Switch(Boxed<Core>, List<Core>),
    Case(Boxed<Core>, Boxed<Core>),
    Default(Boxed<Core>),
    While(Boxed<Core>, Boxed<Core>),
    /// The body and the condition.
    Do(Boxed<Core>, Boxed<Core>),
    For(Option<Boxed<Core>>, Option<Boxed<Core>>, Option<Boxed<Core>>, Boxed<Core>),
    Break,
    Continue,
    Return(Option<Boxed<Core>>),
}

/// A declarator of a declaration.
#[cycle(tree)]
pub struct Local {
    pub declared: u32,
    /// Whether it defines an object, also tentatively (6.9.2p2).
    pub defines: bool,
    pub initial: Option<Initial>,
}

/// An initialiser (6.7.9).
#[cycle(tree)]
pub enum Initial {
    Value(Boxed<Core>),
    /// A list in braces. Where `{0}` leaves out inner braces, they are here all the same.
    Parts(List<Initial>),
}

/// A unary operator on arithmetic, or `!` (6.5.3.3).
#[derive(Clone, Copy, Debug, PartialEq, Eq)]
pub enum Sign {
    Plus,
    Minus,
    Complement,
    Not,
}

impl Drop for Core {
    /// Goes down the left operands of commas in a loop, since a comma expression may have any number of parts.
    #[cycle(tree_drop)]
    fn drop(mut self) {
        loop {
            let Core {
                form,
                kind: _,
                inner: _,
                outer: _,
                place: _,
            } = self;
            match form.into_comma() {
                Ok((left, right)) => {
                    drop(right.into_inner());
                    self = left.into_inner();
                }
                Err(other) => {
                    drop(other);
                    return;
                }
            }
        }
    }
}

impl Form {
    ghost use Rattle.std.specs.Prelude.{◌≡◌, MatchResult};
    ghost use Rattle.dm_tree.specs.declared.tree.Form.TheVariants.{Comma};

    /// The operands of a comma, or the form as it is.
    fn into_comma(self) -> Result<(Boxed<Core>, Boxed<Core>), Form>
        ensures { MatchResult result (λ operands. self ≡ Comma operands.0 operands.1) (λ form. form ≡ self) }
    {
        match self {
            Form::Comma(left, right) => Ok((left, right)),
            other => Err(other),
        }
    }
}

impl Drop for Form {
    #[cycle(tree_drop)]
    fn drop(self) {
        match self {
            Form::Number(_)
            | Form::Enumerator(_)
            | Form::Literal(_, _)
            | Form::Object(_)
            | Form::Function(_)
            | Form::Empty
            | Form::Break
            | Form::Continue => {}
            Form::Read(a)
            | Form::Decay(a)
            | Form::Address(a)
            | Form::Follow(a)
            | Form::Member(a, _)
            | Form::Unary(_, a)
            | Form::SizeofTree(a)
            | Form::Full(a)
            | Form::Default(a) => drop(a.into_inner()),
            Form::Count {
                plus: _,
                before: _,
                object,
            } => drop(object.into_inner()),
            Form::Binary(_, a, b)
            | Form::Both(a, b)
            | Form::Either(a, b)
            | Form::Comma(a, b)
            | Form::Store(a, b)
            | Form::Update(_, _, a, b)
            | Form::Case(a, b)
            | Form::While(a, b)
            | Form::Do(a, b) => {
                drop(a.into_inner());
                drop(b.into_inner());
            }
            Form::Convert(a, items) | Form::Call(a, items) | Form::Switch(a, items) => {
                drop(a.into_inner());
                drop_trees(items);
            }
            Form::Choose(a, b, c) => {
                drop(a.into_inner());
                drop(b.into_inner());
                drop(c.into_inner());
            }
            Form::If(a, b, c) => {
                drop(a.into_inner());
                drop(b.into_inner());
                drop_option(c);
            }
            Form::For(a, b, c, body) => {
                drop_option(a);
                drop_option(b);
                drop_option(c);
                drop(body.into_inner());
            }
            Form::SizeofKind(_, items) | Form::Block(items) => drop_trees(items),
            Form::Declare(lengths, locals) => {
                drop_trees(lengths);
                drop_locals(locals);
            }
            Form::Return(value) => drop_option(value),
        }
    }
}

#[cycle(tree_drop)]
fn drop_option(tree: Option<Boxed<Core>>) {
    match tree {
        None => {}
        Some(tree) => drop(tree.into_inner()),
    }
}

#[cycle(tree_drop)]
fn drop_trees(list: List<Core>) {
    let mut trees = list.into_vec();
    while let Some(tree) = trees.pop() {
        drop(tree);
    }
    trees.destroy_empty();
}

impl Drop for Local {
    #[cycle(tree_drop)]
    fn drop(self) {
        let Local {
            declared: _,
            defines: _,
            initial,
        } = self;
        match initial {
            None => {}
            Some(initial) => drop(initial),
        }
    }
}

#[cycle(tree_drop)]
fn drop_locals(list: List<Local>) {
    let mut locals = list.into_vec();
    while let Some(local) = locals.pop() {
        drop(local);
    }
    locals.destroy_empty();
}

impl Drop for Initial {
    #[cycle(tree_drop)]
    fn drop(self) {
        match self {
            Initial::Value(tree) => drop(tree.into_inner()),
            Initial::Parts(list) => drop_initials(list),
        }
    }
}

#[cycle(tree_drop)]
fn drop_initials(list: List<Initial>) {
    let mut initials = list.into_vec();
    while let Some(initial) = initials.pop() {
        drop(initial);
    }
    initials.destroy_empty();
}
