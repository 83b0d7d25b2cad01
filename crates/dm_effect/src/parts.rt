//! The trees directly below a node.

ghost use Rattle.std.specs.Prelude.{◌≡◌, [], ◌++◌, false, map, option_map, List};
ghost use Rattle.std.specs.Option.{option_copied};
ghost use Rattle.dm_type.specs.Tables.{Table};
ghost use Rattle.dm_tree.specs.declared.tree.Form.{size-Form};
ghost use Rattle.dm_tree.specs.Paths.{tree_in};
ghost use Rattle.dm_tree.specs.Trees.{Tree, is_statement, trees, trees_of};
ghost use Rattle.dm_tree.specs.Views.{if_there, expressions_of_items, expressions_of_locals, opened_form, view, view_of_local};
ghost use Rattle.dm_meaning.specs.Wholes.{view_of_initial};
ghost use Rattle.dm_effect.specs.Parts.{parts_in, found_in, AreBelow};

use dm_token::Boxed;
use dm_tree::{Core, Form, Initial, Local};

/// The trees directly below a node, in order: single ones, those of a list, and those in declarators.
#[derive(Clone, Copy)]
pub struct Parts<'a> {
    pub first: Option<&'a Core>,
    pub second: Option<&'a Core>,
    pub third: Option<&'a Core>,
    pub fourth: Option<&'a Core>,
    pub items: &'a [Core],
    pub locals: &'a [Local],
}

/// How a search for the part with a number stands.
#[derive(Clone, Copy)]
pub(crate) enum Search<'a> {
    Found(&'a Core),
    /// It has this number among the parts that are still to be searched.
    Left(usize),
}

/// Those of a form.
pub fn parts_of(form: &Form) -> Parts<'_>
    ensures same { (types : Table) → parts_in types result ≡ (opened_form types form.now).parts }
    ensures below { AreBelow (size-Form form.now) result }
    ensures expression { (types : Table) → is_statement (opened_form types form.now).label ≡ false → result.locals.now ≡ [] }
{
    match form {
        Form::Number(_)
        | Form::Enumerator(_)
        | Form::Literal(_, _)
        | Form::Object(_)
        | Form::Function(_)
        | Form::Empty
        | Form::Break
        | Form::Continue => led(None, &[]),
        Form::Read(a)
        | Form::Decay(a)
        | Form::Address(a)
        | Form::Follow(a)
        | Form::Member(a, _)
        | Form::Unary(_, a)
        | Form::SizeofTree(a)
        | Form::Full(a)
        | Form::Default(a) => led(Some(a.get()), &[]),
        Form::Count {
            plus: _,
            before: _,
            object,
        } => led(Some(object.get()), &[]),
        Form::Binary(_, a, b)
        | Form::Both(a, b)
        | Form::Either(a, b)
        | Form::Comma(a, b)
        | Form::Store(a, b)
        | Form::Update(_, _, a, b)
        | Form::Case(a, b)
        | Form::While(a, b)
        | Form::Do(a, b) => singles(Some(a.get()), Some(b.get()), None, None),
        Form::Convert(a, list) | Form::Call(a, list) | Form::Switch(a, list) => {
            led(Some(a.get()), list.items())
        }
        Form::Choose(a, b, c) => singles(Some(a.get()), Some(b.get()), Some(c.get()), None),
        Form::If(a, b, c) => singles(Some(a.get()), Some(b.get()), inside(c), None),
        Form::For(a, b, c, body) => singles(inside(a), inside(b), inside(c), Some(body.get())),
        Form::SizeofKind(_, list) | Form::Block(list) => led(None, list.items()),
        Form::Declare(lengths, locals) => Parts {
            first: None,
            second: None,
            third: None,
            fourth: None,
            items: lengths.items(),
            locals: locals.items(),
        },
        Form::Return(value) => singles(inside(value), None, None, None),
    }
}

/// The part of a node with this number, counted from 0.
pub(crate) fn part(core: &Core, number: usize) -> Option<&Core>
    ensures { (types : Table) → option_map (view types) (option_copied result) ≡ tree_in (trees_of (view types core.now)) number }
{
    parts_of(&core.form).nth(number)
}

impl<'a> Parts<'a> {
    /// The part with this number, counted from 0.
    fn nth(self, number: usize) -> Option<&'a Core>
        ensures { (types : Table) → option_map (view types) (option_copied result) ≡ tree_in (trees (parts_in types self.entry)) number }
    {
        let second = match in_single(self.first, number) {
            Search::Found(core) => return Some(core),
            Search::Left(left) => left,
        };
        let third = match in_single(self.second, second) {
            Search::Found(core) => return Some(core),
            Search::Left(left) => left,
        };
        let fourth = match in_single(self.third, third) {
            Search::Found(core) => return Some(core),
            Search::Left(left) => left,
        };
        match in_single(self.fourth, fourth) {
            Search::Found(core) => Some(core),
            Search::Left(left) => in_lists(self.items, self.locals, left),
        }
    }
}

/// The search in a single part.
fn in_single(part: Option<&Core>, number: usize) -> Search<'_>
    ensures { (types : Table) (rest : List Tree) → tree_in (trees (if_there (option_map (view types) (option_copied part.entry)) ++ rest)) number ≡ found_in types result rest }
{
    match part {
        None => Search::Left(number),
        Some(core) => {
            if number == 0 {
                Search::Found(core)
            } else {
                Search::Left(number - 1)
            }
        }
    }
}

/// The search in a list and in declarators.
fn in_lists<'a>(items: &'a [Core], locals: &'a [Local], number: usize) -> Option<&'a Core>
    ensures { (types : Table) → option_map (view types) (option_copied result) ≡ tree_in (trees (map (view types) items.now ++ expressions_of_locals (map (view_of_local types) locals.now))) number }
{
    match in_items(items, number) {
        Search::Found(core) => Some(core),
        Search::Left(left) => match in_locals(locals, left) {
            Search::Found(core) => Some(core),
            Search::Left(_) => None,
        },
    }
}

/// The search in a list.
fn in_items(items: &[Core], number: usize) -> Search<'_>
    ensures { (types : Table) (rest : List Tree) → tree_in (trees (map (view types) items.now ++ rest)) number ≡ found_in types result rest }
{
    match items.get(number) {
        Some(core) => Search::Found(core),
        None => Search::Left(number - items.len()),
    }
}

/// The search in declarators.
fn in_locals(locals: &[Local], number: usize) -> Search<'_>
    ensures { (types : Table) (rest : List Tree) → tree_in (trees (expressions_of_locals (map (view_of_local types) locals.now) ++ rest)) number ≡ found_in types result rest }
{
    let mut left = number;
    let mut others = locals;
    while let Some((local, rest)) = others.split_first() {
        if let Some(initial) = &local.initial {
            match in_initial(initial, left) {
                Search::Found(core) => return Search::Found(core),
                Search::Left(less) => left = less,
            }
        }
        others = rest;
    }
    Search::Left(left)
}

/// The search in an initialiser.
#[cycle(initial)]
fn in_initial(initial: &Initial, number: usize) -> Search<'_>
    ensures { (types : Table) (rest : List Tree) → tree_in (trees ((view_of_initial types initial.now).expressions ++ rest)) number ≡ found_in types result rest }
{
    match initial {
        Initial::Value(tree) => in_single(Some(tree.get()), number),
        Initial::Parts(list) => in_initials(list.items(), number),
    }
}

/// The search in initialisers.
#[cycle(initial)]
fn in_initials(initials: &[Initial], number: usize) -> Search<'_>
    ensures { (types : Table) (rest : List Tree) → tree_in (trees (expressions_of_items (map (view_of_initial types) initials.now) ++ rest)) number ≡ found_in types result rest }
{
    let mut left = number;
    let mut others = initials;
    while let Some((initial, rest)) = others.split_first() {
        match in_initial(initial, left) {
            Search::Found(core) => return Search::Found(core),
            Search::Left(less) => left = less,
        }
        others = rest;
    }
    Search::Left(left)
}

/// A part that may be left out.
fn inside(tree: &Option<Boxed<Core>>) -> Option<&Core>
    ensures { option_copied result ≡ tree.now }
{
    match tree {
        Some(tree) => Some(tree.get()),
        None => None,
    }
}

/// Single ones.
fn singles<'a>(
    first: Option<&'a Core>,
    second: Option<&'a Core>,
    third: Option<&'a Core>,
    fourth: Option<&'a Core>,
) -> Parts<'a>
    ensures first { option_copied result.first ≡ option_copied first.entry }
    ensures second { option_copied result.second ≡ option_copied second.entry }
    ensures third { option_copied result.third ≡ option_copied third.entry }
    ensures fourth { option_copied result.fourth ≡ option_copied fourth.entry }
    ensures items { result.items.now ≡ [] }
    ensures locals { result.locals.now ≡ [] }
{
    Parts {
        first,
        second,
        third,
        fourth,
        items: &[],
        locals: &[],
    }
}

/// Those of a list, behind one or none.
fn led<'a>(first: Option<&'a Core>, items: &'a [Core]) -> Parts<'a>
    ensures first { option_copied result.first ≡ option_copied first.entry }
    ensures second { result.second ≡ None }
    ensures third { result.third ≡ None }
    ensures fourth { result.fourth ≡ None }
    ensures items { result.items.now ≡ items.now }
    ensures locals { result.locals.now ≡ [] }
{
    Parts {
        first,
        second: None,
        third: None,
        fourth: None,
        items,
        locals: &[],
    }
}
