//! What is noted of objects.

ghost use Rattle.std.specs.Prelude.{◌≡◌, ◌||◌, ◌==◌, ℕ, Bool, map, not};
ghost use Rattle.std.specs.List.{list_any};
ghost use Rattle.dm_type.specs.Tables.{Table};
ghost use Rattle.dm_tree.specs.Views.{view, view_of_local};
ghost use Rattle.dm_meaning.specs.Wholes.{view_of_initial};
ghost use Rattle.dm_effect.specs.Entities.{addresses_here, is_this, locals_here};
ghost use Rattle.dm_effect.specs.Questions.{as_local};
ghost use Rattle.dm_effect.specs.Safe.{defines_here, holds, initialises_apart};
ghost use Rattle.dm_stable.specs.Marks as specs;
ghost use Rattle.dm_stable.specs.Marks.{Adds, Deed, Follows, Tells, does, does_local, mark_at, marks_of};

use crate::names::object_named;
use dm_token::Span;
use dm_tree::{Core, Form, Initial, Local};

/// The marks of each object, by what is done to it.
#[derive(Drop)]
pub(crate) struct Marks {
    /// Its address is taken by its name.
    pub addressed: Vec<Mark>,
    /// A declarator defines it.
    pub defined: Vec<Mark>,
    /// A declarator initialises it, and an argument stands outside of the initialiser.
    pub initialised: Vec<Mark>,
    /// It is a parameter of a function definition.
    pub received: Vec<Mark>,
}

/// Whether something is done, where an argument begins at a token.
#[derive(Clone, Copy)]
pub(crate) enum Mark {
    No,
    /// Yes, unless the token is one of these.
    Outside(Span),
    Yes,
    /// It has to be looked for.
    Open,
}

/// What two marks of one object say together.
fn joined(first: Mark, second: Mark) -> Mark
    ensures { result ≡ specs.joined first second }
{
    match first {
        Mark::No => second,
        Mark::Outside(_) => match second {
            Mark::No => first,
            Mark::Yes => Mark::Yes,
            Mark::Outside(_) | Mark::Open => Mark::Open,
        },
        Mark::Yes => Mark::Yes,
        Mark::Open => match second {
            Mark::Yes => Mark::Yes,
            Mark::No | Mark::Outside(_) | Mark::Open => Mark::Open,
        },
    }
}

/// One more mark for an object.
fn note(marks: &mut Vec<Mark>, object: u32, mark: Mark)
    ensures { (d token : ℕ) (old added : Bool) → Tells (mark_at marks.old.items d) token old → Adds object mark d token added → Tells (mark_at marks.new.items d) token (old || added) }
{
    let number = object as usize;
    if number < marks.len() {
        marks[number] = joined(marks[number], mark);
    }
}

/// What a node does.
pub(crate) fn note_node(node: &Core, marks: &mut Marks)
    ensures { (types : Table) (deed : Deed) → Follows (λ d token. does deed d token (view types node.now)) (marks_of deed marks.old) (marks_of deed marks.new) }
{
    note_address(node, &mut marks.addressed);
    note_locals(locals_of(node), marks);
}

/// What a node does if it is `&` of an object's name.
fn note_address(node: &Core, addressed: &mut Vec<Mark>)
    ensures { (types : Table) → Follows (λ d token. addresses_here d (view types node.now)) addressed.old.items addressed.new.items }
{
    if let Some(object) = object_addressed(node) {
        note(addressed, object, Mark::Yes);
    }
}

/// The object whose address a node is by its name.
fn object_addressed(node: &Core) -> Option<u32>
    ensures { (types : Table) (d : ℕ) → addresses_here d (view types node.now) ≡ is_this d result }
{
    match &node.form {
        Form::Address(operand) => object_named(operand.get()),
        _ => None,
    }
}

/// The declarators of a node.
fn locals_of(node: &Core) -> &[Local]
    ensures { (types : Table) → locals_here (view types node.now) ≡ map as_local (map (view_of_local types) result.now) }
{
    match &node.form {
        Form::Declare(_, locals) => locals.items(),
        _ => &[],
    }
}

/// What a function definition does with these parameters.
pub(crate) fn note_parameters(parameters: &[u32], received: &mut Vec<Mark>)
    ensures { Follows (λ d token. list_any (λ number. number == d) parameters.now) received.old.items received.new.items }
{
    let mut left = parameters;
    while let Some((object, rest)) = left.split_first() {
        note(received, *object, Mark::Yes);
        left = rest;
    }
}

/// What some declarators do.
pub(crate) fn note_locals(locals: &[Local], marks: &mut Marks)
    ensures { (types : Table) (deed : Deed) → Follows (λ d token. list_any (does_local deed d token) (map as_local (map (view_of_local types) locals.now))) (marks_of deed marks.old) (marks_of deed marks.new) }
{
    let mut left = locals;
    while let Some((local, rest)) = left.split_first() {
        note_local(local, marks);
        left = rest;
    }
}

/// What a declarator does.
fn note_local(local: &Local, marks: &mut Marks)
    ensures { (types : Table) (deed : Deed) → Follows (λ d token. does_local deed d token (as_local (view_of_local types local.now))) (marks_of deed marks.old) (marks_of deed marks.new) }
{
    note_definition(local, &mut marks.defined);
    note_initialiser(local, &mut marks.initialised);
}

/// What a declarator does if it defines its object.
fn note_definition(local: &Local, defined: &mut Vec<Mark>)
    ensures { (types : Table) → Follows (λ d token. defines_here d (as_local (view_of_local types local.now))) defined.old.items defined.new.items }
{
    if local.defines {
        note(defined, local.declared, Mark::Yes);
    }
}

/// What a declarator does if it has an initialiser.
fn note_initialiser(local: &Local, initialised: &mut Vec<Mark>)
    ensures { (types : Table) → Follows (λ d token. initialises_apart token d (as_local (view_of_local types local.now))) initialised.old.items initialised.new.items }
{
    if let Some(initial) = &local.initial {
        note(initialised, local.declared, outside(initial));
    }
}

/// Where a token stands outside of an initialiser.
fn outside(initial: &Initial) -> Mark
    ensures { (types : Table) (token : ℕ) → Tells result token (not (list_any (holds token) (view_of_initial types initial.now).expressions)) }
{
    match initial {
        Initial::Value(tree) => Mark::Outside(tree.get().outer),
        Initial::Parts(_) => Mark::Open,
    }
}
