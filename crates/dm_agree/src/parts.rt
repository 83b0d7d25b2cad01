//! The trees directly below a node.

ghost use Rattle.std.specs.Prelude.{◌≡◌, ◌++◌, ◌≤◌, ℕ, IfOk, IfSome, IsTrue, OnOk, map, flat_map};
ghost use Rattle.std.specs.Option.{option_copied};
ghost use denote.Param.Weighed.{most};
ghost use Rattle.dm_type.specs.Tables.{Table};
ghost use Rattle.dm_tree.specs.declared.tree.Form.{size-Form};
ghost use Rattle.dm_tree.specs.declared.tree.Initial.{size-Initial};
ghost use Rattle.dm_tree.specs.declared.tree.Local.{size-Local};
ghost use Rattle.dm_tree.specs.TypeNumbers.{all_pass, are_known_in_form, are_known_in_local};
ghost use Rattle.dm_tree.specs.Views.{expressions_of_items, expressions_of_locals, opened_form, view, view_of_local};
ghost use Rattle.dm_meaning.specs.Wholes.{view_of_initial};
ghost use Rattle.dm_agree.specs.Parts.{nows, are_all_known, are_known_in_initial, if_given, operands_in, there, AreBelow};

use dm_token::{Boxed, Memory};
use dm_tree::{Core, Form, Initial, Local};
use std::alloc::Global;
use std::slice;

/// The trees directly below a node, in order: those in front, and those behind them.
#[derive(Clone, Copy)]
pub struct Operands<'a> {
    pub front: &'a [Core],
    pub back: &'a [Core],
}

/// Those of a form, unless they stand in more than two places of it.
pub fn operands_of(form: &Form) -> Option<Operands<'_>>
    ensures same { IfSome result (λ operands. (types : Table) → map (view types) (operands_in operands) ≡ (opened_form types form.now).parts) }
    ensures known { IfSome result (λ operands. (n : ℕ) → IsTrue (are_known_in_form n form.now) → IsTrue (are_all_known n (operands_in operands))) }
    ensures below { IfSome result (λ operands. AreBelow (size-Form form.now) (operands_in operands)) }
{
    match form {
        Form::Number(_)
        | Form::Enumerator(_)
        | Form::Literal(_, _)
        | Form::Object(_)
        | Form::Function(_)
        | Form::Empty
        | Form::Break
        | Form::Continue => Some(those(&[], &[])),
        Form::Read(a)
        | Form::Decay(a)
        | Form::Address(a)
        | Form::Follow(a)
        | Form::Member(a, _)
        | Form::Unary(_, a)
        | Form::SizeofTree(a)
        | Form::Full(a)
        | Form::Default(a)
        | Form::Count {
            plus: _,
            before: _,
            object: a,
        } => Some(those(slice::from_ref(a.get()), &[])),
        Form::Binary(_, a, b)
        | Form::Both(a, b)
        | Form::Either(a, b)
        | Form::Comma(a, b)
        | Form::Store(a, b)
        | Form::Update(_, _, a, b)
        | Form::Case(a, b)
        | Form::While(a, b)
        | Form::Do(a, b) => Some(those(slice::from_ref(a.get()), slice::from_ref(b.get()))),
        Form::Convert(a, list) | Form::Call(a, list) | Form::Switch(a, list) => {
            Some(those(slice::from_ref(a.get()), list.items()))
        }
        Form::SizeofKind(_, list) | Form::Block(list) => Some(those(list.items(), &[])),
        Form::Return(value) => Some(those(listed(value), &[])),
        Form::Choose(_, _, _) | Form::If(_, _, _) | Form::For(_, _, _, _) | Form::Declare(_, _) =>
            None,
    }
}

fn those<'a>(front: &'a [Core], back: &'a [Core]) -> Operands<'a>
    ensures { operands_in result ≡ front.now ++ back.now }
{
    Operands { front, back }
}

/// What is inside a box that may be left out, as a list.
fn listed(tree: &Option<Boxed<Core>>) -> &[Core]
    ensures { result.now ≡ if_given tree.now }
{
    match tree {
        Some(tree) => slice::from_ref(tree.get()),
        None => &[],
    }
}

/// Those of a form, in order.
pub fn parts_of(alloc: Global, form: &Form) -> Result<Vec<&Core>, Memory>
    ensures same { IfOk result (λ parts. (types : Table) → map (view types) (nows parts.items) ≡ (opened_form types form.now).parts) }
    ensures known { IfOk result (λ parts. (n : ℕ) → IsTrue (are_known_in_form n form.now) → IsTrue (are_all_known n (nows parts.items))) }
    ensures below { IfOk result (λ parts. AreBelow (size-Form form.now) (nows parts.items)) }
{
    match form {
        Form::Number(_)
        | Form::Enumerator(_)
        | Form::Literal(_, _)
        | Form::Object(_)
        | Form::Function(_)
        | Form::Empty
        | Form::Break
        | Form::Continue => Ok(Vec::new(alloc)),
        Form::Read(a)
        | Form::Decay(a)
        | Form::Address(a)
        | Form::Follow(a)
        | Form::Member(a, _)
        | Form::Unary(_, a)
        | Form::SizeofTree(a)
        | Form::Full(a)
        | Form::Default(a) => singles(alloc, &[a.get()]),
        Form::Count {
            plus: _,
            before: _,
            object,
        } => singles(alloc, &[object.get()]),
        Form::Binary(_, a, b)
        | Form::Both(a, b)
        | Form::Either(a, b)
        | Form::Comma(a, b)
        | Form::Store(a, b)
        | Form::Update(_, _, a, b)
        | Form::Case(a, b)
        | Form::While(a, b)
        | Form::Do(a, b) => singles(alloc, &[a.get(), b.get()]),
        Form::Choose(a, b, c) => singles(alloc, &[a.get(), b.get(), c.get()]),
        Form::Convert(a, list) | Form::Call(a, list) | Form::Switch(a, list) => {
            led(alloc, Some(a), list.items())
        }
        Form::SizeofKind(_, list) => led(alloc, None, list.items()),
        Form::Block(list) => led(alloc, None, list.items()),
        Form::If(a, b, c) => optional(alloc, &[Some(a.get()), Some(b.get()), inside(c)]),
        Form::For(a, b, c, body) => optional(
            alloc,
            &[inside(a), inside(b), inside(c), Some(body.get())],
        ),
        Form::Return(value) => optional(alloc, &[inside(value)]),
        Form::Declare(lengths, locals) => {
            let mut parts = led(alloc, None, lengths.items())?;
            push_locals(locals.items(), &mut parts)?;
            Ok(parts)
        }
    }
}

/// What is inside a box that may be left out.
fn inside(tree: &Option<Boxed<Core>>) -> Option<&Core>
    ensures { option_copied result ≡ tree.now }
{
    match tree {
        Some(tree) => Some(tree.get()),
        None => None,
    }
}

fn singles<'a>(alloc: Global, trees: &[&'a Core]) -> Result<Vec<&'a Core>, Memory>
    ensures { IfOk result (λ parts. nows parts.items ≡ nows trees.entry.now) }
{
    Ok(trees.to_vec(alloc)?)
}

/// Those that are there.
fn optional<'a>(alloc: Global, trees: &[Option<&'a Core>]) -> Result<Vec<&'a Core>, Memory>
    ensures { IfOk result (λ parts. nows parts.items ≡ flat_map there trees.entry.now) }
{
    let mut parts = Vec::new(alloc);
    for tree in trees {
        if let Some(tree) = tree {
            parts.push(*tree)?;
        }
    }
    Ok(parts)
}

/// Those of a list, behind one or none.
fn led<'a>(
    alloc: Global,
    first: Option<&'a Boxed<Core>>,
    list: &'a [Core],
) -> Result<Vec<&'a Core>, Memory>
    ensures { IfOk result (λ parts. nows parts.items ≡ if_given (option_copied first.entry) ++ list.now) }
{
    let mut parts = Vec::new(alloc);
    if let Some(tree) = first {
        parts.push(tree.get())?;
    }
    for tree in list {
        parts.push(tree)?;
    }
    Ok(parts)
}

/// Adds the expressions of the initialisers of declarators.
pub fn push_locals<'a>(locals: &'a [Local], parts: &mut Vec<&'a Core>) -> Result<(), Memory>
    ensures same { OnOk result ((types : Table) → map (view types) (nows parts.new.items) ≡ map (view types) (nows parts.old.items) ++ expressions_of_locals (map (view_of_local types) locals.now)) }
    ensures known { OnOk result ((n : ℕ) → IsTrue (are_all_known n (nows parts.old.items)) → IsTrue (all_pass (map (are_known_in_local n) locals.now)) → IsTrue (are_all_known n (nows parts.new.items))) }
    ensures below { OnOk result ((depth : ℕ) → AreBelow depth (nows parts.old.items) → most size-Local locals.now ≤ depth → AreBelow depth (nows parts.new.items)) }
{
    let mut left = locals;
    while let Some((local, rest)) = left.split_first() {
        if let Some(initial) = &local.initial {
            push_initial(initial, parts)?;
        }
        left = rest;
    }
    Ok(())
}

/// Adds those of an initialiser.
#[cycle(pushing)]
fn push_initial<'a>(initial: &'a Initial, parts: &mut Vec<&'a Core>) -> Result<(), Memory>
    ensures same { OnOk result ((types : Table) → map (view types) (nows parts.new.items) ≡ map (view types) (nows parts.old.items) ++ (view_of_initial types initial.now).expressions) }
    ensures known { OnOk result ((n : ℕ) → IsTrue (are_all_known n (nows parts.old.items)) → IsTrue (are_known_in_initial n initial.now) → IsTrue (are_all_known n (nows parts.new.items))) }
    ensures below { OnOk result ((depth : ℕ) → AreBelow depth (nows parts.old.items) → size-Initial initial.now ≤ depth → AreBelow depth (nows parts.new.items)) }
{
    match initial {
        Initial::Value(tree) => {
            parts.push(tree.get())?;
            Ok(())
        }
        Initial::Parts(list) => push_initials(list.items(), parts),
    }
}

/// Adds those of initialisers.
#[cycle(pushing)]
fn push_initials<'a>(initials: &'a [Initial], parts: &mut Vec<&'a Core>) -> Result<(), Memory>
    ensures same { OnOk result ((types : Table) → map (view types) (nows parts.new.items) ≡ map (view types) (nows parts.old.items) ++ expressions_of_items (map (view_of_initial types) initials.now)) }
    ensures known { OnOk result ((n : ℕ) → IsTrue (are_all_known n (nows parts.old.items)) → IsTrue (all_pass (map (are_known_in_initial n) initials.now)) → IsTrue (are_all_known n (nows parts.new.items))) }
    ensures below { OnOk result ((depth : ℕ) → AreBelow depth (nows parts.old.items) → most size-Initial initials.now ≤ depth → AreBelow depth (nows parts.new.items)) }
{
    let mut left = initials;
    while let Some((one, rest)) = left.split_first() {
        push_initial(one, parts)?;
        left = rest;
    }
    Ok(())
}
