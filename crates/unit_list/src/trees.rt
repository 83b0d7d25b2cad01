//! The typed trees of a unit, a line a node: each node stands before the trees below it, which are indented by two more blanks. Array
//! lengths and the values of enumerators, which are never evaluated, are left out.

ghost use Rattle.std.specs.Prelude.{All, IfSome};
ghost use Rattle.dm_type.specs.Tables.{IsId};
ghost use Rattle.unit_list.specs.Known.{IsKnown, IsKnownForm, IsKnownInitial, IsKnownLocal, IsKnownExternal};

use crate::labels::{expression_word, operator, sign, statement_word};
use dm_token::{Boxed, List, Memory, Text};
use dm_tree::{Core, CoreExternal, CoreExternalForm, Declared, Form, Initial, Local};
use dm_type::{TypeId, Types};
use std::fmt::Write;
use tree_words::trees::count_label;
use tree_words::words::{put_literal, put_name, put_type};

/// What the trees of a unit speak of: its declarations, and the numbers of all structs.
#[derive(Drop)]
pub struct Scene<'a> {
    pub declared: &'a [Declared],
    pub structs: &'a [u32],
}

/// The blanks before a line.
fn put_indent(out: &mut String, depth: usize) -> Result<(), Memory> {
    for _ in 0..depth {
        out.push_str("  ")?;
    }
    Ok(())
}

/// A line for a tree that is absent.
fn put_absent(out: &mut String, depth: usize) -> Result<(), Memory> {
    put_indent(out, depth)?;
    out.push_str("-\n")?;
    Ok(())
}

/// A type.
fn put_kind(out: &mut String, scene: &Scene, types: &Types, kind: TypeId) -> Result<(), Memory>
    requires { IsId types.now kind }
{
    let nothing = Text::new(*out.allocator(), "")?;
    put_type(out, types, scene.structs, kind, &nothing)
}

/// What stands first of an expression: a value, a name, or what it does.
fn put_label(out: &mut String, scene: &Scene, types: &Types, form: &Form) -> Result<(), Memory>
    requires { IsKnownForm types.now form.now }
{
    match form {
        Form::Number(value) => write!(out, "{value}")?,
        Form::Literal(text, _) => put_literal(out, text)?,
        Form::Enumerator(number) | Form::Object(number) | Form::Function(number) => {
            put_name(out, scene.declared, *number)?;
        }
        Form::Member(_, number) => write!(out, "member {number}")?,
        Form::Unary(unary, _) => write!(out, "unary {}", sign(*unary))?,
        Form::Binary(op, _, _) => out.push_str(operator(*op))?,
        Form::Update(op, works, _, _) => {
            write!(out, "{}= in ", operator(*op))?;
            put_kind(out, scene, types, *works)?;
        }
        Form::Count {
            plus,
            before,
            object: _,
        } => out.push_str(count_label(*plus, *before))?,
        Form::SizeofKind(kind, _) => {
            out.push_str("sizeof ")?;
            put_kind(out, scene, types, *kind)?;
        }
        _ => out.push_str(expression_word(form))?,
    }
    Ok(())
}

/// The line of a node: a word for a statement, and for an expression what it is and its type.
fn put_line(
    out: &mut String,
    scene: &Scene,
    types: &Types,
    core: &Core,
    depth: usize,
) -> Result<(), Memory>
    requires { IsKnown types.now core.now }
{
    put_indent(out, depth)?;
    if let Some(word) = statement_word(&core.form) {
        out.push_str(word)?;
    } else {
        put_label(out, scene, types, &core.form)?;
        out.push_str(": ")?;
        put_kind(out, scene, types, core.kind)?;
    }
    out.push_str("\n")?;
    Ok(())
}

/// A tree.
#[cycle(showing)]
fn put_tree(
    out: &mut String,
    scene: &Scene,
    types: &Types,
    core: &Core,
    depth: usize,
) -> Result<(), Memory>
    requires { IsKnown types.now core.now }
{
    put_line(out, scene, types, core, depth)?;
    put_parts(out, scene, types, &core.form, depth.saturating_add(1))
}

/// A tree that may be absent.
#[cycle(showing)]
fn put_optional(
    out: &mut String,
    scene: &Scene,
    types: &Types,
    core: &Option<Boxed<Core>>,
    depth: usize,
) -> Result<(), Memory>
    requires { IfSome core.now (IsKnown types.now) }
{
    match core {
        Some(core) => put_tree(out, scene, types, core.get(), depth),
        None => put_absent(out, depth),
    }
}

/// Trees one below the other.
#[cycle(showing)]
fn put_list(
    out: &mut String,
    scene: &Scene,
    types: &Types,
    trees: &[Core],
    depth: usize,
) -> Result<(), Memory>
    requires { All (IsKnown types.now) trees.now }
{
    for tree in trees {
        put_tree(out, scene, types, tree, depth)?;
    }
    Ok(())
}

/// The trees below an expression with two operands.
#[cycle(showing)]
fn put_pair(
    out: &mut String,
    scene: &Scene,
    types: &Types,
    form: &Form,
    depth: usize,
) -> Result<(), Memory>
    requires { IsKnownForm types.now form.now }
{
    match form {
        Form::Binary(_, a, b) => {
            put_tree(out, scene, types, a.get(), depth)?;
            put_tree(out, scene, types, b.get(), depth)
        }
        Form::Both(a, b) => {
            put_tree(out, scene, types, a.get(), depth)?;
            put_tree(out, scene, types, b.get(), depth)
        }
        Form::Either(a, b) => {
            put_tree(out, scene, types, a.get(), depth)?;
            put_tree(out, scene, types, b.get(), depth)
        }
        Form::Comma(a, b) => {
            put_tree(out, scene, types, a.get(), depth)?;
            put_tree(out, scene, types, b.get(), depth)
        }
        Form::Store(a, b) => {
            put_tree(out, scene, types, a.get(), depth)?;
            put_tree(out, scene, types, b.get(), depth)
        }
        Form::Update(_, _, a, b) => {
            put_tree(out, scene, types, a.get(), depth)?;
            put_tree(out, scene, types, b.get(), depth)
        }
        _ => Ok(()),
    }
}

/// The trees below an expression.
#[cycle(showing)]
fn put_operands(
    out: &mut String,
    scene: &Scene,
    types: &Types,
    form: &Form,
    depth: usize,
) -> Result<(), Memory>
    requires { IsKnownForm types.now form.now }
{
    match form {
        Form::Read(a)
        | Form::Decay(a)
        | Form::Convert(a, _)
        | Form::Address(a)
        | Form::Follow(a)
        | Form::Member(a, _)
        | Form::Unary(_, a)
        | Form::SizeofTree(a) => put_tree(out, scene, types, a.get(), depth),
        Form::Count {
            plus: _,
            before: _,
            object,
        } => put_tree(out, scene, types, object.get(), depth),
        Form::Choose(a, b, c) => {
            put_tree(out, scene, types, a.get(), depth)?;
            put_tree(out, scene, types, b.get(), depth)?;
            put_tree(out, scene, types, c.get(), depth)
        }
        Form::Call(a, arguments) => {
            put_tree(out, scene, types, a.get(), depth)?;
            put_list(out, scene, types, arguments.items(), depth)
        }
        other => put_pair(out, scene, types, other, depth),
    }
}

/// The trees below a statement behind a label, or below a loop with a condition alone.
#[cycle(showing)]
fn put_guarded(
    out: &mut String,
    scene: &Scene,
    types: &Types,
    form: &Form,
    depth: usize,
) -> Result<(), Memory>
    requires { IsKnownForm types.now form.now }
{
    match form {
        Form::Case(a, b) => {
            put_tree(out, scene, types, a.get(), depth)?;
            put_tree(out, scene, types, b.get(), depth)
        }
        Form::While(a, b) => {
            put_tree(out, scene, types, a.get(), depth)?;
            put_tree(out, scene, types, b.get(), depth)
        }
        Form::Do(a, b) => {
            put_tree(out, scene, types, a.get(), depth)?;
            put_tree(out, scene, types, b.get(), depth)
        }
        other => put_operands(out, scene, types, other, depth),
    }
}

/// The trees below a tree.
#[cycle(showing)]
fn put_parts(
    out: &mut String,
    scene: &Scene,
    types: &Types,
    form: &Form,
    depth: usize,
) -> Result<(), Memory>
    requires { IsKnownForm types.now form.now }
{
    match form {
        Form::Block(trees) => put_list(out, scene, types, trees.items(), depth),
        Form::Declare(_, locals) => put_locals(out, scene, types, locals.items(), depth),
        Form::Full(a) | Form::Default(a) => put_tree(out, scene, types, a.get(), depth),
        Form::If(a, b, c) => {
            put_tree(out, scene, types, a.get(), depth)?;
            put_tree(out, scene, types, b.get(), depth)?;
            put_optional(out, scene, types, c, depth)
        }
        Form::Switch(a, items) => {
            put_tree(out, scene, types, a.get(), depth)?;
            put_list(out, scene, types, items.items(), depth)
        }
        Form::For(a, b, c, body) => {
            put_optional(out, scene, types, a, depth)?;
            put_optional(out, scene, types, b, depth)?;
            put_optional(out, scene, types, c, depth)?;
            put_tree(out, scene, types, body.get(), depth)
        }
        Form::Return(a) => put_optional(out, scene, types, a, depth),
        other => put_guarded(out, scene, types, other, depth),
    }
}

/// Declarators one below the other.
#[cycle(showing)]
fn put_locals(
    out: &mut String,
    scene: &Scene,
    types: &Types,
    locals: &[Local],
    depth: usize,
) -> Result<(), Memory>
    requires { All (IsKnownLocal types.now) locals.now }
{
    for local in locals {
        put_local(out, scene, types, local, depth)?;
    }
    Ok(())
}

/// A declarator: whether it defines an object, its name, and what initialises that.
#[cycle(showing)]
fn put_local(
    out: &mut String,
    scene: &Scene,
    types: &Types,
    local: &Local,
    depth: usize,
) -> Result<(), Memory>
    requires { IsKnownLocal types.now local.now }
{
    put_indent(out, depth)?;
    out.push_str(if local.defines {
        "defines "
    } else {
        "declares "
    })?;
    put_name(out, scene.declared, local.declared)?;
    out.push_str("\n")?;
    match &local.initial {
        Some(initial) => put_initial(out, scene, types, initial, depth.saturating_add(1)),
        None => Ok(()),
    }
}

/// What initialises an object or a part of one.
#[cycle(showing)]
fn put_initial(
    out: &mut String,
    scene: &Scene,
    types: &Types,
    initial: &Initial,
    depth: usize,
) -> Result<(), Memory>
    requires { IsKnownInitial types.now initial.now }
{
    match initial {
        Initial::Value(value) => put_tree(out, scene, types, value.get(), depth),
        Initial::Parts(parts) => {
            put_indent(out, depth)?;
            out.push_str("list\n")?;
            put_initials(out, scene, types, parts.items(), depth.saturating_add(1))
        }
    }
}

/// What initialises the parts of an object.
#[cycle(showing)]
fn put_initials(
    out: &mut String,
    scene: &Scene,
    types: &Types,
    parts: &[Initial],
    depth: usize,
) -> Result<(), Memory>
    requires { All (IsKnownInitial types.now) parts.now }
{
    for part in parts {
        put_initial(out, scene, types, part, depth)?;
    }
    Ok(())
}

/// A function definition: its name, its parameters and its body.
fn put_function(
    out: &mut String,
    scene: &Scene,
    types: &Types,
    function: u32,
    parameters: &[u32],
    body: &Core,
) -> Result<(), Memory>
    requires { IsKnown types.now body.now }
{
    out.push_str("  function ")?;
    put_name(out, scene.declared, function)?;
    for parameter in parameters {
        out.push_str(" ")?;
        put_name(out, scene.declared, *parameter)?;
    }
    out.push_str("\n")?;
    put_tree(out, scene, types, body, 2)
}

/// An external declaration: its declarators, or the function that it defines.
pub fn put_external(
    out: &mut String,
    scene: &Scene,
    types: &Types,
    external: &CoreExternal,
) -> Result<(), Memory>
    requires { IsKnownExternal types.now external.now }
{
    match &external.form {
        CoreExternalForm::Declaration(locals) => put_locals(out, scene, types, locals.items(), 1),
        CoreExternalForm::Function {
            function,
            parameters,
            body,
        } => put_function(out, scene, types, *function, parameters.items(), body),
    }
}
