//! Typed trees in words: what each node is, its type, and the trees below it. An exclamation mark says that a declarator defines
//! an object.

use crate::words::{put_literal, put_name, put_text};
use dm_token::{Boxed, Memory, Text};
use dm_tree::{Core, CoreExternal, CoreExternalForm, Declared, Form, Initial, Local};
use dm_type::TypeId;
use std::fmt::Write;

/// The words of what trees speak of: the declarations, and the types that have words. Whether each expression is to be shown with its
/// tokens.
#[derive(Drop)]
pub struct Words<'a> {
    pub declared: &'a [Declared],
    pub kinds: &'a [(TypeId, Text)],
    pub spans: bool,
}

/// The words of a type, or a question mark.
fn put_kind(out: &mut String, words: &Words, id: TypeId) -> Result<(), Memory> {
    for (kind, text) in words.kinds {
        if *kind == id {
            return put_text(out, text);
        }
    }
    out.push_str("?")?;
    Ok(())
}

/// A word for an expression that has trees below it.
fn expression_label(form: &Form) -> &'static str {
    match form {
        Form::Read(_) => "Read",
        Form::Decay(_) => "Decay",
        Form::Convert(_, _) => "Convert",
        Form::Address(_) => "Address",
        Form::Follow(_) => "Follow",
        Form::Both(_, _) => "Both",
        Form::Either(_, _) => "Either",
        Form::Choose(_, _, _) => "Choose",
        Form::Comma(_, _) => "Comma",
        Form::Store(_, _) => "Store",
        Form::Call(_, _) => "Call",
        Form::SizeofTree(_) => "Sizeof",
        _ => "?",
    }
}

/// A word for a statement. None for an expression.
fn statement_label(form: &Form) -> Option<&'static str> {
    match form {
        Form::Block(_) => Some("Block"),
        Form::Declare(_, _) => Some("Declare"),
        Form::Full(_) => Some("Full"),
        Form::Empty => Some("Empty"),
        Form::If(_, _, _) => Some("If"),
        Form::Switch(_, _) => Some("Switch"),
        Form::Case(_, _) => Some("Case"),
        Form::Default(_) => Some("Default"),
        Form::While(_, _) => Some("While"),
        Form::Do(_, _) => Some("Do"),
        Form::For(_, _, _, _) => Some("For"),
        Form::Break => Some("Break"),
        Form::Continue => Some("Continue"),
        Form::Return(_) => Some("Return"),
        _ => None,
    }
}

/// A `++` or `--`, which stands before its operand or behind it.
pub fn count_label(plus: bool, before: bool) -> &'static str {
    match (plus, before) {
        (true, true) => "++_",
        (true, false) => "_++",
        (false, true) => "--_",
        (false, false) => "_--",
    }
}

/// Whether it is an expression without trees below it.
fn is_leaf(form: &Form) -> bool {
    matches!(
        form,
        Form::Number(_)
            | Form::Enumerator(_)
            | Form::Literal(_, _)
            | Form::Object(_)
            | Form::Function(_)
    )
}

/// What stands first of a leaf.
fn put_leaf(out: &mut String, words: &Words, form: &Form) -> Result<(), Memory> {
    match form {
        Form::Number(value) => write!(out, "{value}")?,
        Form::Literal(text, _) => put_literal(out, text)?,
        Form::Enumerator(number) | Form::Object(number) | Form::Function(number) => {
            put_name(out, words.declared, *number)?;
        }
        _ => out.push_str("?")?,
    }
    Ok(())
}

/// What stands first of an expression with trees below it.
fn put_label(out: &mut String, words: &Words, form: &Form) -> Result<(), Memory> {
    match form {
        Form::Member(_, number) => write!(out, "Member {number}")?,
        Form::Unary(sign, _) => write!(out, "{sign:?}")?,
        Form::Binary(op, _, _) => write!(out, "{op:?}")?,
        Form::Update(op, kind, _, _) => {
            write!(out, "Update {op:?} in ")?;
            put_kind(out, words, *kind)?;
        }
        Form::Count {
            plus,
            before,
            object: _,
        } => out.push_str(count_label(*plus, *before))?,
        Form::SizeofKind(kind, _) => {
            out.push_str("Sizeof ")?;
            put_kind(out, words, *kind)?;
        }
        _ => out.push_str(expression_label(form))?,
    }
    Ok(())
}

/// The tokens of a node, those with all parentheses round it, and the column of its place.
fn put_span(out: &mut String, core: &Core) -> Result<(), Memory> {
    write!(
        out,
        "@{}-{}/{}-{}@{}",
        core.inner.first, core.inner.after, core.outer.first, core.outer.after, core.place.column
    )?;
    Ok(())
}

/// What stands first of a tree: a word for a statement, and for an expression what it is, its type, and its tokens where they are
/// asked for.
pub fn put_head(out: &mut String, words: &Words, core: &Core) -> Result<(), Memory> {
    if let Some(label) = statement_label(&core.form) {
        out.push_str(label)?;
        return Ok(());
    }
    if is_leaf(&core.form) {
        put_leaf(out, words, &core.form)?;
    } else {
        put_label(out, words, &core.form)?;
    }
    out.push_str(":")?;
    put_kind(out, words, core.kind)?;
    if words.spans {
        put_span(out, core)?;
    }
    Ok(())
}

/// A tree.
#[cycle(showing)]
pub fn put_tree(out: &mut String, words: &Words, core: &Core) -> Result<(), Memory> {
    if is_leaf(&core.form) {
        return put_head(out, words, core);
    }
    out.push_str("(")?;
    put_head(out, words, core)?;
    put_parts(out, words, &core.form)?;
    out.push_str(")")?;
    Ok(())
}

/// A tree below another.
#[cycle(showing)]
fn put_part(out: &mut String, words: &Words, core: &Core) -> Result<(), Memory> {
    out.push_str(" ")?;
    put_tree(out, words, core)
}

/// A tree below another that may be absent, of which these words then say so.
#[cycle(showing)]
fn put_optional(
    out: &mut String,
    words: &Words,
    core: &Option<Boxed<Core>>,
    absent: &str,
) -> Result<(), Memory> {
    match core {
        Some(core) => put_part(out, words, core.get()),
        None => {
            out.push_str(absent)?;
            Ok(())
        }
    }
}

/// Trees below another.
#[cycle(showing)]
fn put_list(out: &mut String, words: &Words, trees: &[Core]) -> Result<(), Memory> {
    for tree in trees {
        put_part(out, words, tree)?;
    }
    Ok(())
}

/// The trees below an expression.
#[cycle(showing)]
fn put_operands(out: &mut String, words: &Words, form: &Form) -> Result<(), Memory> {
    match form {
        Form::Read(a)
        | Form::Decay(a)
        | Form::Address(a)
        | Form::Follow(a)
        | Form::Member(a, _)
        | Form::Unary(_, a)
        | Form::SizeofTree(a) => put_part(out, words, a.get()),
        Form::Count {
            plus: _,
            before: _,
            object,
        } => put_part(out, words, object.get()),
        Form::Binary(_, a, b)
        | Form::Both(a, b)
        | Form::Either(a, b)
        | Form::Comma(a, b)
        | Form::Store(a, b)
        | Form::Update(_, _, a, b) => {
            put_part(out, words, a.get())?;
            put_part(out, words, b.get())
        }
        Form::Choose(a, b, c) => {
            put_part(out, words, a.get())?;
            put_part(out, words, b.get())?;
            put_part(out, words, c.get())
        }
        Form::Convert(a, trees) | Form::Call(a, trees) => {
            put_part(out, words, a.get())?;
            put_list(out, words, trees.items())
        }
        Form::SizeofKind(_, trees) => put_list(out, words, trees.items()),
        _ => Ok(()),
    }
}

/// The trees below a tree.
#[cycle(showing)]
fn put_parts(out: &mut String, words: &Words, form: &Form) -> Result<(), Memory> {
    match form {
        Form::Block(trees) => put_list(out, words, trees.items()),
        Form::Declare(constants, locals) => {
            put_list(out, words, constants.items())?;
            put_locals(out, words, locals.items())
        }
        Form::Full(a) | Form::Default(a) => put_part(out, words, a.get()),
        Form::If(a, b, c) => {
            put_part(out, words, a.get())?;
            put_part(out, words, b.get())?;
            put_optional(out, words, c, "")
        }
        Form::Switch(a, items) => {
            put_part(out, words, a.get())?;
            put_list(out, words, items.items())
        }
        Form::Case(a, b) | Form::While(a, b) | Form::Do(a, b) => {
            put_part(out, words, a.get())?;
            put_part(out, words, b.get())
        }
        Form::For(a, b, c, body) => {
            put_optional(out, words, a, " -")?;
            put_optional(out, words, b, " -")?;
            put_optional(out, words, c, " -")?;
            put_part(out, words, body.get())
        }
        Form::Return(a) => put_optional(out, words, a, ""),
        other => put_operands(out, words, other),
    }
}

/// Declarators, each behind a blank and with a comma where another one stands before it.
#[cycle(showing)]
fn put_locals(out: &mut String, words: &Words, locals: &[Local]) -> Result<(), Memory> {
    let mut first = true;
    for local in locals {
        out.push_str(if first { " " } else { " , " })?;
        put_local(out, words, local)?;
        first = false;
    }
    Ok(())
}

/// A declarator: its name, an exclamation mark where it defines an object, and what initialises that.
#[cycle(showing)]
fn put_local(out: &mut String, words: &Words, local: &Local) -> Result<(), Memory> {
    put_name(out, words.declared, local.declared)?;
    if local.defines {
        out.push_str("!")?;
    }
    match &local.initial {
        Some(initial) => {
            out.push_str(" = ")?;
            put_initial(out, words, initial)
        }
        None => Ok(()),
    }
}

/// What initialises an object or a part of one.
#[cycle(showing)]
fn put_initial(out: &mut String, words: &Words, initial: &Initial) -> Result<(), Memory> {
    match initial {
        Initial::Value(value) => put_tree(out, words, value.get()),
        Initial::Parts(parts) => {
            out.push_str("{")?;
            put_initials(out, words, parts.items())?;
            out.push_str("}")?;
            Ok(())
        }
    }
}

/// What initialises the parts of an object.
#[cycle(showing)]
fn put_initials(out: &mut String, words: &Words, parts: &[Initial]) -> Result<(), Memory> {
    let mut first = true;
    for part in parts {
        if !first {
            out.push_str(" , ")?;
        }
        put_initial(out, words, part)?;
        first = false;
    }
    Ok(())
}

/// The names of declarations, each behind a blank.
fn put_names(out: &mut String, words: &Words, numbers: &[u32]) -> Result<(), Memory> {
    for number in numbers {
        out.push_str(" ")?;
        put_name(out, words.declared, *number)?;
    }
    Ok(())
}

/// An external declaration: its lengths and enumerator values, its declarators, or the function that it defines, the
/// parameters and the body.
pub fn put_external(
    out: &mut String,
    words: &Words,
    external: &CoreExternal,
) -> Result<(), Memory> {
    put_list(out, words, external.constants.items())?;
    match &external.form {
        CoreExternalForm::Declaration(locals) => put_locals(out, words, locals.items()),
        CoreExternalForm::Function {
            function,
            parameters,
            body,
        } => {
            out.push_str(" ")?;
            put_name(out, words.declared, *function)?;
            out.push_str(" (")?;
            put_names(out, words, parameters.items())?;
            out.push_str(" )")?;
            put_part(out, words, body)
        }
    }
}
