//! What the first item of a function's body is read as (6.8).

use crate::reading::{external_at, typedefs_of};
use dm_syn::{External, ExternalForm, Item, Stmt, StmtForm};
use std::alloc::Global;
use std::process::Abort;
use std::test::Fail;
use test_words::tokens_of;

/// A word for a statement.
fn word_of(stmt: &Stmt) -> &'static str {
    match &stmt.form {
        StmtForm::Block(_) => "block",
        StmtForm::Expression(_) => "expression",
        StmtForm::If(_, _, None) => "if",
        StmtForm::If(_, _, Some(_)) => "if-else",
        StmtForm::Switch(_, _) => "switch",
        StmtForm::While(_, _) => "while",
        StmtForm::Do(_, _) => "do",
        StmtForm::For(_, _, _, _) => "for",
        StmtForm::Break => "break",
        StmtForm::Continue => "continue",
        StmtForm::Return(_) => "return",
    }
}

/// A word for an item of a block, and one for the statement in it that is read last.
fn words_of(item: &Item) -> (&'static str, &'static str) {
    let Item::Statement(stmt) = item else {
        return ("declaration", "none");
    };
    let inner = match &stmt.form {
        StmtForm::If(_, body, None) => word_of(body.get()),
        StmtForm::If(_, _, Some(other)) => word_of(other.get()),
        StmtForm::While(_, body) | StmtForm::Do(body, _) => word_of(body.get()),
        StmtForm::For(_, _, _, body) => word_of(body.get()),
        _ => "none",
    };
    (word_of(stmt), inner)
}

/// Words for the first item of a function's body.
fn first_item(external: &External) -> (&'static str, &'static str) {
    let ExternalForm::Function(_, _, body) = &external.form else {
        return ("declaration", "none");
    };
    match &body.form {
        StmtForm::Block(items) => match items.items() {
            [first, ..] => words_of(first),
            [] => ("nothing", "none"),
        },
        _ => ("no block", "none"),
    }
}

// Each with words for the first item of its body.
const BODIES: [(&str, &str, &str); 16] = [
    ("int a ;", "declaration", "none"),
    ("void f ( void ) { }", "nothing", "none"),
    ("void f ( void ) { T * x ; }", "declaration", "none"),
    ("void f ( void ) { U * x ; }", "expression", "none"),
    ("void f ( int T ) { T * x ; }", "expression", "none"),
    ("void T ( void ) { T * x ; }", "expression", "none"),
    ("void f ( enum { T } x ) { T * x ; }", "expression", "none"),
    (
        "void f ( int ( * T ) ( int U ) ) { U * x ; }",
        "expression",
        "none",
    ),
    (
        "void f ( int g ( int T ) ) { T * x ; }",
        "declaration",
        "none",
    ),
    (
        "void f ( void ) { if ( a ) if ( b ) ; else ; }",
        "if",
        "if-else",
    ),
    (
        "void f ( void ) { if ( a ) { if ( b ) ; } else ; }",
        "if-else",
        "expression",
    ),
    (
        "void f ( void ) { if ( a ) while ( b ) if ( c ) ; else ; else { } }",
        "if-else",
        "block",
    ),
    (
        "void f ( void ) { do if ( a ) ; else break ; while ( b ) ; }",
        "do",
        "if-else",
    ),
    (
        "void f ( void ) { while ( a ) return ; }",
        "while",
        "return",
    ),
    (
        "void f ( void ) { for ( ; ; ) continue ; }",
        "for",
        "continue",
    ),
    (
        "void f ( void ) { switch ( a ) { default : ; } }",
        "switch",
        "none",
    ),
];

/// Words for the first item of the body that the words have.
fn body_of(alloc: Global, words: &str) -> Result<(&'static str, &'static str), Fail> {
    let tokens = tokens_of(alloc, words)?;
    let mut typedefs = typedefs_of(alloc)?;
    if tokens.is_empty() || tokens.len() > u32::MAX as usize {
        return Ok(("", ""));
    }
    match external_at(alloc, tokens.items(), 0, &mut typedefs) {
        Ok((external, _)) => Ok(first_item(external.get())),
        Err(_) => Ok(("refused", "")),
    }
}

/// The first of them whose first item is another. Empty where none is.
fn first_wrong_body(alloc: Global) -> Result<&'static str, Fail> {
    for (words, item, inner) in BODIES {
        if body_of(alloc, words)? != (item, inner) {
            return Ok(words);
        }
    }
    Ok("")
}

#[test]
fn reads_bodies_by_the_grammar(rt: HostRuntime) -> Result<(), Fail> {
    assert_eq!(rt; first_wrong_body(rt.alloc())?, "");
    Ok(())
}
