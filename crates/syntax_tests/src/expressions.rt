//! Expressions and type names by the grammar of ISO/IEC 9899:2011, 6.5 and 6.7.7. `T` names a type, and no other name does.

use dm_pexpr::{Names, expression, type_name};
use dm_syn::{Expr, ExprForm};
use dm_token::{CToken, List, Text};
use std::alloc::Global;
use std::process::Abort;
use std::test::Fail;
use test_words::{put, tokens_of, type_names};

/// `T`, which names a type.
fn typedefs_of(alloc: Global) -> Result<Names, Fail> {
    Ok(type_names(alloc, &["T"])?)
}

/// A word for what an expression is made of.
fn word_of(expr: &Expr) -> &'static str {
    match &expr.form {
        ExprForm::Name => "name",
        ExprForm::Constant => "constant",
        ExprForm::Literal => "literal",
        ExprForm::Paren(_) => "paren",
        ExprForm::Index(_, _) => "index",
        ExprForm::Call(_, _) => "call",
        ExprForm::Member(_, _) => "member",
        ExprForm::Arrow(_, _) => "arrow",
        ExprForm::Postfix(_, _) => "postfix",
        ExprForm::Prefix(_, _) => "prefix",
        ExprForm::SizeofExpr(_) => "sizeof",
        ExprForm::SizeofName(_) => "sizeof-name",
        ExprForm::Cast(_, _) => "cast",
        ExprForm::Binary(_, _, _) => "binary",
        ExprForm::Conditional(_, _, _) => "conditional",
        ExprForm::Assign(_, _, _) => "assign",
        ExprForm::Comma(_) => "comma",
    }
}

/// A word for an operand: the right one, or the only one.
fn operand_of(expr: &Expr) -> &'static str {
    match &expr.form {
        ExprForm::Paren(inner) => word_of(inner.get()),
        ExprForm::Index(_, right) => word_of(right.get()),
        ExprForm::Call(callee, _) => word_of(callee.get()),
        ExprForm::Member(left, _) | ExprForm::Arrow(left, _) => word_of(left.get()),
        ExprForm::Postfix(operand, _) | ExprForm::Prefix(_, operand) => word_of(operand.get()),
        ExprForm::SizeofExpr(operand) => word_of(operand.get()),
        ExprForm::Cast(_, operand) => word_of(operand.get()),
        ExprForm::Binary(_, _, right) | ExprForm::Assign(_, _, right) => word_of(right.get()),
        ExprForm::Conditional(_, _, third) => word_of(third.get()),
        _ => "none",
    }
}

/// What the expression at the first of these tokens is made of, and what its right or only operand is. Empty where there is none.
fn made_of(alloc: Global, tokens: &List<CToken>) -> Result<(&'static str, &'static str), Fail> {
    let typedefs = typedefs_of(alloc)?;
    if tokens.len() > u32::MAX as usize {
        return Ok(("long", ""));
    }
    match expression(alloc, tokens.items(), 0, &typedefs)? {
        Some((expr, _)) => Ok((word_of(&expr), operand_of(&expr))),
        None => Ok(("", "")),
    }
}

/// Whether the words begin with a type name that ends there.
fn is_type_name(alloc: Global, words: &str) -> Result<bool, Fail> {
    let typedefs = typedefs_of(alloc)?;
    let tokens = tokens_of(alloc, words)?;
    if tokens.len() > u32::MAX as usize {
        return Ok(false);
    }
    Ok(type_name(alloc, tokens.items(), 0, &typedefs)?.is_some())
}

// Each with what it is made of and what its right or only operand is.
const EXPRESSIONS: [(&str, &str, &str); 41] = [
    ("a", "name", "none"),
    ("\"x\"", "literal", "none"),
    ("1 )", "constant", "none"),
    ("sizeof ( int ) * 2", "binary", "constant"),
    ("sizeof ( u ) ( x )", "sizeof", "call"),
    ("sizeof ( int )", "sizeof-name", "none"),
    ("sizeof sizeof a", "sizeof", "sizeof"),
    ("( T ) ( x )", "cast", "paren"),
    ("( u ) ( x )", "call", "paren"),
    ("( T ) - 1", "cast", "prefix"),
    ("( u ) - 1", "binary", "constant"),
    ("( T ) * p", "cast", "prefix"),
    ("a = b ? c : d", "assign", "conditional"),
    ("a ? b , c : d", "conditional", "name"),
    ("a ? b : c ? d : e", "conditional", "conditional"),
    ("- a ++", "prefix", "postfix"),
    ("a . b -> c [ d ] ( e ) ++", "postfix", "call"),
    ("& * & a", "prefix", "prefix"),
    ("- - 1", "prefix", "prefix"),
    ("a -- - b", "binary", "name"),
    ("a - b - c", "binary", "name"),
    ("a - ( b - c )", "binary", "paren"),
    ("a + b * c", "binary", "binary"),
    ("a * b + c", "binary", "name"),
    ("a = b = c", "assign", "assign"),
    ("a += b , c", "comma", "none"),
    ("a , b , c", "comma", "none"),
    ("f ( )", "call", "name"),
    ("f ( a , b )", "call", "name"),
    ("a . T", "member", "name"),
    ("a -> b", "arrow", "name"),
    ("a [ b , c ]", "index", "comma"),
    ("a || b && c", "binary", "binary"),
    ("a && b || c", "binary", "name"),
    ("a & b == c", "binary", "binary"),
    ("a << b + c", "binary", "binary"),
    ("! a ]", "prefix", "name"),
    ("~ a }", "prefix", "name"),
    ("a ; b", "name", "none"),
    ("( enum { T } ) 0 + ( T ) - 1", "binary", "constant"),
    ("( int ( * ) ( int T ) ) ( T ) - 1", "cast", "cast"),
];

const NO_EXPRESSIONS: [&str; 34] = [
    "",
    "a b",
    "1 a",
    "a +",
    "a [",
    "a [ b",
    "a [ ]",
    "a .",
    "a . 1",
    "a ->",
    "f ( a",
    "f ( a ,",
    "f ( a , )",
    "( a",
    "( )",
    "( int )",
    "( T )",
    "( T ) =",
    "sizeof",
    "sizeof ( T ) ( x )",
    "sizeof ( int",
    "a ? b : c = d",
    "a ? b",
    "a ? b :",
    "a ? : c",
    "a = ",
    "( T ) a = b",
    "a + b = c",
    "a ,",
    "- ",
    "++ ( T ) a",
    "T",
    "int",
    "( int ( * ) ( int T , T ) ) x",
];

const TYPE_NAMES: [&str; 18] = [
    "int",
    "T",
    "const char *",
    "char const * const const *",
    "int ( * ) [ 3 ]",
    "int * [ 3 ]",
    "int [ ] [ 2 ]",
    "int ( * ) ( int , T )",
    "int ( T )",
    "int ( )",
    "int ( int x , int ( T ) )",
    "struct s",
    "struct s { int a , * b ; T T ; }",
    "struct { const T a ; struct { int b ; } c ; } *",
    "enum e",
    "enum { A , B = 1 + A , }",
    "enum e { A } )",
    "unsigned int",
];

const NO_TYPE_NAMES: [&str; 16] = [
    "",
    "x",
    "int ( x )",
    "int x",
    "unsigned T",
    "T int",
    "T T",
    "struct",
    "struct { }",
    "struct s { int ; }",
    "struct s { int a }",
    "enum { }",
    "enum { A ,",
    "int *[",
    "int ( * ) ( int",
    "int ]",
];

#[test]
fn reads_expressions_by_the_grammar(rt: HostRuntime) -> Result<(), Fail> {
    for (words, form, operand) in EXPRESSIONS {
        let found = made_of(rt.alloc(), &tokens_of(rt.alloc(), words)?)?;
        assert_eq!(rt; found.0, form, "{words}");
        assert_eq!(rt; found.1, operand, "{words}");
    }
    Ok(())
}

#[test]
fn refuses_what_is_no_expression(rt: HostRuntime) -> Result<(), Fail> {
    for words in NO_EXPRESSIONS {
        let found = made_of(rt.alloc(), &tokens_of(rt.alloc(), words)?)?;
        assert_eq!(rt; found.0, "", "{words}");
    }
    Ok(())
}

#[test]
fn reads_type_names_by_the_grammar(rt: HostRuntime) -> Result<(), Fail> {
    for words in TYPE_NAMES {
        assert!(rt; is_type_name(rt.alloc(), words)?, "{words}");
    }
    Ok(())
}

#[test]
fn refuses_what_is_no_type_name(rt: HostRuntime) -> Result<(), Fail> {
    for words in NO_TYPE_NAMES {
        assert!(rt; !is_type_name(rt.alloc(), words)?, "{words}");
    }
    Ok(())
}

/// So many words, then the last one.
fn repeated(alloc: Global, word: &str, count: u32, last: &str) -> Result<List<CToken>, Fail> {
    let mut tokens = List::new(alloc);
    for _ in 0..count {
        put(alloc, &mut tokens, word)?;
    }
    put(alloc, &mut tokens, last)?;
    Ok(tokens)
}

/// So many times the two words, then the first one.
fn alternating(alloc: Global, one: &str, other: &str, count: u32) -> Result<List<CToken>, Fail> {
    let mut tokens = List::new(alloc);
    for _ in 0..count {
        put(alloc, &mut tokens, one)?;
        put(alloc, &mut tokens, other)?;
    }
    put(alloc, &mut tokens, one)?;
    Ok(tokens)
}

#[test]
fn reads_up_to_a_height_of_512(rt: HostRuntime) -> Result<(), Fail> {
    let highest = made_of(rt.alloc(), &repeated(rt.alloc(), "-", 511, "1")?)?;
    assert_eq!(rt; highest.0, "prefix");
    let higher = made_of(rt.alloc(), &repeated(rt.alloc(), "-", 512, "1")?)?;
    assert_eq!(rt; higher.0, "");
    let longest = made_of(rt.alloc(), &alternating(rt.alloc(), "a", "+", 511)?)?;
    assert_eq!(rt; longest.0, "binary");
    let longer = made_of(rt.alloc(), &alternating(rt.alloc(), "a", "+", 512)?)?;
    assert_eq!(rt; longer.0, "");
    Ok(())
}

#[test]
fn deep_expressions_end_without_deep_recursion(rt: HostRuntime) -> Result<(), Fail> {
    let found = made_of(rt.alloc(), &repeated(rt.alloc(), "(", 1_000_000, "1")?)?;
    assert_eq!(rt; found.0, "");
    Ok(())
}

#[test]
fn long_chains_end(rt: HostRuntime) -> Result<(), Fail> {
    let found = made_of(rt.alloc(), &alternating(rt.alloc(), "a", "+", 500_000)?)?;
    assert_eq!(rt; found.0, "");
    Ok(())
}

#[test]
fn reads_wide_expressions(rt: HostRuntime) -> Result<(), Fail> {
    let found = made_of(rt.alloc(), &alternating(rt.alloc(), "a", ",", 500_000)?)?;
    assert_eq!(rt; found.0, "comma");
    Ok(())
}

#[test]
fn names_keep_what_was_set_last(rt: HostRuntime) -> Result<(), Fail> {
    let alloc = rt.alloc();
    let name = Text::new(alloc, "T")?;
    let other = Text::new(alloc, "U")?;
    let mut names = Names::new(alloc);
    names.set(&name, Some(true))?;
    names.set(&name, Some(false))?;
    assert_eq!(rt; names.get(&name), Some(false));
    assert_eq!(rt; names.get(&other), None);
    Ok(())
}
