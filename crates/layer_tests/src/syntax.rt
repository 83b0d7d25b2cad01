//! Trees that are made by hand.

use dm_spell::{keyword, punctuator};
use dm_syn::{
    Declaration, Declarator, Direct, Expr, ExprForm, External, ExternalForm, InitDeclarator,
    InitForm, Initialiser, Specifier, Specifiers, Symbol, height, infix_level, symbol_of, yield_of,
};
use dm_token::{Boxed, Class, List, Memory, Span};
use std::alloc::Global;
use std::process::Abort;
use test_words::tokens_of;

fn span(first: u32, after: u32) -> Span {
    Span { first, after }
}

// So many minus signs and a constant, from a token on.
fn negated(alloc: Global, first: u32, signs: u32) -> Result<Expr, Memory> {
    let after = first.saturating_add(signs).saturating_add(1);
    let mut expr = Expr {
        span: span(after, after),
        form: ExprForm::Constant,
    };
    for _ in 0..signs {
        let operand = Boxed::new(alloc, expr)?;
        expr = Expr {
            span: span(first, after),
            form: ExprForm::Prefix(first, operand),
        };
    }
    Ok(expr)
}

// `int a;`, with such an initialiser or none.
fn declaration(alloc: Global, value: Option<Expr>) -> Result<External, Memory> {
    let mut words = List::new(alloc);
    words.push(Specifier::Word(0))?;
    let initialiser = match value {
        None => None,
        Some(value) => Some(Initialiser {
            span: value.span,
            form: InitForm::Value(value),
        }),
    };
    let mut items = List::new(alloc);
    items.push(InitDeclarator {
        span: span(1, 2),
        declarator: Declarator {
            span: span(1, 2),
            pointers: List::new(alloc),
            direct: Direct::Name(1),
        },
        initialiser,
    })?;
    Ok(External {
        span: span(0, 3),
        form: ExternalForm::Declaration(Declaration {
            span: span(0, 3),
            specifiers: Specifiers {
                span: span(0, 1),
                words,
            },
            items,
        }),
    })
}

#[test]
fn yields_the_tokens_of_its_span(rt: HostRuntime) -> Result<(), Memory> {
    let tree = declaration(rt.alloc(), None)?;
    let tokens = tokens_of(rt.alloc(), "int a ; ;")?;
    let (first, after) = (tree.span.first as usize, tree.span.after as usize);
    if first <= after && after <= tokens.len() {
        let list = yield_of(rt.alloc(), &tree, tokens.items())?;
        assert!(rt; list.len() == 3);
        assert!(rt; list.items() == &tokens.items()[..3]);
    }
    Ok(())
}

// Checks how high a declaration with such an initialiser or none is.
fn expect_height(
    rt: &impl Abort,
    alloc: Global,
    value: Option<Expr>,
    wanted: u32,
) -> Result<(), Memory> {
    let tree = declaration(alloc, value)?;
    assert!(rt; height(&tree) == wanted, "the height is {}", height(&tree));
    Ok(())
}

#[test]
fn counts_each_node_above_its_parts(rt: HostRuntime) -> Result<(), Memory> {
    expect_height(&rt, rt.alloc(), None, 2)?;
    let low = negated(rt.alloc(), 3, 510)?;
    expect_height(&rt, rt.alloc(), Some(low), 512)?;
    let high = negated(rt.alloc(), 3, 511)?;
    expect_height(&rt, rt.alloc(), Some(high), 513)
}

fn expect_symbol(rt: &impl Abort, class: Class, wanted: Symbol) {
    assert!(rt; symbol_of(class) == wanted, "{class:?}");
}

fn expect_level(rt: &impl Abort, symbol: Symbol, wanted: Option<u8>) {
    assert!(rt; infix_level(symbol) == wanted, "{symbol:?}");
}

#[test]
fn sees_symbols_by_their_rows(rt: HostRuntime) {
    expect_symbol(&rt, Class::Punctuator(punctuator::STAR), Symbol::Star);
    expect_symbol(&rt, Class::Punctuator(punctuator::ELLIPSIS), Symbol::Other);
    expect_symbol(&rt, Class::Keyword(keyword::TYPEDEF), Symbol::Typedef);
    expect_symbol(&rt, Class::Keyword(keyword::AUTO), Symbol::Other);
    expect_level(&rt, Symbol::Star, Some(12));
    expect_level(&rt, Symbol::Or, Some(3));
    expect_level(&rt, Symbol::Equals, None);
    assert!(rt; Symbol::TypedefName.is_identifier() && Symbol::TypedefName.begins_specifiers());
    assert!(rt; Symbol::Comma.is(Symbol::Comma) && !Symbol::Comma.is(Symbol::Colon));
}
