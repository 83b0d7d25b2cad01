//! High, long and wide expressions.

use crate::scene::full_scene;
use crate::showing::show_outermost;
use crate::typing::{expression_of, tree_of};
use dm_token::{CToken, List};
use std::alloc::Global;
use std::process::Abort;
use std::test::Fail;
use test_words::{put, tokens_of};

/// What the outermost node of a typed tree is, and its type. Empty where the tokens are no expression or are refused.
fn outermost(alloc: Global, tokens: &List<CToken>) -> Result<String, Fail> {
    let Some(expr) = expression_of(alloc, tokens)? else {
        return Ok(String::new(alloc));
    };
    let mut scene = full_scene(alloc)?;
    match tree_of(alloc, &mut scene, tokens.items(), expr.get()) {
        Ok(core) => show_outermost(alloc, &scene, core.get()),
        Err(_) => Ok(String::new(alloc)),
    }
}

/// The words, then other words so many times, then the last ones.
fn repeated(
    alloc: Global,
    first: &str,
    words: &str,
    count: u32,
    last: &str,
) -> Result<List<CToken>, Fail> {
    let mut tokens = tokens_of(alloc, first)?;
    for _ in 0..count {
        put(alloc, &mut tokens, words)?;
    }
    put(alloc, &mut tokens, last)?;
    Ok(tokens)
}

#[test]
fn types_what_is_high(rt: HostRuntime) -> Result<(), Fail> {
    let tokens = repeated(rt.alloc(), "-", "-", 510, "c")?;
    assert_eq!(rt; outermost(rt.alloc(), &tokens)?.as_str(), "Minus:int");
    Ok(())
}

#[test]
fn types_long_commas(rt: HostRuntime) -> Result<(), Fail> {
    let tokens = repeated(rt.alloc(), "i", ", i", 100_000, ", p")?;
    assert_eq!(rt; outermost(rt.alloc(), &tokens)?.as_str(), "Comma:int *");
    Ok(())
}

#[test]
fn types_rows_of_pointers(rt: HostRuntime) -> Result<(), Fail> {
    let tokens = repeated(rt.alloc(), "sizeof ( int", "*", 10_000, ")")?;
    assert_eq!(rt;
        outermost(rt.alloc(), &tokens)?.as_str(),
        "Sizeof ?:unsigned long"
    );
    Ok(())
}

#[test]
fn types_rows_of_members(rt: HostRuntime) -> Result<(), Fail> {
    let tokens = repeated(rt.alloc(), "pt", "-> next", 500, "-> m")?;
    assert_eq!(rt; outermost(rt.alloc(), &tokens)?.as_str(), "Member 0:int");
    Ok(())
}

/// `sizeof` of a struct of so many members.
fn members(alloc: Global, count: u32) -> Result<List<CToken>, Fail> {
    let mut tokens = tokens_of(alloc, "sizeof ( struct {")?;
    for number in 0..count {
        let member = format!(in alloc; "int m{number} ;")?;
        put(alloc, &mut tokens, member.as_str())?;
    }
    put(alloc, &mut tokens, "} )")?;
    Ok(tokens)
}

#[test]
fn types_wide_structs(rt: HostRuntime) -> Result<(), Fail> {
    let tokens = members(rt.alloc(), 10_000)?;
    assert_eq!(rt;
        outermost(rt.alloc(), &tokens)?.as_str(),
        "Sizeof ?:unsigned long"
    );
    Ok(())
}
