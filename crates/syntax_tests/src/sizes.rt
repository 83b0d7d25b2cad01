//! Large external declarations: long ones are read to their end, and high ones no further than the greatest height.

use crate::reading::is_external;
use dm_token::{CToken, List};
use std::alloc::Global;
use std::process::Abort;
use std::test::Fail;
use test_words::{put, tokens_of};

/// Words of which `open` and `close` stand any number of times.
struct Repeated {
    before: &'static str,
    open: &'static str,
    between: &'static str,
    close: &'static str,
    behind: &'static str,
}

/// Puts the tokens of words behind others, so many times.
fn put_often(
    alloc: Global,
    tokens: &mut List<CToken>,
    words: &str,
    count: u32,
) -> Result<(), Fail> {
    for _ in 0..count {
        put(alloc, tokens, words)?;
    }
    Ok(())
}

/// Whether it is one external declaration where the repeated words stand so many times.
fn is_read(alloc: Global, form: &Repeated, count: u32) -> Result<bool, Fail> {
    let mut tokens = tokens_of(alloc, form.before)?;
    put_often(alloc, &mut tokens, form.open, count)?;
    put_often(alloc, &mut tokens, form.between, 1)?;
    put_often(alloc, &mut tokens, form.close, count)?;
    put_often(alloc, &mut tokens, form.behind, 1)?;
    is_external(alloc, &tokens)
}

const STATEMENTS: Repeated = Repeated {
    before: "void f ( void ) {",
    open: "a ;",
    between: "",
    close: "",
    behind: "}",
};

const LABELS: Repeated = Repeated {
    before: "void f ( void ) { switch ( a ) {",
    open: "case 1 : ;",
    between: "",
    close: "",
    behind: "} }",
};

const INITIALISERS: Repeated = Repeated {
    before: "int a [ ] = {",
    open: "1 ,",
    between: "",
    close: "",
    behind: "} ;",
};

const MEMBERS: Repeated = Repeated {
    before: "struct s {",
    open: "int a ;",
    between: "",
    close: "",
    behind: "} ;",
};

const DECLARATORS: Repeated = Repeated {
    before: "int a",
    open: ", b",
    between: "",
    close: "",
    behind: ";",
};

const BLOCKS: Repeated = Repeated {
    before: "void f ( void ) {",
    open: "{",
    between: "",
    close: "}",
    behind: "}",
};

const BRANCHES: Repeated = Repeated {
    before: "void f ( void ) {",
    open: "if ( a ) ; else",
    between: ";",
    close: "",
    behind: "}",
};

const CONDITIONS: Repeated = Repeated {
    before: "void f ( void ) {",
    open: "if ( a )",
    between: ";",
    close: "else ;",
    behind: "}",
};

const LOOPS: Repeated = Repeated {
    before: "void f ( void ) {",
    open: "do",
    between: ";",
    close: "while ( a ) ;",
    behind: "}",
};

const STACKED_LABELS: Repeated = Repeated {
    before: "void f ( void ) { switch ( a ) {",
    open: "case 1 :",
    between: ";",
    close: "",
    behind: "} }",
};

const BRACES: Repeated = Repeated {
    before: "int a =",
    open: "{",
    between: "1",
    close: "}",
    behind: ";",
};

// The long ones, each at two sizes, of which `bench/externals.sh` compares the times.

#[test]
fn reads_100_000_statements(rt: HostRuntime) -> Result<(), Fail> {
    assert!(rt; is_read(rt.alloc(), &STATEMENTS, 100_000)?);
    Ok(())
}

#[test]
fn reads_200_000_statements(rt: HostRuntime) -> Result<(), Fail> {
    assert!(rt; is_read(rt.alloc(), &STATEMENTS, 200_000)?);
    Ok(())
}

#[test]
fn reads_100_000_labels(rt: HostRuntime) -> Result<(), Fail> {
    assert!(rt; is_read(rt.alloc(), &LABELS, 100_000)?);
    Ok(())
}

#[test]
fn reads_200_000_labels(rt: HostRuntime) -> Result<(), Fail> {
    assert!(rt; is_read(rt.alloc(), &LABELS, 200_000)?);
    Ok(())
}

#[test]
fn reads_150_000_initialisers(rt: HostRuntime) -> Result<(), Fail> {
    assert!(rt; is_read(rt.alloc(), &INITIALISERS, 150_000)?);
    Ok(())
}

#[test]
fn reads_300_000_initialisers(rt: HostRuntime) -> Result<(), Fail> {
    assert!(rt; is_read(rt.alloc(), &INITIALISERS, 300_000)?);
    Ok(())
}

#[test]
fn reads_50_000_members(rt: HostRuntime) -> Result<(), Fail> {
    assert!(rt; is_read(rt.alloc(), &MEMBERS, 50_000)?);
    Ok(())
}

#[test]
fn reads_100_000_members(rt: HostRuntime) -> Result<(), Fail> {
    assert!(rt; is_read(rt.alloc(), &MEMBERS, 100_000)?);
    Ok(())
}

#[test]
fn reads_100_000_declarators(rt: HostRuntime) -> Result<(), Fail> {
    assert!(rt; is_read(rt.alloc(), &DECLARATORS, 100_000)?);
    Ok(())
}

#[test]
fn reads_200_000_declarators(rt: HostRuntime) -> Result<(), Fail> {
    assert!(rt; is_read(rt.alloc(), &DECLARATORS, 200_000)?);
    Ok(())
}

// The high ones, which are read no further than the greatest height.

#[test]
fn refuses_50_000_blocks(rt: HostRuntime) -> Result<(), Fail> {
    assert!(rt; !is_read(rt.alloc(), &BLOCKS, 50_000)?);
    Ok(())
}

#[test]
fn refuses_100_000_blocks(rt: HostRuntime) -> Result<(), Fail> {
    assert!(rt; !is_read(rt.alloc(), &BLOCKS, 100_000)?);
    Ok(())
}

#[test]
fn refuses_50_000_branches(rt: HostRuntime) -> Result<(), Fail> {
    assert!(rt; !is_read(rt.alloc(), &BRANCHES, 50_000)?);
    Ok(())
}

#[test]
fn refuses_100_000_branches(rt: HostRuntime) -> Result<(), Fail> {
    assert!(rt; !is_read(rt.alloc(), &BRANCHES, 100_000)?);
    Ok(())
}

#[test]
fn refuses_100_000_conditions(rt: HostRuntime) -> Result<(), Fail> {
    assert!(rt; !is_read(rt.alloc(), &CONDITIONS, 100_000)?);
    Ok(())
}

#[test]
fn refuses_100_000_loops(rt: HostRuntime) -> Result<(), Fail> {
    assert!(rt; !is_read(rt.alloc(), &LOOPS, 100_000)?);
    Ok(())
}

#[test]
fn refuses_100_000_stacked_labels(rt: HostRuntime) -> Result<(), Fail> {
    assert!(rt; !is_read(rt.alloc(), &STACKED_LABELS, 100_000)?);
    Ok(())
}

#[test]
fn refuses_100_000_braces(rt: HostRuntime) -> Result<(), Fail> {
    assert!(rt; !is_read(rt.alloc(), &BRACES, 100_000)?);
    Ok(())
}

/// Whether so many are read, and not one more.
fn is_bounded(alloc: Global, form: &Repeated, most: u32) -> Result<bool, Fail> {
    let highest = is_read(alloc, form, most)?;
    let higher = is_read(alloc, form, most.saturating_add(1))?;
    Ok(highest && !higher)
}

#[test]
fn reads_blocks_up_to_the_greatest_height(rt: HostRuntime) -> Result<(), Fail> {
    assert!(rt; is_bounded(rt.alloc(), &BLOCKS, 510)?);
    Ok(())
}

#[test]
fn reads_branches_up_to_the_greatest_height(rt: HostRuntime) -> Result<(), Fail> {
    assert!(rt; is_bounded(rt.alloc(), &BRANCHES, 509)?);
    Ok(())
}

#[test]
fn reads_conditions_up_to_the_greatest_height(rt: HostRuntime) -> Result<(), Fail> {
    assert!(rt; is_bounded(rt.alloc(), &CONDITIONS, 509)?);
    Ok(())
}

#[test]
fn reads_loops_up_to_the_greatest_height(rt: HostRuntime) -> Result<(), Fail> {
    assert!(rt; is_bounded(rt.alloc(), &LOOPS, 509)?);
    Ok(())
}

#[test]
fn reads_stacked_labels_up_to_the_greatest_height(rt: HostRuntime) -> Result<(), Fail> {
    assert!(rt; is_bounded(rt.alloc(), &STACKED_LABELS, 507)?);
    Ok(())
}

#[test]
fn reads_braces_up_to_the_greatest_height(rt: HostRuntime) -> Result<(), Fail> {
    assert!(rt; is_bounded(rt.alloc(), &BRACES, 510)?);
    Ok(())
}
