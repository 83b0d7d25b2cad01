//! Large units: long ones are typed to their end, and high ones up to the greatest height.

use crate::typing::{refused, typed};
use dm_token::{CToken, List};
use std::alloc::Global;
use std::fmt::Write;
use std::process::Abort;
use std::test::Fail;
use test_words::token_of;

/// Words of which `open` and `close` stand any number of times. In a word that ends in `#` the number of its turn, from 1 on,
/// stands in place of that sign, and in one that ends in `@` the number of the turn before.
#[derive(Clone, Copy)]
struct Repeated<'a> {
    before: &'a str,
    open: &'a str,
    between: &'a str,
    close: &'a str,
    behind: &'a str,
}

/// The five parts, which are written one behind the other with a bar between them.
fn form_of(words: &str) -> Result<Repeated<'_>, Fail> {
    let mut parts = words.split('|');
    Ok(Repeated {
        before: parts.next().ok_or("no part")?,
        open: parts.next().ok_or("no second part")?,
        between: parts.next().ok_or("no third part")?,
        close: parts.next().ok_or("no fourth part")?,
        behind: parts.next().ok_or("no last part")?,
    })
}

/// The word with a number for its sign.
fn numbered(alloc: Global, word: &str, turn: u32) -> Result<String, Fail> {
    let mut out = String::new(alloc);
    if let Some((name, _)) = word.split_once('#') {
        write!(out, "{name}{}", turn.saturating_add(1))?;
    } else if let Some((name, _)) = word.split_once('@') {
        write!(out, "{name}{turn}")?;
    } else {
        out.push_str(word)?;
    }
    Ok(out)
}

/// Puts words behind others, in a turn.
fn put(alloc: Global, tokens: &mut List<CToken>, words: &str, turn: u32) -> Result<(), Fail> {
    for word in words.split(' ') {
        if !word.is_empty() {
            let word = numbered(alloc, word, turn)?;
            tokens.push(token_of(alloc, word.as_str(), turn)?)?;
        }
    }
    Ok(())
}

/// Puts words behind others, so many times.
fn put_often(
    alloc: Global,
    tokens: &mut List<CToken>,
    words: &str,
    count: u32,
) -> Result<(), Fail> {
    for turn in 0..count {
        put(alloc, tokens, words, turn)?;
    }
    Ok(())
}

/// The tokens of a form in which the repeated words stand so many times.
fn tokens_of(alloc: Global, words: &str, count: u32) -> Result<List<CToken>, Fail> {
    let form = form_of(words)?;
    let mut tokens = List::new(alloc);
    put(alloc, &mut tokens, form.before, 0)?;
    put_often(alloc, &mut tokens, form.open, count)?;
    put(alloc, &mut tokens, form.between, 0)?;
    put_often(alloc, &mut tokens, form.close, count)?;
    put(alloc, &mut tokens, form.behind, 0)?;
    Ok(tokens)
}

/// How many declarations and external declarations the unit has, or why it is refused.
fn sizes(alloc: Global, words: &str, count: u32) -> Result<String, Fail> {
    let tokens = tokens_of(alloc, words, count)?;
    match typed(alloc, &tokens) {
        Ok(made) => {
            let mut out = String::new(alloc);
            let declared = made.unit.declared.len();
            write!(out, "{declared} in {}", made.unit.externals.len())?;
            Ok(out)
        }
        Err(stop) => refused(alloc, stop),
    }
}

// The forms of which `bench/externals.sh` compares the times at two sizes.

const DECLARATIONS: &str = "| int a# ; | | |";

const ENUMERATORS: &str = "enum { | A# , | | | } ;";

const INITIALISERS: &str = "int a [ ] = { | 1 , | | | } ;";

const MEMBERS: &str = "struct S { | int m# ; | | | } s ; char a [ sizeof s ] ;";

const MEMBERS_USED: &str = "struct S { | int m# ; | } x ; void f ( void ) { | x . m# ; | }";

const LABELS: &str = "void f ( int a ) { switch ( a ) { | case # : ; | | | } }";

const STATEMENTS: &str = "void f ( int a ) { | a = 1 ; | | | }";

const FUNCTIONS: &str =
    "static int g ( void ) ; | int f# ( int a ) { return g ( ) + a ; } | int g ( void ) { return 0 ; } | |";

#[test]
fn types_50_000_declarations(rt: HostRuntime) -> Result<(), Fail> {
    assert_eq!(rt;
        sizes(rt.alloc(), DECLARATIONS, 50_000)?.as_str(),
        "50000 in 50000"
    );
    Ok(())
}

#[test]
fn types_100_000_declarations(rt: HostRuntime) -> Result<(), Fail> {
    assert_eq!(rt;
        sizes(rt.alloc(), DECLARATIONS, 100_000)?.as_str(),
        "100000 in 100000"
    );
    Ok(())
}

#[test]
fn types_50_000_enumerators(rt: HostRuntime) -> Result<(), Fail> {
    assert_eq!(rt;
        sizes(rt.alloc(), ENUMERATORS, 50_000)?.as_str(),
        "50000 in 1"
    );
    Ok(())
}

#[test]
fn types_100_000_enumerators(rt: HostRuntime) -> Result<(), Fail> {
    assert_eq!(rt;
        sizes(rt.alloc(), ENUMERATORS, 100_000)?.as_str(),
        "100000 in 1"
    );
    Ok(())
}

#[test]
fn types_150_000_initialisers(rt: HostRuntime) -> Result<(), Fail> {
    assert_eq!(rt;
        sizes(rt.alloc(), INITIALISERS, 150_000)?.as_str(),
        "1 in 1"
    );
    Ok(())
}

#[test]
fn types_300_000_initialisers(rt: HostRuntime) -> Result<(), Fail> {
    assert_eq!(rt;
        sizes(rt.alloc(), INITIALISERS, 300_000)?.as_str(),
        "1 in 1"
    );
    Ok(())
}

#[test]
fn types_50_000_members(rt: HostRuntime) -> Result<(), Fail> {
    assert_eq!(rt; sizes(rt.alloc(), MEMBERS, 50_000)?.as_str(), "3 in 2");
    Ok(())
}

#[test]
fn types_100_000_members(rt: HostRuntime) -> Result<(), Fail> {
    assert_eq!(rt; sizes(rt.alloc(), MEMBERS, 100_000)?.as_str(), "3 in 2");
    Ok(())
}

#[test]
fn types_50_000_members_each_used_once(rt: HostRuntime) -> Result<(), Fail> {
    assert_eq!(rt; sizes(rt.alloc(), MEMBERS_USED, 50_000)?.as_str(), "3 in 2");
    Ok(())
}

#[test]
fn types_50_000_labels(rt: HostRuntime) -> Result<(), Fail> {
    assert_eq!(rt; sizes(rt.alloc(), LABELS, 50_000)?.as_str(), "2 in 1");
    Ok(())
}

#[test]
fn types_100_000_labels(rt: HostRuntime) -> Result<(), Fail> {
    assert_eq!(rt; sizes(rt.alloc(), LABELS, 100_000)?.as_str(), "2 in 1");
    Ok(())
}

#[test]
fn types_50_000_statements(rt: HostRuntime) -> Result<(), Fail> {
    assert_eq!(rt; sizes(rt.alloc(), STATEMENTS, 50_000)?.as_str(), "2 in 1");
    Ok(())
}

#[test]
fn types_100_000_statements(rt: HostRuntime) -> Result<(), Fail> {
    assert_eq!(rt; sizes(rt.alloc(), STATEMENTS, 100_000)?.as_str(), "2 in 1");
    Ok(())
}

#[test]
fn types_10_000_functions(rt: HostRuntime) -> Result<(), Fail> {
    assert_eq!(rt;
        sizes(rt.alloc(), FUNCTIONS, 10_000)?.as_str(),
        "20001 in 10002"
    );
    Ok(())
}

#[test]
fn types_20_000_functions(rt: HostRuntime) -> Result<(), Fail> {
    assert_eq!(rt;
        sizes(rt.alloc(), FUNCTIONS, 20_000)?.as_str(),
        "40001 in 20002"
    );
    Ok(())
}

// More long ones: how often the words are repeated, and what is given.
const LONG: &str = "100000 => int a | , a# | | | ; => 100001 in 1
100000 => | extern int a [ ] ; | int a [ 2 ] ; | | => 1 in 100001
5000 => struct S { | int m# ; | } ; void f ( struct S s ) { | s . m# ; | } => 3 in 2
100000 => void f ( void ) { | int a# ; | | | } => 100001 in 1
50000 => int a [ 2 ] ; | void f# ( void ) { extern int a [ ] ; } | | | => 50001 in 50001
100000 => | struct S# { int m ; } ; | | | => 100000 in 100000
50000 => struct S0 { int m ; } ; | struct S# { struct S@ m ; } ; | struct S50000 s ; void f ( struct S50000 t ) { s = t ; } | | => 50004 in 50003
100000 => void f ( int a | , int a# | ) { } | | => 100002 in 1
10000 => int | * | p ; | | => 1 in 1
100000 => void f ( int a ) { switch ( a ) { | case # : ; | case 1 : ; | | } } => C31 at 0
100000 => enum { | A# , | A1 | | } ; => C2 at 0
100000 => struct { | int m# ; | int m1 ; | | } s ; => C6 at 0
100000 => | int a# ; | long a1 ; | | => C2 at 0";

/// What a row gives where it says something else.
fn other(alloc: Global, row: &str) -> Result<Option<String>, Fail> {
    let (count, rest) = row.split_once(" => ").ok_or("no count")?;
    let (words, wanted) = rest.split_once(" => ").ok_or("no result")?;
    let count = count.parse::<u32>().ok().ok_or("no number")?;
    let line = sizes(alloc, words, count)?;
    if line.as_str() == wanted {
        return Ok(None);
    }
    Ok(Some(format!(in alloc; "{words} => {line}")?))
}

/// The first row that gives something else, and that. Empty where there is none.
fn first_other(alloc: Global, rows: &str) -> Result<String, Fail> {
    for row in rows.lines() {
        if let Some(line) = other(alloc, row)? {
            return Ok(line);
        }
    }
    Ok(String::new(alloc))
}

#[test]
fn types_what_is_long(rt: HostRuntime) -> Result<(), Fail> {
    assert_eq!(rt; first_other(rt.alloc(), LONG)?.as_str(), "");
    Ok(())
}

// High ones up to the greatest height, and what is one higher, which is no syntax.
const HIGH: &str = "510 => void f ( void ) { | { | | } | } => 1 in 1
511 => void f ( void ) { | { | | } | } => 16 at 0
508 => void f ( void ) { | { int a ; | | } | } => 509 in 1
509 => void f ( void ) { | { int a ; | | } | } => 16 at 0
509 => void f ( int a ) { | if ( a ) ; else | ; | | } => 2 in 1
510 => void f ( int a ) { | if ( a ) ; else | ; | | } => 16 at 0
509 => void f ( int a ) { | if ( a ) | ; | else ; | } => 2 in 1
510 => void f ( int a ) { | if ( a ) | ; | else ; | } => 16 at 0
509 => void f ( int a ) { | do | ; | while ( a ) ; | } => 2 in 1
510 => void f ( int a ) { | do | ; | while ( a ) ; | } => 16 at 0
508 => void f ( void ) { | for ( int i = 0 ; ; ) | ; | | } => 509 in 1
509 => void f ( void ) { | for ( int i = 0 ; ; ) | ; | | } => 16 at 0
169 => void f ( int a ) { | switch ( a ) { case 1 : | ; | } | } => 2 in 1
170 => void f ( int a ) { | switch ( a ) { case 1 : | ; | } | } => 16 at 0
507 => void f ( int a ) { switch ( a ) { | case # : | ; | | } } => 2 in 1
508 => void f ( int a ) { switch ( a ) { | case # : | ; | | } } => 16 at 0
510 => int a | [ 1 ] | = { 0 } | | ; => 1 in 1
511 => int a | [ 1 ] | = { 0 } | | ; => 16 at 0
254 => struct { | struct { | int m ; | } m ; | } s = { 0 } ; => 1 in 1
255 => struct { | struct { | int m ; | } m ; | } s = { 0 } ; => 16 at 0";

#[test]
fn types_what_is_high(rt: HostRuntime) -> Result<(), Fail> {
    assert_eq!(rt; first_other(rt.alloc(), HIGH)?.as_str(), "");
    Ok(())
}
