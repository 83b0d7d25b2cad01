//! The external declarations of units, by `unit_syntax`: how many there are, or the column at which none stands.

use crate::typing::refused;
use dm_read::unit_syntax;
use dm_token::{CToken, List, Stop};
use std::alloc::Global;
use std::process::Abort;
use std::test::Fail;
use test_words::tokens_of;

const UNITS: &str = r#"int a ; int b ; => 2
int f ( void ) { } typedef int T ; T x ; => 3
int f ( ) { } => 1
int f ( void ) { int a ; a = 1 ; int b ; } => 1
typedef int T ; int f ( T T ) { return T ; } T x ; => 3
int a => 16 at 0
int a ; int b => 16 at 3
; => 16 at 0
int f ( void ) { } ; => 16 at 7
int T ; T x ; => 16 at 3
typedef int T ; int T ; T x ; => 16 at 7
enum { T } ; T x ; => 16 at 5
int f ( T x ) ; => 16 at 0
typedef int T ; int f ( T T ) { T x ; return 0 ; } => 16 at 4
int a [ ] = { } ; => 16 at 0
int f ( void ) { return 0 ; => 16 at 0
int f ( void ) { case 1 : ; } => 16 at 0
int f ( void ) { switch ( 1 ) { int a ; } } => 16 at 0
int f ( void ) { if ( 1 ) int a ; } => 16 at 0
int f { } => 16 at 0
int a ; int f ( int a ) int b ; { } => 16 at 3"#;

/// How many external declarations tokens are.
fn count_of(alloc: Global, tokens: &List<CToken>) -> Result<usize, Stop> {
    if tokens.len() > u32::MAX as usize {
        return Err(Stop::Memory);
    }
    let syntax = unit_syntax(alloc, tokens.items())?;
    Ok(syntax.len())
}

/// How many external declarations words are, or why they aren't read.
fn shown(alloc: Global, words: &str) -> Result<String, Fail> {
    let tokens = tokens_of(alloc, words)?;
    match count_of(alloc, &tokens) {
        Ok(count) => Ok(format!(in alloc; "{count}")?),
        Err(stop) => refused(alloc, stop),
    }
}

/// The first row whose unit isn't read so, and what it is read as. Empty where there is none.
fn first_other(alloc: Global) -> Result<String, Fail> {
    for row in UNITS.lines() {
        let (words, wanted) = row.split_once(" => ").ok_or("no result")?;
        let line = shown(alloc, words)?;
        if line.as_str() != wanted {
            return Ok(format!(in alloc; "{words} => {line}")?);
        }
    }
    Ok(String::new(alloc))
}

#[test]
fn units_are_read_to_their_end(rt: HostRuntime) -> Result<(), Fail> {
    assert_eq!(rt; first_other(rt.alloc())?.as_str(), "");
    Ok(())
}

#[test]
fn a_unit_may_have_no_token(rt: HostRuntime) -> Result<(), Fail> {
    assert_eq!(rt; shown(rt.alloc(), "")?.as_str(), "0");
    Ok(())
}
