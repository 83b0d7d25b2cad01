//! External declarations one behind the other, and what is known of names behind one.

use crate::reading::{end_at, refused_at, typedefs_of, unit_of};
use dm_token::Text;
use std::alloc::Global;
use std::process::Abort;
use std::test::Fail;
use test_words::tokens_of;

// Whole units, each with how many external declarations it has, and the column where none stands if it isn't read to its end.
const UNITS: [(&str, u32, Option<u32>); 13] = [
    ("int a ; int b ;", 2, None),
    ("int f ( void ) { } int g ( void ) { }", 2, None),
    ("typedef int V ; int f ( V V ) { V ; } V x ;", 3, None),
    (
        "typedef struct s { struct s * next ; } list ; list * f ( list * l ) { return l -> next ; }",
        2,
        None,
    ),
    ("enum { V } ; int f ( void ) { V * V ; }", 2, None),
    (
        "typedef int V ; int f ( void ) { V * V ; V = 1 ; } V * V ; int g ( void ) { V * V ; }",
        4,
        None,
    ),
    (
        "int f ( int a ) ; int f ( int a ) { while ( a ) a -- ; return a ; } int b = 1 ;",
        3,
        None,
    ),
    (
        "int a = sizeof ( enum { T } ) ; int f ( void ) { return ( T ) - 1 ; }",
        2,
        None,
    ),
    (
        "int f ( struct s { enum { A } a ; } * p ) { return A ; } T A ; A x ;",
        2,
        Some(24),
    ),
    ("int T ; T x ;", 1, Some(3)),
    ("int f ( void ) { } ; int g ( void ) { }", 1, Some(7)),
    ("typedef int V ; int V ; V x ;", 2, Some(7)),
    ("int f ( T T ) { } T x ; int T ; T y ;", 3, Some(14)),
];

/// The first of them that isn't read as the table says. Empty where each is.
fn first_wrong_unit(alloc: Global) -> Result<&'static str, Fail> {
    for (words, count, refused) in UNITS {
        if unit_of(alloc, words)? != (count, refused.map(refused_at)) {
            return Ok(words);
        }
    }
    Ok("")
}

#[test]
fn reads_units_to_their_end(rt: HostRuntime) -> Result<(), Fail> {
    assert_eq!(rt; first_wrong_unit(rt.alloc())?, "");
    Ok(())
}

// What is known of a name behind an external declaration.
const KNOWN: [(&str, &str, Option<bool>); 22] = [
    ("int a ;", "T", Some(true)),
    ("int a ;", "a", Some(false)),
    ("int a ;", "b", None),
    ("typedef int U , * V ;", "U", Some(true)),
    ("typedef int U , * V ;", "V", Some(true)),
    ("int T ;", "T", Some(false)),
    ("int T , x y ;", "T", Some(true)),
    ("int x , T", "x", None),
    ("enum e { A , B = A } ;", "B", Some(false)),
    ("enum e { A , B = A } ;", "e", None),
    ("struct s { enum { A } a ; } x ;", "A", Some(false)),
    ("struct s { enum { A } a ; } x ;", "a", None),
    ("struct s { enum { A } a ; } x ;", "s", None),
    ("int a = sizeof ( enum { A } ) ;", "A", Some(false)),
    ("int f ( int p ) ;", "f", Some(false)),
    ("int f ( int p , T T ) ;", "p", None),
    ("int f ( int p , T T ) ;", "T", Some(true)),
    (
        "int f ( int p ) { int q ; { int T ; } enum { A } a ; }",
        "f",
        Some(false),
    ),
    (
        "int f ( int p ) { int q ; { int T ; } enum { A } a ; }",
        "p",
        None,
    ),
    (
        "int f ( int p ) { int q ; { int T ; } enum { A } a ; }",
        "q",
        None,
    ),
    (
        "int f ( int p ) { int q ; { int T ; } enum { A } a ; }",
        "T",
        Some(true),
    ),
    (
        "int f ( int p ) { int q ; { int T ; } enum { A } a ; }",
        "A",
        None,
    ),
];

/// What is known of a name behind the external declaration that the words begin with.
fn known_behind(alloc: Global, words: &str, name: &str) -> Result<Option<bool>, Fail> {
    let tokens = tokens_of(alloc, words)?;
    let mut typedefs = typedefs_of(alloc)?;
    // Where it is refused, the names stay as they were.
    let _ = end_at(alloc, tokens.items(), 0, &mut typedefs);
    let name = Text::new(alloc, name)?;
    Ok(typedefs.get(&name))
}

/// The first of them behind which the name isn't known as the table says. Empty where each is.
fn first_wrong_name(alloc: Global) -> Result<&'static str, Fail> {
    for (words, name, known) in KNOWN {
        if known_behind(alloc, words, name)? != known {
            return Ok(words);
        }
    }
    Ok("")
}

#[test]
fn names_are_known_in_file_scope(rt: HostRuntime) -> Result<(), Fail> {
    assert_eq!(rt; first_wrong_name(rt.alloc())?, "");
    Ok(())
}
