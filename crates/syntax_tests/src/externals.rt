//! External declarations by the grammar of ISO/IEC 9899:2011, 6.7 to 6.9.

use crate::reading::{end_at, is_external, is_refused, refused_at, typedefs_of};
use dm_token::{CToken, List};
use std::alloc::Global;
use std::process::Abort;
use std::test::Fail;
use test_words::{token_of, tokens_of};

// Each is one external declaration, in which every token counts, and every semicolon where it stands.
const DECLARATIONS: [&str; 48] = [
    "int ;",
    "struct S { int a ; } ;",
    "enum { A , } ;",
    "enum E ;",
    "int a , * b = 1 , c [ 2 ] = { 1 , 2 , } ;",
    "int a [ ] = { { 1 } , { 2 , 3 } , } ;",
    "char a [ ] = \"b\" , * const * c ;",
    "T x ;",
    "T * x ;",
    "T T ;",
    "int T ;",
    "int T , x = T ;",
    "T ( x ) ;",
    "T ( T ) ;",
    "typedef int U , * V ;",
    "static int f ( int a , char * ) ;",
    "int f ( T ) ;",
    "int f ( int ( T ) ) , T ;",
    "static int f ( int a ) { return a ; }",
    "int ( f ) ( void ) { }",
    "int ( * f ( int a ) ) ( void ) { return a ; }",
    "int * f ( enum { A } x ) { return A ; }",
    "int f ( int T ) { return T * T ; }",
    "int f ( T T ) { T ; }",
    "int f ( T x ) { T y ; { int T ; T ; } T z ; }",
    "int f ( void ) { if ( sizeof ( enum { T } ) ) T ; else T ; T x ; }",
    "void f ( void ) { if ( a ) if ( b ) ; else ; }",
    "void f ( void ) { if ( a ) { } else if ( b ) { } else { } }",
    "void f ( void ) { while ( a ) b ( ) ; }",
    "void f ( void ) { do a ; while ( b ) ; }",
    "void f ( void ) { for ( ; ; ) ; }",
    "void f ( void ) { for ( int i = 0 ; i < 1 ; i ++ ) { } }",
    "void f ( void ) { for ( int T = 0 ; T ; ) ; T x ; }",
    "void f ( void ) { for ( T x ; ; ) ; }",
    "void f ( void ) { for ( a = 1 ; b ; c ) continue ; }",
    "void f ( void ) { switch ( a ) { case 1 : case 2 : b ; default : break ; } }",
    "void f ( void ) { a ; int b ; b ; int c ; }",
    "void f ( void ) { return ; }",
    "int a = sizeof ( enum { B } ) + B ;",
    "T f ( T x ) { return x ; }",
    "extern const int a , b [ 2 ] ;",
    "int a , b ( void ) , * c ;",
    "int ( * a [ 2 ] ) ( int , T ( * ) ( T ) ) ;",
    "struct S { const T a [ 2 ] ; enum { A } b , * c ; } x = { { 1 } , 2 } ;",
    "static inline unsigned long int f ( void ) { return 1 ; }",
    "void f ( void ) { do { continue ; } while ( a , b ) ; }",
    "void f ( void ) { for ( a ; b ; ) { break ; } { int c ; } }",
    "void f ( void ) { switch ( a ) { case 1 : switch ( b ) { default : ; } { int c ; } } }",
];

/// All of them.
fn declarations() -> [&'static str; 48] {
    DECLARATIONS
}

/// The first of them that isn't one external declaration. Empty where each is.
fn first_unread(alloc: Global) -> Result<&'static str, Fail> {
    for words in declarations() {
        let tokens = tokens_of(alloc, words)?;
        if !is_external(alloc, &tokens)? {
            return Ok(words);
        }
    }
    Ok("")
}

#[test]
fn reads_declarations(rt: HostRuntime) -> Result<(), Fail> {
    assert_eq!(rt; first_unread(rt.alloc())?, "");
    Ok(())
}

/// Whether each cut of the words is refused at the first token.
fn is_refused_when_cut(alloc: Global, words: &str) -> Result<bool, Fail> {
    let tokens = tokens_of(alloc, words)?;
    for kept in 1..tokens.len() {
        if !is_refused(alloc, &tokens, kept)? {
            return Ok(false);
        }
    }
    Ok(true)
}

/// The first of them that is read though it is cut. Empty where none is.
fn first_read_when_cut(alloc: Global) -> Result<&'static str, Fail> {
    for words in declarations() {
        if !is_refused_when_cut(alloc, words)? {
            return Ok(words);
        }
    }
    Ok("")
}

#[test]
fn refuses_what_is_cut(rt: HostRuntime) -> Result<(), Fail> {
    assert_eq!(rt; first_read_when_cut(rt.alloc())?, "");
    Ok(())
}

/// The tokens of words but for the one at a place.
fn without(alloc: Global, words: &str, left_out: usize) -> Result<List<CToken>, Fail> {
    let mut tokens = List::new(alloc);
    for (place, word) in words.split(' ').enumerate() {
        if place != left_out {
            tokens.push(token_of(alloc, word, 0)?)?;
        }
    }
    Ok(tokens)
}

/// Whether the words are refused at the first token where any of their semicolons is left out.
fn needs_its_semicolons(alloc: Global, words: &str) -> Result<bool, Fail> {
    for (place, word) in words.split(' ').enumerate() {
        if word == ";" {
            let tokens = without(alloc, words, place)?;
            if !is_refused(alloc, &tokens, tokens.len())? {
                return Ok(false);
            }
        }
    }
    Ok(true)
}

/// The first of them that is read without one of its semicolons. Empty where none is.
fn first_read_without_semicolon(alloc: Global) -> Result<&'static str, Fail> {
    for words in declarations() {
        if !needs_its_semicolons(alloc, words)? {
            return Ok(words);
        }
    }
    Ok("")
}

#[test]
fn refuses_what_lacks_a_semicolon(rt: HostRuntime) -> Result<(), Fail> {
    assert_eq!(rt; first_read_without_semicolon(rt.alloc())?, "");
    Ok(())
}

// None of these begins with an external declaration.
const REFUSALS: [&str; 47] = [
    ";",
    "int a b ;",
    "int a , ;",
    "int , a ;",
    "struct { } ;",
    "enum { } ;",
    "enum { , } ;",
    "int f ( int ) int g ;",
    "f ( a ) int a ; { }",
    "U x ;",
    "T x y ;",
    "x ( y ) ;",
    "int T = 1 , T x ;",
    "void f ( void ) { int T ; T x ; }",
    "int T ( T x ) { T y ; }",
    "int f ( int T , T x ) { }",
    "void f ( void ) { case 1 : ; }",
    "void f ( void ) { default : ; }",
    "void f ( void ) { a : ; }",
    "void f ( void ) { switch ( a ) { b : ; } }",
    "void f ( void ) { switch ( a ) { case 1 : } }",
    "void f ( void ) { switch ( a ) { default : } }",
    "void f ( void ) { switch ( a ) { int b ; } }",
    "void f ( void ) { switch ( a ) { case 1 : int b ; } }",
    "void f ( void ) { switch ( a ) b ; }",
    "void f ( void ) { do ; while ( 0 ) }",
    "void f ( void ) { else ; }",
    "void f ( void ) { if ( a ) else ; }",
    "void f ( void ) { if ( a ) int b ; }",
    "void f ( void ) { while ( ) ; }",
    "void f ( void ) { for ( U x ; ; ) ; }",
    "void f ( void ) { for ( ; ) ; }",
    "void f ( void ) { break a ; }",
    "int f { }",
    "int a [ 1 ] { }",
    "int a = { } ;",
    "int a = { 1 , , } ;",
    "int ( * f ) ( void ) { }",
    "x ;",
    "union U { int a ; } ;",
    "struct S { int : 3 ; } ;",
    "int f ( a ) ;",
    "int f ( void ) , g ( void ) { }",
    "int a = { [ 0 ] = 1 } ;",
    "void f ( void ) { goto a ; a : ; }",
    "void f ( void ) { switch ( a ) { case 1 , 2 : ; } }",
    "void f ( void ) { for ( ; ; ; ) ; }",
];

/// The first of them that isn't refused at its first token. Empty where each is.
fn first_not_refused(alloc: Global) -> Result<&'static str, Fail> {
    for words in REFUSALS {
        let tokens = tokens_of(alloc, words)?;
        if !is_refused(alloc, &tokens, tokens.len())? {
            return Ok(words);
        }
    }
    Ok("")
}

#[test]
fn refuses_what_is_none(rt: HostRuntime) -> Result<(), Fail> {
    assert_eq!(rt; first_not_refused(rt.alloc())?, "");
    Ok(())
}

#[test]
fn begins_behind_the_one_before(rt: HostRuntime) -> Result<(), Fail> {
    let tokens = tokens_of(rt.alloc(), "int a ; int b ;")?;
    let mut typedefs = typedefs_of(rt.alloc())?;
    let first = end_at(rt.alloc(), tokens.items(), 0, &mut typedefs);
    assert_eq!(rt; first, Ok(3));
    let second = end_at(rt.alloc(), tokens.items(), 3, &mut typedefs);
    assert_eq!(rt; second, Ok(6));
    let inside = end_at(rt.alloc(), tokens.items(), 1, &mut typedefs);
    assert_eq!(rt; inside, Err(refused_at(1)));
    Ok(())
}
