//! TypedUnit trees of units: what each node is, its type, and the trees below it. An exclamation mark says that a declarator defines
//! an object.

use crate::typing::{Part, first_other};
use std::process::Abort;
use std::test::Fail;

// What initialises (6.7.9).
const INITIALISED: &str =
    r#"int a = 1 , b , * p = & a ; => a! = 1:int , b! , p! = (Address:int * a:int) ;
extern int a ; extern int b = 2 ; => a ; b! = 2:int ;
long a = 1 ; char c = 'a' + 1 ; _Bool b = & a ; => a! = (Convert:long 1:int) ; c! = (Convert:char (Add:int 97:int 1:int)) ; b! = (Convert:_Bool (Address:long * a:long)) ;
int a = { 1 } ; => a! = 1:int ;
int a [ 3 ] = { 1 , 2 } ; => 3:int a! = {1:int , 2:int} ;
int a [ ] = { 1 , 2 , } ; => a! = {1:int , 2:int} ;
char s [ ] = "ab" , t [ 2 ] = "ab" , * p = "ab" ; => 2:int s! = "ab":char [3] , t! = "ab":char [3] , p! = (Decay:char * "ab":char [3]) ;
char s [ 2 ] [ 3 ] = { "ab" , { 'c' } } , t [ 3 ] ; => 2:int 3:int 3:int s! = {"ab":char [3] , {(Convert:char 99:int)}} , t! ;
struct S { int m ; struct { char c ; int * p ; } in ; } s = { 1 , { 2 , 0 } } ; => s! = {1:int , {(Convert:char 2:int) , (Convert:int * 0:int)}} ;
int a [ 2 ] = { 0 } ; => 2:int a! = {0:int} ;
struct S { struct { int * p [ 2 ] ; } in [ 2 ] ; int n ; } s [ 2 ] = { 0 } ; => 2:int 2:int 2:int s! = {{{{{(Convert:int * 0:int)}}}}} ;
int a [ 2 ] [ 2 ] = { { 0 } , { 0 , 1 } } ; => 2:int 2:int a! = {{0:int} , {0:int , 1:int}} ;
int a [ 2 ] ; int * p = a , * q = & a [ 1 ] ; => 2:int a! ; p! = (Decay:int * a:int [2]) , q! = (Address:int * (Follow:int (Add:int * (Decay:int * a:int [2]) 1:int))) ;
struct S { int m ; int a [ 2 ] ; } s ; int * p = & s . m , * q = & s . a [ 1 ] , b [ 2 ] ; => 2:int s! ; 2:int p! = (Address:int * (Member 0:int s:struct S)) , q! = (Address:int * (Follow:int (Add:int * (Decay:int * (Member 1:int [2] s:struct S)) 1:int))) , b! ;
void f ( int n ) { int a [ 2 ] = { n , 0 } ; } => f ( n ) (Block (Declare 2:int a! = {(Read:int n:int) , 0:int})) ;
void f ( int n ) { static int a = 1 ; extern int b ; int c = n ; } => f ( n ) (Block (Declare a! = 1:int) (Declare b) (Declare c! = (Read:int n:int))) ;
int a [ 2 ] = { sizeof a , sizeof ( int [ 3 ] ) } , b [ 3 ] ; => 2:int 3:int a! = {(Convert:int (Sizeof:unsigned long a:int [2])) , (Convert:int (Sizeof int [3]:unsigned long 3:int))} , b! ;
enum { A = 2 , B } ; int a [ A + 1 ] , b = B ; => 2:int ; (Add:int A:int 1:int) a! , b! = B:int ;"#;

#[test]
fn initialisers_have_their_trees(rt: HostRuntime) -> Result<(), Fail> {
    assert_eq!(rt;
        first_other(rt.alloc(), INITIALISED, Part::Externals)?.as_str(),
        ""
    );
    Ok(())
}

// Statements (6.8).
const BODIES: &str = r#"void f ( void ) { } => f ( ) (Block) ;
void f ( int a ) { a ; ; { a = 1 ; } return ; } => f ( a ) (Block (Full (Read:int a:int)) (Empty) (Block (Full (Store:int a:int 1:int))) (Return)) ;
int f ( int a ) { if ( a ) return 1 ; else a ++ ; if ( a ) ; return a ; } => f ( a ) (Block (If (Read:int a:int) (Return 1:int) (Full (_++:int a:int))) (If (Read:int a:int) (Empty)) (Return (Read:int a:int))) ;
void f ( char c ) { switch ( c ) { case 'a' : case 'b' : c = 1 ; break ; default : ; } } => f ( c ) (Block (Switch (Convert:int (Read:char c:char)) (Case 97:int (Case 98:int (Full (Store:char c:char (Convert:char 1:int))))) (Break) (Default (Empty)))) ;
void f ( long n ) { switch ( n ) { n = 2 ; case 1 : { int y ; } } } => f ( n ) (Block (Switch (Read:long n:long) (Full (Store:long n:long (Convert:long 2:int))) (Case (Convert:long 1:int) (Block (Declare y!))))) ;
void f ( unsigned int n ) { switch ( n ) { case - 1 : ; } } => f ( n ) (Block (Switch (Read:unsigned int n:unsigned int) (Case (Convert:unsigned int (Minus:int 1:int)) (Empty)))) ;
void f ( int n ) { while ( n ) { continue ; } do n -- ; while ( n ) ; } => f ( n ) (Block (While (Read:int n:int) (Block (Continue))) (Do (Full (_--:int n:int)) (Read:int n:int))) ;
void f ( int n ) { for ( n = 0 ; n ; n ++ ) break ; for ( ; ; ) ; } => f ( n ) (Block (For (Store:int n:int 0:int) (Read:int n:int) (_++:int n:int) (Break)) (For - - - (Empty))) ;
void f ( void ) { for ( int i = 0 , * p = & i ; ; ) ; } => f ( ) (Block (For (Declare i! = 0:int , p! = (Address:int * i:int)) - - (Empty))) ;
char f ( int a ) { return a ; } => f ( a ) (Block (Return (Convert:char (Read:int a:int)))) ;
const int f ( void ) { return 1 ; } long g ( void ) { return f ( ) ; } => f ( ) (Block (Return 1:int)) ; g ( ) (Block (Return (Convert:long (Call:int f:const int (void))))) ;
void * f ( int * p ) { return p ; } => f ( p ) (Block (Return (Convert:void * (Read:int * p:int *)))) ;
int * f ( void ) { return 0 ; } => f ( ) (Block (Return (Convert:int * 0:int))) ;
struct S { int m ; } f ( struct S s ) { return s ; } int g ( struct S s ) { return f ( s ) . m ; } => f ( s ) (Block (Return (Read:struct S s:struct S))) ; g ( s ) (Block (Return (Member 0:int (Call:struct S f:struct S (struct S) (Read:struct S s:struct S))))) ;
void f ( void ) { typedef int T ; enum { A = 1 } ; struct S { int m [ A ] ; } ; } => f ( ) (Block (Declare T) (Declare 1:int) (Declare A:int)) ;
char s [ 2 ] ; void f ( void ) { f ; "x" ; f ( ) ; } => 2:int s! ; f ( ) (Block (Full f:void (void)) (Full (Decay:char * "x":char [2])) (Full (Call:void f:void (void)))) ;"#;

#[test]
fn statements_have_their_trees(rt: HostRuntime) -> Result<(), Fail> {
    assert_eq!(rt;
        first_other(rt.alloc(), BODIES, Part::Externals)?.as_str(),
        ""
    );
    Ok(())
}

// External declarations (6.9).
const EXTERNALS: &str = r#"int ; => ;
int f ( void ) , x = 1 ; => f , x! = 1:int ;
typedef int T ; T x ; => T ; x! ;
int f ( int a , int ) ; int f ( int b , int c ) { return c ; } => f ; f ( b c ) (Block (Return (Read:int c:int))) ;
int ( * p ) [ 3 ] ; int ( * f ( int a [ 2 ] ) ) [ 3 ] { return 0 ; } => 3:int p! ; 2:int 3:int f ( a ) (Block (Return (Convert:int (*)[3] 0:int))) ;
int f ( enum { A = 1 } e ) { return A ; } => 1:int f ( e ) (Block (Return A:int)) ;
int f ( ) { return 0 ; } => f ( ) (Block (Return 0:int)) ;
int a [ sizeof ( int [ 2 ] ) ] , b [ 2 ] ; => (Sizeof int [2]:unsigned long 2:int) 2:int a! , b! ;
int a [ 2 ] ; int a [ ] ; int n [ sizeof a ] ; => 2:int a! ; a! ; (Sizeof:unsigned long a:int [2]) n! ;
static int f ( int n ) { return n ? f ( n - 1 ) : 0 ; } => f ( n ) (Block (Return (Choose:int (Read:int n:int) (Call:int f:int (int) (Sub:int (Read:int n:int) 1:int)) 0:int))) ;"#;

#[test]
fn external_declarations_have_their_trees(rt: HostRuntime) -> Result<(), Fail> {
    assert_eq!(rt;
        first_other(rt.alloc(), EXTERNALS, Part::Externals)?.as_str(),
        ""
    );
    Ok(())
}
