//! Units that break typing rules of ISO/IEC 9899:2011: the first rule that is broken, and the column of its place.

use crate::typing::{Part, first_other};
use std::process::Abort;
use std::test::Fail;

// Names that aren't declared (6.5.1, 6.7.2.3).
const NAMES: &str = r#"int a = b ; => C1 at 3
int f ( void ) { return b ; } => C1 at 7
int f ( void ) { { int b ; } return b ; } => C1 at 12
int f ( int a [ n ] ) ; => C1 at 6
int f ( int p ) ; int g ( void ) { return p ; } => C1 at 14
struct S { int m [ n ] ; } ; => C1 at 6
struct S { int m ; } ; int f ( void ) { return m ; } => C1 at 15
struct S { int m ; } ; int f ( void ) { return S ; } => C1 at 15
enum { A = B , B } ; => C1 at 4
enum { A = A } ; => C1 at 4
int f ( void ) { for ( int i = n ; ; ) ; } => C1 at 11
int f ( void ) { for ( int i = 0 ; ; ) ; return i ; } => C1 at 17
int f ( void ) { do { int x ; } while ( x ) ; return 0 ; } => C1 at 14
int f ( void ) { if ( 1 ) { int x ; } else x ; return 0 ; } => C1 at 16
int f ( void ) { switch ( 1 ) { case A : ; } return 0 ; } => C1 at 12
int f ( void ) { if ( sizeof ( enum { A } ) ) ; return A ; } => C1 at 18
int a [ ] = { 1 , b } ; => C1 at 8
enum E x ; => C1 at 0
int f ( enum E e ) ; => C1 at 3
struct S { enum E e ; } ; => C1 at 3
int f ( void ) { for ( enum E e ; ; ) ; } => C1 at 8
int f ( void ) { { enum E { A } ; } enum E e ; return 0 ; } => C1 at 14"#;

#[test]
fn names_that_are_not_declared_are_refused(rt: HostRuntime) -> Result<(), Fail> {
    assert_eq!(rt; first_other(rt.alloc(), NAMES, Part::Entries)?.as_str(), "");
    Ok(())
}

// Names that are declared again (6.2.2, 6.7p3).
const REDECLARED: &str = r#"int a ; long a ; => C2 at 4
int a ; const int a ; => C2 at 5
int a ; int a ( void ) ; => C2 at 4
int a ( void ) ; int a ; => C2 at 7
int a [ 2 ] ; int a [ 3 ] ; => C2 at 7
int f ( int ) ; int f ( long ) ; => C2 at 7
int f ( int ) ; long f ( int ) ; => C2 at 7
int f ( int ) ; int f ( void ) ; => C2 at 7
struct S { int m ; } a ; struct T { int m ; } a ; => C2 at 16
struct { int m ; } a ; struct { int m ; } a ; => C2 at 14
int x , x ( void ) ; => C2 at 3
typedef int T ; typedef long T ; => C2 at 6
typedef int T ; int T ; => C2 at 5
int T ; typedef int T ; => C2 at 5
int A ; enum { A } ; => C2 at 5
enum { A } ; int A ; => C2 at 6
enum { A , A } ; => C2 at 4
enum { A } ; enum E { A } ; => C2 at 8
int f ( void ) ; enum { f } ; => C2 at 8
int f ( int a , int a ) ; => C2 at 7
int f ( int a , long a ) { return 0 ; } => C2 at 7
int f ( int a , enum { a } b ) { return 0 ; } => C2 at 8
int f ( int a ) { int a ; return 0 ; } => C2 at 8
int f ( int a ) { extern int a ; return 0 ; } => C2 at 9
int f ( int a ) { enum { a } ; return 0 ; } => C2 at 9
int f ( void ) { int a ; int a ; return 0 ; } => C2 at 10
int f ( void ) { int a ; extern int a ; return 0 ; } => C2 at 11
int f ( void ) { extern int a ; int a ; return 0 ; } => C2 at 11
int f ( void ) { static int a ; static int a ; return 0 ; } => C2 at 12
int f ( void ) { typedef int T ; typedef long T ; return 0 ; } => C2 at 12
int f ( void ) { for ( int i = 0 , i = 1 ; ; ) ; } => C2 at 13"#;

#[test]
fn names_declared_again_are_refused(rt: HostRuntime) -> Result<(), Fail> {
    assert_eq!(rt;
        first_other(rt.alloc(), REDECLARED, Part::Entries)?.as_str(),
        ""
    );
    Ok(())
}

// Declarations of one name with linkage that don't agree, and definitions that come twice (6.2.2p7, 6.2.7p2, 6.9p3, 6.9p5).
const LINKED: &str = r#"int x ; static int x ; => C2 at 5
static int x ; int x ; => C2 at 5
extern int x ; static int x ; => C2 at 6
int f ( void ) ; static int f ( void ) ; => C2 at 8
static int x ; int f ( void ) { int x = 1 ; { extern int x ; } return x ; } => C2 at 18
int f ( void ) { extern int a ; return a ; } static int a ; => C2 at 16
int f ( void ) { extern int a ; return a ; } long a ; => C2 at 15
int f ( void ) { extern int a ; } int g ( void ) { extern long a ; } => C2 at 19
int f ( void ) { int g ( int ) ; return g ( 1 ) ; } int g ( long a ) { return 0 ; } => C2 at 20
extern int a [ ] ; int f ( void ) { extern int a [ 3 ] ; return 0 ; } int a [ 2 ] ; => C2 at 24
int f ( void ) { extern char a [ 3 ] ; return 0 ; } char a [ ] = "b" ; => C2 at 18
int a [ 2 ] = { 1 } ; int a [ 2 ] = { 1 } ; => C2 at 11
int a = 1 ; int a = 2 ; => C2 at 6
int a = 1 ; extern int a = 1 ; => C2 at 7
static int a = 1 , a = 1 ; => C2 at 6
int f ( int a ) { return a ; } int f ( int b ) { return b ; } => C2 at 12
static int f ( void ) { return 0 ; } static int f ( void ) { return 0 ; } => C2 at 13
int f ( void ) { return 0 ; } int f ( void ) ; int f ( void ) { return 1 ; } => C2 at 17
int f ; int f ( void ) { return 0 ; } => C2 at 4
typedef int f ; int f ( void ) { return 0 ; } => C2 at 5"#;

#[test]
fn declarations_that_do_not_agree_are_refused(rt: HostRuntime) -> Result<(), Fail> {
    assert_eq!(rt;
        first_other(rt.alloc(), LINKED, Part::Entries)?.as_str(),
        ""
    );
    Ok(())
}

// Specifiers that don't stand together (6.7.1, 6.7.2, 6.7.4).
const SPECIFIERS: &str = r#"long long long a ; => C3 at 0
short char a ; => C3 at 0
int int a ; => C3 at 0
signed unsigned a ; => C3 at 0
void int * a ; => C3 at 0
_Bool int a ; => C3 at 0
long char a ; => C3 at 0
struct S { int m ; } int a ; => C3 at 0
const a ; => C3 at 0
const ; => C3 at 0
typedef x ; => C3 at 0
static extern int a ; => C3 at 0
extern static int a ; => C3 at 0
typedef static int T ; => C3 at 0
typedef extern int T ; => C3 at 0
inline int f ( void ) ; => C3 at 0
inline int f ( void ) { return 0 ; } => C3 at 0
int inline f ( void ) ; => C3 at 0
extern inline int f ( void ) ; => C3 at 0
static inline int x ; => C3 at 0
static inline int f ( void ) , x ; => C3 at 0
static inline struct S { int m ; } ; => C3 at 0
typedef inline int F ( void ) ; => C3 at 0
typedef int f ( void ) { return 0 ; } => C3 at 0
struct S { static int m ; } ; => C3 at 3
struct S { typedef int m ; } ; => C3 at 3
struct S { inline int m ; } ; => C3 at 3
int f ( static int x ) ; => C3 at 3
int f ( int x , extern int y ) { return x ; } => C3 at 6
int f ( typedef int x ) ; => C3 at 3
int f ( const ) ; => C3 at 3
int f ( void ) { static int g ( void ) ; return 0 ; } => C3 at 6
int f ( void ) { static inline int g ( void ) ; return 0 ; } => C3 at 6
int f ( void ) { inline int x ; return 0 ; } => C3 at 6
int f ( void ) { for ( long long long i ; ; ) ; } => C3 at 8
int f ( void ) { for ( static extern int i ; ; ) ; } => C3 at 8"#;

#[test]
fn specifiers_that_do_not_stand_together_are_refused(rt: HostRuntime) -> Result<(), Fail> {
    assert_eq!(rt;
        first_other(rt.alloc(), SPECIFIERS, Part::Entries)?.as_str(),
        ""
    );
    Ok(())
}

// Tags of another kind, and content that comes twice (6.7.2.3).
const TAGS: &str = r#"struct S { int m ; } ; enum S { A } ; => C4 at 8
struct S ; enum S { A } ; => C4 at 3
struct S ; enum S x ; => C4 at 3
enum E { A } ; struct E * p ; => C4 at 6
enum E { A } ; struct E { int m ; } ; => C4 at 6
enum E { A } ; int f ( void ) { struct E * p ; return 0 ; } => C4 at 12
enum E { A } ; int f ( struct E * p ) ; => C4 at 9
struct S { enum S * p ; } ; => C4 at 3
struct S { int m ; } ; int f ( void ) { for ( enum S i ; ; ) ; } => C4 at 16
struct S { int m ; } ; struct S { int m ; } ; => C4 at 8
enum E { A } ; enum E { B } ; => C4 at 6
int f ( void ) { struct S { int m ; } ; struct S { int m ; } ; return 0 ; } => C4 at 14
int f ( struct S { int m ; } * p ) { struct S { int m ; } ; return 0 ; } => C4 at 14
int f ( enum E { A } a , enum E { B } b ) ; => C4 at 10
struct S { int m ; } f ( void ) ; struct S { int m ; } g ( void ) ; => C4 at 12
int a = sizeof ( struct S { int m ; } ) ; struct S { int m ; } ; => C4 at 14"#;

#[test]
fn tags_declared_again_are_refused(rt: HostRuntime) -> Result<(), Fail> {
    assert_eq!(rt; first_other(rt.alloc(), TAGS, Part::Entries)?.as_str(), "");
    Ok(())
}

// Types that aren't complete or that C doesn't have (6.7p7, 6.7.2.1, 6.7.6, 6.9.1, 6.9.2).
const TYPES: &str = r#"void v ; => C5 at 1
static void v ; => C5 at 2
struct S s ; => C5 at 2
struct S s ; struct S { int m ; } ; => C5 at 2
static int a [ ] ; => C5 at 2
int a [ ] ; => C5 at 1
int a , b [ ] ; => C5 at 3
int a [ 0 ] ; => C5 at 3
int a [ - 1 ] ; => C5 at 3
int a [ 1 / 0 ] ; => C5 at 3
int n ; int a [ n ] ; => C5 at 6
const int n = 2 ; int a [ n ] ; => C5 at 9
int a [ ( 1 , 2 ) ] ; => C5 at 3
int a [ 2 ] [ ] ; => C5 at 1
struct S a [ 2 ] ; => C5 at 2
void a [ 2 ] ; => C5 at 1
int f ( void ) [ 2 ] ; => C5 at 1
int f ( void ) ( void ) ; => C5 at 1
int ( * p ) ( void ) ; => C5 at 2
int a [ 3 ] ( void ) ; => C5 at 1
struct S f ( void ) ; => C5 at 2
typedef int F ( void ) ; F * p ; => C5 at 8
typedef int F ( void ) ; F a [ 2 ] ; => C5 at 8
typedef int A [ 2 ] ; A f ( void ) ; => C5 at 8
typedef int A [ 0 ] ; => C5 at 4
char a [ 1073741825 ] ; => C5 at 1
int a [ 268435456 ] [ 2 ] ; => C5 at 1
int f ( void ) { void v ; return 0 ; } => C5 at 7
int f ( void ) { int a [ ] ; return 0 ; } => C5 at 7
int f ( int n ) { int a [ n ] ; return 0 ; } => C5 at 10
int f ( void ) { for ( struct S s ; ; ) ; } => C5 at 10
struct S { int m ; } ; int f ( void ) { struct S ; struct S s ; return 0 ; } => C5 at 19"#;

#[test]
fn types_that_are_not_complete_are_refused(rt: HostRuntime) -> Result<(), Fail> {
    assert_eq!(rt; first_other(rt.alloc(), TYPES, Part::Entries)?.as_str(), "");
    Ok(())
}

// Members, parameters and results that aren't complete, and members and enumerators (6.7.2.1, 6.7.2.2, 6.9.1).
const PARTS: &str = r#"struct S { struct S m ; } ; => C5 at 5
struct S { void m ; } ; => C5 at 4
struct S { int m [ ] ; } ; => C5 at 4
struct S { int m ( void ) ; } ; => C5 at 4
struct S { int m [ 0 ] ; } ; => C5 at 6
struct S { char a [ 1073741824 ] ; char b ; } ; => C5 at 0
int f ( int a [ 0 ] ) ; => C5 at 6
int f ( int n , int a [ n ] ) ; => C5 at 9
int f ( struct S a [ ] ) ; => C5 at 5
struct S { int m ; int m ; } ; => C6 at 7
struct S { int m , * m ; } ; => C6 at 7
int f ( struct { int m ; char m ; } * p ) ; => C6 at 9
int f ( void ) { for ( struct { int m , m ; } s ; ; ) ; } => C6 at 13
struct S { struct { int m , m ; } n ; } ; => C6 at 8
int a ; enum { A = a } ; => C7 at 7
enum { A = 2147483648 } ; => C7 at 4
enum { A = - 2147483649 } ; => C7 at 4
enum { A = 2147483647 , B } ; => C7 at 6
enum { A = 1 / 0 } ; => C7 at 4
enum { A = ( 0 , 1 ) } ; => C7 at 4
struct S { enum { A = 1 / 0 } m ; } ; => C7 at 7
int f ( enum { A = 1 / 0 } a ) ; => C7 at 7
int f ( int a ) { enum { A = a } ; return 0 ; } => C7 at 11
int f ( void ) { for ( enum { A = 1 / 0 } i ; ; ) ; } => C7 at 12"#;

#[test]
fn parts_of_types_are_refused(rt: HostRuntime) -> Result<(), Fail> {
    assert_eq!(rt; first_other(rt.alloc(), PARTS, Part::Entries)?.as_str(), "");
    Ok(())
}

// Initialisers that don't fit (6.7.9).
const INITIALISERS: &str = r#"int x = { 1 , 2 } ; => C8 at 3
int x = { { 1 } } ; => C8 at 3
int a [ 2 ] = { 1 , 2 , 3 } ; => C8 at 6
int a [ 2 ] = 1 ; => C8 at 6
int a [ 2 ] [ 2 ] = { 1 , 2 } ; => C8 at 10
struct S { int m ; } s = { 1 , 2 } ; => C8 at 9
struct S { int m ; } s = 1 ; => C8 at 9
struct S { int m ; } s = { { 1 , 2 } } ; => C8 at 10
struct S { int m ; } s , t = s ; => C8 at 11
struct S { int m ; struct { int n ; } in ; } s = { 1 , 2 } ; => C8 at 20
struct S { struct { int n ; } in ; } s = { 0 , } ; => C8 at 15
struct S { int m ; } ; int f ( struct S s ) { struct S t = s ; return t . m ; } => C8 at 20
char s [ 2 ] = "abc" ; => C8 at 6
char s [ ] = ( "abc" ) ; => C8 at 5
int a [ ] = "abc" ; => C8 at 5
char s [ ] [ 2 ] = "ab" ; => C8 at 8
int y ; int x = y ; => C8 at 6
const int k = 3 ; int x = k ; => C8 at 9
int g ( void ) ; int x = g ( ) ; => C8 at 9
int x = ( 1 , 2 ) ; => C8 at 3
int a [ 3 ] ; int * p = a + 1 ; => C8 at 10
int * p = ( int * ) 0 ; => C8 at 4
int a ; int * p = & * & a ; => C8 at 7
struct S { int m ; } s , * p = & s ; int * q = & p -> m ; => C8 at 19
int f ( int n ) { static int x = n ; return x ; } => C8 at 11
int f ( void ) { int x ; static int * p = & x ; return 0 ; } => C8 at 14
int f ( void ) { int a [ 2 ] = { 1 , 2 , 3 } ; return 0 ; } => C8 at 12
int f ( void ) { for ( int a [ 1 ] = { 1 , 2 } ; ; ) ; } => C8 at 14
int f ( void ) = 1 ; => C8 at 6
typedef int T = 1 ; => C9 at 2
typedef int * T = 0 ; => C9 at 2
int f ( void ) { extern int x = 1 ; return x ; } => C9 at 8
int f ( void ) { extern int * x = 0 ; return 0 ; } => C9 at 8
int f ( void ) { for ( extern int i = 0 ; ; ) ; } => C9 at 10
int f ( void ) { typedef int T = 1 ; return 0 ; } => C9 at 8"#;

#[test]
fn initialisers_that_do_not_fit_are_refused(rt: HostRuntime) -> Result<(), Fail> {
    assert_eq!(rt;
        first_other(rt.alloc(), INITIALISERS, Part::Entries)?.as_str(),
        ""
    );
    Ok(())
}

// Values that can't be assigned or have no constant value (6.5.16.1, 6.6, 6.7.9p11).
const VALUES: &str = r#"int * p = 1 ; => C28 at 4
int x = "abc" ; => C28 at 3
long a ; int * p = & a ; => C28 at 7
const int a ; int * p = & a ; => C28 at 8
char s [ ] = { "abc" } ; => C28 at 6
int * a [ ] = { 0 , 1 } ; => C28 at 9
struct S { int m ; } s ; struct S t = { & s } ; => C28 at 14
int f ( const int * q ) { int * p = q ; return * p ; } => C28 at 13
int f ( void ) { struct S { int m ; } s ; int x = s ; return x ; } => C28 at 18
void g ( void ) ; int f ( void ) { int x = g ( ) ; return x ; } => C28 at 15
int f ( int * p ) { for ( long * q = p ; ; ) ; } => C28 at 14
int x = 1 / 0 ; => C30 at 3
long x = 2147483647 + 1 ; => C30 at 3
int a [ 2 ] = { 1 , 1 << 32 } ; => C30 at 9
int f ( void ) { static int x = 1 % 0 ; return x ; } => C30 at 10
int f ( int c ) { switch ( c ) { case c : ; } return c ; } => C30 at 13
int f ( int c ) { switch ( c ) { case 1 / 0 : ; } return c ; } => C30 at 13
int f ( int c ) { switch ( c ) { case ( 1 , 2 ) : ; } return c ; } => C30 at 13
int f ( int c ) { switch ( c ) { default : case f ( 1 ) : ; } return c ; } => C30 at 15
int f ( void ) { 1 = 2 ; return 0 ; } => C28 at 6"#;

#[test]
fn values_that_do_not_fit_are_refused(rt: HostRuntime) -> Result<(), Fail> {
    assert_eq!(rt;
        first_other(rt.alloc(), VALUES, Part::Entries)?.as_str(),
        ""
    );
    Ok(())
}

// Labels of a switch that come twice (6.8.4.2p3).
const LABELS: &str =
    r#"int f ( int c ) { switch ( c ) { case 1 : ; case 1 : ; } return c ; } => C31 at 17
int f ( int c ) { switch ( c ) { case 1 : case 2 : case 3 - 2 : ; } return c ; } => C31 at 19
int f ( char c ) { switch ( c ) { case 'a' : ; case 97 : ; } return c ; } => C31 at 17
int f ( unsigned int c ) { switch ( c ) { case - 1 : ; case 4294967295 : ; } return 0 ; } => C31 at 19
int f ( int c ) { switch ( c ) { case 0 : ; case 4294967296 : ; } return 0 ; } => C31 at 17
int f ( unsigned char c ) { switch ( c ) { case 256 : ; case 0 : ; case 256 : ; } return 0 ; } => C31 at 22
enum { A , B = 0 } ; int f ( int c ) { switch ( c ) { case A : ; case B : ; } return c ; } => C31 at 26
int f ( int c ) { switch ( c ) { default : ; default : ; } return c ; } => C31 at 15
int f ( int c ) { switch ( c ) { default : case 1 : default : ; } return c ; } => C31 at 17
int f ( int c ) { switch ( c ) { case 1 : switch ( c ) { case 1 : ; case 1 : ; } } return c ; } => C31 at 25
int f ( int c ) { switch ( c ) { case 1 : switch ( c ) { case 2 : ; default : ; } case 1 : ; } return c ; } => C31 at 29"#;

#[test]
fn labels_that_come_twice_are_refused(rt: HostRuntime) -> Result<(), Fail> {
    assert_eq!(rt;
        first_other(rt.alloc(), LABELS, Part::Entries)?.as_str(),
        ""
    );
    Ok(())
}

// Statements out of place, and what they test and return (6.8.4 to 6.8.6).
const STATEMENTS: &str =
    r#"struct S { int m ; } s ; int f ( void ) { if ( s ) ; return 0 ; } => C32 at 17
struct S { int m ; } s ; int f ( void ) { while ( s ) ; return 0 ; } => C32 at 17
struct S { int m ; } s ; int f ( void ) { do ; while ( s ) ; return 0 ; } => C32 at 19
struct S { int m ; } s ; int f ( void ) { for ( ; s ; ) ; return 0 ; } => C32 at 18
struct S { int m ; } s ; int f ( void ) { switch ( s ) { } return 0 ; } => C32 at 17
void g ( void ) ; int f ( void ) { if ( g ( ) ) ; return 0 ; } => C32 at 14
int f ( void ) { if ( f ) ; return 0 ; } => C32 at 8
int f ( int * p ) { switch ( p ) { } return 0 ; } => C32 at 10
int f ( void ) { break ; return 0 ; } => C33 at 6
int f ( void ) { if ( 1 ) break ; return 0 ; } => C33 at 10
int f ( void ) { while ( 1 ) ; { break ; } return 0 ; } => C33 at 12
int f ( void ) { switch ( 1 ) { default : ; } break ; return 0 ; } => C33 at 15
int f ( void ) { continue ; return 0 ; } => C33 at 6
int f ( void ) { switch ( 1 ) { case 1 : continue ; } return 0 ; } => C33 at 14
int f ( void ) { do ; while ( 0 ) ; continue ; } => C33 at 13
void f ( void ) { return 1 ; } => C34 at 6
void g ( void ) ; void f ( void ) { return g ( ) ; } => C34 at 12
int f ( void ) { return ; } => C34 at 6
int f ( void ) { if ( 1 ) { return ; } return 0 ; } => C34 at 11
int f ( void ) { return "x" ; } => C34 at 6
int * f ( void ) { return 1 ; } => C34 at 7
int * f ( const int * p ) { return p ; } => C34 at 10
struct S { int m ; } f ( void ) { return 0 ; } => C34 at 12
int f ( struct S { int m ; } s ) { return s ; } => C34 at 13"#;

#[test]
fn statements_out_of_place_are_refused(rt: HostRuntime) -> Result<(), Fail> {
    assert_eq!(rt;
        first_other(rt.alloc(), STATEMENTS, Part::Entries)?.as_str(),
        ""
    );
    Ok(())
}

// Parameters of definitions, `main`, and static functions that aren't defined (5.1.2.2.1, 6.9p3, 6.9.1).
const FUNCTIONS: &str = r#"int f ( struct S s ) { return 0 ; } => C5 at 5
int f ( int a , struct S b ) { return 0 ; } => C5 at 8
int f ( int ) { return 0 ; } => C35 at 3
int f ( int a , int * ) { return 0 ; } => C35 at 6
int f ( int [ 2 ] ) { return 0 ; } => C35 at 3
int main ; => C36 at 1
extern int main ; => C36 at 2
static int main [ 2 ] ; => C36 at 2
long main ( void ) { return 0 ; } => C36 at 1
void main ( void ) { } => C36 at 1
static int main ( void ) { return 0 ; } => C36 at 2
int main ( int c ) { return 0 ; } => C36 at 1
int main ( long c , char * * v ) { return 0 ; } => C36 at 1
int main ( int c , char * v ) { return 0 ; } => C36 at 1
int main ( int c , const char * * v ) { return 0 ; } => C36 at 1
int main ( int c , char * * v , char * * e ) ; => C36 at 1
int main ( char * * v , int c ) ; => C36 at 1
typedef int main ; => C36 at 2
enum { main } ; => C36 at 2
static int g ( void ) ; int f ( void ) { return g ( ) ; } => C37 at 14
static int g ( void ) ; int f ( void ) { g ; return 0 ; } => C37 at 13
static int g ( void ) ; int f ( void ) { if ( 0 ) g ( ) ; return 0 ; } => C37 at 17
static int g ( void ) ; int f ( void ) { int g ( void ) ; return g ( ) ; } => C37 at 20
static inline int g ( void ) ; int f ( void ) { for ( int i = g ( ) ; ; ) ; } => C37 at 19
static int g ( void ) ; int f ( void ) { return sizeof g ( ) + g ( ) ; } => C37 at 19"#;

#[test]
fn function_definitions_are_refused(rt: HostRuntime) -> Result<(), Fail> {
    assert_eq!(rt;
        first_other(rt.alloc(), FUNCTIONS, Part::Entries)?.as_str(),
        ""
    );
    Ok(())
}

// More than one rule is broken: in the order of the source, and of one declarator the lowest rule.
const SEVERAL: &str = r#"long long long a = nope ; => C3 at 0
static extern struct S s ; => C3 at 0
static inline int f ( void ) , f ( int ) ; => C2 at 8
int a ; long a = nope ; => C2 at 4
int a = 1 ; int a = nope ; => C1 at 8
int a ; struct S a ; => C2 at 5
struct S s = 1 ; => C5 at 2
int a [ 0 ] = { 1 , 2 } ; => C5 at 3
int f ( void ) { extern int x = nope ; return 0 ; } => C1 at 10
int x ; int f ( void ) { extern long x = 1 ; return 0 ; } => C2 at 11
typedef int T = nope ; => C1 at 4
int main = nope ; => C36 at 1
int main ( int a , int a ) { return 0 ; } => C2 at 7
int f ( int a , struct S a ) { return 0 ; } => C2 at 8
int f ( struct S ) { return nope ; } => C5 at 3
int f ( int ) { return nope ; } => C35 at 3
int f ( void ) { return 0 ; } int f ( void ) { return nope ; } => C2 at 11
long f ( void ) ; int f ( void ) { return nope ; } => C2 at 7
int f ( int a , int a ) { break ; } => C2 at 7
enum { A = 1 / 0 , A } ; => C7 at 4
int B ; enum { A = 2147483647 , B } ; => C2 at 9
int B ; enum { B = 2147483648 } ; => C7 at 7
enum { A = 2147483647 , main } ; => C7 at 6
int f ( int a , int a ( void ) ) ; => C2 at 7
int f ( int a , int a ( void ) ) { return nope ; } => C2 at 7
int f ( int a ( void ) , int a ) ; => C5 at 4
int g ( void ) { int f ; static int f ( void ) ; return 0 ; } => C2 at 11
int g ( void ) { static int f ( void ) ; int f ; return 0 ; } => C3 at 6
int g ( void ) { int f ; static int f ( int [ 0 ] ) ; return 0 ; } => C5 at 15
struct S { int m , m ; struct S s ; } ; => C6 at 6
struct S { int m ; void m ; } ; => C5 at 7
static int g ( void ) ; int f ( void ) { return g ( nope ) ; } => C37 at 14
static int g ( void ) ; int f ( void ) { return nope + g ( ) ; } => C1 at 14
static inline int x = nope ; => C1 at 5
int a [ 2 ] = { 1 , 2 , nope } ; => C1 at 11
int a [ 2 ] = { "x" , nope } ; => C28 at 7
int x = 1 / 0 , y = nope ; => C30 at 3
int f ( int c ) { switch ( c ) { case 1 : return nope ; case 1 : ; } } => C1 at 16
int f ( int * p ) { switch ( p ) { case nope : ; } return 0 ; } => C32 at 10
int f ( struct S { int m ; } s ) { while ( s ) nope ; return 0 ; } => C32 at 15
int f ( struct S { int m ; } s ) { do nope ; while ( s ) ; return 0 ; } => C1 at 14
int f ( struct S { int m ; } s ) { for ( nope ; s ; ) ; return 0 ; } => C1 at 15
int f ( struct S { int m ; } s ) { for ( ; s ; nope ) ; return 0 ; } => C32 at 16
int f ( struct S { int m ; } s ) { for ( ; ; nope ) return s ; return 0 ; } => C1 at 17
void f ( void ) { break ; return 1 ; } => C33 at 6
void f ( void ) { return nope ; } => C1 at 7
void f ( void ) { if ( 1 ) return 1 ; else break ; } => C34 at 10
int f ( int c ) { switch ( c ) { case 1 / 0 : continue ; } } => C30 at 13"#;

#[test]
fn the_first_of_several_rules_counts(rt: HostRuntime) -> Result<(), Fail> {
    assert_eq!(rt;
        first_other(rt.alloc(), SEVERAL, Part::Entries)?.as_str(),
        ""
    );
    Ok(())
}
