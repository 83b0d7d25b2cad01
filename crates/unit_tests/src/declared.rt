//! What units declare: linkage, sort, type and value, and the column of the first declaration.

use crate::typing::{Part, first_other};
use std::process::Abort;
use std::test::Fail;

// Objects and functions, and which declarations share an entry (6.2.2).
const LINKAGE: &str = r#"int a ; => external object int a at 1
int a , b ; => external object int a at 1 ; external object int b at 3
static int a ; => internal object int a at 2
extern int a ; => external object int a at 2
int a ; int a ; int a = 1 ; int a ; => external object int a at 1
static int a ; extern int a ; static int a ; => internal object int a at 2
extern int a ; int a = 1 ; extern int a ; => external object int a at 2
extern int a = 1 ; => external object int a at 2
int f ( void ) ; => external function int f(void) at 1
static int f ( void ) ; int f ( void ) { return 0 ; } => internal function int f(void) at 2
static int f ( void ) ; extern int f ( void ) ; int f ( void ) ; => internal function int f(void) at 2
int f ( void ) , x = 1 ; => external function int f(void) at 1 ; external object int x at 6
int f ( ) ; int f ( void ) { return 0 ; } => external function int f(void) at 1
static inline int f ( void ) { return 1 ; } int g ( void ) { return f ( ) ; } => internal function int f(void) at 3 ; external function int g(void) at 13
inline static int f ( void ) , g ( void ) ; => internal function int f(void) at 3 ; internal function int g(void) at 8
int a ; int f ( void ) { extern int a ; return a ; } => external object int a at 1 ; external function int f(void) at 4
static int a ; int f ( void ) { extern int a ; { extern int a ; a = 1 ; } return a ; } => internal object int a at 2 ; external function int f(void) at 5
int f ( void ) { extern int a ; return a ; } int a ; => external function int f(void) at 1 ; external object int a at 8
int f ( void ) { int g ( void ) ; return g ( ) ; } int g ( void ) { return 0 ; } => external function int f(void) at 1 ; external function int g(void) at 7
int x ; int f ( void ) { int x = 1 ; { extern int x ; x = 2 ; } return x ; } => external object int x at 1 ; external function int f(void) at 4 ; object int x at 10
int f ( void ) { int a ; static int b ; extern int c ; return 0 ; } => external function int f(void) at 1 ; object int a at 7 ; static object int b at 11 ; external object int c at 15
int f ( void ) { int a ; { int a ; { static long a ; } } return a ; } => external function int f(void) at 1 ; object int a at 7 ; object int a at 11 ; static object long a at 16
int f ( int a ) { { int a ; } return a ; } => object int a at 4 ; external function int f(int) at 1 ; object int a at 9
int f ( void ) { for ( int i = 0 ; ; ) { int i ; } } => external function int f(void) at 1 ; object int i at 9 ; object int i at 17
int f ( int f ) { return f ; } => object int f at 4 ; external function int f(int) at 1
int x = 1 , * p = & x ; => external object int x at 1 ; external object int *p at 6"#;

#[test]
fn linkage_is_found(rt: HostRuntime) -> Result<(), Fail> {
    assert_eq!(rt;
        first_other(rt.alloc(), LINKAGE, Part::Entries)?.as_str(),
        ""
    );
    Ok(())
}

// Types of what is declared, and composite types (6.2.7, 6.7.6, 6.7.9p22).
const COMPOSITES: &str = r#"extern int a [ ] ; int a [ 3 ] ; => external object int a[3] at 2
int a [ ] = { 1 , 2 , 3 } ; => external object int a[3] at 1
int a [ ] [ 2 ] = { { 1 } , { 2 } , { 3 } } ; => external object int a[3][2] at 1
char s [ ] = "abc" ; => external object char s[4] at 1
extern int a [ ] ; => external object int a[] at 2
int a [ 2 ] ; int a [ ] ; => external object int a[2] at 1
extern int a [ ] ; void f ( void ) { extern int a [ 3 ] ; } => external object int a[3] at 2 ; external function void f(void) at 7
int f ( void ) { extern int a [ 3 ] ; return 0 ; } extern int a [ ] ; => external function int f(void) at 1 ; external object int a[3] at 8
typedef int T [ ] ; T a = { 1 , 2 } , b = { 3 } ; => typedef int T[] at 2 ; external object int a[2] at 7 ; external object int b[1] at 15
int f ( int ( * ) [ ] ) ; int f ( int ( * a ) [ 3 ] ) ; => external function int f(int (*)[3]) at 1 ; object int (*a)[3] at 17
int f ( const int a ) ; int f ( int a ) { return a ; } => object const int a at 5 ; external function int f(int) at 1 ; object int a at 12
int f ( int a [ 3 ] , const int b [ ] , char * c [ 2 ] ) ; => object int *a at 4 ; object const int *b at 11 ; object char **c at 17 ; external function int f(int *, const int *, char **) at 1
typedef void V ; int f ( V ) ; => typedef void V at 2 ; external function int f(void) at 5
typedef int F ( int ) ; F f ; => typedef int F(int) at 2 ; external function int f(int) at 8
const int * p , * const q , r ; => external object const int *p at 3 ; external object const int *const q at 7 ; external object const int r at 9
int ( * a ) [ 2 ] , * b [ 2 ] , ( * ( * c ) [ 2 ] ) [ 3 ] ; => external object int (*a)[2] at 3 ; external object int *b[2] at 10 ; external object int (*(*c)[2])[3] at 19
int ( * f ( int a ) ) [ 3 ] { return 0 ; } => object int a at 6 ; external function int (*f(int))[3] at 3
long long unsigned int a ; short b ; _Bool c ; signed char d ; unsigned e ; => external object unsigned long long a at 4 ; external object short b at 7 ; external object _Bool c at 10 ; external object signed char d at 14 ; external object unsigned int e at 17
extern void v ; extern struct S s ; => external object void v at 2 ; tag struct S S at 6 ; external object struct S s at 7"#;

#[test]
fn types_are_found(rt: HostRuntime) -> Result<(), Fail> {
    assert_eq!(rt;
        first_other(rt.alloc(), COMPOSITES, Part::Entries)?.as_str(),
        ""
    );
    Ok(())
}

// Tags, enumerators, typedefs and parameters (6.2.1, 6.2.3, 6.7.2.2, 6.7.2.3, 6.7.8).
const SCOPES: &str =
    r#"enum E { A , B = 5 , C } e = B ; => tag int E at 1 ; enumerator int A = 0 at 3 ; enumerator int B = 5 at 5 ; enumerator int C = 6 at 9 ; external object int e at 11
enum { A = 'a' , B = A + 1 , C = - 1 , D } ; => enumerator int A = 97 at 2 ; enumerator int B = 98 at 6 ; enumerator int C = -1 at 12 ; enumerator int D = 0 at 17
struct S { int m ; } s ; => tag struct S S at 1 ; external object struct S s at 7
struct S ; struct S { int m ; } ; struct S s ; => tag struct S S at 1 ; external object struct S s at 13
struct S * p ; struct S { struct S * n ; } ; => tag struct S S at 1 ; external object struct S *p at 3
struct S { int a ; } ; int f ( void ) { struct S { char c ; } s ; { struct S ; } return sizeof s ; } => tag struct S S at 1 ; external function int f(void) at 9 ; tag struct S S at 15 ; object struct S s at 21 ; tag struct S S at 25
struct S { struct T { enum { A , B } k ; } t ; } ; => tag struct S S at 1 ; tag struct T T at 4 ; enumerator int A = 0 at 8 ; enumerator int B = 1 at 10
struct S { int S ; } S ; enum E { F } E ; => tag struct S S at 1 ; external object struct S S at 7 ; tag int E at 10 ; enumerator int F = 0 at 12 ; external object int E at 14
typedef int T ; typedef int T ; T x ; => typedef int T at 2 ; external object int x at 9
typedef int T ; int f ( T T ) { return T ; } T x ; => typedef int T at 2 ; object int T at 8 ; external function int f(int) at 5 ; external object int x at 16
typedef struct S T ; T * p ; => tag struct S S at 2 ; typedef struct S T at 3 ; external object struct S *p at 7
int f ( struct S { int m ; } s , enum { A , B } e ) { return s . m + B ; } => tag struct S S at 4 ; object struct S s at 10 ; enumerator int A = 0 at 14 ; enumerator int B = 1 at 16 ; object int e at 18 ; external function int f(struct S, int) at 1
int f ( struct S s ) ; => tag struct S S at 4 ; object struct S s at 5 ; external function int f(struct S) at 1
int f ( int , char a , void ) ; => object char a at 6 ; external function int f(int, char, void) at 1
int f ( int a , int b [ sizeof a ] ) ; => object int a at 4 ; object int *b at 7 ; external function int f(int, int *) at 1
int x = sizeof ( enum { A , B } ) ; int y = B ; => external object int x at 1 ; enumerator int A = 0 at 7 ; enumerator int B = 1 at 9 ; external object int y at 14
int f ( void ) { if ( sizeof ( enum { A } ) ) { enum { A = 2 } ; } return 0 ; } => external function int f(void) at 1 ; enumerator int A = 0 at 12 ; enumerator int A = 2 at 19
int ; struct { int m ; } ; => nothing
int main ( int argc , char * argv [ ] ) { return argc ; } => object int argc at 4 ; object char **argv at 8 ; external function int main(int, char **) at 1
struct main { int m ; } ; int main ( void ) ; int main ( ) { } => tag struct main main at 1 ; external function int main(void) at 9
int f ( void ) { int main = 1 ; return main ; } => external function int f(void) at 1 ; object int main at 7
static int g ( void ) ; int f ( void ) { return sizeof g ( ) ; } => internal function int g(void) at 2 ; external function int f(void) at 8
static int g ( void ) ; int f ( void ) { return g ( ) ; } int g ( void ) { return 1 ; } => internal function int g(void) at 2 ; external function int f(void) at 8
static int g ( void ) ; int f ( int g ) { return g ; } => internal function int g(void) at 2 ; object int g at 11 ; external function int f(int) at 8"#;

#[test]
fn scopes_hold_what_they_declare(rt: HostRuntime) -> Result<(), Fail> {
    assert_eq!(rt;
        first_other(rt.alloc(), SCOPES, Part::Entries)?.as_str(),
        ""
    );
    Ok(())
}
