//! Expressions that break typing rules of ISO/IEC 9899:2011: the rule, and the column of its place.

use crate::typing::first_not_refused;
use std::process::Abort;
use std::test::Fail;

// Names, types and declarations in type names (6.5.1, 6.7.2).
const NAMES: &str = r#"nope => C1 at 0
f ( 1 , nope ) => C1 at 4
S => C1 at 0
sizeof ( enum Zz ) => C1 at 2
sizeof nope => C1 at 1
nope ( ) => C1 at 0
i ? nope : other => C1 at 2
sizeof ( enum { E5 } ) => C2 at 4
sizeof ( enum { X , X } ) => C2 at 6
sizeof ( enum { i } ) => C2 at 4
sizeof ( int ( * ) [ sizeof ( enum { g } ) ] ) => C2 at 11
sizeof ( long long long ) => C3 at 2
sizeof ( short char ) => C3 at 2
sizeof ( static int ) => C3 at 2
( typedef int ) 1 => C3 at 1
sizeof ( inline int ) => C3 at 2
sizeof ( extern int ) => C3 at 2
sizeof ( const ) => C3 at 2
sizeof ( struct { static int x ; } ) => C3 at 4
sizeof ( void int ) => C3 at 2
sizeof ( struct S int ) => C3 at 2
sizeof ( enum S ) => C4 at 2
sizeof ( struct En ) => C4 at 2
sizeof ( struct T { int x ; } ) => C4 at 2
sizeof ( enum En { X } ) => C4 at 2
( struct En * ) 0 => C4 at 1
( struct S { int x ; } * ) 0 => C4 at 1"#;

#[test]
fn refuses_names(rt: HostRuntime) -> Result<(), Fail> {
    assert_eq!(rt; first_not_refused(rt.alloc(), NAMES)?.as_str(), "");
    Ok(())
}

// Derived types, members and enumerators in type names (6.7.2.1, 6.7.2.2, 6.7.6).
const DERIVED: &str = r#"sizeof ( int [ 0 ] ) => C5 at 4
sizeof ( int [ i ] ) => C5 at 4
sizeof ( int [ - 1 ] ) => C5 at 4
sizeof ( int [ 1 / 0 ] ) => C5 at 4
sizeof ( void [ 2 ] ) => C5 at 3
sizeof ( struct U [ 2 ] ) => C5 at 4
sizeof ( int [ 2 ] [ ] ) => C5 at 3
( int ( * ) ( int ) ) p => C5 at 3
sizeof ( int ( int ) ) => C17 at 0
sizeof ( struct { struct U x ; } ) => C5 at 6
sizeof ( struct { int x [ ] ; } ) => C5 at 5
sizeof ( struct { void x ; } ) => C5 at 5
sizeof ( struct { int x ( int ) ; } ) => C5 at 5
sizeof ( int [ 268435457 ] ) => C5 at 3
sizeof ( char [ 1073741824 ] [ 2 ] ) => C5 at 3
sizeof ( struct { char x [ 1073741824 ] ; char y ; } ) => C5 at 2
sizeof ( struct L { struct L x ; } ) => C5 at 7
sizeof ( struct { int x ; char x ; } ) => C6 at 8
sizeof ( struct { int x , * y ; struct T x ; } ) => C6 at 12
sizeof ( enum { X = i } ) => C7 at 6
sizeof ( enum { X = 2147483647 , Y } ) => C7 at 8
sizeof ( enum { X = 4000000000 } ) => C7 at 6
sizeof ( enum { X = 1 / 0 } ) => C7 at 6
sizeof ( enum { main } ) => C36 at 4"#;

#[test]
fn refuses_derived_types(rt: HostRuntime) -> Result<(), Fail> {
    assert_eq!(rt; first_not_refused(rt.alloc(), DERIVED)?.as_str(), "");
    Ok(())
}

// Calls, subscripts and members (6.5.2.1 to 6.5.2.3).
const POSTFIX: &str = r#"f ( 1 ) => C10 at 0
f ( ) => C10 at 0
f ( 1 , s , 2 ) => C10 at 0
g ( i ) => C10 at 0
f ( p , s ) => C10 at 0
f ( 1 , p ) => C10 at 0
f ( 1 , 2 ) => C10 at 0
w ( 1 , t ) => C10 at 0
w ( p , st ) => C10 at 0
z ( t , 0 ) => C10 at 0
i ( 1 ) => C10 at 0
h ( ) ( ) => C10 at 0
( i , f ) ( 1 , s ) => C10 at 0
f ( g ( ) , s ) => C10 at 0
w ( g , t ) => C10 at 0
z ( 0 , cpt ) => C10 at 0
i [ i ] => C11 at 0
a [ p ] => C11 at 0
v [ 1 ] => C11 at 0
pu [ 0 ] => C11 at 0
t [ 1 ] => C11 at 0
a [ t ] => C11 at 0
pi [ 1 ] => C11 at 0
a [ g ( ) ] => C11 at 0
f [ 1 ] => C11 at 0
g ( ) [ 1 ] => C11 at 0
t . zz => C12 at 0
i . m => C12 at 0
g ( ) . m => C12 at 0
xu . m => C12 at 0
pt . m => C12 at 0
h ( ) . a => C12 at 0
( t = r ) . a => C12 at 0
( i ? t : r ) . a => C12 at 0
t -> m => C12 at 0
i -> m => C12 at 0
p -> m => C12 at 0
v -> m => C12 at 0
pu -> m => C12 at 0
pt -> zz => C12 at 0
g ( ) -> m => C12 at 0
f . m => C12 at 0"#;

#[test]
fn refuses_postfix_operators(rt: HostRuntime) -> Result<(), Fail> {
    assert_eq!(rt; first_not_refused(rt.alloc(), POSTFIX)?.as_str(), "");
    Ok(())
}

// Counting, `&`, `*` and signs (6.5.2.4, 6.5.3.1 to 6.5.3.3).
const PREFIX: &str = r#"ci ++ => C13 at 0
st ++ => C13 at 0
a ++ => C13 at 0
v ++ => C13 at 0
pu -- => C13 at 0
5 ++ => C13 at 0
( i + 1 ) ++ => C13 at 0
st . k ++ => C13 at 0
++ ct . m => C13 at 0
f ++ => C13 at 0
g ( ) ++ => C13 at 0
h ( ) . m ++ => C13 at 0
pc ++ => C13 at 0
-- pi => C13 at 0
++ i ++ => C13 at 0
* cp ++ , ( * cp ) ++ => C13 at 4
E6 -- => C13 at 0
& 5 => C14 at 0
& ( i + 1 ) => C14 at 0
& h ( ) . m => C14 at 0
& f => C14 at 0
& g ( ) => C14 at 0
& h ( ) => C14 at 0
& E6 => C14 at 0
& i ++ => C14 at 0
& & i => C14 at 0
& ( i = 1 ) => C14 at 0
& ( i ? i : j ) => C14 at 0
& ( char ) c => C14 at 0
& ( i , j ) => C14 at 0
* i => C15 at 0
* v => C15 at 0
* pu => C15 at 0
* t => C15 at 0
* pi => C15 at 0
* g ( ) => C15 at 0
* f => C15 at 0
& * pi => C15 at 1
- p => C16 at 0
+ a => C16 at 0
~ p => C16 at 0
! t => C16 at 0
- t => C16 at 0
! g ( ) => C16 at 0
~ xu => C16 at 0
- g ( ) => C16 at 0
! f => C16 at 0
+ g ( ) => C16 at 0"#;

#[test]
fn refuses_prefix_operators(rt: HostRuntime) -> Result<(), Fail> {
    assert_eq!(rt; first_not_refused(rt.alloc(), PREFIX)?.as_str(), "");
    Ok(())
}

// `sizeof` and casts (6.5.3.4, 6.5.4).
const CONVERTED: &str = r#"sizeof f => C17 at 0
sizeof g ( ) => C17 at 0
sizeof xa => C17 at 0
sizeof xu => C17 at 0
sizeof ( void ) => C17 at 0
sizeof ( struct U ) => C17 at 0
sizeof ( int [ ] ) => C17 at 0
sizeof ( struct Fresh ) => C17 at 0
sizeof * ( & xu ) => C15 at 1
( struct T ) t => C18 at 0
( int ) t => C18 at 0
( int ) p => C18 at 0
( int * ) i => C18 at 0
( int * ) 1 => C18 at 0
( char * ) p => C18 at 0
( Three ) a => C18 at 0
( int * ) t => C18 at 0
( _Bool ) t => C18 at 0
( struct T * ) ps => C18 at 0
( int ) g ( ) => C18 at 0
( void * ) i => C18 at 0
( int ) f => C18 at 0
( struct U ) xu => C18 at 0
( int ( int ) ) 0 => C18 at 0
( int * ) ( 0 , 0 ) => C18 at 0"#;

#[test]
fn refuses_sizes_and_casts(rt: HostRuntime) -> Result<(), Fail> {
    assert_eq!(rt; first_not_refused(rt.alloc(), CONVERTED)?.as_str(), "");
    Ok(())
}

// Products, sums and shifts (6.5.5 to 6.5.7).
const ARITHMETIC: &str = r#"i * p => C19 at 0
t / i => C19 at 0
i % g ( ) => C19 at 0
a * 2 => C19 at 0
s % 1 => C19 at 0
g ( ) * 1 => C19 at 0
1 % g ( ) => C19 at 0
p + q => C20 at 0
t + 1 => C20 at 0
v + 1 => C20 at 0
1 + pu => C20 at 0
p + t => C20 at 0
pi + 1 => C20 at 0
g ( ) + 1 => C20 at 0
f + 1 => C20 at 0
i - p => C21 at 0
p - s => C21 at 0
v - v => C21 at 0
v - 1 => C21 at 0
pu - pv => C21 at 0
p - t => C21 at 0
pi - pi => C21 at 0
t - r => C21 at 0
p - pa => C21 at 0
1 - g ( ) => C21 at 0
g ( ) - 1 => C21 at 0
f - f => C21 at 0
p - v => C21 at 0
1 << p => C22 at 0
p >> 1 => C22 at 0
t << 1 => C22 at 0
1 << t => C22 at 0
g ( ) << 1 => C22 at 0
1 >> g ( ) => C22 at 0"#;

#[test]
fn refuses_arithmetic(rt: HostRuntime) -> Result<(), Fail> {
    assert_eq!(rt; first_not_refused(rt.alloc(), ARITHMETIC)?.as_str(), "");
    Ok(())
}

// Comparisons, bits, logic and the conditional operator (6.5.8 to 6.5.15).
const COMPARED: &str = r#"p < 0 => C23 at 0
p < s => C23 at 0
i < p => C23 at 0
t < r => C23 at 0
p > v => C23 at 0
g ( ) <= 1 => C23 at 0
p < ( void * ) 0 => C23 at 0
p == i => C24 at 0
t == r => C24 at 0
p != s => C24 at 0
i == p => C24 at 0
g ( ) == g ( ) => C24 at 0
g ( ) != 0 => C24 at 0
p == ( 0 , 0 ) => C24 at 0
p == 1 => C24 at 0
f == f => C24 at 0
pp == cpp => C24 at 0
t != 0 => C24 at 0
i & p => C25 at 0
p ^ 1 => C25 at 0
1 | t => C25 at 0
g ( ) | 1 => C25 at 0
1 ^ g ( ) => C25 at 0
t && i => C26 at 0
i || t => C26 at 0
g ( ) && 1 => C26 at 0
1 || g ( ) => C26 at 0
f && 1 => C26 at 0
t ? 1 : 2 => C27 at 0
g ( ) ? 1 : 2 => C27 at 0
i ? t : st => C27 at 0
i ? p : i => C27 at 0
i ? p : s => C27 at 0
i ? g ( ) : 1 => C27 at 0
i ? 1 : t => C27 at 0
i ? pp : cpp => C27 at 0
i ? p : 1 => C27 at 0
i ? t : 0 => C27 at 0
i ? 1 : g ( ) => C27 at 0
i ? f : f => C27 at 0
f ? 1 : 2 => C27 at 0"#;

#[test]
fn refuses_comparisons_and_choices(rt: HostRuntime) -> Result<(), Fail> {
    assert_eq!(rt; first_not_refused(rt.alloc(), COMPARED)?.as_str(), "");
    Ok(())
}

// Assignments (6.5.16).
const STORED: &str = r#"ci = 1 => C28 at 0
5 = i => C28 at 0
st = st => C28 at 0
* cp = 1 => C28 at 0
ct = t => C28 at 0
ct . m = 1 => C28 at 0
t = st => C28 at 0
p = i => C28 at 0
p = s => C28 at 0
p = cp => C28 at 0
s = "abc" , s = cp => C28 at 4
v = cv => C28 at 0
i = p => C28 at 0
i = t => C28 at 0
a = a => C28 at 0
f = f => C28 at 0
h ( ) = t => C28 at 0
h ( ) . m = 1 => C28 at 0
i = g ( ) => C28 at 0
pp = cpp => C28 at 0
cpp = pp => C28 at 0
pc = p => C28 at 0
d . in [ 0 ] = st => C28 at 0
d = d => C28 at 0
t = 0 => C28 at 0
p = 1 => C28 at 0
xu = xu => C28 at 0
b = t => C28 at 0
( i ? i : j ) = 1 => C28 at 0
( i , j ) = 1 => C28 at 0
i ++ = 1 => C28 at 0
p = pa => C28 at 0
ci += 1 => C29 at 0
5 += 1 => C29 at 0
p += q => C29 at 0
p *= 2 => C29 at 0
i += p => C29 at 0
v += 1 => C29 at 0
t += 1 => C29 at 0
i += t => C29 at 0
a += 1 => C29 at 0
st . k -= 1 => C29 at 0
pu -= 1 => C29 at 0
p -= q => C29 at 0
p <<= 1 => C29 at 0
i <<= p => C29 at 0
pi += 1 => C29 at 0
i |= g ( ) => C29 at 0
p &= 1 => C29 at 0
b += p => C29 at 0"#;

#[test]
fn refuses_stores(rt: HostRuntime) -> Result<(), Fail> {
    assert_eq!(rt; first_not_refused(rt.alloc(), STORED)?.as_str(), "");
    Ok(())
}

// More than one rule is broken: parts come before the whole and from left to right, and of one tree the lowest rule counts.
const SEVERAL: &str = r#"nope + & 5 => C1 at 0
& 5 + nope => C14 at 0
f ( & 5 , nope ) => C14 at 2
- & 5 => C14 at 1
( int ) & 5 => C14 at 3
sizeof ( int [ & 5 ] ) => C14 at 4
( * i ) [ & 5 ] => C15 at 1
i ? & 5 : * i => C14 at 2
t = & 5 => C14 at 2
& 5 = nope => C14 at 0
( & 5 ) . m => C14 at 1
( struct T ) nope => C1 at 4
( enum Zz ) nope => C1 at 1
sizeof ( enum Zz [ nope ] ) => C1 at 2
& 5 ( nope ) => C1 at 3
1 << ( i - p ) => C21 at 3
nope ( & 5 ) => C1 at 0
( p + q ) * ( 1 << p ) => C20 at 1
i = ( nope , & 5 ) => C1 at 3
! ( t + 1 ) => C20 at 2
f ( 1 , p ) ( ) => C10 at 0
( const ) & 5 => C3 at 1
sizeof ( struct { static struct U x ; } ) => C3 at 4
sizeof ( struct { struct U x ; int x ; int x ; } ) => C5 at 6
sizeof ( enum { E5 = i } ) => C7 at 6
sizeof ( enum { X = 2147483647 , X } ) => C2 at 8
sizeof ( int ( * ) ( int a , int a ( void ) ) ) => C2 at 11
sizeof ( long long long [ 0 ] ) => C3 at 2
sizeof ( struct { int x ; void x ; } ) => C5 at 8
sizeof ( struct T { struct U x ; } ) => C5 at 7
sizeof ( enum { i = 4000000000 } ) => C7 at 6
sizeof ( static struct S int ) => C3 at 2
sizeof ( enum En { X = i } ) => C7 at 7
sizeof ( int ( * ( * ) ( int ) ) [ 0 ] ) => C5 at 13"#;

#[test]
fn refuses_the_first_of_several(rt: HostRuntime) -> Result<(), Fail> {
    assert_eq!(rt; first_not_refused(rt.alloc(), SEVERAL)?.as_str(), "");
    Ok(())
}
