//! Typed trees of expressions, as ISO/IEC 9899:2011 says.

use crate::typing::first_other;
use std::process::Abort;
use std::test::Fail;

// Names, constants and literals (6.5.1), parentheses among them.
const LEAVES: &str = r#"i => i:int
ci => ci:const int
a => a:int [ 4 ]
t => t:struct T
E6 => E6:int
f => f:int ( int , char * )
5 => 5:int
'a' => 97:int
0u => 0:unsigned int
4000000000 => 4000000000:long
"abc" => "abc":char [ 4 ]
( i ) => i:int
( ( a ) ) => a:int [ 4 ]"#;

#[test]
fn types_leaves(rt: HostRuntime) -> Result<(), Fail> {
    assert_eq!(rt; first_other(rt.alloc(), LEAVES, false)?.as_str(), "");
    Ok(())
}

// Signs, products and sums (6.5.3.3, 6.5.5, 6.5.6), with the conversions of 6.3.1.
const SUMS: &str = r#"- c => (Minus:int (Convert:int (Read:char c:char)))
+ b => (Plus:int (Convert:int (Read:_Bool b:_Bool)))
~ uc => (Complement:int (Convert:int (Read:unsigned char uc:unsigned char)))
~ ul => (Complement:unsigned long (Read:unsigned long ul:unsigned long))
! p => (Not:int (Read:int * p:int *))
! a => (Not:int (Decay:int * a:int [ 4 ]))
! ! c => (Not:int (Not:int (Read:char c:char)))
- E5 => (Minus:int E5:int)
'a' + 1u => (Add:unsigned int (Convert:unsigned int 97:int) 1:unsigned int)
c + c => (Add:int (Convert:int (Read:char c:char)) (Convert:int (Read:char c:char)))
us + sh => (Add:int (Convert:int (Read:unsigned short us:unsigned short)) (Convert:int (Read:short sh:short)))
i + u => (Add:unsigned int (Convert:unsigned int (Read:int i:int)) (Read:unsigned int u:unsigned int))
l + u => (Add:long (Read:long l:long) (Convert:long (Read:unsigned int u:unsigned int)))
ul - ll => (Sub:unsigned long long (Convert:unsigned long long (Read:unsigned long ul:unsigned long)) (Convert:unsigned long long (Read:long long ll:long long)))
b / b => (Div:int (Convert:int (Read:_Bool b:_Bool)) (Convert:int (Read:_Bool b:_Bool)))
uc % 3 => (Rem:int (Convert:int (Read:unsigned char uc:unsigned char)) 3:int)
p + i => (Add:int * (Read:int * p:int *) (Read:int i:int))
c + p => (Add:int * (Read:char c:char) (Read:int * p:int *))
a + 1 => (Add:int * (Decay:int * a:int [ 4 ]) 1:int)
p - us => (Sub:int * (Read:int * p:int *) (Read:unsigned short us:unsigned short))
p - q => (Sub:long (Read:int * p:int *) (Read:int * q:int *))
cp - p => (Sub:long (Read:const int * cp:const int *) (Read:int * p:int *))
ca - p => (Sub:long (Decay:const int * ca:const int [ 2 ]) (Read:int * p:int *))
aa - 1 => (Sub:int ( * ) [ 3 ] (Decay:int ( * ) [ 3 ] aa:int [ 2 ] [ 3 ]) 1:int)"#;

#[test]
fn types_sums(rt: HostRuntime) -> Result<(), Fail> {
    assert_eq!(rt; first_other(rt.alloc(), SUMS, false)?.as_str(), "");
    Ok(())
}

// Shifts and comparisons (6.5.7 to 6.5.9).
const COMPARISONS: &str = r#"c << l => (Shl:int (Convert:int (Read:char c:char)) (Read:long l:long))
ul >> 1 => (Shr:unsigned long (Read:unsigned long ul:unsigned long) 1:int)
- 1 < 1u => (Less:int (Convert:unsigned int (Minus:int 1:int)) 1:unsigned int)
p < cp => (Less:int (Read:int * p:int *) (Read:const int * cp:const int *))
v <= cv => (LessEq:int (Read:void * v:void *) (Read:const void * cv:const void *))
pu >= pv => (GreaterEq:int (Read:struct U * pu:struct U *) (Read:struct U * pv:struct U *))
i > c => (Greater:int (Read:int i:int) (Convert:int (Read:char c:char)))
a < p => (Less:int (Decay:int * a:int [ 4 ]) (Read:int * p:int *))
p == 0 => (Equal:int (Read:int * p:int *) (Convert:int * 0:int))
0 != p => (NotEqual:int (Convert:int * 0:int) (Read:int * p:int *))
p == v => (Equal:int (Convert:void * (Read:int * p:int *)) (Read:void * v:void *))
v == cp => (Equal:int (Read:void * v:void *) (Convert:void * (Read:const int * cp:const int *)))
p == ( void * ) 0 => (Equal:int (Read:int * p:int *) (Convert:int * (Convert:void * 0:int)))
pa == pi => (Equal:int (Read:int ( * ) [ 4 ] pa:int ( * ) [ 4 ]) (Read:int ( * ) [ ] pi:int ( * ) [ ]))
i == l => (Equal:int (Convert:long (Read:int i:int)) (Read:long l:long))
pt == E5 - 5 => (Equal:int (Read:struct T * pt:struct T *) (Convert:struct T * (Sub:int E5:int 5:int)))
pu != 0l => (NotEqual:int (Read:struct U * pu:struct U *) (Convert:struct U * 0:long))"#;

#[test]
fn types_comparisons(rt: HostRuntime) -> Result<(), Fail> {
    assert_eq!(rt; first_other(rt.alloc(), COMPARISONS, false)?.as_str(), "");
    Ok(())
}

// Bits, logic, the conditional operator and commas (6.5.10 to 6.5.15, 6.5.17).
const CHOICES: &str =
    r#"i & uc => (And:int (Read:int i:int) (Convert:int (Read:unsigned char uc:unsigned char)))
u ^ 1 => (Xor:unsigned int (Read:unsigned int u:unsigned int) (Convert:unsigned int 1:int))
b | b => (Or:int (Convert:int (Read:_Bool b:_Bool)) (Convert:int (Read:_Bool b:_Bool)))
i && p => (Both:int (Read:int i:int) (Read:int * p:int *))
a || c => (Either:int (Decay:int * a:int [ 4 ]) (Read:char c:char))
i ? 1 : 2l => (Choose:long (Read:int i:int) (Convert:long 1:int) 2:long)
i ? c : b => (Choose:int (Read:int i:int) (Convert:int (Read:char c:char)) (Convert:int (Read:_Bool b:_Bool)))
p ? p : 0 => (Choose:int * (Read:int * p:int *) (Read:int * p:int *) (Convert:int * 0:int))
i ? 0 : p => (Choose:int * (Read:int i:int) (Convert:int * 0:int) (Read:int * p:int *))
i ? p : cp => (Choose:const int * (Read:int i:int) (Convert:const int * (Read:int * p:int *)) (Read:const int * cp:const int *))
i ? v : cp => (Choose:const void * (Read:int i:int) (Convert:const void * (Read:void * v:void *)) (Convert:const void * (Read:const int * cp:const int *)))
i ? ( void * ) 0 : p => (Choose:int * (Read:int i:int) (Convert:int * (Convert:void * 0:int)) (Read:int * p:int *))
i ? ( const int * ) 0 : v => (Choose:const void * (Read:int i:int) (Convert:const void * (Convert:const int * 0:int)) (Convert:const void * (Read:void * v:void *)))
i ? t : r => (Choose:struct T (Read:int i:int) (Read:struct T t:struct T) (Read:struct T r:struct T))
i ? g ( ) : ( void ) 0 => (Choose:void (Read:int i:int) (Call:void g:void ( void )) (Convert:void 0:int))
i ? pa : pi => (Choose:int ( * ) [ 4 ] (Read:int i:int) (Read:int ( * ) [ 4 ] pa:int ( * ) [ 4 ]) (Convert:int ( * ) [ 4 ] (Read:int ( * ) [ ] pi:int ( * ) [ ])))
i ? a : q => (Choose:int * (Read:int i:int) (Decay:int * a:int [ 4 ]) (Read:int * q:int *))
i ? pc : p => (Choose:int * (Read:int i:int) (Read:int * pc:int * const) (Read:int * p:int *))
i ? i ? 1u : 2 : 3l => (Choose:long (Read:int i:int) (Convert:long (Choose:unsigned int (Read:int i:int) 1:unsigned int (Convert:unsigned int 2:int))) 3:long)
i ? cp : 1 - 1 => (Choose:const int * (Read:int i:int) (Read:const int * cp:const int *) (Convert:const int * (Sub:int 1:int 1:int)))
i , p => (Comma:int * (Read:int i:int) (Read:int * p:int *))
i , a , t => (Comma:struct T (Comma:int * (Read:int i:int) (Decay:int * a:int [ 4 ])) (Read:struct T t:struct T))
g ( ) , 1 => (Comma:int (Call:void g:void ( void )) 1:int)
i ? 1 , 2 : 3 => (Choose:int (Read:int i:int) (Comma:int 1:int 2:int) 3:int)"#;

#[test]
fn types_choices(rt: HostRuntime) -> Result<(), Fail> {
    assert_eq!(rt; first_other(rt.alloc(), CHOICES, false)?.as_str(), "");
    Ok(())
}

// Assignments (6.5.16).
const STORES: &str = r#"i = c => (Store:int i:int (Convert:int (Read:char c:char)))
c = l => (Store:char c:char (Convert:char (Read:long l:long)))
b = p => (Store:_Bool b:_Bool (Convert:_Bool (Read:int * p:int *)))
p = 0 => (Store:int * p:int * (Convert:int * 0:int))
p = v => (Store:int * p:int * (Convert:int * (Read:void * v:void *)))
v = p => (Store:void * v:void * (Convert:void * (Read:int * p:int *)))
cp = p => (Store:const int * cp:const int * (Convert:const int * (Read:int * p:int *)))
p = ( void * ) 0 => (Store:int * p:int * (Convert:int * (Convert:void * 0:int)))
t = r => (Store:struct T t:struct T (Read:struct T r:struct T))
t = ct => (Store:struct T t:struct T (Read:struct T ct:const struct T))
n . in = * pt => (Store:struct T (Member 0:struct T n:struct N) (Read:struct T (Follow:struct T (Read:struct T * pt:struct T *))))
* p = 1 => (Store:int (Follow:int (Read:int * p:int *)) 1:int)
i = j = c => (Store:int i:int (Store:int j:int (Convert:int (Read:char c:char))))
pa = pi => (Store:int ( * ) [ 4 ] pa:int ( * ) [ 4 ] (Convert:int ( * ) [ 4 ] (Read:int ( * ) [ ] pi:int ( * ) [ ])))
e = 1 => (Store:int e:int 1:int)
i += 1 => (Update Add in int:int i:int 1:int)
c += l => (Update Add in long:char c:char (Read:long l:long))
c *= 2u => (Update Mul in unsigned int:char c:char 2:unsigned int)
p += c => (Update Add in int *:int * p:int * (Read:char c:char))
p -= 2l => (Update Sub in int *:int * p:int * 2:long)
c <<= l => (Update Shl in int:char c:char (Read:long l:long))
u >>= 1 => (Update Shr in unsigned int:unsigned int u:unsigned int 1:int)
b |= 2 => (Update Or in int:_Bool b:_Bool 2:int)
uc %= sc => (Update Rem in int:unsigned char uc:unsigned char (Convert:int (Read:signed char sc:signed char)))
ull ^= - 1 => (Update Xor in unsigned long long:unsigned long long ull:unsigned long long (Convert:unsigned long long (Minus:int 1:int)))
* pp += 1 => (Update Add in int *:int * (Follow:int * (Read:int * * pp:int * *)) 1:int)"#;

#[test]
fn types_stores(rt: HostRuntime) -> Result<(), Fail> {
    assert_eq!(rt; first_other(rt.alloc(), STORES, false)?.as_str(), "");
    Ok(())
}

// Counting, `&`, `*` and subscripts (6.5.2.1, 6.5.2.4, 6.5.3.1, 6.5.3.2).
const OBJECTS: &str = r#"i ++ => (_++:int i:int)
-- c => (--_:char c:char)
p ++ => (_++:int * p:int *)
++ * p => (++_:int (Follow:int (Read:int * p:int *)))
t . m ++ => (_++:int (Member 0:int t:struct T))
pt -- -> m => (Member 0:int (Follow:struct T (_--:struct T * pt:struct T *)))
* p ++ => (Follow:int (_++:int * p:int *))
& i => (Address:int * i:int)
& a => (Address:int ( * ) [ 4 ] a:int [ 4 ])
& a [ 1 ] => (Address:int * (Follow:int (Add:int * (Decay:int * a:int [ 4 ]) 1:int)))
& t . m => (Address:int * (Member 0:int t:struct T))
& "abc" => (Address:char ( * ) [ 4 ] "abc":char [ 4 ])
& * p => (Address:int * (Follow:int (Read:int * p:int *)))
& ct . a => (Address:const int ( * ) [ 2 ] (Member 1:const int [ 2 ] ct:const struct T))
& ci => (Address:const int * ci:const int)
& xu => (Address:struct U * xu:struct U)
* p => (Follow:int (Read:int * p:int *))
* a => (Follow:int (Decay:int * a:int [ 4 ]))
* aa => (Follow:int [ 3 ] (Decay:int ( * ) [ 3 ] aa:int [ 2 ] [ 3 ]))
* & i => (Follow:int (Address:int * i:int))
a [ 1 ] => (Follow:int (Add:int * (Decay:int * a:int [ 4 ]) 1:int))
1 [ a ] => (Follow:int (Add:int * 1:int (Decay:int * a:int [ 4 ])))
aa [ 1 ] [ 2 ] => (Follow:int (Add:int * (Decay:int * (Follow:int [ 3 ] (Add:int ( * ) [ 3 ] (Decay:int ( * ) [ 3 ] aa:int [ 2 ] [ 3 ]) 1:int))) 2:int))
s [ 0 ] == 'a' => (Equal:int (Convert:int (Read:char (Follow:char (Add:char * (Read:char * s:char *) 0:int)))) 97:int)
xa [ i ] => (Follow:int (Add:int * (Decay:int * xa:int [ ]) (Read:int i:int)))
pt [ 1 ] . m => (Member 0:int (Follow:struct T (Add:struct T * (Read:struct T * pt:struct T *) 1:int)))"#;

#[test]
fn types_objects(rt: HostRuntime) -> Result<(), Fail> {
    assert_eq!(rt; first_other(rt.alloc(), OBJECTS, false)?.as_str(), "");
    Ok(())
}

// Members and calls (6.5.2.2, 6.5.2.3).
const CALLS: &str = r#"t . m => (Member 0:int t:struct T)
st . k => (Member 1:const int st:struct S)
ct . m => (Member 0:const int ct:const struct T)
ct . a [ 0 ] => (Follow:const int (Add:const int * (Decay:const int * (Member 1:const int [ 2 ] ct:const struct T)) 0:int))
n . in . a [ 1 ] => (Follow:int (Add:int * (Decay:int * (Member 1:int [ 2 ] (Member 0:struct T n:struct N))) 1:int))
pt -> m => (Member 0:int (Follow:struct T (Read:struct T * pt:struct T *)))
cpt -> next -> m => (Member 0:int (Follow:struct T (Read:struct T * (Member 2:struct T * const (Follow:const struct T (Read:const struct T * cpt:const struct T *))))))
cpt -> a => (Member 1:const int [ 2 ] (Follow:const struct T (Read:const struct T * cpt:const struct T *)))
h ( ) . m => (Member 0:int (Call:struct T h:struct T ( void )))
( t = r ) . m => (Member 0:int (Store:struct T t:struct T (Read:struct T r:struct T)))
( & t ) -> m => (Member 0:int (Follow:struct T (Address:struct T * t:struct T)))
d . in [ 1 ] . k => (Member 1:const int (Follow:struct S (Add:struct S * (Decay:struct S * (Member 0:struct S [ 2 ] d:struct D)) 1:int)))
f ( 1 , s ) => (Call:int f:int ( int , char * ) 1:int (Read:char * s:char *))
f ( c , 0 ) => (Call:int f:int ( int , char * ) (Convert:int (Read:char c:char)) (Convert:char * 0:int))
( f ) ( 1 , "abc" ) => (Call:int f:int ( int , char * ) 1:int (Decay:char * "abc":char [ 4 ]))
g ( ) => (Call:void g:void ( void ))
k ( ci ) => (Call:int k:const int ( const int ) (Read:int ci:const int))
w ( p , t ) => (Call:int * w:int * ( const void * , struct T ) (Convert:const void * (Read:int * p:int *)) (Read:struct T t:struct T))
w ( 0 , h ( ) ) => (Call:int * w:int * ( const void * , struct T ) (Convert:const void * 0:int) (Call:struct T h:struct T ( void )))
z ( p , 0 ) => (Call:int z:int ( _Bool , struct T * ) (Convert:_Bool (Read:int * p:int *)) (Convert:struct T * 0:int))
f ( f ( i , 0 ) , s ) => (Call:int f:int ( int , char * ) (Call:int f:int ( int , char * ) (Read:int i:int) (Convert:char * 0:int)) (Read:char * s:char *))
k ( l ) => (Call:int k:const int ( const int ) (Convert:int (Read:long l:long)))"#;

#[test]
fn types_calls(rt: HostRuntime) -> Result<(), Fail> {
    assert_eq!(rt; first_other(rt.alloc(), CALLS, false)?.as_str(), "");
    Ok(())
}

// `sizeof` (6.5.3.4), with the lengths and enumerators of type names.
const SIZES: &str = r#"sizeof i => (Sizeof:unsigned long i:int)
sizeof a => (Sizeof:unsigned long a:int [ 4 ])
sizeof "abc" => (Sizeof:unsigned long "abc":char [ 4 ])
sizeof ( int ) => (Sizeof int:unsigned long)
sizeof ( Three ) => (Sizeof int [ 3 ]:unsigned long)
sizeof ( struct S ) => (Sizeof struct S:unsigned long)
sizeof t . a => (Sizeof:unsigned long (Member 1:int [ 2 ] t:struct T))
sizeof sizeof i => (Sizeof:unsigned long (Sizeof:unsigned long i:int))
sizeof f ( 1 , s ) => (Sizeof:unsigned long (Call:int f:int ( int , char * ) 1:int (Read:char * s:char *)))
sizeof ( int ) * 2 => (Mul:unsigned long (Sizeof int:unsigned long) (Convert:unsigned long 2:int))
sizeof ( int [ 3 ] ) => (Sizeof int [ 3 ]:unsigned long 3:int)
sizeof ( int [ E5 - 2 ] ) => (Sizeof int [ 3 ]:unsigned long (Sub:int E5:int 2:int))
sizeof ( int ( * ) [ 3 ] ) => (Sizeof int ( * ) [ 3 ]:unsigned long 3:int)
sizeof ( int * [ 3 ] ) => (Sizeof int * [ 3 ]:unsigned long 3:int)
sizeof ( enum En ) => (Sizeof int:unsigned long)
sizeof ( enum { X1 , Y1 = 3 , Z1 } ) + Z1 => (Add:unsigned long (Sizeof int:unsigned long 3:int) (Convert:unsigned long Z1:int))
sizeof ( struct V { int q ; } ) + sizeof ( struct V ) => (Add:unsigned long (Sizeof ?:unsigned long) (Sizeof ?:unsigned long))
sizeof ( int [ sizeof ( int [ 2 ] ) ] [ 3 ] ) => (Sizeof int [ 8 ] [ 3 ]:unsigned long (Sizeof int [ 2 ]:unsigned long 2:int) 3:int)
sizeof - c => (Sizeof:unsigned long (Minus:int (Convert:int (Read:char c:char))))"#;

#[test]
fn types_sizes(rt: HostRuntime) -> Result<(), Fail> {
    assert_eq!(rt; first_other(rt.alloc(), SIZES, false)?.as_str(), "");
    Ok(())
}

// Casts (6.5.4).
const CASTS: &str = r#"( char ) i => (Convert:char (Read:int i:int))
( Int ) c => (Convert:int (Read:char c:char))
( void ) i => (Convert:void (Read:int i:int))
( void ) g ( ) => (Convert:void (Call:void g:void ( void )))
( _Bool ) p => (Convert:_Bool (Read:int * p:int *))
( void * ) p => (Convert:void * (Read:int * p:int *))
( int * ) 0 => (Convert:int * 0:int)
( int * ) v => (Convert:int * (Read:void * v:void *))
( int * ) cp => (Convert:int * (Read:const int * cp:const int *))
( const int * ) p => (Convert:const int * (Read:int * p:int *))
( int ( * ) [ 4 ] ) pi => (Convert:int ( * ) [ 4 ] (Read:int ( * ) [ ] pi:int ( * ) [ ]) 4:int)
( Fixed ) l => (Convert:int (Read:long l:long))
( char * ) ( void * ) p => (Convert:char * (Convert:void * (Read:int * p:int *)))
( long ) ( char ) i => (Convert:long (Convert:char (Read:int i:int)))
( enum En ) 1 => (Convert:int 1:int)
( void * ) 0l => (Convert:void * 0:long)
( char * ) 0 == s => (Equal:int (Convert:char * 0:int) (Read:char * s:char *))
( int ( * ) [ sizeof ( int [ 4 ] ) - 12 ] ) v => (Convert:int ( * ) [ 4 ] (Read:void * v:void *) (Sub:unsigned long (Sizeof int [ 4 ]:unsigned long 4:int) (Convert:unsigned long 12:int)))
( enum { X2 = 3 } ) X2 => (Convert:int X2:int 3:int)"#;

#[test]
fn types_casts(rt: HostRuntime) -> Result<(), Fail> {
    assert_eq!(rt; first_other(rt.alloc(), CASTS, false)?.as_str(), "");
    Ok(())
}
