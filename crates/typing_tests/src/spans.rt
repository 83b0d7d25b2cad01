//! The tokens of each node, those with all parentheses round it, and its place.

use crate::typing::first_other;
use std::process::Abort;
use std::test::Fail;

// Behind each type: the first token and that behind the last, the same with the parentheses, and the column.
const SPANS: &str = r#"i => i:int@0-1/0-1@0
( i ) => i:int@1-2/0-3@1
( ( i ) ) => i:int@2-3/0-5@2
( i ) + ( ( c ) ) => (Add:int@0-9/0-9@0 (Read:int@1-2/0-3@1 i:int@1-2/0-3@1) (Convert:int@6-7/4-9@6 (Read:char@6-7/4-9@6 c:char@6-7/4-9@6)))
i + j * c => (Add:int@0-5/0-5@0 (Read:int@0-1/0-1@0 i:int@0-1/0-1@0) (Mul:int@2-5/2-5@2 (Read:int@2-3/2-3@2 j:int@2-3/2-3@2) (Convert:int@4-5/4-5@4 (Read:char@4-5/4-5@4 c:char@4-5/4-5@4))))
( i + j ) * 2 => (Mul:int@0-7/0-7@0 (Add:int@1-4/0-5@1 (Read:int@1-2/1-2@1 i:int@1-2/1-2@1) (Read:int@3-4/3-4@3 j:int@3-4/3-4@3)) 2:int@6-7/6-7@6)
a [ 1 ] => (Follow:int@0-4/0-4@0 (Add:int *@0-4/0-4@0 (Decay:int *@0-1/0-1@0 a:int [ 4 ]@0-1/0-1@0) 1:int@2-3/2-3@2))
( a ) [ ( 1 ) ] => (Follow:int@0-8/0-8@0 (Add:int *@0-8/0-8@0 (Decay:int *@1-2/0-3@1 a:int [ 4 ]@1-2/0-3@1) 1:int@5-6/4-7@5))
( pt ) -> m => (Member 0:int@0-5/0-5@0 (Follow:struct T@0-5/0-5@0 (Read:struct T *@1-2/0-3@1 pt:struct T *@1-2/0-3@1)))
pt -> next -> a [ 1 ] => (Follow:int@0-8/0-8@0 (Add:int *@0-8/0-8@0 (Decay:int *@0-5/0-5@0 (Member 1:int [ 2 ]@0-5/0-5@0 (Follow:struct T@0-5/0-5@0 (Read:struct T *@0-3/0-3@0 (Member 2:struct T *@0-3/0-3@0 (Follow:struct T@0-3/0-3@0 (Read:struct T *@0-1/0-1@0 pt:struct T *@0-1/0-1@0))))))) 1:int@6-7/6-7@6))
( t ) . m => (Member 0:int@0-5/0-5@0 t:struct T@1-2/0-3@1)
- ( c ) => (Minus:int@0-4/0-4@0 (Convert:int@2-3/1-4@2 (Read:char@2-3/1-4@2 c:char@2-3/1-4@2)))
( - c ) => (Minus:int@1-3/0-4@1 (Convert:int@2-3/2-3@2 (Read:char@2-3/2-3@2 c:char@2-3/2-3@2)))
& ( i ) => (Address:int *@0-4/0-4@0 i:int@2-3/1-4@2)
* ( a + 1 ) => (Follow:int@0-6/0-6@0 (Add:int *@2-5/1-6@2 (Decay:int *@2-3/2-3@2 a:int [ 4 ]@2-3/2-3@2) 1:int@4-5/4-5@4))
( i ) ++ => (_++:int@0-4/0-4@0 i:int@1-2/0-3@1)
++ ( i ) => (++_:int@0-4/0-4@0 i:int@2-3/1-4@2)
( f ) ( ( c ) , 0 ) => (Call:int@0-10/0-10@0 f:int ( int , char * )@1-2/0-3@1 (Convert:int@5-6/4-7@5 (Read:char@5-6/4-7@5 c:char@5-6/4-7@5)) (Convert:char *@8-9/8-9@8 0:int@8-9/8-9@8))
( c = ( i ) ) => (Store:char@1-6/0-7@1 c:char@1-2/1-2@1 (Convert:char@4-5/3-6@4 (Read:int@4-5/3-6@4 i:int@4-5/3-6@4)))
( i , ( c ) ) , l => (Comma:long@0-9/0-9@0 (Comma:char@1-6/0-7@1 (Read:int@1-2/1-2@1 i:int@1-2/1-2@1) (Read:char@4-5/3-6@4 c:char@4-5/3-6@4)) (Read:long@8-9/8-9@8 l:long@8-9/8-9@8))
i , c , l => (Comma:long@0-5/0-5@0 (Comma:char@0-5/0-5@0 (Read:int@0-1/0-1@0 i:int@0-1/0-1@0) (Read:char@2-3/2-3@2 c:char@2-3/2-3@2)) (Read:long@4-5/4-5@4 l:long@4-5/4-5@4))
( i ? p : ( 0 ) ) => (Choose:int *@1-8/0-9@1 (Read:int@1-2/1-2@1 i:int@1-2/1-2@1) (Read:int *@3-4/3-4@3 p:int *@3-4/3-4@3) (Convert:int *@6-7/5-8@6 0:int@6-7/5-8@6))
( ( char ) ( i ) ) => (Convert:char@1-7/0-8@1 (Read:int@5-6/4-7@5 i:int@5-6/4-7@5))
sizeof ( i ) => (Sizeof:unsigned long@0-4/0-4@0 i:int@2-3/1-4@2)
( sizeof ( int [ ( 3 ) ] ) ) => (Sizeof int [ 3 ]:unsigned long@1-10/0-11@1 3:int@6-7/5-8@6)
( enum { X = ( 1 + 2 ) } ) ( X ) => (Convert:int@0-15/0-15@0 X:int@13-14/12-15@13 (Add:int@6-9/5-10@6 1:int@6-7/6-7@6 2:int@8-9/8-9@8))
( p ) += ( c ) => (Update Add in int *:int *@0-7/0-7@0 p:int *@1-2/0-3@1 (Read:char@5-6/4-7@5 c:char@5-6/4-7@5))
( i && ( p ) ) => (Both:int@1-6/0-7@1 (Read:int@1-2/1-2@1 i:int@1-2/1-2@1) (Read:int *@4-5/3-6@4 p:int *@4-5/3-6@4))
( ( pt -> m ) ) => (Member 0:int@2-5/0-7@2 (Follow:struct T@2-5/0-7@2 (Read:struct T *@2-3/2-3@2 pt:struct T *@2-3/2-3@2)))
( "abc" ) [ 1 ] => (Follow:char@0-6/0-6@0 (Add:char *@0-6/0-6@0 (Decay:char *@1-2/0-3@1 "abc":char [ 4 ]@1-2/0-3@1) 1:int@4-5/4-5@4))
( ( void * ) 0 ) == p => (Equal:int@0-9/0-9@0 (Convert:int *@1-6/0-7@1 (Convert:void *@1-6/0-7@1 0:int@5-6/5-6@5)) (Read:int *@8-9/8-9@8 p:int *@8-9/8-9@8))"#;

#[test]
fn keeps_spans(rt: HostRuntime) -> Result<(), Fail> {
    assert_eq!(rt; first_other(rt.alloc(), SPANS, true)?.as_str(), "");
    Ok(())
}
