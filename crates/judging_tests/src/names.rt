//! What the names of worked units mean: behind an arrow a row has each identifier and each tag, which stands behind `#`, with the number
//! of its entry, in the order of the tokens.

ghost use Rattle.dm_tree.specs.TypeNumbers.{IsTypedUnit};

use crate::projects::project_of;
use dm_names::{Identifier, Names};
use dm_reading::Reading;
use std::alloc::Global;
use std::fmt::Write;
use std::process::Abort;
use std::test::Fail;
use tree_words::words::put_text;

const ROWS: &str = r#"a.c
typedef int T; T f(T T) { { T = 1; } return T; } T x;
=>
T:0 T:0 f:2 T:0 T:1 T:1 T:1 T:0 x:3

a.c
typedef int T; int f(void) { T a = 1; int T = 2; { enum { T = 3 }; a = T; } return a + T; } T b;
=>
T:0 f:1 T:0 a:2 T:3 T:4 a:2 T:4 a:2 T:3 T:0 b:5

a.c
struct S { int S; } S; int f(struct S *p) { struct S { char S; } q; q.S = 1; return p->S + S.S + sizeof(struct S); }
=>
#S:0 S:1 f:3 #S:0 p:2 #S:4 q:5 q:5 p:2 S:1 #S:4

a.c
struct S *p; void f(void) { struct S; struct S *q; { struct S { int a; }; q = 0; } q = 0; } struct S { int b; }; struct S s;
=>
#S:0 p:1 f:2 #S:3 #S:3 q:4 #S:5 q:4 q:4 #S:0 #S:0 s:6

a.c
enum { A, B = A }; int f(void) { enum { A = B + 1, C = A }; for (enum { C = 4 } i = C; i < A; i++) { enum { B = C }; i = B; } return A + B + C; } int a[B + 1];
=>
A:0 B:1 A:0 f:2 A:3 B:1 C:4 A:3 C:5 i:6 C:5 i:6 A:3 i:6 B:7 C:5 i:6 B:7 A:3 B:1 C:4 a:8 B:1

a.c
int f(struct V { int a; } *v, int n[sizeof(struct V)]); enum E { K } g(enum E { L } e, int a[L + 1]); int h = K + sizeof(enum E);
=>
f:3 #V:0 v:1 n:2 #V:0 #E:4 K:5 g:10 #E:6 L:7 e:8 a:9 L:7 h:11 K:5 #E:4

a.c
int x = sizeof(struct W { int a; }) + sizeof(enum { P = 2 }); int y = P + sizeof(struct W); int f(int x) { x = sizeof(enum { P = 4 }) + P; return P + x; }
=>
x:0 #W:1 P:2 y:3 P:2 #W:1 f:5 x:4 x:4 P:6 P:6 P:6 x:4"#;

/// Puts an identifier or a tag that is a token.
fn put_identifier(out: &mut String, reading: &Reading, one: Identifier) -> Result<(), Fail> {
    let Some(token) = reading.tokens.items().get(one.at as usize) else {
        return Err("a name is no token".into());
    };
    let Some(number) = one.number else {
        return Err("a name has no entry".into());
    };
    if !out.is_empty() {
        out.push_str(" ")?;
    }
    if one.tag {
        out.push_str("#")?;
    }
    put_text(out, &token.spelling)?;
    write!(out, ":{number}")?;
    Ok(())
}

/// What each token of a unit that is an identifier or a tag means.
fn meanings(alloc: Global, reading: &Reading) -> Result<String, Fail>
    requires { IsTypedUnit reading.now.types reading.now.core }
{
    let tokens = reading.tokens.items();
    let syntax = reading.syntax.items();
    let names = Names::of(alloc, tokens, syntax, &reading.core, &reading.types)?;
    let mut out = String::new(alloc);
    for at in 0..u32::try_from(tokens.len()).unwrap_or(u32::MAX) {
        if let Some(one) = names.meaning(at) {
            put_identifier(&mut out, reading, one)?;
        }
    }
    Ok(out)
}

/// What the names of a row's first unit mean.
fn meanings_of(alloc: Global, row: &str) -> Result<String, Fail> {
    let project = project_of(alloc, row)?;
    match project.readings.as_slice().first() {
        Some(reading) => meanings(alloc, reading),
        None => Err("no unit".into()),
    }
}

#[test]
fn names_mean_what_is_declared_last(rt: HostRuntime) -> Result<(), Fail> {
    for row in ROWS.split("\n\n") {
        let Some((files, wanted)) = row.split_once("\n=>\n") else {
            panic!(rt; "no arrow in {row}");
        };
        assert!(rt; meanings_of(rt.alloc(), files)?.as_str() == wanted, "{row}");
    }
    Ok(())
}
