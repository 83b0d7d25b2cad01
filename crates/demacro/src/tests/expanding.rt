//! Calls of `expand` on small projects.

use super::cases::check;
use std::test::Fail;

const LISTED: &str = r#"@@ a.c
$ expand a.c a.c
%%
@@ a.c
#define f(a) a*g
#define g(a) f(a)
f(2)(9)
$ expand a.c a.c
2 * 9 * g
%%
@@ a.c
#define SQ(x) ((x)*(x))
#define STR(x) #x
#define XSTR(x) STR(x)
const char *s = XSTR(SQ(3));
$ expand a.c a.c
const char * s = "((3)*(3))" ;
%%
@@ a.c
#if 0
don't
#else
int a;
#endif
$ expand a.c a.c
int a ;
%%
@@ a.c
#define P x y
P
z P
$ expand a.c a.c
x y
z x y
%%
@@ a.c
#define F(a) a b
F(1
)
c
$ expand a.c a.c
1 b
c
%%
@@ a.c

__LINE__ __FILE__
__STDC__
$ expand a.c a.c
2 "a.c"
1
%%
@@ m.json
{"units":[{"file":"a.c"},{"file":"b.c"}]}
@@ h.h
#define TWICE(x) ((x)+(x))
@@ a.c
#include "h.h"
int f(int k) { return TWICE(k); }
@@ b.c
int b;
$ expand m.json a.c
int f ( int k ) { return ( ( k ) + ( k ) ) ; }
$ expand m.json b.c
int b ;
%%
@@ m.json
{"units":[{"file":"s/a.c","include":["inc"],"define":["N=3","D"]}]}
@@ inc/h.h
#pragma once
int D = N;
@@ s/a.c
#include <h.h>
#include <h.h>
end
$ expand m.json s/a.c
int 1 = 3 ;
end
"#;

#[test]
fn lists_the_tokens_of_a_unit(rt: HostRuntime) -> Result<(), Fail> {
    check(&rt, LISTED)
}

const REFUSED: &str = r#"@@ a.c
int a; /* x
$ expand a.c a.c => 3
a.c:1:8: refusal 2 Comment
%%
@@ a.c
#foo
$ expand a.c a.c => 3
a.c:1:1: refusal 4 Directive
%%
@@ a.c
#define F(a,a) a
$ expand a.c a.c => 3
a.c:1:1: refusal 5 Form
%%
@@ a.c
#endif
$ expand a.c a.c => 3
a.c:1:1: refusal 6 Conditionals
%%
@@ a.c

#include "h.h"
$ expand a.c a.c => 3
a.c:2:1: refusal 7 NotFound
%%
@@ a.c
a\
$ expand a.c a.c => 3
a.c:1:2: refusal 8 Splice
%%
@@ a.c
#define F(x) x
int a = F(1
$ expand a.c a.c => 3
a.c:2:9: refusal 9 Arguments
%%
@@ a.c
#define P(a,b) a##b
P(+,x)
$ expand a.c a.c => 3
a.c:2:1: refusal 10 Paste
%%
@@ a.c
#define G(a) #b
$ expand a.c a.c => 3
a.c:1:14: refusal 11 HashOperand
%%
@@ a.c
#define N 1
#define N 2
$ expand a.c a.c => 3
a.c:2:9: refusal 12 Redefinition
%%
@@ a.c
#if 1/0
#endif
$ expand a.c a.c => 3
a.c:1:1: refusal 13 Condition
%%
@@ a.c
#error no
$ expand a.c a.c => 3
a.c:1:1: refusal 14 Error
%%
@@ a.c
#line 3
$ expand a.c a.c => 3
a.c:1:1: refusal 18 OutOfSubset
%%
@@ a.c
#include "h.h"
@@ h.h

#if 1
$ expand a.c a.c => 3
h.h:2:1: refusal 6 Conditionals
$ expand b.c b.c => 3
b.c:1:1: refusal 7 NotFound
%%
@@ a.c
#include "a.c"
$ expand a.c a.c => 4
limit L4 a.c
"#;

const FAULTY: &str = r#"@@ m.json
{"units":[
$ expand m.json a.c => 2
manifest M2 m.json
%%
@@ m.json
{"units":[{"file":"a.c","x":1}]}
$ expand m.json a.c => 2
manifest M3 units/0/x
%%
@@ m.json
[]
$ expand m.json a.c => 2
manifest M3 /
%%
@@ m.json
{"units":[{"file":"../a.c"}]}
$ expand m.json a.c => 2
manifest M4 units/0/file
%%
@@ m.json
{"units":[{"file":"a.c","define":["1N"]}]}
$ expand m.json a.c => 2
manifest M5 units/0/define/0
%%
@@ m.json
{"units":[{"file":"a.c"},{"file":"a.c"}]}
$ expand m.json a.c => 2
manifest M6 units/1
%%
@@ m.json
{"units":[{"file":"b.c"}]}
$ expand m.json a.c => 2
manifest M7 a.c
%%
$ expand m.json a.c => 2
manifest M1 m.json
$ expand ../m.json a.c => 2
manifest M4 ../m.json
$ expand a.c b.c => 2
manifest M7 b.c
$ expand a.c  => 1
usage: demacro plan M [--json] | apply M [--json] | expand M UNIT | run M UNIT [--order N] [--steps N] [--input FILE] | gen N
%%
@@ m.json
@1048576  |
$ expand m.json a.c => 4
limit L1 m.json
"#;

const FAILING: &str = r#"@@ m.json
{"units":[{"file":"a.c"}]}
@@ a.c
#include "h.h"
@@ h.h
int a;
$ expand m.json a.c => 5, folder 0
read fault m.json
$ expand m.json a.c => 5, folder 1
read fault a.c
$ expand m.json a.c => 5, folder 2
read fault h.h
$ expand m.json a.c => 5, folder 0, sink 0
$ expand m.json a.c => 5, folder 1, sink 0
$ expand m.json a.c => 5, folder 2, sink 0
$ expand m.json a.c => 7, sink 0
$ expand m.json a.c => 0, folder 3, sink 1
int a ;
"#;

#[test]
fn says_why_a_unit_is_not_listed(rt: HostRuntime) -> Result<(), Fail> {
    check(&rt, REFUSED)?;
    check(&rt, FAULTY)?;
    check(&rt, FAILING)
}
