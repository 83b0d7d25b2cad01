//! Calls of `plan`, `apply` and `gen`. What has to come of them was worked out by hand from the rules and ISO/IEC 9899:2011.

use super::cases::check;
use std::test::Fail;

const FUNCTIONS: &str = r#"@@ a.c
#include <stdio.h>
#define SQ(x) ((x)*(x))
int main(void) { putchar(SQ(6)+29); return 0; }
$ apply a.c
rewritten a.c:2 SQ function
rewritten 1 kept 0
@@ a.c
#include <stdio.h>
static inline int SQ(int x) { return ((x)*(x)); }
int main(void) { putchar(SQ(6)+29); return 0; }
%%
@@ a.c
struct S { int n; };
#define AND(a,b) ((a)&&(b))
int main(void) { int k = 1; return AND(1, k); }
$ apply a.c
rewritten a.c:2 AND function
rewritten 1 kept 0
@@ a.c
struct S { int n; };
static inline int AND(int a, int b) { return ((a)&&(b)); }
int main(void) { int k = 1; return AND(1, k); }
%%
@@ a.c
int x, y;
int f(void) { x = 9; return 1; }
#define MAX(a,b) ((a)>(b)?(a):(b))
int main(void) { int x = 1, y = 2; return MAX(x,y)+f(); }
$ apply a.c
rewritten a.c:3 MAX function
rewritten 1 kept 0
@@ a.c
int x, y;
int f(void) { x = 9; return 1; }
static inline int MAX(int a, int b) { return ((a)>(b)?(a):(b)); }
int main(void) { int x = 1, y = 2; return MAX(x,y)+f(); }
%%
@@ a.c
int x, y;
int f(void) { x = 9; return 1; }
#define MAX(a,b) ((a)>(b)?(a):(b))
int main(void) { int t[2] = {3, 4}, i = 1, b = 2, y; y = MAX(t[i], b); return y; }
$ apply a.c
rewritten a.c:3 MAX function
rewritten 1 kept 0
@@ a.c
int x, y;
int f(void) { x = 9; return 1; }
static inline int MAX(int a, int b) { return ((a)>(b)?(a):(b)); }
int main(void) { int t[2] = {3, 4}, i = 1, b = 2, y; y = MAX(t[i], b); return y; }
%%
@@ a.c
#define MAX(a,b) ((a)>(b)?(a):(b))
int f(int a, int b, int c) { return MAX(MAX(a,b),c); }
$ apply a.c
rewritten a.c:1 MAX function
rewritten 1 kept 0
@@ a.c
static inline int MAX(int a, int b) { return ((a)>(b)?(a):(b)); }
int f(int a, int b, int c) { return MAX(MAX(a,b),c); }
%%
@@ a.c
#include <stdio.h>
#define CLAMP(x) ((x) < 0 ? \
  0 : ??/
  (x)) // keep
int main(void) { int v = 70; putchar(CLAMP(v)); return 0; }
$ apply a.c
rewritten a.c:2 CLAMP function
rewritten 1 kept 0
@@ a.c
#include <stdio.h>
static inline int CLAMP(int x) { return ((x) < 0 ? \
  0 : ??/
  (x)); } // keep
int main(void) { int v = 70; putchar(CLAMP(v)); return 0; }
"#;

const CONSTANTS: &str = r#"@@ a.c
int putchar(int c);
#define N 65
int main(void) { putchar(N + 1); return 0; }
$ apply a.c
rewritten a.c:2 N enumerator
rewritten 1 kept 0
@@ a.c
int putchar(int c);
enum { N = 65 };
int main(void) { putchar(N + 1); return 0; }
%%
@@ a.c
int putchar(int c);
#define N 65
#define M 7
int main(void) { putchar(N + 1); return 0; }
$ apply a.c
rewritten a.c:2 N enumerator
kept a.c:3 M rule 4 Unused a.c:3:9
rewritten 1 kept 1
@@ a.c
int putchar(int c);
enum { N = 65 };
#define M 7
int main(void) { putchar(N + 1); return 0; }
%%
@@ a.c
#define N 100
int t[N];
int f(int k) { switch (k) { case N: return 1; default: return N + 2; } }
$ apply a.c
rewritten a.c:1 N enumerator
rewritten 1 kept 0
@@ a.c
enum { N = 100 };
int t[N];
int f(int k) { switch (k) { case N: return 1; default: return N + 2; } }
%%
@@ a.c
#define U 10u
unsigned int f(void) { return U; }
$ apply a.c
rewritten a.c:1 U constant
rewritten 1 kept 0
@@ a.c
static const unsigned int U = 10u;
unsigned int f(void) { return U; }
"#;

#[test]
fn macros_become_declarations(rt: HostRuntime) -> Result<(), Fail> {
    check(&rt, FUNCTIONS)?;
    check(&rt, CONSTANTS)
}

const KEPT: &str = r#"@@ a.c
$ apply a.c
rewritten 0 kept 0
%%
@@ a.c
#define SQ(x) ((x)*(x))
int main(void) { int i = 3; return SQ(i++); }
$ apply a.c
kept a.c:1 SQ rule 14 Evaluation a.c:2:36
rewritten 0 kept 1
%%
@@ a.c
#define ADD(a,b) a+b
int main(void) { return ADD(1,2)*3; }
$ apply a.c
kept a.c:1 ADD rule 9 Subtree a.c:2:25
rewritten 0 kept 1
%%
@@ a.c
struct S { int n; };
#define AND(a,b) ((a)&&(b))
int f(struct S *p) { return AND(p, p->n); }
$ apply a.c
kept a.c:2 AND rule 14 Evaluation a.c:3:29
rewritten 0 kept 1
%%
@@ a.c
int x, y;
int f(void) { x = 9; return 1; }
#define MAX(a,b) ((a)>(b)?(a):(b))
int main(void) { return MAX(x,y)+f(); }
$ apply a.c
kept a.c:3 MAX rule 14 Evaluation a.c:4:25
rewritten 0 kept 1
%%
@@ a.c
int x, y;
int f(void) { x = 9; return 1; }
#define MAX(a,b) ((a)>(b)?(a):(b))
int main(void) { int *p = &x, *q = &y; return MAX(*p,*q)+f(); }
$ apply a.c
kept a.c:3 MAX rule 14 Evaluation a.c:4:47
rewritten 0 kept 1
%%
@@ a.c
#define U 10u
int f(int k) { switch (k) { case U: return 1; } return 0; }
$ apply a.c
kept a.c:1 U rule 10 Constant a.c:2:34
rewritten 0 kept 1
%%
@@ a.c
#define SQ(x) ((x)*(x))
#define STR(x) #x
#define XSTR(x) STR(x)
const char *s = XSTR(SQ(3));
$ apply a.c
kept a.c:1 SQ rule 5 Gone a.c:4:22
kept a.c:2 STR rule 1 Body a.c:2:9
kept a.c:3 XSTR rule 5 Gone a.c:4:17
rewritten 0 kept 3
%%
@@ a.c
int g = 1;
#define INC(x) ((x) + g)
int f(int a) { return INC(a); }
int h(int a) { int g = 2; return INC(a) + g; }
$ apply a.c
kept a.c:2 INC rule 13 Capture a.c:4:34
rewritten 0 kept 1
%%
@@ a.c
#define N 4
#if N > 3
int a = N;
#endif
$ apply a.c
kept a.c:1 N rule 3 Directive a.c:2:5
rewritten 0 kept 1
%%
@@ a.c
#ifndef H_H
#define H_H
int a;
#endif
$ apply a.c
kept a.c:2 H_H rule 1 Body a.c:2:9
rewritten 0 kept 1
%%
@@ a.c
#define A 1
int x = A;
#undef A
$ apply a.c
kept a.c:1 A rule 2 Again a.c:3:8
rewritten 0 kept 1
%%
@@ a.c
#define A 1
int x;
$ apply a.c
kept a.c:1 A rule 4 Unused a.c:1:9
rewritten 0 kept 1
%%
@@ a.c
int main(void) {
#define K 5
return K; }
$ apply a.c
kept a.c:2 K rule 6 Place a.c:2:9
rewritten 0 kept 1
%%
@@ a.c
struct P { int N; };
#define N 3
int a = N;
$ apply a.c
kept a.c:2 N rule 7 Name a.c:1:16
rewritten 0 kept 1
%%
@@ a.c
#define Z(a) 5
int b = Z(1);
$ apply a.c
kept a.c:1 Z rule 8 Parameter a.c:1:9
rewritten 0 kept 1
%%
@@ a.c
#define SET(v) ((v) = 1)
int f(int a) { SET(a); return a; }
$ apply a.c
kept a.c:1 SET rule 11 Lvalue a.c:2:16
rewritten 0 kept 1
"#;

#[test]
fn a_macro_that_breaks_a_rule_is_kept(rt: HostRuntime) -> Result<(), Fail> {
    check(&rt, KEPT)
}

/// A project of two units and a header.
pub const PROJECT: &str = r#"@@ m.json
{"units":[{"file":"main.c"},{"file":"util.c"}]}
@@ util.h
#ifndef UTIL_H
#define UTIL_H
#define BUF_SIZE 64
#define NEWLINE '\n'
#define LIMIT 200u
#define ABS(v) ((v) < 0 ? -(v) : (v))
#define MIN(a, b) ((a) < (b) ? (a) : (b))
#define IS_DIGIT(c) ((c) >= '0' && (c) <= '9')
#define PUT(c) putchar(c)
#define LOG(...) puts(__VA_ARGS__)
#define DEBUG 0
#define NAME "util"
int length(const char *s);
#endif
@@ util.c
#include "util.h"
int length(const char *s) {
    int n = 0;
    while (s[n] && n < BUF_SIZE) n++;
    return MIN(n, BUF_SIZE);
}
@@ main.c
#include <stdio.h>
#include "util.h"
static char buf[BUF_SIZE];
int main(void) {
    int c, n = 0, d = 0;
    unsigned int total = 0;
    while ((c = getchar()) != EOF && n < BUF_SIZE - 1) {
        if (IS_DIGIT(c)) d++;
        buf[n++] = (char)c;
        total += ABS(c);
        if (total > LIMIT) break;
    }
#if DEBUG
    puts(NAME);
#endif
    LOG("done");
    PUT('0' + MIN(n, 9));
    PUT(NEWLINE);
    return MIN(d, length(buf));
}
$ apply m.json
kept util.h:2 UTIL_H rule 1 Body util.h:2:9
rewritten util.h:3 BUF_SIZE enumerator
rewritten util.h:4 NEWLINE enumerator
rewritten util.h:5 LIMIT constant
rewritten util.h:6 ABS function
kept util.h:7 MIN rule 14 Evaluation main.c:19:12
rewritten util.h:8 IS_DIGIT function
kept util.h:9 PUT rule 15 Reread util.h:9:9
kept util.h:10 LOG rule 1 Body util.h:10:9
kept util.h:11 DEBUG rule 3 Directive main.c:13:5
kept util.h:12 NAME rule 4 Unused util.h:12:9
rewritten 5 kept 6
@@ util.h
#ifndef UTIL_H
#define UTIL_H
enum { BUF_SIZE = 64 };
enum { NEWLINE = '\n' };
static const unsigned int LIMIT = 200u;
static inline int ABS(int v) { return ((v) < 0 ? -(v) : (v)); }
#define MIN(a, b) ((a) < (b) ? (a) : (b))
static inline int IS_DIGIT(int c) { return ((c) >= '0' && (c) <= '9'); }
#define PUT(c) putchar(c)
#define LOG(...) puts(__VA_ARGS__)
#define DEBUG 0
#define NAME "util"
int length(const char *s);
#endif
$ plan m.json
kept util.h:2 UTIL_H rule 1 Body util.h:2:9
rewritten util.h:3 BUF_SIZE enumerator
rewritten util.h:4 NEWLINE enumerator
rewritten util.h:5 LIMIT constant
rewritten util.h:6 ABS function
kept util.h:7 MIN rule 14 Evaluation main.c:19:12
rewritten util.h:8 IS_DIGIT function
kept util.h:9 PUT rule 15 Reread util.h:9:9
kept util.h:10 LOG rule 1 Body util.h:10:9
kept util.h:11 DEBUG rule 3 Directive main.c:13:5
kept util.h:12 NAME rule 4 Unused util.h:12:9
rewritten 5 kept 6
"#;

const UNITS: &str = r#"@@ m.json
{"units":[{"file":"a.c"},{"file":"b.c"}]}
@@ h.h
#define TWICE(x) ((x)+(x))
@@ a.c
#include "h.h"
int f(int k) { return TWICE(k); }
@@ b.c
#include "h.h"
long g(long k) { return TWICE(k); }
$ apply m.json
kept h.h:1 TWICE rule 12 Type b.c:2:25
rewritten 0 kept 1
%%
@@ m.json
{"units":[{"file":"a.c"},{"file":"b.c"}]}
@@ h.h
#define TWICE(x) ((x)+(x))
@@ a.c
#include "h.h"
int f(int k) { return TWICE(k); }
@@ b.c
#include "h.h"
int g(int k) { return TWICE(k); }
$ apply m.json
rewritten h.h:1 TWICE function
rewritten 1 kept 0
@@ h.h
static inline int TWICE(int x) { return ((x)+(x)); }
"#;

#[test]
fn projects_are_planned_whole(rt: HostRuntime) -> Result<(), Fail> {
    check(&rt, PROJECT)?;
    check(&rt, UNITS)
}

const JSON: &str = r#"@@ m.json
{"units":[]}
$ apply m.json
rewritten 0 kept 0
$ plan m.json --json
{"definitions":[],"kept":0,"rewritten":0}
%%
@@ a.c
#define SQ(x) ((x)*(x))
int main(void) { int i = 3; return SQ(i++); }
$ plan a.c --json
{"definitions":[{"file":"a.c","line":1,"name":"SQ","outcome":"kept","place":{"column":36,"file":"a.c","line":2},"rule":14,"title":"Evaluation"}],"kept":1,"rewritten":0}
%%
@@ a.c
int putchar(int c);
#define N 65
int main(void) { putchar(N + 1); return 0; }
$ apply --json a.c
{"definitions":[{"as":"enumerator","file":"a.c","line":2,"name":"N","outcome":"rewritten"}],"kept":0,"rewritten":1}
@@ a.c
int putchar(int c);
enum { N = 65 };
int main(void) { putchar(N + 1); return 0; }
"#;

const GENERATED: &str = r#"$ gen 0
definitions 0 rewritten 0 kept 0 bytes 90 90
$ gen 1
definitions 1 rewritten 1 kept 0 bytes 158 162
$ gen 4
definitions 4 rewritten 3 kept 1 bytes 395 446
"#;

#[test]
fn reports_are_json_and_sums_where_asked_for(rt: HostRuntime) -> Result<(), Fail> {
    check(&rt, JSON)?;
    check(&rt, GENERATED)
}

const REFUSED: &str = r#"$ apply a.c => 3
a.c:1:1: refusal 7 NotFound
$ plan a.c => 3
a.c:1:1: refusal 7 NotFound
%%
@@ a.c
#define F(x) x
int a = F(1
$ apply a.c => 3
a.c:2:9: refusal 9 Arguments
$ plan a.c => 3
a.c:2:9: refusal 9 Arguments
%%
@@ a.c
int a; /* x
$ apply a.c => 3
a.c:1:8: refusal 2 Comment
$ plan a.c => 3
a.c:1:8: refusal 2 Comment
%%
@@ a.c
int a = ;
$ apply a.c => 3
a.c:1:1: refusal 16 Syntax
%%
@@ a.c
int a; long a;
$ apply a.c => 3
a.c:1:13: refusal 17 Type C2
%%
@@ m.json
{"units":[{"file":"a.c"},{"file":"b.c"}]}
@@ a.c
#define N 1
int a = N;
@@ b.c
#endif
$ apply m.json => 3
b.c:1:1: refusal 6 Conditionals
"#;

const FAULTY: &str = r#"@@ m.json
{"units":[{"file":"a.c","x":1}]}
$ apply m.json => 2
manifest M3 units/0/x
%%
@@ m.json
{"units":[{"file":"../a.c"}]}
$ apply m.json => 2
manifest M4 units/0/file
%%
@@ m.json
{"units":[{"file":"a.c","define":["1N"]}]}
$ apply m.json => 2
manifest M5 units/0/define/0
%%
@@ m.json
{"units":[{"file":"a.c"},{"file":"a.c"}]}
$ apply m.json => 2
manifest M6 units/1
%%
$ apply m.json => 2
manifest M1 m.json
$ plan ../a.c => 2
manifest M4 ../a.c
%%
@@ m.json
{
$ apply m.json => 2
manifest M2 m.json
%%
@@ a.c
#include "a.c"
$ apply a.c => 4
limit L4 a.c
"#;

#[test]
fn there_is_no_plan_of_what_cannot_be_read(rt: HostRuntime) -> Result<(), Fail> {
    check(&rt, REFUSED)?;
    check(&rt, FAULTY)
}

/// Three units that each have a macro, whose project's files are read first, by the calls 0 to 3 of the folder, and then written; and calls of the
/// outside that aren't made.
const FAILING: &str = r#"@@ m.json
{"units":[{"file":"a.c"},{"file":"b.c"},{"file":"c.c"}]}
@@ a.c
#define N 1
int a = N;
@@ b.c
#define N 1
int a = N;
@@ c.c
#define N 1
int a = N;
$ apply m.json => 0, folder 7 8 9
rewritten a.c:1 N enumerator
rewritten b.c:1 N enumerator
rewritten c.c:1 N enumerator
rewritten 3 kept 0
@@ a.c
enum { N = 1 };
int a = N;
@@ b.c
enum { N = 1 };
int a = N;
@@ c.c
enum { N = 1 };
int a = N;
$ plan m.json => 0, folder 4
rewritten a.c:1 N enumerator
rewritten b.c:1 N enumerator
rewritten c.c:1 N enumerator
rewritten 3 kept 0
$ apply m.json => 5, folder 0
read fault m.json
$ plan m.json => 5, folder 0
read fault m.json
$ apply m.json => 5, folder 1
read fault a.c
$ plan m.json => 5, folder 1
read fault a.c
$ apply m.json => 5, folder 2
read fault b.c
$ plan m.json => 5, folder 2
read fault b.c
$ apply m.json => 5, folder 3
read fault c.c
$ plan m.json => 5, folder 3
read fault c.c
$ apply m.json => 6, folder 4
write fault a.c
$ apply m.json => 6, folder 5
write fault b.c
@@ a.c
enum { N = 1 };
int a = N;
$ apply m.json => 6, folder 6
write fault c.c
@@ a.c
enum { N = 1 };
int a = N;
@@ b.c
enum { N = 1 };
int a = N;
$ apply m.json => 7, sink 0
@@ a.c
enum { N = 1 };
int a = N;
@@ b.c
enum { N = 1 };
int a = N;
@@ c.c
enum { N = 1 };
int a = N;
$ plan m.json => 7, sink 0
$ apply m.json => 5, folder 0, sink 0
$ apply m.json => 6, folder 5, sink 0
@@ a.c
enum { N = 1 };
int a = N;
%%
@@ a.c
#define A 1
int x;
$ apply a.c => 0, folder 1
kept a.c:1 A rule 4 Unused a.c:1:9
rewritten 0 kept 1
%%
$ gen 1 => 7, sink 0
$ gen 1 => 0, folder 0 1 2
definitions 1 rewritten 1 kept 0 bytes 158 162
"#;

#[test]
fn each_call_of_the_outside_that_fails_is_told(rt: HostRuntime) -> Result<(), Fail> {
    check(&rt, FAILING)
}
