//! What is proposed for the definitions of worked projects: behind an arrow a row has a line for each definition in a file, with the rule
//! that it breaks and the first place, or with what stands before and behind its replacement list then.

ghost use Rattle.dm_judge.specs.Units.{AreTyped, AreWhole};

use crate::projects::{Project, project_of};
use dm_judge::{Proposal, Units, indexes_of, names_of, propose_in};
use dm_readings::definitions;
use dm_token::{Definition, Place, Text};
use std::alloc::Global;
use std::fmt::Write;
use std::process::Abort;
use std::test::Fail;
use tree_words::words::put_text;

/// Puts a place.
fn put_place(out: &mut String, names: &[Text], place: Place) -> Result<(), Fail> {
    let Some(name) = names.get(place.file as usize) else {
        return Err("a place is in no file".into());
    };
    put_text(out, name)?;
    write!(out, ":{}:{}", place.line, place.column)?;
    Ok(())
}

/// Puts what is proposed for a definition.
fn put_proposal(out: &mut String, names: &[Text], proposal: &Proposal) -> Result<(), Fail> {
    match proposal {
        Proposal::Broken { rule, place } => {
            write!(out, "{rule} ")?;
            put_place(out, names, *place)?;
        }
        Proposal::Change(change) => {
            put_text(out, &change.head)?;
            out.push_str("|")?;
            put_text(out, &change.tail)?;
        }
    }
    Ok(())
}

/// Puts what is proposed for each definition in a line of its own.
fn put_proposals(
    alloc: Global,
    out: &mut String,
    names: &[Text],
    units: &mut Units,
    definitions: &[&Definition],
) -> Result<(), Fail>
    requires { AreWhole units.old }
{
    for definition in definitions {
        out.push_str("\n")?;
        put_text(out, &definition.name)?;
        out.push_str(" ")?;
        put_proposal(out, names, &propose_in(alloc, units, definition)?)?;
    }
    Ok(())
}

/// What is proposed for the definitions of a project.
fn proposals(alloc: Global, project: &Project) -> Result<String, Fail>
    requires { AreTyped project.now.readings.items }
{
    let readings = project.readings.as_slice();
    let indexes = indexes_of(alloc, readings)?;
    let names = names_of(alloc, readings)?;
    let mut units = Units::of(alloc, indexes.as_slice(), names.as_slice())?;
    let found = definitions(alloc, readings)?;
    let mut out = String::new(alloc);
    put_proposals(
        alloc,
        &mut out,
        project.loader.names(),
        &mut units,
        found.as_slice(),
    )?;
    Ok(out)
}

/// Checks rows, between which stand empty lines.
fn expect_rows<R: Abort + AllocGlobal>(rt: &R, rows: &str) -> Result<(), Fail> {
    for row in rows.split("\n\n") {
        let Some((files, wanted)) = row.split_once("\n=>") else {
            panic!(rt; "no arrow in {row}");
        };
        let project = project_of(rt.alloc(), files)?;
        assert!(rt;
            proposals(rt.alloc(), &project)?.as_str() == wanted,
            "{row}"
        );
    }
    Ok(())
}

// One becomes an enumerator where its type is `int`, an object where it is another one, and a function where it has parameters, with the
// types of its first expansion. What stands inside the replacement list, also over several lines, isn't touched.
const DECLARATIONS: &str = r##"a.c
#include <stdio.h>
#define SQ(x) ((x)*(x))
int main(void) { putchar(SQ(6)+29); return 0; }
=>
SQ static inline int SQ(int x) { return |; }

a.c
#define N 100
int t[N];
int f(int k) { switch (k) { case N: return 1; default: return N + 2; } }
=>
N enum { N = | };

a.c
#define U 10u
#define C (char)3
#define Z sizeof(int)
unsigned int f(void) { return U + C + Z; }
=>
U static const unsigned int U = |;
C static const char C = |;
Z static const unsigned long Z = |;

a.c
#include <stdio.h>
#define CLAMP(x) ((x) < 0 ? \
  0 : ??/
  (x)) // keep
int main(void) { int v = 70; putchar(CLAMP(v)); return 0; }
=>
CLAMP static inline int CLAMP(int x) { return |; }

a.c
int n;
void put(int c);
#define READY() (n > 0)
#define SHOW(c) put(c)
#define DROP(c) ((void)(c))
int f(void) { SHOW(65); DROP(n); return READY(); }
=>
READY static inline int READY(void) { return |; }
SHOW static inline void SHOW(int c) { |; }
DROP static inline void DROP(int c) { |; }

a.c
struct s { int m; };
#define M(v) ((v).m)
#define P(p) (*(p))
#define AT(a, i) ((a)[i])
#define ROW(p) (&(*(p))[1])
int f(struct s v, struct s *p, const char *a, int (*q)[3]) { return M(v) + M(P(p)) + AT(a, 0) + *ROW(q); }
=>
M 11 a.c:6:69
P 11 a.c:6:78
AT static inline char AT(const char *a, int i) { return |; }
ROW static inline int *ROW(int (*p)[3]) { return |; }

a.c
#define MAX(a,b) ((a)>(b)?(a):(b))
int f(int a, int b, int c) { return MAX(MAX(a,b),c); }
=>
MAX static inline int MAX(int a, int b) { return |; }

a.c
#include "h.h"
int f(int k) { return TWICE(k); }
@h.h
#define TWICE(x) ((x)+(x))
@b.c
#include "h.h"
int g(int k) { return TWICE(k); }
=>
TWICE static inline int TWICE(int x) { return |; }"##;

#[test]
fn macros_become_declarations(rt: HostRuntime) -> Result<(), Fail> {
    expect_rows(&rt, DECLARATIONS)
}

// Rules 1 to 4: no replacement list, or one that no declaration has; another definition of the name, one more reading of this one, or an
// `undef`, in a unit that reads it; a use in a condition that is evaluated; no use.
const DIRECTIVES: &str = r##"a.c
#define E
#define V(...) 1
#define S(x) #x
#define J(x) x ## 1
#define/**/H 1
#define \
 I 1
# define K 1
int a = V() + H + I + K;
=>
E 1 a.c:1:9
V 1 a.c:2:9
S 1 a.c:3:9
J 1 a.c:4:9
H 1 a.c:5:12
I 1 a.c:7:2
K enum { K = | };

a.c
#ifndef H_H
#define H_H
int a;
#endif
=>
H_H 1 a.c:2:9

a.c
#define A 1
int x = A;
#undef A
=>
A 2 a.c:3:8

a.c
#undef A
#define A 1
int a = A;
=>
A 2 a.c:1:8

a.c
#define A 1
#include "h.h"
int a = A;
@h.h
#define A 1
=>
A 2 h.h:1:9
A 2 a.c:1:9

a.c
#include "h.h"
int a = A;
@b.c
#include "h.h"
#include "h.h"
int b = A;
@h.h
#define A 1
=>
A 2 h.h:1:9

a.c
#include <stdio.h>
#define EOF (-1)
int a = EOF;
=>
EOF 2 a.c:2:9

a.c
#define N 4
#if N > 3
int a = N;
#endif
=>
N 3 a.c:2:5

a.c
#define N 4
#if 1
#elif N
#endif
#if 0 && defined N
#endif
int a = N;
=>
N 3 a.c:5:18

a.c
#define M N
#define N 4
#if 0 && M
#endif
int a = N;
=>
M 3 a.c:3:10
N 3 a.c:1:11

a.c
#include "h.h"
int a = N;
@b.c
int b;
#ifndef N
#endif
@h.h
#define N 4
=>
N 3 b.c:2:9

a.c
#define A 1
#define B 1
#define C B
#if 0
int y = A;
#endif
int x = B;
=>
A 4 a.c:1:9
B enum { B = | };
C 4 a.c:3:9"##;

#[test]
fn directives_keep_macros(rt: HostRuntime) -> Result<(), Fail> {
    expect_rows(&rt, DIRECTIVES)
}

// Rules 5 to 8: an expansion that leaves no tokens, of which `#` took some, or whose arguments stand elsewhere; a definition inside a
// declaration; the name left as an identifier; a parameter that is a keyword, a macro, or not in the replacement list.
const TOKENS: &str = r##"a.c
#define SQ(x) ((x)*(x))
#define STR(x) #x
#define XSTR(x) STR(x)
const char *s = XSTR(SQ(3));
=>
SQ 5 a.c:4:22
STR 1 a.c:2:9
XSTR 5 a.c:4:17

a.c
#define F(x) (x)
#define G F
#define H (2)
#define D(x)
int a = F(1) + G(2) + F
(3) D(F(4));
=>
F 5 a.c:2:11
G enum { G = | };
H 4 a.c:3:9
D 1 a.c:4:9

a.c
int main(void) {
#define K 5
return K; }
#define L 6
int a = L
#define M 7
;
int b = M;
=>
K 6 a.c:2:9
L enum { L = | };
M 6 a.c:6:9

a.c
struct P { int N; };
#define N 3
int a = N;
=>
N 7 a.c:1:16

a.c
int f(int x);
#define f(x) (x)
int g(void) { return (f)(1) + f(2); }
=>
f 7 a.c:1:5

a.c
#define Z(a) 5
#define I(int) (int)
#define M(I) (I)
#define G(G) (G)
int b = Z(1) + I(2) + M(3) + G(4);
=>
Z 8 a.c:1:9
I 8 a.c:2:9
M 8 a.c:3:9
G 8 a.c:4:9

a.c
#include "h.h"
int a = ID(1);
@h.h
#define ID(p) (p)
@b.c
#define p 1
=>
ID 8 h.h:1:9
p 4 b.c:1:9"##;

#[test]
fn tokens_keep_macros(rt: HostRuntime) -> Result<(), Fail> {
    expect_rows(&rt, TOKENS)
}

// Rules 9 to 11: a run or an occurrence that is no expression, that stands where a constant is wanted, or that isn't read.
const EXPRESSIONS: &str = r##"a.c
#define ADD(a,b) a+b
int main(void) { return ADD(1,2)*3; }
=>
ADD 9 a.c:2:25

a.c
#define NEG(x) (-x)
#define TYPE int
#define PAIR(x) { x, 1 }
TYPE a = NEG(1 + 2);
int b[2] = PAIR(3);
=>
NEG 9 a.c:4:10
TYPE 9 a.c:4:1
PAIR 9 a.c:5:12

a.c
#define SHOW(x) do { (x); } while (0)
void f(int a) { SHOW(a); }
=>
SHOW 9 a.c:2:17

a.c
#define U 10u
int f(int k) { switch (k) { case U: return 1; } return 0; }
=>
U 10 a.c:2:34

a.c
#define ID(x) (x)
#define ONE(x) (x)
#define TWO(x) (x)
#define TRI(x) (x)
#define UP(x) (x)
int a = ID(1);
enum { E = ONE(1) };
int b[TWO(1)];
int f(int k) { static int s = 3; return sizeof(TRI(s)) + (int)sizeof(int[UP(1)]); }
=>
ID 10 a.c:6:9
ONE 10 a.c:7:12
TWO 10 a.c:8:7
TRI 10 a.c:9:48
UP 10 a.c:9:74

a.c
int n;
#define A n
#define B "b"
#define C ((1, 2))
#define D (1 ? 2 : 1/0)
#define I 7
#define L 7L
int f(void) { static int s = I; return A + B[0] + C + D + (int)sizeof(I) + (int)sizeof L; }
=>
A 10 a.c:8:40
B 10 a.c:8:44
C 10 a.c:8:51
D enum { D = | };
I enum { I = | };
L 10 a.c:8:88

a.c
#define SET(v) ((v) = 1)
int f(int a) { SET(a); return a; }
=>
SET 11 a.c:2:16

a.c
struct s { int m; } v;
#define V v
#define M(s) ((s).m)
#define AT(p) (&(p))
#define GET(p) (*(p))
int f(int *p) { GET(p) = 2; return M(v) + *AT(*p); }
=>
V 4 a.c:2:9
M 11 a.c:6:36
AT 11 a.c:6:44
GET 11 a.c:6:17

a.c
struct s { int m; } v, *p = &v;
#define GET(p) (*(p))
#define M(s) ((s).m)
int f(void) { return GET(p).m + M(v); }
=>
GET 11 a.c:4:22
M 11 a.c:4:33

a.c
#include "h.h"
int f(int i) { return ID(i++); }
@b.c
#include "h.h"
long g(long k) { return -ID(k) + 1; }
@h.h
#define ID(x) x + x
=>
ID 9 b.c:2:26"##;

#[test]
fn places_of_expressions_keep_macros(rt: HostRuntime) -> Result<(), Fail> {
    expect_rows(&rt, EXPRESSIONS)
}

// Rules 12 and 13: expansions of other types, or of one that can't be spelled at the definition; names that mean something else there.
const MEANINGS: &str = r##"a.c
#define ID(x) (x)
int f(int i) { return ID(i); }
long g(long k) { return ID(k); }
=>
ID 12 a.c:3:25

a.c
#include "h.h"
int f(int k) { return TWICE(k); }
@h.h
#define TWICE(x) ((x)+(x))
@b.c
#include "h.h"
long g(long k) { return TWICE(k); }
=>
TWICE 12 b.c:2:25

a.c
void put(int c);
#define DO(x) (x)
#define ID(x) (x)
#define SAME(x) (x)
struct s { int m; };
int take(struct s v);
int f(char c, struct s v) { DO(put(1)); return ID(c) + ID('c') + take(SAME(v)); }
=>
DO 12 a.c:7:29
ID 12 a.c:7:56
SAME 12 a.c:7:71

a.c
typedef int T;
#include "h.h"
int f(void) { return N; }
@b.c
typedef long T;
#include "h.h"
int g(void) { return N; }
@h.h
#define N ((T)1)
=>
N 12 b.c:3:22

a.c
int g = 1;
#define INC(x) ((x) + g)
int f(int a) { return INC(a); }
int h(int a) { int g = 2; return INC(a) + g; }
=>
INC 13 a.c:4:34

a.c
#define N ((int)sizeof(struct s))
#define T ((t)1)
#define E (e)
#define L() (k)
#define Q(g) (g + (n))
struct s { int m; };
typedef int t;
enum { e };
int f(int k) { int g = 2, n = 1; return N + T + E + L() + Q(g); }
=>
N 13 a.c:9:41
T 13 a.c:9:45
E 13 a.c:9:49
L 13 a.c:9:53
Q 13 a.c:9:59

a.c
struct s { int m; };
typedef int t;
enum { e };
#define N ((int)sizeof(struct s))
#define M ((int)sizeof(struct s))
#define T ((t)1)
#define E (e)
int f(void) { struct s { int n; }; typedef int t; return M + T; }
int g(void) { { enum { e }; } return N + E; }
=>
N enum { N = | };
M 13 a.c:8:58
T 13 a.c:8:62
E enum { E = | };

a.c
int g(int x);
#define CALL(x) g(x)
#define MAKE(x) ((x) + (int)sizeof(enum { e = 1 }))
int f(int h) { int g(int); return CALL(h) + MAKE(1); }
=>
CALL static inline int CALL(int x) { return |; }
MAKE 13 a.c:4:45"##;

#[test]
fn types_and_names_keep_macros(rt: HostRuntime) -> Result<(), Fail> {
    expect_rows(&rt, MEANINGS)
}

// Rule 14: arguments that a call would evaluate more or less often, or at another time.
const EVALUATIONS: &str = r##"a.c
#define SQ(x) ((x)*(x))
int main(void) { int i = 3; return SQ(i++); }
=>
SQ 14 a.c:2:36

a.c
struct S { int n; };
#define AND(a,b) ((a)&&(b))
int f(struct S *p) { return AND(p, p->n); }
=>
AND 14 a.c:3:29

a.c
#define AND(a,b) ((a)&&(b))
int main(void) { int k = 1; return AND(1, k); }
=>
AND static inline int AND(int a, int b) { return |; }

a.c
#define AND(a,b) ((a)&&(b))
int f(int j) { int k; k = 2; return AND(1, j) + AND(1, k); }
=>
AND 14 a.c:2:49

a.c
int x, y;
int f(void) { x = 9; return 1; }
#define MAX(a,b) ((a)>(b)?(a):(b))
int main(void) { return MAX(x,y)+f(); }
=>
MAX 14 a.c:4:25

a.c
int x, y;
int f(void) { x = 9; return 1; }
#define MAX(a,b) ((a)>(b)?(a):(b))
int main(void) { int x = 1, y = 2; return MAX(x,y)+f(); }
=>
MAX static inline int MAX(int a, int b) { return |; }

a.c
int x, y;
int f(void) { x = 9; return 1; }
#define MAX(a,b) ((a)>(b)?(a):(b))
int main(void) { int *p = &x, *q = &y; return MAX(*p,*q)+f(); }
=>
MAX 14 a.c:4:47

a.c
#define MAX(a,b) ((a)>(b)?(a):(b))
int main(void) { int t[2] = {3, 4}, i = 1, b = 2, y; y = MAX(t[i], b); return y; }
=>
MAX static inline int MAX(int a, int b) { return |; }

a.c
int x;
int f(void);
static int one(void) { return x; }
static int two(void) { return one() + x; }
int later(void);
#define SQ(x) ((x)*(x))
#define SUM(x) ((x)+(x))
#define NOW(x) ((x)+0)
int g(void) { return SQ(x) + two() + sizeof(x + 1); }
int h(void) { return SUM(x) + later(); }
int i(void) { return NOW(f()) + x; }
int later(void) { return 1; }
=>
SQ static inline int SQ(int x) { return |; }
SUM 14 a.c:10:22
NOW static inline int NOW(int x) { return |; }

a.c
#define SQ(x) ((x)*(x))
#define SUM(x) ((x)+(x))
int f(int a) { int b = 1, *p = &b; return SQ(a) + (a = 2); }
int g(int a) { int b = 1, *p = &b; return SUM(b) + (*p = 2); }
=>
SQ 14 a.c:3:43
SUM 14 a.c:4:43

a.c
struct s { int m; } v;
#define OR(a,b) ((a)||(b))
#define IF(a,b) ((a)?(b):0)
#define ALSO(a,b) ((a)&&(b))
#define NOT(a,b) (!(a)&&(b))
int f(int a) { int k = OR(1, k); return IF(a, -a) + ALSO(a, v.m) + NOT(1, ~a & 1); }
=>
OR 14 a.c:6:24
IF 14 a.c:6:41
ALSO 14 a.c:6:53
NOT static inline int NOT(int a, int b) { return |; }

a.c
int g(int x);
#define FIRST(a,b) (g(a) + (b))
#define CHOOSE(a,b) ((a) ? 1 : (b))
#define THEN(a,b) ((a), (b))
#define LATER(a,b) ((b) + g(a))
#define SIZE(a) ((int)sizeof(a))
int f(int a) { return FIRST(g(a), g(1)) + CHOOSE(g(a), 2) + LATER(a, g(a)) + SIZE(a + 1); }
int h(int *p) { return THEN(1, *p); }
=>
FIRST static inline int FIRST(int a, int b) { return |; }
CHOOSE static inline int CHOOSE(int a, int b) { return |; }
THEN 14 a.c:8:24
LATER static inline int LATER(int a, int b) { return |; }
SIZE 14 a.c:7:78"##;

#[test]
fn evaluation_keeps_macros(rt: HostRuntime) -> Result<(), Fail> {
    expect_rows(&rt, EVALUATIONS)
}
