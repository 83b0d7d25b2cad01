//! Which readings of a unit are aligned before and after the edit of a definition. A row has the answer, what the definition becomes and
//! its name; the files before; and behind an arrow the files after.

ghost use Rattle.dm_tree.specs.TypeNumbers.{IsTypedUnit};

use crate::projects::project_of;
use dm_alignment::{Alignment, align};
use dm_edit::{As, Change};
use dm_reading::{Reading, copy_of_definition};
use dm_token::{Definition, Text};
use std::alloc::Global;
use std::process::Abort;
use std::test::Fail;

/// What is added is a function.
const FUNCTIONS: &str = r#"same function INC
a.c
#define INC(x) ((x)+1)
int g(int a) { return INC(a) * INC(INC(a)); }
=>
a.c
static inline int INC(int x) { return ((x)+1); }
int g(int a) { return INC(a) * INC(INC(a)); }

same function INC
a.c
#define INC(x) ((x)+1)
int g(char c) { return INC(c); }
=>
a.c
static inline int INC(char x) { return ((x)+1); }
int g(char c) { return INC(c); }

differs function INC
a.c
#define INC(x) ((x)+1)
int g(char c) { return INC(c); }
=>
a.c
static inline int INC(int x) { return ((x)+1); }
int g(char c) { return INC(c); }

differs function INC
a.c
#define INC(x) ((x)+1)
int g(int a) { return INC(a); }
=>
a.c
static inline int INC(int x) { return ((x)+2); }
int g(int a) { return INC(a); }

differs function INC
a.c
#define INC(x) ((x)+1)
int g(int a) { return INC(a); }
=>
a.c
static inline int INC(int x) { return ((x)-1); }
int g(int a) { return INC(a); }

differs function INC
a.c
#define INC(x) ((x)+1)
int g(int a) { return INC(a); }
=>
a.c
static inline int INC(int x) { return (x); }
int g(int a) { return INC(a); }

differs function INC
a.c
#define INC(x) ((x)+1)
int g(int a) { return INC(a); }
=>
a.c
static inline long INC(int x) { return ((x)+1); }
int g(int a) { return INC(a); }

differs function INC
a.c
#define INC(x) ((x)+1)
int g(int a) { return INC(a); }
=>
a.c
static inline int INC(long x) { return ((x)+1); }
int g(int a) { return INC(a); }

differs function INC
a.c
#define INC(x) ((x)+1)
int g(int a) { return INC(a); }
=>
a.c
int INC(int x) { return ((x)+1); }
int g(int a) { return INC(a); }

differs function INC
a.c
#define INC(x) ((x)+1)
int g(int a) { return INC(a); }
=>
a.c
static inline int INC(int x) { ; return ((x)+1); }
int g(int a) { return INC(a); }

differs function INC
a.c
#define INC(x) ((x)+1)
int g(int a) { return INC(a); }
=>
a.c
static inline int INC(int x) { return ((x)+1); }
int g(int a) { return ((a)+1); }

differs function INC
a.c
#define INC(x) ((x)+1)
int g(int a) { return INC(a) * INC(a); }
=>
a.c
static inline int INC(int x) { return ((x)+1); }
int g(int a) { return INC(a) * ((a)+1); }

differs function INC
a.c
int f(int x);
#define INC(x) ((x)+1)
int g(int a) { return INC(a); }
=>
a.c
int f(int x);
static inline int INC(int x) { return ((x)+1); }
int g(int a) { return f(a); }

differs function INC
a.c
#define INC(x) ((x)+1)
int g(int a) { return INC(a) + (a+1); }
=>
a.c
static inline int INC(int x) { return ((x)+1); }
int g(int a) { return INC(a) + INC(a); }

same function INC
a.c
#define INC(x) ((x)+1)
int g(int a) { return INC((a)) + (INC(a)); }
=>
a.c
static inline int INC(int x) { return ((x)+1); }
int g(int a) { return (INC(a)) + INC((a)); }

same function INC
a.c
#define INC(x) ((x)+1)
int g(int a) { return INC(a); }
=>
a.c
static inline int INC(int x) { return (((x))+1); }
int g(int a) { return INC(a); }

same function INC
a.c
#define INC(x) ((x)+1)
int g(int a) { return a; }
=>
a.c
static inline int INC(int x) { return ((x)+1); }
int g(int a) { return a; }

differs function INC
a.c
#define INC(x) ((x)+1)
int g(int a) { return a; }
=>
a.c
int g(int a) { return a; }
static inline int INC(int x) { return ((x)+1); }

differs function INC
a.c
#define INC(x) ((x)+1)
int g(int a) { return INC(a); }
=>
a.c
static inline int INC(int x) { return ((x)+1); }
int g(int b) { return INC(b); }

same function MAX
a.c
#define MAX(a,b) ((a)>(b)?(a):(b))
int g(int i, int k) { return MAX(i, MAX(k, 7)); }
=>
a.c
static inline int MAX(int a, int b) { return ((a)>(b)?(a):(b)); }
int g(int i, int k) { return MAX(i, MAX(k, 7)); }

differs function MAX
a.c
#define MAX(a,b) ((a)>(b)?(a):(b))
int g(int i, int k) { return MAX(i, k); }
=>
a.c
static inline int MAX(int a, int b) { return ((a)>(b)?(a):(b)); }
int g(int i, int k) { return MAX(k, i); }

differs function MAX
a.c
#define MAX(a,b) ((a)>(b)?(a):(b))
int g(int i, int k) { return MAX(i, k); }
=>
a.c
static inline int MAX(int a, int b) { return ((a)>(b)?(a):(a)); }
int g(int i, int k) { return MAX(i, k); }

differs function MAX
a.c
#define MAX(a,b) ((a)>(b)?(a):(b))
int g(int i, int k) { return MAX(i, k); }
=>
a.c
static inline int MAX(int b, int a) { return ((a)>(b)?(a):(b)); }
int g(int i, int k) { return MAX(i, k); }

same function MAX
a.c
#define MAX(a,b) ((a)>(b)?(a):(b))
int g(int i, int k) { return MAX(i, k); }
=>
a.c
static inline int MAX(int x, int y) { return ((x)>(y)?(x):(y)); }
int g(int i, int k) { return MAX(i, k); }

differs function SUM
a.c
#define SUM(a) ((a)+(a))
int g(int i, int k) { return SUM(i) + (i + k); }
=>
a.c
static inline int SUM(int a) { return ((a)+(a)); }
int g(int i, int k) { return SUM(i) + SUM(k); }

differs function TWO
a.c
#define INC(x) ((x)+1)
#define TWO(x) INC(INC(x))
int g(int a) { return TWO(a) + INC(a); }
=>
a.c
#define INC(x) ((x)+1)
static inline int TWO(int x) { return INC(INC(x)); }
int g(int a) { return TWO(a) + INC(a); }

same function INC
a.c
#define ONE 1
#define INC(x) ((x)+ONE)
int g(int a) { return INC(a) + ONE; }
=>
a.c
#define ONE 1
static inline int INC(int x) { return ((x)+ONE); }
int g(int a) { return INC(a) + ONE; }

same function INC
a.c
#define INC(x) ((x)+1)
#define TWO(x) INC(INC(x))
int g(int a) { return TWO(a) + INC(a); }
=>
a.c
static inline int INC(int x) { return ((x)+1); }
#define TWO(x) INC(INC(x))
int g(int a) { return TWO(a) + INC(a); }

same function ONE
a.c
int f(void);
#define ONE() (f()+1)
int g(void) { return ONE() + ONE(); }
=>
a.c
int f(void);
static inline int ONE(void) { return (f()+1); }
int g(void) { return ONE() + ONE(); }

same function CALL
a.c
void f(int x);
#define CALL(x) f(x)
void g(int a) { CALL(a); CALL(a + 1); }
=>
a.c
void f(int x);
static inline void CALL(int x) { f(x); }
void g(int a) { CALL(a); CALL(a + 1); }

same function FIRST
a.c
struct s { int a; struct s *next; };
#define FIRST(p) ((p)->next->a)
int g(struct s *q) { return FIRST(q) + FIRST(q->next); }
=>
a.c
struct s { int a; struct s *next; };
static inline int FIRST(struct s *p) { return ((p)->next->a); }
int g(struct s *q) { return FIRST(q) + FIRST(q->next); }

differs function SIZE
a.c
#define SIZE(x) ((int)sizeof(x))
int g(int a) { return SIZE(a); }
=>
a.c
static inline int SIZE(int x) { return ((int)sizeof(x)); }
int g(int a) { return SIZE(a); }

differs function LET
a.c
#define LET(x) ((x)=1)
int g(int a) { return LET(a); }
=>
a.c
static inline int LET(int x) { return ((x)=1); }
int g(int a) { return LET(a); }"#;

/// What is added is an enumerator or an object.
const VALUES: &str = r#"same enumerator N
a.c
#define N 3
int t[N];
int g(int a) { switch (a) { case N: return N + N; } return t[0]; }
=>
a.c
enum { N = 3 };
int t[N];
int g(int a) { switch (a) { case N: return N + N; } return t[0]; }

same enumerator N
a.c
#define N (-'a'+1)
int g(int a) { return a * N; }
=>
a.c
enum { N = (-'a'+1) };
int g(int a) { return a * N; }

differs enumerator N
a.c
#define N 3
int g(int a) { return a + N; }
=>
a.c
enum { N = 4 };
int g(int a) { return a + N; }

differs enumerator N
a.c
#define N 3
int g(int a) { return a + N; }
=>
a.c
enum { N = 3, M = 4 };
int g(int a) { return a + N; }

differs enumerator N
a.c
#define N 3
int g(int a) { return a + N; }
=>
a.c
enum tag { N = 3 };
int g(int a) { return a + N; }

differs enumerator N
a.c
#define N 3
int g(int a) { return a + N; }
=>
a.c
static const int N = 3;
int g(int a) { return a + N; }

differs enumerator N
a.c
#define N 3
int g(int a) { return a + N; }
=>
a.c
enum { N = 3 };
int g(int a) { return a + 3; }

differs enumerator N
a.c
#define N 3
int g(int a) { return a + N + 3; }
=>
a.c
enum { N = 3 };
int g(int a) { return a + N + N; }

same enumerator N
a.c
#define N 3
int g(int a) { return a + (N); }
=>
a.c
enum { N = 3 };
int g(int a) { return a + N; }

differs enumerator N
a.c
#define N 3u
unsigned g(unsigned a) { return a + N; }
=>
a.c
enum { N = 3u };
unsigned g(unsigned a) { return a + N; }

same constant N
a.c
#define N 3u
unsigned g(unsigned a) { return a + N; }
=>
a.c
static const unsigned int N = 3u;
unsigned g(unsigned a) { return a + N; }

differs constant N
a.c
#define N 3u
unsigned g(unsigned a) { return a + N; }
=>
a.c
static const unsigned long N = 3u;
unsigned g(unsigned a) { return a + N; }

differs constant N
a.c
#define N 3u
unsigned g(unsigned a) { return a + N; }
=>
a.c
static const unsigned int N = 2u;
unsigned g(unsigned a) { return a + N; }

differs constant N
a.c
#define N 3u
unsigned g(unsigned a) { return a + N; }
=>
a.c
const unsigned int N = 3u;
unsigned g(unsigned a) { return a + N; }

differs constant N
a.c
#define N 3u
unsigned g(unsigned a) { return a + N; }
=>
a.c
static unsigned int N = 3u;
unsigned g(unsigned a) { return a + N; }

differs constant N
a.c
#define N 3u
unsigned g(unsigned a) { return a + N; }
=>
a.c
static const unsigned int N;
unsigned g(unsigned a) { return a + N; }

differs constant N
a.c
#define N 3u
unsigned g(unsigned a) { return a + N; }
=>
a.c
static const unsigned int N = 3u, M = 3u;
unsigned g(unsigned a) { return a + N; }

differs constant N
a.c
#define N 3u
unsigned g(unsigned a) { return a + N; }
=>
a.c
static const unsigned int N = 3u;
unsigned g(unsigned a) { return a + *&N; }

differs constant N
a.c
#define M 3u
#define N 3u
unsigned g(unsigned a) { return a + N; }
=>
a.c
static const unsigned int M = 3u, N = 3u;
unsigned g(unsigned a) { return a + M; }"#;

/// Something else is another.
const OTHERS: &str = r#"same enumerator N
a.c
#define N 3
struct s { int a; char b; } v;
static int x = 1;
char *text(void) { return "ab"; }
int g(int a) { int k = 2; while (a < k) a++; return v.b + x + N; }
=>
a.c
enum { N = 3 };
struct s { int a; char b; } v;
static int x = 1;
char *text(void) { return "ab"; }
int g(int a) { int k = 2; while (a < k) a++; return v.b + x + N; }

differs enumerator N
a.c
#define N 3
struct s { int a; int b; } v;
int g(void) { return v.a + N; }
=>
a.c
enum { N = 3 };
struct s { int b; int a; } v;
int g(void) { return v.a + N; }

differs enumerator N
a.c
#define N 3
struct s { int a; int b; };
int g(void) { return N; }
=>
a.c
enum { N = 3 };
struct t { int a; int b; };
int g(void) { return N; }

differs enumerator N
a.c
#define N 3
struct s { int a; int b; };
int g(void) { return N; }
=>
a.c
enum { N = 3 };
struct s { int a; long b; };
int g(void) { return N; }

differs enumerator N
a.c
#define N 3
int g(void) { return N; }
=>
a.c
enum { N = 3 };
int g(void) { return N; }
int extra;

differs enumerator N
a.c
#define N 3
int x;
int g(void) { return N; }
=>
a.c
enum { N = 3 };
static int x;
int g(void) { return N; }

differs enumerator N
a.c
#define N 3
int x;
int g(void) { return N; }
=>
a.c
enum { N = 3 };
int x = 0;
int g(void) { return N; }

differs enumerator N
a.c
#define N 3
char *text(void) { return "ab"; }
int g(void) { return N; }
=>
a.c
enum { N = 3 };
char *text(void) { return "ac"; }
int g(void) { return N; }

differs enumerator N
a.c
#define N 3
int g(int a) { while (a < 5) a++; return N; }
=>
a.c
enum { N = 3 };
int g(int a) { while (a <= 5) a++; return N; }

differs enumerator N
a.c
#define N 3
int g(int a) { while (a < 5) a++; return N; }
=>
a.c
enum { N = 3 };
int g(int a) { while (a < 5) ++a; return N; }

differs enumerator N
a.c
#define N 3
int g(int a) { { int k = 2; a += k; } return N; }
=>
a.c
enum { N = 3 };
int g(int a) { { long k = 2; a += k; } return N; }

differs enumerator N
a.c
#define N 3
int g(int a, int b) { { int k = a; b = k; } return N; }
=>
a.c
enum { N = 3 };
int g(int a, int b) { { int k = b; b = k; } return N; }

differs enumerator N
a.c
#define N 3
int g(int a) { a++; return N; }
=>
a.c
enum { N = 3 };
int g(int a) { a++; ; return N; }

same function INC
a.c
int t[2];
#include "h.h"
int g(int a) { return INC(a); }
@h.h
#define INC(x) ((x)+1)
int h(int a);
=>
a.c
int t[2];
#include "h.h"
int g(int a) { return INC(a); }
@h.h
static inline int INC(int x) { return ((x)+1); }
int h(int a);

differs function INC
a.c
int t[2];
#include "h.h"
int g(int a) { return INC(a); }
@h.h
#define INC(x) ((x)+1)
int h(int a);
=>
a.c
static inline int INC(int x) { return ((x)+1); }
int t[2];
#include "h.h"
int g(int a) { return INC(a); }
@h.h
int h(int a);"#;

/// The kind of declaration that a word means.
fn kind_of(word: &str) -> Option<As> {
    match word {
        "function" => Some(As::Function),
        "enumerator" => Some(As::Enumerator),
        "constant" => Some(As::Constant),
        _ => None,
    }
}

/// The first definition of a name that a unit reads.
fn definition_of<'a>(reading: &'a Reading, name: &str) -> Option<&'a Definition> {
    for read in reading.pp.read.items() {
        if read.definition.name.bytes() == name.as_bytes() {
            return Some(&read.definition);
        }
    }
    None
}

/// A change of the definition of a name, whose texts are left out: they aren't looked at.
fn change_of(alloc: Global, reading: &Reading, kind: &str, name: &str) -> Result<Change, Fail> {
    let (Some(kind), Some(definition)) = (kind_of(kind), definition_of(reading, name)) else {
        return Err("no such kind or definition".into());
    };
    Ok(Change {
        definition: copy_of_definition(alloc, definition)?,
        kind,
        head: Text::new(alloc, "")?,
        tail: Text::new(alloc, "")?,
    })
}

/// Whether two readings are aligned for a change of the definition of a name.
fn are_aligned(
    alloc: Global,
    old: &Reading,
    new: &Reading,
    kind: &str,
    name: &str,
) -> Result<bool, Fail>
    requires old { IsTypedUnit old.now.types old.now.core }
    requires new { IsTypedUnit new.now.types new.now.core }
{
    let change = change_of(alloc, old, kind, name)?;
    Ok(align(alloc, old, new, &change)? == Alignment::Same)
}

/// Whether the readings of the files before and after are aligned.
fn answer(alloc: Global, before: &str, after: &str, kind: &str, name: &str) -> Result<bool, Fail> {
    let old = project_of(alloc, before)?;
    let new = project_of(alloc, after)?;
    let (Some(old), Some(new)) = (
        old.readings.as_slice().first(),
        new.readings.as_slice().first(),
    ) else {
        return Err("no unit".into());
    };
    are_aligned(alloc, old, new, kind, name)
}

/// Whether a row has the answer that it names.
fn holds(alloc: Global, row: &str) -> Result<bool, Fail> {
    let Some((front, after)) = row.split_once("\n=>\n") else {
        return Err("a row has no arrow".into());
    };
    let Some((words, before)) = front.split_once('\n') else {
        return Err("a row has no first line".into());
    };
    let Some((wanted, subject)) = words.split_once(' ') else {
        return Err("a row has no answer".into());
    };
    let Some((kind, name)) = subject.split_once(' ') else {
        return Err("a row has no name".into());
    };
    Ok(answer(alloc, before, after, kind, name)? == (wanted == "same"))
}

fn expect_rows<R: Abort + AllocGlobal>(rt: &R, rows: &str) -> Result<(), Fail> {
    for row in rows.split("\n\n") {
        assert!(rt; holds(rt.alloc(), row)?, "{row}");
    }
    Ok(())
}

#[test]
fn a_function_is_added(rt: HostRuntime) -> Result<(), Fail> {
    expect_rows(&rt, FUNCTIONS)
}

#[test]
fn a_value_is_added(rt: HostRuntime) -> Result<(), Fail> {
    expect_rows(&rt, VALUES)
}

#[test]
fn all_else_stays(rt: HostRuntime) -> Result<(), Fail> {
    expect_rows(&rt, OTHERS)
}
