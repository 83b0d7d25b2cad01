//! Small programs, what they write, and how their runs end, by ISO/IEC 9899:2011. Where a program has one behaviour a compiled one agrees.

use super::cases::check;
use std::test::Fail;

const ARITHMETIC: &str = r#"overflow of a sum
@@ a.c
int main(void) { int a = 2147483647; return a + 1; }
$ run a.c a.c
[undefined overflow a.c:1:45]
%%
overflow of a negation
@@ a.c
int main(void) { int a = -2147483647 - 1; return 5 + -a; }
$ run a.c a.c
[undefined overflow a.c:1:54]
%%
overflow of promoted operands
@@ a.c
int main(void) { unsigned short a = 65535; return a * a; }
$ run a.c a.c
[undefined overflow a.c:1:51]
%%
overflow of an increment
@@ a.c
int main(void) { int t[2] = { 1, 2147483647 }, *p = t; return (*++p)++; }
$ run a.c a.c
[undefined overflow a.c:1:63]
%%
division by zero
@@ a.c
int main(void) { int z = 0;
    return 1 ? 7 % z : 0; }
$ run a.c a.c
[undefined division a.c:2:16]
%%
division by an unsigned zero
@@ a.c
int main(void) { unsigned char k = 7; k /= (unsigned char)256; return k; }
$ run a.c a.c
[undefined division a.c:1:39]
%%
shift too far
@@ a.c
int main(void) { unsigned int a = 1; return (int)(a << 32); }
$ run a.c a.c
[undefined shift a.c:1:51]
%%
shift into the sign
@@ a.c
int main(void) { unsigned char a = 255; return a << 24; }
$ run a.c a.c
[undefined shift a.c:1:48]
%%
shift of a negative
@@ a.c
int main(void) { short a = -1; a <<= 1; return a; }
$ run a.c a.c
[undefined shift a.c:1:32]
%%
place of a macro
@@ a.c
#define DIV(a, b) ((a) / (b))
int main(void) {
    int z = 0;
    return DIV(1,
        z);
}
$ run a.c a.c
[undefined division a.c:1:20]
"#;

const CONFLICTS: &str = r#"conflict of a store and an increment
@@ a.c
int main(void) { int i = 0;
    i = i++;
    return i; }
$ run a.c a.c
[undefined conflict a.c:2:5]
%%
conflict from the left
@@ a.c
int f(int a, int b) { return a + b; }
int main(void) { int i = 0; return f(i++, i++); }
$ run a.c a.c
[undefined conflict a.c:2:43]
%%
conflict of a whole and a part
@@ a.c
struct S { int a, b; };
int main(void) { struct S s = { 1, 2 }, t = { 3, 4 }; s.a = (s = t).b; return s.a; }
$ run a.c a.c
[undefined conflict a.c:2:55]
%%
conflict in the chosen operand
@@ a.c
int main(void) { int i = 0; i = 1 ? i++ : 0; return i; }
$ run a.c a.c
[undefined conflict a.c:1:29]
"#;

const POINTERS: &str = r#"null followed
@@ a.c
int main(void) { int *p = 0; int *q = &*p; return q == 0; }
$ run a.c a.c
[undefined null a.c:1:40]
%%
null moved
@@ a.c
int *p;
int main(void) { p++; return 0; }
$ run a.c a.c
[undefined null a.c:2:18]
%%
null of argv
@@ a.c
int main(int argc, char **argv) { return argv[argc][0]; }
$ run a.c a.c
[undefined null a.c:1:42]
%%
bounds one past the end
@@ a.c
int main(void) { int a[3] = { 0 }; return a[3]; }
$ run a.c a.c
[undefined bounds a.c:1:43]
%%
bounds of a sum
@@ a.c
int main(void) { int a[3] = { 0 }, i = 4; int *p = &a[i]; return p == a; }
$ run a.c a.c
[undefined bounds a.c:1:53]
%%
bounds of a row
@@ a.c
int main(void) { int m[2][3] = { 0 }; return m[0][3]; }
$ run a.c a.c
[undefined bounds a.c:1:46]
%%
bounds before the first
@@ a.c
int main(void) { int x, *p = &x; --p; return 0; }
$ run a.c a.c
[undefined bounds a.c:1:34]
%%
bounds of a text
@@ a.c
int puts(const char *s);
int main(void) { char s[2] = "ab"; return puts(s); }
$ run a.c a.c
[undefined bounds a.c:2:43]
%%
order of two objects
@@ a.c
int main(void) { int a, b; return &a < &b; }
$ run a.c a.c
[undefined pointer a.c:1:35]
%%
distance of two rows
@@ a.c
int main(void) { int m[2][3]; return (int)(m[1] - m[0]); }
$ run a.c a.c
[undefined pointer a.c:1:44]
%%
first of several causes
@@ a.c
int main(void) { int *p; { int a; p = &a; } p = p + 2; return 0; }
$ run a.c a.c
[undefined bounds a.c:1:49]
"#;

const OBJECTS: &str = r#"life of a local
@@ a.c
int *f(int n) { return &n; }
int main(void) { return *f(3); }
$ run a.c a.c
[undefined life a.c:2:25]
%%
life ended and compared
@@ a.c
int main(void) { int *p; { int a; p = &a; } return p == 0; }
$ run a.c a.c
[undefined life a.c:1:52]
%%
life of an iteration
@@ a.c
int main(void) { int *p = 0; for (int i = 0; i < 2; i++) { int x = 5; if (i) return *p; p = &x; } return 0; }
$ run a.c a.c
[undefined life a.c:1:85]
%%
unset local
@@ a.c
int main(void) { int x; if (0) x = 1; return x; }
$ run a.c a.c
[undefined unset a.c:1:46]
%%
unset member of a copy
@@ a.c
struct S { int a, b; };
int main(void) { struct S s, t; s.a = 1; t = s; return t.a + t.b; }
$ run a.c a.c
[undefined unset a.c:2:62]
%%
unset member of a result
@@ a.c
struct S { int a, b; };
struct S f(void) { struct S s; s.a = 1; return s; }
int main(void) { return f().a + f().b; }
$ run a.c a.c
[undefined unset a.c:3:33]
%%
unset in each iteration
@@ a.c
int main(void) { for (int i = 0; i < 2; i++) { int x; if (i) return x; x = 1; } return 9; }
$ run a.c a.c
[undefined unset a.c:1:69]
%%
type of another kind
@@ a.c
int main(void) { int x = 1; void *v = &x; unsigned int *u = v; return (int)*u; }
$ run a.c a.c
[undefined type a.c:1:76]
%%
type of another structure
@@ a.c
struct A { long l; int i; int j; };
struct B { int x; int y; };
int main(void) { struct A s = { 1, 7, 9 }; void *v = &s; struct B *u = v; return u->y; }
$ run a.c a.c
[undefined type a.c:3:82]
%%
type of a character
@@ a.c
int main(void) { int x = 1; void *v = &x; char *c = v; *c = 2; return x; }
$ run a.c a.c
[undefined type a.c:1:56]
%%
type of an array that decays
@@ a.c
int main(void) { int a[4] = { 0 }; void *v = a; int (*p)[2] = v; return *p == a; }
$ run a.c a.c
[undefined type a.c:1:73]
%%
const object
@@ a.c
int main(void) { const int x = 1; int *p = (int *)&x; *p = 2; return x; }
$ run a.c a.c
[undefined const a.c:1:55]
%%
const literal
@@ a.c
int main(void) { char *s = "abc"; s[0] = 'x'; return 0; }
$ run a.c a.c
[undefined const a.c:1:35]
%%
const member
@@ a.c
struct S { const int a; int b; };
int main(void) { struct S s = { 1, 2 }; s.b = 3; *(int *)&s.a = 4; return 0; }
$ run a.c a.c
[undefined const a.c:2:50]
%%
no value
@@ a.c
int f(int a)
{ if (a) return 1; }
int main(void) { f(1);
    f(0); return 0; }
$ run a.c a.c
[undefined novalue a.c:2:1]
%%
external function
@@ a.c
int putchar(int c);
int f(int a);
int main(void) { return f(putchar('a')); }
$ run a.c a.c
a[undefined external a.c:3:25]
%%
external object
@@ a.c
extern int x;
int main(void) { int n = sizeof x; return n + x; }
$ run a.c a.c
[undefined external a.c:2:47]
%%
external text
@@ a.c
int puts(const char *s);
extern const char t[4];
const char *p = t;
int main(void) { return puts(p); }
$ run a.c a.c
[undefined external a.c:4:25]
"#;

const FROM_THE_LEFT: &str = r#"no conflict where the read comes first
@@ a.c
int main(void) { int i = 3; return i + i++; }
$ run a.c a.c
[exit 6]
%%
read before a call
@@ a.c
int g = 1;
int f(void) { g = 5; return 0; }
int main(void) { return g + f(); }
$ run a.c a.c
[exit 1]
"#;

const BY_ORDER_0: &str = r#"arguments in order 0
@@ a.c
int putchar(int c);
int f(int a, int b, int c) { return b; }
int main(void) { return f(putchar('a'), putchar('b'), putchar('c')); }
$ run a.c a.c --order 0
abc[exit 98]
"#;

const BY_ORDER_1: &str = r#"conflict from the right
@@ a.c
int f(int a, int b) { return a + b; }
int main(void) { int i = 0; return f(i++, i++); }
$ run a.c a.c --order 1
[undefined conflict a.c:2:38]
%%
conflict where the read comes last
@@ a.c
int main(void) { int i = 3; return i + i++; }
$ run a.c a.c --order 1
[undefined conflict a.c:1:36]
%%
arguments in order 1
@@ a.c
int putchar(int c);
int f(int a, int b, int c) { return b; }
int main(void) { return f(putchar('a'), putchar('b'), putchar('c')); }
$ run a.c a.c --order 1
cba[exit 98]
%%
read after a call
@@ a.c
int g = 1;
int f(void) { g = 5; return 0; }
int main(void) { return g + f(); }
$ run a.c a.c --order 1
[exit 5]
%%
calls are not mixed
@@ a.c
int putchar(int c);
int f(int c) { putchar(c); putchar(c + 1); return 0; }
int main(void) { return f('a') + f('x'); }
$ run a.c a.c --order 1
xyab[exit 0]
%%
sequence points
@@ a.c
int putchar(int c);
int main(void) { int i = 0; i = (i++, i + 1); i = i++ ? i + 2 : 9; i = (i++ && i); return i + !!(putchar('a') || putchar('b')); }
$ run a.c a.c --order 1
a[exit 2]
%%
initialiser reads an element
@@ a.c
int main(void) { int a[3] = { 5, a[0] + 1 }; return a[0] + a[1] * 10 + a[2]; }
$ run a.c a.c --order 1
[exit 65]
"#;

const CALLS: &str = r#"carried dead pointer
@@ a.c
int *f(void) { int a; return &a; }
int *g(int *p) { return p; }
int main(void) { int *p = f(), *q; q = g(p); q; (void)p; return 4; }
$ run a.c a.c
[exit 4]
%%
store in a callee
@@ a.c
int i;
int f(void) { i = 4; return i + 1; }
int main(void) { i = f(); return i; }
$ run a.c a.c
[exit 5]
%%
argc and argv
@@ a.c
int main(int argc, char **argv) { return 4 * (argc == 0) + 2 * (argv[argc] == 0) + (argv + 1 != argv); }
$ run a.c a.c
[exit 7]
%%
status is a byte
@@ a.c
int main(void) { return -2; }
$ run a.c a.c
[exit 254]
%%
exit in an operand
@@ a.c
void exit(int status);
int f(int n) { if (n == 0) exit(300); return f(n - 1); }
int main(void) { return 1 + f(3) * 2; }
$ run a.c a.c
[exit 44]
%%
end of main
@@ a.c
int main(void) { 5; }
$ run a.c a.c
[exit 0]
%%
end of a function of const void
@@ a.c
const void f(void) {}
int main(void) { f(); return 0; }
$ run a.c a.c
[exit 0]
%%
inner end of main
@@ a.c
int n;
int main(void) { if (n++ == 0) return 7 + main(); }
$ run a.c a.c
[exit 7]
%%
no input
@@ a.c
int getchar(void);
int main(void) { return getchar() == -1; }
$ run a.c a.c
[exit 1]
%%
texts
@@ a.c
int puts(const char *s);
int main(void) { char s[6] = "ab" "c"; s[1] = '\x42'; puts(s); puts(""); return puts(&"\101\\"[0]) + sizeof "\0"; }
$ run a.c a.c
aBc

A\
[exit 2]
%%
recursion
@@ a.c
int f(int n) { return n == 0 ? 0 : 1 + f(n - 1); }
int main(void) { return f(300) == 300; }
$ run a.c a.c
[exit 1]
%%
structs by value
@@ a.c
struct S { int a, t[2]; };
struct S f(struct S s) { s.a++; s.t[1] += s.a; return s; }
int main(void) { struct S s = { 1, { 2, 3 } }, u; u = f(f(s)); return s.a + 10 * u.a + u.t[1]; }
$ run a.c a.c
[exit 39]
%%
const of elements apart
@@ a.c
int main(void) { int m[2][3] = { { 1, 2, 3 }, { 4, 5, 6 } }; void *v = m; const int (*p)[3] = v, (*q)[3] = p + 1; return (*q)[1] + (int)(q - p); }
$ run a.c a.c
[exit 6]
%%
part stored before its list begins
@@ a.c
int main(void) { struct { int x; int y[2]; } s = { s.y[0] = 3, { s.y[0] } }; return s.y[0]; }
$ run a.c a.c
[exit 3]
%%
initialisers
@@ a.c
struct P { int x, y[2]; char s[3]; } g[2] = { { 1, { 2 }, "ab" }, { 3 } };
int main(void) { int m[2][3] = { { 1 }, { 2, 3 } }, n[] = { 4, 5 }; struct P l = { 0 }; return g[0].y[0] * 100 + g[1].x * 10 + m[1][1] + m[0][2] + n[1] + l.y[1] + g[1].s[0] - 1 + (int)sizeof n - 8 + (g[0].s[1] == 'b'); }
$ run a.c a.c
[exit 238]
"#;

const STATEMENTS: &str = r#"switch with default in the middle
@@ a.c
int f(int k) { int n = 0; switch (k) { case 1: n += 1; case 2: n += 10; break; default: n += 100; case 3: n += 50; } return n; }
int main(void) { return f(1) + f(2) + f(3) + f(9) - 100; }
$ run a.c a.c
[exit 121]
%%
continue in a switch
@@ a.c
int main(void) { int s = 0; for (int i = 0; i < 5; i++) { switch (i) { case 1: continue; case 3: break; default: s += 10; } s++; } return s; }
$ run a.c a.c
[exit 34]
%%
case converted
@@ a.c
int main(void) { switch (4294967295u) { case -1: switch ((char)-1) { case 255: return 1; case -1: return 5; } } return 6; }
$ run a.c a.c
[exit 5]
%%
shadowed names
@@ a.c
int x = 1;
int f(int x) { { int x = 30; x++; } return x; }
int main(void) { int y = x; int x = 4; { int x = 5; y += x; { extern int x; y += x; } } for (int x = 0; x < 3; x++) { int x = 1; y += x; } return y * 10 + x + f(2); }
$ run a.c a.c
[exit 106]
%%
static locals
@@ a.c
int f(void) { static int n = 5; static int a[2]; a[1] += n; return n++ + a[1]; }
int main(void) { f(); f(); return f(); }
$ run a.c a.c
[exit 25]
%%
narrow kinds wrap
@@ a.c
int main(void) { signed char a = 127; unsigned char b = 0; short c = 32767; _Bool d = 0, e = 1; a++; b--; c += 2; d -= 1; return (a == -128) + 2 * (b == 255) + 4 * (c == -32767) + 8 * d + 16 * (e-- == 1); }
$ run a.c a.c
[exit 31]
%%
conversions
@@ a.c
int main(void) { return (-1 < 0u) + 2 * (-1L < 0u) + 4 * ((unsigned char)200 + 100 == 300) + 8 * ((_Bool)256) + 16 * ((char)200 < 0) + 32 * (0x80000000 > 0) + 64 * (-7 / 2 == -3 && -7 % 2 == -1 && -7 >> 1 == -4); }
$ run a.c a.c
[exit 126]
%%
pointers within an array
@@ a.c
int main(void) { int a[4] = { 1, 2, 3, 4 }, *p = a, *q = a + 4; int s = *p++ * 100; s += *--q * 10; return s + (q - p) + 4 * (p < q) + 8 * (&a[4] > q) + 16 * (p == &1[a]); }
$ run a.c a.c
[exit 170]
%%
equality of pointers
@@ a.c
struct S { int t[2], b; };
int main(void) { struct S s; int x, y; void *v = s.t, *w = &s; return (v == w) + 2 * (&x + 1 == &y) + 4 * (&x != &y) + 8 * (&s.t[2] - s.t == 2); }
$ run a.c a.c
[exit 13]
%%
equal literals
@@ a.c
const char *f(void) { return "abc"; }
int main(void) { return (f() == "a" "bc") + 2 * (f() != "abd"); }
$ run a.c a.c
[exit 3]
%%
sizeof evaluates nothing
@@ a.c
struct S { char c; long l; short s; };
int main(void) { int i = 1, *p = 0; return sizeof(i++) + sizeof *p + sizeof(1 / 0) + sizeof p[9] + sizeof(struct S) + i; }
$ run a.c a.c
[exit 41]
%%
own function of a primitive name
@@ a.c
int putchar(int c) { return c / 2; }
int main(void) { return putchar('T'); }
$ run a.c a.c
[exit 42]
%%
null plus zero
@@ a.c
int main(void) { int *p = 0, *q; p += 0; q = p - 0; return (p == q) + 2 * !p + 4 * (&*"" != 0); }
$ run a.c a.c
[exit 7]
"#;

#[test]
fn programs_run_as_c_says(rt: HostRuntime) -> Result<(), Fail> {
    check(&rt, FROM_THE_LEFT)?;
    check(&rt, BY_ORDER_0)?;
    check(&rt, BY_ORDER_1)?;
    check(&rt, CALLS)?;
    check(&rt, STATEMENTS)
}

#[test]
fn undefined_runs_end_where_the_fault_is(rt: HostRuntime) -> Result<(), Fail> {
    check(&rt, ARITHMETIC)?;
    check(&rt, CONFLICTS)?;
    check(&rt, POINTERS)?;
    check(&rt, OBJECTS)
}
