//! Calls of `run` on small programs.

use super::cases::check;
use std::test::Fail;

const ASKED: &str = r#"@@ a.c
#include <stdio.h>
int main(void) { putchar('a') + putchar('b'); return 0; }
$ run a.c a.c
ab[exit 0]
$ run a.c a.c --order 0
ab[exit 0]
$ run a.c a.c --order 1
ba[exit 0]
$ run --order=1 a.c a.c
ba[exit 0]
$ run a.c --order 1 a.c
ba[exit 0]
$ run a.c --steps=18446744073709551615 a.c --order 00000000000000000001
ba[exit 0]
%%
@@ a.c
int main(void) { return 0; }
$ run a.c a.c --steps 20
[exit 0]
$ run a.c a.c --steps 4
[exit 0]
$ run a.c a.c --steps 3
[steps]
$ run a.c a.c --steps 0
[steps]
%%
@@ a.c
int main(void) { for (;;) ; }
$ run a.c a.c --steps 10
[steps]
%%
@@ a.c
int putchar(int c);
int main(void) { while (putchar('x')) ; return 0; }
$ run a.c a.c --steps 9
xx[steps]
%%
@@ a.c
#include <stdio.h>
int main(void) { int c; while ((c = getchar()) != EOF) putchar(c); return getchar() + 2; }
@@ in
abc
$ run a.c a.c
[exit 1]
$ run a.c a.c --input in
abc
[exit 1]
$ run a.c a.c --input=in
abc
[exit 1]
$ run a.c a.c --input out => 2
manifest M8 out
$ run a.c a.c --input ../in => 2
manifest M8 ../in
$ run a.c b.c --input out => 2
manifest M7 b.c
$ run a.c a.c --input in => 5, folder 0
read fault in
$ run a.c a.c --input in => 5, folder 1
read fault a.c
"#;

#[test]
fn runs_as_it_is_asked(rt: HostRuntime) -> Result<(), Fail> {
    check(&rt, ASKED)
}

const REFUSED: &str = r#"@@ a.c
int a;
$ run a.c a.c => 3
a.c:1:1: refusal 19 NoMain
%%
@@ a.c


int main(void);
$ run a.c a.c => 3
a.c:1:1: refusal 19 NoMain
%%
@@ a.c
$ run a.c a.c => 3
a.c:1:1: refusal 19 NoMain
%%
@@ a.c
int a;
int main(void) { return b; }
$ run a.c a.c => 3
a.c:2:25: refusal 17 Type C1
%%
@@ a.c
int main(void) { return 08; }
$ run a.c a.c => 3
a.c:1:25: refusal 15 Constant
%%
@@ a.c
int main(void) { return 0 }
$ run a.c a.c => 3
a.c:1:1: refusal 16 Syntax
%%
@@ a.c
long main(void) { return 0; }
$ run a.c a.c => 3
a.c:1:6: refusal 17 Type C36
%%
@@ a.c
#if
$ run a.c a.c => 3
a.c:1:1: refusal 13 Condition
%%
$ run a.c a.c => 3
a.c:1:1: refusal 7 NotFound
%%
@@ a.c
int main(void) { return 300; }
@@ b.c
int b;
$ run a.c a.c
[exit 44]
$ run a.c a.c => 7, sink 0
$ run b.c b.c => 3, sink 0
"#;

#[test]
fn says_why_there_is_no_run(rt: HostRuntime) -> Result<(), Fail> {
    check(&rt, REFUSED)
}
