//! What programs do before and after their macros became declarations (ISO/IEC 9899:2011, 5.1.2.3, 6.5p3).

use super::cases::{call, check};
use super::{folder_with, numbers};
use dm_io::MemoryFolder;
use dm_token::Text;
use std::alloc::Global;
use std::process::Abort;
use std::test::Fail;

/// A folder with the program `a.c`.
fn folder_of(alloc: Global, program: &[u8]) -> Result<MemoryFolder, Fail> {
    let name = Text::new(alloc, "a.c")?;
    Ok(folder_with(alloc, numbers(alloc, &[])?, &name, program)?)
}

/// What a program puts under each of the first eight orders of evaluation.
fn outputs(alloc: Global, program: &[u8]) -> Result<Vec<Vec<u8>>, Fail> {
    let mut outputs = Vec::new(alloc);
    for order in 0..8_u8 {
        let line = format!(in alloc; "run a.c a.c --order {order}")?;
        let mut folder = folder_of(alloc, program)?;
        let ended = call(alloc, line.as_str(), &mut folder, numbers(alloc, &[])?)?;
        outputs.push(ended.output)?;
    }
    Ok(outputs)
}

/// The program that becomes of one.
fn rewritten(alloc: Global, program: &str) -> Result<Vec<u8>, Fail> {
    let mut folder = folder_of(alloc, program.as_bytes())?;
    let applied = call(alloc, "apply a.c", &mut folder, numbers(alloc, &[])?)?;
    if !applied.output.ends_with(b"rewritten 1 kept 0\n") {
        return Err(program.into());
    }
    let name = Text::new(alloc, "a.c")?;
    Ok(Vec::from_slice(alloc, folder.file(&name).unwrap_or(b""))?)
}

/// Whether each output of a program is among those of another one.
fn are_among(outputs: &[Vec<u8>], others: &[Vec<u8>]) -> bool {
    outputs.iter().all(|output| others.contains(output))
}

/// Whether a program and what becomes of it have the same outputs.
fn stays_the_same(alloc: Global, program: &str) -> Result<bool, Fail> {
    let before = outputs(alloc, program.as_bytes())?;
    let after = outputs(alloc, &rewritten(alloc, program)?)?;
    Ok(are_among(&before, &after) && are_among(&after, &before))
}

#[test]
fn rewritten_programs_do_what_they_did(rt: HostRuntime) -> Result<(), Fail> {
    for program in [
        "#include <stdio.h>\n#define SQ(x) ((x)*(x))\nint main(void) { putchar(SQ(6)+29); return 0; }\n",
        "#include <stdio.h>\n#define PUT(c) (putchar(c))\nint main(void) { PUT('a') + PUT('b') * PUT('c'); return 0; }\n",
        "int x, y;\nint f(void) { x = 9; return 1; }\n#define MAX(a,b) ((a)>(b)?(a):(b))\nint main(void) { int x = 1, y = 2; return MAX(x,y)+f(); }\n",
        "#define MAX(a,b) ((a)>(b)?(a):(b))\nint main(void) { int t[2] = {3, 4}, i = 1, b = 2, y; y = MAX(t[i], b); return y; }\n",
        "#define MAX(a,b) ((a)>(b)?(a):(b))\nint f(int a, int b, int c) { return MAX(MAX(a,b),c); }\nint main(void) { return f(1, 3, 2); }\n",
        "#include <stdio.h>\n#define CLAMP(x) ((x) < 0 ? \\\n  0 : ??/\n  (x)) // keep\nint main(void) { int v = 70; putchar(CLAMP(v)); return 0; }\n",
        "#define AND(a,b) ((a)&&(b))\nint main(void) { int k = 1; return AND(1, k); }\n",
        "int x = 1;\n#define ADD(a,b) ((a)+(b))\nint main(void) { return ADD(x, x = 2); }\n",
        "#define SET(p) (*(p) = 3, (void)0)\nint main(void) { int a = 1; SET(&a); return a; }\n",
        "#define N 4\nint t[N];\nint main(void) { t[N - 1] = N; switch (t[3]) { case N: return 1; } return 0; }\n",
        "#define U 10u\nint main(void) { return U - 11 > 0; }\n",
    ] {
        assert!(rt; stays_the_same(rt.alloc(), program)?, "{program}");
    }
    Ok(())
}

/// Programs `a.c` with a macro that breaks a rule on runs, and `b.c` with a declaration in its place, which does something else.
const KEPT: &str = r#"@@ a.c
#define ADD(a, b) a + b
int main(void) { return ADD(1, 2) * 3; }
@@ b.c
static inline int ADD(int a, int b) { return a + b; }
int main(void) { return ADD(1, 2) * 3; }
$ plan a.c
kept a.c:1 ADD rule 9 Subtree a.c:2:25
rewritten 0 kept 1
$ run a.c a.c
[exit 7]
$ run b.c b.c
[exit 9]
%%
@@ a.c
#define U 10u
int main(void) { switch (10) { case U: return 1; } return 0; }
@@ b.c
static const unsigned int U = 10u;
int main(void) { switch (10) { case U: return 1; } return 0; }
$ plan a.c
kept a.c:1 U rule 10 Constant a.c:2:37
rewritten 0 kept 1
$ run a.c a.c
[exit 1]
$ run b.c b.c => 3
b.c:2:37: refusal 17 Type C30
%%
@@ a.c
#define SET(v) ((v) = 1)
int main(void) { int a = 0; SET(a); return a; }
@@ b.c
static inline int SET(int v) { return ((v) = 1); }
int main(void) { int a = 0; SET(a); return a; }
$ plan a.c
kept a.c:1 SET rule 11 Lvalue a.c:2:29
rewritten 0 kept 1
$ run a.c a.c
[exit 1]
$ run b.c b.c
[exit 0]
%%
@@ a.c
#define HALF(x) ((x) / 2)
int main(void) { return HALF(6) + (HALF(0u - 2) < 0xffffffffu); }
@@ b.c
static inline int HALF(int x) { return ((x) / 2); }
int main(void) { return HALF(6) + (HALF(0u - 2) < 0xffffffffu); }
$ plan a.c
kept a.c:1 HALF rule 12 Type a.c:2:36
rewritten 0 kept 1
$ run a.c a.c
[exit 4]
$ run b.c b.c
[exit 3]
%%
@@ a.c
int g = 1;
#define INC(x) ((x) + g)
int f(int a) { return INC(a); }
int main(void) { int g = 2; return INC(f(4)) + g; }
@@ b.c
int g = 1;
static inline int INC(int x) { return ((x) + g); }
int f(int a) { return INC(a); }
int main(void) { int g = 2; return INC(f(4)) + g; }
$ plan a.c
kept a.c:2 INC rule 13 Capture a.c:4:36
rewritten 0 kept 1
$ run a.c a.c
[exit 9]
$ run b.c b.c
[exit 8]
%%
@@ a.c
#define SQ(x) ((x) * (x))
int k = 1;
int next(void) { k = k + 1; return k; }
int main(void) { return SQ(next()); }
@@ b.c
static inline int SQ(int x) { return ((x) * (x)); }
int k = 1;
int next(void) { k = k + 1; return k; }
int main(void) { return SQ(next()); }
$ plan a.c
kept a.c:1 SQ rule 14 Evaluation a.c:4:25
rewritten 0 kept 1
$ run a.c a.c
[exit 6]
$ run b.c b.c
[exit 4]
%%
@@ a.c
#define AND(a, b) ((a) && (b))
int main(void) { int z = 0; return AND(z, 1 / z); }
@@ b.c
static inline int AND(int a, int b) { return ((a) && (b)); }
int main(void) { int z = 0; return AND(z, 1 / z); }
$ plan a.c
kept a.c:1 AND rule 14 Evaluation a.c:2:36
rewritten 0 kept 1
$ run a.c a.c
[exit 0]
$ run b.c b.c
[undefined division b.c:2:43]
%%
@@ a.c
#define THEN(a, b) ((a), (b))
int main(void) { int k = 0; return THEN(k = 1, k); }
@@ b.c
static inline int THEN(int a, int b) { return ((a), (b)); }
int main(void) { int k = 0; return THEN(k = 1, k); }
$ plan a.c
kept a.c:1 THEN rule 14 Evaluation a.c:2:36
rewritten 0 kept 1
$ run a.c a.c
[exit 1]
$ run b.c b.c
[undefined conflict b.c:2:48]
"#;

#[test]
fn each_rule_on_runs_keeps_a_program_from_doing_something_else(
    rt: HostRuntime,
) -> Result<(), Fail> {
    check(&rt, KEPT)
}
