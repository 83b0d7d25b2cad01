//! Calls on files that nest or repeat something as often as they may, and once more, and on files that are cut.

use super::cases::{check, status_of};
use super::planning::PROJECT;
use std::process::Abort;
use std::test::Fail;

const NESTED: &str = r#"@@ a.c
int a =
@510 - |1;
$ plan a.c
rewritten 0 kept 0
%%
@@ a.c
int a =
@511 - |1;
$ plan a.c => 3
a.c:1:1: refusal 16 Syntax
%%
@@ a.c
int a =
@1000 (|1
@1000 )|;
$ plan a.c => 3
a.c:1:1: refusal 16 Syntax
"#;

const FILES: &str = r#"so many files are open at once
@@ a.c
#include "h1.h"
@63 @@ h{n}.h\n#include "h{n+1}.h"\n|@@ h64.h
$ plan a.c
rewritten 0 kept 0
%%
@@ a.c
#include "h1.h"
@64 @@ h{n}.h\n#include "h{n+1}.h"\n|@@ h65.h
$ plan a.c => 4
limit L4 a.c
%%
so many files are read
@@ a.c
@4095 #include "h{n}.h"\n|
@4095 @@ h{n}.h\n|
$ plan a.c
rewritten 0 kept 0
%%
@@ a.c
@4096 #include "h{n}.h"\n|
@4096 @@ h{n}.h\n|
$ plan a.c => 4
limit L6 h4096.h
%%
so many directives include
@@ a.c
@16384 #include "e.h"\n|
@@ e.h
$ plan a.c
rewritten 0 kept 0
%%
@@ a.c
@16385 #include "e.h"\n|
@@ e.h
$ plan a.c => 4
limit L9 a.c
"#;

const BYTES: &str = r#"a file has so many bytes
@@ a.c
@1048575  |
$ apply a.c
rewritten 0 kept 0
%%
@@ a.c
@1048576  |
$ apply a.c => 4
limit L1 a.c
%%
a file would grow too long
@@ a.c
int putchar(int c);
#define N 65
int main(void) { putchar(N + 1); return 0; }
@1048497  |
$ apply a.c
kept a.c:2 N rule 15 Reread a.c:2:9
rewritten 0 kept 1
"#;

const MANY: &str = r#"so many definitions are judged
@@ a.c
@4096 #define A{n} 0\n|
$ plan a.c
@4096 kept a.c:{n} A{n} rule 4 Unused a.c:{n}:9\n|rewritten 0 kept 4096
%%
@@ a.c
@4096 #define A{n} 0\n|#define B 0
$ plan a.c => 4
limit L8 a.c
%%
a project has so many units
@@ m.json
{"units":[
@255 {"file":"a.c","define":["D={n}"]},|{"file":"a.c"}]}
@@ a.c
int a;
$ plan m.json
rewritten 0 kept 0
%%
@@ m.json
{"units":[
@256 {"file":"a.c","define":["D={n}"]},|{"file":"a.c"}]}
@@ a.c
int a;
$ plan m.json => 4
limit L7 m.json
"#;

const TOKENS: &str = r#"units have so many tokens together
@@ m.json
{"units":[
@7 {"file":"{n}.c"},|{"file":"8.c"}]}
@8 @@ {n}.c\nchar *s =\n#include "s.h"\n;\n|
@@ s.h
@499995 ""|
$ plan m.json
rewritten 0 kept 0
%%
@@ m.json
{"units":[
@7 {"file":"{n}.c"},|{"file":"8.c"}]}
@8 @@ {n}.c\nchar *s =\n#include "s.h"\n;\n|
@@ s.h
@499996 ""|
$ plan m.json => 4
limit L10 8.c
%%
so many tokens are made
@@ a.c
#define D1 0
@19 #define D{n+1} D{n} D{n}\n|D20
$ expand a.c a.c
@524287 0 |0
%%
@@ a.c
#define D1 0
@20 #define D{n+1} D{n} D{n}\n|D21
$ expand a.c a.c => 4
limit L2 a.c
%%
@@ a.c
#define D1 0
@22 #define D{n+1} D{n} D{n}\n|D23
$ expand a.c a.c => 4
limit L3 a.c
"#;

#[test]
fn expressions_nest_so_deep(rt: HostRuntime) -> Result<(), Fail> {
    check(&rt, NESTED)
}

#[test]
fn files_are_so_many(rt: HostRuntime) -> Result<(), Fail> {
    check(&rt, FILES)
}

#[test]
fn files_are_so_long(rt: HostRuntime) -> Result<(), Fail> {
    check(&rt, BYTES)
}

#[test]
fn definitions_and_units_are_so_many(rt: HostRuntime) -> Result<(), Fail> {
    check(&rt, MANY)
}

#[test]
fn tokens_are_so_many(rt: HostRuntime) -> Result<(), Fail> {
    check(&rt, TOKENS)
}

#[test]
fn a_file_that_is_cut_is_read_or_refused(rt: HostRuntime) -> Result<(), Fail> {
    let (files, _calls) = PROJECT.split_once("$ ").ok_or("no call")?;
    let (_front, last) = files.split_once("@@ main.c\n").ok_or("no last file")?;
    assert!(rt; !last.is_empty());
    for left in 1..=last.len() {
        if let Some(cut) = files.get(..files.len().saturating_sub(left)) {
            let status = status_of(&rt, "apply m.json", cut)?;
            assert!(rt; status == 0 || status == 3, "{left}");
        }
    }
    Ok(())
}
