//! Worked units, each stop, and units at the limits.

ghost use Rattle.std.specs.Prelude.{◌≤◌, All, IsTrue, length};
ghost use Rattle.dm_token.specs.Limits.{source_length_limit as limit};

use crate::folders::add;
use dm_io::MemoryFolder;
use dm_search::Loader;
use dm_token::{List, Stop, Text, Token, Unit, UnitTokens, source_length_limit};
use dm_unit::unit_tokens;
use std::process::Abort;
use std::test::Fail;

/// The unit `a.c` with the include folder `inc` and one define.
fn unit<R: Abort + AllocGlobal>(rt: &R, define: &str) -> Result<Unit, Fail> {
    let mut include = List::new(rt.alloc());
    include.push(Text::new(rt.alloc(), "inc")?)?;
    let mut defines = List::new(rt.alloc());
    defines.push(Text::new(rt.alloc(), define)?)?;
    Ok(Unit {
        file: Text::new(rt.alloc(), "a.c")?,
        include,
        define: defines,
    })
}

/// Whether each define is no longer than a file.
pub fn are_short(defines: &[Text]) -> bool
    ensures { IsTrue result → All (λ define. length define ≤ limit) defines.now }
{
    defines
        .iter()
        .all(|define| define.bytes().len() <= source_length_limit())
}

/// The tokens of a unit.
fn tokens_of<R: Abort + AllocGlobal>(
    rt: &R,
    folder: &mut MemoryFolder,
    loader: &mut Loader,
    unit: &Unit,
) -> Result<UnitTokens, Stop> {
    assert!(rt; loader.names().len() < 10_000);
    assert!(rt; are_short(unit.define.items()));
    unit_tokens(rt.alloc(), folder, loader, unit)
}

/// Reads the unit of a folder, with the define `N=3`.
fn read<R: Abort + AllocGlobal>(
    rt: &R,
    folder: &mut MemoryFolder,
) -> Result<Result<UnitTokens, Stop>, Fail> {
    let mut loader = Loader::new(rt.alloc())?;
    let unit = unit(rt, "N=3")?;
    Ok(tokens_of(rt, folder, &mut loader, &unit))
}

/// A stop as text: a refusal with its place, or a limit with its file. The files of the folder have the numbers from 6 on.
fn stop_text<R: Abort + AllocGlobal>(rt: &R, stop: Stop) -> Result<String, Fail> {
    let text = match stop {
        Stop::Memory => format!(in rt.alloc(); "memory")?,
        Stop::Refused(refusal) => {
            let place = refusal.place;
            format!(in rt.alloc();
                "refusal {} {}:{}:{}",
                refusal.number, place.file, place.line, place.column
            )?
        }
        Stop::Limit(limit) => format!(in rt.alloc(); "limit {} {}", limit.number, limit.file)?,
        Stop::ReadFault(file) => format!(in rt.alloc(); "fault {file}")?,
    };
    Ok(text)
}

/// The spellings of tokens, each with a space before it.
fn spelled<R: Abort + AllocGlobal>(rt: &R, tokens: &[Token]) -> Result<Vec<u8>, Fail> {
    let mut text = Vec::new(rt.alloc());
    for token in tokens {
        text.push(b' ')?;
        text.extend_from_slice(token.pp.spelling.bytes())?;
    }
    Ok(text)
}

/// The spellings of a unit's tokens, or its stop.
fn shown<R: Abort + AllocGlobal>(rt: &R, folder: &mut MemoryFolder) -> Result<Vec<u8>, Fail> {
    match read(rt, folder)? {
        Ok(tokens) => spelled(rt, tokens.tokens.items()),
        Err(stop) => Ok(stop_text(rt, stop)?.into_bytes()),
    }
}

/// Headers, each behind a line with its name.
const HEADERS: &str = r#"h.h
#define TWICE(x) ((x)+(x))
h
== o.h
#pragma once
o
== inc/i.h
#if 1
i
== s.h
s \
== c.h
c /*
"#;

/// Adds a header, which stands behind its name.
fn add_header<R: Abort + AllocGlobal>(
    rt: &R,
    folder: &mut MemoryFolder,
    header: &str,
) -> Result<(), Fail> {
    let Some((name, text)) = header.split_once('\n') else {
        panic!(rt; "no name of {header}");
    };
    add(rt, folder, name, text.as_bytes())
}

/// The folder of a project, with the main file `a.c` and the headers.
fn project<R: Abort + AllocGlobal>(rt: &R, main: &str) -> Result<MemoryFolder, Fail> {
    let mut folder = MemoryFolder::new(rt.alloc(), List::new(rt.alloc()));
    add(rt, &mut folder, "a.c", main.as_bytes())?;
    for header in HEADERS.split("== ") {
        add_header(rt, &mut folder, header)?;
    }
    Ok(folder)
}

/// Checks a row: a main file, and behind an arrow what its unit gives.
fn expect_row<R: Abort + AllocGlobal>(rt: &R, row: &str) -> Result<(), Fail> {
    let Some((main, wanted)) = row.split_once("=>") else {
        panic!(rt; "no arrow in {row}");
    };
    let mut folder = project(rt, main)?;
    let text = shown(rt, &mut folder)?;
    assert!(rt; text.as_slice() == wanted.as_bytes(), "{main}");
    Ok(())
}

/// Checks rows, between which stand empty lines.
fn expect_shown<R: Abort + AllocGlobal>(rt: &R, rows: &str) -> Result<(), Fail> {
    for row in rows.split("\n\n") {
        expect_row(rt, row)?;
    }
    Ok(())
}

/// Main files, and behind the arrow the tokens of the unit or its stop.
const DONE: &str = r#"=>

#include "h.h"
int f(int k) { return TWICE(k); }
=> h int f ( int k ) { return ( ( k ) + ( k ) ) ; }

#if 0
don't
#foo
#if
#endif
#else
int a;
#endif
=> int a ;

#if 1
a
#elif 1/0
b
#else
c
#endif
=> a

#if N > 2 && defined(N) && !defined M
N
#endif
=> 3

#undef N
#ifdef N
a
#elif defined __LINE__
N __LINE__ __FILE__
#endif
#
=> N 5 "a.c"

#include <o.h>
=>refusal 7 6:1:1

#include "o.h"
#include "o.h"
#include <stdbool.h>
#include <stdbool.h>
true
=> o 1"#;

#[test]
fn directives_are_done(rt: HostRuntime) -> Result<(), Fail> {
    expect_shown(&rt, DONE)
}

/// Main files whose units stop, and where.
const STOPPING: &str = r#"#endif
=>refusal 6 6:1:1

#if 1
#else
#else
#endif
=>refusal 6 6:3:1

#if 0
#else
#elif 1/0
#endif
=>refusal 6 6:3:1

x
#include <i.h>
=>refusal 6 7:1:1

#include "a.c"
=>limit 4 6

#define F(x) x
int a = F(1=>refusal 9 6:2:9

#define F(x) x
F(
#define A
)
=>refusal 9 6:2:1

int a; /* x=>refusal 2 6:1:8

#if 0
#include "c.h"
#endif
#include "c.h"
=>refusal 2 7:1:3

#include "s.h"
=>refusal 8 7:1:3

#include
=>refusal 4 6:1:1

#include N
=>refusal 18 6:1:1

#include "a" "b"
=>refusal 7 6:1:1

 # line 3
=>refusal 18 6:1:2

#pragma once x
=>refusal 18 6:1:1

#error N
=>refusal 14 6:1:1

#foo
=>refusal 4 6:1:1

# 3
=>refusal 4 6:1:1

#undef defined
=>refusal 4 6:1:1

#if
=>refusal 13 6:1:1

#if defined
=>refusal 13 6:1:1

#define N 4
=>refusal 12 6:1:9

#define __LINE__ 4
=>refusal 5 6:1:1"#;

#[test]
fn stops_come_in_the_order_of_reading(rt: HostRuntime) -> Result<(), Fail> {
    expect_shown(&rt, STOPPING)
}

#[test]
fn an_absent_main_file_is_refused(rt: HostRuntime) -> Result<(), Fail> {
    let mut folder = MemoryFolder::new(rt.alloc(), List::new(rt.alloc()));
    assert!(rt; shown(&rt, &mut folder)?.as_slice() == b"refusal 7 6:1:1".as_slice());
    Ok(())
}

/// A text several times.
fn repeated<R: Abort + AllocGlobal>(rt: &R, text: &str, count: usize) -> Result<Vec<u8>, Fail> {
    let mut bytes = Vec::new(rt.alloc());
    for _ in 0..count {
        bytes.extend_from_slice(text.as_bytes())?;
    }
    Ok(bytes)
}

/// What the unit of one repeated line and one more gives, where `h.h` is guarded.
fn shown_repeated<R: Abort + AllocGlobal>(
    rt: &R,
    line: &str,
    count: usize,
    last: &str,
) -> Result<Vec<u8>, Fail> {
    let mut main = repeated(rt, line, count)?;
    main.extend_from_slice(last.as_bytes())?;
    let mut folder = MemoryFolder::new(rt.alloc(), List::new(rt.alloc()));
    add(rt, &mut folder, "a.c", &main)?;
    add(rt, &mut folder, "h.h", b"#ifndef H\n#define H\nh\n#endif\n")?;
    shown(rt, &mut folder)
}

/// Checks what the unit of one repeated line gives.
fn expect_repeated<R: Abort + AllocGlobal>(
    rt: &R,
    line: &str,
    count: usize,
    wanted: &[u8],
) -> Result<(), Fail> {
    let text = shown_repeated(rt, line, count, "")?;
    assert!(rt; text.as_slice() == wanted, "{line}");
    Ok(())
}

#[test]
fn inclusions_are_counted(rt: HostRuntime) -> Result<(), Fail> {
    expect_repeated(&rt, "#include \"h.h\"\n", 16_385, b"limit 9 6")
}

#[test]
fn sections_nest(rt: HostRuntime) -> Result<(), Fail> {
    expect_repeated(&rt, "#if 1\n", 170_000, b"refusal 6 6:170000:1")
}
