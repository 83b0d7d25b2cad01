//! The runs of worked units, each in a line of its own behind the name of its macro: the number of the expansion and its tokens, and
//! then each parameter's occurrence and its tokens.

use crate::units::are_short;
use dm_ctok::ctokens;
use dm_io::MemoryFolder;
use dm_runs::{Occurrence, Run, Runs};
use dm_search::Loader;
use dm_token::{CToken, Definition, List, Memory, Origin, Stop, Text, Unit, UnitTokens};
use dm_unit::unit_tokens;
use std::alloc::Global;
use std::process::Abort;
use std::test::Fail;

/// Adds a file to a folder, where there is none of its name.
fn add(alloc: Global, folder: &mut MemoryFolder, name: &str, text: &str) -> Result<(), Memory> {
    let name = Text::new(alloc, name)?;
    match folder.file(&name) {
        None => folder.add(&name, text.as_bytes()),
        Some(_) => Ok(()),
    }
}

/// A folder with this main file and `n.h`.
fn folder_of(alloc: Global, main: &str) -> Result<MemoryFolder, Memory> {
    let mut folder = MemoryFolder::new(alloc, List::new(alloc));
    add(alloc, &mut folder, "a.c", main)?;
    add(alloc, &mut folder, "n.h", "#define N 2\n")?;
    Ok(folder)
}

/// The unit of the main file.
fn unit_of(alloc: Global) -> Result<Unit, Memory> {
    let file = Text::new(alloc, "a.c")?;
    Ok(Unit {
        file,
        include: List::new(alloc),
        define: List::new(alloc),
    })
}

/// The tokens of phase 4 of a unit. A loader with many names, or a long define, counts as want of memory.
fn tokens_of(
    alloc: Global,
    folder: &mut MemoryFolder,
    loader: &mut Loader,
    unit: &Unit,
) -> Result<UnitTokens, Stop> {
    if loader.names().len() >= 10_000 || !are_short(unit.define.items()) {
        return Err(Stop::Memory);
    }
    unit_tokens(alloc, folder, loader, unit)
}

/// The tokens of phase 4 of the unit with this main file, which may include `n.h`.
fn read(alloc: Global, main: &str) -> Result<UnitTokens, Stop> {
    let mut folder = folder_of(alloc, main)?;
    let unit = unit_of(alloc)?;
    let mut loader = Loader::new(alloc)?;
    tokens_of(alloc, &mut folder, &mut loader, &unit)
}

/// Puts the number of a run and its tokens.
fn put_head(alloc: Global, text: &mut Vec<u8>, run: &Run) -> Result<(), Memory> {
    let tokens = format!(in alloc; " {}:{}-{}", run.instance, run.span.first, run.span.after)?;
    text.extend_from_slice(tokens.as_bytes())?;
    Ok(())
}

/// Puts an occurrence of a parameter and its tokens.
fn put_occurrence(alloc: Global, text: &mut Vec<u8>, one: &Occurrence) -> Result<(), Memory> {
    let tokens = format!(in alloc;
        " {}.{}:{}-{}",
        one.parameter, one.occurrence, one.span.first, one.span.after
    )?;
    text.extend_from_slice(tokens.as_bytes())?;
    Ok(())
}

/// Puts a run behind others.
fn put_run(alloc: Global, text: &mut Vec<u8>, name: &Text, run: &Run) -> Result<(), Memory> {
    text.push(b'\n')?;
    text.extend_from_slice(name.bytes())?;
    put_head(alloc, text, run)?;
    for one in run.occurrences.items() {
        put_occurrence(alloc, text, one)?;
    }
    Ok(())
}

/// Puts the runs of a definition, if it stands in a file.
fn put_definition(
    alloc: Global,
    text: &mut Vec<u8>,
    runs: &Runs,
    definition: &Definition,
) -> Result<(), Memory> {
    if matches!(definition.origin, Origin::File) {
        for run in runs.of_definition(definition.place.file, definition.hash) {
            put_run(alloc, text, &definition.name, run)?;
        }
    }
    Ok(())
}

/// Puts the runs of all definitions, in the order of reading.
fn put_runs(alloc: Global, text: &mut Vec<u8>, pp: &UnitTokens, runs: &Runs) -> Result<(), Memory> {
    for read in pp.read.items() {
        put_definition(alloc, text, runs, &read.definition)?;
    }
    Ok(())
}

/// The runs of all definitions in words.
fn shown(alloc: Global, pp: &UnitTokens, tokens: &[CToken]) -> Result<Vec<u8>, Memory> {
    let runs = Runs::of(alloc, pp, tokens)?;
    let mut text = Vec::new(alloc);
    put_runs(alloc, &mut text, pp, &runs)?;
    Ok(text)
}

/// The runs in the unit with this main file, in words.
fn shown_of(alloc: Global, main: &str) -> Result<Vec<u8>, Stop> {
    let pp = read(alloc, main)?;
    let tokens = ctokens(alloc, pp.tokens.items())?;
    Ok(shown(alloc, &pp, tokens.items())?)
}

/// Checks a row: a main file, and behind an arrow the runs in its unit.
fn expect_row<R: Abort + AllocGlobal>(rt: &R, row: &str) -> Result<(), Fail> {
    let Some((main, wanted)) = row.split_once("=>") else {
        panic!(rt; "no arrow in {row}");
    };
    let text = shown_of(rt.alloc(), main)?;
    assert!(rt; text.as_slice() == wanted.as_bytes(), "{main}");
    Ok(())
}

/// Main files, between which stand empty lines, and the runs in their units: one inside another, in each of two occurrences; one that
/// begins and ends with another; an occurrence in parentheses; what is empty; string literals that are joined with one outside, and
/// with each other alone; a macro twice on the trail of one token; two definitions of one name, in two files at the same byte.
const ROWS: &str = r#"#define MAX(a,b) ((a)>(b)?(a):(b))
int f(int a, int b, int c) { return MAX(MAX(a,b),c); }
=>
MAX 0:14-63 0.0:16-33 1.0:36-37 0.1:40-57 1.1:60-61
MAX 1:16-33 0.0:18-19 1.0:22-23 0.1:26-27 1.1:30-31
MAX 2:40-57 0.0:42-43 1.0:46-47 0.1:50-51 1.1:54-55

#define ID(x) x
#define TWO ID(2)
int a = TWO;
=>
ID 1:3-4 0.0:3-4
TWO 0:3-4

#define SQ(x) ((x)*(x))
int a = SQ(1+2);
=>
SQ 0:3-16 0.0:5-8 0.1:11-14

#define E
#define F(x,y) (x+y)
#define G(x) (1)x
int a = F(,1) E, b = G();
=>
F 0:3-7 0.0:4-4 1.0:5-6
G 2:10-13 0.0:13-13

#define S "b"
#define T "x" "y"
char *p = "a" S "c", *q = T;
=>
S 0:4-4
T 1:9-10

#define ID(x) x
int a = ID(ID(1));
=>
ID 0:3-4 0.0:3-4
ID 1:3-4 0.0:3-4

#define N 1
int a = N;
#undef N
#include "n.h"
int b = N;
=>
N 0:3-4
N 1:8-9"#;

#[test]
fn runs_stand_where_their_tokens_do(rt: HostRuntime) -> Result<(), Fail> {
    for row in ROWS.split("\n\n") {
        expect_row(&rt, row)?;
    }
    Ok(())
}

/// The main file of the next test.
const SQUARE: &str = "#define SQ(x) ((x)*(x))\nint a = SQ(1+2);\n";

/// Swaps tokens, if there are so many.
fn swap_all(tokens: &mut [CToken], swaps: &[(usize, usize)]) {
    for (one, other) in swaps {
        if *one < tokens.len() && *other < tokens.len() {
            tokens.swap(*one, *other);
        }
    }
}

/// The runs of that file where tokens are swapped, in words, and behind them the number of its tokens.
fn shown_swapped(alloc: Global, swaps: &[(usize, usize)]) -> Result<Vec<u8>, Stop> {
    let pp = read(alloc, SQUARE)?;
    let mut tokens = ctokens(alloc, pp.tokens.items())?.into_vec();
    swap_all(tokens.as_mut_slice(), swaps);
    let mut text = shown(alloc, &pp, tokens.as_slice())?;
    put_count(alloc, &mut text, tokens.len())?;
    Ok(text)
}

/// Puts a number.
fn put_count(alloc: Global, text: &mut Vec<u8>, count: usize) -> Result<(), Memory> {
    let words = format!(in alloc; " of {count}")?;
    text.extend_from_slice(words.as_bytes())?;
    Ok(())
}

/// Checks the runs of that file where tokens are swapped.
fn expect_swapped<R: Abort + AllocGlobal>(
    rt: &R,
    swaps: &[(usize, usize)],
    wanted: &str,
) -> Result<(), Fail> {
    let text = shown_swapped(rt.alloc(), swaps)?;
    assert!(rt; text.as_slice() == wanted.as_bytes(), "{wanted}");
    Ok(())
}

/// Where tokens of a run were put among others, it has none, nor have its occurrences; where only those of an occurrence were, only
/// that has none.
#[test]
fn scattered_tokens_have_no_span(rt: HostRuntime) -> Result<(), Fail> {
    expect_swapped(&rt, &[(6, 9)], "\nSQ 0:3-16 0.0:5-5 0.1:11-14 of 17")?;
    expect_swapped(&rt, &[(6, 9), (6, 16)], "\nSQ 0:3-3 0.0:3-3 0.1:3-3 of 17")
}
