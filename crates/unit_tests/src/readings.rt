//! Readings of units by `read_unit`, from a folder in memory: worked units, which stop comes first, and what the loader knows behind one.

ghost use Rattle.std.specs.Prelude.{◌≡◌, ◌+◌, ◌<◌, [], IfOk, OnOk};
ghost use Rattle.dm_tree.specs.TypeNumbers.{IsTypedUnit};

use crate::entries::entries;
use crate::typing::TypedUnit;
use dm_io::{Folder, MemoryFolder};
use dm_read::{Steps, read_unit};
use dm_reading::Reading;
use dm_search::Loader;
use dm_token::{List, Stop, Text, Unit};
use std::alloc::Global;
use std::fmt::Write;
use std::marker::Brand;
use std::process::Abort;
use std::sync::ledger::{Blank, Ledger};
use std::test::Fail;

/// Adds a file to a folder.
fn add(alloc: Global, folder: &mut MemoryFolder, name: &str, text: &str) -> Result<(), Fail> {
    let name = Text::new(alloc, name)?;
    if folder.file(&name).is_some() {
        return Err("two files of one name".into());
    }
    folder.add(&name, text.as_bytes())?;
    Ok(())
}

/// A folder of files, each a name and a text, whose reading of this number fails.
fn folder_of(alloc: Global, files: &[(&str, &str)], failing: u32) -> Result<MemoryFolder, Fail> {
    let mut numbers = List::new(alloc);
    numbers.push(failing)?;
    let mut folder = MemoryFolder::new(alloc, numbers);
    for (name, text) in files {
        add(alloc, &mut folder, name, text)?;
    }
    Ok(folder)
}

/// A unit without include folders and definitions of its own.
fn unit_of(alloc: Global, file: Text) -> Unit
    ensures { result.define ≡ [] }
{
    Unit {
        file,
        include: List::new(alloc),
        define: List::new(alloc),
    }
}

/// What a unit that was read declares.
fn declared(alloc: Global, reading: Reading) -> Result<String, Fail>
    requires { IsTypedUnit reading.types reading.core }
{
    let Reading {
        unit: _,
        pp: _,
        tokens: _,
        syntax: _,
        core,
        types,
    } = reading;
    let made = TypedUnit { unit: core, types };
    entries(alloc, &made)
}

/// A stop: the refusal, with the typing rule or 0, and its place; or the limit or the fault, and the file.
fn stop_words(alloc: Global, stop: Stop) -> Result<String, Fail> {
    let mut out = String::new(alloc);
    match stop {
        Stop::Memory => out.push_str("memory")?,
        Stop::Refused(refusal) => {
            let place = refusal.place;
            write!(out, "refusal {} rule {} ", refusal.number, refusal.detail)?;
            write!(out, "at {}:{}:{}", place.file, place.line, place.column)?;
        }
        Stop::Limit(limit) => write!(out, "limit {} at {}", limit.number, limit.file)?,
        Stop::ReadFault(file) => write!(out, "fault at {file}")?,
    }
    Ok(out)
}

/// What a reading gave.
fn given_words(alloc: Global, given: Result<Reading, Stop>) -> Result<String, Fail>
    requires { IfOk given (λ reading. IsTypedUnit reading.types reading.core) }
{
    match given {
        Ok(reading) => declared(alloc, reading),
        Err(stop) => stop_words(alloc, stop),
    }
}

/// What the unit of a file declares, or why its reading stops. It counts as one reading.
fn shown<F: Folder, L: Ledger>(
    alloc: Global,
    folder: &mut F,
    loader: &mut Loader,
    file: Text,
    readings: &mut Steps<L>,
) -> Result<String, Fail>
    ensures { OnOk result (readings.new ≡ readings.old + 1) }
{
    let unit = unit_of(alloc, file);
    if loader.names().len() > 10_000 {
        return Err("too many names".into());
    }
    let given = read_unit(alloc, folder, loader, &unit, readings);
    given_words(alloc, given)
}

/// What two units give that are read one after the other, and how many names there are then. They count as two readings, whatever they
/// give.
fn shown_in_turn<F: Folder, L: Ledger>(
    alloc: Global,
    folder: &mut F,
    first: Text,
    second: Text,
    readings: &mut Steps<L>,
) -> Result<String, Fail>
    ensures { OnOk result (readings.new ≡ readings.old + 2) }
{
    let mut loader = Loader::new(alloc)?;
    let before = shown(alloc, folder, &mut loader, first, readings)?;
    let behind = shown(alloc, folder, &mut loader, second, readings)?;
    let names = loader.names().len();
    Ok(format!(in alloc; "{before}\n{behind}\n{names} names")?)
}

/// The same, counted in a new ledger.
fn counted_in_turn<F: Folder, L: Ledger>(
    alloc: Global,
    folder: &mut F,
    first: Text,
    second: Text,
    blank: Blank,
) -> Result<String, Fail>
    requires name { blank.name ≡ L.name }
    requires parts { blank.parts ≡ L.parts }
    requires some { 0 < L.parts }
{
    let mut readings = Steps::<L>::new(blank);
    shown_in_turn(alloc, folder, first, second, &mut readings)
}

/// The same, where nobody asks for the count.
fn in_turn<F: Folder>(
    alloc: Global,
    folder: &mut F,
    first: &str,
    second: &str,
) -> Result<String, Fail> {
    let first = Text::new(alloc, first)?;
    let second = Text::new(alloc, second)?;
    let blank = Blank::new(1);
    counted_in_turn::<F, Brand>(alloc, folder, first, second, blank)
}

// A project of two units. The files of the folder have the numbers from 6 on.
const PROJECT: [(&str, &str); 3] = [
    (
        "util.h",
        r#"#ifndef UTIL_H
#define UTIL_H
#define BUF_SIZE 64
#define NEWLINE '\n'
#define LIMIT 200u
#define ABS(v) ((v) < 0 ? -(v) : (v))
#define MIN(a, b) ((a) < (b) ? (a) : (b))
#define IS_DIGIT(c) ((c) >= '0' && (c) <= '9')
#define PUT(c) putchar(c)
#define LOG(...) puts(__VA_ARGS__)
#define DEBUG 0
#define NAME "util"
int length(const char *s);
#endif
"#,
    ),
    (
        "util.c",
        r#"#include "util.h"
int length(const char *s) {
    int n = 0;
    while (s[n] && n < BUF_SIZE) n++;
    return MIN(n, BUF_SIZE);
}
"#,
    ),
    (
        "main.c",
        r#"#include <stdio.h>
#include "util.h"
static char buf[BUF_SIZE];
int main(void) {
    int c, n = 0, d = 0;
    unsigned int total = 0;
    while ((c = getchar()) != EOF && n < BUF_SIZE - 1) {
        if (IS_DIGIT(c)) d++;
        buf[n++] = (char)c;
        total += ABS(c);
        if (total > LIMIT) break;
    }
#if DEBUG
    puts(NAME);
#endif
    LOG("done");
    PUT('0' + MIN(n, 9));
    PUT(NEWLINE);
    return MIN(d, length(buf));
}
"#,
    ),
];

// What each unit declares. Each file of the folder is read once, so a fourth reading, which would fail, doesn't come.
const PROJECT_ENTRIES: &str =
    r#"object int c at 17 ; external function int putchar(int) at 5 ; external function int getchar(void) at 5 ; object const char *s at 22 ; external function int puts(const char *) at 5 ; typedef unsigned long size_t at 23 ; object const char *s at 24 ; external function int length(const char *) at 5 ; internal object char buf[64] at 13 ; external function int main(void) at 5 ; object int c at 9 ; object int n at 12 ; object int d at 19 ; object unsigned int total at 18
object const char *s at 24 ; external function int length(const char *) at 5 ; object const char *s at 24 ; object int n at 9
9 names"#;

#[test]
fn units_of_a_project_are_read(rt: HostRuntime) -> Result<(), Fail> {
    let mut folder = folder_of(rt.alloc(), &PROJECT, 3)?;
    assert_eq!(rt;
        in_turn(rt.alloc(), &mut folder, "main.c", "util.c")?.as_str(),
        PROJECT_ENTRIES
    );
    Ok(())
}

// Files that are refused, each with its stop: typing waits for syntax, syntax for the tokens, and those for phases 1 to 4.
const STOPS: [(&str, &str); 14] = [
    ("#endif\n", "refusal 6 rule 0 at 6:1:1"),
    ("int c = 08;\n", "refusal 15 rule 0 at 6:1:9"),
    ("int );\n", "refusal 16 rule 0 at 6:1:1"),
    ("int a = b;\n", "refusal 17 rule 1 at 6:1:9"),
    (
        "int a = b;\nint );\nint c = 08;\n/* x\n",
        "refusal 2 rule 0 at 6:4:1",
    ),
    (
        "int a = b;\nint );\nint c = 08;\n#include \"no.h\"\n",
        "refusal 7 rule 0 at 6:4:1",
    ),
    (
        "int a = b;\nint );\nint c = 08;\n#endif\n",
        "refusal 6 rule 0 at 6:4:1",
    ),
    (
        "int a = b;\nint );\nint c = 08;\n",
        "refusal 15 rule 0 at 6:3:9",
    ),
    (
        "int a = b;\nint );\nfloat x;\n",
        "refusal 18 rule 0 at 6:3:1",
    ),
    ("int a = b;\nint );\n", "refusal 16 rule 0 at 6:2:1"),
    (
        "int a; int f(void) { return b; } long a;\n",
        "refusal 17 rule 1 at 6:1:29",
    ),
    ("int f(void) { break; }\n", "refusal 17 rule 33 at 6:1:15"),
    (
        "static int g(void); int f(void) { return g(); }\n",
        "refusal 17 rule 37 at 6:1:42",
    ),
    ("int a; long a;\n", "refusal 17 rule 2 at 6:1:13"),
];

/// The first file whose reading doesn't stop so, or not so for the second time. Empty where there is none.
fn first_other(alloc: Global) -> Result<String, Fail> {
    for (text, stop) in &STOPS {
        let mut folder = folder_of(alloc, &[("a.c", text)], 99)?;
        let line = in_turn(alloc, &mut folder, "a.c", "a.c")?;
        let wanted = format!(in alloc; "{stop}\n{stop}\n7 names")?;
        if line.as_str() != wanted.as_str() {
            return Ok(format!(in alloc; "{text} => {line}")?);
        }
    }
    Ok(String::new(alloc))
}

#[test]
fn the_first_layer_that_stops_decides(rt: HostRuntime) -> Result<(), Fail> {
    assert_eq!(rt; first_other(rt.alloc())?.as_str(), "");
    Ok(())
}

// Two units with one header, of which the first isn't typed.
const SHARED: [(&str, &str); 3] = [
    ("h.h", "enum { H = 2 };\n"),
    ("a.c", "#include \"h.h\"\nint a = b;\n"),
    ("c.c", "#include \"h.h\"\nint c[H];\n"),
];

/// Reads two units of that folder in turn, where the reading of this number fails.
fn shared(alloc: Global, failing: u32, first: &str, second: &str) -> Result<String, Fail> {
    let mut folder = folder_of(alloc, &SHARED, failing)?;
    in_turn(alloc, &mut folder, first, second)
}

#[test]
fn files_stay_loaded_behind_a_stop(rt: HostRuntime) -> Result<(), Fail> {
    assert_eq!(rt;
        shared(rt.alloc(), 2, "a.c", "a.c")?.as_str(),
        "refusal 17 rule 1 at 6:2:9\nrefusal 17 rule 1 at 6:2:9\n8 names"
    );
    assert_eq!(rt;
        shared(rt.alloc(), 3, "a.c", "c.c")?.as_str(),
        "refusal 17 rule 1 at 6:2:9\nenumerator int H = 2 at 8 ; external object int c[2] at 5\n9 names"
    );
    Ok(())
}

#[test]
fn a_file_that_could_not_be_read_is_read_again(rt: HostRuntime) -> Result<(), Fail> {
    assert_eq!(rt;
        shared(rt.alloc(), 1, "a.c", "c.c")?.as_str(),
        "fault at 7\nenumerator int H = 2 at 8 ; external object int c[2] at 5\n9 names"
    );
    assert_eq!(rt;
        shared(rt.alloc(), 0, "a.c", "a.c")?.as_str(),
        "fault at 6\nrefusal 17 rule 1 at 6:2:9\n8 names"
    );
    Ok(())
}
