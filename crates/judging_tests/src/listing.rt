//! The definitions of worked projects with the lines of their directives, how they are found again, and the files of those that are
//! rewritten.

use crate::projects::{Project, project_of};
use dm_edit::{As, Changed, Entry, Fate};
use dm_reading::copy_of_definition;
use dm_readings::Key;
use dm_search::Loader;
use dm_subjects::{Subject, changed_files, definition_at, subjects};
use dm_token::{Definition, List};
use std::alloc::Global;
use std::fmt::Write;
use std::process::Abort;
use std::test::Fail;
use tree_words::words::put_text;

/// A file is read twice in one unit, and once in another. The `#` of the second definition stands before the name's line.
const LISTED: &str = r##"a.c
#define A 1
#include "h.h"
#define C 3
#include "h.h"
#include <limits.h>
int x = INT_MAX - A - B - C;
@h.h
/* two
lines */ #\
define B 2
#ifndef TWICE
#define TWICE
#else
#define LATE
#endif
@b.c
#include "h.h"
#define D B
int y = D;
=>
A a.c:1
B h.h:2
TWICE h.h:5
C a.c:3
LATE h.h:7
D b.c:2"##;

/// Those whose names begin with `R` are rewritten.
const CHANGED: &str = r#"a.c
#include "z.h"
#include "b.h"
#include "B.h"
#include "k.h"
#define KIND 1
int x = RATE + ROOM + RANK + REST + KIND + KNOT;
@z.h
#define RATE 1
#define ROOM 2
@b.h
#define RANK 3
@B.h
#define REST 4
@k.h
#define KNOT 5
=>
B.h
#define REST 4
@b.h
#define RANK 3
@z.h
#define RATE 1
#define ROOM 2"#;

/// Puts a definition's name, its file and the line of its `#`.
fn put_subject(out: &mut String, loader: &Loader, subject: &Subject) -> Result<(), Fail> {
    let Some(name) = loader.names().get(subject.key.file as usize) else {
        return Err("a definition is in no file".into());
    };
    if !out.is_empty() {
        out.push_str("\n")?;
    }
    put_text(out, &subject.definition.name)?;
    out.push_str(" ")?;
    put_text(out, name)?;
    write!(out, ":{}", subject.key.line)?;
    Ok(())
}

/// Whether a definition is found by its key.
fn is_found(project: &Project, subject: &Subject) -> bool {
    let key = subject.key;
    let Some(found) = definition_at(&project.loader, project.readings.as_slice(), key) else {
        return false;
    };
    found.place == subject.definition.place
}

/// Lists what is judged of a project, each found again by its key.
fn listed(alloc: Global, project: &Project) -> Result<String, Fail> {
    let loader = &project.loader;
    if loader.names().len() > 10_000 {
        return Err("too many names".into());
    }
    let mut out = String::new(alloc);
    for subject in subjects(alloc, loader, project.readings.as_slice())?.items() {
        put_subject(&mut out, loader, subject)?;
        if !is_found(project, subject) {
            return Err("a definition isn't found again".into());
        }
    }
    Ok(out)
}

/// What becomes of a definition by its name.
fn outcome_of(definition: &Definition) -> Fate {
    if definition.name.bytes().first() == Some(&b'R') {
        Fate::Rewritten(As::Enumerator)
    } else {
        Fate::Kept {
            rule: 4,
            place: definition.place,
        }
    }
}

/// An entry for each definition.
fn entries_of(alloc: Global, subjects: &[Subject]) -> Result<List<Entry>, Fail> {
    let mut entries = List::new(alloc);
    for subject in subjects {
        entries.push(Entry {
            definition: copy_of_definition(alloc, &subject.definition)?,
            outcome: outcome_of(&subject.definition),
        })?;
    }
    Ok(entries)
}

/// Puts files as rows have them.
fn put_files(out: &mut String, files: &[Changed]) -> Result<(), Fail> {
    for file in files {
        if !out.is_empty() {
            out.push_str("\n@")?;
        }
        put_text(out, &file.name)?;
        out.push_str("\n")?;
        for byte in file.bytes.items() {
            out.push(char::from(*byte))?;
        }
    }
    Ok(())
}

/// The files of a project with a definition that is rewritten.
fn changed(alloc: Global, project: &Project) -> Result<String, Fail> {
    let loader = &project.loader;
    if loader.names().len() > 10_000 {
        return Err("too many names".into());
    }
    let judged = subjects(alloc, loader, project.readings.as_slice())?;
    let entries = entries_of(alloc, judged.items())?;
    let files = changed_files(alloc, loader, entries.items())?;
    let mut out = String::new(alloc);
    put_files(&mut out, files.items())?;
    Ok(out)
}

#[test]
fn definitions_have_the_lines_of_their_directives(rt: HostRuntime) -> Result<(), Fail> {
    let Some((files, wanted)) = LISTED.split_once("\n=>\n") else {
        panic!(rt; "no arrow");
    };
    let project = project_of(rt.alloc(), files)?;
    assert!(rt; listed(rt.alloc(), &project)?.as_str() == wanted);
    let nowhere = Key { file: 0, line: 9 };
    assert!(rt; definition_at(&project.loader, project.readings.as_slice(), nowhere).is_none());
    Ok(())
}

#[test]
fn changed_files_stand_by_name(rt: HostRuntime) -> Result<(), Fail> {
    let Some((files, wanted)) = CHANGED.split_once("\n=>\n") else {
        panic!(rt; "no arrow");
    };
    let project = project_of(rt.alloc(), files)?;
    assert!(rt; changed(rt.alloc(), &project)?.as_str() == wanted);
    Ok(())
}
