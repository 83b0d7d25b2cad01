//! Cases: files, calls on them, and what has to come of each call.
//!
//! A line `%%` stands between two cases. A case begins with what it shows, where its calls don't tell. Then come its files, each behind a line
//! `@@ NAME`, and its calls, each behind `$ `. Behind a call stand what it puts, and the files that change, as they are then. Each call finds
//! the files as the case has them.
//!
//! A call ends with status 0, or as its line says behind an arrow: `=> 5, folder 0 2, sink 1` is status 5 where the calls 0 and 2 of the folder
//! fail, and 1 of the sink. A line `@9 TEXT|REST` stands for that text nine times and then the rest, where `\n` in the text ends a line, `{n}` is the
//! number of the copy, from 1, and `{n+1}` the next one.

use super::numbers;
use crate::top::run;
use dm_io::{MemoryFolder, MemorySink};
use dm_token::{List, Text};
use std::alloc::Global;
use std::process::Abort;
use std::test::Fail;

/// The words of a call, with one space between two of them.
fn words_of(alloc: Global, line: &str) -> Result<Vec<String>, Fail> {
    let mut words = Vec::new(alloc);
    for word in line.split(' ') {
        words.push(String::from_str(alloc, word)?)?;
    }
    Ok(words)
}

/// The numbers of a text, with one space between two of them.
fn numbers_in(alloc: Global, text: &str) -> Result<List<u32>, Fail> {
    let mut found = Vec::new(alloc);
    for word in text.split(' ') {
        if !word.is_empty() {
            found.push(word.parse::<u32>()?)?;
        }
    }
    Ok(List::from_vec(found))
}

/// A folder with files that stand one after another in a text.
fn folder_of(alloc: Global, failing: List<u32>, files: &str) -> Result<MemoryFolder, Fail> {
    let mut folder = MemoryFolder::new(alloc, failing);
    for file in files.split("@@ ") {
        if let Some((name, bytes)) = file.split_once('\n') {
            let name = Text::new(alloc, name)?;
            if folder.file(&name).is_none() {
                folder.add(&name, bytes.as_bytes())?;
            }
        }
    }
    Ok(folder)
}

/// The text of a file among others.
fn text_among<'a>(files: &'a str, wanted: &str) -> Option<&'a str> {
    for file in files.split("@@ ") {
        if let Some((name, text)) = file.split_once('\n') {
            if name == wanted {
                return Some(text);
            }
        }
    }
    None
}

/// Compares the files of a folder with what they were before a call and those of them that change.
fn expect_files<R: Abort + AllocGlobal>(
    rt: &R,
    line: &str,
    folder: &MemoryFolder,
    before: &str,
    changed: &str,
) -> Result<(), Fail> {
    for file in before.split("@@ ") {
        if let Some((name, old)) = file.split_once('\n') {
            let wanted = text_among(changed, name).unwrap_or(old);
            let name = Text::new(rt.alloc(), name)?;
            assert_eq!(rt; folder.file(&name), Some(wanted.as_bytes()), "{line}");
        }
    }
    Ok(())
}

/// What came of a call.
#[derive(Drop)]
pub struct Ended {
    pub status: u8,
    pub output: Vec<u8>,
}

/// Makes a call on a folder, in which these calls of the sink fail.
pub fn call(
    alloc: Global,
    line: &str,
    folder: &mut MemoryFolder,
    failing_puts: List<u32>,
) -> Result<Ended, Fail> {
    let mut out = MemorySink::new(alloc, failing_puts);
    let words = words_of(alloc, line)?;
    let status = run(alloc, &words, folder, &mut out);
    let output = Vec::from_slice(alloc, out.bytes())?;
    Ok(Ended { status, output })
}

/// The status of a call on files, which it leaves as they are unless that is 0.
pub fn status_of<R: Abort + AllocGlobal>(rt: &R, line: &str, files: &str) -> Result<u8, Fail> {
    let alloc = rt.alloc();
    let mut folder = folder_of(alloc, numbers(alloc, &[])?, files)?;
    let ended = call(alloc, line, &mut folder, numbers(alloc, &[])?)?;
    if ended.status != 0 {
        expect_files(rt, line, &folder, files, "")?;
    }
    Ok(ended.status)
}

/// A call as a case has it.
#[derive(Clone, Copy)]
struct Wanted<'a> {
    line: &'a str,
    status: u8,
    /// The calls of the folder that fail, and those of the sink.
    folder: &'a str,
    sink: &'a str,
    output: &'a str,
    /// The files that change, as they are then.
    changed: &'a str,
}

/// A call of a case, behind its `$ `.
fn read_call(text: &str) -> Result<Wanted<'_>, Fail> {
    let (head, rest) = text.split_once('\n').ok_or("a call has no line")?;
    let (line, ending) = head.split_once(" => ").unwrap_or((head, "0"));
    let (output, changed) = rest.split_once("@@ ").unwrap_or((rest, ""));
    let mut wanted = Wanted {
        line,
        status: 0,
        folder: "",
        sink: "",
        output,
        changed,
    };
    for part in ending.split(", ") {
        if let Some(calls) = part.strip_prefix("folder ") {
            wanted.folder = calls;
        } else if let Some(calls) = part.strip_prefix("sink ") {
            wanted.sink = calls;
        } else {
            wanted.status = part.parse::<u8>()?;
        }
    }
    Ok(wanted)
}

/// Makes a call of a case on its files, and compares what comes of it.
pub fn check_call<R: Abort + AllocGlobal>(rt: &R, files: &str, text: &str) -> Result<(), Fail> {
    let alloc = rt.alloc();
    let wanted = read_call(text)?;
    let line = wanted.line;
    let mut folder = folder_of(alloc, numbers_in(alloc, wanted.folder)?, files)?;
    let ended = call(alloc, line, &mut folder, numbers_in(alloc, wanted.sink)?)?;
    assert_eq!(rt; ended.status, wanted.status, "{line}");
    assert_eq!(rt; ended.output.as_slice(), wanted.output.as_bytes(), "{line}");
    expect_files(rt, line, &folder, files, wanted.changed)
}

/// So many copies of a text, in which `{n}` is the number of the copy, from 1, and `{n+1}` the next one.
fn copies(alloc: Global, text: &str, count: u32) -> Result<String, Fail> {
    if !text.contains("{n") {
        return Ok(text.repeat(alloc, count as usize)?);
    }
    let mut copies = String::new(alloc);
    for number in 1..=u64::from(count) {
        let this = format!(in alloc; "{number}")?;
        let next = format!(in alloc; "{}", number + 1)?;
        let numbered = text.replace(alloc, "{n}", this.as_str())?;
        let copy = numbered.replace(alloc, "{n+1}", next.as_str())?;
        copies.push_str(copy.as_str())?;
    }
    Ok(copies)
}

/// What a line `@COUNT TEXT|REST` stands for, behind its sign.
fn unfolded_line(alloc: Global, line: &str) -> Result<String, Fail> {
    let (count, text) = line.split_once(' ').ok_or("nothing to repeat")?;
    let (piece, rest) = text.split_once('|').ok_or("no end of what is repeated")?;
    let piece = piece.replace(alloc, "\\n", "\n")?;
    let repeated = copies(alloc, piece.as_str(), count.parse::<u32>()?)?;
    Ok(format!(in alloc; "{repeated}{rest}\n")?)
}

/// A case with what its lines `@COUNT TEXT|REST` stand for.
fn unfolded(alloc: Global, case: &str) -> Result<String, Fail> {
    let mut lines = String::new(alloc);
    for line in case.lines() {
        match line.strip_prefix("@") {
            Some(folded) if !folded.starts_with("@") => {
                lines.push_str(unfolded_line(alloc, folded)?.as_str())?;
            }
            _ => {
                lines.push_str(line)?;
                lines.push('\n')?;
            }
        }
    }
    Ok(lines)
}

/// Makes the calls of a case, each on its files.
fn check_case<R: Abort + AllocGlobal>(rt: &R, case: &str) -> Result<(), Fail> {
    let case = unfolded(rt.alloc(), case)?;
    let (front, calls) = case.as_str().split_once("$ ").ok_or("a case has no call")?;
    let (_shown, files) = front.split_once("@@ ").unwrap_or((front, ""));
    for call in calls.split("$ ") {
        check_call(rt, files, call)?;
    }
    Ok(())
}

/// Makes the calls of cases.
pub fn check<R: Abort + AllocGlobal>(rt: &R, cases: &str) -> Result<(), Fail> {
    for case in cases.split("%%\n") {
        check_case(rt, case)?;
    }
    Ok(())
}
