//! Good words, and what they ask for.

use dm_words::{Request, RunWords, read_request};
use std::alloc::Global;
use std::process::Abort;
use std::test::Fail;

/// The words of a line, with one space between two of them: two spaces have an empty word between them.
pub fn words_of(alloc: Global, line: &str) -> Result<Vec<String>, Fail> {
    let mut words = Vec::new(alloc);
    for word in line.split(' ') {
        words.push(String::from_str(alloc, word)?)?;
    }
    Ok(words)
}

/// Checks what the words of lines ask for.
fn expect<R: Abort + AllocGlobal>(rt: &R, cases: &[(&str, Request<'_>)]) -> Result<(), Fail> {
    for (line, wanted) in cases {
        let words = words_of(rt.alloc(), *line)?;
        let found = read_request(rt.alloc(), &words)?;
        assert!(rt; found == Some(*wanted), "{line}");
    }
    Ok(())
}

fn plan<'a>(project: &'a str, json: bool) -> Request<'a> {
    Request::Plan {
        project: project.as_bytes(),
        json,
    }
}

fn apply<'a>(project: &'a str, json: bool) -> Request<'a> {
    Request::Apply {
        project: project.as_bytes(),
        json,
    }
}

fn expand<'a>(project: &'a str, file: &'a str) -> Request<'a> {
    Request::Expand {
        project: project.as_bytes(),
        file: file.as_bytes(),
    }
}

/// A run of the unit `a.c` of the project `m`.
fn run<'a>(order: u64, steps: u64, input: Option<&'a str>) -> Request<'a> {
    Request::Run(RunWords {
        project: b"m",
        file: b"a.c",
        order,
        steps,
        input: input.map(str::as_bytes),
    })
}

#[test]
fn reports_are_asked_for(rt: HostRuntime) -> Result<(), Fail> {
    expect(
        &rt,
        &[
            ("plan a.c", plan("a.c", false)),
            ("plan project.json --json", plan("project.json", true)),
            ("plan --json m", plan("m", true)),
            ("plan plan", plan("plan", false)),
            ("plan a=--json", plan("a=--json", false)),
            ("plan ../a-b.c", plan("../a-b.c", false)),
            ("apply a.c", apply("a.c", false)),
            ("apply m --json", apply("m", true)),
            ("apply --json apply", apply("apply", true)),
        ],
    )
}

#[test]
fn units_are_asked_for(rt: HostRuntime) -> Result<(), Fail> {
    expect(
        &rt,
        &[
            ("expand m a.c", expand("m", "a.c")),
            ("expand a.c a.c", expand("a.c", "a.c")),
            ("expand expand run", expand("expand", "run")),
        ],
    )
}

#[test]
fn runs_are_asked_for(rt: HostRuntime) -> Result<(), Fail> {
    expect(
        &rt,
        &[
            ("run m a.c", run(0, 1_000_000, None)),
            ("run m a.c --order 3", run(3, 1_000_000, None)),
            ("run --order=3 m a.c", run(3, 1_000_000, None)),
            ("run m --order 3 a.c", run(3, 1_000_000, None)),
            ("run m a.c --steps 0", run(0, 0, None)),
            ("run m a.c --steps=05 --order 7", run(7, 5, None)),
            (
                "run --input in.txt m a.c",
                run(0, 1_000_000, Some("in.txt")),
            ),
            ("run m a.c --input==b", run(0, 1_000_000, Some("=b"))),
            ("run m a.c --input a=b", run(0, 1_000_000, Some("a=b"))),
            (
                "run --input=run m --steps 9 a.c --order=8",
                run(8, 9, Some("run")),
            ),
        ],
    )
}

#[test]
fn numbers_go_up_to_64_bits_in_20_digits(rt: HostRuntime) -> Result<(), Fail> {
    expect(
        &rt,
        &[
            (
                "run m a.c --order 18446744073709551615",
                run(18_446_744_073_709_551_615, 1_000_000, None),
            ),
            ("run m a.c --steps=00000000000000000012", run(0, 12, None)),
            ("gen 00000000000000000000", Request::Gen { count: 0 }),
            ("gen 00000000000000001000", Request::Gen { count: 1000 }),
        ],
    )
}

#[test]
fn generated_projects_are_asked_for(rt: HostRuntime) -> Result<(), Fail> {
    expect(
        &rt,
        &[
            ("gen 0", Request::Gen { count: 0 }),
            ("gen 7", Request::Gen { count: 7 }),
            ("gen 100", Request::Gen { count: 100 }),
            ("gen 1000", Request::Gen { count: 1000 }),
        ],
    )
}
