//! Words that are not good.

use super::good::words_of;
use dm_words::read_request;
use std::process::Abort;
use std::test::Fail;

/// Checks that the words of lines ask for nothing.
fn expect_none<R: Abort + AllocGlobal>(rt: &R, lines: &[&str]) -> Result<(), Fail> {
    for line in lines {
        let words = words_of(rt.alloc(), *line)?;
        let found = read_request(rt.alloc(), &words)?;
        assert!(rt; found.is_none(), "{line}");
    }
    Ok(())
}

#[test]
fn no_words_ask_for_nothing(rt: HostRuntime) -> Result<(), Fail> {
    let words: Vec<String> = Vec::new(rt.alloc());
    let found = read_request(rt.alloc(), &words)?;
    assert!(&rt; found.is_none());
    Ok(())
}

#[test]
fn the_first_word_is_a_command(rt: HostRuntime) -> Result<(), Fail> {
    expect_none(
        &rt,
        &[
            "",
            " plan m",
            "Plan m",
            "plans m",
            "pla m",
            "help",
            "help plan",
            "--help",
            "-h",
            "--version",
            "m plan",
            "--json plan m",
            "verify m",
            "runall m",
        ],
    )
}

#[test]
fn operands_are_all_there_and_no_more(rt: HostRuntime) -> Result<(), Fail> {
    expect_none(
        &rt,
        &[
            "plan",
            "plan a b",
            "plan --json",
            "apply",
            "apply a b",
            "expand",
            "expand m",
            "expand m a b",
            "run",
            "run m",
            "run m a b",
            "run m --order 1",
            "gen",
            "gen 1 2",
        ],
    )
}

#[test]
fn operands_are_neither_empty_nor_options(rt: HostRuntime) -> Result<(), Fail> {
    expect_none(
        &rt,
        &[
            "plan ",
            "plan -",
            "plan -a",
            "plan -- a",
            "plan a --",
            "plan --a",
            "apply -a",
            "expand m ",
            "expand  a",
            "expand m -a",
            "expand -- m",
            "run m ",
            "run -m a",
            "run m -- a",
            "gen ",
            "gen -1",
        ],
    )
}

#[test]
fn options_are_those_of_the_command(rt: HostRuntime) -> Result<(), Fail> {
    expect_none(
        &rt,
        &[
            "plan m --order 1",
            "plan m --help",
            "plan m -j",
            "plan m --js",
            "plan m --jsonx",
            "apply m --input a",
            "expand m a --json",
            "expand m a --order 1",
            "run m a --json",
            "run m a -o 1",
            "run m a --ord 1",
            "run m a --orders 1",
            "run m a --Order 1",
            "run m a --help",
            "gen 1 --json",
            "gen --json 1",
            "gen 1 --steps 1",
        ],
    )
}

#[test]
fn options_are_given_once(rt: HostRuntime) -> Result<(), Fail> {
    expect_none(
        &rt,
        &[
            "plan m --json --json",
            "apply --json m --json",
            "run m a --order 1 --order 1",
            "run --order=1 m a --order 2",
            "run m a --steps 1 --steps=1",
            "run m a --input a --input a",
        ],
    )
}

#[test]
fn json_has_no_value(rt: HostRuntime) -> Result<(), Fail> {
    expect_none(
        &rt,
        &[
            "plan m --json=",
            "plan m --json=true",
            "plan m --json true",
            "apply m --json=m",
        ],
    )
}

#[test]
fn values_are_neither_missing_nor_empty_nor_options(rt: HostRuntime) -> Result<(), Fail> {
    expect_none(
        &rt,
        &[
            "run m a --order",
            "run m a --order=",
            "run m a --order ",
            "run m a --steps --order 1",
            "run --order m a",
            "run m a --input",
            "run m a --input=",
            "run m a --input ",
            "run m a --input -",
            "run m a --input -x",
            "run m a --input=-x",
            "run m a --input --order 1",
        ],
    )
}

#[test]
fn numbers_are_decimal(rt: HostRuntime) -> Result<(), Fail> {
    expect_none(
        &rt,
        &[
            "run m a --order x",
            "run m a --order +1",
            "run m a --order -1",
            "run m a --order=-1",
            "run m a --order 0x1",
            "run m a --order 1u",
            "run m a --order 1_0",
            "run m a --order=1=",
            "run m a --steps 1.0",
            "run m a --steps 1e3",
            "gen x",
            "gen +1",
            "gen 1k",
        ],
    )
}

#[test]
fn numbers_are_no_greater(rt: HostRuntime) -> Result<(), Fail> {
    expect_none(
        &rt,
        &[
            "run m a --order 18446744073709551616",
            "run m a --steps 99999999999999999999",
            "run m a --order 000000000000000000001",
            "run m a --steps=100000000000000000000",
            "gen 1001",
            "gen 18446744073709551616",
            "gen 18446744073709551617",
            "gen 000000000000000000001",
        ],
    )
}
