//! What good words ask for, as `clap` reads them.

ghost use Rattle.std.specs.Prelude.{◌≡◌, ℕ, Some, IfErr, IfOk, is_some, map, string_bytes, true, false};
ghost use Rattle.clap.specs.Words.{app_of, first_value, found_of, kind_of as kind_of_error, rule_of};
ghost use Rattle.dm_words.specs.CommandLines.{IsShown, Shows, gen_line, line_of, operand_rule, report_line, run_line, unit_line, value_rule};
ghost use Rattle.dm_words.specs.Readings.{Selects, kind_of};
ghost use Rattle.dm_words.specs.Requests.{AsksFor, Request as Wanted, RunRequest, asked_by, request_of, run};

use crate::asked::{Request, RunWords};
use crate::command::Command;
use crate::number::number;
use clap::error::ErrorKind;
use clap::{Arg, ArgAction, ArgMatches, Command as CommandLine, Error};
use dm_token::USUAL_STEPS;
use std::alloc::{AllocError, Global};

/// What good words of a command ask for. Its only fault is want of memory.
pub(crate) fn read<'a>(
    alloc: Global,
    command: Command,
    words: &'a [String],
) -> Result<Request<'a>, Error>
    requires { Selects (map string_bytes words.now) (Some command) }
    ensures asked { IfOk result (λ found. AsksFor (map string_bytes words.entry.now) (asked_by found)) }
    ensures fault { IfErr result (λ error. kind_of_error error ≡ ErrorKind.OutOfMemory) }
{
    let line = command_line(alloc, command)?;
    let matches = line.try_get_matches_from(words)?;
    Ok(request_in(command, &matches))
}

/// The words that a command takes.
fn command_line<'a>(alloc: Global, command: Command) -> Result<CommandLine<'a>, AllocError>
    ensures { IfOk result (λ line. app_of line ≡ line_of command) }
{
    match command {
        Command::Plan => report_command(alloc, "plan"),
        Command::Apply => report_command(alloc, "apply"),
        Command::Expand => unit_command(alloc, "expand"),
        Command::Run => run_command(alloc),
        Command::Gen => gen_command(alloc),
    }
}

fn report_command<'a>(alloc: Global, name: &'a str) -> Result<CommandLine<'a>, AllocError>
    ensures { IfOk result (λ line. app_of line ≡ report_line name.entry.now) }
{
    let json = Arg::new(alloc, "json")
        .long("json")
        .action(ArgAction::SetTrue);
    CommandLine::new(alloc, name)
        .arg(operand(alloc, "M"))?
        .arg(json)
}

fn unit_command<'a>(alloc: Global, name: &'a str) -> Result<CommandLine<'a>, AllocError>
    ensures { IfOk result (λ line. app_of line ≡ unit_line name.entry.now) }
{
    CommandLine::new(alloc, name)
        .arg(operand(alloc, "M"))?
        .arg(operand(alloc, "UNIT"))
}

fn run_command<'a>(alloc: Global) -> Result<CommandLine<'a>, AllocError>
    ensures { IfOk result (λ line. app_of line ≡ run_line) }
{
    unit_command(alloc, "run")?
        .arg(option(alloc, "order"))?
        .arg(option(alloc, "steps"))?
        .arg(option(alloc, "input"))
}

fn gen_command<'a>(alloc: Global) -> Result<CommandLine<'a>, AllocError>
    ensures { IfOk result (λ line. app_of line ≡ gen_line) }
{
    CommandLine::new(alloc, "gen").arg(operand(alloc, "N"))
}

/// An operand of this name.
fn operand<'a>(alloc: Global, name: &'a str) -> Arg<'a>
    ensures rule { rule_of result ≡ operand_rule name.entry.now }
    ensures local { result.global ≡ false }
{
    Arg::new(alloc, name).required(true)
}

/// An option of this name that has a value.
fn option<'a>(alloc: Global, name: &'a str) -> Arg<'a>
    ensures rule { rule_of result ≡ value_rule name.entry.now }
    ensures local { result.global ≡ false }
{
    Arg::new(alloc, name).long(name)
}

/// The request that was found.
fn request_in<'a>(command: Command, matches: &ArgMatches<'a>) -> Request<'a>
    requires { (request : Wanted) × (kind_of request ≡ command) × Shows (found_of matches.now) request }
    ensures { (request : Wanted) → kind_of request ≡ command → Shows (found_of matches.now) request → asked_by result ≡ request }
{
    match command {
        Command::Plan => Request::Plan {
            project: text(matches, "M"),
            json: matches.get_flag("json"),
        },
        Command::Apply => Request::Apply {
            project: text(matches, "M"),
            json: matches.get_flag("json"),
        },
        Command::Expand => Request::Expand {
            project: text(matches, "M"),
            file: text(matches, "UNIT"),
        },
        Command::Run => Request::Run(run_in(matches)),
        Command::Gen => Request::Gen {
            count: number_or(matches, "N", 0),
        },
    }
}

/// The run that was found.
fn run_in<'a>(matches: &ArgMatches<'a>) -> RunWords<'a>
    requires { (request : RunRequest) × Shows (found_of matches.now) (run request) }
    ensures { (request : RunRequest) → Shows (found_of matches.now) (run request) → request_of result ≡ request }
{
    RunWords {
        project: text(matches, "M"),
        file: text(matches, "UNIT"),
        order: number_or(matches, "order", 0),
        steps: number_or(matches, "steps", USUAL_STEPS),
        input: matches.get_str("input").map(str::as_bytes),
    }
}

/// The text of an operand.
fn text<'a>(matches: &ArgMatches<'a>, name: &str) -> &'a [u8]
    requires { is_some (first_value (found_of matches.now) name.now) ≡ true }
    ensures { first_value (found_of matches.now) name.now ≡ Some result.now }
{
    matches.get_str(name).unwrap().as_bytes()
}

/// A number, or the default where none is given.
fn number_or(matches: &ArgMatches<'_>, name: &str, default: u64) -> u64
    requires { (count : ℕ) × IsShown default (first_value (found_of matches.now) name.now) count }
    ensures { IsShown default (first_value (found_of matches.now) name.now) result }
{
    match matches.get_str(name) {
        None => default,
        Some(text) => number(text.as_bytes()).unwrap(),
    }
}
