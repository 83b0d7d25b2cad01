//! Prints the number of preprocessing tokens (6.4) in each file that is named: the program that `bench/run.sh` times.
#![tactic(auto)]

ghost use Rattle.std.specs.Prelude.{◌≤◌, length};
ghost use Rattle.dm_token.specs.Limits.{source_length_limit};

use anyhow::{Result, bail, ensure};
use dm_lex::tokens;
use dm_phase::flatten;
use dm_token::source_length_limit;
use std::alloc::Global;
use std::{env, fs};

fn main(rt: HostRuntime) -> Result<()> {
    for path in env::args(&rt)?.skip(1) {
        let bytes = fs::read(&rt, path.as_str())?;
        ensure!(bytes.len() <= source_length_limit(), "{path} is too long");
        println!(rt; "{}", count(rt.alloc(), &bytes)?)?;
    }
    Ok(())
}

/// The number of tokens of a file with these bytes.
fn count(alloc: Global, bytes: &[u8]) -> Result<usize>
    requires { length bytes.now ≤ source_length_limit }
{
    let Ok(flat) = flatten(alloc, 0, bytes) else {
        bail!("refused in phases 1 and 2");
    };
    match tokens(alloc, 0, &flat, bytes) {
        Ok(tokens) => Ok(tokens.len()),
        Err(_) => bail!("refused in phase 3"),
    }
}
