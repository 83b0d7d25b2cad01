//! Demacrofier replaces C macros by declarations in the same place. It reads and writes files below the current
//! folder, and ends with the exit code of `run_process`.
#![tactic(auto)]

mod laws;
mod planning;
mod process;
mod running;
mod top;
mod usage;

use dm_io::{RealFolder, RealSink};
use process::run_process;
use std::env;
use std::process::ExitCode;

fn main(rt: HostRuntime) -> ExitCode {
    let mut folder = RealFolder::new(&rt);
    let mut out = RealSink::new(&rt);
    run_process(rt.alloc(), env::args(&rt), &mut folder, &mut out)
}

#[cfg(test)]
mod tests;
