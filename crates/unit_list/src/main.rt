//! Prints what each unit of a project declares, and its typed trees: the units of the manifests that are named, whose files lie below
//! the current folder.
#![tactic(auto)]

ghost use Rattle.std.specs.Prelude.{All, IfOk};
ghost use Rattle.dm_manifest.specs.Units.{IsLawful};

mod labels;
mod listing;
mod trees;

use anyhow::{Result, bail};
use dm_io::{Folder, Got, RealFolder};
use dm_manifest::manifest;
use dm_token::{List, Text, Unit, source_length_limit};
use listing::list_project;
use std::alloc::Global;
use std::env;

fn main(rt: HostRuntime) -> Result<()> {
    let mut folder = RealFolder::new(&rt);
    for path in env::args(&rt)?.skip(1) {
        let units = units_of(rt.alloc(), &mut folder, path.as_str())?;
        print!(rt; "{}", project(rt.alloc(), &mut folder, units)?)?;
    }
    Ok(())
}

/// The units of a manifest.
fn units_of<F: Folder>(alloc: Global, folder: &mut F, path: &str) -> Result<List<Unit>>
    ensures { IfOk result (All IsLawful) }
{
    let Ok(name) = Text::new(alloc, path) else {
        bail!("out of memory");
    };
    let Ok(Got::Bytes(bytes)) = folder.read(alloc, &name, source_length_limit()) else {
        bail!("the manifest can't be read");
    };
    match manifest(alloc, bytes.items()) {
        Ok(units) => Ok(units),
        Err(_) => bail!("there is a fault in the manifest"),
    }
}

/// The listing of a project.
fn project<F: Folder>(alloc: Global, folder: &mut F, units: List<Unit>) -> Result<String>
    requires { All IsLawful units }
{
    match list_project(alloc, folder, units) {
        Ok(text) => Ok(text),
        Err(_) => bail!("out of memory"),
    }
}
