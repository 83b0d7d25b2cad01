//! What a unit declares, in words.

use crate::typing::TypedUnit;
use std::alloc::Global;
use std::fmt::Write;
use std::test::Fail;
use tree_words::entries::{put_entry, structs_of};

/// All entries of a unit, each with its column.
pub fn entries(alloc: Global, made: &TypedUnit) -> Result<String, Fail> {
    let structs = structs_of(alloc, &made.types)?;
    let mut out = String::new(alloc);
    for entry in made.unit.declared.items() {
        if !out.is_empty() {
            out.push_str(" ; ")?;
        }
        put_entry(&mut out, &made.types, structs.items(), entry)?;
        write!(out, " at {}", entry.place.column)?;
    }
    if out.is_empty() {
        out.push_str("nothing")?;
    }
    Ok(out)
}
