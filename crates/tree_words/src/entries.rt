//! What a unit declares, in words.

ghost use Rattle.dm_type.specs.Tables.{IsId};

use crate::words::put_type;
use dm_token::{List, Memory};
use dm_tree::{Declared, Linkage, Sort};
use dm_type::Types;
use std::alloc::Global;
use std::fmt::Write;

/// The numbers of all structs.
pub fn structs_of(alloc: Global, types: &Types) -> Result<List<u32>, Memory> {
    let mut numbers = List::new(alloc);
    let mut number: u32 = 0;
    for _ in 0..types.struct_count() {
        numbers.push(number)?;
        number = number.saturating_add(1);
    }
    Ok(numbers)
}

/// The linkage of what is declared, and what it is.
fn sort_words(linkage: Linkage, sort: Sort) -> &'static str {
    match (linkage, sort) {
        (Linkage::External, Sort::Object { fixed: _ }) => "external object",
        (Linkage::Internal, Sort::Object { fixed: _ }) => "internal object",
        (Linkage::Absent, Sort::Object { fixed: true }) => "static object",
        (Linkage::Absent, Sort::Object { fixed: false }) => "object",
        (Linkage::External, Sort::Function) => "external function",
        (Linkage::Internal, Sort::Function) => "internal function",
        (Linkage::Absent, Sort::Typedef) => "typedef",
        (Linkage::Absent, Sort::Enumerator(_)) => "enumerator",
        (Linkage::Absent, Sort::Tag) => "tag",
        _ => "?",
    }
}

/// An entry: what it is, its type round its name, and the value of an enumerator.
pub fn put_entry(
    out: &mut String,
    types: &Types,
    structs: &[u32],
    entry: &Declared,
) -> Result<(), Memory>
    requires { IsId types.now entry.now.kind }
{
    out.push_str(sort_words(entry.linkage, entry.sort))?;
    out.push_str(" ")?;
    put_type(out, types, structs, entry.kind, &entry.name)?;
    if let Sort::Enumerator(value) = entry.sort {
        write!(out, " = {value}")?;
    }
    Ok(())
}
