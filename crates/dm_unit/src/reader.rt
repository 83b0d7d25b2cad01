//! What was read of a unit so far.

ghost use Rattle.std.specs.Prelude.{◌≡◌, IfOk};
ghost use Rattle.dm_unit.specs.States.{Catalogue};
ghost use Rattle.dm_unit.specs.Units.{state_with};
ghost use Rattle.dm_unit.specs.Views.{state_of, IsCounted};

use crate::section::Sections;
use dm_expand::Work;
use dm_macro::MacroTable;
use dm_token::{Expansion, Memory, Token, Use};
use indexmap::IndexSet;
use std::alloc::Global;

/// What was read of a unit so far.
#[derive(Drop)]
pub(crate) struct Reader {
    /// The number of the main file.
    pub main: u32,
    pub table: MacroTable,
    /// How many tokens were put out before each definition.
    pub before: Vec<u32>,
    pub tokens: Vec<Token>,
    pub expansions: Vec<Expansion>,
    pub uses: Vec<Use>,
    pub undefined: Vec<Use>,
    /// How many definitions were read before each `#undef`.
    pub read_before: Vec<u32>,
    pub files_read: IndexSet<u32>,
    /// The files with `#pragma once`.
    pub once: IndexSet<u32>,
    pub inclusions: u32,
    /// The number of the next expansion.
    pub instance: u32,
    pub work: Work,
    /// The open if-sections of the file that is read.
    pub sections: Sections,
}

impl Reader {
    /// Before anything is read.
    pub(crate) fn new(alloc: Global, main: u32) -> Result<Reader, Memory>
        ensures state { (files : Catalogue) → IfOk result (λ reader. state_of reader files ≡ state_with files) }
        ensures main { IfOk result (λ reader. reader.main ≡ main) }
        ensures inclusions { IfOk result (λ reader. reader.inclusions ≡ 0) }
        ensures counted { IfOk result IsCounted }
    {
        Ok(Reader {
            main,
            table: MacroTable::new(alloc)?,
            before: Vec::new(alloc),
            tokens: Vec::new(alloc),
            expansions: Vec::new(alloc),
            uses: Vec::new(alloc),
            undefined: Vec::new(alloc),
            read_before: Vec::new(alloc),
            files_read: IndexSet::new(alloc),
            once: IndexSet::new(alloc),
            inclusions: 0,
            instance: 0,
            work: Work { spent: 0 },
            sections: Sections::new(alloc),
        })
    }
}
