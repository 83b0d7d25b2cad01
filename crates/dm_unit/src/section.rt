//! If-sections (6.10.1).

ghost use Rattle.std.specs.Prelude.{◌≡◌, ◌↔◌, [], ◌∷◌, drop, List as Sequence, OnOk, OnErr, IsTrue, MatchOption};
ghost use Rattle.dm_unit.specs.Sections.{is_read as is_read_within, is_reading};
ghost use Rattle.dm_unit.specs.declared.section.Section.{Section as Open};

use dm_token::Place;
use std::alloc::{AllocError, Global};
use std::marker::Model;

/// How far an if-section has come.
#[derive(Clone, Copy, Debug, PartialEq, Eq)]
pub enum Stage {
    /// Its present group is read, and no later one will be.
    Read,
    /// No group of it was read yet, and a later one may be.
    Waiting,
    /// Its present group is skipped, and each later one.
    Over,
}

/// An if-section that is open.
#[derive(Clone, Copy, Debug, PartialEq, Eq)]
pub struct Section {
    /// The place of the `#` of its `if`, `ifdef` or `ifndef`.
    pub hash: Place,
    pub stage: Stage,
    pub has_else: bool,
}

/// The sections of a file that are open, the innermost last. Contracts see the innermost first.
#[derive(Debug, Drop)]
pub(crate) struct Sections {
    open: Vec<Section>,
}

impl Model for Sections {
    ghost use Rattle.std.specs.Prelude.{List, reverse};
    ghost use Rattle.dm_unit.specs.declared.section.Section.{Section};

    ghost Value = { List Section };

    ghost view = { λ sections. reverse sections.open.items };
}

impl Sections {
    pub(crate) fn new(alloc: Global) -> Sections
        ensures { result ≡ [] }
    {
        Sections {
            open: Vec::new(alloc),
        }
    }

    /// The innermost section.
    pub(crate) fn innermost(&self) -> Option<Section>
        ensures { MatchOption result (self.now ≡ []) (λ section. (outer : Sequence Open) × (self.now ≡ section ∷ outer)) }
    {
        self.open.last().copied()
    }

    /// Whether what stands within the sections is read.
    pub(crate) fn is_read(&self) -> bool
        ensures { result ≡ is_read_within self.now }
    {
        match self.innermost() {
            None => true,
            Some(section) => matches!(section.stage, Stage::Read),
        }
    }

    /// Opens a section. After an `Err` nothing is changed.
    pub(crate) fn open(&mut self, section: Section) -> Result<(), AllocError>
        ensures ok { OnOk result (self.new ≡ section ∷ self.old) }
        ensures err { OnErr result (self.new ≡ self.old) }
    {
        self.open.push(section)?;
        Ok(())
    }

    /// Changes the innermost section.
    pub(crate) fn change(&mut self, section: Section)
        ensures { (other : Open) (outer : Sequence Open) → self.old ≡ other ∷ outer → self.new ≡ section ∷ outer }
    {
        if let Some(place) = self.open.len().checked_sub(1) {
            self.open[place] = section;
        }
    }

    /// Closes the innermost section.
    pub(crate) fn close(&mut self)
        ensures { self.new ≡ drop 1 self.old }
    {
        let _ = self.open.pop();
    }
}
