//! What is declared on the way.

ghost use Rattle.std.specs.Prelude.{◌≡◌, ◌≤◌, ◌-◌, ◌<◌, ◌∷◌, [], length, drop, OnOk};
ghost use Rattle.dm_pexpr.specs.Scoping.{latest_of, known_with};

use crate::names::Names;
use dm_syn::Declared;
use dm_token::{Memory, Text};
use std::alloc::Global;
use std::marker::Model;

/// A declaration, and what was known of its name before.
#[derive(Drop)]
pub(crate) struct Entry {
    declared: Declared,
    before: Option<bool>,
}

/// The declarations that came on the way and are in scope (6.2.1). Contracts see their list, the latest first. A look-up
/// walks none of them.
#[derive(Drop)]
pub struct Scope {
    /// The latest is the last one.
    entries: Vec<Entry>,
    latest: Names,
}

impl Model for Scope {
    ghost use Rattle.std.specs.Prelude.{List, ◌≡◌, reverse};
    ghost use Rattle.dm_syn.specs.declared.declared.Declared.{Declared};
    ghost use Rattle.dm_pexpr.specs.Scoping.{all_declared, known_by, IsKept};

    ghost Value = { List Declared };

    ghost view = { λ scope. all_declared (reverse scope.entries.items) };

    ghost invariant = { λ scope. (scope.latest ≡ known_by (all_declared (reverse scope.entries.items))) × IsKept (reverse scope.entries.items) };
}

impl Scope {
    /// Nothing is declared. It takes no memory.
    pub fn new(alloc: Global) -> Scope
        ensures { result ≡ [] }
    {
        Scope {
            entries: Vec::new(alloc),
            latest: Names::new(alloc),
        }
    }

    /// How many declarations are in scope.
    pub fn len(&self) -> usize
        ensures { result ≡ length self.now }
    {
        self.entries.len()
    }

    /// Whether the latest declaration of a name names a type, if there is one.
    pub fn get(&self, name: &Text) -> Option<bool>
        ensures { result ≡ latest_of self.now name.now }
    {
        self.latest.get(name)
    }

    /// Declares a name. What is declared after an `Err` is left open.
    pub fn declare(&mut self, name: &Text, is_type: bool) -> Result<(), Memory>
        ensures { OnOk result (self.new ≡ record { name = name.now; is_type = is_type } ∷ self.old) }
    {
        let entry = Entry {
            declared: Declared {
                name: name.copy()?,
                is_type,
            },
            before: self.latest.get(name),
        };
        self.latest.set(name, Some(is_type))?;
        match self.entries.push(entry) {
            Ok(()) => Ok(()),
            Err(_) => {
                self.entries.clear();
                self.latest = Names::new(*self.entries.allocator());
                Err(Memory)
            }
        }
    }

    /// Ends the scope of all but the first so many declarations. What is declared after an `Err` is left open.
    pub fn end(&mut self, kept: usize) -> Result<(), Memory>
        ensures { OnOk result (self.new ≡ drop (length self.old - kept) self.old) }
    {
        while self.len() > kept {
            self.take_back()?;
        }
        Ok(())
    }

    /// Enters the declarations into names, so that the latest of a name counts. What the names are after an `Err` is left open.
    pub fn settle(&self, names: &mut Names) -> Result<(), Memory>
        ensures { OnOk result (names.new ≡ known_with names.old self.now) }
    {
        for entry in &self.entries {
            names.set(&entry.declared.name, Some(entry.declared.is_type))?;
        }
        Ok(())
    }

    // Takes the latest declaration back.
    fn take_back(&mut self) -> Result<(), Memory>
        requires { 0 < length self.old }
        ensures { OnOk result (self.new ≡ drop 1 self.old) }
    {
        let Some(entry) = self.entries.pop() else {
            return Ok(());
        };
        match self.latest.set(&entry.declared.name, entry.before) {
            Ok(()) => Ok(()),
            Err(_) => {
                self.entries.clear();
                self.latest = Names::new(*self.entries.allocator());
                Err(Memory)
            }
        }
    }
}
