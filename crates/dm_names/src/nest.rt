//! The scopes that are open at a place of a translation unit, with both name spaces.

ghost use Rattle.std.specs.Prelude.{◌≡◌, ◌∷◌, [], drop, IfOk, OnOk};
ghost use Rattle.dm_names.specs.Scopes as scopes;

use dm_name_map::NameMap;
use dm_token::{Memory, Text};
use std::alloc::Global;
use std::marker::Model;

/// What a scope declares: ordinary identifiers and tags (6.2.3), each with the number of its entry.
#[derive(Drop)]
pub struct Scope {
    pub names: NameMap,
    pub tags: NameMap,
}

impl Scope {
    /// A scope that declares nothing. It takes no memory.
    pub fn new(alloc: Global) -> Scope
        ensures { result ≡ scopes.nothing_declared }
    {
        Scope {
            names: NameMap::new(alloc),
            tags: NameMap::new(alloc),
        }
    }

    /// The number that a name or a tag has here.
    fn get(&self, tag: bool, name: &Text) -> Option<u32>
        ensures { result ≡ scopes.get tag name.now self.now }
    {
        if tag {
            self.tags.get(name)
        } else {
            self.names.get(name)
        }
    }

    /// Gives a name or a tag a number.
    fn insert(&mut self, tag: bool, name: Text, number: u32) -> Result<(), Memory>
        ensures { OnOk result (self.new ≡ scopes.with_name tag name number self.old) }
    {
        if tag {
            self.tags.insert(name, number)?;
        } else {
            self.names.insert(name, number)?;
        }
        Ok(())
    }
}

/// The scopes that are open (6.2.1). Contracts see a list, the innermost scope first. A scope that is closed may be opened again.
#[derive(Drop)]
pub struct Nest {
    /// From the outside inwards.
    scopes: Vec<Scope>,
}

impl Model for Nest {
    ghost use Rattle.std.specs.Prelude.{reverse};
    ghost use Rattle.std.specs.Coded.{coded_list};
    ghost use Rattle.dm_names.specs.contracts.nest.Scope as scope;
    ghost use Rattle.dm_names.specs.Scopes.{Scopes};

    ghost Value = { Scopes };

    ghost coded = { coded_list scope.the_row.coded };

    ghost view = { λ nest. reverse nest.scopes.items };
}

impl Nest {
    /// File scope, which declares nothing.
    pub fn new(alloc: Global) -> Result<Nest, Memory>
        ensures { IfOk result (λ opened. opened ≡ scopes.nothing_declared ∷ []) }
    {
        let mut all = Vec::new(alloc);
        all.push(Scope::new(alloc))?;
        Ok(Nest { scopes: all })
    }

    /// Opens a scope inside the innermost one, with what it declares.
    pub fn enter(&mut self, scope: Scope) -> Result<(), Memory>
        ensures { OnOk result (self.new ≡ scope ∷ self.old) }
    {
        self.scopes.push(scope)?;
        Ok(())
    }

    /// Closes the innermost scope, and gives it.
    pub fn leave(&mut self) -> Option<Scope>
        ensures scope { result ≡ scopes.first_of self.old }
        ensures left { self.new ≡ drop 1 self.old }
    {
        self.scopes.pop()
    }

    /// Whether file scope alone is open.
    pub fn is_file_scope(&self) -> bool
        ensures { result ≡ scopes.is_file_scope self.now }
    {
        self.scopes.len() == 1
    }

    /// Whether the innermost scope declares a name or a tag.
    pub fn is_declared(&self, tag: bool, name: &Text) -> bool
        ensures { result ≡ scopes.is_declared_here tag name.now self.now }
    {
        match self.scopes.last() {
            Some(innermost) => innermost.get(tag, name).is_some(),
            None => false,
        }
    }

    /// Declares a name or a tag in the innermost scope.
    pub fn declare(&mut self, tag: bool, name: Text, number: u32) -> Result<(), Memory>
        ensures { OnOk result (self.new ≡ scopes.declared_in tag name number self.old) }
    {
        let Some(mut innermost) = self.scopes.pop() else {
            return Ok(());
        };
        innermost.insert(tag, name, number)?;
        self.scopes.push(innermost)?;
        Ok(())
    }

    /// The number of the innermost declaration of a name or a tag.
    pub fn meaning(&self, tag: bool, name: &Text) -> Option<u32>
        ensures { result ≡ scopes.meaning_of tag name.now self.now }
    {
        let mut open = self.scopes.as_slice();
        while let Some((innermost, outer)) = open.split_last() {
            if let Some(number) = innermost.get(tag, name) {
                return Some(number);
            }
            open = outer;
        }
        None
    }
}
