//! The scopes that are open at a place of a translation unit.

ghost use Rattle.std.specs.Prelude.{◌≡◌, ◌<◌, ◌∷◌, [], Ok, true, false, not, length, drop, IfOk, OnOk, OnErr};
ghost use Rattle.std.specs.FinMap as finite;
ghost use Rattle.dm_scope.specs.Scopes as scopes;

use dm_name_map::NameMap;
use dm_token::{Memory, Text};
use std::alloc::Global;
use std::marker::Model;

/// The scopes that are open (6.2.1). Contracts see a list of finite maps from names to numbers, the innermost scope
/// first. A look-up asks each open scope for the name, and walks no declarations.
#[derive(Drop)]
pub struct Scopes {
    /// From the outside inwards.
    maps: Vec<NameMap>,
}

impl Model for Scopes {
    ghost use Rattle.std.specs.Prelude.{ℕ, ◌<◌, length, reverse};
    ghost use Rattle.std.specs.Coded.{coded_list, coded_ℕ};
    ghost use Rattle.std.specs.FinMap as finite;
    ghost use Rattle.dm_scope.specs.Scopes.{Scopes as Seen};

    ghost Value = { Seen };

    ghost coded = { coded_list (finite.code (coded_list coded_ℕ) coded_ℕ) };

    ghost view = { λ scopes. reverse scopes.maps.items };

    ghost invariant = { λ scopes. 0 < length scopes.maps.items };
}

impl Scopes {
    /// One scope that declares nothing.
    pub fn new(alloc: Global) -> Result<Scopes, Memory>
        ensures { IfOk result (λ opened. opened ≡ finite.empty ∷ []) }
    {
        let mut maps = Vec::new(alloc);
        maps.push(NameMap::new(alloc))?;
        Ok(Scopes { maps })
    }

    /// Opens a scope inside the innermost one. After an `Err` nothing is changed.
    pub fn enter(&mut self) -> Result<(), Memory>
        ensures ok { OnOk result (self.new ≡ finite.empty ∷ self.old) }
        ensures err { OnErr result (self.new ≡ self.old) }
    {
        let alloc = *self.maps.allocator();
        self.maps.push(NameMap::new(alloc))?;
        Ok(())
    }

    /// Closes the innermost scope, which `enter` opened.
    pub fn leave(&mut self)
        requires { 1 < length self.old }
        ensures { self.new ≡ drop 1 self.old }
    {
        let innermost = self.maps.pop();
        drop(innermost);
    }

    /// How many scopes are open.
    pub fn depth(&self) -> usize
        ensures { result ≡ length self.now }
    {
        self.maps.len()
    }

    /// Whether the innermost scope declares a name.
    pub fn is_declared(&self, name: &Text) -> bool
        ensures { result ≡ scopes.is_declared self.now name.now }
    {
        let last = self.maps.len() - 1;
        self.maps[last].get(name).is_some()
    }

    /// Declares a name in the innermost scope. False where that scope declares it already, and then nothing is changed,
    /// as after an `Err`.
    pub fn declare(&mut self, name: &Text, number: u32) -> Result<bool, Memory>
        ensures new { IfOk result (λ new. new ≡ not (scopes.is_declared self.old name.now)) }
        ensures declared { result ≡ Ok true → self.new ≡ scopes.declared self.old name.now number }
        ensures twice { result ≡ Ok false → self.new ≡ self.old }
        ensures err { OnErr result (self.new ≡ self.old) }
    {
        let last = self.maps.len() - 1;
        let innermost = &mut self.maps[last];
        if innermost.get(name).is_some() {
            return Ok(false);
        }
        innermost.insert(name.copy()?, number)?;
        Ok(true)
    }

    /// The number of the innermost declaration of a name. None where no open scope declares it.
    pub fn resolve(&self, name: &Text) -> Option<u32>
        ensures { result ≡ scopes.number_of self.now name.now }
    {
        let mut maps = self.maps.as_slice();
        while let Some((innermost, outer)) = maps.split_last() {
            if let Some(number) = innermost.get(name) {
                return Some(number);
            }
            maps = outer;
        }
        None
    }
}
