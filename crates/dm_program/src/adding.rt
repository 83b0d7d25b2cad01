//! The objects of static storage duration that declarators define, in order (6.2.4p3, 6.9.2).

ghost use Rattle.std.specs.Prelude.{◌≡◌, ◌<◌, [], ◌∷◌, ◌++◌, IfOk, OnOk, length, map, None, Some, replicate, slice_get, slice_set};
ghost use Rattle.std.specs.List.{list_all};
ghost use Rattle.dm_type.specs.Tables.{Table};
ghost use Rattle.dm_tree.specs.TypeNumbers.{are_known_in_local};
ghost use Rattle.dm_tree.specs.Views.{view_of_local, entries_of};
ghost use Rattle.dm_meaning.specs.Programs as programs;
ghost use Rattle.dm_meaning.specs.Units as units;
ghost use Rattle.dm_program.specs.Gathering.{as_local, completed, Gathers, IsAdded};
ghost use Rattle.dm_program.specs.Placing.{place_of};
ghost use Rattle.dm_program.specs.declared.fixed.Static.{Static as OneStatic};

use crate::fixed::Static;
use crate::gathering::Gathering;
use dm_token::Memory;
use dm_tree::{Declared, Initial, Local, Sort};
use dm_value::nth;
use std::alloc::Global;

impl<'a> Gathering<'a> {
    /// None yet.
    pub fn new(alloc: Global, declared: &'a [Declared]) -> Result<Gathering<'a>, Memory>
        ensures { IfOk result (λ made. (made.declared.now ≡ declared.now) × (made.statics.items ≡ [])) }
    {
        let places = no_places(alloc, declared.len())?;
        Ok(Gathering {
            declared,
            statics: Vec::new(alloc),
            places,
        })
    }

    /// Those that declarators define. Where one is defined before, the initialiser is added.
    pub fn locals(&mut self, locals: &'a [Local]) -> Result<(), Memory>
        ensures { OnOk result (Gathers self.old (λ n. list_all (are_known_in_local n) locals.now) (λ table. map as_local (map (view_of_local table) locals.now)) self.new) }
    {
        let mut left = locals;
        while let Some((local, rest)) = left.split_first() {
            self.local(local)?;
            left = rest;
        }
        Ok(())
    }

    /// The one that a declarator defines, if it defines one.
    fn local(&mut self, local: &'a Local) -> Result<(), Memory>
        ensures { OnOk result (Gathers self.old (λ n. are_known_in_local n local.now) (λ table. as_local (view_of_local table local.now) ∷ []) self.new) }
    {
        if self.is_static(local) {
            self.add(local.declared, local.initial.as_ref())?;
        }
        Ok(())
    }

    /// The object of a declaration is defined, with this initialiser or without one.
    fn add(&mut self, number: u32, initial: Option<&'a Initial>) -> Result<(), Memory>
        requires { number < length self.old.declared.now }
        ensures { OnOk result (IsAdded self.old (record { declared = number; initial = initial.entry }) self.new) }
    {
        match self.place(number) {
            Some(at) => {
                self.complete(at, initial);
                Ok(())
            }
            None => {
                self.append(number, initial)?;
                Ok(())
            }
        }
    }

    /// Where the object of a declaration stands, if it is there.
    fn place(&self, number: u32) -> Option<usize>
        ensures { result ≡ place_of self.now.places.items number }
    {
        match nth(self.places.as_slice(), number as usize) {
            Some(place) => *place,
            None => None,
        }
    }

    /// An object has this initialiser, if it is one.
    fn complete(&mut self, at: usize, initial: Option<&'a Initial>)
        requires { at < length self.old.statics.items }
        ensures statics { (one : OneStatic) → slice_get self.old.statics.items at ≡ Some one → self.new.statics.items ≡ slice_set self.old.statics.items at (completed one initial.entry) }
        ensures declared { self.new.declared.now ≡ self.old.declared.now }
    {
        if initial.is_some() {
            let declared = self.statics[at].declared;
            self.statics[at] = Static { declared, initial };
        }
    }

    /// One more object.
    fn append(&mut self, number: u32, initial: Option<&'a Initial>) -> Result<(), Memory>
        requires fresh { place_of self.old.places.items number ≡ None }
        requires within { number < length self.old.declared.now }
        ensures statics { OnOk result (self.new.statics.items ≡ self.old.statics.items ++ record { declared = number; initial = initial.entry } ∷ []) }
        ensures declared { self.new.declared.now ≡ self.old.declared.now }
    {
        let place = self.statics.len();
        self.statics.push(Static {
            declared: number,
            initial,
        })?;
        self.places[number as usize] = Some(place);
        Ok(())
    }

    /// Whether a declarator defines an object of static storage duration.
    fn is_static(&self, local: &Local) -> bool
        ensures { (table : Table) → result ≡ units.is_static (entries_of table self.now.declared.now) (as_local (view_of_local table local.now)) }
    {
        if !local.defines {
            return false;
        }
        match nth(self.declared, local.declared as usize) {
            Some(entry) => is_static_sort(entry.sort),
            None => false,
        }
    }
}

/// Whether a name stands for an object of static storage duration.
fn is_static_sort(sort: Sort) -> bool
    ensures { result ≡ units.is_static_sort sort }
{
    match sort {
        Sort::Object { fixed } => fixed,
        _ => false,
    }
}

/// No place for each of so many numbers.
fn no_places(alloc: Global, count: usize) -> Result<Vec<Option<usize>>, Memory>
    ensures { IfOk result (λ made. made.items ≡ replicate count None) }
{
    let mut all = Vec::new(alloc);
    while all.len() < count {
        all.push(None)?;
    }
    Ok(all)
}
