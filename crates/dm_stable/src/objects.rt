//! What the trees of a unit do to its objects.

ghost use Rattle.std.specs.Prelude.{◌≡◌, ℕ, false, IfOk, map};
ghost use Rattle.std.specs.List.{list_any};
ghost use Rattle.dm_type.specs.Tables.{Table};
ghost use Rattle.dm_tree.specs.Views.{view, view_of_external, view_of_form, view_of_unit};
ghost use Rattle.dm_effect.specs.Entities as entities;
ghost use Rattle.dm_effect.specs.Safe as safe;
ghost use Rattle.dm_stable.specs.Marks.{Deed, Follows, Tells, found, mark_at, marks_of, own, told_by};
ghost use Rattle.dm_stable.specs.Objects.{AreNoted};

use crate::marking::{note_initials_of, note_tree, note_trees};
use crate::marks::{Mark, Marks, note_locals, note_parameters};
use dm_token::Memory;
use dm_tree::{Core, CoreExternal, CoreExternalForm, CoreUnit};
use std::alloc::Global;
use std::marker::Model;

/// What the trees of a unit do to its objects, so that it needn't be looked for again at each. Contracts see the unit.
#[derive(Drop)]
pub struct Objects<'a> {
    unit: &'a CoreUnit,
    marks: Marks,
}

impl<'a> Model for Objects<'a> {
    ghost use Rattle.std.specs.Coded.{codes};
    ghost use Rattle.dm_tree.specs.contracts.tree.Core as core;
    ghost use Rattle.dm_tree.specs.contracts.tree.Initial as initial;
    ghost use Rattle.dm_tree.specs.contracts.tree.Local as local;
    ghost use Rattle.dm_tree.specs.declared.unit.CoreUnit.{CoreUnit as OneUnit};
    ghost use Rattle.dm_stable.specs.Objects.{AreNoted};

    ghost Value = { OneUnit };

    ghost coded = { Prim.hlevel (codes, core.the_row.coded, initial.the_row.coded, local.the_row.coded) };

    ghost view = { λ all. all.unit.now };

    ghost invariant = { λ all. AreNoted all.unit.now all.marks };
}

impl<'a> Objects<'a> {
    /// What the trees of a unit do, found in one pass over them.
    pub fn of(alloc: Global, unit: &'a CoreUnit) -> Result<Objects<'a>, Memory>
        ensures { IfOk result (λ made. made ≡ unit.now) }
    {
        let marks = noted(alloc, unit)?;
        Ok(Objects { unit, marks })
    }

    /// The unit.
    pub fn unit(&self) -> &'a CoreUnit
        ensures { result.now ≡ self.now }
    {
        self.unit
    }

    /// Whether the address of an object is taken by its name somewhere in the unit.
    pub fn is_addressed(&self, object: u32) -> bool
        ensures { (types : Table) → result ≡ entities.is_addressed (view_of_unit types self.now) object }
    {
        match told(mark_of(self.marks.addressed.as_slice(), object), 0) {
            Some(answer) => answer,
            None => dm_effect::is_addressed(self.unit, object),
        }
    }

    /// Whether a declarator of the unit defines the object.
    pub fn is_defined(&self, object: u32) -> bool
        ensures { (types : Table) → result ≡ safe.is_defined (view_of_unit types self.now) object }
    {
        match told(mark_of(self.marks.defined.as_slice(), object), 0) {
            Some(answer) => answer,
            None => dm_effect::is_defined(self.unit, object),
        }
    }

    /// Whether a declarator of the unit initialises the object, outside of whose initialiser an argument stands.
    pub fn is_initialised(&self, argument: &Core, object: u32) -> bool
        ensures { (types : Table) → result ≡ safe.is_initialised (view_of_unit types self.now) (view types argument.now) object }
    {
        match told(
            mark_of(self.marks.initialised.as_slice(), object),
            argument.inner.first,
        ) {
            Some(answer) => answer,
            None => dm_effect::is_initialised(self.unit, argument, object),
        }
    }

    /// Whether the object is a parameter of a function that the unit defines.
    pub fn is_parameter(&self, object: u32) -> bool
        ensures { (types : Table) → result ≡ safe.is_parameter (view_of_unit types self.now) object }
    {
        match told(mark_of(self.marks.received.as_slice(), object), 0) {
            Some(answer) => answer,
            None => dm_effect::is_parameter(self.unit, object),
        }
    }
}

/// The mark of an object.
fn mark_of(marks: &[Mark], object: u32) -> Mark
    ensures { result ≡ mark_at marks.now object }
{
    match marks.get(object as usize) {
        Some(mark) => *mark,
        None => Mark::Open,
    }
}

/// What a mark says, where an argument begins at a token.
fn told(mark: Mark, token: u32) -> Option<bool>
    ensures { result ≡ told_by mark token }
{
    match mark {
        Mark::No => Some(false),
        Mark::Outside(span) => Some(!(span.first <= token && token < span.after)),
        Mark::Yes => Some(true),
        Mark::Open => None,
    }
}

/// What is noted of a unit.
fn noted(alloc: Global, unit: &CoreUnit) -> Result<Marks, Memory>
    ensures { IfOk result (λ made. AreNoted unit.now made) }
{
    let mut marks = no_marks(alloc, unit.declared.len())?;
    note_externals(unit.externals.items(), &mut marks);
    Ok(marks)
}

/// The marks of so many objects to which nothing is done.
fn no_marks(alloc: Global, count: usize) -> Result<Marks, Memory>
    ensures { IfOk result (λ made. (deed : Deed) (d token : ℕ) → Tells (mark_at (marks_of deed made) d) token false) }
{
    let addressed = unmarked(alloc, count)?;
    let defined = unmarked(alloc, count)?;
    let initialised = unmarked(alloc, count)?;
    let received = unmarked(alloc, count)?;
    Ok(Marks {
        addressed,
        defined,
        initialised,
        received,
    })
}

/// So many marks for objects to which nothing is done.
fn unmarked(alloc: Global, count: usize) -> Result<Vec<Mark>, Memory>
    ensures { IfOk result (λ made. (d token : ℕ) → Tells (mark_at made.items d) token false) }
{
    let mut marks = Vec::new(alloc);
    while marks.len() < count {
        marks.push(Mark::No)?;
    }
    Ok(marks)
}

/// What some external declarations do.
fn note_externals(externals: &[CoreExternal], marks: &mut Marks)
    ensures { (types : Table) (deed : Deed) → Follows (λ d token. list_any (found deed d token) (map (view_of_external types) externals.now)) (marks_of deed marks.old) (marks_of deed marks.new) }
{
    let mut left = externals;
    while let Some((external, rest)) = left.split_first() {
        note_external(external, marks);
        left = rest;
    }
}

/// What an external declaration does.
fn note_external(external: &CoreExternal, marks: &mut Marks)
    ensures { (types : Table) (deed : Deed) → Follows (λ d token. found deed d token (view_of_external types external.now)) (marks_of deed marks.old) (marks_of deed marks.new) }
{
    note_own(&external.form, marks);
    note_trees(external.constants.items(), marks);
    match &external.form {
        CoreExternalForm::Declaration(locals) => note_initials_of(locals.items(), marks),
        CoreExternalForm::Function {
            function: _,
            parameters: _,
            body,
        } => note_tree(body, marks),
    }
}

/// What its own declarators or parameters do.
fn note_own(form: &CoreExternalForm, marks: &mut Marks)
    ensures { (types : Table) (deed : Deed) → Follows (λ d token. own deed d token (view_of_form types form.now)) (marks_of deed marks.old) (marks_of deed marks.new) }
{
    match form {
        CoreExternalForm::Declaration(locals) => note_locals(locals.items(), marks),
        CoreExternalForm::Function {
            function: _,
            parameters,
            body: _,
        } => note_parameters(parameters.items(), &mut marks.received),
    }
}
