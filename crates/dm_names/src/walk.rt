//! Identifiers and declarations on the way through a unit (6.2.1, 6.2.3).

ghost use Rattle.std.specs.Prelude.{◌≡◌, IfOk, OnOk};
ghost use Rattle.dm_names.specs.Scopes as scopes;
ghost use Rattle.dm_names.specs.Seen as seen;
ghost use Rattle.dm_names.specs.Walks.{source_in};

use crate::identifier::{Entered, Identifier};
use crate::nest::Scope;
use crate::seen::Seen;
use dm_token::{CToken, Memory, Text};
use std::alloc::Global;

/// The tokens of a unit, and the numbers of the entries that its declarators declare, in order.
#[derive(Drop)]
pub(crate) struct Walk<'a> {
    pub alloc: Global,
    pub tokens: &'a [CToken],
    pub numbers: &'a [u32],
}

impl Walk<'_> {
    /// The spelling of a token, which is shared.
    fn spelling(&self, at: u32) -> Result<Text, Memory>
        ensures { IfOk result (λ text. text ≡ seen.spelled (source_in self.now) at) }
    {
        match self.tokens.get(at as usize) {
            Some(token) => token.spelling.copy(),
            None => Text::new(self.alloc, ""),
        }
    }

    /// A name or a tag at a token, with what it means.
    pub(crate) fn mentioned(&self, so_far: &mut Seen, tag: bool, at: u32) -> Result<(), Memory>
        ensures { OnOk result (so_far.new ≡ seen.mentioned (source_in self.now) tag at so_far.old) }
    {
        let name = self.spelling(at)?;
        let number = so_far.scopes.meaning(tag, &name);
        so_far.identifiers.push(Identifier { at, tag, number })?;
        Ok(())
    }

    /// The declaration of a name or a tag, and its mention.
    fn declaring(&self, so_far: &mut Seen, tag: bool, at: u32, number: u32) -> Result<(), Memory>
        ensures { OnOk result (so_far.new ≡ seen.declaring (source_in self.now) tag at number so_far.old) }
    {
        let name = self.spelling(at)?;
        declare(so_far, tag, &name, number)?;
        self.mentioned(so_far, tag, at)
    }

    /// The same of a tag, an enumerator or a parameter, which has a new entry.
    pub(crate) fn declaring_new(&self, so_far: &mut Seen, tag: bool, at: u32) -> Result<(), Memory>
        ensures { OnOk result (so_far.new ≡ seen.declaring_new (source_in self.now) tag at so_far.old) }
    {
        let number = so_far.entries;
        self.declaring(so_far, tag, at, number)?;
        so_far.entries = number.checked_add(1).ok_or(Memory)?;
        Ok(())
    }

    /// The same of a declarator, which has an entry of its own or an earlier one.
    fn declaring_next(&self, so_far: &mut Seen, at: u32, number: u32) -> Result<(), Memory>
        ensures { OnOk result (so_far.new ≡ seen.declaring_next (source_in self.now) at number so_far.old) }
    {
        let declarators = so_far.declarators.checked_add(1).ok_or(Memory)?;
        let entries = so_far.entries.max(number.checked_add(1).ok_or(Memory)?);
        self.declaring(so_far, false, at, number)?;
        so_far.declarators = declarators;
        so_far.entries = entries;
        Ok(())
    }

    /// The number of the entry of the next declarator.
    fn number_here(&self, so_far: &Seen) -> u32
        ensures { result ≡ seen.number_here (source_in self.now) so_far.now }
    {
        match self.numbers.get(so_far.declarators as usize) {
            Some(number) => *number,
            None => so_far.entries,
        }
    }

    /// The name that a declarator declares, if it has one.
    pub(crate) fn naming(&self, so_far: &mut Seen, name: Option<u32>) -> Result<(), Memory>
        ensures { OnOk result (so_far.new ≡ seen.naming (source_in self.now) name so_far.old) }
    {
        let number = self.number_here(so_far);
        match name {
            Some(at) => self.declaring_next(so_far, at, number),
            None => Ok(()),
        }
    }

    /// And that of a parameter.
    pub(crate) fn naming_new(&self, so_far: &mut Seen, name: Option<u32>) -> Result<(), Memory>
        ensures { OnOk result (so_far.new ≡ seen.naming_new (source_in self.now) name so_far.old) }
    {
        match name {
            Some(at) => self.declaring_new(so_far, false, at),
            None => Ok(()),
        }
    }

    /// Whether `struct` with a tag alone names a struct that is declared already (6.7.2.3p7, p8).
    fn is_known_tag(&self, so_far: &Seen, alone: bool, at: u32) -> Result<bool, Memory>
        ensures { IfOk result (λ known. known ≡ seen.is_known_tag alone (seen.spelled (source_in self.now) at) so_far.now.scopes) }
    {
        let name = self.spelling(at)?;
        if alone {
            Ok(so_far.scopes.is_declared(true, &name))
        } else {
            Ok(so_far.scopes.meaning(true, &name).is_some())
        }
    }

    /// `struct` with a tag alone.
    pub(crate) fn struct_named(
        &self,
        so_far: &mut Seen,
        alone: bool,
        tag: Option<u32>,
    ) -> Result<(), Memory>
        ensures { OnOk result (so_far.new ≡ seen.struct_named (source_in self.now) alone tag so_far.old) }
    {
        let Some(at) = tag else {
            return Ok(());
        };
        if self.is_known_tag(so_far, alone, at)? {
            self.mentioned(so_far, true, at)
        } else {
            self.declaring_new(so_far, true, at)
        }
    }

    /// `enum` with a tag alone.
    pub(crate) fn enum_named(&self, so_far: &mut Seen, tag: Option<u32>) -> Result<(), Memory>
        ensures { OnOk result (so_far.new ≡ seen.enum_named (source_in self.now) tag so_far.old) }
    {
        match tag {
            Some(at) => self.mentioned(so_far, true, at),
            None => Ok(()),
        }
    }

    /// `enum` with enumerators.
    pub(crate) fn enum_begun(&self, so_far: &mut Seen, tag: Option<u32>) -> Result<(), Memory>
        ensures { OnOk result (so_far.new ≡ seen.enum_begun (source_in self.now) tag so_far.old) }
    {
        match tag {
            Some(at) => self.declaring_new(so_far, true, at),
            None => Ok(()),
        }
    }

    /// A scope opens, in which nothing is declared.
    pub(crate) fn open(&self, so_far: &mut Seen) -> Result<(), Memory>
        ensures { OnOk result (so_far.new ≡ seen.opened scopes.nothing_declared so_far.old) }
    {
        so_far.scopes.enter(Scope::new(self.alloc))
    }
}

/// The declaration of a name or a tag in the innermost scope.
fn declare(so_far: &mut Seen, tag: bool, name: &Text, number: u32) -> Result<(), Memory>
    ensures { OnOk result (so_far.new ≡ seen.declared tag name.now number so_far.old) }
{
    let is_new = so_far.scopes.is_file_scope() && !so_far.scopes.is_declared(tag, name);
    enter_if(so_far, is_new, tag, name, number)?;
    so_far.scopes.declare(tag, name.copy()?, number)
}

/// What is declared first in file scope is noted.
fn enter_if(
    so_far: &mut Seen,
    is_new: bool,
    tag: bool,
    name: &Text,
    number: u32,
) -> Result<(), Memory>
    ensures { OnOk result (so_far.new ≡ seen.with_entered is_new tag name.now number so_far.old) }
{
    if is_new {
        let name = name.copy()?;
        so_far.entered.push(Entered { name, tag, number })?;
    }
    Ok(())
}

/// The innermost scope closes.
pub(crate) fn close(so_far: &mut Seen)
    ensures { so_far.new ≡ seen.closed so_far.old }
{
    let scope = so_far.scopes.leave();
    drop(scope);
}

/// The scope of a parameter list closes. It is kept where none was kept before.
pub(crate) fn close_list(so_far: &mut Seen, before: Option<Scope>)
    ensures { so_far.new ≡ seen.list_closed before so_far.old }
{
    let scope = so_far.scopes.leave();
    so_far.own = match before {
        Some(first) => Some(first),
        None => scope,
    };
}
