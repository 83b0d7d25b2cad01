//! Declarators, which grow at both ends.

ghost use Rattle.std.specs.Prelude.{◌≡◌, ◌++◌, [], OnOk, IfOk, slice_get, codes};
ghost use Rattle.dm_type.specs.Spelling as spelling;

use dm_token::Memory;
use itoa::Buffer;
use std::alloc::Global;
use std::marker::Model;

/// The text of a declarator (6.7.6). Contracts see its bytes.
#[derive(Drop)]
pub(crate) struct Declarator {
    /// Its first bytes, the last of them first.
    front: Vec<u8>,
    back: Vec<u8>,
}

impl Model for Declarator {
    ghost use Rattle.std.specs.Prelude.{List, ℕ, ◌++◌, reverse};
    ghost use Rattle.std.specs.Coded.{coded_list, coded_ℕ};

    ghost Value = { List ℕ };

    ghost coded = { coded_list coded_ℕ };

    ghost view = { λ declarator. reverse declarator.front.items ++ declarator.back.items };
}

impl Declarator {
    /// The empty declarator.
    pub(crate) fn new(alloc: Global) -> Declarator
        ensures { result ≡ [] }
    {
        Declarator {
            front: Vec::new(alloc),
            back: Vec::new(alloc),
        }
    }

    pub(crate) fn put_before(&mut self, bytes: &[u8]) -> Result<(), Memory>
        ensures { OnOk result (self.new ≡ bytes.now ++ self.old) }
    {
        let mut left = bytes;
        while let Some((last, others)) = left.split_last() {
            self.front.push(*last)?;
            left = others;
        }
        Ok(())
    }

    pub(crate) fn put_behind(&mut self, bytes: &[u8]) -> Result<(), Memory>
        ensures { OnOk result (self.new ≡ self.old ++ bytes.now) }
    {
        self.back.extend_from_slice(bytes)?;
        Ok(())
    }

    /// The other declarator behind this one.
    pub(crate) fn join(&mut self, other: Declarator) -> Result<(), Memory>
        ensures { OnOk result (self.new ≡ self.old ++ other) }
    {
        let Declarator { mut front, back } = other;
        while let Some(byte) = front.pop() {
            self.back.push(byte)?;
        }
        self.back.extend_from_slice(back.as_slice())?;
        Ok(())
    }

    /// The first byte, if there is one.
    fn first(&self) -> Option<u8>
        ensures { result ≡ slice_get self.now 0 }
    {
        match self.front.last() {
            Some(byte) => Some(*byte),
            None => self.back.first().copied(),
        }
    }

    /// The declarator of a pointer, const or not.
    pub(crate) fn point(&mut self, qualified: bool) -> Result<(), Memory>
        ensures { OnOk result (self.new ≡ spelling.starred qualified self.old) }
    {
        if !qualified {
            return self.put_before(b"*");
        }
        self.specify(false, b"*const")
    }

    /// Puts a declarator that begins with a star into parentheses.
    pub(crate) fn wrap(&mut self) -> Result<(), Memory>
        ensures { OnOk result (self.new ≡ spelling.wrapped self.old) }
    {
        if self.first() == Some(b'*') {
            self.put_before(b"(")?;
            self.put_behind(b")")?;
        }
        Ok(())
    }

    /// The declarator of an array.
    pub(crate) fn count(&mut self, length: Option<u64>) -> Result<(), Memory>
        ensures { OnOk result (self.new ≡ spelling.wrapped self.old ++ spelling.bracketed length) }
    {
        self.wrap()?;
        self.put_behind(b"[")?;
        if let Some(length) = length {
            let mut buffer = Buffer::new();
            self.put_behind(buffer.format(length).as_bytes())?;
        }
        self.put_behind(b"]")
    }

    /// The declaration with these words.
    pub(crate) fn specify(&mut self, qualified: bool, words: &[u8]) -> Result<(), Memory>
        ensures { OnOk result (self.new ≡ spelling.specified qualified words.now self.old) }
    {
        if self.first().is_some() {
            self.put_before(b" ")?;
        }
        self.put_before(words)?;
        if qualified {
            self.put_before(b"const ")?;
        }
        Ok(())
    }

    /// The declaration of a struct with this tag.
    pub(crate) fn specify_struct(&mut self, qualified: bool, tag: &[u8]) -> Result<(), Memory>
        ensures { OnOk result (self.new ≡ spelling.specified qualified (codes "struct " ++ tag.now) self.old) }
    {
        if self.first().is_some() {
            self.put_before(b" ")?;
        }
        self.put_before(tag)?;
        self.put_before(b"struct ")?;
        if qualified {
            self.put_before(b"const ")?;
        }
        Ok(())
    }

    /// The bytes in order.
    pub(crate) fn into_bytes(self) -> Result<Vec<u8>, Memory>
        ensures { IfOk result (λ bytes. bytes.items ≡ self) }
    {
        let Declarator { mut front, back } = self;
        front.reverse();
        front.extend_from_slice(back.as_slice())?;
        Ok(front)
    }
}
