ghost use Rattle.std.specs.Prelude.{◌≡◌, ◌≤◌, IfOk, length, slice_range};

use crate::stop::Memory;
use std::alloc::Global;
use std::cmp::Ordering;
use std::fmt;
use std::hash::{Hash, Hasher};
use std::marker::Model;
use std::rc::Rc;

/// Bytes that texts are cut from without copying: they share the one allocation.
#[derive(Drop)]
pub struct Buffer {
    bytes: Rc<Vec<u8>>,
}

impl Model for Buffer {
    ghost use Rattle.std.specs.Prelude.{List, ℕ, ◌<◌, ◌^◌, length};
    ghost use Rattle.std.specs.Coded.{coded_list, coded_ℕ};

    ghost Value = { List ℕ };

    ghost coded = { coded_list coded_ℕ };

    ghost view = { λ buffer. buffer.bytes.value.items };

    ghost invariant = { λ buffer. length buffer.bytes.value.items < 2 ^ 32 };
}

impl Buffer {
    /// The bytes of a `Vec`, which isn't copied. 4,294,967,296 bytes or more count as want of memory.
    pub fn new(alloc: Global, bytes: Vec<u8>) -> Result<Buffer, Memory>
        ensures { IfOk result (λ buffer. buffer ≡ bytes.items) }
    {
        if bytes.len() > u32::MAX as usize {
            return Err(Memory);
        }
        let bytes = Rc::new(alloc, bytes)?;
        Ok(Buffer { bytes })
    }

    pub fn bytes(&self) -> &[u8]
        ensures { result.now ≡ self.now }
    {
        self.bytes.as_ref().as_slice()
    }

    /// The bytes from one offset up to another, which are shared and not copied.
    pub fn text(&self, from: usize, to: usize) -> Result<Text, Memory>
        requires ordered { from ≤ to }
        requires inside { to ≤ length self.now }
        ensures { IfOk result (λ text. text ≡ slice_range self.now from to) }
    {
        let bytes = self.bytes.clone()?;
        Ok(Text {
            bytes,
            from: from as u32,
            to: to as u32,
        })
    }
}

/// Bytes of a source file, a name or a report. They need not be UTF-8, and contracts see them as a list of numbers
/// below 256. Texts may share their bytes, so a copy takes no room for them.
#[derive(Drop)]
pub struct Text {
    bytes: Rc<Vec<u8>>,
    from: u32,
    to: u32,
}

impl Model for Text {
    ghost use Rattle.std.specs.Prelude.{List, ℕ, ◌≤◌, length, slice_range};
    ghost use Rattle.std.specs.Coded.{coded_list, coded_ℕ};

    ghost Value = { List ℕ };

    ghost coded = { coded_list coded_ℕ };

    ghost view = { λ text. slice_range text.bytes.value.items text.from text.to };

    ghost invariant = { λ text. (text.from ≤ text.to) × (text.to ≤ length text.bytes.value.items) };
}

impl Text {
    /// A copy of the words' bytes.
    pub fn new(alloc: Global, words: &str) -> Result<Text, Memory>
        ensures { IfOk result (λ text. text ≡ words.now) }
    {
        Text::from_bytes(alloc, words.as_bytes())
    }

    /// A copy of the bytes.
    pub fn from_bytes(alloc: Global, bytes: &[u8]) -> Result<Text, Memory>
        ensures { IfOk result (λ text. text ≡ bytes.now) }
    {
        Text::from_vec(alloc, Vec::from_slice(alloc, bytes)?)
    }

    /// The bytes of a `Vec`, which isn't copied. 4,294,967,296 bytes or more count as want of memory.
    pub fn from_vec(alloc: Global, bytes: Vec<u8>) -> Result<Text, Memory>
        ensures { IfOk result (λ text. text ≡ bytes.items) }
    {
        let buffer = Buffer::new(alloc, bytes)?;
        let length = buffer.bytes().len();
        buffer.text(0, length)
    }

    /// The same bytes, which are shared.
    pub fn copy(&self) -> Result<Text, Memory>
        ensures { IfOk result (λ text. text ≡ self.now) }
    {
        let bytes = self.bytes.clone()?;
        Ok(Text {
            bytes,
            from: self.from,
            to: self.to,
        })
    }

    pub fn bytes(&self) -> &[u8]
        ensures { result.now ≡ self.now }
    {
        &self.bytes.as_ref()[self.from as usize..self.to as usize]
    }
}

impl fmt::Debug for Text {
    fn fmt<W: fmt::Write>(&self, f: &mut fmt::Formatter<W>) -> fmt::Result {
        fmt::Debug::fmt(self.bytes(), f)
    }
}

impl fmt::Debug for Buffer {
    fn fmt<W: fmt::Write>(&self, f: &mut fmt::Formatter<W>) -> fmt::Result {
        fmt::Debug::fmt(self.bytes(), f)
    }
}

impl PartialEq for Text {
    ghost use Rattle.std.specs.Prelude.{nat_eq};
    ghost use Rattle.std.specs.Cmp.Lexicographic.{pointwise};
    ghost use Rattle.std.specs.Cmp.{partial_equiv_from_equiv};
    ghost use Rattle.std.proofs.lemmas.Cmp.{nat_list_eq_equiv};

    ghost eq = { pointwise nat_eq };

    ghost laws = { partial_equiv_from_equiv nat_list_eq_equiv };

    fn eq(&self, other: &Text) -> bool {
        self.bytes() == other.bytes()
    }
}

impl Eq for Text {
    ghost use Rattle.std.proofs.lemmas.Cmp.{nat_list_eq_equiv};

    ghost laws = { nat_list_eq_equiv };
}

impl PartialOrd for Text {
    ghost use Rattle.std.specs.Prelude.{Some};
    ghost use Rattle.std.specs.Ordering.{nat_cmp};
    ghost use Rattle.std.specs.Cmp.Lexicographic.{slice_cmp, texts_po};

    ghost partial_cmp = { λ a b. Some (slice_cmp nat_cmp a b) };

    ghost laws = { texts_po };

    fn partial_cmp(&self, other: &Text) -> Option<Ordering> {
        Some(self.cmp(other))
    }
}

/// By the bytes, from the first on; a text comes before a longer one that begins with it.
impl Ord for Text {
    ghost use Rattle.std.proofs.Common.{refl};
    ghost use Rattle.std.specs.Ordering.{nat_cmp};
    ghost use Rattle.std.specs.Cmp.Lexicographic.{slice_cmp, nat_list_cmp_total, texts_ties};

    ghost cmp = { slice_cmp nat_cmp };

    ghost total = { nat_list_cmp_total };

    ghost matches_partial_cmp = { λ a b. refl };

    ghost matches_eq = { texts_ties };

    fn cmp(&self, other: &Text) -> Ordering {
        self.bytes().cmp(other.bytes())
    }
}

impl Hash for Text {
    ghost use Rattle.std.specs.Hash as fed;
    ghost use Rattle.std.proofs.Common.{rules};
    ghost use Rattle.std.specs.Cmp.Rules.{hashing};

    ghost hash_input = { fed.slice fed.u8 };

    ghost respects_eq = { Prim.search (hashing, rules) };

    fn hash<H: Hasher>(&self, state: &mut H) {
        self.bytes().hash(state);
    }
}
