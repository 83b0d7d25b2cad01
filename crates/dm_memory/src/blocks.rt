//! The objects that a run has made (6.2.4, 6.2.6).

ghost use Rattle.std.specs.Prelude.{false, ◌<◌, ◌++◌, length, OnOk, OnErr, ◌≡◌, ◌∷◌, [], IfOk, MatchOption, IfNone, IfSome, None, Some, slice_get};
ghost use Rattle.dm_type.specs.Tables.{IsId, Table};
ghost use Rattle.dm_meaning.specs.Causes as causes;
ghost use Rattle.dm_meaning.specs.Memory as memory;
ghost use Rattle.dm_memory.specs.Blocks.{view_of_block, view_of_blocks, AreKnown, IsExchanged};
ghost use Rattle.dm_value.specs.Places.{view_of_at, view_of_name};
ghost use Rattle.dm_value.specs.Views.{view_of_value};

use crate::literal;
use dm_token::Memory;
use dm_type::TypeId;
use dm_value::{At, Name, Value, nth};
use std::alloc::Global;
use std::marker::Model;
use std::mem;

/// An object.
#[derive(Drop)]
pub struct Block {
    pub kind: TypeId,
    pub contents: Value,
    /// Whether its lifetime hasn't ended (6.2.4p2).
    pub alive: bool,
    pub writable: bool,
}

/// The objects of a run. The number of one is that of those that were made before it.
#[derive(Drop)]
pub struct Blocks {
    all: Vec<Block>,
}

impl Model for Blocks {
    ghost use Rattle.std.specs.Prelude.{List};
    ghost use Rattle.std.specs.Coded.{codes};
    ghost use Rattle.dm_value.specs.contracts.value.Value as value;
    ghost use Rattle.dm_memory.specs.declared.blocks.Block.{Block};

    ghost Value = { List Block };

    ghost coded = { Prim.hlevel (codes, value.the_row.coded) };

    ghost view = { λ blocks. blocks.all.items };
}

impl Blocks {
    /// No object. It takes no memory.
    pub fn new(alloc: Global) -> Blocks
        ensures { result ≡ [] }
    {
        Blocks {
            all: Vec::new(alloc),
        }
    }

    /// One more object, and its number. After an `Err` nothing is changed.
    pub fn add(&mut self, block: Block) -> Result<u64, Memory>
        ensures number { IfOk result (λ number. number ≡ length self.old) }
        ensures ok { OnOk result (self.new ≡ self.old ++ block ∷ []) }
        ensures view { (table : Table) → OnOk result (view_of_blocks table self.new ≡ (length self.old, view_of_block table block) ∷ view_of_blocks table self.old) }
        ensures err { OnErr result (self.new ≡ self.old) }
    {
        let number = self.all.len() as u64;
        self.all.push(block)?;
        Ok(number)
    }

    /// The lifetime of an object ends.
    pub fn end(&mut self, number: u64)
        ensures view { (table : Table) → view_of_blocks table self.new
            ≡ memory.changed_block number (λ block. record block { alive = false }) (view_of_blocks table self.old) }
        ensures known { (table : Table) → AreKnown table self.old → AreKnown table self.new }
    {
        let number = number as usize;
        if self.all.len() <= number {
            return;
        }
        let block = &mut self.all[number];
        block.alive = false;
    }

    /// A value is stored at a place. After an `Err` the object has none.
    pub fn store(&mut self, alloc: Global, at: &At, value: Value) -> Result<(), Memory>
        ensures view { (table : Table) → OnOk result (view_of_blocks table self.new
            ≡ memory.written (view_of_blocks table self.old) (view_of_at at.now) (view_of_value value)) }
        ensures known { (table : Table) → AreKnown table self.old → AreKnown table self.new }
    {
        let Name::Numbered(number) = &at.name else {
            return Ok(());
        };
        let number = *number as usize;
        if self.all.len() <= number {
            return Ok(());
        }
        let before = self.exchange(number, Value::Unset);
        let after = before.with_part(alloc, at.path.steps(), value)?;
        drop(self.exchange(number, after));
        Ok(())
    }

    /// Puts another value into an object, and gives the one that was there.
    fn exchange(&mut self, number: usize, contents: Value) -> Value
        requires { number < length self.old }
        ensures { IsExchanged self.old number contents result self.new }
    {
        let block = &mut self.all[number];
        mem::replace(&mut block.contents, contents)
    }

    /// The object of a number.
    pub fn numbered(&self, number: u64) -> Option<&Block>
        ensures block { MatchOption result (slice_get self.now number ≡ None) (λ block. slice_get self.now number ≡ Some block.now) }
        ensures view { (table : Table) → MatchOption result (memory.look_up (view_of_blocks table self.now) number ≡ None)
            (λ block. memory.look_up (view_of_blocks table self.now) number ≡ Some (view_of_block table block.now)) }
        ensures known { (table : Table) → AreKnown table self.now → IfSome result (λ block. IsId table block.now.kind) }
    {
        nth(self.all.as_slice(), number as usize)
    }

    /// Whether the lifetime of an object that is there hasn't ended.
    pub fn lives(&self, name: &Name) -> bool
        ensures { (table : Table) → result ≡ memory.lives (memory.look (view_of_blocks table self.now) (view_of_name name.now)) }
    {
        match name {
            Name::Numbered(number) => match self.numbered(*number) {
                Some(block) => block.alive,
                None => false,
            },
            Name::Literal(_, _) => true,
            Name::Elsewhere(_) => false,
        }
    }

    /// Whether an object that is there may be written.
    pub fn may_be_written(&self, name: &Name) -> bool
        ensures { (table : Table) → result ≡ memory.may_be_written (memory.look (view_of_blocks table self.now) (view_of_name name.now)) }
    {
        match name {
            Name::Numbered(number) => match self.numbered(*number) {
                Some(block) => block.writable,
                None => false,
            },
            Name::Literal(_, _) | Name::Elsewhere(_) => false,
        }
    }

    /// The value of a place, unset where it has none.
    pub fn contents(&self, alloc: Global, at: &At) -> Result<Value, Memory>
        ensures { (table : Table) → IfOk result (λ value. view_of_value value ≡ memory.contents_at (view_of_blocks table self.now) (view_of_at at.now)) }
    {
        match &at.name {
            Name::Numbered(number) => match self.numbered(*number) {
                Some(block) => block.contents.part_or_unset(at.path.steps()),
                None => Ok(Value::Unset),
            },
            Name::Literal(bytes, _) => literal::part(alloc, bytes.bytes(), at.path.steps()),
            Name::Elsewhere(_) => Ok(Value::Unset),
        }
    }

    /// Whether the value of a place is a scalar that was never set.
    pub fn is_unset(&self, at: &At) -> bool
        ensures { (table : Table) → result ≡ causes.is_unset (memory.contents_at (view_of_blocks table self.now) (view_of_at at.now)) }
    {
        match &at.name {
            Name::Numbered(number) => match self.numbered(*number) {
                Some(block) => block.contents.is_unset_part(at.path.steps()),
                None => true,
            },
            Name::Literal(bytes, _) => literal::is_unset_part(bytes.bytes(), at.path.steps()),
            Name::Elsewhere(_) => true,
        }
    }
}
