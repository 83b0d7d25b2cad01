//! The objects that declarations name in a frame (6.2.4p5, p6).

ghost use Rattle.std.specs.Prelude.{◌≡◌, ◌∷◌, ◌++◌, [], false, true, length, map, MatchOption, IfOk, OnOk};
ghost use Rattle.dm_type.specs.Tables.{IsId, Table, type_of};
ghost use Rattle.dm_tree.specs.Views.{declarators_of, view, view_of_local};
ghost use Rattle.dm_layout.specs.LaidOut.{laid_out};
ghost use Rattle.dm_memory.specs.Blocks.{view_of_block, AreKnown};
ghost use Rattle.dm_meaning.specs.Memory as memory;
ghost use Rattle.dm_meaning.specs.Operations as operations;
ghost use Rattle.dm_meaning.specs.Statements as statements;
ghost use Rattle.dm_program.specs.Sources.{meant};
ghost use Rattle.dm_frame.specs.Entering.{automatic_one, IsEntered};

use crate::stack::Stack;
use dm_first_value::{Scalars, first_value};
use dm_layout::{Layout, is_const};
use dm_memory::{Block, Blocks};
use dm_program::Program;
use dm_token::Memory;
use dm_tree::{Core, Form, Local, Sort};
use dm_type::TypeId;
use std::alloc::Global;

/// New objects for what the items of a block declare.
pub(crate) fn enter(
    alloc: Global,
    program: &Program,
    objects: &mut Stack<(u32, u64)>,
    blocks: &mut Blocks,
    items: &[Core],
) -> Result<(), Memory>
    requires { AreKnown program.now.table blocks.old }
    ensures { OnOk result (IsEntered (meant program.now) (statements.declared_in (meant program.now) (map (view program.now.table) items.now)) objects.old blocks.old objects.new blocks.new) }
{
    let mut left = items;
    while let Some((item, rest)) = left.split_first() {
        enter_item(alloc, program, objects, blocks, item)?;
        left = rest;
    }
    Ok(())
}

/// New objects for what an item of a block declares.
pub(crate) fn enter_item(
    alloc: Global,
    program: &Program,
    objects: &mut Stack<(u32, u64)>,
    blocks: &mut Blocks,
    item: &Core,
) -> Result<(), Memory>
    requires { AreKnown program.now.table blocks.old }
    ensures { OnOk result (IsEntered (meant program.now) (statements.declared_by (meant program.now) (view program.now.table item.now)) objects.old blocks.old objects.new blocks.new) }
{
    match &item.form {
        Form::Declare(_, locals) => {
            enter_locals(alloc, program, objects, blocks, locals.items())?;
            Ok(())
        }
        _ => Ok(()),
    }
}

/// New objects for the declarators that define such.
fn enter_locals(
    alloc: Global,
    program: &Program,
    objects: &mut Stack<(u32, u64)>,
    blocks: &mut Blocks,
    locals: &[Local],
) -> Result<(), Memory>
    requires { AreKnown program.now.table blocks.old }
    ensures { OnOk result (IsEntered (meant program.now) (statements.automatic_in (meant program.now) (declarators_of (map (view_of_local program.now.table) locals.now))) objects.old blocks.old objects.new blocks.new) }
{
    let mut left = locals;
    while let Some((local, rest)) = left.split_first() {
        enter_local(alloc, program, objects, blocks, local)?;
        left = rest;
    }
    Ok(())
}

/// A new object for a declarator, if it defines one.
fn enter_local(
    alloc: Global,
    program: &Program,
    objects: &mut Stack<(u32, u64)>,
    blocks: &mut Blocks,
    local: &Local,
) -> Result<(), Memory>
    requires { AreKnown program.now.table blocks.old }
    ensures { OnOk result (IsEntered (meant program.now) (automatic_one (meant program.now) (view_of_local program.now.table local.now).declarator) objects.old blocks.old objects.new blocks.new) }
{
    match automatic(program, local) {
        Some(kind) => {
            let block = new_block(alloc, program.layout(), kind)?;
            make(objects, blocks, local.declared, block)?;
            Ok(())
        }
        None => Ok(()),
    }
}

/// The type of the object of automatic storage duration that a declarator defines, if it defines one.
pub(crate) fn automatic(program: &Program, local: &Local) -> Option<TypeId>
    ensures { MatchOption result (statements.is_automatic (meant program.now) (view_of_local program.now.table local.now).declarator ≡ false)
        (λ kind. (statements.is_automatic (meant program.now) (view_of_local program.now.table local.now).declarator ≡ true)
        × (statements.type_declared (meant program.now) local.now.declared ≡ type_of program.now.table kind) × IsId program.now.table kind) }
{
    if !local.defines {
        return None;
    }
    let entry = program.declared(local.declared)?;
    match entry.sort {
        Sort::Object { fixed: false } => Some(entry.kind),
        _ => None,
    }
}

/// An object whose scalars are unset, and that may be written unless it is const.
pub(crate) fn new_block(alloc: Global, layout: &Layout, kind: TypeId) -> Result<Block, Memory>
    requires { IsId layout.now kind }
    ensures { IfOk result (λ block. (view_of_block layout.now block ≡ memory.new_block (laid_out layout.now) (type_of layout.now kind)) × (block.kind ≡ kind)) }
{
    let contents = first_value(alloc, layout, Scalars::Unset, kind)?;
    Ok(Block {
        kind,
        contents,
        alive: true,
        writable: !is_const(layout.types(), kind),
    })
}

/// A declaration names a new object.
pub(crate) fn make(
    objects: &mut Stack<(u32, u64)>,
    blocks: &mut Blocks,
    declared: u32,
    block: Block,
) -> Result<(), Memory>
    ensures objects { OnOk result (objects.new ≡ (declared, length blocks.old) ∷ objects.old) }
    ensures blocks { OnOk result (blocks.new ≡ blocks.old ++ block ∷ []) }
    ensures known { (table : Table) → AreKnown table blocks.old → IsId table block.kind → OnOk result (AreKnown table blocks.new) }
{
    let number = blocks.add(block)?;
    objects.push((declared, number))?;
    Ok(())
}

impl Stack<(u32, u64)> {
    /// The object that a declaration names, the newest where there are several.
    pub fn named(&self, declared: u32) -> Option<u64>
        ensures { result ≡ operations.object_named self.now declared }
    {
        let mut left = self.oldest_first();
        while let Some(((d, number), older)) = left.split_last() {
            if *d == declared {
                return Some(*number);
            }
            left = older;
        }
        None
    }
}
