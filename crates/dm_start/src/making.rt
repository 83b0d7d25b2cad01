//! New objects at the beginning of a run (6.2.4p3, 6.7.9p10).

ghost use Rattle.std.specs.Prelude.{◌≡◌, ◌∷◌, [], All, IsSome, map, IfOk, OnOk};
ghost use Rattle.dm_type.specs.Tables.{IsId, type_of};
ghost use Rattle.dm_layout.specs.LaidOut.{laid_out};
ghost use Rattle.dm_meaning.specs.Programs as programs;
ghost use Rattle.dm_memory.specs.Blocks.{view_of_block, AreKnown};
ghost use Rattle.dm_program.specs.Sources.{meant};
ghost use Rattle.dm_program.specs.Statics.{StaticFits};
ghost use Rattle.dm_start.specs.Making.{numbers_of, zero_block, IsMade};

use dm_first_value::{Scalars, first_value};
use dm_layout::{Layout, is_const};
use dm_memory::{Block, Blocks};
use dm_program::{Program, Static};
use dm_state::Names;
use dm_token::Memory;
use dm_type::TypeId;
use std::alloc::Global;

/// New objects for those of static storage duration. Their scalars are 0 or null pointers.
pub(crate) fn make(
    alloc: Global,
    program: &Program,
    names: &mut Names,
    blocks: &mut Blocks,
) -> Result<(), Memory>
    requires { AreKnown program.now.table blocks.old }
    ensures { OnOk result (IsMade (meant program.now) (numbers_of (meant program.now)) names.old blocks.old names.new blocks.new) }
{
    make_all(alloc, program, names, blocks, program.statics())?;
    Ok(())
}

/// New objects for these.
fn make_all(
    alloc: Global,
    program: &Program,
    names: &mut Names,
    blocks: &mut Blocks,
    statics: &[Static],
) -> Result<(), Memory>
    requires known { AreKnown program.now.table blocks.old }
    requires statics { All (StaticFits program.now) statics.now }
    ensures { OnOk result (IsMade (meant program.now) (map (λ one. one.declared) statics.now) names.old blocks.old names.new blocks.new) }
{
    for one in statics {
        make_one(alloc, program, names, blocks, one.declared)?;
    }
    Ok(())
}

/// A new object for a declaration.
fn make_one(
    alloc: Global,
    program: &Program,
    names: &mut Names,
    blocks: &mut Blocks,
    declared: u32,
) -> Result<(), Memory>
    requires known { AreKnown program.now.table blocks.old }
    requires declared { IsSome (programs.declaration_of (meant program.now) declared) }
    ensures { OnOk result (IsMade (meant program.now) (declared ∷ []) names.old blocks.old names.new blocks.new) }
{
    let Some(entry) = program.declared(declared) else {
        unreachable!();
    };
    let block = zeroed(alloc, program.layout(), entry.kind)?;
    let number = blocks.add(block)?;
    names.add(declared, number)?;
    Ok(())
}

/// An object whose scalars are 0 or null pointers, and that may be written unless it is const.
pub(crate) fn zeroed(alloc: Global, layout: &Layout, kind: TypeId) -> Result<Block, Memory>
    requires { IsId layout.now kind }
    ensures { IfOk result (λ block. (view_of_block layout.now block ≡ zero_block (laid_out layout.now) (type_of layout.now kind)) × (block.kind ≡ kind)) }
{
    let contents = first_value(alloc, layout, Scalars::Zero, kind)?;
    Ok(Block {
        kind,
        contents,
        alive: true,
        writable: !is_const(layout.types(), kind),
    })
}
