//! What the first values of objects depend on.

ghost use Rattle.std.specs.Prelude.{◌≡◌, IfOk};
ghost use Rattle.dm_meaning.specs.Operations as operations;
ghost use Rattle.dm_meaning.specs.Programs as programs;
ghost use Rattle.dm_meaning.specs.Units as units;
ghost use Rattle.dm_program.specs.Sources.{meant};
ghost use Rattle.dm_value.specs.Places.{view_of_name};
ghost use Rattle.dm_start.specs.Scenes.{program_in};

use dm_layout::Layout;
use dm_memory::Blocks;
use dm_program::Program;
use dm_state::Names;
use dm_token::{Memory, Text};
use dm_value::Name;
use std::alloc::Global;

/// The program, and its objects of static storage duration before they have their first values.
#[derive(Drop)]
pub(crate) struct Scene<'s, 'a> {
    pub program: &'s Program<'a>,
    pub names: &'s Names,
    pub blocks: &'s Blocks,
}

impl<'s, 'a> Scene<'s, 'a> {
    pub fn layout(&self) -> &'s Layout<'a>
        ensures { result.now ≡ self.now.program.now.table }
    {
        self.program.layout()
    }

    /// The name of the object that a declaration names.
    pub fn name(&self, alloc: Global, declared: u32) -> Result<Name, Memory>
        ensures { IfOk result (λ name. view_of_name name ≡ units.name_of (operations.object_named self.now.names.now declared)
            (units.identifier_of (programs.declaration_of (program_in self.now) declared))) }
    {
        match self.names.named(declared) {
            Some(number) => Ok(Name::Numbered(number)),
            None => {
                let identifier = identifier(alloc, self.program, declared)?;
                Ok(Name::Elsewhere(identifier))
            }
        }
    }
}

/// The identifier of a declaration, empty where there is none.
fn identifier(alloc: Global, program: &Program, declared: u32) -> Result<Text, Memory>
    ensures { IfOk result (λ identifier. identifier ≡ units.identifier_of (programs.declaration_of (meant program.now) declared)) }
{
    match program.declared(declared) {
        Some(entry) => entry.name.copy(),
        None => Text::from_bytes(alloc, &[]),
    }
}
