//! The objects that declarations name, found by the numbers of the declarations.

ghost use Rattle.std.specs.Prelude.{◌≡◌, ℕ, ◌<◌, ◌∷◌, [], OnOk, vec_len};
ghost use Rattle.dm_meaning.specs.Operations as operations;
ghost use Rattle.dm_state.specs.Named.{at_number};

use dm_frame::Stack;
use dm_token::Memory;
use dm_value::nth;
use std::alloc::Global;
use std::marker::Model;

/// Objects by their declarations. Contracts see the numbers of each, the newest first.
#[derive(Drop)]
pub struct Names {
    objects: Stack<(u32, u64)>,
    /// By the numbers of the declarations.
    table: Vec<Option<u64>>,
}

impl Model for Names {
    ghost use Rattle.dm_meaning.specs.Operations.{Objects};
    ghost use Rattle.dm_state.specs.Named.{IsTable};

    ghost Value = { Objects };

    ghost view = { λ names. names.objects };

    ghost invariant = { λ names. IsTable names.table.items names.objects };
}

impl Names {
    pub fn new(alloc: Global) -> Names
        ensures { result ≡ [] }
    {
        Names {
            objects: Stack::new(alloc),
            table: Vec::new(alloc),
        }
    }

    /// The object that a declaration names, the newest where there are several.
    pub fn named(&self, declared: u32) -> Option<u64>
        ensures { result ≡ operations.object_named self.now declared }
    {
        match nth(self.table.as_slice(), declared as usize) {
            Some(number) => *number,
            None => None,
        }
    }

    /// A declaration names a new object.
    pub fn add(&mut self, declared: u32, number: u64) -> Result<(), Memory>
        ensures { OnOk result (self.new ≡ (declared, number) ∷ self.old) }
    {
        reach(&mut self.table, declared as usize)?;
        self.objects.push((declared, number))?;
        self.table[declared as usize] = Some(number);
        Ok(())
    }
}

/// Makes a table long enough for a place in it.
fn reach(table: &mut Vec<Option<u64>>, place: usize) -> Result<(), Memory>
    ensures same { (d : ℕ) → at_number table.new.items d ≡ at_number table.old.items d }
    ensures room { OnOk result (place < vec_len table.new) }
{
    while table.len() <= place {
        table.push(None)?;
    }
    Ok(())
}
