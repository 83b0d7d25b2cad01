//! What a statement stands within.

ghost use Rattle.std.specs.Prelude.{◌≡◌, true, false, IfOk};
ghost use Rattle.dm_type.specs.Tables.{IsId};
ghost use Rattle.dm_type.specs.declared.shape.Shape.TheVariants.{Void};
ghost use Rattle.dm_typing.specs.Views.{Grows};
ghost use Rattle.dm_estatement.specs.Parts.{WithinFits};

use dm_token::Memory;
use dm_type::{Shape, TypeId};
use dm_typing::Known;

/// A function, and whether a loop or a switch is round a statement in it.
#[derive(Drop)]
pub struct Within {
    /// The type of the function's result.
    pub result: TypeId,
    /// The type of each statement's node: void.
    pub statement: TypeId,
    /// Whether `break` may stand here.
    pub breaks: bool,
    /// Whether `continue` may.
    pub continues: bool,
}

impl Within {
    /// Within the body of a function of this result, and no loop and no switch.
    pub fn function(known: &mut Known, answer: TypeId) -> Result<Within, Memory>
        requires { IsId known.old.types answer }
        ensures fits { IfOk result (WithinFits known.new.types) }
        ensures answer { IfOk result (λ within. within.result ≡ answer) }
        ensures breaks { IfOk result (λ within. within.breaks ≡ false) }
        ensures continues { IfOk result (λ within. within.continues ≡ false) }
        ensures grows { Grows known.old known.new }
    {
        let statement = known.intern(Shape::Void)?;
        Ok(Within {
            result: answer,
            statement,
            breaks: false,
            continues: false,
        })
    }

    /// Within a loop.
    pub(crate) fn in_loop(&self) -> Within
        ensures { result ≡ record self.now { breaks = true; continues = true } }
    {
        Within {
            result: self.result,
            statement: self.statement,
            breaks: true,
            continues: true,
        }
    }

    /// Within a switch.
    pub(crate) fn in_switch(&self) -> Within
        ensures { result ≡ record self.now { breaks = true } }
    {
        Within {
            result: self.result,
            statement: self.statement,
            breaks: true,
            continues: self.continues,
        }
    }
}
