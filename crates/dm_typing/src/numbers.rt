//! Types that are numbered on the way.

ghost use Rattle.std.specs.Prelude.{◌≡◌, IfOk};
ghost use Rattle.dm_type.specs.Tables.{IsShape};
ghost use Rattle.dm_typing.specs.Views.{IsNumberOf, Grows};

use crate::known::Known;
use dm_token::Memory;
use dm_type::{Shape, TypeId};

impl Known {
    /// The number of a type. After an `Err` nothing is changed.
    pub fn intern(&mut self, shape: Shape) -> Result<TypeId, Memory>
        requires { IsShape self.old.types shape }
        ensures number { IfOk result (λ id. IsNumberOf self.new.types.shapes id shape) }
        ensures grows { Grows self.old self.new }
    {
        let id = self.types.intern(shape)?;
        Ok(id)
    }
}
