ghost use Rattle.std.specs.Prelude.{◌≡◌, true, IfOk};
ghost use Rattle.dm_token.specs.Names.{is_normal_name};
ghost use Rattle.dm_manifest.specs.Units.{IsLawful, alone};

use dm_token::{List, Memory, Text, Unit};
use std::alloc::Global;

/// The unit of a C file alone: it has neither include folders nor defines.
pub fn unit_alone(alloc: Global, file: &Text) -> Result<Unit, Memory>
    ensures alone { IfOk result (λ unit. unit ≡ alone file.now) }
    ensures lawful { is_normal_name file.now ≡ true → IfOk result IsLawful }
{
    Ok(Unit {
        file: file.copy()?,
        include: List::new(alloc),
        define: List::new(alloc),
    })
}
