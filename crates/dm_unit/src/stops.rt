//! Stops of a unit's reading.

ghost use Rattle.std.specs.Prelude.{◌≡◌};
ghost use Rattle.dm_unit.specs.Views.{IsFaultless};
ghost use Rattle.dm_unit.specs.States.{refusal, limit as limit_of, in_unit as unit_stop};

use dm_token::{Limit, Place, Refusal, Stop, limit_numbers};

/// The refusal of this number, at a place.
pub(crate) fn refused(number: u8, place: Place) -> Stop
    ensures stop { result ≡ refusal number place }
    ensures faultless { IsFaultless result }
{
    Stop::Refused(Refusal {
        number,
        detail: 0,
        place,
    })
}

/// A limit that is passed, with the file that is named beside it.
pub(crate) fn passed(number: u8, file: u32) -> Stop
    ensures stop { result ≡ limit_of number file }
    ensures faultless { IsFaultless result }
{
    Stop::Limit(Limit { number, file })
}

/// The stop of an expansion, of which the limit of work is named beside the unit's main file.
pub(crate) fn in_unit(main: u32, stop: Stop) -> Stop
    ensures stop { result ≡ unit_stop main stop }
    ensures faultless { IsFaultless result }
{
    match stop {
        Stop::Memory => Stop::Memory,
        Stop::Refused(refusal) => Stop::Refused(refusal),
        Stop::Limit(_) => passed(limit_numbers::WORK, main),
        Stop::ReadFault(_) => passed(limit_numbers::WORK, main),
    }
}
