//! Integers with their kinds.

ghost use Rattle.std.specs.Prelude.{◌≡◌};
ghost use Rattle.dm_int.specs.Kinds.{InRange};

use dm_int::{Kind, least};
use std::marker::Model;

/// A value of an integer kind. Contracts see the kind and the number, which the kind has.
#[derive(Clone, Copy)]
pub struct Integer {
    kind: Kind,
    /// In two's complement where the kind is signed.
    bits: u64,
}

impl Model for Integer {
    ghost use Rattle.std.specs.Prelude.{◌<◌, ◌^◌};
    ghost use Rattle.dm_int.specs.Kinds.{InRange};
    ghost use Rattle.std.proofs.Common.{ap};
    ghost use Rattle.dm_value.specs.Integers.{Number, number_of_bits, bits_of_number, bits_back};

    ghost Value = { Number };

    ghost view = { λ integer. record { kind = integer.kind; value = number_of_bits integer.kind integer.bits } };

    ghost inverse = { λ number. record { kind = number.kind; bits = bits_of_number number.value } };

    ghost invariant = { λ integer. InRange integer.kind (number_of_bits integer.kind integer.bits) × (integer.bits < 2 ^ 64) };

    ghost inverse_ok = { λ integer ok. ap (λ bits. record { kind = integer.kind; bits = bits }) (bits_back integer.kind integer.bits ok.1) };
}

impl Integer {
    pub fn new(kind: Kind, value: i128) -> Integer
        requires { InRange kind value }
        ensures kind { result.kind ≡ kind }
        ensures value { result.value ≡ value }
    {
        let bits = if value < 0 {
            (value as i64).cast_unsigned()
        } else {
            value as u64
        };
        Integer { kind, bits }
    }

    pub fn kind(self) -> Kind
        ensures { result ≡ self.kind }
    {
        self.kind
    }

    pub fn value(self) -> i128
        ensures value { result ≡ self.value }
        ensures in_range { InRange self.kind result }
    {
        if least(self.kind) < 0 {
            i128::from(self.bits.cast_signed())
        } else {
            i128::from(self.bits)
        }
    }
}
