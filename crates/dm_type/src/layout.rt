//! How many bytes objects take, and where they may stand (6.2.8, 6.7.2.1).

ghost use Rattle.std.specs.Prelude.{◌≡◌, ◌<◌, ◌≤◌, Some};
ghost use Rattle.dm_token.specs.Limits.{most_type_bytes};
ghost use Rattle.dm_type.specs.Layouts as layouts;
ghost use Rattle.dm_type.specs.Sound.{IsWithin};

use dm_token::MOST_TYPE_BYTES;

/// The greatest size of a type, in bytes.
const GREATEST_SIZE: u64 = MOST_TYPE_BYTES as u64;

/// The size and the alignment of a pointer.
const POINTER_SIZE: u64 = 8;

/// Where an object of a type may stand, and how much it takes (6.2.8).
#[derive(Clone, Copy, Debug, PartialEq, Eq)]
pub struct Layout {
    /// In bytes.
    pub size: u64,
    /// Its address is a multiple of this number.
    pub alignment: u64,
}

impl Layout {
    /// A scalar is aligned to its size.
    pub(crate) fn scalar(size: u64) -> Layout
        ensures { result ≡ layouts.scalar size }
    {
        Layout {
            size,
            alignment: size,
        }
    }

    pub(crate) fn pointer() -> Layout
        ensures { result ≡ layouts.scalar 8 }
    {
        Layout::scalar(POINTER_SIZE)
    }

    /// What no member takes.
    pub(crate) fn empty() -> Layout
        ensures { result ≡ layouts.nothing }
    {
        Layout {
            size: 0,
            alignment: 1,
        }
    }

    /// The layout itself, unless its size is above the greatest.
    pub(crate) fn if_fits(self) -> Option<Layout>
        ensures { result ≡ layouts.if_fits self }
    {
        if self.size <= GREATEST_SIZE {
            Some(self)
        } else {
            None
        }
    }

    /// The elements of an array side by side.
    pub(crate) fn repeated(self, count: u64) -> Option<Layout>
        ensures { result ≡ layouts.if_fits (layouts.repeated count self) }
    {
        let size = count.checked_mul(self.size)?;
        let all = Layout {
            size,
            alignment: self.alignment,
        };
        all.if_fits()
    }

    /// One member more, behind these.
    pub(crate) fn followed_by(self, member: Layout) -> Layout
        requires before { self.size ≤ most_type_bytes }
        requires member { IsWithin member }
        ensures { result ≡ layouts.followed_by self member }
    {
        Layout {
            size: round_up(member.alignment, self.size) + member.size,
            alignment: self.alignment.max(member.alignment),
        }
    }

    /// With padding at the end, so that the structs of an array are aligned (6.7.2.1p17).
    pub(crate) fn padded(self) -> Layout
        requires size { self.size ≤ most_type_bytes }
        requires aligned { 0 < self.alignment }
        requires least { self.alignment ≤ 8 }
        ensures { result ≡ layouts.padded self }
    {
        Layout {
            size: round_up(self.alignment, self.size),
            alignment: self.alignment,
        }
    }
}

/// The least multiple of an alignment that isn't below a number of bytes.
fn round_up(alignment: u64, bytes: u64) -> u64
    requires bytes { bytes ≤ most_type_bytes }
    requires aligned { 0 < alignment }
    requires least { alignment ≤ 8 }
    ensures { result ≡ layouts.round_up alignment bytes }
{
    (bytes + alignment - 1) / alignment * alignment
}
