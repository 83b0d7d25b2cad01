ghost use Rattle.std.specs.Prelude.{◌≡◌, ◌+◌, ◌<◌, ◌≤◌, ◌^◌, ◌↔◌, length, IsTrue};
ghost use Rattle.dm_token.specs.Places.{IsBefore, IsWithin, place_of};

/// Where a byte of a file is.
#[derive(Clone, Copy, Debug, PartialEq, Eq)]
pub struct Place {
    /// The file's number.
    pub file: u32,
    /// Its offset, counted from 0.
    pub byte: u32,
    /// 1 and the newlines before it.
    pub line: u32,
    /// 1 and the bytes between the line's start and it.
    pub column: u32,
}

impl Place {
    /// Whether this place comes first, by the file's number and then by the byte.
    pub fn before(&self, other: Place) -> bool
        ensures { IsTrue result ↔ IsBefore self.now other }
    {
        self.file < other.file || (self.file == other.file && self.byte < other.byte)
    }
}

/// Tokens that stand one after another: the positions of the first and after the last.
#[derive(Clone, Copy, Debug, PartialEq, Eq)]
pub struct Span {
    pub first: u32,
    pub after: u32,
}

impl Span {
    pub fn within(&self, outer: Span) -> bool
        ensures { IsTrue result ↔ IsWithin self.now outer }
    {
        outer.first <= self.first && self.after <= outer.after
    }
}

/// The place of the byte at an offset, which is also that of the end of the bytes.
pub fn place_at(file: u32, bytes: &[u8], offset: usize) -> Place
    requires inside { offset ≤ length bytes.now }
    requires numbered { length bytes.now + 1 < 2 ^ 32 }
    ensures { result ≡ place_of file bytes.now offset }
{
    let mut line = 1;
    let mut column = 1;
    for byte in &bytes[..offset] {
        if *byte == b'\n' {
            line += 1;
            column = 1;
        } else {
            column += 1;
        }
    }
    Place {
        file,
        byte: offset as u32,
        line,
        column,
    }
}
