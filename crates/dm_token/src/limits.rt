//! The greatest values that the tool takes. `specs/Limits.antt` has them for clauses.

ghost use Rattle.std.specs.Prelude.{◌≡◌};
ghost use Rattle.dm_token.specs.Limits.{greatest_int, source_length_limit};

/// The greatest `int` of C, as it has 32 bits (5.2.4.2.1).
pub fn greatest_int() -> u32
    ensures { result ≡ greatest_int }
{
    2_147_483_647
}

/// The greatest length in bytes of a source file that is read.
pub fn source_length_limit() -> usize
    ensures { result ≡ source_length_limit }
{
    1_048_576
}

/// The most tokens of a unit.
pub const MOST_TOKENS: usize = 1_000_000;

/// The most expansions, definitions read and tokens of replacements in a unit, together.
pub const MOST_WORK: u32 = 8_000_000;

/// The most files within each other, the main file not counted.
pub const MOST_NESTED: u32 = 64;

/// The greatest height of an external declaration's syntax tree.
pub const GREATEST_HEIGHT: u32 = 512;

/// The most files of the folder in a call.
pub const MOST_FILES: usize = 4_096;

/// The most units of a project.
pub const MOST_UNITS: usize = 256;

/// The most different macro definitions in files, over all units.
pub const MOST_DEFINITIONS: usize = 4_096;

/// The most inclusions in a unit.
pub const MOST_INCLUSIONS: u32 = 16_384;

/// How many headers are built in.
pub const HEADER_COUNT: usize = 6;

/// The most bytes of an object's type.
pub const MOST_TYPE_BYTES: u128 = 1_073_741_824;

/// The steps of a run where no number is given.
pub const USUAL_STEPS: u64 = 1_000_000;
