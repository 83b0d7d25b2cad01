//! The numbers of limits, as they are printed. `specs/LimitNumbers.antt` has them for clauses, and `limits` what is the
//! most of each.

/// Bytes of a file.
pub const FILE_BYTES: u8 = 1;

/// Tokens of a unit.
pub const UNIT_TOKENS: u8 = 2;

/// Expansions, definitions read and tokens of replacements in a unit, together.
pub const WORK: u8 = 3;

/// Files within each other, the main file not counted.
pub const NESTED_FILES: u8 = 4;

/// Height of an external declaration's syntax tree.
pub const HEIGHT: u8 = 5;

/// Files of the folder in a call.
pub const FILES: u8 = 6;

/// Units of a project.
pub const UNITS: u8 = 7;

/// Different macro definitions in files, over all units.
pub const DEFINITIONS: u8 = 8;

/// Inclusions in a unit.
pub const INCLUSIONS: u8 = 9;

/// Tokens of all units together.
pub const PROJECT_TOKENS: u8 = 10;
