//! The exit statuses. `specs/Statuses.antt` has them for clauses.

/// All is done.
pub const DONE: u8 = 0;

/// The words are not good.
pub const WRONG_WORDS: u8 = 1;

/// A fault of the manifest, or of what the words name beside it.
pub const MANIFEST_FAULT: u8 = 2;

/// The source is refused.
pub const REFUSED: u8 = 3;

/// A limit is passed.
pub const LIMIT_PASSED: u8 = 4;

/// A file can't be read.
pub const READ_FAULT: u8 = 5;

/// The file can't be written.
pub const WRITE_FAULT: u8 = 6;

/// The output can't be put.
pub const OUTPUT_FAULT: u8 = 7;

/// Memory ran out.
pub const MEMORY_WANTED: u8 = 8;
