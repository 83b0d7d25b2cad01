//! The numbers of faults of manifests, as they are printed. `specs/ManifestFaults.antt` has them for clauses.

/// The manifest is absent.
pub const ABSENT: u8 = 1;

/// It is not JSON.
pub const JSON: u8 = 2;

/// A value has another type, a key is unknown, or one that is needed is absent.
pub const SHAPE: u8 = 3;

/// A file, a folder or the manifest has no normal name.
pub const NAME: u8 = 4;

/// A define that isn't of the form.
pub const DEFINE: u8 = 5;

/// A unit that stands twice.
pub const TWICE: u8 = 6;

/// A unit that isn't listed.
pub const UNLISTED: u8 = 7;

/// An input that is absent, or has no normal name.
pub const INPUT: u8 = 8;
