//! What is held of files.

ghost use Rattle.std.specs.Prelude.{◌≡◌};
ghost use Rattle.dm_subjects.specs.Subjects as seen;

use dm_search::Loader;

/// What a loader holds of the file of this number; no bytes, where it holds none.
pub fn bytes_at(loader: &Loader, file: u32) -> &[u8]
    ensures { result.now ≡ seen.bytes_at loader.now file }
{
    if loader.holds(file) {
        loader.bytes(file)
    } else {
        &[]
    }
}
