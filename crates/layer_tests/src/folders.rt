//! Folders that are made by hand.

use dm_io::MemoryFolder;
use dm_token::Text;
use std::process::Abort;
use std::test::Fail;

/// Adds a file.
pub fn add<R: Abort + AllocGlobal>(
    rt: &R,
    folder: &mut MemoryFolder,
    name: &str,
    bytes: &[u8],
) -> Result<(), Fail> {
    let name = Text::new(rt.alloc(), name)?;
    assert!(rt; folder.file(&name).is_none());
    folder.add(&name, bytes)?;
    Ok(())
}
