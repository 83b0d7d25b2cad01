ghost use Rattle.std.specs.Prelude.{◌≡◌, ◌≤◌, length, position, Some, OnOk, OnErr};
ghost use Rattle.std.specs.Option.{option_copied};
ghost use Rattle.std.specs.List.{find};
ghost use Rattle.std.specs.FinMap as finite;
ghost use Rattle.dm_io.specs.Files.{HasFile};
ghost use Rattle.dm_io.specs.Stored.{contents, is_named, room_at, HaveSameRooms, HaveSameOtherRooms};

use crate::stored::Stored;
use dm_token::Memory;

/// The file of a name.
pub fn find_file<'a>(files: &'a [Stored], name: &[u8]) -> Option<&'a Stored>
    ensures { option_copied result ≡ find (is_named name.now) files.now }
{
    files.iter().find(|stored| stored.has_name(name))
}

/// The position of the file of a name.
pub fn position_of(files: &[Stored], name: &[u8]) -> Option<usize>
    ensures { result ≡ position (is_named name.now) files.now }
{
    files.iter().position(|stored| stored.has_name(name))
}

/// Puts other bytes into the file of a name.
pub fn replace_file(files: &mut [Stored], name: &[u8], bytes: &[u8])
    requires there { HasFile (Some (contents files.old)) name.now }
    requires ready { length bytes.now ≤ room_at files.old name.now }
    ensures files { contents files.new ≡ finite.insert (contents files.old) name.now bytes.now }
    ensures rooms { HaveSameRooms files.old files.new }
{
    let position = position_of(files, name).unwrap();
    files[position].replace(bytes);
}

/// Takes the memory for so many bytes at a name.
pub fn make_room_for(files: &mut [Stored], name: &[u8], most: usize) -> Result<(), Memory>
    requires there { HasFile (Some (contents files.old)) name.now }
    ensures ready { OnOk result (most ≤ room_at files.new name.now) }
    ensures err { OnErr result (room_at files.new name.now ≡ room_at files.old name.now) }
    ensures files { contents files.new ≡ contents files.old }
    ensures rooms { HaveSameOtherRooms files.old files.new name.now }
{
    let position = position_of(files, name).unwrap();
    files[position].make_room(most)?;
    Ok(())
}
