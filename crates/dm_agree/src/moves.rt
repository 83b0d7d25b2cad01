//! The new numbers of old declarations.

ghost use Rattle.std.specs.Prelude.{◌≡◌, ◌↔◌, IsTrue};
ghost use Rattle.dm_agree.specs.Moves.{moved_past};

/// Numbers of declarations that are put in among the old ones.
#[derive(Clone, Copy, Debug, PartialEq, Eq)]
pub struct Block {
    pub first: u32,
    pub count: u32,
}

/// Whether a number is the new one of an old declaration.
pub fn is_moved(block: Option<Block>, new: u32, old: u32) -> bool
    ensures { IsTrue result ↔ (new ≡ moved_past block old) }
{
    match block {
        None => new == old,
        Some(block) => {
            if old < block.first {
                new == old
            } else {
                u64::from(new) == u64::from(old) + u64::from(block.count)
            }
        }
    }
}
