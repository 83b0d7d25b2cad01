/// A character that doesn't stand for one byte directly behind what the character before it stands for.
#[derive(Clone, Copy, Debug)]
pub struct Jump {
    /// The number of the character.
    pub index: usize,
    /// The offset in the file of the first byte that it stands for.
    pub at: u32,
    /// How many bytes it stands for.
    pub width: u32,
}
