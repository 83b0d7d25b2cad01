//! Tokens at which something begins: of each token by its number, whether it is marked.

ghost use Rattle.std.specs.Prelude.{◌≡◌, ◌||◌, ◌==◌, ℕ, false, OnOk, slice_index_or};

use dm_token::Memory;

/// Marks a token.
pub fn mark(marks: &mut Vec<bool>, token: u32) -> Result<(), Memory>
    ensures { OnOk result ((n : ℕ) → slice_index_or marks.new.items n false ≡ (slice_index_or marks.old.items n false || token == n)) }
{
    let at = token as usize;
    if at >= marks.len() {
        marks.resize(at + 1, false)?;
    }
    marks[at] = true;
    Ok(())
}

/// Whether a token is marked.
pub fn is_marked(marks: &[bool], token: u32) -> bool
    ensures { result ≡ slice_index_or marks.now token false }
{
    match marks.get(token as usize) {
        Some(marked) => *marked,
        None => false,
    }
}
