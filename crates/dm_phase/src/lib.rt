//! Translation phases 1 and 2 of C (ISO/IEC 9899:2011, 5.1.1.2): the characters of a source file, once trigraphs are
//! replaced and the lines that a backslash continues are joined.
#![tactic(auto)]

ghost use Rattle.std.specs.Prelude.{◌≡◌, ◌+◌, ◌<◌, ◌≤◌, ◌^◌, ◌∷◌, true, false, length, IfOk, IfErr, OnOk, Err};
ghost use Rattle.dm_token.specs.Limits.{source_length_limit};
ghost use Rattle.dm_token.specs.declared.stop.Stop.TheVariants.{Refused};
ghost use Rattle.dm_phase.specs.Answer.{flat_of, refusal_at};
ghost use Rattle.dm_token.specs.Answer.{Gives, StopsInside};
ghost use Rattle.dm_phase.specs.Pending.{behind};
ghost use Rattle.dm_phase.specs.Phases.{after_phase_2};
ghost use Rattle.dm_phase.specs.Reading.{left, end_of};
ghost use Rattle.dm_phase.specs.Writing.{written, IsKept};
ghost use Rattle.dm_phase.specs.Positions.{InOrder, EndsInNewline};

mod cursor;
mod flat;
mod jump;
mod reader;
mod writer;

pub use cursor::Cursor;
use dm_token::{Refusal, Stop, place_at, refusals};
pub use flat::Flat;
use reader::Reader;
use std::alloc::{AllocError, Global};
use writer::Writer;

/// A character after phases 1 and 2.
#[derive(Clone, Copy, Debug, PartialEq, Eq)]
pub struct Character {
    /// Its byte: of a trigraph the byte that it stands for (5.2.1.1), of an end of line a newline.
    pub byte: u8,
    /// The offset in the file of the first byte that it stands for.
    pub at: u32,
    /// How many bytes of the file it stands for: 3 for a trigraph, 2 for a carriage return and its newline, 0 for a
    /// newline that the file lacks at its end, else 1.
    pub width: u32,
}

/// The text of a file after phases 1 and 2. It is refused as 8 where its last newline is deleted, since a file that
/// isn't empty has to end in a newline that no backslash precedes (5.1.1.2p1).
pub fn flatten(alloc: Global, file: u32, bytes: &[u8]) -> Result<Flat, Stop>
    requires { length bytes.now ≤ source_length_limit }
    ensures flat { Gives (λ flat. flat.characters) result (flat_of file bytes.now) }
    ensures in_order { IfOk result (λ flat. InOrder 0 (length bytes.now) flat.characters) }
    ensures terminated { IfOk result (λ flat. EndsInNewline flat.characters) }
    ensures count { IfOk result (λ flat. length flat.characters ≤ length bytes.now + 1) }
    ensures inside { IfErr result (λ stop. StopsInside file bytes.now stop) }
{
    let mut reader = Reader::new(bytes);
    let mut writer = Writer::with_capacity(alloc, bytes.len() + 1)?;
    take_run(&mut reader, &mut writer)?;
    while let Some(character) = reader.next() {
        if take_character(&mut reader, &mut writer, character)? {
            return Err(refusal(file, bytes, character));
        }
        take_run(&mut reader, &mut writer)?;
    }
    Ok(Flat::of(alloc, writer)?)
}

/// Takes the bytes at the front to which nothing happens.
fn take_run(reader: &mut Reader, writer: &mut Writer) -> Result<(), AllocError>
    requires end { end_of reader.old < 2 ^ 32 }
    requires kept { IsKept writer.old }
    ensures text { OnOk result (behind (written writer.new) (after_phase_2 (left reader.new)) ≡ behind (written writer.old) (after_phase_2 (left reader.old))) }
    ensures kept { OnOk result (IsKept writer.new) }
    ensures end { end_of reader.new ≡ end_of reader.old }
    ensures shorter { length (left reader.new) ≤ length (left reader.old) }
{
    let at = reader.at;
    let run = reader.take_run();
    writer.append(at, run)?;
    Ok(())
}

/// Takes a character, or passes over it where it is the backslash of a splice. Whether the text ends with that splice.
fn take_character(
    reader: &mut Reader,
    writer: &mut Writer,
    character: Character,
) -> Result<bool, AllocError>
    requires end { end_of reader.old < 2 ^ 32 }
    requires kept { IsKept writer.old }
    requires inside { character.at + character.width < 2 ^ 32 }
    ensures text { IfOk result (λ ends. ends ≡ false →
        behind (written writer.new) (after_phase_2 (left reader.new)) ≡ behind (written writer.old) (after_phase_2 (character ∷ left reader.old))) }
    ensures refused { IfOk result (λ ends. ends ≡ true → after_phase_2 (character ∷ left reader.old) ≡ Err character) }
    ensures kept { OnOk result (IsKept writer.new) }
    ensures end { end_of reader.new ≡ end_of reader.old }
    ensures shorter { length (left reader.new) ≤ length (left reader.old) }
{
    if !reader.take_splice(character) {
        writer.push(character)?;
        return Ok(false);
    }
    Ok(reader.is_done())
}

/// The refusal of a text whose last newline goes with this backslash.
fn refusal(file: u32, bytes: &[u8], backslash: Character) -> Stop
    requires inside { backslash.at ≤ length bytes.now }
    requires short { length bytes.now ≤ source_length_limit }
    ensures refused { result ≡ Refused (refusal_at file bytes.now backslash) }
    ensures inside { StopsInside file bytes.now result }
{
    Stop::Refused(Refusal {
        number: refusals::SPLICE,
        detail: 0,
        place: place_at(file, bytes, backslash.at as usize),
    })
}
