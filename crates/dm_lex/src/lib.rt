//! Translation phase 3 of C (ISO/IEC 9899:2011, 5.1.1.2): a text is cut into preprocessing tokens (6.4), with blanks
//! and comments between them.
#![tactic(auto)]

ghost use Rattle.std.specs.Prelude.{◌≡◌, ◌≤◌, ◌⊎◌, ◌↔◌, List, Ok, Some, length, IfOk, IfErr};
ghost use Rattle.dm_phase.specs.Answer.{flat_of};
ghost use Rattle.dm_token.specs.Answer.{StopsInside};
ghost use Rattle.dm_token.specs.Limits.{source_length_limit};
ghost use Rattle.dm_lex.specs.Classes.{class_of, without_stray};
ghost use Rattle.dm_phase.specs.declared.Character.{Character};
ghost use Rattle.dm_token.specs.declared.token.PpKind.{PpKind};
ghost use Rattle.dm_lex.specs.Cuts.{bytes_of as bytes, Piece, Cuts, OpensAt, first_state};
ghost use Rattle.dm_lex.specs.Tokens.{AreTokens, IsOneToken, StopsAt};

mod comment;
mod lexer;
mod scan;
mod state;

use dm_phase::Flat;
use dm_spell::punctuators;
use dm_token::{List, Memory, PpKind, PpToken, Stop, Text};
use lexer::{Lexer, Source, take_piece};
use scan::token_at;
use std::alloc::Global;

/// About how many bytes there are to a token, with the blanks between tokens.
const USUAL_BYTES: usize = 4;

/// The preprocessing tokens of a file (6.4), where `flat` is its text after phases 1 and 2. A comment that doesn't end
/// is refused as 2, at its first byte (5.1.1.2p1).
pub fn tokens(alloc: Global, file: u32, flat: &Flat, bytes: &[u8]) -> Result<List<PpToken>, Stop>
    requires short { length bytes.now ≤ source_length_limit }
    requires flat { flat_of file bytes.now ≡ Ok flat.now.characters }
    ensures tokens { IfOk result (λ tokens. AreTokens file bytes.now flat.now.characters tokens) }
    ensures stop { IfErr result (λ stop. StopsAt file bytes.now flat.now.characters stop) }
    ensures inside { IfErr result (λ stop. StopsInside file bytes.now stop) }
{
    let text = flat.bytes();
    let source = Source {
        file,
        bytes,
        flat,
        text,
    };
    let table = punctuators();
    let mut lexer = Lexer::with_room(alloc, file, text.len() / USUAL_BYTES)?;
    let mut cursor = flat.cursor();
    while lexer.at < text.len() {
        take_piece(&source, &table, &mut lexer, &mut cursor)?;
    }
    Ok(List::from_vec(lexer.tokens))
}

/// The kind of the one preprocessing token that a spelling is, header names apart, or `None` where it isn't one. It
/// never wants memory.
pub fn one_token(_alloc: Global, spelling: &Text) -> Result<Option<PpKind>, Memory>
    ensures { result ≡ Ok (class_of spelling.now) }
{
    let text = spelling.bytes();
    if text.is_empty() {
        return Ok(None);
    }
    let table = punctuators();
    let found = token_at(&table, text, 0, false, &mut 0, &mut 0);
    if found.length < text.len() {
        return Ok(None);
    }
    Ok(unless_stray(found.kind))
}

// The kind, unless it is a stray.
#[tactic(auto, unfolding(crate::specs::Classes::without_stray))]
fn unless_stray(kind: PpKind) -> Option<PpKind>
    ensures { result ≡ without_stray (Some kind) }
{
    match kind {
        PpKind::Stray => None,
        _ => Some(kind),
    }
}

/// A text has at most one cut, and none exactly where a comment is open in it. There is at most one open comment.
pub fn one_cut()
    ensures unique { (pieces others : List Piece) (text : List Character) →
        Cuts first_state pieces text → Cuts first_state others text → pieces ≡ others }
    ensures some { (text : List Character) →
        ((pieces : List Piece) × Cuts first_state pieces text)
        ⊎ ((pieces : List Piece) × (left : List Character) × OpensAt first_state pieces text left) }
    ensures none { (pieces others : List Piece) (text left : List Character) →
        OpensAt first_state pieces text left → Cuts first_state others text → ⊥ }
    ensures open_once { (pieces others : List Piece) (text left rest : List Character) →
        OpensAt first_state pieces text left → OpensAt first_state others text rest → (pieces ≡ others) × (left ≡ rest) }
{}

/// A spelling is a token of C, header names apart, exactly where its text is that one token, alone.
pub fn one_token_alone()
    ensures { (text : List Character) (kind : PpKind) →
        (class_of (bytes text) ≡ Some kind) ↔ IsOneToken text kind }
{}
