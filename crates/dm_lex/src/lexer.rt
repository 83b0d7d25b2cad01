//! Taking one piece of a text after another.

ghost use Rattle.std.specs.Prelude.{◌≡◌, ◌+◌, ◌<◌, ◌≤◌, ◌^◌, [], length, drop, take, slice_index, slice_index_or, slice_range, IfOk, IfErr, OnOk, true, false};
ghost use Rattle.dm_spell.specs.Tables.{punctuator_rows};
ghost use Rattle.dm_token.specs.Limits.{source_length_limit};
ghost use Rattle.dm_token.specs.Places.{place_of};
ghost use Rattle.dm_token.specs.declared.stop.Stop.TheVariants.{Refused, Memory as no_memory};
ghost use Rattle.dm_lex.specs.Classes.{quotation_mark, apostrophe};
ghost use Rattle.dm_lex.specs.Cuts.{is_blank as blank, bytes_of, first_state, IsOpen};
ghost use Rattle.dm_lex.specs.Reach.{IsCommentLength};
ghost use Rattle.dm_lex.specs.Tokens.{StopsAt, token_from};
ghost use Rattle.dm_lex.specs.Progress.{IsSource, IsProgress, IsBefore, no_character, offset_of};
ghost use Rattle.dm_token.specs.Answer.{StopsInside};

use crate::comment::comment_length;
use crate::scan::{Found, token_at};
use crate::state::{
    Line, State, allows_header, is_blank, is_start, line_behind, line_behind_blank,
};
use dm_phase::{Character, Cursor, Flat};
use dm_spell::Spellings;
use dm_token::{Memory, Place, PpToken, Refusal, Stop, refusals};
use std::alloc::Global;

/// A text and the file that it comes from.
#[derive(Drop)]
pub struct Source<'a> {
    pub file: u32,
    /// The bytes of the file.
    pub bytes: &'a [u8],
    /// Its characters after phases 1 and 2.
    pub flat: &'a Flat,
    /// Their bytes.
    pub text: &'a [u8],
}

/// How far a text is cut.
#[derive(Drop)]
pub struct Lexer {
    /// The number of characters that are cut.
    pub at: usize,
    pub state: State,
    /// No apostrophe that is met before this place closes.
    pub single: usize,
    /// No quotation mark that is met before this place closes.
    pub double: usize,
    /// The place of the last token.
    pub here: Place,
    pub tokens: Vec<PpToken>,
}

impl Lexer {
    /// Nothing is cut, and there is room for so many tokens.
    pub fn with_room(alloc: Global, file: u32, count: usize) -> Result<Lexer, Memory>
        ensures at { IfOk result (λ lexer. lexer.at ≡ 0) }
        ensures state { IfOk result (λ lexer. lexer.state ≡ first_state) }
        ensures single { IfOk result (λ lexer. lexer.single ≡ 0) }
        ensures double { IfOk result (λ lexer. lexer.double ≡ 0) }
        ensures here { IfOk result (λ lexer. lexer.here ≡ record { file = file; byte = 0; line = 1; column = 1 }) }
        ensures tokens { IfOk result (λ lexer. lexer.tokens.items ≡ []) }
    {
        let tokens = Vec::with_capacity(alloc, count)?;
        Ok(Lexer {
            at: 0,
            state: State {
                line: Line::Start,
                blank: true,
            },
            single: 0,
            double: 0,
            here: Place {
                file,
                byte: 0,
                line: 1,
                column: 1,
            },
            tokens,
        })
    }
}

/// Takes the piece at the front of what is left.
pub fn take_piece(
    source: &Source,
    table: &Spellings<'static, 54>,
    lexer: &mut Lexer,
    cursor: &mut Cursor,
) -> Result<(), Stop>
    requires source { IsSource source.now }
    requires table { table.now ≡ punctuator_rows }
    requires progress { IsProgress source.now lexer.old }
    requires before { IsBefore source.now.flat.now.characters lexer.old.at cursor.old }
    requires more { lexer.old.at < length source.now.flat.now.characters }
    ensures progress { OnOk result (IsProgress source.now lexer.new) }
    ensures further { OnOk result (lexer.old.at < lexer.new.at) }
    ensures before { OnOk result (IsBefore source.now.flat.now.characters lexer.new.at cursor.new) }
    ensures stop { IfErr result (λ stop. StopsAt source.now.file source.now.bytes.now source.now.flat.now.characters stop) }
    ensures inside { IfErr result (λ stop. StopsInside source.now.file source.now.bytes.now stop) }
{
    if is_blank(source.text[lexer.at]) {
        take_blank(source, lexer);
        return Ok(());
    }
    match comment_length(source.text, lexer.at) {
        None => Err(open_comment(source, lexer, cursor)),
        Some(0) => {
            take_token(source, table, lexer, cursor)?;
            Ok(())
        }
        Some(far) => {
            take_comment(source, lexer, far);
            Ok(())
        }
    }
}

// Takes a blank.
fn take_blank(source: &Source, lexer: &mut Lexer)
    requires source { IsSource source.now }
    requires progress { IsProgress source.now lexer.old }
    requires more { lexer.old.at < length source.now.flat.now.characters }
    requires blank { blank (slice_index source.now.text.now lexer.old.at) ≡ true }
    ensures progress { IsProgress source.now lexer.new }
    ensures further { lexer.old.at < lexer.new.at }
{
    let line = line_behind_blank(lexer.state.line, source.text[lexer.at]);
    lexer.state = State { line, blank: true };
    lexer.at += 1;
}

// Takes a comment.
fn take_comment(source: &Source, lexer: &mut Lexer, far: usize)
    requires source { IsSource source.now }
    requires progress { IsProgress source.now lexer.old }
    requires comment { IsCommentLength (drop lexer.old.at source.now.text.now) far }
    requires some { 0 < far }
    ensures progress { IsProgress source.now lexer.new }
    ensures further { lexer.old.at < lexer.new.at }
{
    lexer.state.blank = true;
    lexer.at += far;
}

// The refusal of the comment that begins here.
fn open_comment(source: &Source, lexer: &Lexer, cursor: &mut Cursor) -> Stop
    requires source { IsSource source.now }
    requires progress { IsProgress source.now lexer.now }
    requires before { IsBefore source.now.flat.now.characters lexer.now.at cursor.old }
    requires more { lexer.now.at < length source.now.flat.now.characters }
    requires comment { IsOpen (drop lexer.now.at source.now.text.now) }
    ensures stop { StopsAt source.now.file source.now.bytes.now source.now.flat.now.characters result }
    ensures inside { StopsInside source.now.file source.now.bytes.now result }
{
    let at = character_at(source, cursor, lexer.at).at;
    Stop::Refused(Refusal {
        number: refusals::COMMENT,
        detail: 0,
        place: moved(lexer.here, source.bytes, at),
    })
}

// The character with this number.
fn character_at(source: &Source, cursor: &mut Cursor, at: usize) -> Character
    requires before { IsBefore source.now.flat.now.characters at cursor.old }
    requires inside { at < length source.now.flat.now.characters }
    ensures character { slice_index_or source.now.flat.now.characters at no_character ≡ result }
    ensures before { IsBefore source.now.flat.now.characters at cursor.new }
{
    cursor.advance(at - cursor.index);
    cursor.first()
}

// Takes a token.
fn take_token(
    source: &Source,
    table: &Spellings<'static, 54>,
    lexer: &mut Lexer,
    cursor: &mut Cursor,
) -> Result<(), Stop>
    requires source { IsSource source.now }
    requires table { table.now ≡ punctuator_rows }
    requires progress { IsProgress source.now lexer.old }
    requires before { IsBefore source.now.flat.now.characters lexer.old.at cursor.old }
    requires more { lexer.old.at < length source.now.flat.now.characters }
    requires blank { blank (slice_index source.now.text.now lexer.old.at) ≡ false }
    requires comment { IsCommentLength (drop lexer.old.at source.now.text.now) 0 }
    ensures progress { OnOk result (IsProgress source.now lexer.new) }
    ensures further { OnOk result (lexer.old.at < lexer.new.at) }
    ensures before { OnOk result (IsBefore source.now.flat.now.characters lexer.new.at cursor.new) }
    ensures stop { IfErr result (λ stop. StopsAt source.now.file source.now.bytes.now source.now.flat.now.characters stop) }
    ensures inside { IfErr result (λ stop. StopsInside source.now.file source.now.bytes.now stop) }
{
    let at = lexer.at;
    let mut single = lexer.single;
    let mut double = lexer.double;
    let header = allows_header(lexer.state);
    let found = token_at(table, source.text, at, header, &mut single, &mut double);
    let start = character_at(source, cursor, at).at;
    let here = moved(lexer.here, source.bytes, start);
    let token = make_token(source, lexer, cursor, found, here)?;
    let line = line_behind(lexer.state.line, spelling_of(source, at, found.length));
    lexer.tokens.push(token)?;
    lexer.state = State { line, blank: false };
    lexer.single = single;
    lexer.double = double;
    lexer.here = here;
    lexer.at = at + found.length;
    Ok(())
}

// The bytes of the characters at a place.
fn spelling_of<'a>(source: &Source<'a>, at: usize, count: usize) -> &'a [u8]
    requires { at + count ≤ length source.now.text.now }
    ensures { result.now ≡ take count (drop at source.now.text.now) }
{
    let text = source.text;
    text.split_at(at).1.split_at(count).0
}

// The token that is found.
fn make_token(
    source: &Source,
    lexer: &Lexer,
    cursor: &mut Cursor,
    found: Found,
    here: Place,
) -> Result<PpToken, Stop>
    requires source { IsSource source.now }
    requires before { IsBefore source.now.flat.now.characters lexer.now.at cursor.old }
    requires inside { lexer.now.at + found.length ≤ length source.now.flat.now.characters }
    requires some { 0 < found.length }
    requires here { here ≡ place_of source.now.file source.now.bytes.now (offset_of source.now.flat.now.characters lexer.now.at) }
    ensures token { IfOk result (λ token. token ≡
        token_from source.now.file source.now.bytes.now lexer.now.state found.kind (take found.length (drop lexer.now.at source.now.flat.now.characters))) }
    ensures stop { IfErr result (λ stop. stop ≡ no_memory) }
    ensures before { OnOk result (IsBefore source.now.flat.now.characters (lexer.now.at + found.length) cursor.new) }
{
    let after = lexer.at + found.length;
    let last = character_at(source, cursor, after - 1);
    Ok(PpToken {
        kind: found.kind,
        spelling: source.flat.text(lexer.at, after)?,
        place: here,
        end: last.at + last.width,
        blank_before: lexer.state.blank,
        line_first: is_start(lexer.state.line),
    })
}

// The place of an offset that isn't before the place `from`.
fn moved(from: Place, bytes: &[u8], to: u32) -> Place
    requires from { from ≡ place_of from.file bytes.now from.byte }
    requires further { from.byte ≤ to }
    requires inside { to ≤ length bytes.now }
    requires short { length bytes.now ≤ source_length_limit }
    ensures { result ≡ place_of from.file bytes.now to }
{
    let mut line = from.line;
    let mut column = from.column;
    for at in from.byte as usize..to as usize {
        if bytes[at] == b'\n' {
            line += 1;
            column = 1;
        } else {
            column += 1;
        }
    }
    Place {
        file: from.file,
        byte: to,
        line,
        column,
    }
}
