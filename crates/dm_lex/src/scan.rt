//! The longest token at a place of a text.

ghost use Rattle.std.specs.Prelude.{◌≡◌, ℕ, ◌+◌, ◌^◌, ◌<◌, ◌≤◌, ◌==◌, ◌&&◌, ◌||◌, Bool, false, not, List, length, drop, max, slice_index, MatchOption, MatchResult, if◌then◌else◌};
ghost use Rattle.dm_spell.specs.Tables.{punctuator_rows};
ghost use Rattle.dm_token.specs.declared.token.PpKind.TheVariants.{Punctuator, Stray};
ghost use Rattle.dm_lex.specs.Classes.{is_nondigit as nondigit, is_word as word, is_exponent as exponent, is_sign as sign, is_prefix as prefix, quotation_mark, apostrophe, full_stop, less, greater, kind_of};
ghost use Rattle.dm_lex.specs.Cuts.{is_within_line};
ghost use Rattle.dm_lex.specs.Reach.{run, number_run as number_run_of, closing as closing_of, closing_name as closing_name_of, beyond as beyond_of, StaysOpen, IsBest, IsLongestRow, HasNoRow};
ghost use Rattle.dm_lex.specs.Lengths.{prefixed, unless_closed, identifier_length as identifier_of, digits_length as digits_of, number_length as number_of, plain_character_length as plain_character_of, character_length as character_of, plain_literal_length as plain_literal_of, literal_length as literal_of, name_length as name_of, header_length as header_of, or_longer as or_longer_of, best_of, make_found, is_letter as letter, is_mark as mark};

use dm_spell::Spellings;
use dm_token::{PpKind, is_digit};

/// A token at a place of a text.
#[derive(Clone, Copy, Debug, PartialEq, Eq)]
pub struct Found {
    /// What it is.
    pub kind: PpKind,
    /// How many characters it has.
    pub length: usize,
}

#[tactic(auto, unfolding(crate::specs::Classes::is_nondigit))]
fn is_nondigit(byte: u8) -> bool
    ensures { result ≡ nondigit byte }
{
    matches!(byte, b'a'..=b'z' | b'A'..=b'Z' | b'_')
}

#[tactic(auto, unfolding(crate::specs::Classes::is_word))]
fn is_word(byte: u8) -> bool
    ensures { result ≡ word byte }
{
    is_nondigit(byte) || is_digit(byte)
}

#[tactic(auto, unfolding(crate::specs::Classes::is_exponent))]
fn is_exponent(byte: u8) -> bool
    ensures { result ≡ exponent byte }
{
    byte == b'e' || byte == b'E' || byte == b'p' || byte == b'P'
}

#[tactic(auto, unfolding(crate::specs::Classes::is_sign))]
fn is_sign(byte: u8) -> bool
    ensures { result ≡ sign byte }
{
    byte == b'+' || byte == b'-'
}

#[tactic(auto, unfolding(crate::specs::Classes::is_prefix))]
fn is_prefix(byte: u8) -> bool
    ensures { result ≡ prefix byte }
{
    byte == b'L' || byte == b'u' || byte == b'U'
}

#[tactic(auto, unfolding(crate::specs::Lengths::is_letter))]
fn is_letter(byte: u8) -> bool
    ensures { result ≡ letter byte }
{
    is_nondigit(byte) && !is_prefix(byte)
}

#[tactic(auto, unfolding(crate::specs::Lengths::is_mark))]
fn is_mark(byte: u8) -> bool
    ensures { result ≡ mark byte }
{
    !is_word(byte) && byte != b'"' && byte != b'\'' && byte != b'.' && byte != b'<'
}

// How many bytes at the front belong to an identifier.
fn word_run(text: &[u8]) -> usize
    ensures far { result ≡ run word text.now }
    ensures inside { result ≤ length text.now }
{
    for (at, byte) in text.iter().enumerate() {
        if !is_word(*byte) {
            return at;
        }
    }
    text.len()
}

// How many bytes at the front stand on one line.
pub fn line_run(text: &[u8]) -> usize
    ensures far { result ≡ run is_within_line text.now }
    ensures inside { result ≤ length text.now }
{
    for (at, byte) in text.iter().enumerate() {
        if *byte == b'\n' {
            return at;
        }
    }
    text.len()
}

// How many bytes at the front continue a number.
fn number_run(text: &[u8]) -> usize
    ensures far { result ≡ number_run_of false text.now }
    ensures inside { result ≤ length text.now }
{
    let mut behind_exponent = false;
    for (at, byte) in text.iter().enumerate() {
        if !continues_number(*byte, behind_exponent) {
            return at;
        }
        behind_exponent = is_exponent(*byte);
    }
    text.len()
}

fn continues_number(byte: u8, behind_exponent: bool) -> bool
    ensures { result ≡ (word byte || (byte == full_stop) || (behind_exponent && sign byte)) }
{
    is_word(byte) || byte == b'.' || (behind_exponent && is_sign(byte))
}

// How far a header name reaches behind its opening byte, 0 where it doesn't close on its line.
fn closing_name(text: &[u8], close: u8) -> usize
    ensures far { result ≡ closing_name_of close text.now }
    ensures inside { result ≤ length text.now }
{
    for (at, byte) in text.iter().enumerate() {
        if *byte == b'\n' {
            return 0;
        }
        if *byte == close {
            return at + 1;
        }
    }
    0
}

// How far a literal reaches behind its opening quote, or how long the rest of the line is where it doesn't close there.
fn closing(text: &[u8], quote: u8) -> Result<usize, usize>
    ensures { MatchResult result
        (λ far. (0 < far) × (far ≤ length text.now) × (closing_of quote false text.now ≡ far))
        (λ line. (line ≤ length text.now) × (closing_of quote false text.now ≡ 0) × (line ≡ run is_within_line text.now)) }
{
    let mut behind_backslash = false;
    for (at, byte) in text.iter().enumerate() {
        if *byte == b'\n' {
            return Err(at);
        }
        if is_unescaped(*byte, quote, behind_backslash) {
            return Ok(at + 1);
        }
        behind_backslash = is_unescaped(*byte, b'\\', behind_backslash);
    }
    Err(text.len())
}

fn is_unescaped(byte: u8, wanted: u8, behind_backslash: bool) -> bool
    ensures { result ≡ (not behind_backslash && (byte == wanted)) }
{
    !behind_backslash && byte == wanted
}

// So many more, unless there is none.
fn beyond(more: usize, far: usize) -> usize
    requires { more + far < 2 ^ 64 }
    ensures far { result ≡ beyond_of more far }
    ensures inside { result ≤ more + far }
{
    if far == 0 { 0 } else { more + far }
}

fn identifier_length(text: &[u8], at: usize) -> usize
    requires { at < length text.now }
    ensures far { result ≡ identifier_of (drop at text.now) }
    ensures inside { at + result ≤ length text.now }
{
    if is_nondigit(text[at]) {
        1 + word_run(text.split_at(at + 1).1)
    } else {
        0
    }
}

// The length of a number that begins with a digit.
fn digits_length(text: &[u8], at: usize) -> usize
    requires { at ≤ length text.now }
    ensures far { result ≡ digits_of (drop at text.now) }
    ensures inside { at + result ≤ length text.now }
{
    if at == text.len() {
        return 0;
    }
    if is_digit(text[at]) {
        1 + number_run(text.split_at(at + 1).1)
    } else {
        0
    }
}

fn number_length(text: &[u8], at: usize) -> usize
    requires { at < length text.now }
    ensures far { result ≡ number_of (drop at text.now) }
    ensures inside { at + result ≤ length text.now }
{
    digits_length(text, at).max(fraction_length(text, at))
}

// The length of a number that begins with a full stop.
fn fraction_length(text: &[u8], at: usize) -> usize
    requires { at < length text.now }
    ensures far { result ≡ prefixed (λ byte. byte == full_stop) digits_of (drop at text.now) }
    ensures inside { at + result ≤ length text.now }
{
    if text[at] == b'.' {
        beyond(1, digits_length(text, at + 1))
    } else {
        0
    }
}

fn header_length(text: &[u8], at: usize) -> usize
    requires { at < length text.now }
    ensures far { result ≡ header_of (drop at text.now) }
    ensures inside { at + result ≤ length text.now }
{
    name_length(text, at, b'<', b'>').max(name_length(text, at, b'"', b'"'))
}

// The length of a header name between these bytes.
fn name_length(text: &[u8], at: usize, first: u8, close: u8) -> usize
    requires { at < length text.now }
    ensures far { result ≡ name_of first close (drop at text.now) }
    ensures inside { at + result ≤ length text.now }
{
    if text[at] == first {
        beyond(1, filled_length(text, at + 1, close))
    } else {
        0
    }
}

// How far a header name reaches behind its opening byte, 0 where it is empty.
fn filled_length(text: &[u8], at: usize, close: u8) -> usize
    requires { at ≤ length text.now }
    ensures far { result ≡ unless_closed close (closing_name_of close) (drop at text.now) }
    ensures inside { at + result ≤ length text.now }
{
    if at == text.len() {
        return 0;
    }
    if text[at] == close {
        0
    } else {
        closing_name(text.split_at(at).1, close)
    }
}

// The length of a literal from this quote up to the next, 0 where none begins here or it doesn't close on its line. No
// quote before `known` that is met closes.
fn quoted_length(text: &[u8], at: usize, quote: u8, known: &mut usize) -> usize
    requires inside { at ≤ length text.now }
    requires known { StaysOpen quote text.now at known.old }
    ensures far { result ≡ prefixed (λ byte. byte == quote) (closing_of quote false) (drop at text.now) }
    ensures inside { at + result ≤ length text.now }
    ensures known { StaysOpen quote text.now at known.new }
{
    if at == text.len() {
        return 0;
    }
    if text[at] != quote {
        return 0;
    }
    if at < *known {
        return 0;
    }
    match closing(text.split_at(at + 1).1, quote) {
        Ok(far) => 1 + far,
        Err(line) => {
            *known = at + 1 + line;
            0
        }
    }
}

fn plain_literal_length(text: &[u8], at: usize, known: &mut usize) -> usize
    requires inside { at ≤ length text.now }
    requires known { StaysOpen quotation_mark text.now at known.old }
    ensures far { result ≡ plain_literal_of (drop at text.now) }
    ensures inside { at + result ≤ length text.now }
    ensures known { StaysOpen quotation_mark text.now at known.new }
{
    quoted_length(text, at, b'"', known)
}

// The length of a string literal with a prefix of one letter.
fn wide_literal_length(text: &[u8], at: usize, known: &mut usize) -> usize
    requires inside { at < length text.now }
    requires known { StaysOpen quotation_mark text.now at known.old }
    ensures far { result ≡ prefixed prefix plain_literal_of (drop at text.now) }
    ensures inside { at + result ≤ length text.now }
    ensures known { StaysOpen quotation_mark text.now at known.new }
{
    if is_prefix(text[at]) {
        beyond(1, plain_literal_length(text, at + 1, known))
    } else {
        0
    }
}

// The length of a string literal with the prefix `u8`.
fn utf8_literal_length(text: &[u8], at: usize, known: &mut usize) -> usize
    requires inside { at < length text.now }
    requires known { StaysOpen quotation_mark text.now at known.old }
    ensures far { result ≡ prefixed (λ byte. byte == 117) (prefixed (λ byte. byte == 56) plain_literal_of) (drop at text.now) }
    ensures inside { at + result ≤ length text.now }
    ensures known { StaysOpen quotation_mark text.now at known.new }
{
    if text[at] == b'u' {
        beyond(1, digit_literal_length(text, at + 1, known))
    } else {
        0
    }
}

// The length of a string literal behind the `8` of its prefix.
fn digit_literal_length(text: &[u8], at: usize, known: &mut usize) -> usize
    requires inside { at ≤ length text.now }
    requires known { StaysOpen quotation_mark text.now at known.old }
    ensures far { result ≡ prefixed (λ byte. byte == 56) plain_literal_of (drop at text.now) }
    ensures inside { at + result ≤ length text.now }
    ensures known { StaysOpen quotation_mark text.now at known.new }
{
    if at == text.len() {
        return 0;
    }
    if text[at] == b'8' {
        beyond(1, plain_literal_length(text, at + 1, known))
    } else {
        0
    }
}

fn literal_length(text: &[u8], at: usize, known: &mut usize) -> usize
    requires inside { at < length text.now }
    requires known { StaysOpen quotation_mark text.now at known.old }
    ensures far { result ≡ literal_of (drop at text.now) }
    ensures inside { at + result ≤ length text.now }
    ensures known { StaysOpen quotation_mark text.now at known.new }
{
    let plain = plain_literal_length(text, at, known);
    let wide = wide_literal_length(text, at, known);
    let utf8 = utf8_literal_length(text, at, known);
    plain.max(wide).max(utf8)
}

fn plain_character_length(text: &[u8], at: usize, known: &mut usize) -> usize
    requires inside { at ≤ length text.now }
    requires known { StaysOpen apostrophe text.now at known.old }
    ensures far { result ≡ plain_character_of (drop at text.now) }
    ensures inside { at + result ≤ length text.now }
    ensures known { StaysOpen apostrophe text.now at known.new }
{
    if text.len() <= at + 1 {
        return 0;
    }
    if text[at + 1] == b'\'' {
        0
    } else {
        quoted_length(text, at, b'\'', known)
    }
}

// The length of a character constant with a prefix.
fn wide_character_length(text: &[u8], at: usize, known: &mut usize) -> usize
    requires inside { at < length text.now }
    requires known { StaysOpen apostrophe text.now at known.old }
    ensures far { result ≡ prefixed prefix plain_character_of (drop at text.now) }
    ensures inside { at + result ≤ length text.now }
    ensures known { StaysOpen apostrophe text.now at known.new }
{
    if is_prefix(text[at]) {
        beyond(1, plain_character_length(text, at + 1, known))
    } else {
        0
    }
}

fn character_length(text: &[u8], at: usize, known: &mut usize) -> usize
    requires inside { at < length text.now }
    requires known { StaysOpen apostrophe text.now at known.old }
    ensures far { result ≡ character_of (drop at text.now) }
    ensures inside { at + result ≤ length text.now }
    ensures known { StaysOpen apostrophe text.now at known.new }
{
    let plain = plain_character_length(text, at, known);
    let wide = wide_character_length(text, at, known);
    plain.max(wide)
}

// The punctuator at a place: its row and its length.
fn punctuator_at(table: &Spellings<'static, 54>, text: &[u8], at: usize) -> Option<(u16, usize)>
    requires inside { at < length text.now }
    requires table { table.now ≡ punctuator_rows }
    ensures { MatchOption result (HasNoRow (drop at text.now)) (λ row. IsLongestRow (drop at text.now) row.0 row.1) }
{
    if is_word(text[at]) {
        return None;
    }
    let row = table.longest(text, at)?;
    Some((row, table.row(row as usize).len()))
}

fn or_longer(found: Found, kind: PpKind, length: usize) -> Found
    ensures { result ≡ or_longer_of found kind length }
{
    if found.length <= length {
        Found { kind, length }
    } else {
        found
    }
}

/// The longest token at a place, where a header name counts if `header` is true. No apostrophe before `single` and no
/// quotation mark before `double` that is met closes.
pub fn token_at(
    table: &Spellings<'static, 54>,
    text: &[u8],
    at: usize,
    header: bool,
    single: &mut usize,
    double: &mut usize,
) -> Found
    requires inside { at < length text.now }
    requires table { table.now ≡ punctuator_rows }
    requires single { StaysOpen apostrophe text.now at single.old }
    requires double { StaysOpen quotation_mark text.now at double.old }
    ensures best { IsBest (kind_of header) (drop at text.now) result }
    ensures single { StaysOpen apostrophe text.now at single.new }
    ensures double { StaysOpen quotation_mark text.now at double.new }
{
    if is_letter(text[at]) {
        return Found {
            kind: PpKind::Identifier,
            length: identifier_length(text, at),
        };
    }
    if is_digit(text[at]) {
        return Found {
            kind: PpKind::Number,
            length: digits_length(text, at),
        };
    }
    if is_mark(text[at]) {
        return plain_at(table, text, at);
    }
    any_token_at(table, text, at, header, single, double)
}

// The longest token at a place where one of any class may begin.
fn any_token_at(
    table: &Spellings<'static, 54>,
    text: &[u8],
    at: usize,
    header: bool,
    single: &mut usize,
    double: &mut usize,
) -> Found
    requires inside { at < length text.now }
    requires table { table.now ≡ punctuator_rows }
    requires single { StaysOpen apostrophe text.now at single.old }
    requires double { StaysOpen quotation_mark text.now at double.old }
    ensures best { IsBest (kind_of header) (drop at text.now) result }
    ensures single { StaysOpen apostrophe text.now at single.new }
    ensures double { StaysOpen quotation_mark text.now at double.new }
{
    let found = plain_at(table, text, at);
    let found = or_longer(found, PpKind::Literal, literal_length(text, at, double));
    let found = or_longer(found, PpKind::Character, character_length(text, at, single));
    let found = or_longer(found, PpKind::Number, number_length(text, at));
    let found = or_longer(found, PpKind::Identifier, identifier_length(text, at));
    or_longer(
        found,
        PpKind::Header,
        allowed_header_length(text, at, header),
    )
}

fn allowed_header_length(text: &[u8], at: usize, allowed: bool) -> usize
    requires { at < length text.now }
    ensures { result ≡ (if allowed then header_of (drop at text.now) else 0) }
{
    if allowed { header_length(text, at) } else { 0 }
}

// The punctuator at a place, or the character there as a stray.
fn plain_at(table: &Spellings<'static, 54>, text: &[u8], at: usize) -> Found
    requires inside { at < length text.now }
    requires table { table.now ≡ punctuator_rows }
    ensures best { (header : Bool) → IsBest (kind_of header) (drop at text.now) (best_of header (drop at text.now) result) }
    ensures some { 0 < result.length }
{
    let stray = Found {
        kind: PpKind::Stray,
        length: 1,
    };
    match punctuator_at(table, text, at) {
        Some((row, length)) => or_longer(stray, PpKind::Punctuator(row), length),
        None => stray,
    }
}
