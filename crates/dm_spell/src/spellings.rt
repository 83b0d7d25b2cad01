//! A table of spellings over one text.

ghost use Rattle.std.specs.Prelude.{◌≡◌, ◌+◌, ◌<◌, ◌≤◌, ◌&&◌, ◌↔◌, List, ℕ, length, drop, ◌∷◌, slice_index, IsTrue, IfSome, IfNone, EachIndex, Contains, slice_get, bytes_eq, nat_lt, if◌then◌else◌, Some, None};
ghost use Rattle.std.specs.List.{list_any};
ghost use Rattle.dm_spell.specs.Rows.{rows_of, row_at, rises, all_differ, StandsAt, NoneBegins, is_first, is_next};

use std::marker::Model;

/// A table of `N` spellings, none of them empty and no two equal, seen as the list of its rows.
#[derive(Drop)]
pub struct Spellings<'a, const N: usize> {
    pub(crate) text: &'a [u8],
    pub(crate) ends: &'a [u16; N],
    /// For each byte a row's number: no row before it begins with that byte.
    pub(crate) firsts: &'a [u16; 256],
    /// For each of the first rows a later one's number: no row between them begins with the byte that both begin with.
    pub(crate) nexts: &'a [u16],
}

// The search begins at the first row.
static ZEROS: [u16; 256] = [0; 256];

// From each row the search goes on at the next.
const NONE: &[u16] = &[];

impl<'a, const N: usize> Model for Spellings<'a, N> {
    ghost Value = { List (List ℕ) };

    ghost view = { λ s. rows_of 0 s.text.now s.ends.now };

    ghost invariant = { λ s. IsTrue (rises 0 s.ends.now (length s.text.now)) × IsTrue (all_differ (rows_of 0 s.text.now s.ends.now)) × (length s.ends.now ≡ N) × (N ≤ 65535)
        × IsTrue (is_first 0 s.firsts.now (rows_of 0 s.text.now s.ends.now)) × IsTrue (is_next 0 s.nexts.now (rows_of 0 s.text.now s.ends.now)) };
}

impl<'a, const N: usize> Spellings<'a, N> {
    /// The table whose row `i` is the bytes of `text` from the end of the row before it, or from 0, up to `ends[i]`.
    pub fn new(text: &'a [u8], ends: &'a [u16; N]) -> Option<Self>
        requires { N ≤ 65535 }
        ensures { let rows = rows_of 0 text.now ends.now in
            result ≡ (if rises 0 ends.now (length text.now) && all_differ rows then Some rows else None) }
    {
        if rise(text.len(), ends) && differ(text, ends) {
            Some(Spellings {
                text,
                ends,
                firsts: &ZEROS,
                nexts: NONE,
            })
        } else {
            None
        }
    }

    /// The number of the longest row that stands at `at`.
    pub fn longest(&self, bytes: &[u8], at: usize) -> Option<u16>
        requires { at ≤ length bytes.now }
        ensures stands { IfSome result (λ number. (number < length self.now) × StandsAt (row_at self.now number) bytes.now at) }
        ensures longest { IfSome result (λ number. EachIndex self.now (λ other.
            StandsAt (row_at self.now other) bytes.now at → length (row_at self.now other) ≤ length (row_at self.now number))) }
        ensures none { IfNone result (EachIndex self.now (λ number. ¬ (StandsAt (row_at self.now number) bytes.now at))) }
    {
        let count = self.count();
        if at == bytes.len() {
            return None;
        }
        let first = bytes[at];
        let rest = bytes.split_at(at).1;
        let mut found: Option<u16> = None;
        let mut most = 0;
        let mut number = self.first(first);
        while number < count {
            let row = self.row(number);
            if row.len() > most && stands(row, rest) {
                found = Some(number as u16);
                most = row.len();
            }
            number = self.next(number, first);
        }
        found
    }

    /// The number of the row that equals `word`.
    pub fn find(&self, word: &[u8]) -> Option<u16>
        ensures found { IfSome result (λ number. slice_get self.now number ≡ Some word.now) }
        ensures none { IfNone result (¬ (Contains self.now word.now)) }
    {
        let rows = self.count();
        if word.is_empty() {
            return None;
        }
        let first = word[0];
        let mut number = self.first(first);
        while number < rows {
            if self.row(number) == word {
                return Some(number as u16);
            }
            number = self.next(number, first);
        }
        None
    }

    // A number, before which no row begins with this byte.
    fn first(&self, byte: u8) -> usize
        ensures { NoneBegins self.now byte 0 result }
    {
        let firsts = self.firsts;
        firsts[byte as usize] as usize
    }

    // A later number, between which and this one no row begins with this byte.
    fn next(&self, number: usize, byte: u8) -> usize
        requires { number < length self.now }
        ensures none { NoneBegins self.now byte (number + 1) result }
        ensures further { number < result }
    {
        let row = self.row(number);
        let nexts = self.nexts;
        if row[0] == byte && number < nexts.len() {
            nexts[number] as usize
        } else {
            number + 1
        }
    }

    // How many rows there are.
    fn count(&self) -> usize
        ensures count { result ≡ length self.now }
        ensures few { result ≤ 65535 }
        ensures filled { EachIndex self.now (λ number. 0 < length (row_at self.now number)) }
    {
        let ends = self.ends;
        ends.len()
    }

    /// The row with this number.
    pub fn row(&self, number: usize) -> &'a [u8]
        requires { number < length self.now }
        ensures row { result.now ≡ row_at self.now number }
        ensures filled { 0 < length result.now }
    {
        let text = self.text;
        let ends = self.ends;
        row_of(text, ends, number)
    }
}

// Whether the ends rise strictly from above 0 to the length.
fn rise(length: usize, ends: &[u16]) -> bool
    ensures { result ≡ rises 0 ends.now length }
{
    let mut from = 0;
    for end in ends {
        if *end <= from {
            return false;
        }
        from = *end;
    }
    from as usize == length
}

// The bytes of the text from the end before the one with this number, or from 0, up to that end.
fn row_of<'a>(text: &'a [u8], ends: &[u16], number: usize) -> &'a [u8]
    requires number { number < length ends.now }
    requires rising { IsTrue (rises 0 ends.now (length text.now)) }
    ensures row { result.now ≡ row_at (rows_of 0 text.now ends.now) number }
    ensures filled { 0 < length result.now }
{
    let (from, to) = place_of(text, ends, number);
    &text[from..to]
}

// Where the row with this number begins and ends.
fn place_of(text: &[u8], ends: &[u16], number: usize) -> (usize, usize)
    requires number { number < length ends.now }
    requires rising { IsTrue (rises 0 ends.now (length text.now)) }
    ensures from { result.0 ≡ slice_index (0 ∷ ends.now) number }
    ensures to { result.1 ≡ slice_index ends.now number }
    ensures above { result.0 < result.1 }
    ensures within { result.1 ≤ length text.now }
{
    let from = if number == 0 { 0 } else { ends[number - 1] };
    (from as usize, ends[number] as usize)
}

// Whether no two rows are equal.
fn differ(text: &[u8], ends: &[u16]) -> bool
    requires { IsTrue (rises 0 ends.now (length text.now)) }
    ensures { result ≡ all_differ (rows_of 0 text.now ends.now) }
{
    for number in 0..ends.len() {
        if comes_again(text, ends, number) {
            return false;
        }
    }
    true
}

// Whether a later row equals the one with this number.
fn comes_again(text: &[u8], ends: &[u16], number: usize) -> bool
    requires number { number < length ends.now }
    requires rising { IsTrue (rises 0 ends.now (length text.now)) }
    ensures { let rows = rows_of 0 text.now ends.now in
        result ≡ list_any (bytes_eq (row_at rows number)) (drop (number + 1) rows) }
{
    let row = row_of(text, ends, number);
    for later in number + 1..ends.len() {
        if row == row_of(text, ends, later) {
            return true;
        }
    }
    false
}

// Whether the row stands at the front of the text.
fn stands(row: &[u8], text: &[u8]) -> bool
    ensures { IsTrue result ↔ StandsAt row.now text.now 0 }
{
    text.starts_with(row)
}
