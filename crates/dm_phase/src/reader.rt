ghost use Rattle.std.specs.Prelude.{◌≡◌, ◌+◌, ◌<◌, ◌≤◌, ◌^◌, ◌++◌, ◌↔◌, [], ℕ, length, slice_index, IfSome, EachIndex, IsTrue, true};
ghost use Rattle.dm_phase.specs.Phases.{replacement, after_phase_1, characters_at};
ghost use Rattle.dm_phase.specs.Front.{front, mark_length, is_plain as plain, ended_behind};
ghost use Rattle.dm_phase.specs.Pending.{text_of, Splices};
ghost use Rattle.dm_phase.specs.Reading.{left, end_of};

use crate::Character;

/// Reads the characters of a file after phase 1.
#[derive(Drop)]
pub struct Reader<'a> {
    /// The bytes that are left.
    rest: &'a [u8],
    /// Their offset in the file.
    pub at: u32,
    /// Whether no newline is lacking once no bytes are left.
    has_ended: bool,
}

impl<'a> Reader<'a> {
    pub fn new(bytes: &'a [u8]) -> Reader<'a>
        requires { length bytes.now < 2 ^ 32 }
        ensures whole { left result ≡ after_phase_1 bytes.now }
        ensures end { end_of result ≡ length bytes.now }
    {
        let at = mark_length(bytes);
        Reader {
            rest: bytes.split_at(at as usize).1,
            at,
            has_ended: true,
        }
    }

    /// The next character, or `None` at the end of the text.
    pub fn next(&mut self) -> Option<Character>
        requires { end_of self.old < 2 ^ 32 }
        ensures text { left self.old ≡ text_of result (left self.new) }
        ensures end { end_of self.new ≡ end_of self.old }
        ensures inside { IfSome result (λ character. character.at + character.width ≤ end_of self.old) }
    {
        let (byte, width) = front(self.rest, self.has_ended)?;
        let character = Character {
            byte,
            at: self.at,
            width,
        };
        self.rest = self.rest.split_at(width as usize).1;
        self.at += width;
        self.has_ended = byte == b'\n';
        Some(character)
    }

    /// The bytes at the front to which nothing happens in phases 1 and 2.
    pub fn take_run(&mut self) -> &'a [u8]
        requires { end_of self.old < 2 ^ 32 }
        ensures text { left self.old ≡ characters_at self.old.at result.now ++ left self.new }
        ensures plain { EachIndex result.now (λ k. plain (slice_index result.now k) ≡ true) }
        ensures end { end_of self.new ≡ end_of self.old }
        ensures inside { self.old.at + length result.now ≤ end_of self.old }
    {
        let rest = self.rest;
        let (run, others) = rest.split_at(plain_run(rest));
        self.rest = others;
        self.at += run.len() as u32;
        self.has_ended = has_ended(self.has_ended, run);
        run
    }

    /// Whether the character before and the next are a backslash and a newline. The newline is then taken.
    pub fn take_splice(&mut self, character: Character) -> bool
        requires { end_of self.old < 2 ^ 32 }
        ensures text { Splices character (left self.old) result (left self.new) }
        ensures end { end_of self.new ≡ end_of self.old }
    {
        if character.byte != b'\\' {
            return false;
        }
        let Some((byte, width)) = front(self.rest, self.has_ended) else {
            return false;
        };
        if byte != b'\n' {
            return false;
        }
        self.rest = self.rest.split_at(width as usize).1;
        self.at += width;
        self.has_ended = true;
        true
    }

    /// Whether nothing is left.
    pub fn is_done(&self) -> bool
        ensures { IsTrue result ↔ (left self.now ≡ []) }
    {
        front(self.rest, self.has_ended).is_none()
    }
}

/// How many bytes at the front stand for themselves and begin no splice.
fn plain_run(bytes: &[u8]) -> usize
    ensures inside { result ≤ length bytes.now }
    ensures plain { (k : ℕ) → k < result → plain (slice_index bytes.now k) ≡ true }
{
    for (at, byte) in bytes.iter().enumerate() {
        if !is_plain(*byte) {
            return at;
        }
    }
    bytes.len()
}

#[tactic(auto, unfolding(crate::specs::Front::is_plain))]
fn is_plain(byte: u8) -> bool
    ensures { result ≡ plain byte }
{
    byte != b'?' && byte != b'\r' && byte != b'\\'
}

/// Whether no newline is lacking behind bytes.
fn has_ended(before: bool, run: &[u8]) -> bool
    ensures { result ≡ ended_behind before run.now }
{
    if run.is_empty() {
        before
    } else {
        run[run.len() - 1] == b'\n'
    }
}

/// The length of the mark for UTF-8 at the front of bytes, 0 where there is none.
#[tactic(auto, unfolding(crate::specs::Front::mark_length))]
fn mark_length(bytes: &[u8]) -> u32
    ensures value { result ≡ mark_length bytes.now }
    ensures inside { result ≤ length bytes.now }
{
    match bytes {
        [0xEF, 0xBB, 0xBF, ..] => 3,
        _ => 0,
    }
}

/// The byte and the width of the next character.
#[tactic(auto, unfolding(crate::specs::Front::front))]
fn front(rest: &[u8], has_ended: bool) -> Option<(u8, u32)>
    ensures value { result ≡ front has_ended rest.now }
    ensures inside { IfSome result (λ next. next.1 ≤ length rest.now) }
{
    match rest {
        [] if has_ended => None,
        [] => Some((b'\n', 0)),
        [b'\r'] => Some((b'\n', 1)),
        [b'\r', b'\n', ..] => Some((b'\n', 2)),
        [b'?', b'?', third, ..] => match replacement(*third) {
            Some(byte) => Some((byte, 3)),
            None => Some((b'?', 1)),
        },
        [byte, ..] => Some((*byte, 1)),
    }
}

/// The byte that two question marks and `third` stand for (5.2.1.1).
fn replacement(third: u8) -> Option<u8>
    ensures { result ≡ replacement third }
{
    match third {
        b'=' => Some(b'#'),
        b'(' => Some(b'['),
        b'/' => Some(b'\\'),
        b')' => Some(b']'),
        b'\'' => Some(b'^'),
        b'<' => Some(b'{'),
        b'!' => Some(b'|'),
        b'>' => Some(b'}'),
        b'-' => Some(b'~'),
        _ => None,
    }
}
