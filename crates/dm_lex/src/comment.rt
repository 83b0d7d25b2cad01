//! Comments (6.4.9).

ghost use Rattle.std.specs.Prelude.{◌≡◌, ◌+◌, ◌<◌, ◌≤◌, ◌==◌, ◌&&◌, Bool, false, length, drop, slice_index, MatchOption};
ghost use Rattle.dm_lex.specs.Classes.{slash, asterisk};
ghost use Rattle.dm_lex.specs.Cuts.{IsOpen};
ghost use Rattle.dm_lex.specs.Reach.{closing_comment as closing_of, IsCommentLength};

use crate::scan::line_run;

/// The length of the comment at a place, 0 where none begins there, or `None` where it doesn't end.
pub fn comment_length(text: &[u8], at: usize) -> Option<usize>
    requires { at < length text.now }
    ensures { MatchOption result (IsOpen (drop at text.now)) (λ far. IsCommentLength (drop at text.now) far) }
{
    if text.len() <= at + 1 {
        return Some(0);
    }
    if text[at] != b'/' {
        return Some(0);
    }
    if text[at + 1] == b'*' {
        return block_length(text, at);
    }
    if text[at + 1] == b'/' {
        return Some(2 + line_run(text.split_at(at + 2).1));
    }
    Some(0)
}

// The length of the comment that `/*` begins at a place.
fn block_length(text: &[u8], at: usize) -> Option<usize>
    requires inside { at + 1 < length text.now }
    requires first { slice_index text.now at ≡ slash }
    requires second { slice_index text.now (at + 1) ≡ asterisk }
    ensures { MatchOption result (IsOpen (drop at text.now)) (λ far. IsCommentLength (drop at text.now) far) }
{
    let far = closing_comment(text.split_at(at + 2).1);
    if far == 0 { None } else { Some(2 + far) }
}

// How far a comment reaches behind `/*`, 0 where it doesn't end.
fn closing_comment(text: &[u8]) -> usize
    ensures far { result ≡ closing_of false text.now }
    ensures inside { result ≤ length text.now }
{
    let mut behind_asterisk = false;
    for (at, byte) in text.iter().enumerate() {
        if ends_comment(*byte, behind_asterisk) {
            return at + 1;
        }
        behind_asterisk = *byte == b'*';
    }
    0
}

fn ends_comment(byte: u8, behind_asterisk: bool) -> bool
    ensures { result ≡ (behind_asterisk && (byte == slash)) }
{
    behind_asterisk && byte == b'/'
}
