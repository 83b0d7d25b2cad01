ghost use Rattle.std.specs.Prelude.{◌≡◌, IfOk};

use crate::place::Place;
use crate::stop::Memory;
use crate::text::Text;
use crate::trail::Trail;

/// The kind of a preprocessing token (6.4).
#[derive(Clone, Copy, Debug, PartialEq, Eq)]
pub enum PpKind {
    Identifier,
    /// A preprocessing number (6.4.8).
    Number,
    /// A character constant (6.4.4.4).
    Character,
    /// A string literal (6.4.5).
    Literal,
    /// The row of its spelling in the table of punctuators (6.4.6).
    Punctuator(u16),
    /// A header name (6.4.7).
    Header,
    /// A character that fits no class.
    Stray,
}

/// A preprocessing token (6.4).
#[derive(Debug, PartialEq, Eq, Drop)]
pub struct PpToken {
    pub kind: PpKind,
    /// Its bytes after translation phases 1 and 2: without splices, and with trigraphs replaced.
    pub spelling: Text,
    /// Where it is spelled. A token made by `#` or `##` has the place of the name whose expansion made it.
    pub place: Place,
    /// The offset after its last byte in the file.
    pub end: u32,
    /// Whether white space stands directly before it (6.10.3p7).
    pub blank_before: bool,
    /// Whether it is the first token of its line.
    pub line_first: bool,
}

impl PpToken {
    /// The same token, whose spelling is shared.
    pub fn copy(&self) -> Result<PpToken, Memory>
        ensures { IfOk result (λ token. token ≡ self.now) }
    {
        Ok(PpToken {
            kind: self.kind,
            spelling: self.spelling.copy()?,
            place: self.place,
            end: self.end,
            blank_before: self.blank_before,
            line_first: self.line_first,
        })
    }
}

/// A preprocessing token with the expansions that it came through.
#[derive(Debug, PartialEq, Eq, Drop)]
pub struct Token {
    pub pp: PpToken,
    pub trail: Trail,
}

impl Token {
    /// The same token, whose spelling and marks are shared.
    pub fn copy(&self) -> Result<Token, Memory>
        ensures { IfOk result (λ token. token ≡ self.now) }
    {
        Ok(Token {
            pp: self.pp.copy()?,
            trail: self.trail.copy()?,
        })
    }
}

/// The kind of a token of translation phase 7 (6.4).
#[derive(Clone, Copy, Debug, PartialEq, Eq)]
pub enum Class {
    /// The row in the table of keywords (6.4.1).
    Keyword(u16),
    /// The row of the punctuator as which it behaves (6.4.6p3).
    Punctuator(u16),
    Identifier,
    Integer,
    Literal,
}

/// A token of translation phase 7 (6.4).
#[derive(Debug, PartialEq, Eq, Drop)]
pub struct CToken {
    pub class: Class,
    /// As it stands in the source; for a string literal the bytes after escapes and joining, without the closing 0.
    pub spelling: Text,
    /// The value of an integer constant, and 0 in every other class.
    pub value: i128,
    /// The number of an integer constant's kind, and 0 in every other class.
    pub kind: u8,
    /// Of joined string literals that of the first.
    pub place: Place,
    /// Of joined string literals the common prefix of theirs.
    pub trail: Trail,
}
