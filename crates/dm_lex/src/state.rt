//! What is known of a line between two pieces of a text.

ghost use Rattle.std.specs.Prelude.{◌≡◌, Bool, ◌||◌, bytes_eq, codes, ◌==◌, if◌then◌else◌};
ghost use Rattle.dm_token.specs.Places.{newline};
ghost use Rattle.dm_lex.specs.Cuts.{is_blank as blank, line_behind as behind, allows_header as allows};
ghost use Rattle.dm_lex.specs.Tokens.{is_start as starts};

/// How far a line has come towards a header name.
#[derive(Clone, Copy, Debug, PartialEq, Eq)]
pub enum Line {
    /// No token stands on it yet.
    Start,
    /// Its one token is `#`.
    Hash,
    /// Its tokens are `#` and `include`.
    Include,
    /// Other tokens stand on it.
    Other,
}

/// What is known between two pieces.
#[derive(Clone, Copy, Debug, PartialEq, Eq)]
pub struct State {
    /// How far the line has come.
    pub line: Line,
    /// Whether a blank, a comment or the beginning of the file stands directly before.
    pub blank: bool,
}

const VERTICAL_TAB: u8 = 11;

const FORM_FEED: u8 = 12;

/// White space (6.4p3).
#[tactic(auto, unfolding(crate::specs::Cuts::is_blank))]
pub fn is_blank(byte: u8) -> bool
    ensures { result ≡ blank byte }
{
    byte == b' ' || byte == b'\t' || byte == VERTICAL_TAB || byte == FORM_FEED || byte == b'\n'
}

/// Whether a header name may stand next.
pub fn allows_header(state: State) -> bool
    ensures { result ≡ allows state }
{
    state.line == Line::Include
}

/// How far a line has come behind a token.
#[tactic(auto, unfolding(crate::specs::Cuts::line_behind))]
pub fn line_behind(line: Line, spelling: &[u8]) -> Line
    ensures { result ≡ behind line spelling.now }
{
    match line {
        Line::Start => behind_first(spelling),
        Line::Hash => behind_hash(spelling),
        Line::Include | Line::Other => Line::Other,
    }
}

#[tactic(auto, unfolding(crate::specs::Cuts::line_behind))]
fn behind_first(spelling: &[u8]) -> Line
    ensures { result ≡ behind Line.Start spelling.now }
{
    let is_hash = spelling == b"#".as_slice();
    let is_digraph = spelling == b"%:".as_slice();
    if is_hash || is_digraph {
        Line::Hash
    } else {
        Line::Other
    }
}

#[tactic(auto, unfolding(crate::specs::Cuts::line_behind))]
fn behind_hash(spelling: &[u8]) -> Line
    ensures { result ≡ behind Line.Hash spelling.now }
{
    if spelling == b"include".as_slice() {
        Line::Include
    } else {
        Line::Other
    }
}

/// How far a line has come behind a blank.
pub fn line_behind_blank(line: Line, byte: u8) -> Line
    ensures { result ≡ (if byte == newline then Line.Start else line) }
{
    if byte == b'\n' { Line::Start } else { line }
}

/// Whether no token stands on the line yet.
pub fn is_start(line: Line) -> bool
    ensures { result ≡ starts line }
{
    matches!(line, Line::Start)
}
