ghost use Rattle.std.specs.Prelude.{◌≡◌};
ghost use Rattle.dm_unit.specs.Directives.{named as directive_named, directive_of as directive_behind};

use dm_macro::is_identifier;
use dm_token::PpToken;

/// A directive (6.10p1), by its name.
#[derive(Clone, Copy, Debug, PartialEq, Eq)]
pub enum Directive {
    If,
    Ifdef,
    Ifndef,
    Elif,
    Else,
    Endif,
    Include,
    Define,
    Undef,
    Line,
    Error,
    Pragma,
    /// A `#` alone.
    Null,
    /// Any other.
    Unknown,
}

/// The directive of a line, from the tokens behind its `#`.
#[tactic(auto, unfolding(crate::specs::Directives::directive_of))]
pub(crate) fn directive_of(behind: &[PpToken]) -> Directive
    ensures { result ≡ directive_behind behind.now }
{
    match behind {
        [] => Directive::Null,
        [name, ..] => {
            if is_identifier(name) {
                named(name.spelling.bytes())
            } else {
                Directive::Unknown
            }
        }
    }
}

#[tactic(auto, unfolding(crate::specs::Directives::named))]
fn named(name: &[u8]) -> Directive
    ensures { result ≡ directive_named name.now }
{
    if name == b"if".as_slice() {
        Directive::If
    } else if name == b"ifdef".as_slice() {
        Directive::Ifdef
    } else if name == b"ifndef".as_slice() {
        Directive::Ifndef
    } else if name == b"elif".as_slice() {
        Directive::Elif
    } else if name == b"else".as_slice() {
        Directive::Else
    } else if name == b"endif".as_slice() {
        Directive::Endif
    } else if name == b"include".as_slice() {
        Directive::Include
    } else if name == b"define".as_slice() {
        Directive::Define
    } else if name == b"undef".as_slice() {
        Directive::Undef
    } else if name == b"line".as_slice() {
        Directive::Line
    } else if name == b"error".as_slice() {
        Directive::Error
    } else if name == b"pragma".as_slice() {
        Directive::Pragma
    } else {
        Directive::Unknown
    }
}
