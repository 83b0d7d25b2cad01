//! What the grammar sees of a token.

ghost use Rattle.std.specs.Prelude.{◌≡◌};
ghost use Rattle.dm_syn.specs.Symbols.{symbol_of as meant, infix_level as level_meant, punctuator_symbol, keyword_symbol};

use dm_spell::{keyword, punctuator};
use dm_token::Class;

/// A terminal symbol of the grammar: a token, or tokens that stand in the same places.
#[derive(Clone, Copy, Debug, PartialEq, Eq)]
pub enum Symbol {
    /// An identifier that names no type.
    Identifier,
    /// An identifier that names a type (6.7.8).
    TypedefName,
    /// An integer or character constant.
    Constant,
    /// A string literal.
    Literal,
    LeftBracket,
    RightBracket,
    LeftParen,
    RightParen,
    LeftBrace,
    RightBrace,
    Dot,
    Arrow,
    /// `++` or `--`
    Increment,
    Ampersand,
    Star,
    /// `+` or `-`
    Additive,
    /// `~` or `!`
    Complement,
    /// `/` or `%`
    Multiplicative,
    /// `<<` or `>>`
    Shift,
    /// `<`, `>`, `<=` or `>=`
    Relational,
    /// `==` or `!=`
    Equality,
    Caret,
    Bar,
    /// `&&`
    And,
    /// `||`
    Or,
    Question,
    Colon,
    Semicolon,
    Comma,
    /// `=`
    Equals,
    /// A compound assignment operator (6.5.16.2).
    Compound,
    Sizeof,
    Const,
    Typedef,
    /// `extern`, `static` or `inline`
    Storage,
    /// A keyword that is a type specifier of its own (6.7.2).
    TypeWord,
    Struct,
    Enum,
    Break,
    Case,
    Continue,
    Default,
    Do,
    Else,
    For,
    If,
    Return,
    Switch,
    While,
    /// A token that the grammar doesn't have.
    Other,
    /// The end of the tokens.
    End,
}

impl Symbol {
    ghost use Rattle.dm_syn.specs.Symbols.{is as same, is_identifier as identifier, begins_specifiers as begins};

    /// Whether it is the other symbol.
    pub fn is(self, other: Symbol) -> bool
        ensures { result ≡ same self other }
    {
        self as u8 == other as u8
    }

    /// Whether it is an identifier, whatever it names.
    pub fn is_identifier(self) -> bool
        ensures { result ≡ identifier self }
    {
        matches!(self, Symbol::Identifier | Symbol::TypedefName)
    }

    /// Whether specifiers begin with it (6.7).
    pub fn begins_specifiers(self) -> bool
        ensures { result ≡ begins self }
    {
        matches!(
            self,
            Symbol::TypedefName
                | Symbol::Const
                | Symbol::Typedef
                | Symbol::Storage
                | Symbol::TypeWord
                | Symbol::Struct
                | Symbol::Enum
        )
    }
}

/// What the grammar sees of a token of this class. An identifier counts as one that names no type.
#[tactic(auto, unfolding(crate::specs::Symbols::symbol_of))]
pub fn symbol_of(class: Class) -> Symbol
    ensures { result ≡ meant class }
{
    match class {
        Class::Keyword(row) => of_keyword(row),
        Class::Punctuator(row) => of_punctuator(row),
        Class::Identifier => Symbol::Identifier,
        Class::Integer => Symbol::Constant,
        Class::Literal => Symbol::Literal,
    }
}

/// The level of an operator between two operands, from 3 for `||` to 12 for `*`, if it can be one (6.5.5 to 6.5.14).
pub fn infix_level(symbol: Symbol) -> Option<u8>
    ensures { result ≡ level_meant symbol }
{
    match symbol {
        Symbol::Star | Symbol::Multiplicative => Some(12),
        Symbol::Additive => Some(11),
        Symbol::Shift => Some(10),
        Symbol::Relational => Some(9),
        Symbol::Equality => Some(8),
        Symbol::Ampersand => Some(7),
        Symbol::Caret => Some(6),
        Symbol::Bar => Some(5),
        Symbol::And => Some(4),
        Symbol::Or => Some(3),
        _ => None,
    }
}

// What a punctuator is, by its row in the table of punctuators.
fn of_punctuator(row: u16) -> Symbol
    ensures { result ≡ punctuator_symbol row }
{
    match row {
        punctuator::LEFT_BRACKET => Symbol::LeftBracket,
        punctuator::RIGHT_BRACKET => Symbol::RightBracket,
        punctuator::LEFT_PARENTHESIS => Symbol::LeftParen,
        punctuator::RIGHT_PARENTHESIS => Symbol::RightParen,
        punctuator::LEFT_BRACE => Symbol::LeftBrace,
        punctuator::RIGHT_BRACE => Symbol::RightBrace,
        punctuator::DOT => Symbol::Dot,
        punctuator::ARROW => Symbol::Arrow,
        punctuator::INCREMENT | punctuator::DECREMENT => Symbol::Increment,
        punctuator::AMPERSAND => Symbol::Ampersand,
        punctuator::STAR => Symbol::Star,
        punctuator::PLUS | punctuator::MINUS => Symbol::Additive,
        punctuator::TILDE | punctuator::EXCLAMATION => Symbol::Complement,
        punctuator::SLASH | punctuator::PERCENT => Symbol::Multiplicative,
        punctuator::LEFT_SHIFT | punctuator::RIGHT_SHIFT => Symbol::Shift,
        punctuator::LESS
        | punctuator::GREATER
        | punctuator::LESS_EQUAL
        | punctuator::GREATER_EQUAL => Symbol::Relational,
        punctuator::EQUAL_EQUAL | punctuator::NOT_EQUAL => Symbol::Equality,
        punctuator::CARET => Symbol::Caret,
        punctuator::BAR => Symbol::Bar,
        punctuator::AND_AND => Symbol::And,
        punctuator::OR_OR => Symbol::Or,
        punctuator::QUESTION => Symbol::Question,
        punctuator::COLON => Symbol::Colon,
        punctuator::SEMICOLON => Symbol::Semicolon,
        punctuator::COMMA => Symbol::Comma,
        punctuator::EQUALS => Symbol::Equals,
        punctuator::STAR_EQUALS
        | punctuator::SLASH_EQUALS
        | punctuator::PERCENT_EQUALS
        | punctuator::PLUS_EQUALS
        | punctuator::MINUS_EQUALS
        | punctuator::LEFT_SHIFT_EQUALS
        | punctuator::RIGHT_SHIFT_EQUALS
        | punctuator::AMPERSAND_EQUALS
        | punctuator::CARET_EQUALS
        | punctuator::BAR_EQUALS => Symbol::Compound,
        _ => Symbol::Other,
    }
}

// What a keyword is, by its row in the table of keywords.
fn of_keyword(row: u16) -> Symbol
    ensures { result ≡ keyword_symbol row }
{
    match row {
        keyword::BREAK => Symbol::Break,
        keyword::CASE => Symbol::Case,
        keyword::CONST => Symbol::Const,
        keyword::CONTINUE => Symbol::Continue,
        keyword::DEFAULT => Symbol::Default,
        keyword::DO => Symbol::Do,
        keyword::ELSE => Symbol::Else,
        keyword::ENUM => Symbol::Enum,
        keyword::FOR => Symbol::For,
        keyword::IF => Symbol::If,
        keyword::RETURN => Symbol::Return,
        keyword::SIZEOF => Symbol::Sizeof,
        keyword::STRUCT => Symbol::Struct,
        keyword::SWITCH => Symbol::Switch,
        keyword::TYPEDEF => Symbol::Typedef,
        keyword::WHILE => Symbol::While,
        keyword::EXTERN | keyword::STATIC | keyword::INLINE => Symbol::Storage,
        keyword::VOID
        | keyword::BOOL
        | keyword::CHAR
        | keyword::INT
        | keyword::SHORT
        | keyword::LONG
        | keyword::SIGNED
        | keyword::UNSIGNED => Symbol::TypeWord,
        _ => Symbol::Other,
    }
}
