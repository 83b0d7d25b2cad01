//! The numbers of rows in the tables of spellings: a row's number is its place in its table. `specs/Punctuators.antt`,
//! `specs/Keywords.antt` and `specs/Directives.antt` have them for clauses.

ghost use Rattle.dm_spell.specs.Punctuators.{PunctuatorsAreSpelled};
ghost use Rattle.dm_spell.specs.Keywords.{KeywordsAreSpelled};
ghost use Rattle.dm_spell.specs.Directives.{DirectivesAreSpelled};

/// The rows of the punctuators (6.4.6).
pub mod punctuator {
    /// `[`
    pub const LEFT_BRACKET: u16 = 0;

    /// `]`
    pub const RIGHT_BRACKET: u16 = 1;

    /// `(`
    pub const LEFT_PARENTHESIS: u16 = 2;

    /// `)`
    pub const RIGHT_PARENTHESIS: u16 = 3;

    /// `{`
    pub const LEFT_BRACE: u16 = 4;

    /// `}`
    pub const RIGHT_BRACE: u16 = 5;

    /// `.`
    pub const DOT: u16 = 6;

    /// `->`
    pub const ARROW: u16 = 7;

    /// `++`
    pub const INCREMENT: u16 = 8;

    /// `--`
    pub const DECREMENT: u16 = 9;

    /// `&`
    pub const AMPERSAND: u16 = 10;

    /// `*`
    pub const STAR: u16 = 11;

    /// `+`
    pub const PLUS: u16 = 12;

    /// `-`
    pub const MINUS: u16 = 13;

    /// `~`
    pub const TILDE: u16 = 14;

    /// `!`
    pub const EXCLAMATION: u16 = 15;

    /// `/`
    pub const SLASH: u16 = 16;

    /// `%`
    pub const PERCENT: u16 = 17;

    /// `<<`
    pub const LEFT_SHIFT: u16 = 18;

    /// `>>`
    pub const RIGHT_SHIFT: u16 = 19;

    /// `<`
    pub const LESS: u16 = 20;

    /// `>`
    pub const GREATER: u16 = 21;

    /// `<=`
    pub const LESS_EQUAL: u16 = 22;

    /// `>=`
    pub const GREATER_EQUAL: u16 = 23;

    /// `==`
    pub const EQUAL_EQUAL: u16 = 24;

    /// `!=`
    pub const NOT_EQUAL: u16 = 25;

    /// `^`
    pub const CARET: u16 = 26;

    /// `|`
    pub const BAR: u16 = 27;

    /// `&&`
    pub const AND_AND: u16 = 28;

    /// `||`
    pub const OR_OR: u16 = 29;

    /// `?`
    pub const QUESTION: u16 = 30;

    /// `:`
    pub const COLON: u16 = 31;

    /// `;`
    pub const SEMICOLON: u16 = 32;

    /// `...`
    pub const ELLIPSIS: u16 = 33;

    /// `=`
    pub const EQUALS: u16 = 34;

    /// `*=`
    pub const STAR_EQUALS: u16 = 35;

    /// `/=`
    pub const SLASH_EQUALS: u16 = 36;

    /// `%=`
    pub const PERCENT_EQUALS: u16 = 37;

    /// `+=`
    pub const PLUS_EQUALS: u16 = 38;

    /// `-=`
    pub const MINUS_EQUALS: u16 = 39;

    /// `<<=`
    pub const LEFT_SHIFT_EQUALS: u16 = 40;

    /// `>>=`
    pub const RIGHT_SHIFT_EQUALS: u16 = 41;

    /// `&=`
    pub const AMPERSAND_EQUALS: u16 = 42;

    /// `^=`
    pub const CARET_EQUALS: u16 = 43;

    /// `|=`
    pub const BAR_EQUALS: u16 = 44;

    /// `,`
    pub const COMMA: u16 = 45;

    /// `#`
    pub const HASH: u16 = 46;

    /// `##`
    pub const HASH_HASH: u16 = 47;

    /// `<:`
    pub const LEFT_BRACKET_DIGRAPH: u16 = 48;

    /// `:>`
    pub const RIGHT_BRACKET_DIGRAPH: u16 = 49;

    /// `<%`
    pub const LEFT_BRACE_DIGRAPH: u16 = 50;

    /// `%>`
    pub const RIGHT_BRACE_DIGRAPH: u16 = 51;

    /// `%:`
    pub const HASH_DIGRAPH: u16 = 52;

    /// `%:%:`
    pub const HASH_HASH_DIGRAPH: u16 = 53;
}

/// The rows of the keywords (6.4.1).
pub mod keyword {
    /// `break`
    pub const BREAK: u16 = 0;

    /// `case`
    pub const CASE: u16 = 1;

    /// `char`
    pub const CHAR: u16 = 2;

    /// `const`
    pub const CONST: u16 = 3;

    /// `continue`
    pub const CONTINUE: u16 = 4;

    /// `default`
    pub const DEFAULT: u16 = 5;

    /// `do`
    pub const DO: u16 = 6;

    /// `else`
    pub const ELSE: u16 = 7;

    /// `enum`
    pub const ENUM: u16 = 8;

    /// `extern`
    pub const EXTERN: u16 = 9;

    /// `for`
    pub const FOR: u16 = 10;

    /// `if`
    pub const IF: u16 = 11;

    /// `inline`
    pub const INLINE: u16 = 12;

    /// `int`
    pub const INT: u16 = 13;

    /// `long`
    pub const LONG: u16 = 14;

    /// `return`
    pub const RETURN: u16 = 15;

    /// `short`
    pub const SHORT: u16 = 16;

    /// `signed`
    pub const SIGNED: u16 = 17;

    /// `sizeof`
    pub const SIZEOF: u16 = 18;

    /// `static`
    pub const STATIC: u16 = 19;

    /// `struct`
    pub const STRUCT: u16 = 20;

    /// `switch`
    pub const SWITCH: u16 = 21;

    /// `typedef`
    pub const TYPEDEF: u16 = 22;

    /// `unsigned`
    pub const UNSIGNED: u16 = 23;

    /// `void`
    pub const VOID: u16 = 24;

    /// `while`
    pub const WHILE: u16 = 25;

    /// `_Bool`
    pub const BOOL: u16 = 26;

    /// `auto`
    pub const AUTO: u16 = 27;

    /// `double`
    pub const DOUBLE: u16 = 28;

    /// `float`
    pub const FLOAT: u16 = 29;

    /// `goto`
    pub const GOTO: u16 = 30;

    /// `register`
    pub const REGISTER: u16 = 31;

    /// `restrict`
    pub const RESTRICT: u16 = 32;

    /// `union`
    pub const UNION: u16 = 33;

    /// `volatile`
    pub const VOLATILE: u16 = 34;

    /// `_Alignas`
    pub const ALIGNAS: u16 = 35;

    /// `_Alignof`
    pub const ALIGNOF: u16 = 36;

    /// `_Atomic`
    pub const ATOMIC: u16 = 37;

    /// `_Complex`
    pub const COMPLEX: u16 = 38;

    /// `_Generic`
    pub const GENERIC: u16 = 39;

    /// `_Imaginary`
    pub const IMAGINARY: u16 = 40;

    /// `_Noreturn`
    pub const NORETURN: u16 = 41;

    /// `_Static_assert`
    pub const STATIC_ASSERT: u16 = 42;

    /// `_Thread_local`
    pub const THREAD_LOCAL: u16 = 43;
}

/// The rows of the directives (6.10).
pub mod directive {
    /// `include`
    pub const INCLUDE: u16 = 0;

    /// `define`
    pub const DEFINE: u16 = 1;

    /// `undef`
    pub const UNDEF: u16 = 2;

    /// `if`
    pub const IF: u16 = 3;

    /// `ifdef`
    pub const IFDEF: u16 = 4;

    /// `ifndef`
    pub const IFNDEF: u16 = 5;

    /// `elif`
    pub const ELIF: u16 = 6;

    /// `else`
    pub const ELSE: u16 = 7;

    /// `endif`
    pub const ENDIF: u16 = 8;

    /// `error`
    pub const ERROR: u16 = 9;

    /// `pragma`
    pub const PRAGMA: u16 = 10;

    /// `line`
    pub const LINE: u16 = 11;
}

/// The numbers are those of the rows so spelled.
pub fn rows_are_named()
    ensures punctuators { PunctuatorsAreSpelled }
    ensures keywords { KeywordsAreSpelled }
    ensures directives { DirectivesAreSpelled }
{}
