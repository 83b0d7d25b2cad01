//! Keywords, and what gcc gives.
//!
//! The tables of constants and literals were made with gcc 12.2 (`-std=c11`, x86-64) by programs that print for each integer constant its type, by
//! `_Generic`, and its value, for each character constant its value as an int, and for each row of string literals the
//! bytes of the array, but the last. Where gcc warns that a constant is too large for its type, or gives it a type that
//! C11 doesn't have, the table has `none`.

/// The keywords that are read, in the order of their rows.
pub const KEYWORDS: &str =
    "break case char const continue default do else enum extern for if inline int long return short signed sizeof static struct switch typedef unsigned void while _Bool";

/// The keywords that are left out.
pub const LEFT_OUT: &str =
    "auto double float goto register restrict union volatile _Alignas _Alignof _Atomic _Complex _Generic _Imaginary _Noreturn _Static_assert _Thread_local";

/// In each line a value and the constants that have it, each with its type.
pub const INTEGERS: &str =
    r#"2147483647 2147483647:Int 2147483647u:UInt 2147483647L:Long 2147483647uL:ULong 2147483647ll:LLong 2147483647LLU:ULLong
2147483648 2147483648:Long 2147483648u:UInt 2147483648L:Long 2147483648uL:ULong 2147483648ll:LLong 2147483648LLU:ULLong
4294967295 4294967295:Long 4294967295u:UInt 4294967295L:Long 4294967295uL:ULong 4294967295ll:LLong 4294967295LLU:ULLong
4294967296 4294967296:Long 4294967296u:ULong 4294967296L:Long 4294967296uL:ULong 4294967296ll:LLong 4294967296LLU:ULLong
9223372036854775807 9223372036854775807:Long 9223372036854775807u:ULong 9223372036854775807L:Long 9223372036854775807uL:ULong 9223372036854775807ll:LLong 9223372036854775807LLU:ULLong
9223372036854775808 9223372036854775808:none 9223372036854775808u:ULong 9223372036854775808L:none 9223372036854775808uL:ULong 9223372036854775808ll:none 9223372036854775808LLU:ULLong
18446744073709551615 18446744073709551615:none 18446744073709551615u:ULong 18446744073709551615L:none 18446744073709551615uL:ULong 18446744073709551615ll:none 18446744073709551615LLU:ULLong
- 18446744073709551616:none 18446744073709551616u:none 18446744073709551616LLU:none
0 0:Int 0LLU:ULLong
7 07:Int 07LLU:ULLong
8 010:Int 010LLU:ULLong
2147483647 017777777777:Int 017777777777u:UInt 017777777777L:Long 017777777777uL:ULong 017777777777ll:LLong 017777777777LLU:ULLong
2147483648 020000000000:UInt 020000000000u:UInt 020000000000L:Long 020000000000uL:ULong 020000000000ll:LLong 020000000000LLU:ULLong
4294967295 037777777777:UInt 037777777777u:UInt 037777777777L:Long 037777777777uL:ULong 037777777777ll:LLong 037777777777LLU:ULLong
4294967296 040000000000:Long 040000000000u:ULong 040000000000L:Long 040000000000uL:ULong 040000000000ll:LLong 040000000000LLU:ULLong
9223372036854775807 0777777777777777777777:Long 0777777777777777777777u:ULong 0777777777777777777777L:Long 0777777777777777777777uL:ULong 0777777777777777777777ll:LLong 0777777777777777777777LLU:ULLong
9223372036854775808 01000000000000000000000:ULong 01000000000000000000000u:ULong 01000000000000000000000L:ULong 01000000000000000000000uL:ULong 01000000000000000000000ll:ULLong 01000000000000000000000LLU:ULLong
18446744073709551615 01777777777777777777777:ULong 01777777777777777777777u:ULong 01777777777777777777777L:ULong 01777777777777777777777uL:ULong 01777777777777777777777ll:ULLong 01777777777777777777777LLU:ULLong
- 02000000000000000000000:none 02000000000000000000000u:none 02000000000000000000000LLU:none
0 0x0:Int 0x0LLU:ULLong
2147483647 0x7fffffff:Int 0x7fffffffu:UInt 0x7fffffffL:Long 0x7fffffffuL:ULong 0x7fffffffll:LLong 0x7fffffffLLU:ULLong
2147483648 0x80000000:UInt 0x80000000u:UInt 0x80000000L:Long 0x80000000uL:ULong 0x80000000ll:LLong 0x80000000LLU:ULLong
4294967295 0xffffffff:UInt 0xffffffffu:UInt 0xffffffffL:Long 0xffffffffuL:ULong 0xffffffffll:LLong 0xffffffffLLU:ULLong
4294967296 0x100000000:Long 0x100000000u:ULong 0x100000000L:Long 0x100000000uL:ULong 0x100000000ll:LLong 0x100000000LLU:ULLong
9223372036854775807 0x7fffffffffffffff:Long 0x7fffffffffffffffu:ULong 0x7fffffffffffffffL:Long 0x7fffffffffffffffuL:ULong 0x7fffffffffffffffll:LLong 0x7fffffffffffffffLLU:ULLong
9223372036854775808 0x8000000000000000:ULong 0x8000000000000000u:ULong 0x8000000000000000L:ULong 0x8000000000000000uL:ULong 0x8000000000000000ll:ULLong 0x8000000000000000LLU:ULLong
18446744073709551615 0xffffffffffffffff:ULong 0xffffffffffffffffu:ULong 0xffffffffffffffffL:ULong 0xffffffffffffffffuL:ULong 0xffffffffffffffffll:ULLong 0xffffffffffffffffLLU:ULLong
- 0x10000000000000000:none 0x10000000000000000u:none 0x10000000000000000LLU:none
31 0X1fUll:ULLong
11259375 0XABCDEFlu:ULong
1 1Ul:ULong 1LU:ULong 1llu:ULLong 1LLu:ULLong 1l:Long
12 0xcU:UInt"#;

/// In each line a character constant and its value.
pub const CHARACTERS: &str = r#"'a' 97
'"' 34
'?' 63
'\'' 39
'\"' 34
'\?' 63
'\\' 92
'\a' 7
'\b' 8
'\f' 12
'\n' 10
'\r' 13
'\t' 9
'\v' 11
'\0' 0
'\7' 7
'\12' 10
'\012' 10
'\177' 127
'\200' -128
'\377' -1
'\x0' 0
'\x7f' 127
'\x80' -128
'\xFf' -1
'\x00000000fe' -2"#;

/// In each line the bytes of adjacent literals, `-` where there are none, and the literals.
pub const LITERALS: &str = r#"- ""
6162 "ab"
6162 "a" "b"
5334 "\1234"
0038 "\08"
0138 "\18"
4167 "\x41g"
0f66 "\xf" "f"
0132 "\1" "2"
5c6e "\\n"
69742773 "it's"
ff80 "\377\x80"
78 "" "" "x"
6122002262 "a\"" "\0" "\"b"
0a33 "\12" "" "3"
3f3f3d "?\?=""#;
