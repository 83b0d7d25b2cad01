//! The headers that are built in.
ghost use Rattle.std.specs.Prelude.{◌≡◌, ◌<◌, ◌≤◌, map, length, slice_get, bytes_eq, Some, IfSome, IfOk, OnOk};
ghost use Rattle.indexmap.specs.IndexSet.{insert_key};
ghost use Rattle.dm_token.specs.Limits.{header_count, source_length_limit};
ghost use Rattle.dm_search.specs.Headers.{header_number, header_texts, header_names as names_of_headers};
ghost use Rattle.dm_search.specs.Sound.{bytes_of, AreContents, IsContent};

use crate::content::Content;
use dm_token::{HEADER_COUNT, List, Memory, Text};
use indexmap::IndexSet;
use std::alloc::Global;

const STDIO: &str = "int putchar(int c);
int getchar(void);
int puts(const char *s);
typedef unsigned long size_t;
#define EOF (-1)
#define NULL ((void *)0)
";

const STDLIB: &str = "void exit(int status);
typedef unsigned long size_t;
#define EXIT_SUCCESS 0
#define EXIT_FAILURE 1
#define NULL ((void *)0)
";

const STDDEF: &str = "typedef unsigned long size_t;
typedef long ptrdiff_t;
#define NULL ((void *)0)
";

const STDINT: &str = "typedef signed char int8_t;
typedef unsigned char uint8_t;
typedef short int16_t;
typedef unsigned short uint16_t;
typedef int int32_t;
typedef unsigned int uint32_t;
typedef long int64_t;
typedef unsigned long uint64_t;
#define INT8_MAX 127
#define UINT8_MAX 255
#define INT16_MAX 32767
#define UINT16_MAX 65535
#define INT32_MAX 2147483647
#define INT32_MIN (-2147483647-1)
#define UINT32_MAX 4294967295u
#define INT64_MAX 9223372036854775807L
#define INT64_MIN (-9223372036854775807L-1)
#define UINT64_MAX 18446744073709551615uL
";

const LIMITS: &str = "#define CHAR_BIT 8
#define SCHAR_MIN (-128)
#define SCHAR_MAX 127
#define UCHAR_MAX 255
#define CHAR_MIN (-128)
#define CHAR_MAX 127
#define SHRT_MIN (-32768)
#define SHRT_MAX 32767
#define USHRT_MAX 65535
#define INT_MIN (-2147483647-1)
#define INT_MAX 2147483647
#define UINT_MAX 4294967295u
#define LONG_MIN (-9223372036854775807L-1)
#define LONG_MAX 9223372036854775807L
#define ULONG_MAX 18446744073709551615uL
#define LLONG_MIN (-9223372036854775807LL-1)
#define LLONG_MAX 9223372036854775807LL
#define ULLONG_MAX 18446744073709551615uLL
";

const STDBOOL: &str = "#define bool _Bool
#define true 1
#define false 0
#define __bool_true_false_are_defined 1
";

/// The number of the built-in header of a name, if there is one.
pub fn header_number_of(name: &[u8]) -> Option<u32>
    ensures number { result ≡ header_number name.now }
    ensures within { IfSome result (λ number. number < header_count) }
{
    if is_called(name, "stdio.h") {
        Some(0)
    } else if is_called(name, "stdlib.h") {
        Some(1)
    } else if is_called(name, "stddef.h") {
        Some(2)
    } else if is_called(name, "stdint.h") {
        Some(3)
    } else if is_called(name, "limits.h") {
        Some(4)
    } else if is_called(name, "stdbool.h") {
        Some(5)
    } else {
        None
    }
}

fn is_called(name: &[u8], known: &str) -> bool
    ensures { result ≡ bytes_eq name.now known.now }
{
    name == known.as_bytes()
}

/// The names of the built-in headers among the files.
pub fn header_names(alloc: Global) -> Result<IndexSet<Text>, Memory>
    ensures { IfOk result (λ names. names.keys ≡ names_of_headers) }
{
    let mut names = IndexSet::new(alloc);
    add_name(alloc, &mut names, "<stdio.h>")?;
    add_name(alloc, &mut names, "<stdlib.h>")?;
    add_name(alloc, &mut names, "<stddef.h>")?;
    add_name(alloc, &mut names, "<stdint.h>")?;
    add_name(alloc, &mut names, "<limits.h>")?;
    add_name(alloc, &mut names, "<stdbool.h>")?;
    Ok(names)
}

fn add_name(alloc: Global, names: &mut IndexSet<Text>, name: &str) -> Result<(), Memory>
    ensures { OnOk result (names.new.keys ≡ insert_key bytes_eq names.old.keys name.now) }
{
    names.insert(Text::new(alloc, name)?)?;
    Ok(())
}

/// The contents of the built-in headers.
pub fn header_contents(alloc: Global) -> Result<Vec<Option<Content>>, Memory>
    ensures held { IfOk result (λ contents. bytes_of contents.items ≡ map Some header_texts) }
    ensures read { IfOk result (λ contents. AreContents contents.items) }
{
    let mut contents = Vec::new(alloc);
    for number in 0..HEADER_COUNT as u32 {
        contents.push(Some(header_content(alloc, number)?))?;
    }
    Ok(contents)
}

/// The content of the built-in header of a number.
fn header_content(alloc: Global, number: u32) -> Result<Content, Memory>
    requires { number < header_count }
    ensures bytes { IfOk result (λ content. slice_get header_texts number ≡ Some content.bytes) }
    ensures content { IfOk result (IsContent number) }
{
    let text = Vec::from_slice(alloc, text_of(number))?;
    match Content::read(alloc, number, List::from_vec(text)) {
        Ok(content) => Ok(content),
        Err(_) => Err(Memory),
    }
}

/// The text of the built-in header of a number.
pub fn text_of(number: u32) -> &'static [u8]
    requires { number < header_count }
    ensures text { slice_get header_texts number ≡ Some result.now }
    ensures short { length result.now ≤ source_length_limit }
{
    match number {
        0 => STDIO.as_bytes(),
        1 => STDLIB.as_bytes(),
        2 => STDDEF.as_bytes(),
        3 => STDINT.as_bytes(),
        4 => LIMITS.as_bytes(),
        _ => STDBOOL.as_bytes(),
    }
}
