//! Names, types and literals.

ghost use Rattle.dm_type.specs.Tables.{IsId};

use dm_token::{Memory, Text};
use dm_tree::Declared;
use dm_type::{TypeId, Types};
use std::fmt::Write;

/// Text of basic characters.
pub fn put_text(out: &mut String, text: &Text) -> Result<(), Memory> {
    for byte in text.bytes() {
        out.push(char::from(*byte))?;
    }
    Ok(())
}

/// A byte of a literal: a printable character, or an escape (6.4.4.4).
fn put_byte(out: &mut String, byte: u8) -> Result<(), Memory> {
    match byte {
        b'"' => out.push_str("\\\"")?,
        b'\\' => out.push_str("\\\\")?,
        b' '..=b'~' => out.push(char::from(byte))?,
        _ => write!(out, "\\{byte:03o}")?,
    }
    Ok(())
}

/// A string literal (6.4.5).
pub fn put_literal(out: &mut String, text: &Text) -> Result<(), Memory> {
    out.push_str("\"")?;
    for byte in text.bytes() {
        put_byte(out, *byte)?;
    }
    out.push_str("\"")?;
    Ok(())
}

/// The name of a declaration. A question mark where there is none.
pub fn put_name(out: &mut String, declared: &[Declared], number: u32) -> Result<(), Memory> {
    match declared.get(number as usize) {
        Some(entry) => put_text(out, &entry.name),
        None => {
            out.push_str("?")?;
            Ok(())
        }
    }
}

/// A type round a name or nothing. A question mark where it can't be spelled.
pub fn put_type(
    out: &mut String,
    types: &Types,
    structs: &[u32],
    kind: TypeId,
    name: &Text,
) -> Result<(), Memory>
    requires { IsId types.now kind }
{
    match types.spell(kind, name, structs)? {
        Some(text) => put_text(out, &text),
        None => {
            out.push_str("?")?;
            Ok(())
        }
    }
}
