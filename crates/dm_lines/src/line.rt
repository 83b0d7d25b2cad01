ghost use Rattle.std.specs.Prelude.{◌≡◌, ◌++◌, IfOk, OnOk};
ghost use Rattle.dm_lines.specs.Lines.{refusal_line as refusal_text, refusal_name as name_of_refusal, rule_named, limit_line as limit_text, manifest_line as manifest_text, read_fault_line as read_fault_text, write_fault_line as write_fault_text};

use crate::joining::append_all;
use dm_token::{Memory, Refusal, refusals};
use itoa::Buffer;
use std::alloc::Global;

/// `FILE:LINE:COLUMN: refusal K Name`, with a space and the typing rule behind it where one is broken.
pub fn refusal_line(alloc: Global, file: &[u8], refusal: Refusal) -> Result<Vec<u8>, Memory>
    ensures { IfOk result (λ text. text.items ≡ refusal_text file.now refusal) }
{
    let mut line_digits = Buffer::new();
    let mut column_digits = Buffer::new();
    let mut digits = Buffer::new();
    let line = line_digits.format(refusal.place.line).as_bytes();
    let column = column_digits.format(refusal.place.column).as_bytes();
    let number = digits.format(refusal.number).as_bytes();
    let name = refusal_name(refusal.number).as_bytes();
    let mut text = Vec::new(alloc);
    append_all(
        &mut text,
        &[
            file,
            b":",
            line,
            b":",
            column,
            b": refusal ",
            number,
            b" ",
            name,
        ],
    )?;
    append_rule(&mut text, refusal.number, refusal.detail)?;
    text.push(b'\n')?;
    Ok(text)
}

/// Appends the typing rule that a refusal names.
fn append_rule(text: &mut Vec<u8>, number: u8, detail: u8) -> Result<(), Memory>
    ensures { OnOk result (text.new.items ≡ text.old.items ++ rule_named number detail) }
{
    if number != refusals::TYPING {
        return Ok(());
    }
    let mut digits = Buffer::new();
    append_all(text, &[b" C", digits.format(detail).as_bytes()])
}

/// The name of a refusal.
#[tactic(auto, unfolding(crate::specs::Lines::refusal_name))]
fn refusal_name<'a>(number: u8) -> &'a str
    ensures { result.now ≡ name_of_refusal number }
{
    match number {
        refusals::BYTE => "Byte",
        refusals::COMMENT => "Comment",
        refusals::LITERAL => "Literal",
        refusals::DIRECTIVE => "Directive",
        refusals::FORM => "Form",
        refusals::CONDITIONALS => "Conditionals",
        refusals::NOT_FOUND => "NotFound",
        refusals::SPLICE => "Splice",
        refusals::ARGUMENTS => "Arguments",
        refusals::PASTE => "Paste",
        refusals::HASH_OPERAND => "HashOperand",
        refusals::REDEFINITION => "Redefinition",
        refusals::CONDITION => "Condition",
        refusals::ERROR_DIRECTIVE => "Error",
        refusals::CONSTANT => "Constant",
        refusals::SYNTAX => "Syntax",
        refusals::TYPING => "Type",
        refusals::OUT_OF_SUBSET => "OutOfSubset",
        refusals::NO_MAIN => "NoMain",
        _ => "",
    }
}

/// `limit Lk FILE`.
pub fn limit_line(alloc: Global, number: u8, file: &[u8]) -> Result<Vec<u8>, Memory>
    ensures { IfOk result (λ text. text.items ≡ limit_text number file.now) }
{
    let mut digits = Buffer::new();
    let number = digits.format(number).as_bytes();
    let mut text = Vec::new(alloc);
    append_all(&mut text, &[b"limit L", number, b" ", file, b"\n"])?;
    Ok(text)
}

/// `manifest Mk PATH`.
pub fn manifest_line(alloc: Global, number: u8, path: &[u8]) -> Result<Vec<u8>, Memory>
    ensures { IfOk result (λ text. text.items ≡ manifest_text number path.now) }
{
    let mut digits = Buffer::new();
    let number = digits.format(number).as_bytes();
    let mut text = Vec::new(alloc);
    append_all(&mut text, &[b"manifest M", number, b" ", path, b"\n"])?;
    Ok(text)
}

/// `read fault FILE`.
pub fn read_fault_line(alloc: Global, file: &[u8]) -> Result<Vec<u8>, Memory>
    ensures { IfOk result (λ text. text.items ≡ read_fault_text file.now) }
{
    let mut text = Vec::new(alloc);
    append_all(&mut text, &[b"read fault ", file, b"\n"])?;
    Ok(text)
}

/// `write fault FILE`.
pub fn write_fault_line(alloc: Global, file: &[u8]) -> Result<Vec<u8>, Memory>
    ensures { IfOk result (λ text. text.items ≡ write_fault_text file.now) }
{
    let mut text = Vec::new(alloc);
    append_all(&mut text, &[b"write fault ", file, b"\n"])?;
    Ok(text)
}
