//! Calls of the machine's functions. Each is one step.

ghost use Rattle.std.specs.Prelude.{◌≡◌, ◌++◌, pos, map, IfOk, OnOk};
ghost use Rattle.dm_int.specs.declared.Kind.TheVariants.{Char, Int};
ghost use Rattle.dm_type.specs.CTypes.{integer};
ghost use Rattle.dm_type.specs.Tables.{Has};
ghost use Rattle.dm_layout.specs.LaidOut.{laid_out};
ghost use Rattle.dm_memory.specs.Blocks.{view_of_blocks, AreKnown};
ghost use Rattle.dm_meaning.specs.Primitives as primitives;
ghost use Rattle.dm_meaning.specs.Values as values;
ghost use Rattle.dm_primitive.specs.declared.streams.Streams.{Streams as AllStreams};
ghost use Rattle.dm_primitive.specs.Meanings.{meaning_of, IsAnswer, IsOver};
ghost use Rattle.dm_value.specs.Views.{view_of_value};

use crate::byte::byte_in;
use crate::primitive::Primitive;
use crate::streams::Streams;
use crate::text::text;
use dm_int::Kind;
use dm_layout::Layout;
use dm_meaning::Cause;
use dm_memory::Blocks;
use dm_token::Memory;
use dm_type::TypeId;
use dm_value::{Integer, Pointer, Value};
use std::alloc::Global;

/// What a call does.
#[derive(Drop)]
pub enum Answer {
    /// It gives a value.
    Gives(Value),
    /// It ends the program with this status (7.22.4.4).
    Stops(u8),
    /// It is undefined.
    Refuses(Cause),
}

impl Primitive {
    /// Calls the function. After an `Err` some of the output may be written.
    pub fn call(
        self,
        alloc: Global,
        layout: &Layout,
        blocks: &Blocks,
        arguments: &[Value],
        streams: &mut Streams,
    ) -> Result<Answer, Memory>
        requires over { IsOver layout.now self }
        requires known { AreKnown layout.now blocks.now }
        ensures { IfOk result (λ answer. IsAnswer (meaning_of self (laid_out layout.now) (view_of_blocks layout.now blocks.now) (map view_of_value arguments.now) streams.old.input.now streams.old.output)
            streams.old answer streams.new) }
    {
        match self {
            Primitive::Putchar => put_character(arguments, streams),
            Primitive::Getchar => Ok(get_character(streams)),
            Primitive::Puts(character) => put_line(
                alloc, layout, blocks, character, arguments, streams,
            ),
            Primitive::Exit => Ok(end_program(arguments)),
        }
    }
}

/// A value of int that is a byte.
fn int(byte: u8) -> Value
    ensures { view_of_value result ≡ values.integer_value Int (pos byte) }
{
    Value::Integer(Integer::new(Kind::Int, i128::from(byte)))
}

/// The character is written, as an unsigned char (7.21.7.8p2).
fn put_character(arguments: &[Value], streams: &mut Streams) -> Result<Answer, Memory>
    ensures { IfOk result (λ answer. IsAnswer (primitives.put_character (map view_of_value arguments.now) streams.old.input.now streams.old.output) streams.old answer streams.new) }
{
    let [Value::Integer(character)] = arguments else {
        return Ok(Answer::Refuses(Cause::OtherType));
    };
    let byte = byte_in(character.value());
    streams.output.push(byte)?;
    Ok(Answer::Gives(int(byte)))
}

/// The next byte of the input, or EOF (7.21.7.6).
fn get_character(streams: &mut Streams) -> Answer
    ensures { IsAnswer (primitives.get_character streams.old.input.now streams.old.output) streams.old result streams.new }
{
    match streams.input.split_first() {
        Some((byte, rest)) => {
            streams.input = rest;
            Answer::Gives(int(*byte))
        }
        None => Answer::Gives(Value::Integer(Integer::new(Kind::Int, -1))),
    }
}

/// The string and a newline are written (7.21.7.9p2).
fn put_line(
    alloc: Global,
    layout: &Layout,
    blocks: &Blocks,
    character: TypeId,
    arguments: &[Value],
    streams: &mut Streams,
) -> Result<Answer, Memory>
    requires over { Has layout.now character (integer Char) }
    requires known { AreKnown layout.now blocks.now }
    ensures { IfOk result (λ answer. IsAnswer (primitives.put_line (laid_out layout.now) (view_of_blocks layout.now blocks.now) (map view_of_value arguments.now) streams.old.input.now streams.old.output)
        streams.old answer streams.new) }
{
    let [Value::Pointer(pointer)] = arguments else {
        return Ok(Answer::Refuses(Cause::OtherType));
    };
    let Pointer::To(at) = pointer else {
        return Ok(Answer::Refuses(Cause::Null));
    };
    let line = match text(alloc, layout, blocks, character, at)? {
        Ok(line) => line,
        Err(cause) => return Ok(Answer::Refuses(cause)),
    };
    write(streams, line.items())?;
    streams.output.push(b'\n')?;
    Ok(Answer::Gives(int(0)))
}

/// Some bytes are written.
fn write(streams: &mut Streams, bytes: &[u8]) -> Result<(), Memory>
    ensures { OnOk result (streams.new ≡ record streams.old { output = streams.old.output ++ bytes.now }) }
{
    for byte in bytes {
        streams.output.push(*byte)?;
    }
    Ok(())
}

/// The program ends with the status, modulo 256.
fn end_program(arguments: &[Value]) -> Answer
    ensures { (streams : AllStreams) → IsAnswer (primitives.end_program (map view_of_value arguments.now)) streams result streams }
{
    match arguments {
        [Value::Integer(status)] => Answer::Stops(byte_in(status.value())),
        _ => Answer::Refuses(Cause::OtherType),
    }
}
