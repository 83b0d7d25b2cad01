//! The state at the beginning of a run (5.1.2.2.1).

ghost use Rattle.std.specs.Prelude.{◌≡◌, [], map, IfOk, OnOk};
ghost use Rattle.dm_meaning.specs.Units as units;
ghost use Rattle.dm_memory.specs.Blocks.{AreKnown};
ghost use Rattle.dm_value.specs.Views.{view_of_value};
ghost use Rattle.dm_start.specs.Beginnings.{HasStatics, IsArgv, IsStart};

use crate::making::{make, zeroed};
use crate::scene::Scene;
use crate::storing::{first_values, store};
use dm_frame::{Stack, open};
use dm_int::Kind;
use dm_memory::Blocks;
use dm_primitive::Streams;
use dm_program::Program;
use dm_state::{Names, Running};
use dm_token::{List, Memory};
use dm_value::{At, Integer, Name, Part, Path, Pointer, Value};
use std::alloc::Global;
use std::rc::Rc;

/// The state at the beginning of a run on an input: the objects of static storage duration have their first values, and the body
/// of `main` is left to do. `main` has argc 0 and an argv of one null pointer.
pub fn start<'a>(
    alloc: Global,
    program: &Program<'a>,
    input: &'a [u8],
) -> Result<Running<'a>, Memory>
    ensures { IfOk result (IsStart program.now input.now) }
{
    let mut names = Names::new(alloc);
    let mut blocks = Blocks::new(alloc);
    make_statics(alloc, program, &mut names, &mut blocks)?;
    let argv = make_argv(alloc, program, &mut blocks)?;
    let main = program.main();
    let arguments = arguments(alloc, argv, main.parameters)?;
    let frame = open(alloc, program, &mut blocks, main, arguments.as_slice())?;
    Ok(Running {
        frame,
        full: None,
        callers: Stack::new(alloc),
        statics: names,
        blocks,
        streams: Streams {
            input,
            output: List::new(alloc),
        },
    })
}

/// Makes the objects of static storage duration, with their first values.
fn make_statics(
    alloc: Global,
    program: &Program,
    names: &mut Names,
    blocks: &mut Blocks,
) -> Result<(), Memory>
    requires names { names.old ≡ [] }
    requires blocks { blocks.old ≡ [] }
    ensures { OnOk result (HasStatics program.now names.new blocks.new) }
{
    make(alloc, program, names, blocks)?;
    let scene = Scene {
        program,
        names: &*names,
        blocks: &*blocks,
    };
    let values = first_values(alloc, &scene)?;
    store(alloc, blocks, values.as_slice())?;
    Ok(())
}

/// Makes the object of argv, which holds one null pointer.
fn make_argv(alloc: Global, program: &Program, blocks: &mut Blocks) -> Result<u64, Memory>
    requires { AreKnown program.now.table blocks.old }
    ensures { IfOk result (λ number. IsArgv program.now blocks.old number blocks.new) }
{
    let block = zeroed(alloc, program.layout(), program.argv_kind())?;
    let number = blocks.add(block)?;
    Ok(number)
}

/// The arguments of `main`: argc and argv, or none where it has no parameters.
fn arguments(alloc: Global, argv: u64, parameters: &[u32]) -> Result<Vec<Value>, Memory>
    ensures { IfOk result (λ arguments. map view_of_value arguments.items ≡ units.arguments_for argv parameters.now) }
{
    let mut arguments = Vec::new(alloc);
    if parameters.is_empty() {
        return Ok(arguments);
    }
    let at = At::whole(Name::Numbered(argv)).part(alloc, 0)?;
    arguments.push(Value::Integer(Integer::new(Kind::Int, 0)))?;
    arguments.push(Value::Pointer(Pointer::To(Rc::new(alloc, at)?)))?;
    Ok(arguments)
}
