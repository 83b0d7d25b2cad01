//! The names of a scope, which may open again.

ghost use Rattle.std.specs.Prelude.{◌≡◌, IfOk, OnOk, drop};
ghost use Rattle.std.specs.FinMap as finite;
ghost use Rattle.dm_type.specs.Tables.{Table};
ghost use Rattle.dm_tree.specs.Views.{view_of_declared, entries_of};
ghost use Rattle.dm_edecl.specs.Units.{innermost};
ghost use Rattle.dm_eunit.specs.Naming.{key_of, is_number, names_in, with_name_of};

use dm_token::{Memory, Text};
use dm_tree::{Declared, Sort};
use dm_typing::{Known, Typer};

/// A name, with the number of its entry.
#[derive(Drop)]
pub(crate) struct Numbered {
    pub name: Text,
    pub number: u32,
}

/// The name under which an entry stands in the scopes: tags have a name space of their own (6.2.3).
fn key_of(typer: &Typer<'_>, entry: &Declared) -> Result<Text, Memory>
    ensures { IfOk result (λ key. (types : Table) → key ≡ key_of (view_of_declared types entry.now)) }
{
    match entry.sort {
        Sort::Tag => {
            let mut bytes = Vec::from_slice(typer.alloc, b"#")?;
            bytes.extend_from_slice(entry.name.bytes())?;
            let key = Text::from_vec(typer.alloc, bytes)?;
            Ok(key)
        }
        _ => {
            let key = entry.name.copy()?;
            Ok(key)
        }
    }
}

/// Whether the innermost scope has a name with this number.
fn is_here(known: &Known, name: &Text, number: u32) -> bool
    ensures { result ≡ is_number (finite.get (innermost known.now.scopes) name.now) number }
{
    if !known.scopes.is_declared(name) {
        return false;
    }
    match known.scopes.resolve(name) {
        Some(other) => other == number,
        None => false,
    }
}

/// The name of an entry behind others, if the innermost scope has it with this number.
fn name_here(
    typer: &Typer<'_>,
    known: &Known,
    names: &mut Vec<Numbered>,
    number: u32,
    entry: &Declared,
) -> Result<(), Memory>
    ensures { OnOk result ((types : Table) → names.new.items ≡ with_name_of (innermost known.now.scopes) names.old.items number (view_of_declared types entry.now)) }
{
    let name = key_of(typer, entry)?;
    if is_here(known, &name, number) {
        names.push(Numbered { name, number })?;
    }
    Ok(())
}

/// The names that the innermost scope has for the entries from a number on. More than 4,294,967,295 entries count as want of
/// memory.
pub(crate) fn names_since(
    typer: &Typer<'_>,
    known: &Known,
    from: u32,
) -> Result<Vec<Numbered>, Memory>
    ensures { IfOk result (λ names. (types : Table) → names.items ≡ names_in (innermost known.now.scopes) from (drop from (entries_of types known.now.declared))) }
{
    let entries = known.declared.items();
    let Ok(count) = u32::try_from(entries.len()) else {
        return Err(Memory);
    };
    let mut names = Vec::new(typer.alloc);
    for number in from..count {
        name_here(typer, known, &mut names, number, &entries[number as usize])?;
    }
    Ok(names)
}
