//! Which functions a unit doesn't define (6.9p3).

ghost use Rattle.std.specs.Prelude.{◌≡◌, ◌<◌, ℕ, true, List as Sequence, ◌||◌, ◌&&◌, not, bytes_eq, length, map, All, IfOk, OnOk};
ghost use Rattle.dm_syn.specs.Sources.{spelling_at};
ghost use Rattle.dm_syn.specs.Views as syntax;
ghost use Rattle.dm_typing.specs.Views.{source_of};
ghost use Rattle.dm_edecl.specs.Units as units;
ghost use Rattle.dm_eunit.specs.Lacking.{IsSet, has};

use dm_edeclaration::declarable::name_at;
use dm_scope::Scopes;
use dm_syn::{External, ExternalForm};
use dm_token::{Memory, Text};
use dm_typing::Typer;
use std::alloc::Global;

/// The names in the tokens of which the unit defines no function.
pub(crate) fn lacking(typer: &Typer<'_>, externals: &[External]) -> Result<Scopes, Memory>
    ensures { IfOk result (λ names. (at : ℕ) → has names (spelling_at (source_of typer.now) at)
        ≡ not (units.defines typer.now.tokens.now (map syntax.external externals.now) (spelling_at (source_of typer.now) at))) }
{
    let defined = defined(typer, externals)?;
    let names = others(typer, &defined)?;
    Ok(names)
}

/// The names in the tokens that aren't among these.
fn others(typer: &Typer<'_>, defined: &Scopes) -> Result<Scopes, Memory>
    ensures { IfOk result (λ names. (at : ℕ) → has names (spelling_at (source_of typer.now) at) ≡ not (has defined.now (spelling_at (source_of typer.now) at))) }
{
    let mut names = Scopes::new(typer.alloc)?;
    let empty = Text::new(typer.alloc, "")?;
    add_unless(defined, &mut names, &empty)?;
    let mut latest = filled(typer.alloc, defined, &names, &empty)?;
    for token in typer.tokens {
        take(defined, &mut names, &mut latest, &token.spelling)?;
    }
    Ok(names)
}

/// How many spellings are kept.
const KEPT: usize = 1024;

/// As many spellings as are kept, all of them this one.
fn filled<'a>(
    alloc: Global,
    others: &Scopes,
    names: &Scopes,
    spelling: &'a Text,
) -> Result<Vec<&'a Text>, Memory>
    requires { (has names.now spelling.now || has others.now spelling.now) ≡ true }
    ensures kept { IfOk result (λ all. length all.items ≡ 1024) }
    ensures known { IfOk result (λ all. All (λ one. (has names.now one.now || has others.now one.now) ≡ true) all.items) }
{
    let mut all = Vec::new(alloc);
    all.resize(KEPT, spelling)?;
    Ok(all)
}

/// The number of the place at which a spelling is kept. Names that differ in their ends, as numbered ones do, have mostly
/// different ones.
fn place_of(spelling: &Text) -> usize
    ensures { result < 1024 }
{
    match spelling.bytes() {
        [first, between @ .., before, last] => {
            let ends = usize::from(*first) + 7 * usize::from(*before) + 64 * usize::from(*last);
            (ends ^ between.len()) % KEPT
        }
        [first, ..] => usize::from(*first),
        [] => 0,
    }
}

/// A token's spelling more, unless it is among others. Most tokens are spelled as one of the latest ones, and these need no
/// look-up by hash.
fn take<'a>(
    others: &Scopes,
    names: &mut Scopes,
    latest: &mut Vec<&'a Text>,
    spelling: &'a Text,
) -> Result<(), Memory>
    requires set { IsSet names.old }
    requires kept { length latest.old.items ≡ 1024 }
    requires known { All (λ one. (has names.old one.now || has others.now one.now) ≡ true) latest.old.items }
    ensures set { OnOk result (IsSet names.new) }
    ensures has { OnOk result ((other : Sequence ℕ) → has names.new other ≡ (has names.old other || (bytes_eq spelling.now other && not (has others.now other)))) }
    ensures kept { length latest.new.items ≡ 1024 }
    ensures known { OnOk result (All (λ one. (has names.new one.now || has others.now one.now) ≡ true) latest.new.items) }
{
    let place = place_of(spelling);
    if *latest[place] == *spelling {
        return Ok(());
    }
    add_unless(others, names, spelling)?;
    latest[place] = spelling;
    Ok(())
}

/// The names of the functions that the unit defines.
fn defined(typer: &Typer<'_>, externals: &[External]) -> Result<Scopes, Memory>
    ensures set { IfOk result IsSet }
    ensures has { IfOk result (λ names. (name : Sequence ℕ) → has names name ≡ units.defines typer.now.tokens.now (map syntax.external externals.now) name) }
{
    let mut names = Scopes::new(typer.alloc)?;
    for external in externals {
        add_definition(typer, &mut names, external)?;
    }
    Ok(names)
}

/// The name of a function behind others, if this is its definition.
fn add_definition(typer: &Typer<'_>, names: &mut Scopes, external: &External) -> Result<(), Memory>
    requires { IsSet names.old }
    ensures set { OnOk result (IsSet names.new) }
    ensures has { OnOk result ((name : Sequence ℕ) → has names.new name ≡ (has names.old name || units.is_definition_of typer.now.tokens.now name (syntax.external external.now))) }
{
    match &external.form {
        ExternalForm::Declaration(_) => Ok(()),
        ExternalForm::Function(_, declarator, _) => {
            let name = typer.spelling(name_at(declarator))?;
            add(names, &name)?;
            Ok(())
        }
    }
}

/// One name more.
fn add(names: &mut Scopes, name: &Text) -> Result<(), Memory>
    requires { IsSet names.old }
    ensures set { OnOk result (IsSet names.new) }
    ensures has { OnOk result ((other : Sequence ℕ) → has names.new other ≡ (has names.old other || bytes_eq name.now other)) }
{
    let _new = names.declare(name, 0)?;
    Ok(())
}

/// One name more, unless it is among others. Most are there already, so they are asked first.
fn add_unless(others: &Scopes, names: &mut Scopes, name: &Text) -> Result<(), Memory>
    requires { IsSet names.old }
    ensures set { OnOk result (IsSet names.new) }
    ensures has { OnOk result ((other : Sequence ℕ) → has names.new other ≡ (has names.old other || (bytes_eq name.now other && not (has others.now other)))) }
{
    if names.resolve(name).is_some() {
        return Ok(());
    }
    if others.resolve(name).is_none() {
        add(names, name)?;
    }
    Ok(())
}
