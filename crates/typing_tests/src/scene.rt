//! What is declared where the tests' expressions stand.

ghost use Rattle.std.specs.Prelude.{length, IfOk, IfSome};
ghost use Rattle.dm_type.specs.Tables.{IsId};
ghost use Rattle.dm_typing.specs.Bounds.{AreBelow};
ghost use Rattle.dm_typing.specs.Fitting.{HaveTypes};

use dm_eexpr::syntax::typed_name;
use dm_enames::tags::declare;
use dm_pexpr::{Names, type_name};
use dm_scope::Scopes;
use dm_syn::TypeName;
use dm_token::{Boxed, CToken, List, Memory, Place, Stop, Text};
use dm_tree::{Declared, Linkage, Sort};
use dm_type::{TypeId, Types};
use dm_typing::{Known, Typer};
use std::alloc::Global;
use std::process::Abort;
use std::test::Fail;
use test_words::{tokens_of, type_names};

// In each line what is declared, its name, and the words of its type. The words of a tag declare it and its enumerators.
const DECLARATIONS: &str = "tag S => struct S { int m ; const int k ; int a [ 2 ] ; }
tag T => struct T { int m ; int a [ 2 ] ; struct T * next ; }
tag N => struct N { struct T in ; char c ; }
tag D => struct D { struct S in [ 2 ] ; }
tag U => struct U
tag En => enum En { E5 = 5 , E6 , Em = - 1 }
typedef Int => int
typedef Fixed => const int
typedef Three => int [ 3 ]
object i => int
object j => int
object ci => const int
object c => char
object sc => signed char
object uc => unsigned char
object sh => short
object us => unsigned short
object u => unsigned int
object l => long
object ul => unsigned long
object ll => long long
object ull => unsigned long long
object b => _Bool
object p => int *
object q => int *
object cp => const int *
object pc => int * const
object s => char *
object v => void *
object cv => const void *
object pp => int * *
object cpp => const int * *
object a => int [ 4 ]
object ca => const int [ 2 ]
object aa => int [ 2 ] [ 3 ]
object xa => int [ ]
object pa => int ( * ) [ 4 ]
object pi => int ( * ) [ ]
object st => struct S
object ps => struct S *
object t => struct T
object r => struct T
object pt => struct T *
object ct => const struct T
object cpt => const struct T *
object n => struct N
object d => struct D
object pu => struct U *
object pv => struct U *
object xu => struct U
object e => enum En
function f => int ( int , char * )
function g => void ( void )
function h => struct T ( void )
function k => const int ( const int k )
function w => int * ( const void * , struct T )
function z => int ( _Bool , struct T * )";

// The types that trees of the tests have, as the tests write them.
const KINDS: &str = "void
_Bool
char
signed char
unsigned char
short
unsigned short
int
unsigned int
long
unsigned long
long long
unsigned long long
const int
int *
int * *
int * const
const int *
char *
void *
const void *
int [ ]
int [ 2 ]
int [ 3 ]
int [ 4 ]
const int [ 2 ]
int [ 2 ] [ 3 ]
char [ 4 ]
int ( * ) [ ]
int ( * ) [ 3 ]
int ( * ) [ 4 ]
const int ( * ) [ 2 ]
char ( * ) [ 4 ]
int * [ 3 ]
struct S
struct S *
struct S [ 2 ]
struct T
struct T *
const struct T
const struct T *
struct T * const
struct N
struct D
struct U
struct U *
int ( int , char * )
void ( void )
struct T ( void )
const int ( const int )
int ( _Bool , struct T * )
int * ( const void * , struct T )
int [ 8 ] [ 3 ]";

/// What is known where the expressions stand, and the words of types.
#[derive(Drop)]
pub struct Scene {
    pub types: Types,
    pub scopes: Scopes,
    pub declared: List<Declared>,
    pub kinds: List<(TypeId, Text)>,
    ghost entries: { HaveTypes types declared },
    ghost numbers: { AreBelow (length declared) scopes },
}

/// The type name that tokens are.
fn name_of(
    alloc: Global,
    typedefs: &Names,
    tokens: &List<CToken>,
) -> Result<Option<Boxed<TypeName>>, Fail> {
    if tokens.len() > u32::MAX as usize {
        return Ok(None);
    }
    match type_name(alloc, tokens.items(), 0, typedefs)? {
        Some((name, _)) => Ok(Some(Boxed::new(alloc, name)?)),
        None => Ok(None),
    }
}

/// The type of a type name.
fn kind_of(
    alloc: Global,
    known: &mut Known,
    tokens: &[CToken],
    name: &TypeName,
) -> Result<TypeId, Stop>
    ensures { IfOk result (IsId known.new.types) }
{
    let lacking = Scopes::new(alloc)?;
    let typer = Typer {
        alloc,
        tokens,
        lacking: &lacking,
    };
    let named = typed_name(&typer, known, true, name)?;
    Ok(named.kind)
}

/// What a name is declared as. None of a tag, which its type declares.
fn sort_of(word: &str) -> Option<Sort> {
    if word == "object" {
        Some(Sort::Object { fixed: true })
    } else if word == "function" {
        Some(Sort::Function)
    } else if word == "typedef" {
        Some(Sort::Typedef)
    } else {
        None
    }
}

/// Declares a name, unless it is declared.
fn add(alloc: Global, known: &mut Known, sort: Sort, name: &str, kind: TypeId) -> Result<(), Memory>
    requires { IsId known.old.types kind }
{
    let key = Text::new(alloc, name)?;
    if known.scopes.is_declared(&key) {
        return Ok(());
    }
    let entry = Declared {
        name: key.copy()?,
        sort,
        kind,
        linkage: Linkage::External,
        place: Place {
            file: 0,
            byte: 0,
            line: 1,
            column: 0,
        },
    };
    declare(known, &key, entry)
}

/// The type that words name. None where they name none.
fn kind_of_words(
    alloc: Global,
    known: &mut Known,
    typedefs: &Names,
    words: &str,
) -> Result<Option<TypeId>, Fail>
    ensures { IfOk result (λ kind. IfSome kind (IsId known.new.types)) }
{
    let tokens = tokens_of(alloc, words)?;
    let Some(tree) = name_of(alloc, typedefs, &tokens)? else {
        return Ok(None);
    };
    Ok(kind_of(alloc, known, tokens.items(), tree.get()).ok())
}

/// Adds what a row declares. False where its type is refused.
fn add_row(alloc: Global, known: &mut Known, typedefs: &Names, row: &str) -> Result<bool, Fail> {
    let (declared, words) = row.split_once(" => ").ok_or("no type")?;
    let (sort, name) = declared.split_once(' ').ok_or("no name")?;
    let Some(kind) = kind_of_words(alloc, known, typedefs, words)? else {
        return Ok(false);
    };
    if let Some(sort) = sort_of(sort) {
        add(alloc, known, sort, name, kind)?;
    }
    Ok(true)
}

/// Where nothing is declared.
fn nothing(alloc: Global) -> Result<Known, Memory> {
    let types = Types::new(alloc)?;
    let scopes = Scopes::new(alloc)?;
    let known = Known {
        types,
        scopes,
        declared: List::new(alloc),
        begun: Vec::new(alloc),
        constants: List::new(alloc),
    };
    Ok(known)
}

/// Adds what all rows declare: the first row whose type is refused. Empty where there is none.
fn add_rows(alloc: Global, known: &mut Known, typedefs: &Names) -> Result<&'static str, Fail> {
    for row in DECLARATIONS.lines() {
        if !add_row(alloc, known, typedefs, row)? {
            return Ok(row);
        }
    }
    Ok("")
}

/// The types that are named, with their words.
fn kinds_of(
    alloc: Global,
    known: &mut Known,
    typedefs: &Names,
) -> Result<List<(TypeId, Text)>, Fail> {
    let mut kinds = List::new(alloc);
    for words in KINDS.lines() {
        if let Some(kind) = kind_of_words(alloc, known, typedefs, words)? {
            kinds.push((kind, Text::new(alloc, words)?))?;
        }
    }
    Ok(kinds)
}

/// What is known, with the words of types.
fn scene_of(known: Known, kinds: List<(TypeId, Text)>) -> Scene {
    let Known {
        types,
        scopes,
        declared,
        begun: _,
        constants: _,
    } = known;
    Scene {
        types,
        scopes,
        declared,
        kinds,
    }
}

/// The names of types that the tests use.
pub fn typedefs_of(alloc: Global) -> Result<Names, Fail> {
    Ok(type_names(alloc, &["Int", "Fixed", "Three"])?)
}

/// The scene of the tests.
pub fn full_scene(alloc: Global) -> Result<Scene, Fail> {
    let typedefs = typedefs_of(alloc)?;
    let mut known = nothing(alloc)?;
    let _refused = add_rows(alloc, &mut known, &typedefs)?;
    let kinds = kinds_of(alloc, &mut known, &typedefs)?;
    Ok(scene_of(known, kinds))
}

/// The same without the words of types.
pub fn plain_scene(alloc: Global) -> Result<Scene, Fail> {
    let typedefs = typedefs_of(alloc)?;
    let mut known = nothing(alloc)?;
    let _refused = add_rows(alloc, &mut known, &typedefs)?;
    Ok(scene_of(known, List::new(alloc)))
}

#[test]
fn all_is_declared(rt: HostRuntime) -> Result<(), Fail> {
    let typedefs = typedefs_of(rt.alloc())?;
    let mut known = nothing(rt.alloc())?;
    assert_eq!(rt; add_rows(rt.alloc(), &mut known, &typedefs)?, "");
    let kinds = kinds_of(rt.alloc(), &mut known, &typedefs)?;
    assert_eq!(rt; kinds.len(), KINDS.lines().count());
    Ok(())
}
