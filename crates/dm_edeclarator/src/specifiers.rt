//! Lists of specifiers (6.7.1 to 6.7.4).

ghost use Rattle.std.specs.Prelude.{◌≡◌, ◌==◌, ◌||◌, not, List, [], ◌∷◌, IfOk, IfSome, Some, None, if◌then◌else◌, option_map, slice_get, ◌≤◌};
ghost use Rattle.dm_spell.specs.Keywords.{int_word, long_word, short_word, signed_word, unsigned_word, void_word, bool_word};
ghost use Rattle.dm_type.specs.declared.shape.Shape.{Shape as OneShape};
ghost use Rattle.dm_type.specs.CTypes.{CType};
ghost use Rattle.dm_type.specs.Tables.{Table, IsId, IsShape, written_out};
ghost use Rattle.dm_edeclarator.specs.declared.specifiers.WordType.TheVariants as word;
ghost use Rattle.dm_typing.specs.Specifiers as specifiers;
ghost use Rattle.dm_typing.specs.Typing as typing;
ghost use Rattle.dm_edeclarator.specs.Steps as stages;
ghost use Rattle.dm_edeclarator.specs.Steps.{where_of, said_over, SaidFits, word_type, row_of};
ghost use Rattle.dm_typing.specs.Views.{Begins, type_over, known_over, source_of, Gives, Grows};

use dm_int::Kind;
use dm_spell::keyword::{
    BOOL, CHAR, CONST, EXTERN, INLINE, INT, LONG, SHORT, SIGNED, STATIC, TYPEDEF, UNSIGNED, VOID,
};
use dm_token::{List, Memory, Stop};
use dm_type::{Shape, TypeId};
use dm_typing::looks::is_function;
use dm_typing::{Known, Typer};
use std::alloc::Global;

/// Where specifiers stand.
#[derive(Clone, Copy, Debug, PartialEq, Eq)]
pub enum Where {
    OfDeclaration,
    OfDefinition,
    /// In a member, a parameter or a type name.
    Elsewhere,
}

/// What the specifiers so far say.
#[derive(Drop)]
pub struct Said {
    /// The type words, by their rows in the table of keywords.
    pub words: List<u16>,
    /// The types of typedef names, structs and enums.
    pub types: List<TypeId>,
    /// `typedef`, `extern` and `static`.
    pub storage: List<u16>,
    pub is_inline: bool,
    pub is_const: bool,
}

impl Said {
    pub fn nothing(alloc: Global) -> Said
        ensures said { (later : List OneShape) → said_over later result ≡ specifiers.nothing_said }
        ensures numbered { (types : Table) → SaidFits types result }
    {
        Said {
            words: List::new(alloc),
            types: List::new(alloc),
            storage: List::new(alloc),
            is_inline: false,
            is_const: false,
        }
    }

    /// One keyword more.
    pub fn with_word(self, row: u16) -> Result<Said, Memory>
        ensures said { IfOk result (λ made. (later : List OneShape) → said_over later made ≡ specifiers.with_word row (said_over later self)) }
        ensures types { IfOk result (λ made. made.types ≡ self.types) }
    {
        let mut said = self;
        if row == CONST {
            said.is_const = true;
        } else if row == INLINE {
            said.is_inline = true;
        } else if row == EXTERN || row == STATIC || row == TYPEDEF {
            said.storage.push(row)?;
        } else {
            said.words.push(row)?;
        }
        Ok(said)
    }

    /// One type more.
    pub fn with_type(self, kind: TypeId) -> Result<Said, Memory>
        ensures said { IfOk result (λ made. (later : List OneShape) → said_over later made ≡ specifiers.with_type (type_over later kind) (said_over later self)) }
        ensures numbered { IfOk result (λ made. (types : Table) → IsId types kind → SaidFits types self → SaidFits types made) }
    {
        let mut said = self;
        said.types.push(kind)?;
        Ok(said)
    }

    /// The storage words and `inline` may stand there (C3).
    pub fn are_allowed(&self, stands: Where) -> bool
        ensures { (later : List OneShape) → result ≡ specifiers.are_allowed (where_of stands) (said_over later self.now) }
    {
        let storage = self.storage.items();
        match stands {
            Where::OfDeclaration => is_one_at_most(storage) && fits_inline(storage, self.is_inline),
            Where::OfDefinition => {
                is_one_at_most(storage)
                    && fits_inline(storage, self.is_inline)
                    && !is_typedef_alone(storage)
            }
            Where::Elsewhere => is_nothing(storage) && !self.is_inline,
        }
    }
}

/// `inline` stands only beside `static`.
fn fits_inline(storage: &[u16], is_inline: bool) -> bool
    ensures { result ≡ (not is_inline || specifiers.is_static_alone storage.now) }
{
    !is_inline || is_static_alone(storage)
}

fn is_one_at_most(rows: &[u16]) -> bool
    ensures { result ≡ specifiers.is_one_at_most rows.now }
{
    matches!(rows, [] | [_])
}

fn is_nothing(rows: &[u16]) -> bool
    ensures { result ≡ specifiers.is_empty rows.now }
{
    matches!(rows, [])
}

fn is_static_alone(rows: &[u16]) -> bool
    ensures { result ≡ specifiers.is_static_alone rows.now }
{
    match rows {
        [only] => *only == STATIC,
        _ => false,
    }
}

fn is_typedef_alone(rows: &[u16]) -> bool
    ensures { result ≡ specifiers.is_typedef_alone rows.now }
{
    match rows {
        [only] => *only == TYPEDEF,
        _ => false,
    }
}

/// The type of type words.
#[derive(Clone, Copy, Debug, PartialEq, Eq)]
pub(crate) enum WordType {
    Void,
    Integer(Kind),
}

/// Type words that may stand together, and their type (6.7.2p2).
#[derive(Clone, Copy)]
pub(crate) struct Set {
    words: &'static [u16],
    named: WordType,
}

fn integer_set(words: &'static [u16], kind: Kind) -> Set
    ensures words { result.words.now ≡ words.now }
    ensures named { result.named ≡ word.Integer kind }
{
    Set {
        words,
        named: WordType::Integer(kind),
    }
}

/// The sets by number.
fn set_at(n: usize) -> Option<Set>
    ensures { option_map row_of result ≡ slice_get specifiers.sets n }
{
    match n {
        0 => Some(Set {
            words: &[VOID],
            named: WordType::Void,
        }),
        1 => Some(integer_set(&[CHAR], Kind::Char)),
        2 => Some(integer_set(&[SIGNED, CHAR], Kind::SChar)),
        3 => Some(integer_set(&[UNSIGNED, CHAR], Kind::UChar)),
        4 => Some(integer_set(&[SHORT], Kind::Short)),
        5 => Some(integer_set(&[SIGNED, SHORT], Kind::Short)),
        6 => Some(integer_set(&[SHORT, INT], Kind::Short)),
        7 => Some(integer_set(&[SIGNED, SHORT, INT], Kind::Short)),
        8 => Some(integer_set(&[UNSIGNED, SHORT], Kind::UShort)),
        9 => Some(integer_set(&[UNSIGNED, SHORT, INT], Kind::UShort)),
        10 => Some(integer_set(&[INT], Kind::Int)),
        11 => Some(integer_set(&[SIGNED], Kind::Int)),
        12 => Some(integer_set(&[SIGNED, INT], Kind::Int)),
        13 => Some(integer_set(&[UNSIGNED], Kind::UInt)),
        14 => Some(integer_set(&[UNSIGNED, INT], Kind::UInt)),
        _ => longer_set_at(n),
    }
}

/// The same of `long` and `_Bool`.
fn longer_set_at(n: usize) -> Option<Set>
    requires { 15 ≤ n }
    ensures { option_map row_of result ≡ slice_get specifiers.sets n }
{
    match n {
        15 => Some(integer_set(&[LONG], Kind::Long)),
        16 => Some(integer_set(&[SIGNED, LONG], Kind::Long)),
        17 => Some(integer_set(&[LONG, INT], Kind::Long)),
        18 => Some(integer_set(&[SIGNED, LONG, INT], Kind::Long)),
        19 => Some(integer_set(&[UNSIGNED, LONG], Kind::ULong)),
        20 => Some(integer_set(&[UNSIGNED, LONG, INT], Kind::ULong)),
        21 => Some(integer_set(&[LONG, LONG], Kind::LLong)),
        22 => Some(integer_set(&[SIGNED, LONG, LONG], Kind::LLong)),
        23 => Some(integer_set(&[LONG, LONG, INT], Kind::LLong)),
        24 => Some(integer_set(&[SIGNED, LONG, LONG, INT], Kind::LLong)),
        25 => Some(integer_set(&[UNSIGNED, LONG, LONG], Kind::ULLong)),
        26 => Some(integer_set(&[UNSIGNED, LONG, LONG, INT], Kind::ULLong)),
        27 => Some(integer_set(&[BOOL], Kind::Bool)),
        _ => None,
    }
}

/// How often a row stands among words.
fn count_of(row: u16, words: &[u16]) -> usize
    ensures { result ≡ specifiers.count_of row words.now }
{
    let mut count = 0;
    for word in words {
        if row == *word {
            count += 1;
        }
    }
    count
}

/// A row stands as often among words as among others.
fn is_as_often(row: u16, words: &[u16], others: &[u16]) -> bool
    ensures { result ≡ (specifiers.count_of row words.now == specifiers.count_of row others.now) }
{
    count_of(row, words) == count_of(row, others)
}

/// The same words, in any order.
fn are_words(words: &[u16], others: &[u16]) -> bool
    ensures { result ≡ specifiers.are_words words.now others.now }
{
    is_as_often(CHAR, words, others) && are_other_words(words, others)
}

/// The same apart from `char`.
fn are_other_words(words: &[u16], others: &[u16]) -> bool
    ensures { result ≡ specifiers.count_alike (int_word ∷ long_word ∷ short_word ∷ signed_word ∷ unsigned_word ∷ void_word ∷ bool_word ∷ []) words.now others.now }
{
    is_as_often(INT, words, others)
        && (is_as_often(LONG, words, others)
            && (is_as_often(SHORT, words, others) && are_signs(words, others)))
}

/// The same of `signed`, `unsigned`, `void` and `_Bool`.
fn are_signs(words: &[u16], others: &[u16]) -> bool
    ensures { result ≡ specifiers.count_alike (signed_word ∷ unsigned_word ∷ void_word ∷ bool_word ∷ []) words.now others.now }
{
    is_as_often(SIGNED, words, others)
        && (is_as_often(UNSIGNED, words, others)
            && (is_as_often(VOID, words, others) && is_as_often(BOOL, words, others)))
}

/// The type of type words, if they may stand together.
fn type_of_words(words: &[u16]) -> Option<WordType>
    ensures { option_map word_type result ≡ specifiers.type_among words.now specifiers.sets }
{
    for n in 0..28 {
        let set = set_at(n)?;
        if are_words(words, set.words) {
            return Some(set.named);
        }
    }
    None
}

fn shape_named(named: WordType) -> Shape
    ensures shape { (types : List CType) → written_out types result ≡ word_type named }
    ensures over { (types : Table) → IsShape types result }
{
    match named {
        WordType::Void => Shape::Void,
        WordType::Integer(kind) => Shape::Integer(kind),
    }
}

/// A type among specifiers, if no type word stands beside it.
fn lone(words: &[u16], only: TypeId) -> Option<TypeId>
    ensures { result ≡ (if specifiers.is_empty words.now then Some only else None) }
{
    if is_nothing(words) { Some(only) } else { None }
}

/// The type of type words, if they may stand together.
fn type_by_words(
    typer: &Typer<'_>,
    known: &mut Known,
    words: &[u16],
) -> Result<Option<TypeId>, Memory>
    ensures named { IfOk result (λ found. (later : List OneShape) → Begins known.new.types.shapes later → option_map (type_over later) found ≡ specifiers.type_among words.now specifiers.sets) }
    ensures numbered { IfOk result (λ found. IfSome found (IsId known.new.types)) }
    ensures grows { Grows known.old known.new }
{
    match type_of_words(words) {
        Some(named) => {
            let kind = known.intern(shape_named(named))?;
            Ok(Some(kind))
        }
        None => Ok(None),
    }
}

/// The type that specifiers name: the one type among them, or that of their words.
fn type_said(typer: &Typer<'_>, known: &mut Known, said: &Said) -> Result<Option<TypeId>, Memory>
    requires { SaidFits known.old.types said.now }
    ensures named { IfOk result (λ found. (later : List OneShape) → Begins known.new.types.shapes later → option_map (type_over later) found ≡ specifiers.type_said (said_over later said.now)) }
    ensures numbered { IfOk result (λ found. IfSome found (IsId known.new.types)) }
    ensures grows { Grows known.old known.new }
{
    let words = said.words.items();
    match said.types.items() {
        [] => {
            let found = type_by_words(typer, known, words)?;
            Ok(found)
        }
        [only] => Ok(lone(words, *only)),
        [_, _, ..] => Ok(None),
    }
}

/// A type with the const that is said. A function type has none (6.7.3p9).
pub fn with_const_said(
    typer: &Typer<'_>,
    known: &mut Known,
    is_const: bool,
    kind: TypeId,
) -> Result<TypeId, Memory>
    requires { IsId known.old.types kind }
    ensures made { IfOk result (λ made. (later : List OneShape) → Begins known.new.types.shapes later → type_over later made ≡ specifiers.with_said_const is_const (type_over later kind)) }
    ensures numbered { IfOk result (IsId known.new.types) }
    ensures grows { Grows known.old known.new }
{
    if !is_const {
        return Ok(kind);
    }
    if is_function(&known.types, kind) {
        return Ok(kind);
    }
    let made = known.intern(Shape::Const(kind))?;
    Ok(made)
}

/// The type that specifiers name, where their storage words may stand.
fn type_allowed(
    typer: &Typer<'_>,
    known: &mut Known,
    stands: Where,
    here: u32,
    said: &Said,
    kind: TypeId,
) -> Result<TypeId, Stop>
    requires { IsId known.old.types kind }
    ensures gives { (later : List OneShape) → Begins known.new.types.shapes later → Gives (type_over later) (source_of typer.now) (known_over later known.new) result
        (stages.type_allowed (known_over later known.old) (where_of stands) here (said_over later said.now) (type_over later kind)) }
    ensures numbered { IfOk result (IsId known.new.types) }
    ensures grows { Grows known.old known.new }
{
    if !said.are_allowed(stands) {
        return Err(typer.broken(3, here));
    }
    let made = with_const_said(typer, known, said.is_const, kind)?;
    Ok(made)
}

/// Specifiers name a type, and their storage words may stand there (C3).
pub fn typed_said(
    typer: &Typer<'_>,
    known: &mut Known,
    stands: Where,
    here: u32,
    said: &Said,
) -> Result<TypeId, Stop>
    requires { SaidFits known.old.types said.now }
    ensures gives { (later : List OneShape) → Begins known.new.types.shapes later → Gives (type_over later) (source_of typer.now) (known_over later known.new) result
        (typing.typed_said (known_over later known.old) (where_of stands) here (said_over later said.now)) }
    ensures numbered { IfOk result (IsId known.new.types) }
    ensures grows { Grows known.old known.new }
{
    let found = type_said(typer, known, said)?;
    match found {
        Some(kind) => type_allowed(typer, known, stands, here, said, kind),
        None => Err(typer.broken(3, here)),
    }
}
