//! Which function of the machine a declaration names.

ghost use Rattle.std.specs.Prelude.{◌≡◌, true, false, [], ◌∷◌, Some, None, IsTrue, MatchOption, IfSome, All, List, ℕ, map, option_map, if◌then◌else◌};
ghost use Rattle.dm_int.specs.declared.Kind.TheVariants.{Char, Int};
ghost use Rattle.dm_type.specs.Alike.{are_compatible, match_as_parameters};
ghost use Rattle.dm_type.specs.CTypes as ctypes;
ghost use Rattle.dm_type.specs.CTypes.{CType};
ghost use Rattle.dm_type.specs.Tables.{Has, IsId, type_of};
ghost use Rattle.dm_meaning.specs.Memory.{Memory as AllMemory};
ghost use Rattle.dm_meaning.specs.Objects.{Layout as AnyLayout};
ghost use Rattle.dm_meaning.specs.Primitives as primitives;
ghost use Rattle.dm_meaning.specs.Values.{Value as AnyValue};
ghost use Rattle.dm_primitive.specs.Meanings.{meaning_of, IsOver};

use dm_int::Kind;
use dm_layout::bare;
use dm_type::{Shape, TypeId, Types};

/// A function that the machine has.
#[derive(Clone, Copy)]
pub enum Primitive {
    Putchar,
    Getchar,
    /// With the number of the type char.
    Puts(TypeId),
    Exit,
}

impl Primitive {
    /// The function of this name and type, if it is one of them.
    pub fn of(types: &Types, name: &[u8], kind: TypeId) -> Option<Primitive>
        requires { IsId types.now kind }
        ensures same { (layout : AnyLayout) (memory : AllMemory) (arguments : List AnyValue) (input output : List ℕ) →
            primitives.Prim name.now (type_of types.now kind) layout memory arguments input output ≡ option_map (λ one. meaning_of one layout memory arguments input output) result }
        ensures over { IfSome result (IsOver types.now) }
    {
        let Shape::Function(gives, parameters) = types.shape(kind) else {
            return None;
        };
        named(types, name, *gives, parameters.items())
    }
}

/// The function of this name, type of result and types of parameters.
fn named(types: &Types, name: &[u8], gives: TypeId, parameters: &[TypeId]) -> Option<Primitive>
    requires gives { IsId types.now gives }
    requires parameters { All (IsId types.now) parameters.now }
    ensures same { (layout : AnyLayout) (memory : AllMemory) (arguments : List AnyValue) (input output : List ℕ) →
        primitives.Prim name.now (ctypes.function (type_of types.now gives) (ctypes.all_of (map (type_of types.now) parameters.now))) layout memory arguments input output
        ≡ option_map (λ one. meaning_of one layout memory arguments input output) result }
    ensures over { IfSome result (IsOver types.now) }
{
    if name == b"putchar".as_slice() {
        return when(
            Primitive::Putchar,
            is_int(types, gives) && takes_int(types, parameters),
        );
    }
    if name == b"getchar".as_slice() {
        return when(
            Primitive::Getchar,
            is_int(types, gives) && takes_nothing(types, parameters),
        );
    }
    if name == b"exit".as_slice() {
        return when(
            Primitive::Exit,
            is_void(types, gives) && takes_int(types, parameters),
        );
    }
    if name == b"puts".as_slice() && is_int(types, gives) {
        let character = takes_text(types, parameters)?;
        return Some(Primitive::Puts(character));
    }
    None
}

/// A function where something holds.
fn when(primitive: Primitive, holds: bool) -> Option<Primitive>
    ensures { result ≡ (if holds then Some primitive else None) }
{
    if holds { Some(primitive) } else { None }
}

fn is_int(types: &Types, id: TypeId) -> bool
    requires { IsId types.now id }
    ensures { result ≡ are_compatible (type_of types.now id) (ctypes.integer Int) }
{
    match types.shape(id) {
        Shape::Integer(Kind::Int) => true,
        _ => false,
    }
}

fn is_void(types: &Types, id: TypeId) -> bool
    requires { IsId types.now id }
    ensures { result ≡ are_compatible (type_of types.now id) ctypes.void }
{
    match types.shape(id) {
        Shape::Void => true,
        _ => false,
    }
}

/// The only parameter, if there is one parameter.
fn only(parameters: &[TypeId]) -> Option<TypeId>
    ensures { MatchOption result ((types : ℕ → CType) (type : CType) → match_as_parameters (ctypes.all_of (map types parameters.now)) (ctypes.more_types type ctypes.no_types) ≡ false)
        (λ parameter. parameters.now ≡ parameter ∷ []) }
{
    let (parameter, others) = parameters.split_first()?;
    match others.split_first() {
        None => Some(*parameter),
        Some(_) => None,
    }
}

/// Whether there is no parameter.
fn takes_nothing(types: &Types, parameters: &[TypeId]) -> bool
    ensures { result ≡ match_as_parameters (ctypes.all_of (map (type_of types.now) parameters.now)) ctypes.no_types }
{
    // Only the contract speaks of the types.
    let _ = types;
    match parameters.split_first() {
        None => true,
        Some(_) => false,
    }
}

/// Whether the only parameter is an int.
fn takes_int(types: &Types, parameters: &[TypeId]) -> bool
    requires { All (IsId types.now) parameters.now }
    ensures { result ≡ match_as_parameters (ctypes.all_of (map (type_of types.now) parameters.now)) (ctypes.more_types (ctypes.integer Int) ctypes.no_types) }
{
    let Some(parameter) = only(parameters) else {
        return false;
    };
    is_int(types, bare(types, parameter))
}

/// The number of the type char where the only parameter is a pointer to const char.
fn takes_text(types: &Types, parameters: &[TypeId]) -> Option<TypeId>
    requires { All (IsId types.now) parameters.now }
    ensures { let matches = match_as_parameters (ctypes.all_of (map (type_of types.now) parameters.now)) (ctypes.more_types (ctypes.pointer (ctypes.const (ctypes.integer Char))) ctypes.no_types) in
        MatchOption result (matches ≡ false) (λ character. (matches ≡ true) × Has types.now character (ctypes.integer Char)) }
{
    let parameter = only(parameters)?;
    let target = pointed(types, bare(types, parameter))?;
    let character = unqualified(types, target)?;
    if is_char(types, character) {
        Some(character)
    } else {
        None
    }
}

/// What a pointer type points to.
fn pointed(types: &Types, id: TypeId) -> Option<TypeId>
    requires { IsId types.now id }
    ensures { MatchOption result ((type : CType) → are_compatible (type_of types.now id) (ctypes.pointer type) ≡ false)
        (λ target. (type_of types.now id ≡ ctypes.pointer (type_of types.now target)) × IsId types.now target) }
{
    match types.shape(id) {
        Shape::Pointer(target) => Some(*target),
        _ => None,
    }
}

/// The type of which a type is the const version.
fn unqualified(types: &Types, id: TypeId) -> Option<TypeId>
    requires { IsId types.now id }
    ensures { MatchOption result ((type : CType) → are_compatible (type_of types.now id) (ctypes.const type) ≡ false)
        (λ inner. (type_of types.now id ≡ ctypes.const (type_of types.now inner)) × IsId types.now inner) }
{
    match types.shape(id) {
        Shape::Const(inner) => Some(*inner),
        _ => None,
    }
}

fn is_char(types: &Types, id: TypeId) -> bool
    requires { IsId types.now id }
    ensures compatible { result ≡ are_compatible (type_of types.now id) (ctypes.integer Char) }
    ensures same { IsTrue result → type_of types.now id ≡ ctypes.integer Char }
{
    match types.shape(id) {
        Shape::Integer(Kind::Char) => true,
        _ => false,
    }
}
