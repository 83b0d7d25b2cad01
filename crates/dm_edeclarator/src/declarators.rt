//! Declarators (6.7.6): the steps that make a type of another.

ghost use Rattle.std.specs.Prelude.{◌≡◌, ◌<◌, ◌+◌, false, ◌&&◌, is_some, List, ◌∷◌, ◌++◌, map, None, Some, IfOk, IfSome, option_and_then};
ghost use Rattle.dm_type.specs.declared.shape.Shape.{Shape as OneShape};
ghost use Rattle.dm_type.specs.Tables.{Table, IsId, IsLength, type_of};
ghost use Rattle.dm_scope.specs.Scopes.{is_declared};
ghost use Rattle.dm_syn.specs.Sources.{spelling_at};
ghost use Rattle.dm_syn.specs.Views as syntax;
ghost use Rattle.dm_typing.specs.Conversions as conversions;
ghost use Rattle.dm_typing.specs.Fitting.{IsNumbered};
ghost use Rattle.dm_typing.specs.Typing as typing;
ghost use Rattle.dm_edeclarator.specs.Steps as stages;
ghost use Rattle.dm_edeclarator.specs.Steps.{parameter_over, ParameterFits, ParametersFit, step_at, step_over, steps_over, FitsIn, StepFits, StepsFit, Follows};
ghost use Rattle.dm_typing.specs.Views.{Begins, type_over, view_over, known_over, seen, source_of, setting_of, Gives, Grows};

use crate::places::add_constant;
use crate::specifiers::with_const_said;
use dm_enames::tags::declare;
use dm_syn::{Parameter, is_nothing};
use dm_token::{List, MOST_TYPE_BYTES, Memory, Stop};
use dm_tree::{Core, Declared, Linkage, Sort, constant};
use dm_type::{Shape, TypeId};
use dm_typing::looks::{bare, elements, is_array, is_complete, is_function, is_void};
use dm_typing::{Known, Typer};

/// A parameter: its type, and the number of its declaration if it is named.
#[derive(Clone, Copy, Drop)]
pub struct TypedParameter {
    pub kind: TypeId,
    pub declared: Option<u32>,
}

/// A step by which a declarator makes a type of another.
#[derive(Drop)]
pub enum Step {
    /// A pointer, and whether it is const (6.7.6.1).
    Pointing(bool),
    /// An array, and its length if it has one (6.7.6.2).
    Arraying(Option<u128>),
    /// A function (6.7.6.3).
    Calling(List<TypedParameter>),
}

/// A step with the token at which it begins.
#[derive(Drop)]
pub struct PlacedStep {
    pub at: u32,
    pub step: Step,
}

/// The token behind a pointer and the `const` behind it. One that no `u32` holds counts as want of memory.
fn behind_pointer(at: u32, consts: u32) -> Result<u32, Memory>
    ensures { IfOk result (λ behind. behind ≡ at + 1 + consts) }
{
    let Some(next) = at.checked_add(1) else {
        return Err(Memory);
    };
    let Some(behind) = next.checked_add(consts) else {
        return Err(Memory);
    };
    Ok(behind)
}

/// The token behind the pointers of a declarator.
pub fn direct_at(first: u32, pointers: &[u32]) -> Result<u32, Memory>
    ensures { IfOk result (λ at. at ≡ typing.direct_at first pointers.now) }
{
    let mut at = first;
    for consts in pointers {
        let behind = behind_pointer(at, *consts)?;
        at = behind;
    }
    Ok(at)
}

/// Where a fault of a parameter's type is: its declarator's first token, or where there is none, its own.
pub fn parameter_at(parameter: &Parameter) -> u32
    ensures { result ≡ stages.parameter_at (syntax.parameter parameter.now) }
{
    let declarator = &parameter.declarator;
    match declarator.pointers.items() {
        [] if is_nothing(&declarator.direct) => parameter.span.first,
        _ => declarator.span.first,
    }
}

/// All steps in turn, the last of them first.
pub fn derived(
    typer: &Typer<'_>,
    known: &mut Known,
    base: TypeId,
    steps: List<PlacedStep>,
) -> Result<TypeId, Stop>
    requires base { IsId known.old.types base }
    requires steps { StepsFit known.old.types steps }
    ensures gives { (later : List OneShape) → Begins known.new.types.shapes later → Gives (type_over later) (source_of typer.now) (known_over later known.new) result
        (typing.derived (known_over later known.old) (type_over later base) (steps_over later steps)) }
    ensures numbered { IfOk result (IsId known.new.types) }
    ensures grows { Grows known.old known.new }
{
    let mut steps = steps.into_vec();
    let mut kind = base;
    while let Some(step) = steps.pop() {
        let made = stepped(typer, known, kind, step)?;
        kind = made;
    }
    Ok(kind)
}

/// The type that a step makes (C5).
fn stepped(
    typer: &Typer<'_>,
    known: &mut Known,
    kind: TypeId,
    placed: PlacedStep,
) -> Result<TypeId, Stop>
    requires kind { IsId known.old.types kind }
    requires step { StepFits known.old.types placed }
    ensures gives { (later : List OneShape) → Begins known.new.types.shapes later → Gives (type_over later) (source_of typer.now) (known_over later known.new) result
        (typing.stepped (known_over later known.old) (type_over later kind) (step_over later placed)) }
    ensures numbered { IfOk result (IsId known.new.types) }
    ensures grows { Grows known.old known.new }
{
    let PlacedStep { at, step } = placed;
    match step {
        Step::Pointing(is_const) => pointer_step(typer, known, at, kind, is_const),
        Step::Arraying(length) => array_step(typer, known, at, kind, length),
        Step::Calling(parameters) => function_step(typer, known, at, kind, parameters),
    }
}

/// Nothing points to a function.
fn pointer_step(
    typer: &Typer<'_>,
    known: &mut Known,
    at: u32,
    kind: TypeId,
    is_const: bool,
) -> Result<TypeId, Stop>
    requires { IsId known.old.types kind }
    ensures gives { (later : List OneShape) → Begins known.new.types.shapes later → Gives (type_over later) (source_of typer.now) (known_over later known.new) result
        (typing.stepped (known_over later known.old) (type_over later kind) (typing.pointing at is_const)) }
    ensures numbered { IfOk result (IsId known.new.types) }
    ensures grows { Grows known.old known.new }
{
    if is_function(&known.types, kind) {
        return Err(typer.broken(5, at));
    }
    let plain = known.intern(Shape::Pointer(kind))?;
    let made = with_const_said(typer, known, is_const, plain)?;
    Ok(made)
}

/// No array is one of what is incomplete, or too large.
fn array_step(
    typer: &Typer<'_>,
    known: &mut Known,
    at: u32,
    kind: TypeId,
    length: Option<u128>,
) -> Result<TypeId, Stop>
    requires kind { IsId known.old.types kind }
    requires length { IsLength length }
    ensures gives { (later : List OneShape) → Begins known.new.types.shapes later → Gives (type_over later) (source_of typer.now) (known_over later known.new) result
        (typing.stepped (known_over later known.old) (type_over later kind) (typing.arraying at length)) }
    ensures numbered { IfOk result (IsId known.new.types) }
    ensures grows { Grows known.old known.new }
{
    match length {
        None => open_array(typer, known, at, kind),
        Some(length) => sized_array(typer, known, at, kind, length),
    }
}

/// An array without a length.
fn open_array(typer: &Typer<'_>, known: &mut Known, at: u32, kind: TypeId) -> Result<TypeId, Stop>
    requires { IsId known.old.types kind }
    ensures gives { (later : List OneShape) → Begins known.new.types.shapes later → Gives (type_over later) (source_of typer.now) (known_over later known.new) result
        (typing.stepped (known_over later known.old) (type_over later kind) (typing.arraying at None)) }
    ensures numbered { IfOk result (IsId known.new.types) }
    ensures grows { Grows known.old known.new }
{
    if !is_complete(known, kind) {
        return Err(typer.broken(5, at));
    }
    let made = known.intern(Shape::Array(kind, None))?;
    Ok(made)
}

/// An array of a length.
fn sized_array(
    typer: &Typer<'_>,
    known: &mut Known,
    at: u32,
    kind: TypeId,
    length: u128,
) -> Result<TypeId, Stop>
    requires kind { IsId known.old.types kind }
    requires length { 0 < length }
    ensures gives { (later : List OneShape) → Begins known.new.types.shapes later → Gives (type_over later) (source_of typer.now) (known_over later known.new) result
        (typing.stepped (known_over later known.old) (type_over later kind) (typing.arraying at (Some length))) }
    ensures numbered { IfOk result (IsId known.new.types) }
    ensures grows { Grows known.old known.new }
{
    match array_length(known, kind, length) {
        Some(length) => {
            let made = known.intern(Shape::Array(kind, Some(length)))?;
            Ok(made)
        }
        None => Err(typer.broken(5, at)),
    }
}

/// The result of a function is void, or a complete type that is no array.
fn function_step(
    typer: &Typer<'_>,
    known: &mut Known,
    at: u32,
    kind: TypeId,
    parameters: List<TypedParameter>,
) -> Result<TypeId, Stop>
    requires kind { IsId known.old.types kind }
    requires parameters { ParametersFit known.old.types parameters }
    ensures gives { (later : List OneShape) → Begins known.new.types.shapes later → Gives (type_over later) (source_of typer.now) (known_over later known.new) result
        (typing.stepped (known_over later known.old) (type_over later kind) (typing.calling at (map (parameter_over later) parameters))) }
    ensures numbered { IfOk result (IsId known.new.types) }
    ensures grows { Grows known.old known.new }
{
    if !is_result(known, kind) {
        return Err(typer.broken(5, at));
    }
    let kinds = kinds_of(typer, parameters.items())?;
    let made = known.intern(Shape::Function(kind, kinds))?;
    Ok(made)
}

fn kinds_of(typer: &Typer<'_>, parameters: &[TypedParameter]) -> Result<List<TypeId>, Memory>
    ensures { IfOk result (λ kinds. kinds ≡ map stages.kind_in parameters.now) }
{
    let mut kinds = List::new(typer.alloc);
    for parameter in parameters {
        kinds.push(parameter.kind)?;
    }
    Ok(kinds)
}

/// The pointers of a declarator behind the other steps, the last of them first.
pub fn with_pointers(
    typer: &Typer<'_>,
    steps: List<PlacedStep>,
    first: u32,
    pointers: &[u32],
) -> Result<List<PlacedStep>, Memory>
    ensures steps { IfOk result (λ made. (later : List OneShape) → steps_over later made ≡ typing.pointers first pointers.now ++ steps_over later steps) }
    ensures numbered { IfOk result (λ made. (types : Table) → StepsFit types steps → StepsFit types made) }
{
    let mut made = steps;
    let mut n = pointers.len();
    while n > 0 {
        n -= 1;
        let is_const = pointers[n] >= 1;
        let more = with_step(typer, made, first, Step::Pointing(is_const))?;
        made = more;
    }
    Ok(made)
}

/// One step in front of others, the last of them first.
pub fn with_step(
    typer: &Typer<'_>,
    steps: List<PlacedStep>,
    at: u32,
    step: Step,
) -> Result<List<PlacedStep>, Memory>
    ensures steps { IfOk result (λ made. (later : List OneShape) → steps_over later made ≡ step_at later at step ∷ steps_over later steps) }
    ensures numbered { IfOk result (λ made. (types : Table) → FitsIn types step → StepsFit types steps → StepsFit types made) }
{
    let mut made = steps;
    made.push(PlacedStep { at, step })?;
    Ok(made)
}

/// A function in front of other steps. `(void)` declares no parameters (6.7.6.3p10).
pub fn with_function(
    typer: &Typer<'_>,
    known: &Known,
    steps: List<PlacedStep>,
    at: u32,
    parameters: List<TypedParameter>,
) -> Result<List<PlacedStep>, Memory>
    requires { ParametersFit known.now.types parameters }
    ensures steps { IfOk result (λ made. (later : List OneShape) → Begins known.now.types.shapes later → steps_over later made ≡ typing.calling at (typing.without_void (map (parameter_over later) parameters)) ∷ steps_over later steps) }
    ensures numbered { IfOk result (λ made. StepsFit known.now.types steps → StepsFit known.now.types made) }
{
    let parameters = without_void(typer, known, parameters);
    let made = with_step(typer, steps, at, Step::Calling(parameters))?;
    Ok(made)
}

fn without_void(
    typer: &Typer<'_>,
    known: &Known,
    parameters: List<TypedParameter>,
) -> List<TypedParameter>
    requires { ParametersFit known.now.types parameters }
    ensures parameters { (later : List OneShape) → Begins known.now.types.shapes later → map (parameter_over later) result ≡ typing.without_void (map (parameter_over later) parameters) }
    ensures numbered { ParametersFit known.now.types result }
{
    if is_no_parameters(known, parameters.items()) {
        List::new(typer.alloc)
    } else {
        parameters
    }
}

/// A length is an integer constant expression of at least 1 (C5).
pub fn length_of(typer: &Typer<'_>, known: &mut Known, here: u32, tree: Core) -> Result<u128, Stop>
    requires { IsNumbered known.old.types tree }
    ensures gives { (later : List OneShape) → Begins known.new.types.shapes later → Gives (λ length. length) (source_of typer.now) (known_over later known.new) result
        (typing.length_of (known_over later known.old) here (view_over later tree)) }
    ensures positive { IfOk result (λ length. 0 < length) }
    ensures types { known.new.types ≡ known.old.types }
{
    match natural_value(known, &tree) {
        Some(length) => {
            add_constant(known, tree)?;
            Ok(length)
        }
        None => Err(typer.broken(5, here)),
    }
}

/// A parameter is declared once in its list (C2) and is no function (C5), and one that is an array is a pointer (6.7.6.3p7).
pub fn typed_parameter(
    typer: &Typer<'_>,
    known: &mut Known,
    here: u32,
    kind: TypeId,
    name: Option<u32>,
) -> Result<TypedParameter, Stop>
    requires { IsId known.old.types kind }
    ensures { Follows ParameterFits parameter_over (source_of typer.now) known.old known.new result
        (λ later. typing.typed_parameter (setting_of typer.now) (known_over later known.old) here (type_over later kind) name) }
{
    let is_new = is_new_parameter(typer, known, name)?;
    if !is_new {
        return Err(typer.broken(2, name.unwrap_or(here)));
    }
    if is_function(&known.types, kind) {
        return Err(typer.broken(5, here));
    }
    let kind = adjusted(typer, known, kind)?;
    match name {
        None => Ok(TypedParameter {
            kind,
            declared: None,
        }),
        Some(at) => {
            let made = parameter_declared(typer, known, kind, at)?;
            Ok(made)
        }
    }
}

/// Whether a parameter has no name, or one that isn't declared in its list so far.
fn is_new_parameter(typer: &Typer<'_>, known: &Known, name: Option<u32>) -> Result<bool, Memory>
    ensures { IfOk result (λ is_new. (later : List OneShape) → is_new ≡ typing.is_new_parameter (setting_of typer.now) (known_over later known.now) name) }
{
    match name {
        None => Ok(true),
        Some(at) => {
            let name = typer.spelling(at)?;
            Ok(!known.scopes.is_declared(&name))
        }
    }
}

/// The type of a parameter: that of an array is a pointer.
fn adjusted(typer: &Typer<'_>, known: &mut Known, kind: TypeId) -> Result<TypeId, Memory>
    requires { IsId known.old.types kind }
    ensures made { IfOk result (λ made. (later : List OneShape) → Begins known.new.types.shapes later → type_over later made ≡ typing.adjusted (type_over later kind)) }
    ensures numbered { IfOk result (IsId known.new.types) }
    ensures grows { Grows known.old known.new }
{
    match elements(&known.types, kind) {
        Some(inner) => {
            let made = known.intern(Shape::Pointer(inner))?;
            Ok(made)
        }
        None => Ok(kind),
    }
}

/// A parameter with a name, which is new.
fn parameter_declared(
    typer: &Typer<'_>,
    known: &mut Known,
    kind: TypeId,
    at: u32,
) -> Result<TypedParameter, Stop>
    requires kind { IsId known.old.types kind }
    requires new { is_declared known.old.scopes (spelling_at (source_of typer.now) at) ≡ false }
    ensures { Follows ParameterFits parameter_over (source_of typer.now) known.old known.new result
        (λ later. typing.parameter_declared (setting_of typer.now) (known_over later known.old) (type_over later kind) (Some at)) }
{
    let name = typer.spelling(at)?;
    let Ok(number) = u32::try_from(known.declared.len()) else {
        return Err(Stop::from(Memory));
    };
    let key = name.copy()?;
    let entry = Declared {
        name,
        sort: Sort::Object { fixed: false },
        kind,
        linkage: Linkage::Absent,
        place: typer.place(at),
    };
    declare(known, &key, entry)?;
    Ok(TypedParameter {
        kind,
        declared: Some(number),
    })
}

/// The result of a function is void, or a complete type that is no array.
fn is_result(known: &Known, kind: TypeId) -> bool
    requires { IsId known.now.types kind }
    ensures { result ≡ typing.is_result (seen known.now) (type_of known.now.types kind) }
{
    !is_function(&known.types, kind)
        && !is_array(&known.types, kind)
        && (is_void(&known.types, bare(&known.types, kind)) || is_complete(known, kind))
}

/// The length of an array of complete elements that isn't too large.
fn array_length(known: &Known, kind: TypeId, length: u128) -> Option<u64>
    requires { IsId known.now.types kind }
    ensures same { IfSome result (λ n. n ≡ length) }
    ensures fits { is_some result ≡ (conversions.is_complete (seen known.now) (type_of known.now.types kind) && typing.length_fits (seen known.now) (type_of known.now.types kind) (Some length)) }
{
    let size = known.types.size(kind)?;
    let bytes = u128::from(size).checked_mul(length)?;
    if bytes > MOST_TYPE_BYTES {
        return None;
    }
    u64::try_from(length).ok()
}

/// The value of an integer constant expression that is at least 1.
fn natural_value(known: &Known, tree: &Core) -> Option<u128>
    requires { IsNumbered known.now.types tree.now }
    ensures value { (later : List OneShape) → Begins known.now.types.shapes later → result ≡ option_and_then typing.natural (conversions.constant_of (known_over later known.now) (view_over later tree.now)) }
    ensures positive { IfSome result (λ length. 0 < length) }
{
    match constant(tree, &known.declared, &known.types) {
        Some(value) => natural(value),
        None => None,
    }
}

fn natural(value: i128) -> Option<u128>
    ensures value { result ≡ typing.natural value }
    ensures positive { IfSome result (λ length. 0 < length) }
{
    if value >= 1 {
        Some(value.unsigned_abs())
    } else {
        None
    }
}

fn is_no_parameters(known: &Known, parameters: &[TypedParameter]) -> bool
    requires { ParametersFit known.now.types parameters.now }
    ensures { (later : List OneShape) → Begins known.now.types.shapes later → result ≡ typing.is_no_parameters (map (parameter_over later) parameters.now) }
{
    match parameters {
        [only] => is_void(&known.types, only.kind) && only.declared.is_none(),
        _ => false,
    }
}
