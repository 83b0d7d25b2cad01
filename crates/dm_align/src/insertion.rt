//! What the edit of a macro's definition puts into a unit.

ghost use Rattle.std.specs.Prelude.{◌≡◌, ◌≤◌, ◌<◌, ◌+◌, ◌↔◌, ℕ, [], ◌∷◌, true, IfNone, IfOk, IfSome, IsTrue, List as Sequence, MatchOption, Some, length, map, option_map, slice_get};
ghost use Rattle.std.specs.List.{AllByRecursion, list_all};
ghost use Rattle.std.specs.Option.{option_copied};
ghost use Rattle.dm_type.specs.CTypes.{bare, is_const as is_const_type};
ghost use Rattle.dm_type.specs.Tables.{IsId, Table, type_of};
ghost use Rattle.dm_tree.specs.declared.unit.Declared.{Declared as SeenDeclared};
ghost use Rattle.dm_tree.specs.declared.unit.Linkage.TheVariants.{Internal};
ghost use Rattle.dm_tree.specs.declared.unit.Sort.TheVariants.{Function, Object};
ghost use Rattle.dm_tree.specs.Scenes.{is_function as is_function_type, is_void};
ghost use Rattle.dm_tree.specs.Trees.{Declarator as SeenDeclarator, Tree, parts_of as parts_in};
ghost use Rattle.dm_tree.specs.TypeNumbers.{are_known, are_known_in_local, entry_has_known, external_has_known, form_has_known};
ghost use Rattle.dm_tree.specs.Units.{declares};
ghost use Rattle.dm_tree.specs.Views.{view, view_of_form, view_of_local, view_of_unit};
ghost use Rattle.dm_edit.specs.declared.change.As.TheVariants as kinds;
ghost use Rattle.dm_agree.specs.Comparing.{added_of, IsKnownAdded};
ghost use Rattle.dm_align.specs.Insertions as insertions;
ghost use Rattle.dm_align.specs.Insertions.{AddsIt, FormAddsIt, IsOnly};
ghost use Rattle.dm_align.specs.Units.{are_different, IsDeclaratorOf, result_of};

use crate::entries::is_same_name;
use dm_agree::{Added, AddedFunction, parts_of};
use dm_edit::As;
use dm_token::{Memory, Text};
use dm_tree::{
    Core, CoreExternalForm, CoreUnit, Declared, Form, Initial, Linkage, Local, Sort, constant,
};
use dm_type::{Shape, TypeId, Types};
use std::alloc::Global;
use std::collections::HashSet;

/// The declaration that an edit puts in.
#[derive(Clone, Copy)]
pub struct Inserted<'a> {
    /// The position of the added external declaration.
    pub external: usize,
    /// The first number of what it declares, at any depth, and how many there are.
    pub first: u32,
    pub count: u32,
    /// The name that it declares, and the number of that declaration.
    pub name: &'a Text,
    pub number: u32,
    pub kind: As,
}

/// What a unit adds so.
pub(crate) fn added_in<'a>(
    alloc: Global,
    types: &Types,
    unit: &'a CoreUnit,
    it: &Inserted,
) -> Result<Option<Added<'a>>, Memory>
    requires entries { IsTrue (list_all (entry_has_known (length types.now.shapes)) unit.now.declared) }
    requires externals { IsTrue (list_all (external_has_known (length types.now.shapes)) unit.now.externals) }
    ensures only { IfOk result (λ found. IsOnly (AddsIt types.now (view_of_unit types.now unit.now) it.now) (option_map (added_of types.now) found)) }
    ensures known { IfOk result (λ found. IfSome found (IsKnownAdded (length types.now.shapes))) }
{
    let Some(external) = unit.externals.items().get(it.external) else {
        return Ok(None);
    };
    let Some(entry) = named_entry(unit, it) else {
        return Ok(None);
    };
    match it.kind {
        As::Function => function_in(alloc, types, unit, it, entry, &external.form),
        As::Enumerator => Ok(enumerator_in(types, unit, it, entry, &external.form)),
        As::Constant => Ok(constant_in(types, unit, it, entry, &external.form)),
    }
}

/// The entry of the name, where it is among what is put in.
fn named_entry<'a>(unit: &'a CoreUnit, it: &Inserted) -> Option<&'a Declared>
    ensures found { IfSome result (λ entry. (slice_get unit.now.declared it.now.number ≡ Some entry.now) × (entry.now.name ≡ it.now.name.now)
        × (it.now.first ≤ it.now.number) × (it.now.number < it.now.first + it.now.count)) }
    ensures none { IfNone result ((entry : SeenDeclared) → slice_get unit.now.declared it.now.number ≡ Some entry → entry.name ≡ it.now.name.now
        → it.now.first ≤ it.now.number → ¬ (it.now.number < it.now.first + it.now.count)) }
{
    if !is_put(it, it.number) {
        return None;
    }
    let entry = unit.declared.items().get(it.number as usize)?;
    if is_same_name(&entry.name, it.name) {
        Some(entry)
    } else {
        None
    }
}

fn is_put(it: &Inserted, number: u32) -> bool
    ensures { IsTrue result ↔ ((it.now.first ≤ number) × (number < it.now.first + it.now.count)) }
{
    it.first <= number && u64::from(number) < u64::from(it.first) + u64::from(it.count)
}

/// The function that a form defines so.
fn function_in<'a>(
    alloc: Global,
    types: &Types,
    unit: &CoreUnit,
    it: &Inserted,
    entry: &Declared,
    form: &'a CoreExternalForm,
) -> Result<Option<Added<'a>>, Memory>
    requires kind { it.now.kind ≡ kinds.Function }
    requires entry { slice_get unit.now.declared it.now.number ≡ Some entry.now }
    requires name { entry.now.name ≡ it.now.name.now }
    requires put { (it.now.first ≤ it.now.number) × (it.now.number < it.now.first + it.now.count) }
    requires known { IsId types.now entry.now.kind }
    requires form { IsTrue (form_has_known (length types.now.shapes) form.now) }
    ensures only { IfOk result (λ found. IsOnly (FormAddsIt types.now (view_of_unit types.now unit.now) it.now (view_of_form types.now form.now)) (option_map (added_of types.now) found)) }
    ensures known { IfOk result (λ found. IfSome found (IsKnownAdded (length types.now.shapes))) }
{
    let CoreExternalForm::Function {
        function,
        parameters,
        body,
    } = form
    else {
        return Ok(None);
    };
    if *function != it.number || !is_internal_function(entry) {
        return Ok(None);
    }
    if !are_parameters(alloc, it, parameters.items())? {
        return Ok(None);
    }
    if is_function_result(types, entry.kind) {
        return Ok(None);
    }
    let void = is_void_result(types, entry.kind);
    let Some(value) = value_in(alloc, void, body)? else {
        return Ok(None);
    };
    Ok(Some(Added::Function(AddedFunction {
        number: *function,
        parameters: parameters.items(),
        body: value,
    })))
}

fn is_internal_function(entry: &Declared) -> bool
    ensures { IsTrue result ↔ ((entry.now.sort ≡ Function) × (entry.now.linkage ≡ Internal)) }
{
    entry.sort == Sort::Function && entry.linkage == Linkage::Internal
}

/// Whether numbers are different ones of what is put in.
fn are_parameters(alloc: Global, it: &Inserted, numbers: &[u32]) -> Result<bool, Memory>
    ensures { IfOk result (λ answer. IsTrue answer
        ↔ (AllByRecursion (λ number. (it.now.first ≤ number) × (number < it.now.first + it.now.count)) numbers.now × IsTrue (are_different numbers.now))) }
{
    let mut seen = HashSet::new(alloc);
    let mut left = numbers;
    while let Some((number, before)) = left.split_last() {
        if !is_put(it, *number) {
            return Ok(false);
        }
        if !seen.insert(*number)? {
            return Ok(false);
        }
        left = before;
    }
    Ok(true)
}

/// Whether a function of this type has no result (6.8.6.4).
fn is_void_result(types: &Types, kind: TypeId) -> bool
    requires { IsId types.now kind }
    ensures { result ≡ is_void (result_of (type_of types.now kind)) }
{
    match types.shape(kind) {
        Shape::Void => true,
        Shape::Function(answer, _) => is_bare_void(types, *answer),
        _ => false,
    }
}

/// Whether a type is `void`, apart from its own const.
fn is_bare_void(types: &Types, kind: TypeId) -> bool
    requires { IsId types.now kind }
    ensures { result ≡ is_void (bare (type_of types.now kind)) }
{
    match types.shape(kind) {
        Shape::Void => true,
        Shape::Const(inner) => match types.shape(*inner) {
            Shape::Void => true,
            _ => false,
        },
        _ => false,
    }
}

/// Whether a function of this type returns a function (6.7.6.3p1).
fn is_function_result(types: &Types, kind: TypeId) -> bool
    requires { IsId types.now kind }
    ensures { result ≡ is_function_type (result_of (type_of types.now kind)) }
{
    match types.shape(kind) {
        Shape::Function(answer, _) => is_bare_function(types, *answer),
        _ => false,
    }
}

/// Whether a type is that of a function, apart from its own const.
fn is_bare_function(types: &Types, kind: TypeId) -> bool
    requires { IsId types.now kind }
    ensures { result ≡ is_function_type (bare (type_of types.now kind)) }
{
    match types.shape(kind) {
        Shape::Function(_, _) => true,
        Shape::Const(inner) => match types.shape(*inner) {
            Shape::Function(_, _) => true,
            _ => false,
        },
        _ => false,
    }
}

/// The expression of a body that is one `return` of it, or one expression statement.
fn value_in<'a>(alloc: Global, void: bool, body: &'a Core) -> Result<Option<&'a Core>, Memory>
    ensures value { IfOk result (λ found. (types : Table) → option_map (view types) (option_copied found) ≡ insertions.value_in void (parts_in (view types body.now))) }
    ensures known { IfOk result (λ found. (n : ℕ) → IsTrue (are_known n body.now) → IfSome found (λ value. IsTrue (are_known n value.now))) }
{
    let parts = parts_of(alloc, &body.form)?;
    if parts.len() != 1 {
        return Ok(None);
    }
    Ok(value_of(void, parts[0]))
}

fn value_of(void: bool, item: &Core) -> Option<&Core>
    ensures value { (types : Table) → option_map (view types) (option_copied result) ≡ insertions.value_of void (view types item.now) }
    ensures known { (n : ℕ) → IsTrue (are_known n item.now) → IfSome result (λ value. IsTrue (are_known n value.now)) }
{
    match &item.form {
        Form::Return(Some(value)) => { if void { None } else { Some(value.get()) } }
        Form::Full(value) => { if void { Some(value.get()) } else { None } }
        _ => None,
    }
}

/// The enumerator that a form declares so.
fn enumerator_in<'a>(
    types: &Types,
    unit: &CoreUnit,
    it: &Inserted,
    entry: &Declared,
    form: &'a CoreExternalForm,
) -> Option<Added<'a>>
    requires kind { it.now.kind ≡ kinds.Enumerator }
    requires entry { slice_get unit.now.declared it.now.number ≡ Some entry.now }
    requires name { entry.now.name ≡ it.now.name.now }
    requires put { (it.now.first ≤ it.now.number) × (it.now.number < it.now.first + it.now.count) }
    ensures only { IsOnly (FormAddsIt types.now (view_of_unit types.now unit.now) it.now (view_of_form types.now form.now)) (option_map (added_of types.now) result) }
    ensures known { IfSome result (IsKnownAdded (length types.now.shapes)) }
{
    if !declares_nothing(form) {
        return None;
    }
    match entry.sort {
        Sort::Enumerator(value) => Some(Added::Enumerator(it.number, value)),
        _ => None,
    }
}

/// Whether a form is a declaration without declarators.
fn declares_nothing(form: &CoreExternalForm) -> bool
    ensures { (types : Table) → IsTrue result ↔ (view_of_form types form.now ≡ declares [] []) }
{
    match form {
        CoreExternalForm::Declaration(locals) => locals.items().is_empty(),
        _ => false,
    }
}

/// The object that a form declares so.
fn constant_in<'a>(
    types: &Types,
    unit: &CoreUnit,
    it: &Inserted,
    entry: &Declared,
    form: &'a CoreExternalForm,
) -> Option<Added<'a>>
    requires kind { it.now.kind ≡ kinds.Constant }
    requires entry { slice_get unit.now.declared it.now.number ≡ Some entry.now }
    requires name { entry.now.name ≡ it.now.name.now }
    requires put { (it.now.first ≤ it.now.number) × (it.now.number < it.now.first + it.now.count) }
    requires known { IsId types.now entry.now.kind }
    requires form { IsTrue (form_has_known (length types.now.shapes) form.now) }
    ensures only { IsOnly (FormAddsIt types.now (view_of_unit types.now unit.now) it.now (view_of_form types.now form.now)) (option_map (added_of types.now) result) }
    ensures known { IfSome result (IsKnownAdded (length types.now.shapes)) }
{
    if !is_constant_object(types, entry) {
        return None;
    }
    let tree = initialiser_in(it.number, form)?;
    let value = constant(tree, &unit.declared, types)?;
    Some(Added::Constant(it.number, value))
}

fn is_constant_object(types: &Types, entry: &Declared) -> bool
    requires { IsId types.now entry.now.kind }
    ensures { IsTrue result ↔ ((entry.now.sort ≡ Object true) × (entry.now.linkage ≡ Internal) × (is_const_type (type_of types.now entry.now.kind) ≡ true)) }
{
    entry.sort == Sort::Object { fixed: true }
        && entry.linkage == Linkage::Internal
        && is_const(types, entry.kind)
}

fn is_const(types: &Types, kind: TypeId) -> bool
    requires { IsId types.now kind }
    ensures { result ≡ is_const_type (type_of types.now kind) }
{
    match types.shape(kind) {
        Shape::Const(_) => true,
        _ => false,
    }
}

/// The expression that initialises an object, where a form declares this one alone.
fn initialiser_in<'a>(number: u32, form: &'a CoreExternalForm) -> Option<&'a Core>
    ensures found { IfSome result (λ tree. (types : Table) → view_of_form types form.now ≡ declares (insertions.declarator_of number ∷ []) (view types tree.now ∷ [])) }
    ensures none { IfNone result ((types : Table) (declarators : Sequence SeenDeclarator) (trees : Sequence Tree) → view_of_form types form.now ≡ declares declarators trees → ¬ IsDeclaratorOf number declarators) }
    ensures known { (n : ℕ) → IsTrue (form_has_known n form.now) → IfSome result (λ tree. IsTrue (are_known n tree.now)) }
{
    match form {
        CoreExternalForm::Declaration(locals) => match locals.items() {
            [local] => value_of_local(number, local),
            _ => None,
        },
        _ => None,
    }
}

/// The expression in a definition of this object.
fn value_of_local(number: u32, local: &Local) -> Option<&Core>
    ensures found { IfSome result (λ tree. (types : Table) → view_of_local types local.now ≡ record { declarator = insertions.declarator_of number; expressions = view types tree.now ∷ [] }) }
    ensures none { IfNone result ((types : Table) → (view_of_local types local.now).declarator ≡ insertions.declarator_of number → ⊥) }
    ensures known { (n : ℕ) → IsTrue (are_known_in_local n local.now) → IfSome result (λ tree. IsTrue (are_known n tree.now)) }
{
    if local.declared != number || !local.defines {
        return None;
    }
    match &local.initial {
        Some(Initial::Value(tree)) => Some(tree.get()),
        _ => None,
    }
}
