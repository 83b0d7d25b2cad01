//! Where runs of macros stand.

ghost use Rattle.std.specs.Prelude.{◌≡◌, ◌<◌, ◌==◌, ◌||◌, false, ℕ, length, option_map, slice_index_or, IfOk, IsTrue, List as Sequence};
ghost use Rattle.std.specs.List.{list_all, range_with_len};
ghost use Rattle.std.specs.Option.{option_copied};
ghost use Rattle.dm_type.specs.Tables.{IsId, Table, type_of};
ghost use Rattle.dm_tree.specs.Scenes as scenes;
ghost use Rattle.dm_tree.specs.TypeNumbers.{IsTypedUnit, are_known};
ghost use Rattle.dm_tree.specs.Views.{view, view_of_unit};
ghost use Rattle.dm_sites.specs.Links.{passes};
ghost use Rattle.dm_sites.specs.Seen.{seen};
ghost use Rattle.dm_sites.specs.Sites.{Site as SeenSite, site_of, sites_of_unit};
ghost use Rattle.dm_beside.specs.Places as rules;

use dm_int::Kind;
use dm_runs::Run;
use dm_sites::{Site, Sites};
use dm_token::{Memory, Span};
use dm_tree::{Core, CoreUnit, Form, constant};
use dm_type::{Shape, TypeId, Types};
use std::alloc::Global;

/// The parameter of this position occurs. Those beyond the last one are passed over.
fn mark(marks: &mut Vec<bool>, parameter: u32)
    ensures long { length marks.new.items ≡ length marks.old.items }
    ensures marked { (n : ℕ) → n < length marks.old.items → slice_index_or marks.new.items n false ≡ (slice_index_or marks.old.items n false || parameter == n) }
{
    let at = parameter as usize;
    if at < marks.len() {
        marks[at] = true;
    }
}

/// Of each of so many parameters, whether it occurs in a run.
fn occurring(alloc: Global, run: &Run, count: u32) -> Result<Vec<bool>, Memory>
    ensures { IfOk result (λ marks. (n : ℕ) → n < count → slice_index_or marks.items n false ≡ rules.occurs run.now n) }
{
    let mut marks = vec![in alloc; false; count as usize]?;
    let occurrences = run.occurrences.items();
    for one in occurrences {
        mark(&mut marks, one.parameter);
    }
    Ok(marks)
}

/// Whether the parameter of this position is marked.
fn is_marked(marks: &[bool], parameter: u32) -> bool
    ensures { result ≡ slice_index_or marks.now parameter false }
{
    match marks.get(parameter as usize) {
        Some(marked) => *marked,
        None => false,
    }
}

/// Whether each of so many parameters occurs in a run. Goes once through the occurrences.
pub fn has_all_parameters(alloc: Global, run: &Run, count: u32) -> Result<bool, Memory>
    ensures { IfOk result (λ has. has ≡ list_all (rules.occurs run.now) (range_with_len 0 count)) }
{
    let marks = occurring(alloc, run, count)?;
    for parameter in 0..count {
        if !is_marked(marks.as_slice(), parameter) {
            return Ok(false);
        }
    }
    Ok(true)
}

/// The place of the value of the expression that has these tokens.
fn place_of<'a>(sites: &'a Sites<'a>, span: Span) -> Option<&'a Site<'a>>
    ensures { (types : Table) → option_map (seen types (sites_of_unit (view_of_unit types sites.now))) (option_copied result) ≡ site_of (view_of_unit types sites.now) span }
{
    match sites.find(span) {
        Some(number) => sites.get(number),
        None => None,
    }
}

/// Whether an expression has these tokens.
fn is_one_expression(sites: &Sites, span: Span) -> bool
    ensures { (types : Table) → result ≡ rules.is_one_expression (view_of_unit types sites.now) span }
{
    match place_of(sites, span) {
        Some(_) => true,
        None => false,
    }
}

/// Whether a run is one expression, and each occurrence in it is one.
pub fn is_subtree(sites: &Sites, run: &Run) -> bool
    ensures { (types : Table) → result ≡ rules.is_subtree (view_of_unit types sites.now) run.now }
{
    if !is_one_expression(sites, run.span) {
        return false;
    }
    let mut left = run.occurrences.items();
    while let Some((occurrence, rest)) = left.split_first() {
        if !is_one_expression(sites, occurrence.span) {
            return false;
        }
        left = rest;
    }
    true
}

/// Whether a tree is an lvalue (6.3.2.1p1).
fn is_lvalue(tree: &Core) -> bool
    ensures { (types : Table) → result ≡ scenes.is_lvalue (view types tree.now) }
{
    match &tree.form {
        Form::Object(_) | Form::Literal(_, _) | Form::Follow(_) => true,
        Form::Member(whole, _) => is_lvalue(whole.get()),
        _ => false,
    }
}

/// Whether the expression that has these tokens is no lvalue, or what is read or decays of one.
fn is_read(sites: &Sites, span: Span) -> bool
    ensures { (types : Table) → result ≡ passes rules.is_read (site_of (view_of_unit types sites.now) span) }
{
    match place_of(sites, span) {
        Some(site) => !is_lvalue(site.tree),
        None => false,
    }
}

/// Whether neither a run nor an occurrence in it is an object that is stored into or whose address is taken.
pub fn is_value(sites: &Sites, run: &Run) -> bool
    ensures { (types : Table) → result ≡ rules.is_value (view_of_unit types sites.now) run.now }
{
    if !is_read(sites, run.span) {
        return false;
    }
    let mut left = run.occurrences.items();
    while let Some((occurrence, rest)) = left.split_first() {
        if !is_read(sites, occurrence.span) {
            return false;
        }
        left = rest;
    }
    true
}

/// Whether a type is `int`.
fn is_int(types: &Types, id: TypeId) -> bool
    requires { IsId types.now id }
    ensures { result ≡ rules.is_int (type_of types.now id) }
{
    matches!(types.shape(id), Shape::Integer(Kind::Int))
}

/// Whether no constant is wanted where an expression stands, or what is to stand there is one.
fn may_stand(unit: &CoreUnit, types: &Types, is_function: bool, site: &Site) -> bool
    requires { IsTrue (are_known (length types.now.shapes) site.now.tree.now) }
    ensures { (all : Sequence SeenSite) → result ≡ rules.may_stand types.now (view_of_unit types.now unit.now) is_function (seen types.now all site.now) }
{
    let wanted = site.constant || site.fixed || site.unevaluated;
    if is_function {
        return !wanted;
    }
    if constant(site.tree, &unit.declared, types).is_none() {
        return false;
    }
    is_int(types, site.tree.kind) || !wanted
}

/// Whether no constant is wanted where a run stands, or what is to stand there is one. A macro with a parameter list is to be a function.
pub fn may_be_constant(sites: &Sites, types: &Types, is_function: bool, run: &Run) -> bool
    requires { IsTypedUnit types.now sites.now }
    ensures { result ≡ rules.may_be_constant types.now (view_of_unit types.now sites.now) is_function run.now }
{
    match sites.find(run.span) {
        Some(number) => match sites.get(number) {
            Some(site) => may_stand(sites.unit(), types, is_function, site),
            None => false,
        },
        None => false,
    }
}
