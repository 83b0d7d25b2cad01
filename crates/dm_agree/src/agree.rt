//! Whether a tree of the new unit agrees with one of the old.

ghost use Rattle.std.specs.Prelude.{◌≡◌, ◌↔◌, [], ◌∷◌, IfOk, IsTrue, length, map, slice_get};
ghost use Rattle.dm_type.specs.Tables.{Table};
ghost use Rattle.dm_tree.specs.Trees.{kind_of, label_of, spans_of, trees, trees_of};
ghost use Rattle.dm_tree.specs.TypeNumbers.{are_known};
ghost use Rattle.dm_tree.specs.Views.{view};
ghost use Rattle.dm_agree.specs.Agreement.{Agrees, AgreesWhole, AllAgree, IsCallOf, Passes, PassesFrom, SameBody, here_at};
ghost use Rattle.dm_agree.specs.Arguments.{AllPassed, Passed, seen_all, trees_in};
ghost use Rattle.dm_agree.specs.Comparing.{rewriting, IsKnownAdded};
ghost use Rattle.dm_agree.specs.Parts.{nows, are_all_known};
ghost use Rattle.dm_agree.specs.Runs.{runs_in};
ghost use Rattle.dm_agree.specs.Standing as standing;

use crate::body::{Argument, Pattern, is_same_body};
use crate::comparison::{Added, AddedFunction, Comparison};
use crate::index::OccurrenceIndex;
use crate::names::{is_enumerator, is_function, is_read_of, reads_parameter};
use crate::parts::{operands_of, parts_of};
use dm_runs::Run;
use dm_token::Memory;
use dm_tree::{Core, Form};
use std::alloc::Global;

/// Whether a whole tree does, where the runs that stand at the old tree do.
pub fn agrees_whole<'a>(
    alloc: Global,
    it: &Comparison<'a>,
    new: &Core,
    old: &'a Core,
) -> Result<bool, Memory>
    requires new { IsTrue (are_known (length it.now.new_types.now.shapes) new.now) }
    requires old { IsTrue (are_known (length it.now.old_types.now.shapes) old.now) }
    requires added { IsKnownAdded (length it.now.new_types.now.shapes) it.now.added }
    ensures { IfOk result (λ answer. IsTrue answer ↔ AgreesWhole (rewriting it.now) (view it.now.new_types.now new.now) (view it.now.old_types.now old.now)) }
{
    let runs = it.runs.at(alloc, old)?;
    agrees(alloc, it, &runs, new, old)
}

/// Whether it does, where these runs still stand at the old tree, from the outside in.
#[cycle(agreement)]
fn agrees<'a>(
    alloc: Global,
    it: &Comparison<'a>,
    runs: &[&Run],
    new: &Core,
    old: &'a Core,
) -> Result<bool, Memory>
    requires new { IsTrue (are_known (length it.now.new_types.now.shapes) new.now) }
    requires old { IsTrue (are_known (length it.now.old_types.now.shapes) old.now) }
    requires added { IsKnownAdded (length it.now.new_types.now.shapes) it.now.added }
    ensures { IfOk result (λ answer. IsTrue answer ↔ Agrees (rewriting it.now) (runs_in runs.now) (view it.now.new_types.now new.now) (view it.now.old_types.now old.now)) }
{
    match runs.split_first() {
        Some((run, inner)) => agrees_at_run(alloc, it, run, inner, new, old),
        None => agrees_apart_from_runs(alloc, it, new, old),
    }
}

/// Whether it does, where no run stands at the old tree itself. Goes down the left operands of commas in a loop, since a comma
/// expression may have any number of parts.
#[cycle(agreement)]
fn agrees_apart_from_runs<'a>(
    alloc: Global,
    it: &Comparison<'a>,
    new: &Core,
    old: &'a Core,
) -> Result<bool, Memory>
    requires new { IsTrue (are_known (length it.now.new_types.now.shapes) new.now) }
    requires old { IsTrue (are_known (length it.now.old_types.now.shapes) old.now) }
    requires added { IsKnownAdded (length it.now.new_types.now.shapes) it.now.added }
    ensures { IfOk result (λ answer. IsTrue answer ↔ Agrees (rewriting it.now) [] (view it.now.new_types.now new.now) (view it.now.old_types.now old.now)) }
{
    let mut at = new;
    let mut other = old;
    while let (Form::Comma(left, right), Form::Comma(first, second)) = (&at.form, &other.form) {
        let front = left.get();
        let last = right.get();
        let other_front = first.get();
        let other_last = second.get();
        if !it.is_same_node(at, other) {
            return Ok(false);
        }
        let agree = part_agrees(alloc, it, last, other, other_last)?;
        if !agree {
            return Ok(false);
        }
        let clear = no_run_stands_below(alloc, it, other, other_front)?;
        if !clear {
            return part_agrees(alloc, it, front, other, other_front);
        }
        at = front;
        other = other_front;
    }
    node_agrees(alloc, it, at, other)
}

/// Whether two nodes are the same and their parts agree.
#[cycle(agreement)]
fn node_agrees<'a>(
    alloc: Global,
    it: &Comparison<'a>,
    new: &Core,
    old: &'a Core,
) -> Result<bool, Memory>
    requires new { IsTrue (are_known (length it.now.new_types.now.shapes) new.now) }
    requires old { IsTrue (are_known (length it.now.old_types.now.shapes) old.now) }
    requires added { IsKnownAdded (length it.now.new_types.now.shapes) it.now.added }
    ensures { IfOk result (λ answer. IsTrue answer ↔ Agrees (rewriting it.now) [] (view it.now.new_types.now new.now) (view it.now.old_types.now old.now)) }
{
    if !it.is_same_node(new, old) {
        return Ok(false);
    }
    if let (Some(operands), Some(others)) = (operands_of(&new.form), operands_of(&old.form)) {
        if operands.front.len() == others.front.len() {
            let agree = lists_agree(alloc, it, operands.front, old, others.front)?;
            if !agree {
                return Ok(false);
            }
            return lists_agree(alloc, it, operands.back, old, others.back);
        }
    }
    let parts = parts_of(alloc, &new.form)?;
    let others = parts_of(alloc, &old.form)?;
    all_agree(alloc, it, &parts, old, &others)
}

/// Whether trees agree one by one with parts of an old node.
#[cycle(agreement)]
fn lists_agree<'a>(
    alloc: Global,
    it: &Comparison<'a>,
    list: &[Core],
    above: &Core,
    others: &'a [Core],
) -> Result<bool, Memory>
    requires new { IsTrue (are_all_known (length it.now.new_types.now.shapes) list.now) }
    requires old { IsTrue (are_all_known (length it.now.old_types.now.shapes) others.now) }
    requires added { IsKnownAdded (length it.now.new_types.now.shapes) it.now.added }
    ensures { IfOk result (λ answer. IsTrue answer ↔ AllAgree (rewriting it.now) (label_of (view it.now.old_types.now above.now)) (spans_of (view it.now.old_types.now above.now))
        (trees (map (view it.now.new_types.now) list.now)) (trees (map (view it.now.old_types.now) others.now))) }
{
    if list.len() != others.len() {
        return Ok(false);
    }
    for i in 0..list.len() {
        if !part_agrees(alloc, it, &list[i], above, &others[i])? {
            return Ok(false);
        }
    }
    Ok(true)
}

fn no_run_stands_below(
    alloc: Global,
    it: &Comparison,
    above: &Core,
    part: &Core,
) -> Result<bool, Memory>
    ensures { IfOk result (λ answer. (types : Table) → IsTrue answer ↔ (standing.runs_below it.now.runs (label_of (view types above.now)) (spans_of (view types above.now)) (view types part.now) ≡ [])) }
{
    let runs = it.runs.below(alloc, above, part)?;
    Ok(runs.is_empty())
}

/// Whether parts of a node agree one by one with those of an old node.
#[cycle(agreement)]
fn all_agree<'a>(
    alloc: Global,
    it: &Comparison<'a>,
    parts: &[&Core],
    above: &Core,
    others: &[&'a Core],
) -> Result<bool, Memory>
    requires new { IsTrue (are_all_known (length it.now.new_types.now.shapes) (nows parts.now)) }
    requires old { IsTrue (are_all_known (length it.now.old_types.now.shapes) (nows others.now)) }
    requires added { IsKnownAdded (length it.now.new_types.now.shapes) it.now.added }
    ensures { IfOk result (λ answer. IsTrue answer ↔ AllAgree (rewriting it.now) (label_of (view it.now.old_types.now above.now)) (spans_of (view it.now.old_types.now above.now))
        (trees (map (view it.now.new_types.now) (nows parts.now))) (trees (map (view it.now.old_types.now) (nows others.now)))) }
{
    if parts.len() != others.len() {
        return Ok(false);
    }
    for i in 0..parts.len() {
        if !part_agrees(alloc, it, parts[i], above, others[i])? {
            return Ok(false);
        }
    }
    Ok(true)
}

/// Whether a part agrees with one of an old node, where the runs that stand there do.
#[cycle(agreement)]
fn part_agrees<'a>(
    alloc: Global,
    it: &Comparison<'a>,
    part: &Core,
    above: &Core,
    other: &'a Core,
) -> Result<bool, Memory>
    requires new { IsTrue (are_known (length it.now.new_types.now.shapes) part.now) }
    requires old { IsTrue (are_known (length it.now.old_types.now.shapes) other.now) }
    requires added { IsKnownAdded (length it.now.new_types.now.shapes) it.now.added }
    ensures { IfOk result (λ answer. IsTrue answer ↔ Agrees (rewriting it.now)
        (standing.runs_below it.now.runs (label_of (view it.now.old_types.now above.now)) (spans_of (view it.now.old_types.now above.now)) (view it.now.old_types.now other.now))
        (view it.now.new_types.now part.now) (view it.now.old_types.now other.now)) }
{
    let runs = it.runs.below(alloc, above, other)?;
    agrees(alloc, it, &runs, part, other)
}

/// Whether a tree does at a run, inside which these still stand.
#[cycle(agreement)]
fn agrees_at_run<'a>(
    alloc: Global,
    it: &Comparison<'a>,
    run: &Run,
    inner: &[&Run],
    new: &Core,
    old: &'a Core,
) -> Result<bool, Memory>
    requires new { IsTrue (are_known (length it.now.new_types.now.shapes) new.now) }
    requires old { IsTrue (are_known (length it.now.old_types.now.shapes) old.now) }
    requires added { IsKnownAdded (length it.now.new_types.now.shapes) it.now.added }
    ensures { IfOk result (λ answer. IsTrue answer ↔ Agrees (rewriting it.now) (run.now ∷ runs_in inner.now) (view it.now.new_types.now new.now) (view it.now.old_types.now old.now)) }
{
    match &it.added {
        Added::Nothing => Ok(false),
        Added::Function(function) => calls_added(alloc, it, function, run, inner, new, old),
        Added::Enumerator(number, value) => {
            Ok(is_enumerator(new, *number) && it.is_of_value(new, old, value))
        }
        Added::Constant(number, value) => {
            Ok(is_read_of(new, *number) && it.is_of_value(new, old, value))
        }
    }
}

/// Whether a tree calls the added function in the place of a run.
#[cycle(agreement)]
fn calls_added<'a>(
    alloc: Global,
    it: &Comparison<'a>,
    function: &AddedFunction,
    run: &Run,
    inner: &[&Run],
    new: &Core,
    old: &'a Core,
) -> Result<bool, Memory>
    requires new { IsTrue (are_known (length it.now.new_types.now.shapes) new.now) }
    requires old { IsTrue (are_known (length it.now.old_types.now.shapes) old.now) }
    requires added { IsKnownAdded (length it.now.new_types.now.shapes) it.now.added }
    requires body { IsTrue (are_known (length it.now.new_types.now.shapes) function.now.body.now) }
    ensures { IfOk result (λ answer. IsTrue answer ↔
        (IsCallOf (rewriting it.now) function.now.number function.now.parameters.now (view it.now.new_types.now function.now.body.now) run.now (runs_in inner.now)
        (label_of (view it.now.new_types.now new.now)) (kind_of (view it.now.new_types.now new.now)) (trees_of (view it.now.new_types.now new.now)) (view it.now.old_types.now old.now)
        × Passes (rewriting it.now) (trees_of (view it.now.new_types.now new.now)) run.now (runs_in inner.now) (view it.now.old_types.now old.now))) }
{
    match &new.form {
        Form::Call(named, arguments) => {
            if !is_function(named.get(), function.number) {
                return Ok(false);
            }
            if !it.is_same_kind(new, old) {
                return Ok(false);
            }
            substitutes(alloc, it, function, run, inner, arguments.items(), old)
        }
        _ => Ok(false),
    }
}

/// Whether the body of the added function is the tree of a run, and arguments agree with what stands at the occurrences of their
/// parameters.
#[cycle(agreement)]
fn substitutes<'a>(
    alloc: Global,
    it: &Comparison<'a>,
    function: &AddedFunction,
    run: &Run,
    inner: &[&Run],
    arguments: &[Core],
    old: &'a Core,
) -> Result<bool, Memory>
    requires arguments { IsTrue (are_all_known (length it.now.new_types.now.shapes) arguments.now) }
    requires old { IsTrue (are_known (length it.now.old_types.now.shapes) old.now) }
    requires added { IsKnownAdded (length it.now.new_types.now.shapes) it.now.added }
    requires body { IsTrue (are_known (length it.now.new_types.now.shapes) function.now.body.now) }
    ensures { IfOk result (λ answer. IsTrue answer ↔
        (SameBody (rewriting it.now) function.now.parameters.now run.now (here_at run.now (runs_in inner.now) (view it.now.old_types.now old.now)) (view it.now.new_types.now function.now.body.now) (view it.now.old_types.now old.now)
        × PassesFrom (rewriting it.now) 0 (trees (map (view it.now.new_types.now) arguments.now)) run.now (runs_in inner.now) (view it.now.old_types.now old.now))) }
{
    let occurrences = OccurrenceIndex::of(alloc, run)?;
    match occurrences.at(old) {
        Some(parameter) => {
            if !reads_parameter(it, function.parameters, parameter, function.body, old) {
                return Ok(false);
            }
            argument_agrees(alloc, it, arguments, parameter, inner, old)
        }
        None => {
            if !inner.is_empty() {
                return Ok(false);
            }
            let pattern = Pattern {
                parameters: function.parameters,
                run: &occurrences,
            };
            let mut found = Vec::new(alloc);
            let same = is_same_body(alloc, it, &pattern, function.body, old, &mut found)?;
            if !same {
                return Ok(false);
            }
            all_pass(alloc, it, arguments, &found)
        }
    }
}

/// Whether arguments agree with what stands at some occurrences.
#[cycle(agreement)]
fn all_pass<'a>(
    alloc: Global,
    it: &Comparison<'a>,
    arguments: &[Core],
    found: &[Argument<'a>],
) -> Result<bool, Memory>
    requires arguments { IsTrue (are_all_known (length it.now.new_types.now.shapes) arguments.now) }
    requires old { IsTrue (are_all_known (length it.now.old_types.now.shapes) (trees_in found.now)) }
    requires added { IsKnownAdded (length it.now.new_types.now.shapes) it.now.added }
    ensures { IfOk result (λ answer. IsTrue answer ↔ AllPassed (rewriting it.now) (map (view it.now.new_types.now) arguments.now) (seen_all it.now.old_types.now found.now)) }
{
    for one in found {
        if !argument_agrees(alloc, it, arguments, one.parameter, &one.runs, one.tree)? {
            return Ok(false);
        }
    }
    Ok(true)
}

/// Whether the argument for a parameter, if there is one, agrees with what stands at an occurrence.
#[cycle(agreement)]
fn argument_agrees<'a>(
    alloc: Global,
    it: &Comparison<'a>,
    arguments: &[Core],
    parameter: u32,
    runs: &[&Run],
    old: &'a Core,
) -> Result<bool, Memory>
    requires arguments { IsTrue (are_all_known (length it.now.new_types.now.shapes) arguments.now) }
    requires old { IsTrue (are_known (length it.now.old_types.now.shapes) old.now) }
    requires added { IsKnownAdded (length it.now.new_types.now.shapes) it.now.added }
    ensures { IfOk result (λ answer. IsTrue answer ↔ Passed (rewriting it.now) (slice_get (map (view it.now.new_types.now) arguments.now) parameter)
        (record { runs = runs_in runs.now; tree = view it.now.old_types.now old.now })) }
{
    match arguments.get(parameter as usize) {
        Some(argument) => agrees(alloc, it, runs, argument, old),
        None => Ok(true),
    }
}
