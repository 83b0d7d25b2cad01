//! Whether the body of an added function is the tree of a run, and what stands at the occurrences of parameters there.

ghost use Rattle.std.specs.Prelude.{◌≡◌, ◌↔◌, ◌++◌, IfOk, IsTrue, length, map};
ghost use Rattle.dm_type.specs.Tables.{Table};
ghost use Rattle.dm_tree.specs.Trees.{label_of, spans_of, trees};
ghost use Rattle.dm_tree.specs.TypeNumbers.{are_known};
ghost use Rattle.dm_tree.specs.Views.{view};
ghost use Rattle.dm_agree.specs.Agreement.{SameBody, SameBodies, here_below};
ghost use Rattle.dm_agree.specs.Arguments.{arguments_below, arguments_in, nothing_here, seen_all, trees_in};
ghost use Rattle.dm_agree.specs.Comparing.{rewriting};
ghost use Rattle.dm_agree.specs.Parts.{nows, are_all_known};

use crate::comparison::Comparison;
use crate::index::OccurrenceIndex;
use crate::names::reads_parameter;
use crate::parts::parts_of;
use dm_runs::Run;
use dm_token::Memory;
use dm_tree::{Core, Form};
use std::alloc::Global;

/// What stands at an occurrence of a parameter: the old tree, and the runs that still stand at it.
#[derive(Drop)]
pub(crate) struct Argument<'a> {
    pub parameter: u32,
    pub runs: Vec<&'a Run>,
    pub tree: &'a Core,
}

/// The numbers of the added function's parameters, and the run whose tree its body is to be.
#[derive(Clone, Copy)]
pub(crate) struct Pattern<'a> {
    pub parameters: &'a [u32],
    pub run: &'a OccurrenceIndex<'a>,
}

/// Whether a tree of the body is one of the run, where nothing stands at that. Adds what stands at the occurrences below, from the
/// right. Goes down the left operands of commas in a loop, since a comma expression may have any number of parts.
#[cycle(body)]
pub(crate) fn is_same_body<'a>(
    alloc: Global,
    it: &Comparison<'a>,
    pattern: &Pattern,
    body: &Core,
    old: &'a Core,
    found: &mut Vec<Argument<'a>>,
) -> Result<bool, Memory>
    requires body { IsTrue (are_known (length it.now.new_types.now.shapes) body.now) }
    requires old { IsTrue (are_known (length it.now.old_types.now.shapes) old.now) }
    ensures same { IfOk result (λ answer. IsTrue answer ↔ SameBody (rewriting it.now) pattern.now.parameters.now pattern.now.run.now nothing_here
        (view it.now.new_types.now body.now) (view it.now.old_types.now old.now)) }
    ensures found { IfOk result (λ answer. IsTrue answer → seen_all it.now.old_types.now found.new.items
        ≡ seen_all it.now.old_types.now found.old.items ++ arguments_in (rewriting it.now) pattern.now.run.now nothing_here (view it.now.old_types.now old.now)) }
    ensures known { IfOk result (λ answer. IsTrue (are_all_known (length it.now.old_types.now.shapes) (trees_in found.old.items)) → IsTrue (are_all_known (length it.now.old_types.now.shapes) (trees_in found.new.items))) }
{
    let mut at = body;
    let mut other = old;
    while let (Form::Comma(left, right), Form::Comma(first, second)) = (&at.form, &other.form) {
        let front = left.get();
        let last = right.get();
        let other_front = first.get();
        let other_last = second.get();
        if !it.is_same_node(at, other) {
            return Ok(false);
        }
        let same = is_same_part(alloc, it, pattern, last, other, other_last, found)?;
        if !same {
            return Ok(false);
        }
        let clear = nothing_stands_below(alloc, it, pattern, other, other_front)?;
        if !clear {
            let same = is_same_part(alloc, it, pattern, front, other, other_front, found)?;
            return Ok(same);
        }
        at = front;
        other = other_front;
    }
    let same = is_same_there(alloc, it, pattern, at, other, found)?;
    Ok(same)
}

/// Whether neither an occurrence nor a run stands at a part of a node.
fn nothing_stands_below(
    alloc: Global,
    it: &Comparison,
    pattern: &Pattern,
    above: &Core,
    part: &Core,
) -> Result<bool, Memory>
    ensures { IfOk result (λ answer. IsTrue answer → (types : Table)
        → here_below (rewriting it.now) pattern.now.run.now (label_of (view types above.now)) (spans_of (view types above.now)) (view types part.now) ≡ nothing_here) }
{
    let runs = it.runs.below(alloc, above, part)?;
    if !runs.is_empty() {
        return Ok(false);
    }
    Ok(pattern.run.below(above, part).is_none())
}

/// Whether two nodes are the same and their parts too.
#[cycle(body)]
fn is_same_there<'a>(
    alloc: Global,
    it: &Comparison<'a>,
    pattern: &Pattern,
    body: &Core,
    old: &'a Core,
    found: &mut Vec<Argument<'a>>,
) -> Result<bool, Memory>
    requires body { IsTrue (are_known (length it.now.new_types.now.shapes) body.now) }
    requires old { IsTrue (are_known (length it.now.old_types.now.shapes) old.now) }
    ensures same { IfOk result (λ answer. IsTrue answer ↔ SameBody (rewriting it.now) pattern.now.parameters.now pattern.now.run.now nothing_here
        (view it.now.new_types.now body.now) (view it.now.old_types.now old.now)) }
    ensures found { IfOk result (λ answer. IsTrue answer → seen_all it.now.old_types.now found.new.items
        ≡ seen_all it.now.old_types.now found.old.items ++ arguments_in (rewriting it.now) pattern.now.run.now nothing_here (view it.now.old_types.now old.now)) }
    ensures known { IfOk result (λ answer. IsTrue (are_all_known (length it.now.old_types.now.shapes) (trees_in found.old.items)) → IsTrue (are_all_known (length it.now.old_types.now.shapes) (trees_in found.new.items))) }
{
    if !it.is_same_node(body, old) {
        return Ok(false);
    }
    let parts = parts_of(alloc, &body.form)?;
    let others = parts_of(alloc, &old.form)?;
    let same = are_same_parts(alloc, it, pattern, &parts, old, &others, found)?;
    Ok(same)
}

/// Whether trees of the body are one by one parts of a node of the run, from the right.
#[cycle(body)]
fn are_same_parts<'a>(
    alloc: Global,
    it: &Comparison<'a>,
    pattern: &Pattern,
    parts: &[&Core],
    above: &Core,
    others: &[&'a Core],
    found: &mut Vec<Argument<'a>>,
) -> Result<bool, Memory>
    requires body { IsTrue (are_all_known (length it.now.new_types.now.shapes) (nows parts.now)) }
    requires old { IsTrue (are_all_known (length it.now.old_types.now.shapes) (nows others.now)) }
    ensures same { IfOk result (λ answer. IsTrue answer ↔ SameBodies (rewriting it.now) pattern.now.parameters.now pattern.now.run.now
        (label_of (view it.now.old_types.now above.now)) (spans_of (view it.now.old_types.now above.now))
        (trees (map (view it.now.new_types.now) (nows parts.now))) (trees (map (view it.now.old_types.now) (nows others.now)))) }
    ensures found { IfOk result (λ answer. IsTrue answer → seen_all it.now.old_types.now found.new.items
        ≡ seen_all it.now.old_types.now found.old.items ++ arguments_below (rewriting it.now) pattern.now.run.now
        (label_of (view it.now.old_types.now above.now)) (spans_of (view it.now.old_types.now above.now)) (trees (map (view it.now.old_types.now) (nows others.now)))) }
    ensures known { IfOk result (λ answer. IsTrue (are_all_known (length it.now.old_types.now.shapes) (trees_in found.old.items)) → IsTrue (are_all_known (length it.now.old_types.now.shapes) (trees_in found.new.items))) }
{
    if parts.len() != others.len() {
        return Ok(false);
    }
    let mut left = parts.len();
    while left > 0 {
        left -= 1;
        let same = is_same_part(alloc, it, pattern, parts[left], above, others[left], found)?;
        if !same {
            return Ok(false);
        }
    }
    Ok(true)
}

/// Whether a tree of the body is a part of a node of the run, or reads the parameter whose occurrence stands there.
#[cycle(body)]
fn is_same_part<'a>(
    alloc: Global,
    it: &Comparison<'a>,
    pattern: &Pattern,
    part: &Core,
    above: &Core,
    other: &'a Core,
    found: &mut Vec<Argument<'a>>,
) -> Result<bool, Memory>
    requires body { IsTrue (are_known (length it.now.new_types.now.shapes) part.now) }
    requires old { IsTrue (are_known (length it.now.old_types.now.shapes) other.now) }
    ensures same { IfOk result (λ answer. IsTrue answer ↔ SameBody (rewriting it.now) pattern.now.parameters.now pattern.now.run.now
        (here_below (rewriting it.now) pattern.now.run.now (label_of (view it.now.old_types.now above.now)) (spans_of (view it.now.old_types.now above.now)) (view it.now.old_types.now other.now))
        (view it.now.new_types.now part.now) (view it.now.old_types.now other.now)) }
    ensures found { IfOk result (λ answer. IsTrue answer → seen_all it.now.old_types.now found.new.items
        ≡ seen_all it.now.old_types.now found.old.items ++ arguments_in (rewriting it.now) pattern.now.run.now
        (here_below (rewriting it.now) pattern.now.run.now (label_of (view it.now.old_types.now above.now)) (spans_of (view it.now.old_types.now above.now)) (view it.now.old_types.now other.now))
        (view it.now.old_types.now other.now)) }
    ensures known { IfOk result (λ answer. IsTrue (are_all_known (length it.now.old_types.now.shapes) (trees_in found.old.items)) → IsTrue (are_all_known (length it.now.old_types.now.shapes) (trees_in found.new.items))) }
{
    let runs = it.runs.below(alloc, above, other)?;
    match pattern.run.below(above, other) {
        Some(parameter) => {
            found.push(Argument {
                parameter,
                runs,
                tree: other,
            })?;
            Ok(reads_parameter(it, pattern.parameters, parameter, part, other))
        }
        None => {
            if !runs.is_empty() {
                return Ok(false);
            }
            let same = is_same_body(alloc, it, pattern, part, other, found)?;
            Ok(same)
        }
    }
}
