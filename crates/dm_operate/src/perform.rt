//! The step of a node by its operator.

ghost use Rattle.std.specs.Prelude.{◌≡◌, ◌∷◌, [], List, false, length, map, pos, IfOk, IsTrue};
ghost use Rattle.dm_type.specs.CTypes.{CType};
ghost use Rattle.dm_type.specs.Layouts.{size_of};
ghost use Rattle.dm_type.specs.Tables.{IsId, type_of};
ghost use Rattle.dm_tree.specs.Trees.{Label, label_of};
ghost use Rattle.dm_tree.specs.TypeNumbers.{are_known};
ghost use Rattle.dm_tree.specs.Views.{view};
ghost use Rattle.dm_meaning.specs.Operations as operations;
ghost use Rattle.dm_meaning.specs.Operations.{World};
ghost use Rattle.dm_meaning.specs.Programs.{or_zero};
ghost use Rattle.dm_meaning.specs.Values as values;
ghost use Rattle.dm_value.specs.Places.{view_of_at};
ghost use Rattle.dm_value.specs.Views.{view_of_value};
ghost use Rattle.dm_memory.specs.declared.blocks.Block.{Block};
ghost use Rattle.dm_memory.specs.Blocks.{AreKnown};
ghost use Rattle.dm_operate.specs.declared.operator.Operator.TheVariants as variant;
ghost use Rattle.dm_operate.specs.Evaluations.{asks_names, view_of_did, view_of_evaluation, view_of_operands, AreKnownOperands, Does};
ghost use Rattle.dm_operate.specs.Operators.{IsKnownLeaf, IsKnownOperator, Stands, StandsLeaf, StandsOnPlace, StandsOnValue};

use crate::conversions::convert;
use crate::evaluation::{Did, Evaluation, Operand, Operands};
use crate::numbers::number;
use crate::operator::{Leaf, OnPlace, OnValue, Operator, operator_of};
use crate::places::{address, decay, follow, literal, member, read};
use crate::signs::sign;
use crate::stores::{count, store, update};
use crate::sums::combine;
use dm_int::Op;
use dm_layout::Layout;
use dm_memory::Blocks;
use dm_token::Memory;
use dm_tree::Core;
use dm_type::TypeId;
use dm_value::{At, Value};
use std::alloc::Global;

/// The step of a node whose operands are evaluated, beside what stores that are unsequenced with it have locked. What the name of
/// an object or an enumerator stands for is looked up before: [`designated`](crate::designated) and [`number`] are their steps.
pub fn operate(
    alloc: Global,
    layout: &Layout,
    blocks: &mut Blocks,
    locks: &[At],
    node: &Core,
    operands: Operands<'_>,
) -> Result<Did, Memory>
    requires known { AreKnown layout.now blocks.old }
    requires node { IsTrue (are_known (length layout.now.shapes) node.now) }
    requires operands { AreKnownOperands layout.now operands }
    requires names { asks_names (label_of (view layout.now node.now)) ≡ false }
    ensures did { IfOk result (λ did. Does layout.now blocks.old blocks.new did (λ scene world. operations.operate scene world (map view_of_at locks.now)
        (label_of (view layout.now node.now)) (type_of layout.now node.now.kind) (view_of_operands layout.now operands.entry))) }
    ensures known { AreKnown layout.now blocks.new }
{
    let own = operator_of(layout.types(), &node.form)?;
    let did = performed(alloc, layout, blocks, locks, node.kind, own, operands)?;
    Ok(did)
}

/// The step of an operator.
fn performed(
    alloc: Global,
    layout: &Layout,
    blocks: &mut Blocks,
    locks: &[At],
    kind: TypeId,
    own: Operator,
    operands: Operands<'_>,
) -> Result<Did, Memory>
    requires kind { IsId layout.now kind }
    requires known { AreKnown layout.now blocks.old }
    requires operator { IsKnownOperator layout.now own }
    requires operands { AreKnownOperands layout.now operands }
    ensures did { (label : Label) → Stands layout.now own label → asks_names label ≡ false
        → IfOk result (λ did. Does layout.now blocks.old blocks.new did (λ scene world. operations.operate scene world (map view_of_at locks.now)
        label (type_of layout.now kind) (view_of_operands layout.now operands.entry))) }
    ensures known { AreKnown layout.now blocks.new }
{
    match own {
        Operator::Leaf(leaf) => Ok(perform_leaf(layout, kind, leaf)),
        Operator::Convert => match operands.one() {
            Some(a) => Ok(convert(layout, blocks, kind, &a.result)?),
            None => Ok(Did::ill()),
        },
        Operator::Decay => on_decay(alloc, layout, blocks, kind, operands),
        Operator::Member(number) => on_member(alloc, layout, blocks, kind, number, operands),
        Operator::Value(own) => on_value(layout, blocks, kind, own, operands),
        Operator::Place(own) => on_place(alloc, layout, blocks, locks, kind, own, operands),
        Operator::Binary(op) => on_both(alloc, layout, blocks, kind, op, operands),
        Operator::Store => on_store(alloc, layout, blocks, locks, kind, operands),
        Operator::Update(op, works) => {
            on_update(alloc, layout, blocks, locks, kind, op, works, operands)
        }
        Operator::Other => Ok(Did::ill()),
    }
}

/// The step of an array that decays, whatever its operands are.
fn on_decay(
    alloc: Global,
    layout: &Layout,
    blocks: &Blocks,
    kind: TypeId,
    operands: Operands<'_>,
) -> Result<Did, Memory>
    requires kind { IsId layout.now kind }
    requires known { AreKnown layout.now blocks.now }
    requires operands { AreKnownOperands layout.now operands }
    ensures { (label : Label) (locks : List values.At) → Stands layout.now variant.Decay label → asks_names label ≡ false
        → IfOk result (λ did. Does layout.now blocks.now blocks.now did (λ scene world. operations.operate scene world locks
        label (type_of layout.now kind) (view_of_operands layout.now operands.entry))) }
{
    match operands.one() {
        Some(a) => decay(alloc, layout, blocks, a),
        None => Ok(Did::ill()),
    }
}

/// The step of `.` and `->`.
fn on_member(
    alloc: Global,
    layout: &Layout,
    blocks: &Blocks,
    kind: TypeId,
    number: u32,
    operands: Operands<'_>,
) -> Result<Did, Memory>
    requires kind { IsId layout.now kind }
    requires known { AreKnown layout.now blocks.now }
    requires operands { AreKnownOperands layout.now operands }
    ensures { (label : Label) (locks : List values.At) → Stands layout.now (variant.Member number) label → asks_names label ≡ false
        → IfOk result (λ did. Does layout.now blocks.now blocks.now did (λ scene world. operations.operate scene world locks
        label (type_of layout.now kind) (view_of_operands layout.now operands.entry))) }
{
    match operands.one() {
        Some(a) => member(alloc, layout, blocks, number, a),
        None => Ok(Did::ill()),
    }
}

/// The step of an operator on a value, whatever its operands are.
fn on_value(
    layout: &Layout,
    blocks: &Blocks,
    kind: TypeId,
    own: OnValue,
    operands: Operands<'_>,
) -> Result<Did, Memory>
    requires { IsId layout.now kind }
    ensures { (label : Label) (locks : List values.At) → Stands layout.now (variant.Value own) label → asks_names label ≡ false
        → IfOk result (λ did. Does layout.now blocks.now blocks.now did (λ scene world. operations.operate scene world locks
        label (type_of layout.now kind) (view_of_operands layout.now operands.entry))) }
{
    match operands.value() {
        Some(value) => Ok(perform_on_value(layout, blocks, kind, own, value)?),
        None => Ok(Did::ill()),
    }
}

/// The step of an operator on an object, whatever its operands are.
fn on_place(
    alloc: Global,
    layout: &Layout,
    blocks: &mut Blocks,
    locks: &[At],
    kind: TypeId,
    own: OnPlace,
    operands: Operands<'_>,
) -> Result<Did, Memory>
    requires kind { IsId layout.now kind }
    requires known { AreKnown layout.now blocks.old }
    ensures did { (label : Label) → Stands layout.now (variant.Place own) label → asks_names label ≡ false
        → IfOk result (λ did. Does layout.now blocks.old blocks.new did (λ scene world. operations.operate scene world (map view_of_at locks.now)
        label (type_of layout.now kind) (view_of_operands layout.now operands.entry))) }
    ensures known { AreKnown layout.now blocks.new }
{
    match operands.place() {
        Some(at) => Ok(perform_on_place(alloc, layout, blocks, locks, kind, own, at)?),
        None => Ok(Did::ill()),
    }
}

/// The step of a binary operator, whatever its operands are.
fn on_both(
    alloc: Global,
    layout: &Layout,
    blocks: &Blocks,
    kind: TypeId,
    op: Op,
    operands: Operands<'_>,
) -> Result<Did, Memory>
    requires kind { IsId layout.now kind }
    requires known { AreKnown layout.now blocks.now }
    requires operands { AreKnownOperands layout.now operands }
    ensures { (label : Label) (locks : List values.At) → Stands layout.now (variant.Binary op) label → asks_names label ≡ false
        → IfOk result (λ did. Does layout.now blocks.now blocks.now did (λ scene world. operations.operate scene world locks
        label (type_of layout.now kind) (view_of_operands layout.now operands.entry))) }
{
    match operands.two() {
        Some((a, b)) => perform_binary(alloc, layout, blocks, kind, op, a, b),
        None => Ok(Did::ill()),
    }
}

/// The step of an assignment, whatever its operands are.
fn on_store(
    alloc: Global,
    layout: &Layout,
    blocks: &mut Blocks,
    locks: &[At],
    kind: TypeId,
    operands: Operands<'_>,
) -> Result<Did, Memory>
    requires kind { IsId layout.now kind }
    requires known { AreKnown layout.now blocks.old }
    requires operands { AreKnownOperands layout.now operands }
    ensures did { (label : Label) → Stands layout.now (variant.Store) label → asks_names label ≡ false
        → IfOk result (λ did. Does layout.now blocks.old blocks.new did (λ scene world. operations.operate scene world (map view_of_at locks.now)
        label (type_of layout.now kind) (view_of_operands layout.now operands.entry))) }
    ensures known { AreKnown layout.now blocks.new }
{
    match operands.two() {
        Some((a, b)) => Ok(perform_store(alloc, layout, blocks, locks, kind, a, b)?),
        None => Ok(Did::ill()),
    }
}

/// The step of a compound assignment, whatever its operands are.
fn on_update(
    alloc: Global,
    layout: &Layout,
    blocks: &mut Blocks,
    locks: &[At],
    kind: TypeId,
    op: Op,
    works: TypeId,
    operands: Operands<'_>,
) -> Result<Did, Memory>
    requires kind { IsId layout.now kind }
    requires known { AreKnown layout.now blocks.old }
    requires works { IsId layout.now works }
    requires operands { AreKnownOperands layout.now operands }
    ensures did { (label : Label) → Stands layout.now (variant.Update op works) label → asks_names label ≡ false
        → IfOk result (λ did. Does layout.now blocks.old blocks.new did (λ scene world. operations.operate scene world (map view_of_at locks.now)
        label (type_of layout.now kind) (view_of_operands layout.now operands.entry))) }
    ensures known { AreKnown layout.now blocks.new }
{
    match operands.two() {
        Some((a, b)) => Ok(perform_update(alloc, layout, blocks, locks, kind, op, works, a, b)?),
        None => Ok(Did::ill()),
    }
}

/// The step of an operator without operands.
fn perform_leaf(layout: &Layout, kind: TypeId, own: Leaf) -> Did
    requires kind { IsId layout.now kind }
    requires operator { IsKnownLeaf layout.now own }
    ensures { (label : Label) (blocks : List Block) (locks : List values.At) (operands : List operations.Operand) → StandsLeaf layout.now own label
        → Does layout.now blocks blocks result (λ scene world. operations.operate scene world locks label (type_of layout.now kind) operands) }
{
    match own {
        Leaf::Number(value) => number(layout, kind, value),
        Leaf::Literal(bytes, unit) => literal(bytes, unit),
        Leaf::Function => Did::plain(Value::Unset),
        Leaf::SizeofKind(measured) => size(layout, kind, measured),
    }
}

/// The size of a type, as a number.
fn size(layout: &Layout, kind: TypeId, measured: TypeId) -> Did
    requires kind { IsId layout.now kind }
    requires measured { IsId layout.now measured }
    ensures { (world : World) → view_of_did world result ≡ operations.number_alone world (type_of layout.now kind) (pos (or_zero (size_of layout.now (type_of layout.now measured)))) }
{
    let size = layout.types().size(measured).unwrap_or(0);
    number(layout, kind, i128::from(size))
}

/// The step of an operator on a value.
fn perform_on_value(
    layout: &Layout,
    blocks: &Blocks,
    kind: TypeId,
    own: OnValue,
    value: &Value,
) -> Result<Did, Memory>
    requires kind { IsId layout.now kind }
    ensures { (label : Label) (type : CType) (locks : List values.At) → StandsOnValue own label
        → IfOk result (λ did. Does layout.now blocks.now blocks.now did (λ scene world. operations.operate scene world locks
        label (type_of layout.now kind) (record { kind = type; result = operations.of_value (view_of_value value.now) } ∷ []))) }
{
    match own {
        OnValue::Follow => Ok(follow(blocks, value)?),
        OnValue::Unary(own) => Ok(sign(layout, blocks, kind, own, value)),
    }
}

/// The step of an operator on an object.
fn perform_on_place(
    alloc: Global,
    layout: &Layout,
    blocks: &mut Blocks,
    locks: &[At],
    kind: TypeId,
    own: OnPlace,
    at: &At,
) -> Result<Did, Memory>
    requires kind { IsId layout.now kind }
    requires known { AreKnown layout.now blocks.old }
    ensures did { (label : Label) (type : CType) → StandsOnPlace own label
        → IfOk result (λ did. Does layout.now blocks.old blocks.new did (λ scene world. operations.operate scene world (map view_of_at locks.now)
        label (type_of layout.now kind) (record { kind = type; result = operations.designates (view_of_at at.now) } ∷ []))) }
    ensures known { AreKnown layout.now blocks.new }
{
    match own {
        OnPlace::Read => read(alloc, layout, blocks, locks, kind, at),
        OnPlace::Address => {
            let same = at.copy()?;
            Ok(address(alloc, same)?)
        }
        OnPlace::Count { plus, before } => {
            count(alloc, layout, blocks, locks, kind, plus, before, at)
        }
    }
}

/// A binary operator.
fn perform_binary(
    alloc: Global,
    layout: &Layout,
    blocks: &Blocks,
    kind: TypeId,
    op: Op,
    a: &Operand,
    b: &Operand,
) -> Result<Did, Memory>
    requires kind { IsId layout.now kind }
    requires left { IsId layout.now a.now.kind }
    requires known { AreKnown layout.now blocks.now }
    ensures { IfOk result (λ did. Does layout.now blocks.now blocks.now did (λ scene world. operations.on_value (view_of_evaluation a.now.result)
        (λ x. operations.on_value (view_of_evaluation b.now.result) (operations.combined scene world (type_of layout.now kind) (type_of layout.now a.now.kind) op x)))) }
{
    let Evaluation::Value(left) = &a.result else {
        return Ok(Did::ill());
    };
    let Evaluation::Value(right) = &b.result else {
        return Ok(Did::ill());
    };
    combine(alloc, layout, blocks, kind, a.kind, op, left, right)
}

/// An assignment (6.5.16.1).
fn perform_store(
    alloc: Global,
    layout: &Layout,
    blocks: &mut Blocks,
    locks: &[At],
    kind: TypeId,
    a: &Operand,
    b: &Operand,
) -> Result<Did, Memory>
    requires kind { IsId layout.now kind }
    requires known { AreKnown layout.now blocks.old }
    ensures did { IfOk result (λ did. Does layout.now blocks.old blocks.new did (λ scene world. operations.on_place (view_of_evaluation a.now.result)
        (λ at. operations.on_set (view_of_evaluation b.now.result) (operations.store_at scene world (map view_of_at locks.now) (type_of layout.now kind) at)))) }
    ensures known { AreKnown layout.now blocks.new }
{
    match &a.result {
        Evaluation::Object(at) => {
            let did = store(alloc, layout, blocks, locks, kind, at, &b.result)?;
            Ok(did)
        }
        Evaluation::Value(_) => Ok(Did::ill()),
    }
}

/// A compound assignment (6.5.16.2).
fn perform_update(
    alloc: Global,
    layout: &Layout,
    blocks: &mut Blocks,
    locks: &[At],
    kind: TypeId,
    op: Op,
    works: TypeId,
    a: &Operand,
    b: &Operand,
) -> Result<Did, Memory>
    requires kind { IsId layout.now kind }
    requires works { IsId layout.now works }
    requires known { AreKnown layout.now blocks.old }
    ensures did { IfOk result (λ did. Does layout.now blocks.old blocks.new did (λ scene world. operations.on_place (view_of_evaluation a.now.result)
        (λ at. operations.on_value (view_of_evaluation b.now.result)
        (operations.update_at scene world (map view_of_at locks.now) (type_of layout.now kind) op (type_of layout.now works) at)))) }
    ensures known { AreKnown layout.now blocks.new }
{
    match &a.result {
        Evaluation::Object(at) => {
            let did = update_place(alloc, layout, blocks, locks, kind, op, works, at, &b.result)?;
            Ok(did)
        }
        Evaluation::Value(_) => Ok(Did::ill()),
    }
}

/// A compound assignment to an object.
fn update_place(
    alloc: Global,
    layout: &Layout,
    blocks: &mut Blocks,
    locks: &[At],
    kind: TypeId,
    op: Op,
    works: TypeId,
    at: &At,
    right: &Evaluation,
) -> Result<Did, Memory>
    requires kind { IsId layout.now kind }
    requires works { IsId layout.now works }
    requires known { AreKnown layout.now blocks.old }
    ensures did { IfOk result (λ did. Does layout.now blocks.old blocks.new did (λ scene world. operations.on_value (view_of_evaluation right.now)
        (operations.update_at scene world (map view_of_at locks.now) (type_of layout.now kind) op (type_of layout.now works) (view_of_at at.now)))) }
    ensures known { AreKnown layout.now blocks.new }
{
    match right {
        Evaluation::Value(right) => {
            let did = update(alloc, layout, blocks, locks, kind, op, works, at, right)?;
            Ok(did)
        }
        Evaluation::Object(_) => Ok(Did::ill()),
    }
}
