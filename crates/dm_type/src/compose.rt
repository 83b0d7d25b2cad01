//! Composite types (6.2.7).

ghost use Rattle.std.specs.Prelude.{◌≡◌, ◌<◌, ◌≤◌, ◌+◌, ◌++◌, ◌∷◌, [], All, length, map, IsTrue, IsSome, IfOk, OnOk, OnErr, Some};
ghost use Rattle.dm_type.specs.Tables as tables;
ghost use Rattle.dm_type.specs.CTypes.{CType, all_of};
ghost use Rattle.dm_type.specs.Alike as alike;
ghost use Rattle.dm_type.specs.Writing as writing;
ghost use Rattle.dm_type.specs.Composing as composing;

use crate::shape::{Shape, TypeId};
use crate::types::Types;
use dm_token::{List, Memory};

/// What makes a type of the types that are made already.
#[derive(Clone, Copy)]
pub(crate) enum Step {
    /// This one.
    Is(TypeId),
    /// A pointer to the last one.
    Pointer,
    /// An array of the last one.
    Array(Option<u64>),
    /// The const-qualified version of the last one.
    Const,
    /// A function whose result is the last one, with so many before that as its parameters, the first of them last.
    Function(usize),
}

impl Types {
    /// The composite type of two compatible types (6.2.7p3). After an `Err` nothing is changed. Its time is that of
    /// reading the types written out, and deep types take no more of the stack.
    pub fn composite(&mut self, a: TypeId, b: TypeId) -> Result<TypeId, Memory>
        requires left { tables.IsId self.old a }
        requires right { tables.IsId self.old b }
        requires compatible { IsTrue (alike.are_compatible (tables.type_of self.old a) (tables.type_of self.old b)) }
        ensures typed { IfOk result (λ id. tables.Has self.new id (alike.composite (tables.type_of self.old a) (tables.type_of self.old b))) }
        ensures kept { OnOk result (tables.Extends self.old self.new) }
        ensures distinct { OnOk result (tables.AreDistinct self.new) }
        ensures err { OnErr result (self.new ≡ self.old) }
    {
        let steps = self.steps_to_composite(a, b)?;
        let before = self.shapes.len();
        match self.carry_out(steps) {
            Ok(id) => Ok(id),
            Err(memory) => {
                self.shapes.truncate(before);
                self.parts.truncate(before);
                Err(memory)
            }
        }
    }

    /// The steps that make the composite type of two types, the last of them first.
    fn steps_to_composite(&self, a: TypeId, b: TypeId) -> Result<Vec<Step>, Memory>
        requires left { tables.IsId self.now a }
        requires right { tables.IsId self.now b }
        ensures makes { IfOk result (λ steps. composing.carried_out self.now steps.items [] ≡ Some (alike.composite (tables.type_of self.now a) (tables.type_of self.now b) ∷ [])) }
        ensures over { IfOk result (λ steps. All (composing.IsOver self.now) steps.items) }
    {
        let alloc = *self.parts.allocator();
        let mut steps = Vec::new(alloc);
        let mut pairs = Vec::new(alloc);
        pairs.push((a, b))?;
        while let Some(pair) = pairs.pop() {
            let step = self.last_step(pair, &mut pairs)?;
            steps.push(step)?;
        }
        Ok(steps)
    }

    /// The last step to the composite type of a pair of types. The pairs whose composite types it takes go behind the
    /// others.
    fn last_step(
        &self,
        pair: (TypeId, TypeId),
        pairs: &mut Vec<(TypeId, TypeId)>,
    ) -> Result<Step, Memory>
        requires pair { composing.IsPair self.now pair }
        requires pairs { All (composing.IsPair self.now) pairs.old.items }
        ensures makes { IfOk result (λ step. composing.applied self.now step (composing.wanted self.now pairs.new.items)
            ≡ Some (composing.composed self.now pair ∷ composing.wanted self.now pairs.old.items)) }
        ensures over { IfOk result (composing.IsOver self.now) }
        ensures pairs { OnOk result (All (composing.IsPair self.now) pairs.new.items) }
        ensures work { OnOk result (composing.work_of self.now pairs.new.items < composing.work_of self.now pairs.old.items + writing.work (tables.type_of self.now pair.0)) }
    {
        let (a, b) = pair;
        match (self.shape(a), self.shape(b)) {
            (Shape::Pointer(inner), Shape::Pointer(other)) => {
                pairs.push((*inner, *other))?;
                Ok(Step::Pointer)
            }
            (Shape::Array(inner, length), Shape::Array(other, count)) => {
                pairs.push((*inner, *other))?;
                Ok(Step::Array(known_length(*length, *count)))
            }
            (Shape::Const(inner), Shape::Const(other)) => {
                pairs.push((*inner, *other))?;
                Ok(Step::Const)
            }
            (Shape::Function(first, parameters), Shape::Function(second, others)) => {
                let count = self.pair_up(parameters.items(), others.items(), pairs)?;
                pairs.push((*first, *second))?;
                Ok(Step::Function(count))
            }
            _ => Ok(Step::Is(a)),
        }
    }

    /// Puts the pairs of parameters, without the const of each, behind the others, the first of them last. The result
    /// is how many there are.
    fn pair_up(
        &self,
        parameters: &[TypeId],
        others: &[TypeId],
        pairs: &mut Vec<(TypeId, TypeId)>,
    ) -> Result<usize, Memory>
        requires left { All (tables.IsId self.now) parameters.now }
        requires right { All (tables.IsId self.now) others.now }
        requires pairs { All (composing.IsPair self.now) pairs.old.items }
        ensures wanted { OnOk result (composing.wanted self.now pairs.new.items
            ≡ composing.composites (map (tables.type_of self.now) parameters.now) (map (tables.type_of self.now) others.now) ++ composing.wanted self.now pairs.old.items) }
        ensures counted { IfOk result (λ count. length (composing.composites (map (tables.type_of self.now) parameters.now) (map (tables.type_of self.now) others.now)) ≡ count) }
        ensures pairs { OnOk result (All (composing.IsPair self.now) pairs.new.items) }
        ensures work { OnOk result (composing.work_of self.now pairs.new.items ≤ composing.work_of self.now pairs.old.items + writing.works (all_of (map (tables.type_of self.now) parameters.now))) }
    {
        let count = parameters.len().min(others.len());
        for at in (0..count).rev() {
            let one = self.bare(parameters[at]);
            let other = self.bare(others[at]);
            pairs.push((one, other))?;
        }
        Ok(count)
    }

    /// The type that steps make, the last of them first. It may leave more types after an `Err`.
    fn carry_out(&mut self, steps: Vec<Step>) -> Result<TypeId, Memory>
        requires makes { (type : CType) × (composing.carried_out self.old steps.items [] ≡ Some (type ∷ [])) }
        requires over { All (composing.IsOver self.old) steps.items }
        ensures inside { IfOk result (tables.IsId self.new) }
        ensures typed { IfOk result (λ id. composing.carried_out self.old steps.items [] ≡ Some (tables.type_of self.new id ∷ [])) }
        ensures kept { tables.Extends self.old self.new }
        ensures distinct { OnOk result (tables.AreDistinct self.new) }
    {
        let mut steps = steps;
        let mut made = Vec::new(*self.parts.allocator());
        while let Some(step) = steps.pop() {
            let id = self.carry(step, &mut made)?;
            made.push(id)?;
        }
        Ok(made[0])
    }

    /// The type that a step makes of the last ones made, which it takes away.
    fn carry(&mut self, step: Step, made: &mut Vec<TypeId>) -> Result<TypeId, Memory>
        requires over { composing.IsOver self.old step }
        requires made { All (tables.IsId self.old) made.old.items }
        requires enough { IsSome (composing.applied self.old step (composing.stacked self.old made.old.items)) }
        ensures typed { IfOk result (λ id. composing.applied self.old step (composing.stacked self.old made.old.items) ≡ Some (composing.stacked self.new (made.new.items ++ id ∷ []))) }
        ensures inside { IfOk result (λ id. All (tables.IsId self.new) (made.new.items ++ id ∷ [])) }
        ensures kept { tables.Extends self.old self.new }
        ensures distinct { OnOk result (tables.AreDistinct self.new) }
    {
        match step {
            Step::Is(id) => {
                // Says that the types of the table differ.
                let _ = self.shape(id);
                Ok(id)
            }
            Step::Pointer => {
                let target = last_of(made);
                let id = self.intern(Shape::Pointer(target))?;
                Ok(id)
            }
            Step::Array(length) => {
                let element = last_of(made);
                let id = self.intern(Shape::Array(element, length))?;
                Ok(id)
            }
            Step::Const => {
                let plain = last_of(made);
                let id = self.intern(Shape::Const(plain))?;
                Ok(id)
            }
            Step::Function(count) => {
                let answer = last_of(made);
                let parameters = self.last_ones(made, count)?;
                let id = self.intern(Shape::Function(answer, parameters))?;
                Ok(id)
            }
        }
    }

    /// So many of the last types made, the last of them first.
    fn last_ones(&self, made: &mut Vec<TypeId>, count: usize) -> Result<List<TypeId>, Memory>
        requires enough { count ≤ length made.old.items }
        requires made { All (tables.IsId self.now) made.old.items }
        ensures stacked { IfOk result (λ taken. composing.stacked self.now made.old.items ≡ map (tables.type_of self.now) taken ++ composing.stacked self.now made.new.items) }
        ensures counted { IfOk result (λ taken. length taken ≡ count) }
        ensures taken { IfOk result (All (tables.IsId self.now)) }
        ensures made { All (tables.IsId self.now) made.new.items }
    {
        let mut taken = Vec::new(*self.parts.allocator());
        for _ in 0..count {
            taken.push(last_of(made))?;
        }
        Ok(List::from_vec(taken))
    }
}

/// The last of the types made.
fn last_of(made: &mut Vec<TypeId>) -> TypeId
    requires { 0 < length made.old.items }
    ensures { made.old.items ≡ made.new.items ++ result ∷ [] }
{
    made.pop().unwrap()
}

/// The length that is known, if any.
fn known_length(length: Option<u64>, other: Option<u64>) -> Option<u64>
    ensures { result ≡ alike.known_length length other }
{
    match length {
        Some(_) => length,
        None => other,
    }
}
