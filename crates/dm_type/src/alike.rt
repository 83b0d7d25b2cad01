//! Which types are compatible (6.2.7).

ghost use Rattle.std.specs.Prelude.{◌≡◌, ◌<◌, ◌≤◌, ◌&&◌, All, length, map};
ghost use Rattle.dm_type.specs.Tables as tables;
ghost use Rattle.dm_type.specs.CTypes.{bare};
ghost use Rattle.dm_type.specs.Alike as alike;
ghost use Rattle.dm_type.specs.Comparing.{Means, IsUnder, match_lists};

use crate::shape::{Shape, TypeId};
use crate::types::Types;

/// How two types compare.
#[derive(Clone, Copy)]
pub(crate) enum Compared {
    /// They are compatible, or they aren't.
    Known(bool),
    /// As these two do, which they are made of.
    Like(TypeId, TypeId),
}

impl Types {
    /// Whether two types are compatible (6.2.7). It takes no memory. Its time is that of reading the types written out.
    /// Of two pairs of parts it calls itself for the one that has fewer, so that the stack is meant to grow with the
    /// logarithm of their length. That rests on counts of which no clause speaks; what is proved is that it ends.
    #[cycle(comparison)]
    pub fn compatible(&self, a: TypeId, b: TypeId) -> bool
        requires left { tables.IsId self.now a }
        requires right { tables.IsId self.now b }
        ensures { result ≡ alike.are_compatible (tables.type_of self.now a) (tables.type_of self.now b) }
    {
        let mut left = a;
        let mut right = b;
        loop {
            match self.compared(left, right) {
                Compared::Known(answer) => return answer,
                Compared::Like(inner, other) => {
                    left = inner;
                    right = other;
                }
            }
        }
    }

    /// Compares two types but for one pair of types that they are made of.
    #[cycle(comparison)]
    fn compared(&self, a: TypeId, b: TypeId) -> Compared
        requires left { tables.IsId self.now a }
        requires right { tables.IsId self.now b }
        ensures means { Means self.now result (alike.are_compatible (tables.type_of self.now a) (tables.type_of self.now b)) }
        ensures under { IsUnder a result }
    {
        match (self.shape(a), self.shape(b)) {
            (Shape::Void, Shape::Void) => Compared::Known(true),
            (Shape::Integer(kind), Shape::Integer(other)) => Compared::Known(kind == other),
            (Shape::Pointer(inner), Shape::Pointer(other))
            | (Shape::Const(inner), Shape::Const(other)) => Compared::Like(*inner, *other),
            (Shape::Array(inner, length), Shape::Array(other, count)) => {
                if lengths_agree(*length, *count) {
                    Compared::Like(*inner, *other)
                } else {
                    Compared::Known(false)
                }
            }
            (Shape::Struct(number), Shape::Struct(other)) => Compared::Known(number == other),
            (Shape::Function(first, parameters), Shape::Function(second, others)) => {
                self.functions(a, (*first, *second), parameters.items(), others.items())
            }
            _ => Compared::Known(false),
        }
    }

    /// Compares the results and the parameters of two functions but for one of the longest pairs, written out.
    #[cycle(comparison)]
    fn functions(
        &self,
        limit: TypeId,
        results: (TypeId, TypeId),
        parameters: &[TypeId],
        others: &[TypeId],
    ) -> Compared
        requires limit { limit < length self.now.shapes }
        requires left { (results.0 < limit) × All (λ id. id < limit) parameters.now }
        requires right { tables.IsId self.now results.1 × All (tables.IsId self.now) others.now }
        ensures means { Means self.now result (alike.are_compatible (tables.type_of self.now results.0) (tables.type_of self.now results.1)
            && match_lists (map (tables.type_of self.now) parameters.now) (map (tables.type_of self.now) others.now)) }
        ensures under { IsUnder limit result }
    {
        if parameters.len() != others.len() {
            return Compared::Known(false);
        }
        let (mut left, mut right) = results;
        for (i, parameter) in parameters.iter().enumerate() {
            let inner = self.bare(*parameter);
            let other = self.bare(others[i]);
            let is_longer = self.parts(left) < self.parts(inner);
            let (shorter, against) = if is_longer {
                (left, right)
            } else {
                (inner, other)
            };
            if !self.compatible(shorter, against) {
                return Compared::Known(false);
            }
            if is_longer {
                left = inner;
                right = other;
            }
        }
        Compared::Like(left, right)
    }

    /// A type without its own const.
    pub(crate) fn bare(&self, id: TypeId) -> TypeId
        requires { tables.IsId self.now id }
        ensures typed { tables.Has self.now result (bare (tables.type_of self.now id)) }
        ensures below { result ≤ id }
    {
        match self.shape(id) {
            Shape::Const(inner) => *inner,
            _ => id,
        }
    }
}

/// Whether two lengths of arrays may be one.
fn lengths_agree(length: Option<u64>, other: Option<u64>) -> bool
    ensures { result ≡ alike.lengths_agree length other }
{
    match (length, other) {
        (Some(length), Some(other)) => length == other,
        _ => true,
    }
}
