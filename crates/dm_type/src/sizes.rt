//! What objects of the types take.

ghost use Rattle.std.specs.Prelude.{◌≡◌, ◌≢◌, ◌<◌, [], Some, None, All, slice_index_or, IfSome, IfNone};
ghost use Rattle.dm_type.specs.Tables as tables;
ghost use Rattle.dm_type.specs.Layouts as layouts;
ghost use Rattle.dm_type.specs.Sound.{IsWithin};
ghost use Rattle.dm_type.specs.Wraps.{Repeats, IsOwn};

use crate::layout::Layout;
use crate::shape::{Member, Shape, TypeId};
use crate::types::Types;
use dm_int::size;

impl Types {
    /// The bytes of an object of the type. None where the type is incomplete, void, a function or an array of such a
    /// type, or takes more than `MOST_TYPE_BYTES`.
    pub fn size(&self, id: TypeId) -> Option<u64>
        requires { tables.IsId self.now id }
        ensures size { result ≡ layouts.size_of self.now (tables.type_of self.now id) }
        ensures positive { IfSome result (λ size. 0 < size) }
    {
        let layout = self.layout(id)?;
        Some(layout.size)
    }

    /// Of what the addresses of objects of the type are multiples. None where the type has no size.
    pub fn alignment(&self, id: TypeId) -> Option<u64>
        requires { tables.IsId self.now id }
        ensures { result ≡ layouts.alignment_of self.now (tables.type_of self.now id) }
    {
        let layout = self.layout(id)?;
        Some(layout.alignment)
    }

    /// What an object of the type takes. The arrays round the elements inside only multiply it.
    pub(crate) fn layout(&self, id: TypeId) -> Option<Layout>
        requires { tables.IsId self.now id }
        ensures layout { result ≡ layouts.layout_of self.now (tables.type_of self.now id) }
        ensures within { IfSome result IsWithin }
    {
        // With it the invariant of the table is known in the loop.
        let _ = &self.shapes;
        let mut count = 1u64;
        let mut element = id;
        while let Some((inner, length)) = self.wrapped(element) {
            count = count.saturating_mul(length?);
            element = inner;
        }
        self.own_layout(element)?.repeated(count)
    }

    /// What an array or a const-qualified type is made of, and how often.
    fn wrapped(&self, id: TypeId) -> Option<(TypeId, Option<u64>)>
        requires { tables.IsId self.now id }
        ensures inner { IfSome result (λ found. found.0 < id) }
        ensures length { IfSome result (λ found. tables.IsLength found.1) }
        ensures repeats { IfSome result (λ found. Repeats self.now (tables.type_of self.now id) (tables.type_of self.now found.0) found.1) }
        ensures none { IfNone result (IsOwn (slice_index_or self.now.shapes id Shape.Void)) }
    {
        match self.shape(id) {
            Shape::Array(element, length) => Some((*element, *length)),
            Shape::Const(inner) => Some((*inner, Some(1))),
            _ => None,
        }
    }

    /// What an object of a type takes that is neither an array nor const.
    fn own_layout(&self, id: TypeId) -> Option<Layout>
        requires inside { tables.IsId self.now id }
        requires own { IsOwn (slice_index_or self.now.shapes id Shape.Void) }
        ensures layout { result ≡ layouts.layout_of self.now (tables.type_of self.now id) }
        ensures within { IfSome result IsWithin }
    {
        match self.shape(id) {
            Shape::Integer(kind) => Some(Layout::scalar(size(*kind) as u64)),
            Shape::Pointer(_) => Some(Layout::pointer()),
            Shape::Struct(number) => self.content(*number)?.layout,
            _ => None,
        }
    }

    /// What a struct with these members takes.
    pub(crate) fn struct_layout(&self, members: &[Member]) -> Option<Layout>
        requires some { members.now ≢ [] }
        requires types { All (λ member. tables.IsId self.now member.kind) members.now }
        ensures layout { result ≡ layouts.struct_layout self.now members.now }
        ensures within { IfSome result IsWithin }
    {
        // With it the invariant of the table is known in the loop.
        let _ = &self.shapes;
        let mut all = Layout::empty();
        for member in members {
            let layout = self.layout(member.kind)?;
            all = all.followed_by(layout).if_fits()?;
        }
        all.padded().if_fits()
    }
}
