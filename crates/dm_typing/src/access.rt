//! What reads or writes one object (6.5.2, 6.5.3).

ghost use Rattle.std.specs.Prelude.{◌≡◌, List, IfOk, IfSome, Some, option_map};
ghost use Rattle.dm_type.specs.declared.shape.Shape.{Shape as OneShape};
ghost use Rattle.dm_type.specs.Tables.{IsId, type_of};
ghost use Rattle.dm_typing.specs.Conversions as conversions;
ghost use Rattle.dm_typing.specs.Fitting.{IsNumbered};
ghost use Rattle.dm_typing.specs.Rules as rules;
ghost use Rattle.dm_typing.specs.Typing as typing;
ghost use Rattle.dm_typing.specs.Views as views;
ghost use Rattle.dm_typing.specs.Views.{Begins, seen, view_over, known_over, source_of, setting_of, Gives, Grows};

use crate::extent::Extent;
use crate::known::Known;
use crate::looks::{complete_target, is_integer};
use crate::typer::Typer;
use crate::values::is_lvalue;
use dm_int::Op;
use dm_token::Stop;
use dm_tree::Core;
use dm_type::{Shape, TypeId};

impl Typer<'_> {
    /// `&a` (C14).
    pub fn typed_address(&self, known: &mut Known, at: Extent, operand: Core) -> Result<Core, Stop>
        requires { IsNumbered known.old.types operand }
        ensures gives { (later : List OneShape) → Begins known.new.types.shapes later → Gives (view_over later) (source_of self.now) (known_over later known.new) result
            (typing.typed_address (setting_of self.now) (known_over later known.old) at (view_over later operand)) }
        ensures numbered { IfOk result (IsNumbered known.new.types) }
        ensures grows { Grows known.old known.new }
    {
        if !is_lvalue(&operand) {
            return Err(self.broken(14, at.inner.first));
        }
        let kind = known.intern(Shape::Pointer(operand.kind))?;
        let made = self.address(at, operand, kind)?;
        Ok(made)
    }

    /// `*a` (C15).
    pub fn typed_follow(&self, known: &Known, at: Extent, operand: Core) -> Result<Core, Stop>
        requires { IsNumbered known.now.types operand }
        ensures gives { (later : List OneShape) → Begins known.now.types.shapes later → Gives (view_over later) (source_of self.now) (known_over later known.now) result
            (typing.typed_follow (setting_of self.now) (known_over later known.now) at (view_over later operand)) }
        ensures numbered { IfOk result (IsNumbered known.now.types) }
    {
        match complete_target(known, operand.kind) {
            Some(to) => {
                let made = self.follow(at, operand, to)?;
                Ok(made)
            }
            None => Err(self.broken(15, at.inner.first)),
        }
    }

    /// `a[b]` (C11).
    pub fn typed_index(&self, known: &Known, at: Extent, a: Core, b: Core) -> Result<Core, Stop>
        requires left { IsNumbered known.now.types a }
        requires right { IsNumbered known.now.types b }
        ensures gives { (later : List OneShape) → Begins known.now.types.shapes later → Gives (view_over later) (source_of self.now) (known_over later known.now) result
            (typing.typed_index (setting_of self.now) (known_over later known.now) at (view_over later a) (view_over later b)) }
        ensures numbered { IfOk result (IsNumbered known.now.types) }
    {
        match indexed(known, a.kind, b.kind) {
            Some(found) => {
                let sum = self.binary(at, Op::Add, a, b, found.0)?;
                let made = self.follow(at, sum, found.1)?;
                Ok(made)
            }
            None => Err(self.broken(11, at.inner.first)),
        }
    }
}

/// Of `a[b]`, the type of the pointer and what it points to.
pub fn indexed(known: &Known, a: TypeId, b: TypeId) -> Option<(TypeId, TypeId)>
    requires left { IsId known.now.types a }
    requires right { IsId known.now.types b }
    ensures pointer { option_map (λ found. type_of known.now.types found.0) result ≡ rules.indexed (seen known.now) (type_of known.now.types a) (type_of known.now.types b) }
    ensures target { IfSome result (λ found. conversions.complete_target (seen known.now) (type_of known.now.types found.0) ≡ Some (type_of known.now.types found.1)) }
    ensures numbered { IfSome result (λ found. IsId known.now.types found.0 × IsId known.now.types found.1) }
{
    match target_beside(known, a, b) {
        Some(to) => Some((a, to)),
        None => match target_beside(known, b, a) {
            Some(to) => Some((b, to)),
            None => None,
        },
    }
}

/// What a pointer to a complete object type points to, where an integer stands beside it.
pub fn target_beside(known: &Known, pointer: TypeId, other: TypeId) -> Option<TypeId>
    requires pointer { IsId known.now.types pointer }
    requires other { IsId known.now.types other }
    ensures target { option_map (type_of known.now.types) result ≡ views.target_beside (seen known.now) (type_of known.now.types pointer) (type_of known.now.types other) }
    ensures numbered { IfSome result (IsId known.now.types) }
{
    if is_integer(&known.types, other) {
        complete_target(known, pointer)
    } else {
        None
    }
}
