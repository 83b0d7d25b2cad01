//! `sizeof`, and the operators `&&` and `||` (6.5.3.4, 6.5.13, 6.5.14).

ghost use Rattle.std.specs.Prelude.{◌≡◌, List, IfOk, map};
ghost use Rattle.dm_type.specs.declared.shape.Shape.{Shape as OneShape};
ghost use Rattle.dm_type.specs.Tables.{IsId};
ghost use Rattle.dm_tree.specs.Trees as label;
ghost use Rattle.dm_typing.specs.Fitting.{IsNumbered, AreNumbered};
ghost use Rattle.dm_typing.specs.Typing as typing;
ghost use Rattle.dm_typing.specs.Views.{Begins, type_over, view_over, known_over, source_of, setting_of, Gives, Grows};

use crate::extent::Extent;
use crate::known::Known;
use crate::looks::{are_scalars, is_complete};
use crate::typer::Typer;
use dm_int::Kind;
use dm_token::{List, Stop};
use dm_tree::Core;
use dm_type::{Shape, TypeId};

impl Typer<'_> {
    /// `sizeof` of an expression (C17).
    pub fn typed_sizeof(&self, known: &mut Known, at: Extent, operand: Core) -> Result<Core, Stop>
        requires { IsNumbered known.old.types operand }
        ensures gives { (later : List OneShape) → Begins known.new.types.shapes later → Gives (view_over later) (source_of self.now) (known_over later known.new) result
            (typing.typed_sizeof (setting_of self.now) (known_over later known.old) at (view_over later operand)) }
        ensures numbered { IfOk result (IsNumbered known.new.types) }
        ensures grows { Grows known.old known.new }
    {
        if !is_complete(known, operand.kind) {
            return Err(self.broken(17, at.inner.first));
        }
        let kind = known.intern(Shape::Integer(Kind::ULong))?;
        let made = self.sizeof_tree(at, operand, kind)?;
        Ok(made)
    }

    /// `sizeof` of a type name, with the trees in it (C17).
    pub fn typed_sizeof_name(
        &self,
        known: &mut Known,
        at: Extent,
        named: TypeId,
        constants: List<Core>,
    ) -> Result<Core, Stop>
        requires named { IsId known.old.types named }
        requires constants { AreNumbered known.old.types constants }
        ensures gives { (later : List OneShape) → Begins known.new.types.shapes later → Gives (view_over later) (source_of self.now) (known_over later known.new) result
            (typing.typed_sizeof_name (setting_of self.now) (known_over later known.old) at (type_over later named) (map (view_over later) constants)) }
        ensures numbered { IfOk result (IsNumbered known.new.types) }
        ensures grows { Grows known.old known.new }
    {
        if !is_complete(known, named) {
            return Err(self.broken(17, at.inner.first));
        }
        let kind = known.intern(Shape::Integer(Kind::ULong))?;
        let made = self.sizeof_kind(at, named, constants, kind);
        Ok(made)
    }

    /// `&&` (C26).
    pub fn typed_both(&self, known: &mut Known, at: Extent, a: Core, b: Core) -> Result<Core, Stop>
        requires left { IsNumbered known.old.types a }
        requires right { IsNumbered known.old.types b }
        ensures gives { (later : List OneShape) → Begins known.new.types.shapes later → Gives (view_over later) (source_of self.now) (known_over later known.new) result
            (typing.typed_logic (setting_of self.now) (known_over later known.old) at label.both (view_over later a) (view_over later b)) }
        ensures numbered { IfOk result (IsNumbered known.new.types) }
        ensures grows { Grows known.old known.new }
    {
        if !are_scalars(&known.types, a.kind, b.kind) {
            return Err(self.broken(26, at.inner.first));
        }
        let kind = known.intern(Shape::Integer(Kind::Int))?;
        let made = self.both(at, a, b, kind)?;
        Ok(made)
    }

    /// `||` (C26).
    pub fn typed_either(
        &self,
        known: &mut Known,
        at: Extent,
        a: Core,
        b: Core,
    ) -> Result<Core, Stop>
        requires left { IsNumbered known.old.types a }
        requires right { IsNumbered known.old.types b }
        ensures gives { (later : List OneShape) → Begins known.new.types.shapes later → Gives (view_over later) (source_of self.now) (known_over later known.new) result
            (typing.typed_logic (setting_of self.now) (known_over later known.old) at label.either (view_over later a) (view_over later b)) }
        ensures numbered { IfOk result (IsNumbered known.new.types) }
        ensures grows { Grows known.old known.new }
    {
        if !are_scalars(&known.types, a.kind, b.kind) {
            return Err(self.broken(26, at.inner.first));
        }
        let kind = known.intern(Shape::Integer(Kind::Int))?;
        let made = self.either(at, a, b, kind)?;
        Ok(made)
    }
}
