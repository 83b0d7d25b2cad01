//! Nodes of typed trees.

ghost use Rattle.std.specs.Prelude.{◌≡◌, ℕ, ◌&&◌, nat_lt, [], ◌∷◌, map, IfOk};
ghost use Rattle.dm_type.specs.Tables.{Table, type_of};
ghost use Rattle.dm_tree.specs.Trees as label;
ghost use Rattle.dm_tree.specs.TypeNumbers.{are_known, are_known_in_form, all_pass};
ghost use Rattle.dm_tree.specs.Views.{view, node_of, opened_form};
ghost use Rattle.dm_typing.specs.Known.{place_at};
ghost use Rattle.dm_typing.specs.Conversions as conversions;
ghost use Rattle.dm_typing.specs.Views.{source_of};

use crate::extent::Extent;
use crate::typer::Typer;
use dm_int::Op;
use dm_token::{Boxed, List, Memory};
use dm_tree::{Core, Form, Sign};
use dm_type::TypeId;

impl Typer<'_> {
    /// The node of a piece of syntax.
    pub fn made(&self, at: Extent, form: Form, kind: TypeId) -> Core
        ensures view { (types : Table) → view types result ≡ node_of (opened_form types form) (type_of types kind) at.inner at.outer (place_at (source_of self.now) at.inner.first) }
        ensures known { (n : ℕ) → are_known n result ≡ (nat_lt kind n && are_known_in_form n form) }
    {
        Core {
            form,
            kind,
            inner: at.inner,
            outer: at.outer,
            place: self.place(at.inner.first),
        }
    }

    /// A tree below a node.
    pub fn boxed(&self, core: Core) -> Result<Boxed<Core>, Memory>
        ensures { IfOk result (λ boxed. boxed ≡ core) }
    {
        Boxed::new(self.alloc, core)
    }

    /// Unary `&`.
    pub fn address(&self, at: Extent, operand: Core, kind: TypeId) -> Result<Core, Memory>
        ensures view { IfOk result (λ core. (types : Table) → view types core ≡ conversions.made (source_of self.now) at label.address (type_of types kind) (view types operand ∷ [])) }
        ensures known { IfOk result (λ core. (n : ℕ) → are_known n core ≡ (nat_lt kind n && are_known n operand)) }
    {
        let form = Form::Address(self.boxed(operand)?);
        Ok(self.made(at, form, kind))
    }

    /// Unary `*`.
    pub fn follow(&self, at: Extent, operand: Core, kind: TypeId) -> Result<Core, Memory>
        ensures view { IfOk result (λ core. (types : Table) → view types core ≡ conversions.made (source_of self.now) at label.follow (type_of types kind) (view types operand ∷ [])) }
        ensures known { IfOk result (λ core. (n : ℕ) → are_known n core ≡ (nat_lt kind n && are_known n operand)) }
    {
        let form = Form::Follow(self.boxed(operand)?);
        Ok(self.made(at, form, kind))
    }

    /// A member by its number.
    pub fn member(&self, at: Extent, n: u32, whole: Core, kind: TypeId) -> Result<Core, Memory>
        ensures view { IfOk result (λ core. (types : Table) → view types core ≡ conversions.made (source_of self.now) at (label.member n) (type_of types kind) (view types whole ∷ [])) }
        ensures known { IfOk result (λ core. (count : ℕ) → are_known count core ≡ (nat_lt kind count && are_known count whole)) }
    {
        let form = Form::Member(self.boxed(whole)?, n);
        Ok(self.made(at, form, kind))
    }

    /// A sign.
    pub fn unary(&self, at: Extent, sign: Sign, operand: Core, kind: TypeId) -> Result<Core, Memory>
        ensures view { IfOk result (λ core. (types : Table) → view types core ≡ conversions.made (source_of self.now) at (label.unary sign) (type_of types kind) (view types operand ∷ [])) }
        ensures known { IfOk result (λ core. (n : ℕ) → are_known n core ≡ (nat_lt kind n && are_known n operand)) }
    {
        let form = Form::Unary(sign, self.boxed(operand)?);
        Ok(self.made(at, form, kind))
    }

    /// `sizeof` of an expression.
    pub fn sizeof_tree(&self, at: Extent, operand: Core, kind: TypeId) -> Result<Core, Memory>
        ensures view { IfOk result (λ core. (types : Table) → view types core ≡ conversions.made (source_of self.now) at label.sizeof_tree (type_of types kind) (view types operand ∷ [])) }
        ensures known { IfOk result (λ core. (n : ℕ) → are_known n core ≡ (nat_lt kind n && are_known n operand)) }
    {
        let form = Form::SizeofTree(self.boxed(operand)?);
        Ok(self.made(at, form, kind))
    }

    /// `++` or `--`.
    pub fn count(
        &self,
        at: Extent,
        plus: bool,
        before: bool,
        object: Core,
        kind: TypeId,
    ) -> Result<Core, Memory>
        ensures view { IfOk result (λ core. (types : Table) → view types core ≡ conversions.made (source_of self.now) at (label.count plus before) (type_of types kind) (view types object ∷ [])) }
        ensures known { IfOk result (λ core. (n : ℕ) → are_known n core ≡ (nat_lt kind n && are_known n object)) }
    {
        let object = self.boxed(object)?;
        let form = Form::Count {
            plus,
            before,
            object,
        };
        Ok(self.made(at, form, kind))
    }

    /// An operator between two operands.
    pub fn binary(
        &self,
        at: Extent,
        op: Op,
        left: Core,
        right: Core,
        kind: TypeId,
    ) -> Result<Core, Memory>
        ensures view { IfOk result (λ core. (types : Table) → view types core ≡ conversions.made (source_of self.now) at (label.binary op) (type_of types kind) (view types left ∷ view types right ∷ [])) }
        ensures known { IfOk result (λ core. (n : ℕ) → are_known n core ≡ (nat_lt kind n && (are_known n left && are_known n right))) }
    {
        let left = self.boxed(left)?;
        let form = Form::Binary(op, left, self.boxed(right)?);
        Ok(self.made(at, form, kind))
    }

    /// `&&`.
    pub fn both(&self, at: Extent, left: Core, right: Core, kind: TypeId) -> Result<Core, Memory>
        ensures view { IfOk result (λ core. (types : Table) → view types core ≡ conversions.made (source_of self.now) at label.both (type_of types kind) (view types left ∷ view types right ∷ [])) }
        ensures known { IfOk result (λ core. (n : ℕ) → are_known n core ≡ (nat_lt kind n && (are_known n left && are_known n right))) }
    {
        let left = self.boxed(left)?;
        let form = Form::Both(left, self.boxed(right)?);
        Ok(self.made(at, form, kind))
    }

    /// `||`.
    pub fn either(&self, at: Extent, left: Core, right: Core, kind: TypeId) -> Result<Core, Memory>
        ensures view { IfOk result (λ core. (types : Table) → view types core ≡ conversions.made (source_of self.now) at label.either (type_of types kind) (view types left ∷ view types right ∷ [])) }
        ensures known { IfOk result (λ core. (n : ℕ) → are_known n core ≡ (nat_lt kind n && (are_known n left && are_known n right))) }
    {
        let left = self.boxed(left)?;
        let form = Form::Either(left, self.boxed(right)?);
        Ok(self.made(at, form, kind))
    }

    /// A comma.
    pub fn comma(&self, at: Extent, left: Core, right: Core, kind: TypeId) -> Result<Core, Memory>
        ensures view { IfOk result (λ core. (types : Table) → view types core ≡ conversions.made (source_of self.now) at label.comma (type_of types kind) (view types left ∷ view types right ∷ [])) }
        ensures known { IfOk result (λ core. (n : ℕ) → are_known n core ≡ (nat_lt kind n && (are_known n left && are_known n right))) }
    {
        let left = self.boxed(left)?;
        let form = Form::Comma(left, self.boxed(right)?);
        Ok(self.made(at, form, kind))
    }

    /// `=`.
    pub fn store(&self, at: Extent, object: Core, value: Core, kind: TypeId) -> Result<Core, Memory>
        ensures view { IfOk result (λ core. (types : Table) → view types core ≡ conversions.made (source_of self.now) at label.store (type_of types kind) (view types object ∷ view types value ∷ [])) }
        ensures known { IfOk result (λ core. (n : ℕ) → are_known n core ≡ (nat_lt kind n && (are_known n object && are_known n value))) }
    {
        let object = self.boxed(object)?;
        let form = Form::Store(object, self.boxed(value)?);
        Ok(self.made(at, form, kind))
    }

    /// A compound assignment, with the type in which its operator works.
    pub fn update(
        &self,
        at: Extent,
        op: Op,
        works: TypeId,
        object: Core,
        value: Core,
        kind: TypeId,
    ) -> Result<Core, Memory>
        ensures view { IfOk result (λ core. (types : Table) → view types core ≡ conversions.made (source_of self.now) at (label.update op (type_of types works)) (type_of types kind) (view types object ∷ view types value ∷ [])) }
        ensures known { IfOk result (λ core. (n : ℕ) → are_known n core ≡ (nat_lt kind n && (nat_lt works n && (are_known n object && are_known n value)))) }
    {
        let object = self.boxed(object)?;
        let form = Form::Update(op, works, object, self.boxed(value)?);
        Ok(self.made(at, form, kind))
    }

    /// `?:`.
    pub fn choose(
        &self,
        at: Extent,
        condition: Core,
        left: Core,
        right: Core,
        kind: TypeId,
    ) -> Result<Core, Memory>
        ensures view { IfOk result (λ core. (types : Table) → view types core ≡ conversions.made (source_of self.now) at label.choose (type_of types kind) (view types condition ∷ view types left ∷ view types right ∷ [])) }
        ensures known { IfOk result (λ core. (n : ℕ) → are_known n core ≡ (nat_lt kind n && (are_known n condition && (are_known n left && are_known n right)))) }
    {
        let condition = self.boxed(condition)?;
        let left = self.boxed(left)?;
        let form = Form::Choose(condition, left, self.boxed(right)?);
        Ok(self.made(at, form, kind))
    }

    /// A cast, and the trees in its type name.
    pub fn convert(
        &self,
        at: Extent,
        operand: Core,
        constants: List<Core>,
        kind: TypeId,
    ) -> Result<Core, Memory>
        ensures view { IfOk result (λ core. (types : Table) → view types core ≡ conversions.made (source_of self.now) at label.convert (type_of types kind) (view types operand ∷ map (view types) constants)) }
        ensures known { IfOk result (λ core. (n : ℕ) → are_known n core ≡ (nat_lt kind n && (are_known n operand && all_pass (map (are_known n) constants)))) }
    {
        let form = Form::Convert(self.boxed(operand)?, constants);
        Ok(self.made(at, form, kind))
    }

    /// A call.
    pub fn called(
        &self,
        at: Extent,
        function: Core,
        arguments: List<Core>,
        kind: TypeId,
    ) -> Result<Core, Memory>
        ensures view { IfOk result (λ core. (types : Table) → view types core ≡ conversions.made (source_of self.now) at label.call (type_of types kind) (view types function ∷ map (view types) arguments)) }
        ensures known { IfOk result (λ core. (n : ℕ) → are_known n core ≡ (nat_lt kind n && (are_known n function && all_pass (map (are_known n) arguments)))) }
    {
        let form = Form::Call(self.boxed(function)?, arguments);
        Ok(self.made(at, form, kind))
    }

    /// `sizeof` of a type name, and the trees in it.
    pub fn sizeof_kind(
        &self,
        at: Extent,
        named: TypeId,
        constants: List<Core>,
        kind: TypeId,
    ) -> Core
        ensures view { (types : Table) → view types result ≡ conversions.made (source_of self.now) at (label.sizeof_kind (type_of types named)) (type_of types kind) (map (view types) constants) }
        ensures known { (n : ℕ) → are_known n result ≡ (nat_lt kind n && (nat_lt named n && all_pass (map (are_known n) constants))) }
    {
        self.made(at, Form::SizeofKind(named, constants), kind)
    }
}
