//! Values, and conversions between them (6.3).

ghost use Rattle.std.specs.Prelude.{◌≡◌, ℕ, false, List, ◌∷◌, IfOk, IfSome, IfNone, IsTrue, pos};
ghost use Rattle.dm_int.specs.Operators.{int_eq};
ghost use Rattle.dm_type.specs.declared.shape.Shape.{Shape as OneShape};
ghost use Rattle.dm_type.specs.Tables.{Table, IsId};
ghost use Rattle.dm_tree.specs.Scenes as scenes;
ghost use Rattle.dm_tree.specs.Trees as label;
ghost use Rattle.dm_tree.specs.Trees.{Tree};
ghost use Rattle.dm_tree.specs.TypeNumbers.{are_known, are_known_in_form};
ghost use Rattle.dm_tree.specs.Views.{view, opened, opened_form};
ghost use Rattle.dm_typing.specs.Conversions as conversions;
ghost use Rattle.dm_typing.specs.Fitting.{IsNumbered};
ghost use Rattle.dm_typing.specs.Views as views;
ghost use Rattle.dm_typing.specs.Views.{Begins, type_over, view_over, known_over, Grows};

use crate::known::Known;
use crate::looks::{bare, elements, is_plain_void_pointer, is_same};
use crate::typer::Typer;
use dm_int::{Kind, promote};
use dm_token::Memory;
use dm_tree::{Core, Form, constant};
use dm_type::{Shape, TypeId};

/// Whether the tree designates an object (6.3.2.1p1).
pub fn is_lvalue(core: &Core) -> bool
    ensures { (types : Table) → result ≡ scenes.is_lvalue (view types core.now) }
{
    match &core.form {
        Form::Object(_) | Form::Literal(_, _) | Form::Follow(_) => true,
        Form::Member(whole, _) => is_lvalue(whole.get()),
        _ => false,
    }
}

/// The operand of a conversion.
fn converted_operand(form: &Form) -> Option<&Core>
    ensures other { IfNone result ((types : Table) → views.is_conversion (opened_form types form.now).label ≡ false) }
    ensures operand { IfSome result (λ operand. (types : Table) → (lengths : List Tree) × (opened_form types form.now ≡ opened label.convert (view types operand.now ∷ lengths))) }
    ensures numbered { IfSome result (λ operand. (n : ℕ) → IsTrue (are_known_in_form n form.now) → IsTrue (are_known n operand.now)) }
{
    match form {
        Form::Convert(operand, _) => Some(operand.get()),
        _ => None,
    }
}

fn is_nil(value: i128) -> bool
    ensures { result ≡ int_eq value (pos 0) }
{
    value == 0
}

/// Whether the tree is an integer constant expression with the value 0.
fn is_zero(known: &Known, core: &Core) -> bool
    requires { IsNumbered known.now.types core.now }
    ensures { (later : List OneShape) → Begins known.now.types.shapes later → result ≡ conversions.is_zero (known_over later known.now) (view_over later core.now) }
{
    match constant(core, &known.declared, &known.types) {
        Some(value) => is_nil(value),
        None => false,
    }
}

/// Whether the tree is a null pointer constant (6.3.2.3p3).
pub fn is_null(known: &Known, core: &Core) -> bool
    requires { IsNumbered known.now.types core.now }
    ensures { (later : List OneShape) → Begins known.now.types.shapes later → result ≡ conversions.is_null (known_over later known.now) (view_over later core.now) }
{
    match converted_operand(&core.form) {
        Some(operand) => {
            if is_plain_void_pointer(&known.types, core.kind) {
                return is_zero(known, operand);
            }
            is_zero(known, core)
        }
        None => is_zero(known, core),
    }
}

impl Typer<'_> {
    /// The value that a tree stands for (6.3.2.1p2, p3).
    pub fn as_value(&self, known: &mut Known, core: Core) -> Result<Core, Memory>
        requires { IsNumbered known.old.types core }
        ensures value { IfOk result (λ made. (later : List OneShape) → Begins known.new.types.shapes later → view_over later made ≡ conversions.as_value (view_over later core)) }
        ensures numbered { IfOk result (IsNumbered known.new.types) }
        ensures grows { Grows known.old known.new }
    {
        if !is_lvalue(&core) {
            return Ok(core);
        }
        match elements(&known.types, core.kind) {
            Some(inner) => {
                let kind = known.intern(Shape::Pointer(inner))?;
                let made = self.decayed(core, kind)?;
                Ok(made)
            }
            None => {
                let kind = bare(&known.types, core.kind);
                let made = self.read(core, kind)?;
                Ok(made)
            }
        }
    }

    /// A value converted to a type, without the const of that.
    pub fn as_type(&self, known: &Known, kind: TypeId, core: Core) -> Result<Core, Memory>
        requires kind { IsId known.now.types kind }
        requires numbered { IsNumbered known.now.types core }
        ensures value { IfOk result (λ made. (later : List OneShape) → Begins known.now.types.shapes later → view_over later made ≡ conversions.as_type (type_over later kind) (view_over later core)) }
        ensures numbered { IfOk result (IsNumbered known.now.types) }
    {
        let kind = bare(&known.types, kind);
        if is_same(&known.types, core.kind, kind) {
            return Ok(core);
        }
        let made = self.converted(core, kind)?;
        Ok(made)
    }

    /// A value converted to a kind.
    pub fn as_kind(&self, known: &mut Known, kind: Kind, core: Core) -> Result<Core, Memory>
        requires { IsNumbered known.old.types core }
        ensures value { IfOk result (λ made. (later : List OneShape) → Begins known.new.types.shapes later → view_over later made ≡ conversions.as_kind kind (view_over later core)) }
        ensures numbered { IfOk result (IsNumbered known.new.types) }
        ensures grows { Grows known.old known.new }
    {
        let kind = known.intern(Shape::Integer(kind))?;
        let made = self.as_type(known, kind, core)?;
        Ok(made)
    }

    /// The integer promotions of a value of a kind (6.3.1.1p2).
    pub fn promoted(&self, known: &mut Known, kind: Kind, core: Core) -> Result<Core, Memory>
        requires { IsNumbered known.old.types core }
        ensures value { IfOk result (λ made. (later : List OneShape) → Begins known.new.types.shapes later → view_over later made ≡ conversions.promoted kind (view_over later core)) }
        ensures numbered { IfOk result (IsNumbered known.new.types) }
        ensures grows { Grows known.old known.new }
    {
        let made = self.as_kind(known, promote(kind), core)?;
        Ok(made)
    }
}
