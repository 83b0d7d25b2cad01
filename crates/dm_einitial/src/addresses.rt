//! Addresses of objects with static storage (6.6p9).

ghost use Rattle.std.specs.Prelude.{◌≡◌, ℕ, false, List as Sequence, [], ◌∷◌, IsTrue, IfNone, IfSome, slice_get};
ghost use Rattle.dm_type.specs.declared.shape.Shape.{Shape as OneShape};
ghost use Rattle.dm_type.specs.Tables.{Table};
ghost use Rattle.dm_tree.specs.Initialisers as initialisers;
ghost use Rattle.dm_tree.specs.Trees as label;
ghost use Rattle.dm_tree.specs.TypeNumbers.{are_known, are_known_in_form};
ghost use Rattle.dm_tree.specs.Views.{entries_of, opened, opened_form, view};
ghost use Rattle.dm_typing.specs.Fitting.{IsNumbered};
ghost use Rattle.dm_typing.specs.Sound.{scene_of};
ghost use Rattle.dm_typing.specs.Views.{Begins, seen, view_over, known_over};
ghost use Rattle.dm_edecl.specs.Initialising as initialising;
ghost use Rattle.dm_einitial.specs.Steps as steps;
ghost use Rattle.dm_einitial.specs.Steps.{is_address, reach_of};

use dm_int::Op;
use dm_token::Span;
use dm_tree::{Core, Form, Sort, constant};
use dm_typing::Known;

/// How a tree reaches an object with static storage by constants alone.
#[derive(Clone, Copy, Debug, PartialEq, Eq)]
pub enum Reach {
    Nowhere,
    /// It designates the object or a part of it.
    Place,
    /// It is the address of its first element.
    Start,
    /// It is the address of the element that a constant subscript names.
    ElementAddress,
}

/// How the name of a declaration reaches it.
fn named(known: &Known, at: u32) -> Reach
    ensures { reach_of result ≡ initialisers.reach_of_object (slice_get (entries_of known.now.types known.now.declared) at) }
{
    match known.declared.items().get(at as usize) {
        Some(entry) => match entry.sort {
            Sort::Object { fixed: true } => Reach::Place,
            _ => Reach::Nowhere,
        },
        None => Reach::Nowhere,
    }
}

/// How a subscript goes on from the address of an array's first element.
fn subscripted(known: &Known, subscript: &Core) -> Reach
    requires { IsNumbered known.now.types subscript.now }
    ensures { reach_of result ≡ initialisers.subscripted (scene_of (seen known.now)) (view known.now.types subscript.now) }
{
    if constant(subscript, &known.declared, &known.types).is_some() {
        Reach::ElementAddress
    } else {
        Reach::Nowhere
    }
}

/// What a part of a place is.
fn of_place(whole: Reach, it: Reach) -> Reach
    ensures { reach_of result ≡ steps.of_place (reach_of whole) (reach_of it) }
{
    match whole {
        Reach::Place => it,
        _ => Reach::Nowhere,
    }
}

/// A sum of the address of a first element and a subscript, in either order.
fn of_sum(known: &Known, left: &Core, right: &Core, first: Reach, second: Reach) -> Reach
    requires left { IsNumbered known.now.types left.now }
    requires right { IsNumbered known.now.types right.now }
    ensures { reach_of result ≡ steps.of_sum (scene_of (seen known.now)) (view known.now.types left.now) (view known.now.types right.now) (reach_of first) (reach_of second) }
{
    match first {
        Reach::Start => subscripted(known, right),
        _ => match second {
            Reach::Start => subscripted(known, left),
            _ => Reach::Nowhere,
        },
    }
}

/// The element whose address the tree below has, from the same tokens.
fn of_element(same: bool, sum: Reach) -> Reach
    ensures { reach_of result ≡ steps.of_element same (reach_of sum) }
{
    match sum {
        Reach::ElementAddress => { if same { Reach::Place } else { Reach::Nowhere } }
        _ => Reach::Nowhere,
    }
}

/// Whether two spans are one.
fn is_same_span(a: Span, b: Span) -> bool
    ensures { result ≡ initialisers.is_same_span a b }
{
    a.first == b.first && a.after == b.after
}

/// How a tree reaches an object with static storage (6.6p9).
#[cycle(reach)]
pub fn reach_by(known: &Known, core: &Core) -> Reach
    requires { IsNumbered known.now.types core.now }
    ensures { reach_of result ≡ initialisers.reach (scene_of (seen known.now)) (view known.now.types core.now) }
{
    match &core.form {
        Form::Object(at) => named(known, *at),
        Form::Literal(_, _) => Reach::Place,
        Form::Member(whole, _) => of_place(reach_by(known, whole.get()), Reach::Place),
        Form::Decay(whole) => of_place(reach_by(known, whole.get()), Reach::Start),
        Form::Binary(op, left, right) => match op {
            Op::Add => {
                let first = reach_by(known, left.get());
                let second = reach_by(known, right.get());
                of_sum(known, left.get(), right.get(), first, second)
            }
            _ => Reach::Nowhere,
        },
        Form::Follow(sum) => of_element(
            is_same_span(core.inner, sum.get().inner),
            reach_by(known, sum.get()),
        ),
        _ => Reach::Nowhere,
    }
}

/// Whether a place is reached.
fn is_place(found: Reach) -> bool
    ensures { result ≡ initialising.is_place (reach_of found) }
{
    matches!(found, Reach::Place)
}

/// Whether the address of a first element is reached.
fn is_start(found: Reach) -> bool
    ensures { result ≡ initialising.is_start (reach_of found) }
{
    matches!(found, Reach::Start)
}

/// The operand of unary `&`.
fn addressed(form: &Form) -> Option<&Core>
    ensures other { IfNone result ((types : Table) → is_address (opened_form types form.now).label ≡ false) }
    ensures operand { IfSome result (λ operand. (types : Table) → opened_form types form.now ≡ opened label.address (view types operand.now ∷ [])) }
    ensures numbered { IfSome result (λ operand. (n : ℕ) → IsTrue (are_known_in_form n form.now) → IsTrue (are_known n operand.now)) }
{
    match form {
        Form::Address(operand) => Some(operand.get()),
        _ => None,
    }
}

/// Whether the tree is the address of an object with static storage, or the decay of one (6.6p9).
pub fn is_address_constant(known: &Known, core: &Core) -> bool
    requires { IsNumbered known.now.types core.now }
    ensures { (later : Sequence OneShape) → Begins known.now.types.shapes later → result ≡ initialising.is_address_constant (known_over later known.now) (view_over later core.now) }
{
    match addressed(&core.form) {
        Some(operand) => is_place(reach_by(known, operand)),
        None => is_start(reach_by(known, core)),
    }
}
