//! The labels of a switch (6.8.1, 6.8.4.2).

ghost use Rattle.std.specs.Prelude.{◌≡◌, false, [], ◌∷◌, List as Sequence, IfOk, Some};
ghost use Rattle.dm_type.specs.declared.shape.Shape.{Shape as OneShape};
ghost use Rattle.dm_syn.specs.Views as syntax;
ghost use Rattle.dm_typing.specs.Conversions as conversions;
ghost use Rattle.dm_typing.specs.Fitting.{IsNumbered};
ghost use Rattle.dm_typing.specs.Views.{Begins, view_over, known_over, source_of, setting_of, Gives, Grows};
ghost use Rattle.dm_edeclarator.specs.Steps.{Follows};
ghost use Rattle.dm_edecl.specs.Statements as statements;
ghost use Rattle.dm_estatement.specs.Parts.{labels_of, case_over, CaseFits};

use dm_eexpr::expressions::value_of;
use dm_int::Kind;
use dm_syn::Expr;
use dm_token::{Memory, Stop};
use dm_tree::{Core, constant};
use dm_typing::{Known, Typer};
use indexmap::IndexSet;
use std::alloc::Global;

/// The labels of a switch so far: the value of each `case`, and None for `default`. A look-up walks none of them.
#[derive(Drop)]
pub(crate) struct Labels {
    pub(crate) found: IndexSet<Option<i128>>,
}

/// The value of a `case`, converted to the type of the switch's operand.
#[derive(Drop)]
pub(crate) struct CaseValue {
    pub tree: Core,
    pub value: i128,
}

impl Labels {
    /// No labels.
    pub fn new(alloc: Global) -> Labels
        ensures { labels_of result ≡ [] }
    {
        Labels {
            found: IndexSet::new(alloc),
        }
    }

    /// Whether a label is among them.
    pub fn have(&self, label: Option<i128>) -> bool
        ensures { result ≡ statements.is_label_among label (labels_of self.now) }
    {
        self.found.contains(&label)
    }

    /// One label more, which is none of them.
    pub fn with(self, label: Option<i128>) -> Result<Labels, Memory>
        requires { statements.is_label_among label (labels_of self) ≡ false }
        ensures { IfOk result (λ labels. labels_of labels ≡ label ∷ labels_of self) }
    {
        let Labels { found } = self;
        let mut found = found;
        let _new = found.insert(label)?;
        Ok(Labels { found })
    }
}

/// The value of a `case` (C30, C31).
pub(crate) fn typed_case(
    typer: &Typer<'_>,
    known: &mut Known,
    kind: Kind,
    labels: &Labels,
    expr: &Expr,
) -> Result<CaseValue, Stop>
    ensures follows { Follows CaseFits case_over (source_of typer.now) known.old known.new result (λ later. statements.typed_case (setting_of typer.now) (known_over later known.old) kind (labels_of labels.now) (syntax.expr expr.now)) }
    ensures fresh { IfOk result (λ one. statements.is_label_among (Some one.value) (labels_of labels.now) ≡ false) }
{
    let value = value_of(typer, known, true, expr)?;
    converted_case(typer, known, kind, labels, expr.span.first, value)
}

/// A value that is converted to the kind of the operand first (6.8.4.2p5).
fn converted_case(
    typer: &Typer<'_>,
    known: &mut Known,
    kind: Kind,
    labels: &Labels,
    here: u32,
    value: Core,
) -> Result<CaseValue, Stop>
    requires { IsNumbered known.old.types value }
    ensures gives { (later : Sequence OneShape) → Begins known.new.types.shapes later → Gives (case_over later) (source_of typer.now) (known_over later known.new) result
        (statements.case_value (known_over later known.old) (labels_of labels.now) here (conversions.as_kind kind (view_over later value))) }
    ensures numbered { IfOk result (CaseFits known.new.types) }
    ensures fresh { IfOk result (λ one. statements.is_label_among (Some one.value) (labels_of labels.now) ≡ false) }
    ensures grows { Grows known.old known.new }
{
    let converted = typer.as_kind(known, kind, value)?;
    case_value(typer, known, labels, here, converted)
}

/// A value that is an integer constant expression, and no label's so far.
fn case_value(
    typer: &Typer<'_>,
    known: &Known,
    labels: &Labels,
    here: u32,
    tree: Core,
) -> Result<CaseValue, Stop>
    requires { IsNumbered known.now.types tree }
    ensures gives { (later : Sequence OneShape) → Begins known.now.types.shapes later → Gives (case_over later) (source_of typer.now) (known_over later known.now) result
        (statements.case_value (known_over later known.now) (labels_of labels.now) here (view_over later tree)) }
    ensures numbered { IfOk result (CaseFits known.now.types) }
    ensures fresh { IfOk result (λ one. statements.is_label_among (Some one.value) (labels_of labels.now) ≡ false) }
{
    match constant(&tree, &known.declared, &known.types) {
        None => Err(typer.broken(30, here)),
        Some(value) => {
            if labels.have(Some(value)) {
                return Err(typer.broken(31, here));
            }
            Ok(CaseValue { tree, value })
        }
    }
}
