//! What the items of a switch come to (6.8.4.2).

ghost use Rattle.std.specs.Prelude.{◌≡◌, [], ◌∷◌, ◌++◌, IfOk};
ghost use Rattle.dm_syn.specs.Views as syntax;
ghost use Rattle.dm_typing.specs.Views.{source_of, setting_of};
ghost use Rattle.dm_estanding.specs.Proceeding.{Proceeds};
ghost use Rattle.dm_estatement.specs.Parts as parts;
ghost use Rattle.dm_estatement.specs.Parts.{labelled_over, LabelledFits, labels_of, AddsDefault};

use crate::here::case_here;
use crate::labels::{CaseValue, Labels};
use dm_estanding::Standing;
use dm_int::Kind;
use dm_syn::Expr;
use dm_token::{List, Memory, Stop};
use dm_tree::Core;
use dm_typing::Typer;
use std::alloc::Global;

/// A statement with its labels, or the value of a label, and the labels of the switch so far.
#[derive(Drop)]
pub(crate) struct Labelled {
    pub tree: Core,
    pub labels: Labels,
}

/// Items of a switch, and its labels so far.
#[derive(Drop)]
pub(crate) struct AllLabelled {
    pub trees: List<Core>,
    pub labels: Labels,
}

/// No items.
pub(crate) fn none_labelled(alloc: Global) -> AllLabelled
    ensures trees { result.trees ≡ [] }
    ensures labels { labels_of result.labels ≡ [] }
{
    AllLabelled {
        trees: List::new(alloc),
        labels: Labels::new(alloc),
    }
}

/// One item more.
pub(crate) fn joined(trees: List<Core>, one: Labelled) -> Result<AllLabelled, Memory>
    ensures trees { IfOk result (λ all. all.trees ≡ trees ++ one.tree ∷ []) }
    ensures labels { IfOk result (λ all. all.labels ≡ one.labels) }
{
    let Labelled { tree, labels } = one;
    let mut trees = trees;
    trees.push(tree)?;
    Ok(AllLabelled { trees, labels })
}

/// The statements of items.
pub(crate) fn trees_of(all: AllLabelled) -> List<Core>
    ensures { result ≡ all.trees }
{
    let AllLabelled { trees, labels: _ } = all;
    trees
}

/// The labels with `default`, which stands at a token (C31).
pub(crate) fn with_default(typer: &Typer<'_>, labels: Labels, at: u32) -> Result<Labels, Stop>
    ensures { AddsDefault (source_of typer.now) (labels_of labels) at result }
{
    if labels.have(None) {
        return Err(typer.broken(31, at));
    }
    let made = labels.with(None)?;
    Ok(made)
}

/// The value of a `case`, which is a label from there on (C30, C31).
pub(crate) fn label_here(
    typer: &Typer<'_>,
    standing: &mut Standing,
    kind: Kind,
    labels: Labels,
    expr: &Expr,
) -> Result<Labelled, Stop>
    ensures { Proceeds LabelledFits labelled_over (source_of typer.now) standing.old standing.new result (λ later before. parts.typed_label (setting_of typer.now) kind (labels_of labels) before (syntax.expr expr.now)) }
{
    let one = case_here(typer, standing, kind, &labels, expr)?;
    let CaseValue { tree, value } = one;
    let labels = labels.with(Some(value))?;
    Ok(Labelled { tree, labels })
}
