//! The tokens of phase 7 below each beginning of trails.

ghost use Rattle.std.specs.Prelude.{◌≡◌, ◌<◌, ◌+◌, ◌^◌, fold, length, slice_index, EachIndex, IfOk, OnOk};
ghost use Rattle.std.specs.List.{flat_map};
ghost use Rattle.dm_token.specs.declared.token.CToken.{CToken as Seen};
ghost use Rattle.dm_token.specs.declared.place.Span.{Span as SeenSpan};
ghost use Rattle.dm_runs.specs.Beginnings.{beginnings_of, once_more};
ghost use Rattle.dm_runs.specs.Trees.{AreLinked, AreNumbers};
ghost use Rattle.dm_runs.specs.Extents.{IsShape, extended, extended_at, span_from};

use crate::beginnings::{Beginnings, Path};
use dm_token::{CToken, Memory, Span};
use std::alloc::Global;

/// The positions of some tokens: the first, after the last, and whether all between are among them.
#[derive(Clone, Copy, Debug, PartialEq, Eq)]
pub(crate) struct Extent {
    first: u32,
    after: u32,
    is_whole: bool,
}

/// The same with one more token behind them.
fn extend(extent: Option<Extent>, position: u32) -> Option<Extent>
    requires { position + 1 < 2 ^ 32 }
    ensures { result ≡ extended extent position }
{
    match extent {
        None => Some(Extent {
            first: position,
            after: position + 1,
            is_whole: true,
        }),
        Some(extent) => Some(Extent {
            first: extent.first,
            after: position + 1,
            is_whole: extent.is_whole && extent.after == position,
        }),
    }
}

/// The span of consecutive tokens.
pub(crate) fn span(elsewhere: u32, extent: Option<Extent>) -> Span
    ensures { result ≡ span_from elsewhere extent }
{
    match extent {
        None => Span {
            first: elsewhere,
            after: elsewhere,
        },
        Some(extent) => Span {
            first: extent.first,
            after: if extent.is_whole {
                extent.after
            } else {
                extent.first
            },
        },
    }
}

// Extends those with these numbers.
fn extend_all(extents: &mut [Option<Extent>], numbers: &[usize], position: u32)
    requires small { position + 1 < 2 ^ 32 }
    requires within { EachIndex numbers.now (λ k. slice_index numbers.now k < length extents.old) }
    ensures { extents.new ≡ fold (extended_at position) extents.old numbers.now }
{
    for number in numbers {
        extents[*number] = extend(extents[*number], position);
    }
}

/// For each beginning of trails, those of the tokens among them, the extent of the tokens whose trails begin so.
pub(crate) fn extents(
    alloc: Global,
    beginnings: &mut Beginnings,
    tokens: &[CToken],
) -> Result<Vec<Option<Extent>>, Memory>
    requires linked { AreLinked beginnings.old.links.keys beginnings.old.trails.items }
    requires counted { length tokens.now < 2 ^ 32 }
    ensures trails { OnOk result (beginnings.new.trails.items ≡ fold once_more beginnings.old.trails.items (flat_map (λ (token : Seen). beginnings_of token.trail) tokens.now)) }
    ensures shape { IfOk result (λ extents. IsShape beginnings.new.links.keys beginnings.new.trails.items extents.items tokens.now) }
{
    let mut extents = Vec::new(alloc);
    extents.resize(beginnings.trails.len(), None)?;
    let mut path = Path::new(alloc);
    for (position, token) in tokens.iter().enumerate() {
        path = beginnings.walk(path, &token.trail)?;
        extents.resize(beginnings.trails.len(), None)?;
        extend_all(&mut extents, &path.numbers, position as u32);
    }
    Ok(extents)
}
