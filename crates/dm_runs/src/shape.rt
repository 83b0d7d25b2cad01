//! The runs with prefixes that are known.

ghost use Rattle.std.specs.Prelude.{◌≡◌, ◌≢◌, ◌<◌, ◌++◌, ◌∷◌, [], Some, map, length, slice_get, IfOk, IfSome, OnOk, List as Sequence};
ghost use Rattle.dm_token.specs.declared.expansion.Mark.{Mark as SeenMark};
ghost use Rattle.dm_token.specs.declared.expansion.Mark.TheVariants.{Argument as argument};
ghost use Rattle.dm_runs.specs.Extents.{extent_of, IsShape, IsRunSpan};
ghost use Rattle.dm_runs.specs.Names.{named_in};
ghost use Rattle.dm_runs.specs.Reaches.{AreKnown};
ghost use Rattle.dm_runs.specs.Runs as runs;
ghost use Rattle.dm_runs.specs.Spans.{tokens_under, span_of};

use crate::beginnings::Beginnings;
use crate::extents::{Extent, span};
use crate::named::Named;
use crate::reach::{reach_of, would_stand};
use crate::run::{Occurrence, Run};
use crate::stand::Stand;
use dm_token::{CToken, List, Mark, Memory, Span, Trail};
use std::alloc::Global;

/// What the tokens of a unit are below each beginning of their trails.
#[derive(Clone, Copy)]
pub(crate) struct Shape<'a> {
    pub(crate) beginnings: &'a Beginnings,
    pub(crate) extents: &'a [Option<Extent>],
    pub(crate) tokens: &'a [CToken],
}

fn instance_of(mark: Option<Mark>) -> u32
    ensures { result ≡ runs.instance_of mark }
{
    match mark {
        None => 0,
        Some(
            Mark::Expansion {
                definition: _,
                instance,
            },
        ) => instance,
        Some(
            Mark::Argument {
                parameter: _,
                occurrence: _,
            },
        ) => 0,
    }
}

impl<'a> Shape<'a> {
    // The extent of the tokens of an occurrence.
    fn below(&self, number: usize, prefix: &Trail, named: &Named) -> Option<Extent>
        requires shape { IsShape self.now.beginnings.now.links.keys self.now.beginnings.now.trails.items self.now.extents.now self.now.tokens.now }
        requires prefix { slice_get self.now.beginnings.now.trails.items number ≡ Some prefix.now }
        ensures { result ≡ extent_of (tokens_under (prefix.now ++ argument named.now.parameter named.now.occurrence ∷ []) self.now.tokens.now) }
    {
        let mark = Mark::Argument {
            parameter: named.parameter,
            occurrence: named.occurrence,
        };
        match self.beginnings.below(number, mark) {
            None => None,
            Some(inner) => self.extents[inner],
        }
    }

    // Where an occurrence in a run would stand that has no tokens. How far the tokens of the run come is found where that is asked first.
    fn elsewhere(
        &self,
        alloc: Global,
        stand: &Stand,
        prefix: &Trail,
        run: Span,
        at: usize,
        reach: &mut Option<Vec<usize>>,
    ) -> Result<u32, Memory>
        requires named { stand.now.named.now ≡ named_in stand.now.definition.now }
        requires run { IsRunSpan prefix.now self.now.tokens.now run }
        requires filled { run.first ≢ run.after }
        requires reach { IfSome reach.old (λ known. AreKnown stand.now.names.now self.now.tokens.now stand.now.definition.now prefix.now run known.items) }
        ensures place { IfOk result (λ place. place ≡ runs.would_stand stand.now.names.now self.now.tokens.now stand.now.definition.now prefix.now run.after at) }
        ensures reach { OnOk result (IfSome reach.new (λ known. AreKnown stand.now.names.now self.now.tokens.now stand.now.definition.now prefix.now run known.items)) }
    {
        if let Some(known) = reach {
            return Ok(would_stand(known.as_slice(), run, at));
        }
        let known = reach_of(alloc, stand, self.tokens, prefix, run)?;
        let place = would_stand(known.as_slice(), run, at);
        *reach = Some(known);
        Ok(place)
    }

    // The span of an occurrence in a run. Where it would stand is looked for only if it has no tokens.
    fn span_in(
        &self,
        alloc: Global,
        stand: &Stand,
        number: usize,
        prefix: &Trail,
        run: Span,
        named: &Named,
        reach: &mut Option<Vec<usize>>,
    ) -> Result<Span, Memory>
        requires shape { IsShape self.now.beginnings.now.links.keys self.now.beginnings.now.trails.items self.now.extents.now self.now.tokens.now }
        requires prefix { slice_get self.now.beginnings.now.trails.items number ≡ Some prefix.now }
        requires named { stand.now.named.now ≡ named_in stand.now.definition.now }
        requires run { IsRunSpan prefix.now self.now.tokens.now run }
        requires reach { IfSome reach.old (λ known. AreKnown stand.now.names.now self.now.tokens.now stand.now.definition.now prefix.now run known.items) }
        ensures span { IfOk result (λ span. span ≡ (runs.occurrence_in stand.now.names.now self.now.tokens.now stand.now.definition.now prefix.now run named.now).span) }
        ensures reach { OnOk result (IfSome reach.new (λ known. AreKnown stand.now.names.now self.now.tokens.now stand.now.definition.now prefix.now run known.items)) }
    {
        if run.first == run.after {
            return Ok(run);
        }
        let own = self.below(number, prefix, named);
        if own.is_some() {
            return Ok(span(run.after, own));
        }
        let elsewhere = self.elsewhere(alloc, stand, prefix, run, named.at, reach)?;
        Ok(span(elsewhere, own))
    }

    fn occurrence(
        &self,
        alloc: Global,
        stand: &Stand,
        number: usize,
        prefix: &Trail,
        run: Span,
        named: &Named,
        reach: &mut Option<Vec<usize>>,
    ) -> Result<Occurrence, Memory>
        requires shape { IsShape self.now.beginnings.now.links.keys self.now.beginnings.now.trails.items self.now.extents.now self.now.tokens.now }
        requires prefix { slice_get self.now.beginnings.now.trails.items number ≡ Some prefix.now }
        requires named { stand.now.named.now ≡ named_in stand.now.definition.now }
        requires run { IsRunSpan prefix.now self.now.tokens.now run }
        requires reach { IfSome reach.old (λ known. AreKnown stand.now.names.now self.now.tokens.now stand.now.definition.now prefix.now run known.items) }
        ensures occurrence { IfOk result (λ one. one ≡ runs.occurrence_in stand.now.names.now self.now.tokens.now stand.now.definition.now prefix.now run named.now) }
        ensures reach { OnOk result (IfSome reach.new (λ known. AreKnown stand.now.names.now self.now.tokens.now stand.now.definition.now prefix.now run known.items)) }
    {
        let span = self.span_in(alloc, stand, number, prefix, run, named, reach)?;
        Ok(Occurrence {
            parameter: named.parameter,
            occurrence: named.occurrence,
            span,
        })
    }

    // The occurrences in a run.
    fn occurrences(
        &self,
        alloc: Global,
        stand: &Stand,
        number: usize,
        prefix: &Trail,
        run: Span,
    ) -> Result<List<Occurrence>, Memory>
        requires shape { IsShape self.now.beginnings.now.links.keys self.now.beginnings.now.trails.items self.now.extents.now self.now.tokens.now }
        requires prefix { slice_get self.now.beginnings.now.trails.items number ≡ Some prefix.now }
        requires named { stand.now.named.now ≡ named_in stand.now.definition.now }
        requires run { IsRunSpan prefix.now self.now.tokens.now run }
        ensures { IfOk result (λ found. found ≡ map (runs.occurrence_in stand.now.names.now self.now.tokens.now stand.now.definition.now prefix.now run) stand.now.named.now) }
    {
        let mut found = Vec::new(alloc);
        let mut reach = None;
        for named in stand.named {
            let one = self.occurrence(alloc, stand, number, prefix, run, named, &mut reach)?;
            found.push(one)?;
        }
        Ok(List::from_vec(found))
    }

    /// The run with a prefix, of which the first part is known.
    pub(crate) fn run(
        &self,
        alloc: Global,
        stand: &Stand,
        number: usize,
        part: u32,
    ) -> Result<Run, Memory>
        requires shape { IsShape self.now.beginnings.now.links.keys self.now.beginnings.now.trails.items self.now.extents.now self.now.tokens.now }
        requires inside { number < length self.now.beginnings.now.trails.items }
        requires named { stand.now.named.now ≡ named_in stand.now.definition.now }
        ensures { IfOk result (λ run. (prefix : Sequence SeenMark) → slice_get self.now.beginnings.now.trails.items number ≡ Some prefix
            → run ≡ runs.run_with stand.now.names.now self.now.tokens.now stand.now.definition.now prefix (span_of part (tokens_under prefix self.now.tokens.now))) }
    {
        let prefix = &self.beginnings.trails[number];
        let run = span(part, self.extents[number]);
        let occurrences = self.occurrences(alloc, stand, number, prefix, run)?;
        Ok(Run {
            instance: instance_of(prefix.last()),
            prefix: prefix.copy()?,
            span: run,
            occurrences,
        })
    }
}
