ghost use Rattle.std.specs.Prelude.{◌≡◌, ◌≤◌, ◌⊎◌, ◌++◌, slice_get, Ok, IfOk, OnOk, OnErr};
ghost use Rattle.dm_io.specs.Faults.{Rose};
ghost use Rattle.dm_io.specs.Output.{appended, MayHaveAppended};
ghost use Rattle.dm_lines.specs.Statuses as statuses;
ghost use Rattle.dm_expand.specs.Predefined as predefined;
ghost use Rattle.dm_expanding.specs.Listings.{AgreesFrom, gap, in_one_line as stand_in_one_line, listing_of, root};

use dm_io::Sink;
use dm_lines::statuses;
use dm_token::{Expansion, Mark, Memory, Place, Token, Trail, UnitTokens};
use std::alloc::Global;

/// Where the look-up of an expansion goes on. Tokens come in the order of the expansions that they came out of first, so
/// it begins where the last one ended, and all look-ups together pass over each expansion once.
#[derive(Clone, Copy)]
struct Cursor<'a> {
    rest: &'a [Expansion],
    /// Numbers below this one may stand among those that were passed over.
    least: u64,
}

/// Puts a unit's tokens, and answers the status.
pub fn put_listing<S: Sink>(alloc: Global, out: &mut S, tokens: &UnitTokens) -> Result<u8, Memory>
    ensures done { result ≡ Ok statuses.done → S.written out.new ≡ appended (S.written out.old) (listing_of tokens.now.expansions tokens.now.tokens) }
    ensures failed { result ≡ Ok statuses.output_fault → Rose (S.faults out.old) (S.faults out.new)
        × MayHaveAppended (S.written out.old) (S.written out.new) (listing_of tokens.now.expansions tokens.now.tokens) }
    ensures status { IfOk result (λ status. (status ≡ statuses.done) ⊎ (status ≡ statuses.output_fault)) }
    ensures err { OnErr result (S.written out.new ≡ S.written out.old) }
    ensures later { S.faults out.old ≤ S.faults out.new }
{
    let text = listing(alloc, tokens.expansions.items(), tokens.tokens.items())?;
    out.ready(alloc, text.len())?;
    if out.put(&text) {
        Ok(statuses::DONE)
    } else {
        Ok(statuses::OUTPUT_FAULT)
    }
}

/// The tokens' spellings. Between two tokens stands a newline where the files or the lines of their roots differ, and
/// else a space; a newline ends the text unless there is no token.
#[tactic(auto, unfolding(crate::specs::Listings::listing_of))]
fn listing(alloc: Global, expansions: &[Expansion], tokens: &[Token]) -> Result<Vec<u8>, Memory>
    ensures { IfOk result (λ text. text.items ≡ listing_of expansions.now tokens.now) }
{
    let mut text = Vec::new(alloc);
    let Some((first, others)) = tokens.split_first() else {
        return Ok(text);
    };
    let start = Cursor {
        rest: expansions,
        least: 0,
    };
    let (mut cursor, mut before) = root_of(expansions, start, first);
    text.extend_from_slice(first.pp.spelling.bytes())?;
    for token in others {
        let (next, place) = root_of(expansions, cursor, token);
        append_gap(&mut text, before, place)?;
        text.extend_from_slice(token.pp.spelling.bytes())?;
        cursor = next;
        before = place;
    }
    text.push(b'\n')?;
    Ok(text)
}

/// Appends what stands between two tokens with these roots.
fn append_gap(text: &mut Vec<u8>, before: Place, after: Place) -> Result<(), Memory>
    ensures { OnOk result (text.new.items ≡ text.old.items ++ gap before after) }
{
    text.push(if in_one_line(before, after) {
        b' '
    } else {
        b'\n'
    })?;
    Ok(())
}

fn in_one_line(before: Place, after: Place) -> bool
    ensures { result ≡ stand_in_one_line before after }
{
    before.file == after.file && before.line == after.line
}

/// The place of a token's root.
#[tactic(auto, unfolding(dm_expand::specs::Predefined::root_of))]
fn root_of<'a>(
    expansions: &'a [Expansion],
    cursor: Cursor<'a>,
    token: &Token,
) -> (Cursor<'a>, Place)
    requires { AgreesFrom expansions.now cursor.rest.now cursor.least }
    ensures place { result.1 ≡ root expansions.entry.now token.now }
    ensures cursor { AgreesFrom expansions.entry.now result.0.rest.now result.0.least }
{
    match first_mark(&token.trail) {
        Some(
            Mark::Expansion {
                definition: _,
                instance,
            },
        ) => name_of(expansions, cursor, instance, token.pp.place),
        _ => (cursor, token.pp.place),
    }
}

/// The outermost mark of a trail.
fn first_mark(trail: &Trail) -> Option<Mark>
    ensures { result ≡ slice_get trail.now 0 }
{
    let mut inner = trail;
    'walk: while let Some(outer) = inner.parent() {
        if outer.length() == 0 {
            return inner.last();
        }
        inner = outer;
    }
    None
}

/// The place of the name of the expansion with a number, or another place where there is none.
fn name_of<'a>(
    expansions: &'a [Expansion],
    cursor: Cursor<'a>,
    instance: u32,
    other: Place,
) -> (Cursor<'a>, Place)
    requires { AgreesFrom expansions.now cursor.rest.now cursor.least }
    ensures place { result.1 ≡ predefined.name_of instance expansions.entry.now other }
    ensures cursor { AgreesFrom expansions.entry.now result.0.rest.now result.0.least }
{
    let Cursor {
        mut rest,
        mut least,
    } = if u64::from(instance) < cursor.least {
        Cursor {
            rest: expansions,
            least: 0,
        }
    } else {
        cursor
    };
    'search: while let Some((first, others)) = rest.split_first() {
        if first.instance == instance {
            return (Cursor { rest, least }, first.name);
        }
        least = least.max(u64::from(first.instance) + 1);
        rest = others;
    }
    (Cursor { rest, least }, other)
}
