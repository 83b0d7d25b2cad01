//! The conditions of conditional inclusion (6.10.1).

ghost use Rattle.std.specs.Prelude.{◌≡◌, ◌+◌, ◌*◌, ◌≤◌, ◌++◌, suc, length, map, IfOk, IfErr, IfSome, OnOk};
ghost use Rattle.std.specs.List.{list_any};
ghost use Rattle.dm_token.specs.declared.token.Token.{Token as Shown};
ghost use Rattle.dm_token.specs.declared.token.PpToken.{PpToken as Preprocessing};
ghost use Rattle.dm_unit.specs.States.{Catalogue};
ghost use Rattle.dm_unit.specs.Loaders.{shown};
ghost use Rattle.dm_unit.specs.Conditions.{Evaluates, AreInOrder, defined_test, is_defined as is_defined_in, is_defined_word, first_item, defined_item, parenthesized_item, replaced as replaced_by, names_asked, number_of_use, truth_token as token_of_truth, use_by as use_made_by};
ghost use Rattle.dm_unit.specs.Views.{IsFaultless, state_of, Tests, item_value, TakesItem, IsCounted, Follows};

use crate::definition::use_of;
use crate::reader::Reader;
use crate::stops::refused;
use crate::text::expand_in;
use dm_cond::condition;
use dm_expand::Expanded;
use dm_macro::{
    MacroTable, is_identifier, is_left_parenthesis, is_predefined, is_right_parenthesis, is_word,
};
use dm_search::Loader;
use dm_token::{Expansion, Memory, PpKind, PpToken, Stop, Text, Token, Use, refusals};
use std::alloc::Global;

/// What stands behind a `defined`.
struct Operand<'a> {
    name: &'a PpToken,
    /// The name, or the `)` behind it.
    last: &'a PpToken,
    /// How many tokens there are.
    more: usize,
}

/// The operands of a condition once each `defined` is replaced, and the names that it asks for.
#[derive(Drop)]
struct Replaced {
    tokens: Vec<PpToken>,
    uses: Vec<Use>,
}

/// Whether the condition of `if` or `elif` is true. It counts the work, and records the names that are used.
pub(crate) fn evaluate(
    alloc: Global,
    reader: &mut Reader,
    loader: &Loader,
    start: &PpToken,
    operands: &[PpToken],
) -> Result<bool, Stop>
    requires { IsCounted reader.old }
    ensures tests { Tests (Evaluates reader.old.main start.now operands.now (state_of reader.old (shown loader.now))) result (state_of reader.new (shown loader.now)) }
    ensures follows { OnOk result (Follows reader.old reader.new) }
    ensures sections { OnOk result (reader.new.sections ≡ reader.old.sections) }
    ensures faultless { IfErr result IsFaultless }
{
    let replaced = replace_defined(alloc, &reader.table, operands)?;
    let Replaced { tokens, uses } = replaced;
    let expanded = expand_in(alloc, reader, loader.names(), &tokens)?;
    let Expanded { tokens, expansions } = expanded;
    if has_defined(tokens.items()) {
        return Err(refused(refusals::CONDITION, start.place));
    }
    let truth = match condition(alloc, tokens.items(), start.place) {
        Ok(truth) => truth,
        Err(stop) => return Err(stop),
    };
    let mut uses = in_order(alloc, &reader.table, uses, expansions.items())?;
    reader.uses.append(&mut uses)?;
    Ok(truth)
}

/// Whether a name is defined, or isn't, as `ifdef` and `ifndef` ask.
pub(crate) fn test_defined(
    reader: &mut Reader,
    wanted: bool,
    start: &PpToken,
    operands: &[PpToken],
) -> Result<bool, Stop>
    requires { IsCounted reader.old }
    ensures tests { (files : Catalogue) → Tests (λ result. result ≡ defined_test wanted start.now operands.now (state_of reader.old files)) result (state_of reader.new files) }
    ensures follows { OnOk result (Follows reader.old reader.new) }
    ensures faultless { IfErr result IsFaultless }
{
    let [name, ..] = operands else {
        return Err(refused(refusals::DIRECTIVE, start.place));
    };
    if !is_identifier(name) {
        return Err(refused(refusals::DIRECTIVE, start.place));
    }
    let used = use_of(&reader.table, name)?;
    reader.uses.push(used)?;
    let truth = is_defined(&reader.table, name);
    Ok(if wanted { truth } else { !truth })
}

/// Whether a name is defined; the predefined names are (6.10.8).
fn is_defined(table: &MacroTable, name: &PpToken) -> bool
    ensures { result ≡ is_defined_in table.now name.now }
{
    table.get(&name.spelling).is_some() || is_predefined(name.spelling.bytes())
}

/// Replaces each `defined` and its name by 1 or 0 (6.10.1p1).
fn replace_defined(
    alloc: Global,
    table: &MacroTable,
    operands: &[PpToken],
) -> Result<Replaced, Memory>
    ensures tokens { IfOk result (λ replaced. replaced.tokens.items ≡ replaced_by table.now operands.now) }
    ensures uses { IfOk result (λ replaced. replaced.uses.items ≡ names_asked table.now operands.now) }
{
    let mut replaced = Replaced {
        tokens: Vec::new(alloc),
        uses: Vec::new(alloc),
    };
    let mut rest = operands;
    while let Some((first, others)) = rest.split_first() {
        let more = take_item(alloc, table, &mut replaced, first, others)?;
        rest = others.split_at(more).1;
    }
    Ok(replaced)
}

/// Takes the item that begins with a token, and gives the number of tokens more that belong to it.
fn take_item(
    alloc: Global,
    table: &MacroTable,
    replaced: &mut Replaced,
    first: &PpToken,
    others: &[PpToken],
) -> Result<usize, Memory>
    ensures { IfOk result (TakesItem table.now first.now others.now replaced.old.tokens.items replaced.new.tokens.items replaced.old.uses.items replaced.new.uses.items) }
{
    match first_operand(first, others) {
        None => {
            replaced.tokens.push(first.copy()?)?;
            Ok(0)
        }
        Some(Operand { name, last, more }) => {
            let truth = is_defined(table, name);
            replaced
                .tokens
                .push(truth_token(alloc, truth, first, last)?)?;
            replaced.uses.push(use_of(table, name)?)?;
            Ok(more)
        }
    }
}

/// What stands behind a token, if that is `defined`.
fn first_operand<'a>(first: &PpToken, others: &'a [PpToken]) -> Option<Operand<'a>>
    ensures item { first_item first.now others.now ≡ item_value first.now result }
    ensures inside { IfSome result (λ operand. operand.more ≤ length others.now) }
{
    if is_word(first, b"defined".as_slice()) {
        defined_operand(others)
    } else {
        None
    }
}

/// The name behind a `defined`.
fn defined_operand(others: &[PpToken]) -> Option<Operand<'_>>
    ensures item { (word : Preprocessing) → defined_item word others.now ≡ item_value word result }
    ensures inside { IfSome result (λ operand. operand.more ≤ length others.now) }
{
    match others {
        [] => None,
        [first, behind @ ..] => {
            if is_identifier(first) {
                Some(Operand {
                    name: first,
                    last: first,
                    more: 1,
                })
            } else {
                parenthesized(first, behind)
            }
        }
    }
}

/// The name in parentheses behind a `defined`.
fn parenthesized<'a>(first: &PpToken, behind: &'a [PpToken]) -> Option<Operand<'a>>
    ensures item { (word : Preprocessing) → parenthesized_item word first.now behind.now ≡ item_value word result }
    ensures inside { IfSome result (λ operand. operand.more ≤ suc (length behind.now)) }
{
    match behind {
        [name, last, ..] => {
            if is_left_parenthesis(first) && is_identifier(name) && is_right_parenthesis(last) {
                Some(Operand {
                    name,
                    last,
                    more: 3,
                })
            } else {
                None
            }
        }
        _ => None,
    }
}

/// The token that a `defined` becomes.
fn truth_token(
    alloc: Global,
    truth: bool,
    word: &PpToken,
    last: &PpToken,
) -> Result<PpToken, Memory>
    ensures { IfOk result (λ token. token ≡ token_of_truth truth word.now last.now) }
{
    Ok(PpToken {
        kind: PpKind::Number,
        spelling: Text::new(alloc, if truth { "1" } else { "0" })?,
        place: word.place,
        end: last.end,
        blank_before: word.blank_before,
        line_first: word.line_first,
    })
}

/// Whether a `defined` is left among expanded tokens.
fn has_defined(tokens: &[Token]) -> bool
    ensures { result ≡ list_any (λ (token : Shown). is_defined_word token.pp) tokens.now }
{
    tokens
        .iter()
        .any(|token| is_word(&token.pp, b"defined".as_slice()))
}

/// The names that a condition uses, in the order of their places: those that it asks for, and those of its expansions.
fn in_order(
    alloc: Global,
    table: &MacroTable,
    asked: Vec<Use>,
    made: &[Expansion],
) -> Result<Vec<Use>, Memory>
    ensures { IfOk result (λ uses. AreInOrder (asked.items ++ map (use_made_by table.now) made.now) uses.items) }
{
    let mut uses = asked;
    for expansion in made {
        uses.push(use_by(alloc, table, expansion)?)?;
    }
    uses.sort_by_key(|used| place_number(used))?;
    Ok(uses)
}

/// The number of a use's place in the order of files and then of bytes.
fn place_number(used: &Use) -> u64
    ensures { result ≡ number_of_use used.now }
{
    number_of(used.place.file, used.place.byte)
}

fn number_of(file: u32, byte: u32) -> u64
    ensures { result ≡ file * 4294967296 + byte }
{
    u64::from(file) * 4_294_967_296 + u64::from(byte)
}

/// The use of a macro that is expanded.
fn use_by(alloc: Global, table: &MacroTable, expansion: &Expansion) -> Result<Use, Memory>
    ensures { IfOk result (λ used. used ≡ use_made_by table.now expansion.now) }
{
    let name = match table.definitions().get(expansion.definition as usize) {
        None => Text::new(alloc, "")?,
        Some(definition) => definition.name.copy()?,
    };
    Ok(Use {
        name,
        definition: Some(expansion.definition),
        place: expansion.name,
    })
}
