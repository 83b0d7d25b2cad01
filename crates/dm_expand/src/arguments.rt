ghost use Rattle.std.specs.Prelude.{◌≡◌, ◌==◌, ◌&&◌, nat_lt, ◌≤◌, ◌<◌, ◌+◌, ◌-◌, ◌^◌, [], ◌∷◌, take, drop, length, IfOk, MatchOption};
ghost use Rattle.dm_parentheses.specs.Parentheses.{before_closing};
ghost use Rattle.dm_expand.specs.Arguments as arguments;
ghost use Rattle.dm_expand.specs.Shares.{signs_of as sign_values};
ghost use Rattle.dm_expand.specs.Views.{is_one_empty};

use crate::item::Item;
use crate::stretch::Stretch;
use dm_macro::{is_comma, is_left_parenthesis, is_right_parenthesis, named_count};
use dm_token::{Definition, List, Memory};
use std::alloc::Global;
use std::collections::VecDeque;

/// What stands between a `(` and its closing `)`, and that `)`.
#[derive(Drop)]
pub struct Enclosed {
    pub inside: Stretch,
    pub closing: Item,
}

/// The depth behind a token, among parentheses.
#[tactic(auto, unfolding(crate::specs::Arguments::depth_behind, crate::specs::Arguments::opens, crate::specs::Arguments::closes))]
pub fn depth_behind(depth: usize, item: &Item) -> usize
    requires { depth < 2 ^ 63 }
    ensures is { result ≡ arguments.depth_behind depth item.now }
    ensures near { result ≤ depth + 1 }
{
    if is_left_parenthesis(&item.pp) {
        return depth + 1;
    }
    if is_right_parenthesis(&item.pp) {
        return depth.saturating_sub(1);
    }
    depth
}

// Whether a token closes what a `(` opened.
#[tactic(auto, unfolding(crate::specs::Arguments::closes))]
fn closes(item: &Item) -> bool
    ensures { result ≡ arguments.closes item.now }
{
    is_right_parenthesis(&item.pp)
}

/// Whether a token separates arguments.
#[tactic(auto, unfolding(crate::specs::Arguments::separates))]
pub fn separates(item: &Item) -> bool
    ensures { result ≡ arguments.separates item.now }
{
    is_comma(&item.pp)
}

/// Whether a token closes the invocation.
#[tactic(auto, unfolding(crate::specs::Arguments::closes))]
pub fn is_closing(depth: usize, item: &Item) -> bool
    ensures { result ≡ (arguments.closes item.now && depth == 0) }
{
    closes(item) && depth == 0
}

// Whether a token ends an argument, where so many commas are left.
fn ends_argument(left: usize, depth: usize, item: &Item) -> bool
    ensures { result ≡ ((arguments.separates item.now && depth == 0) && nat_lt 0 left) }
{
    separates(item) && depth == 0 && left > 0
}

/// The first item of a queue, which leaves it.
pub fn next_of<T>(queue: &mut VecDeque<T>) -> Option<T>
    ensures { MatchOption result ((queue.old.items ≡ []) × (queue.new.items ≡ [])) (λ item. queue.old.items ≡ item ∷ queue.new.items) }
{
    queue.pop_front()
}

/// How many tokens stand before the `)` that closes what a `(` before them opened.
pub fn count_before_closing(items: &[Item]) -> Option<usize>
    ensures { result ≡ before_closing 0 (sign_values items.now) }
{
    let mut depth = 0;
    for (count, item) in items.iter().enumerate() {
        if is_closing(depth, item) {
            return Some(count);
        }
        depth = depth_behind(depth, item);
    }
    None
}

/// How many tokens stand before the first comma that no parentheses enclose, where there may be so many commas. There is none
/// where all tokens are one argument.
pub fn count_before_comma(left: usize, items: &[Item]) -> Option<usize>
    ensures { MatchOption result (arguments.separated left 0 items.now ≡ items.now ∷ []) (λ count. (count < length items.now)
        × (arguments.separated left 0 items.now ≡ take count items.now ∷ arguments.separated (left - 1) 0 (drop (count + 1) items.now))) }
{
    let mut depth = 0;
    for (count, item) in items.iter().enumerate() {
        if ends_argument(left, depth, item) {
            return Some(count);
        }
        depth = depth_behind(depth, item);
    }
    None
}

// The tokens between the commas that no inner parentheses enclose, up to so many commas. What stands behind these is one
// argument.
fn separated(alloc: Global, commas: usize, inside: Stretch) -> Result<List<Stretch>, Memory>
    ensures { IfOk result (λ given. given ≡ arguments.separated commas 0 inside) }
{
    let mut given = List::new(alloc);
    let mut rest = inside;
    let mut left = commas;
    'arguments: while let Some(count) = rest.before_comma(left) {
        given.push(rest.front(count)?)?;
        rest.skip(count);
        // The comma.
        rest.skip(1);
        left = left.saturating_sub(1);
    }
    given.push(rest)?;
    Ok(given)
}

/// The arguments that an invocation gives, or `None` where their number is wrong (6.10.3p4).
#[tactic(auto, unfolding(crate::specs::Arguments::arguments_of))]
pub fn arguments_of(
    alloc: Global,
    definition: &Definition,
    inside: Stretch,
) -> Result<Option<List<Stretch>>, Memory>
    ensures { IfOk result (λ given. given ≡ arguments.arguments_of definition.now inside) }
{
    let parameters = named_count(definition);
    let given = separated(alloc, parameters, inside)?;
    if definition.variadic {
        variadic_arguments(alloc, parameters, given)
    } else {
        Ok(exact_arguments(alloc, parameters, given))
    }
}

// As many arguments as parameters, where `()` has none for a macro without parameters.
fn exact_arguments(alloc: Global, parameters: usize, given: List<Stretch>) -> Option<List<Stretch>>
    ensures { result ≡ arguments.exact_arguments parameters given }
{
    if parameters == 0 {
        if is_nothing(&given) {
            return Some(List::new(alloc));
        }
        return None;
    }
    if given.len() == parameters {
        return Some(given);
    }
    None
}

// Whether there is one argument, an empty one.
fn is_nothing(given: &List<Stretch>) -> bool
    ensures { result ≡ is_one_empty given.now }
{
    match given.items() {
        [only] => only.len() == 0,
        _ => false,
    }
}

// As many arguments as parameters, and the variable ones.
#[tactic(auto, unfolding(crate::specs::Arguments::variadic_arguments))]
fn variadic_arguments(
    alloc: Global,
    parameters: usize,
    given: List<Stretch>,
) -> Result<Option<List<Stretch>>, Memory>
    ensures { IfOk result (λ all. all ≡ arguments.variadic_arguments parameters given) }
{
    let mut given = given;
    if given.len() == parameters {
        given.push(Stretch::of(alloc, Vec::new(alloc))?)?;
        return Ok(Some(given));
    }
    if parameters < given.len() && given.len() - parameters == 1 {
        return Ok(Some(given));
    }
    Ok(None)
}
