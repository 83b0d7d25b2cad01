//! Places beside which something isn't quiet.

ghost use Rattle.std.specs.Prelude.{◌≡◌, ◌≤◌, ℕ, true, Some, length, map, option_map, slice_get, IfOk};
ghost use Rattle.std.specs.Option.{option_copied};
ghost use Rattle.dm_type.specs.Tables.{Table};
ghost use Rattle.dm_tree.specs.Views.{if_there, view, view_of_unit};
ghost use Rattle.dm_effect.specs.Stable as stable;
ghost use Rattle.dm_sites.specs.Sites.{sites_of_unit, Site as SeenSite};
ghost use Rattle.dm_around.specs.Noises as noises;
ghost use Rattle.dm_around.specs.Noises.{is_noisy, noisy_among as noisy_in, IsPureBelow};
ghost use Rattle.dm_around.specs.Places.{ArePlain, AreParents};
ghost use Rattle.dm_around.specs.Surroundings.{any_beside};

use crate::parents::parent_at;
use crate::parts::is_unsequenced;
use dm_effect::{QuietFunctions, is_pure, parts_of};
use dm_sites::Sites;
use dm_token::Memory;
use dm_tree::Core;
use std::alloc::Global;

/// What isn't quiet round a place.
#[derive(Clone, Copy)]
pub(crate) struct Noise {
    /// Whether something is that is unsequenced to the expression.
    pub beside: bool,
    /// How many of the expression's operands are, if it leaves them unsequenced.
    pub operands: usize,
    /// Whether it is known that the expression neither calls nor stores. Then neither does a part of it, so no part is gone through.
    pub pure: bool,
}

/// By the number of each place what isn't quiet round it.
pub(crate) fn noises_of(
    alloc: Global,
    sites: &Sites,
    quiet: &QuietFunctions,
    parents: &[Option<usize>],
) -> Result<Vec<Noise>, Memory>
    requires quiet { quiet.now ≡ sites.now }
    ensures { IfOk result (λ made. (types : Table) → ArePlain (sites_of_unit (view_of_unit types sites.now)) → AreParents (sites_of_unit (view_of_unit types sites.now)) parents.now
        → (n : ℕ) (site : SeenSite) → slice_get (sites_of_unit (view_of_unit types sites.now)) n ≡ Some site → (noises.noise_at made.items n).beside ≡ any_beside (is_noisy (view_of_unit types sites.now)) site) }
{
    let mut noises = Vec::new(alloc);
    while let Some(site) = sites.get(noises.len()) {
        let parent = parent_at(parents, noises.len());
        let noise = noise_below(quiet, noises.as_slice(), parent, site.tree);
        noises.push(noise)?;
    }
    Ok(noises)
}

/// What isn't quiet round an expression, by what isn't round the one above it.
fn noise_below(quiet: &QuietFunctions, known: &[Noise], parent: Option<usize>, tree: &Core) -> Noise
    ensures beside { (types : Table) → result.beside ≡ noises.is_beside known.now (is_noisy (view_of_unit types quiet.now) (view types tree.now)) parent }
    ensures operands { (types : Table) → IsPureBelow known.now parent (view types tree.now) → result.operands ≡ noises.noisy_operands (view_of_unit types quiet.now) (view types tree.now) }
    ensures pure { (types : Table) → IsPureBelow known.now parent (view types tree.now) → result.pure ≡ true → stable.is_pure (view types tree.now) ≡ true }
{
    let pure = is_pure_below(known, parent, tree);
    let operands = if pure { 0 } else { noisy_operands(quiet, tree) };
    let beside = match parent {
        Some(above) => is_beside(quiet, noise_at(known, above), tree),
        None => false,
    };
    Noise {
        beside,
        operands,
        pure,
    }
}

/// Whether it is known that an expression neither calls nor stores, by what is known of the one above it. An expression that leaves its
/// operands unsequenced is gone through for it, as its operands are to be.
fn is_pure_below(known: &[Noise], parent: Option<usize>, tree: &Core) -> bool
    ensures { (types : Table) → IsPureBelow known.now parent (view types tree.now) → result ≡ true → stable.is_pure (view types tree.now) ≡ true }
{
    if let Some(above) = parent {
        if noise_at(known, above).pure {
            return true;
        }
    }
    if !is_unsequenced(&tree.form) {
        return false;
    }
    is_pure(tree)
}

/// What isn't quiet round the place with this number.
pub(crate) fn noise_at(known: &[Noise], number: usize) -> Noise
    ensures { result ≡ noises.noise_at known.now number }
{
    match known.get(number) {
        Some(noise) => *noise,
        None => Noise {
            beside: false,
            operands: 0,
            pure: false,
        },
    }
}

/// Whether something isn't quiet beside an operand.
fn is_beside(quiet: &QuietFunctions, above: Noise, operand: &Core) -> bool
    ensures { (types : Table) → result ≡ noises.is_beside_operand above (is_noisy (view_of_unit types quiet.now) (view types operand.now)) }
{
    if above.beside {
        return true;
    }
    match above.operands {
        0 => false,
        1 => quiet.is_quiet(operand),
        _ => true,
    }
}

/// How many operands of an expression that leaves them unsequenced aren't quiet.
fn noisy_operands(quiet: &QuietFunctions, tree: &Core) -> usize
    ensures { (types : Table) → result ≡ noises.noisy_operands (view_of_unit types quiet.now) (view types tree.now) }
{
    if !is_unsequenced(&tree.form) {
        return 0;
    }
    let parts = parts_of(&tree.form);
    let front = noise_in(quiet, parts.first) + noise_in(quiet, parts.second);
    let back = noise_in(quiet, parts.third) + noise_in(quiet, parts.fourth);
    front + back + noisy_among(quiet, parts.items)
}

/// How many trees are there that aren't quiet.
fn noise_in(quiet: &QuietFunctions, part: Option<&Core>) -> usize
    ensures same { (types : Table) → result ≡ noisy_in (view_of_unit types quiet.now) (if_there (option_map (view types) (option_copied part.entry))) }
    ensures few { result ≤ 1 }
{
    match part {
        Some(tree) => { if quiet.is_quiet(tree) { 0 } else { 1 } }
        None => 0,
    }
}

/// How many of some trees aren't quiet.
fn noisy_among(quiet: &QuietFunctions, trees: &[Core]) -> usize
    ensures same { (types : Table) → result ≡ noisy_in (view_of_unit types quiet.now) (map (view types) trees.now) }
    ensures few { result ≤ length trees.now }
{
    let mut count = 0;
    let mut left = trees;
    while let Some((tree, rest)) = left.split_first() {
        if !quiet.is_quiet(tree) {
            count += 1;
        }
        left = rest;
    }
    count
}
