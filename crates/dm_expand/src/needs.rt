ghost use Rattle.std.specs.Prelude.{◌≡◌, IsTrue, List as Sequence, [], IfOk, OnOk, set};
ghost use Rattle.dm_expand.specs.Items.{Item as Token};
ghost use Rattle.dm_expand.specs.HeadViews.{macros_of};
ghost use Rattle.dm_expand.specs.Laws.{AreNoNames};
ghost use Rattle.dm_expand.specs.Needs.{with_others, AreServed};
ghost use Rattle.dm_expand.specs.Substitution as substitution;
ghost use Rattle.dm_expand.specs.Works.{parts_from, IsLastPlace};

use crate::fill::copy_of_argument;
use crate::head::{Macros, names_nothing};
use crate::item::Item;
use crate::paste::Site;
use crate::stretch::Stretch;
use crate::substitute::Whole;
use dm_token::{Definition, List, Memory};
use std::alloc::Global;
use std::mem;

// Takes the argument for a parameter out of those that are given, and leaves none of its tokens there.
#[tactic(auto, unfolding(crate::specs::Substitution::argument_for))]
fn take_out(alloc: Global, site: &mut Site, parameter: u32) -> Result<Stretch, Memory>
    ensures taken { IfOk result (λ taken. taken ≡ substitution.argument_for site.old parameter) }
    ensures left { OnOk result (site.new ≡ with_others site.old (set site.old.arguments parameter [])) }
{
    let nothing = Stretch::of(alloc, Vec::new(alloc))?;
    let mut arguments = mem::replace(&mut site.arguments, List::new(alloc)).into_vec();
    let index = parameter as usize;
    let taken = if index < arguments.len() {
        mem::replace(&mut arguments[index], nothing)
    } else {
        nothing
    };
    site.arguments = List::from_vec(arguments);
    Ok(taken)
}

/// The argument that a part of a replacement list puts in, as it is before its expansion. If no part behind that one puts it in
/// too, the invocation has it no longer, so that its tokens are held no longer than they are needed.
pub fn take_argument(
    alloc: Global,
    site: &mut Site,
    definition: &Definition,
    whole: Whole,
) -> Result<Stretch, Memory>
    requires { IsLastPlace definition.now whole }
    ensures argument { IfOk result (λ argument. argument ≡ substitution.argument_for site.old whole.entry.parameter) }
    ensures served { OnOk result ((others : Sequence (Sequence Token)) × (site.new ≡ with_others site.old others) × AreServed site.old others (parts_from definition.now whole.entry.behind)) }
{
    if whole.last {
        let taken = take_out(alloc, site, whole.parameter)?;
        return Ok(taken);
    }
    let copy = copy_of_argument(alloc, site, whole.parameter)?;
    Ok(copy)
}

/// Whether it is sure that tokens are their own expansion, since they name no macro and nothing that is predefined.
pub fn stay(macros: &Macros, items: &[Item]) -> bool
    ensures { IsTrue result → AreNoNames (macros_of macros.now) items.now }
{
    for item in items {
        if !names_nothing(macros, item) {
            return false;
        }
    }
    true
}
