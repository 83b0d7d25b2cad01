//! The objects of static storage duration so far (6.2.4p3, 6.9.2).

ghost use Rattle.std.specs.Prelude.{◌≡◌, length};
ghost use Rattle.std.proofs.Props.{props};
ghost use Rattle.dm_program.specs.Placing.{ArePlaced};

use crate::fixed::Static;
use dm_tree::Declared;

/// The objects so far.
#[derive(Drop)]
pub(crate) struct Gathering<'a> {
    pub declared: &'a [Declared],
    pub statics: Vec<Static<'a>>,
    /// Where each stands among them, by the number of its declaration.
    pub places: Vec<Option<usize>>,
    ghost placed: { ArePlaced places.items statics.items } by { Prim.hlevel props },
    ghost sized: { length places.items ≡ length declared.now },
}
