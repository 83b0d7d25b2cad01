//! Typed trees in words.

use crate::scene::Scene;
use dm_tree::Core;
use std::alloc::Global;
use std::test::Fail;
use tree_words::trees::{Words, put_head, put_tree};

/// The words of what is declared, and of types.
fn words_of(scene: &Scene, spans: bool) -> Words<'_> {
    Words {
        declared: scene.declared.items(),
        kinds: scene.kinds.items(),
        spans,
    }
}

/// A tree in words: what each node is, its type, and the trees below it.
pub fn show(alloc: Global, scene: &Scene, spans: bool, core: &Core) -> Result<String, Fail> {
    let mut out = String::new(alloc);
    put_tree(&mut out, &words_of(scene, spans), core)?;
    Ok(out)
}

/// The outermost node of a tree: what it is, and its type.
pub fn show_outermost(alloc: Global, scene: &Scene, core: &Core) -> Result<String, Fail> {
    let mut out = String::new(alloc);
    put_head(&mut out, &words_of(scene, false), core)?;
    Ok(out)
}
