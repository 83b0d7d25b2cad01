//! Lists by the directives of definitions.

ghost use Rattle.std.specs.Prelude.{◌≡◌, ℕ, ◌<◌, ◌++◌, ◌∷◌, [], ◌==◌, ◌&&◌, cond, length, slice_set, slice_index_or, IfOk, OnOk};
ghost use Rattle.std.specs.List.{position_or_len};
ghost use Rattle.dm_runs.specs.Listings.{items_at, same};
ghost use Rattle.dm_runs.specs.Runs as runs;

use dm_token::{Definition, List, Memory, Origin};
use indexmap::IndexSet;
use std::alloc::Global;
use std::marker::Model;

/// The directive of a definition in a file: the file's number, and the byte of the `#`.
#[derive(Clone, Copy, Debug, PartialEq, Eq, Hash)]
pub(crate) struct Directive {
    file: u32,
    hash: u32,
}

/// A list for each of some definitions in files, by their directives. Contracts see the directives and the lists.
#[derive(Drop)]
pub struct ByDirective<T> {
    directives: IndexSet<Directive>,
    lists: Vec<List<T>>,
}

impl<T> Model for ByDirective<T> {
    ghost use Rattle.std.specs.Prelude.{◌≡◌, List as Sequence, length};
    ghost use Rattle.dm_runs.specs.declared.by_directive.Directive.{Directive as SeenDirective};

    ghost Value = { Sequence SeenDirective × Sequence (Sequence T) };

    ghost view = { λ all. (all.directives.keys, all.lists.items) };

    ghost invariant = { λ all. length all.lists.items ≡ length all.directives.keys };
}

/// Whether a definition stands in a file of the folder.
pub fn is_file(origin: Origin) -> bool
    ensures { result ≡ runs.is_file origin }
{
    matches!(origin, Origin::File)
}

/// Whether it is the definition whose `#` is this byte of a file.
pub fn is_at(definition: &Definition, file: u32, hash: u32) -> bool
    ensures { result ≡ runs.is_at file hash definition.now }
{
    is_file(definition.origin) && file == definition.place.file && hash == definition.hash
}

// Adds an item to one of some lists.
fn append<T: Drop>(lists: &mut [List<T>], index: usize, item: T) -> Result<(), Memory>
    requires { index < length lists.old }
    ensures { OnOk result (lists.new ≡ slice_set lists.old index (slice_index_or lists.old index [] ++ item ∷ [])) }
{
    lists[index].push(item)?;
    Ok(())
}

impl<T: Drop> ByDirective<T> {
    /// Empty lists. They take no memory.
    pub fn new(alloc: Global) -> ByDirective<T>
        ensures { (file hash : ℕ) → items_at result file hash ≡ [] }
    {
        ByDirective {
            directives: IndexSet::new(alloc),
            lists: Vec::new(alloc),
        }
    }

    // The same lists, with one for a directive, and that one's number.
    fn with_list(
        self,
        alloc: Global,
        directive: Directive,
    ) -> Result<(ByDirective<T>, usize), Memory>
        ensures items { IfOk result (λ r. (file hash : ℕ) → items_at r.0 file hash ≡ items_at self file hash) }
        ensures number { IfOk result (λ r. r.1 ≡ position_or_len (same directive) r.0.0) }
        ensures inside { IfOk result (λ r. r.1 < length r.0.0) }
    {
        let ByDirective {
            mut directives,
            mut lists,
        } = self;
        let (index, is_new) = directives.insert_full(directive)?;
        if is_new {
            lists.push(List::new(alloc))?;
        }
        Ok((ByDirective { directives, lists }, index))
    }

    /// With one more item behind the others of a definition's list.
    pub fn add(
        self,
        alloc: Global,
        definition: &Definition,
        item: T,
    ) -> Result<ByDirective<T>, Memory>
        ensures { IfOk result (λ more. (file hash : ℕ) → items_at more file hash
            ≡ items_at self file hash ++ cond ((file == definition.now.place.file) && (hash == definition.now.hash)) (item ∷ []) []) }
    {
        let directive = Directive {
            file: definition.place.file,
            hash: definition.hash,
        };
        let (mut more, index) = self.with_list(alloc, directive)?;
        append(&mut more.lists, index, item)?;
        Ok(more)
    }

    /// The list of the definition whose `#` is this byte of a file.
    pub fn of_definition(&self, file: u32, hash: u32) -> &[T]
        ensures { result.now ≡ items_at self.now file hash }
    {
        match self.directives.get_index_of(&Directive { file, hash }) {
            None => &[],
            Some(index) => self.lists[index].items(),
        }
    }
}
