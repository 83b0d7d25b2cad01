//! Scopes that open and close (6.2.1).

ghost use Rattle.std.specs.Prelude.{◌≡◌, ◌<◌, ◌∷◌, ◌++◌, [], List as Sequence, OnOk, IfOk, length, take, drop};
ghost use Rattle.std.specs.FinMap as finite;
ghost use Rattle.dm_type.specs.declared.shape.Shape.{Shape as OneShape};
ghost use Rattle.dm_typing.specs.Views.{Begins};
ghost use Rattle.dm_edecl.specs.Standing as standings;
ghost use Rattle.dm_estanding.specs.Kinds.{WereTypes};
ghost use Rattle.dm_estanding.specs.Summaries.{StandsFor};
ghost use Rattle.dm_estanding.specs.Undoing.{KeepsTypes, set_kind, undone, IsWithin, Opens};
ghost use Rattle.dm_estanding.specs.declared.standing.Retyped.{Retyped as Change};
ghost use Rattle.dm_estanding.specs.declared.standing.Standing.{Standing as Held};

use crate::standing::{Mark, Retyped, Standing};
use dm_edeclarator::places::enter;
use dm_token::{List, Memory};
use dm_tree::Declared;
use dm_type::TypeId;
use dm_typing::Known;
use std::mem;

impl Standing {
    /// Opens a scope, in which nothing is declared yet.
    pub fn open(&mut self) -> Result<Mark, Memory>
        ensures opened { OnOk result ((later : Sequence OneShape) (before : standings.Standing) → StandsFor later self.old.known self.old.links before
            → StandsFor later self.new.known self.new.links (standings.opened finite.empty before)) }
        ensures opens { OnOk result (Opens self.old self.new) }
        ensures outside { OnOk result (0 < length self.old.known.scopes) }
        ensures declared { IfOk result (λ mark. mark.declared ≡ length self.new.known.declared) }
        ensures retyped { IfOk result (λ mark. mark.retyped ≡ length self.new.retyped.items) }
        ensures scopes { OnOk result (self.new.known.scopes ≡ finite.empty ∷ self.old.known.scopes) }
        ensures entries { self.new.known.declared ≡ self.old.known.declared }
        ensures types { self.new.known.types ≡ self.old.known.types }
        ensures changes { self.new.retyped.items ≡ self.old.retyped.items }
    {
        let mark = Mark {
            declared: self.known.declared.len(),
            retyped: self.retyped.len(),
        };
        enter(&mut self.known)?;
        Ok(mark)
    }

    /// Closes the innermost scope, which opened at this mark: what was declared before has the types of before (6.2.7p4).
    pub fn close(&mut self, mark: Mark)
        requires { 1 < length self.old.known.scopes }
        ensures closed { (outside opened : Held) → Opens outside opened → IsWithin opened self.old → mark.declared ≡ length opened.known.declared → mark.retyped ≡ length opened.retyped.items
            → (later : Sequence OneShape) → Begins self.old.known.types.shapes later → (before inside : standings.Standing) → StandsFor later outside.known outside.links before
            → StandsFor later self.old.known self.old.links inside
            → StandsFor later self.new.known self.new.links (record inside { known = standings.known_behind before.known inside.known }) }
        ensures around { (outside opened : Held) → Opens outside opened → IsWithin opened self.old → mark.declared ≡ length opened.known.declared → mark.retyped ≡ length opened.retyped.items
            → IsWithin outside self.new }
        ensures changes { self.new.retyped.items ≡ take mark.retyped self.old.retyped.items }
        ensures scopes { self.new.known.scopes ≡ drop 1 self.old.known.scopes }
        ensures types { self.new.known.types ≡ self.old.known.types }
        ensures entries { self.new.known.declared
            ≡ take mark.declared (undone (drop mark.retyped self.old.retyped.items) self.old.known.declared) ++ drop mark.declared self.old.known.declared }
    {
        leave(&mut self.known, &mut self.retyped, mark);
    }
}

/// Closes the innermost scope, and undoes the changes since the mark.
fn leave(known: &mut Known, retyped: &mut Vec<Retyped>, mark: Mark)
    requires scopes { 1 < length known.old.scopes }
    requires before { WereTypes known.old.types retyped.old.items }
    ensures scopes { known.new.scopes ≡ drop 1 known.old.scopes }
    ensures declared { known.new.declared
        ≡ take mark.declared (undone (drop mark.retyped retyped.old.items) known.old.declared) ++ drop mark.declared known.old.declared }
    ensures changes { retyped.new.items ≡ take mark.retyped retyped.old.items }
    ensures same { KeepsTypes known.old known.new }
{
    let alloc = *retyped.allocator();
    let inside = mem::replace(&mut known.declared, List::new(alloc));
    known.declared = undo(inside, retyped, mark);
    known.scopes.leave();
}

/// The entries, of which one has another type.
pub(crate) fn with_kind(entries: List<Declared>, number: u32, kind: TypeId) -> List<Declared>
    ensures { result ≡ set_kind number kind entries }
{
    let at = number as usize;
    if at >= entries.len() {
        return entries;
    }
    let mut items = entries.into_vec();
    items[at].kind = kind;
    List::from_vec(items)
}

/// The entries, where those that were declared before a mark have their types of then.
fn undo(entries: List<Declared>, retyped: &mut Vec<Retyped>, mark: Mark) -> List<Declared>
    ensures entries { result ≡ take mark.declared (undone (drop mark.retyped retyped.old.items) entries) ++ drop mark.declared entries }
    ensures changes { retyped.new.items ≡ take mark.retyped retyped.old.items }
{
    let mut entries = entries;
    while retyped.len() > mark.retyped {
        let change = last_change(retyped);
        entries = undo_one(entries, change, mark.declared);
    }
    entries
}

/// The last change, which is taken away.
fn last_change(retyped: &mut Vec<Retyped>) -> Retyped
    requires { 0 < length retyped.old.items }
    ensures { retyped.old.items ≡ retyped.new.items ++ result ∷ [] }
{
    retyped.pop().unwrap()
}

/// The entries without a change, if that is one of so many entries.
fn undo_one(entries: List<Declared>, change: Retyped, count: usize) -> List<Declared>
    ensures entries { (changes : Sequence Change) → take count (undone changes result) ≡ take count (undone (changes ++ change ∷ []) entries) }
    ensures behind { drop count result ≡ drop count entries }
{
    if (change.number as usize) < count {
        return with_kind(entries, change.number, change.kind);
    }
    entries
}
