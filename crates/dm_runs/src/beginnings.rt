//! The beginnings of trails by number.

ghost use Rattle.std.specs.Prelude.{◌≡◌, ◌≤◌, [], ◌∷◌, ◌++◌, None, Some, List as Sequence, length, map, take, drop, fold, IfOk, IfSome, IsTrue, MatchOption, OnOk, slice_get};
ghost use Rattle.dm_token.specs.declared.expansion.Mark.{Mark as SeenMark};
ghost use Rattle.dm_runs.specs.Beginnings.{beginnings_of, once_more};
ghost use Rattle.dm_runs.specs.Trees.{AreLinked, AreNumbers, IsBelow, IsLonger, link_of};

use dm_token::{Mark, Memory, Trail};
use indexmap::IndexSet;
use std::alloc::Global;
use std::hash::{Hash, Hasher};

/// A trail as the number of the one without its innermost mark, and that mark.
#[derive(Clone, Copy, Debug, PartialEq, Eq)]
pub(crate) struct Link {
    above: usize,
    is_argument: bool,
    first: u32,
    second: u32,
}

/// In two writes, since each takes time. At most two links differ in nothing but their kind.
impl Hash for Link {
    ghost use Rattle.std.specs.Hash as fed;
    ghost use Rattle.std.proofs.Common.{rules};
    ghost use Rattle.std.specs.Cmp.Rules.{hashing};
    ghost use Rattle.std.specs.Prelude.{◌++◌, ◌+◌, ◌*◌, ◌^◌};

    ghost hash_input = { λ link. fed.usize link.above ++ fed.u64 (link.first * 2 ^ 32 + link.second) };

    ghost respects_eq = { Prim.search (hashing, rules) };

    fn hash<H: Hasher>(&self, state: &mut H) {
        self.above.hash(state);
        (self.first as u64 * 0x1_0000_0000 + self.second as u64).hash(state);
    }
}

fn link_to(above: usize, mark: Mark) -> Link
    ensures { result ≡ link_of above mark }
{
    match mark {
        Mark::Expansion {
            definition,
            instance,
        } => Link {
            above,
            is_argument: false,
            first: definition,
            second: instance,
        },
        Mark::Argument {
            parameter,
            occurrence,
        } => Link {
            above,
            is_argument: true,
            first: parameter,
            second: occurrence,
        },
    }
}

/// The beginnings of a trail with more than so many marks, the shortest first, in the room of others.
fn lineage<'a>(
    room: Vec<&'a Trail>,
    trail: &'a Trail,
    shared: u32,
) -> Result<Vec<&'a Trail>, Memory>
    requires { shared ≤ length trail.now }
    ensures { IfOk result (λ found. map (λ one. one.now) found.items ≡ drop shared (beginnings_of trail.now)) }
{
    let mut found = room;
    found.clear();
    let mut rest = trail;
    while rest.length() > shared {
        found.push(rest)?;
        let Some(outer) = rest.parent() else {
            unreachable!();
        };
        rest = outer;
    }
    found.reverse();
    Ok(found)
}

/// The trail that was walked last, if one was, with the numbers of its first marks, and the room in which the next one is walked.
#[derive(Drop)]
pub(crate) struct Path<'a> {
    trail: Option<&'a Trail>,
    pub(crate) numbers: Vec<usize>,
    lineage: Vec<&'a Trail>,
}

impl<'a> Path<'a> {
    /// Before the first trail.
    pub(crate) fn new(alloc: Global) -> Path<'a>
        ensures { result.trail ≡ None }
    {
        Path {
            trail: None,
            numbers: Vec::new(alloc),
            lineage: Vec::new(alloc),
        }
    }

    /// Whether the trail that was walked last is this one.
    fn is_of(&self, trail: &Trail) -> bool
        ensures { IsTrue result → MatchOption self.now.trail ⊥ (λ last. last.now ≡ trail.now) }
    {
        match self.trail {
            Some(last) => *last == *trail,
            None => false,
        }
    }

    /// With how many marks a trail begins as the one does that was walked last, if one was. The numbers of none to so many marks stay.
    fn share(&mut self, trail: &Trail) -> Result<u32, Memory>
        ensures within { IfOk result (λ shared. shared ≤ length trail.now) }
        ensures numbers { IfOk result (λ shared. (trails : Sequence (Sequence SeenMark)) → slice_get trails 0 ≡ Some []
            → IfSome self.old.trail (λ last. AreNumbers trails last.now self.old.numbers.items) → AreNumbers trails (take shared trail.now) self.new.numbers.items) }
    {
        match self.trail {
            None => {
                self.numbers.clear();
                self.numbers.push(0)?;
                Ok(0)
            }
            Some(last) => {
                let shared = trail.common(last).length();
                self.numbers.truncate(shared as usize + 1);
                Ok(shared)
            }
        }
    }
}

/// The beginnings of the trails that were met, in the order in which each was first met. Their numbers are their
/// positions: the trail without marks has 0.
#[derive(Drop)]
pub(crate) struct Beginnings {
    pub(crate) links: IndexSet<Link>,
    pub(crate) trails: Vec<Trail>,
}

impl Beginnings {
    pub(crate) fn new(alloc: Global) -> Result<Beginnings, Memory>
        ensures linked { IfOk result (λ found. AreLinked found.links.keys found.trails.items) }
        ensures trails { IfOk result (λ found. found.trails.items ≡ [] ∷ []) }
    {
        let mut trails = Vec::new(alloc);
        trails.push(Trail::empty(alloc))?;
        Ok(Beginnings {
            links: IndexSet::new(alloc),
            trails,
        })
    }

    /// The number of a trail that is one mark longer than the one with a number.
    fn add(&mut self, above: usize, trail: &Trail) -> Result<usize, Memory>
        requires linked { AreLinked self.old.links.keys self.old.trails.items }
        requires longer { IsLonger self.old.trails.items above trail.now }
        ensures linked { OnOk result (AreLinked self.new.links.keys self.new.trails.items) }
        ensures trails { OnOk result (self.new.trails.items ≡ once_more self.old.trails.items trail.now) }
        ensures number { IfOk result (λ number. slice_get self.new.trails.items number ≡ Some trail.now) }
    {
        let Some(mark) = trail.last() else {
            unreachable!();
        };
        let (index, is_new) = self.links.insert_full(link_to(above, mark))?;
        if is_new {
            self.trails.push(trail.copy()?)?;
        }
        Ok(index + 1)
    }

    /// The numbers of the first marks of a trail, of none on. Only what it doesn't share with the trail that was walked
    /// last is looked up. What wasn't met before is added.
    fn follow<'a>(&mut self, path: Path<'a>, trail: &'a Trail) -> Result<Path<'a>, Memory>
        requires linked { AreLinked self.old.links.keys self.old.trails.items }
        requires path { IfSome path.trail (λ last. AreNumbers self.old.trails.items last.now path.numbers.items) }
        ensures linked { OnOk result (AreLinked self.new.links.keys self.new.trails.items) }
        ensures trails { OnOk result (self.new.trails.items ≡ fold once_more self.old.trails.items (beginnings_of trail.now)) }
        ensures numbers { IfOk result (λ path. AreNumbers self.new.trails.items trail.now path.numbers.items) }
        ensures path { IfOk result (λ path. IfSome path.trail (λ last. last.now ≡ trail.now)) }
    {
        let mut path = path;
        let shared = path.share(trail)?;
        let Path {
            trail: _,
            mut numbers,
            lineage: room,
        } = path;
        let lineage = lineage(room, trail, shared)?;
        let mut above = numbers[shared as usize];
        for beginning in &lineage {
            above = self.add(above, beginning)?;
            numbers.push(above)?;
        }
        Ok(Path {
            trail: Some(trail),
            numbers,
            lineage,
        })
    }

    /// The same, where nothing is looked up if the trail that was walked last is the same.
    pub(crate) fn walk<'a>(&mut self, path: Path<'a>, trail: &'a Trail) -> Result<Path<'a>, Memory>
        requires linked { AreLinked self.old.links.keys self.old.trails.items }
        requires path { IfSome path.trail (λ last. AreNumbers self.old.trails.items last.now path.numbers.items) }
        ensures linked { OnOk result (AreLinked self.new.links.keys self.new.trails.items) }
        ensures trails { OnOk result (self.new.trails.items ≡ fold once_more self.old.trails.items (beginnings_of trail.now)) }
        ensures numbers { IfOk result (λ path. AreNumbers self.new.trails.items trail.now path.numbers.items) }
        ensures path { IfOk result (λ path. IfSome path.trail (λ last. AreNumbers self.new.trails.items last.now path.numbers.items)) }
    {
        if path.is_of(trail) {
            return Ok(path);
        }
        self.follow(path, trail)
    }

    /// The number of the trail that is one mark longer than the one with a number, if it was met.
    pub(crate) fn below(&self, above: usize, mark: Mark) -> Option<usize>
        requires linked { AreLinked self.now.links.keys self.now.trails.items }
        ensures { (outer : Sequence SeenMark) → slice_get self.now.trails.items above ≡ Some outer → IsBelow self.now.trails.items (outer ++ mark ∷ []) result }
    {
        match self.links.get_index_of(&link_to(above, mark)) {
            None => None,
            Some(index) => Some(index + 1),
        }
    }
}
