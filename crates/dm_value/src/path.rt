//! Paths from an object to one of its parts (6.2.6, 6.5.6p7).

ghost use Rattle.std.specs.Prelude.{◌≡◌, ◌∷◌, [], ◌++◌, IfOk, map};
ghost use Rattle.dm_meaning.specs.Values as values;
ghost use Rattle.dm_value.specs.Parts.{view_of_part};

use dm_token::{List, Memory};
use std::alloc::Global;
use std::marker::Model;
use std::rc::Rc;
use std::slice;

/// A step from an object into it, or beyond it.
#[derive(Clone, Copy, Debug)]
pub enum Part {
    /// The element, or the member, of this number.
    Inner(u32),
    /// One past an object that is no element of an array.
    Past,
}

/// Which part of an object, from the whole inwards. Contracts see it as the list of its steps. A path of at most one step
/// takes no memory, and a copy of any path shares it.
#[derive(Drop)]
pub struct Path {
    steps: Steps,
}

#[derive(Drop)]
enum Steps {
    Whole,
    One(Part),
    More(Rc<List<Part>>),
}

impl Model for Path {
    ghost use Rattle.dm_meaning.specs.Values as values;
    ghost use Rattle.dm_value.specs.Paths.{view_of_steps};

    ghost Value = { values.Path };

    ghost view = { λ path. view_of_steps path.steps };
}

impl Path {
    /// The path to the whole object.
    pub fn whole() -> Path
        ensures { result ≡ [] }
    {
        Path {
            steps: Steps::Whole,
        }
    }

    /// The path of these steps.
    pub fn of(alloc: Global, steps: Vec<Part>) -> Result<Path, Memory>
        ensures { IfOk result (λ path. path ≡ map view_of_part steps.items) }
    {
        let steps = match steps.as_slice() {
            [] => Steps::Whole,
            [step] => Steps::One(*step),
            _ => Steps::More(Rc::new(alloc, List::from_vec(steps))?),
        };
        Ok(Path { steps })
    }

    pub fn steps(&self) -> &[Part]
        ensures { map view_of_part result.now ≡ self.now }
    {
        match &self.steps {
            Steps::Whole => &[],
            Steps::One(step) => slice::from_ref(step),
            Steps::More(steps) => steps.as_ref().items(),
        }
    }

    /// The same path. It fails only where a counter of owners is full.
    pub fn copy(&self) -> Result<Path, Memory>
        ensures { IfOk result (λ path. path ≡ self.now) }
    {
        let steps = match &self.steps {
            Steps::Whole => Steps::Whole,
            Steps::One(step) => Steps::One(*step),
            Steps::More(steps) => Steps::More(steps.clone()?),
        };
        Ok(Path { steps })
    }

    /// The path to a part of what this one leads to.
    pub fn inside(&self, alloc: Global, number: u32) -> Result<Path, Memory>
        ensures { IfOk result (λ path. path ≡ self.now ++ values.part number ∷ []) }
    {
        let mut steps = Vec::from_slice(alloc, self.steps())?;
        steps.push(Part::Inner(number))?;
        Path::of(alloc, steps)
    }
}

/// Whether two steps are the same.
fn is_same_part(a: Part, b: Part) -> bool
    ensures { result ≡ values.same_part (view_of_part a) (view_of_part b) }
{
    match (a, b) {
        (Part::Inner(a), Part::Inner(b)) => a == b,
        (Part::Past, Part::Past) => true,
        _ => false,
    }
}

/// Whether one of two paths begins with the other.
pub(crate) fn along(a: &[Part], b: &[Part]) -> bool
    ensures { result ≡ values.along (map view_of_part a.now) (map view_of_part b.now) }
{
    let mut left = a;
    let mut right = b;
    while let (Some((first, rest)), Some((other, others))) = (
        left.split_first(),
        right.split_first(),
    ) {
        if !is_same_part(*first, *other) {
            return false;
        }
        left = rest;
        right = others;
    }
    true
}
