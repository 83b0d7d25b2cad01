ghost use Rattle.std.specs.Prelude.{◌≡◌, ◌≤◌, List as Sequence, [], ◌∷◌, ◌++◌, length, take, drop, reverse, IfOk, OnOk, IsTrue, MatchOption};
ghost use Rattle.dm_token.specs.declared.expansion.Mark.{Mark};
ghost use Rattle.dm_token.specs.Prefixes.{IsLongestCommonPrefix};

use dm_token::{Mark, Memory, Trail};

/// A trail with one mark more.
pub fn grown(trail: &Trail, mark: Mark) -> Result<Trail, Memory>
    ensures { IfOk result (λ longer. longer ≡ trail.now ++ mark ∷ []) }
{
    if trail.length() == u32::MAX {
        return Err(Memory);
    }
    trail.grow(mark)
}

/// The innermost mark of a trail, and the trail without it.
pub fn innermost(trail: &Trail) -> Option<(Mark, &Trail)>
    ensures { MatchOption result (trail.now ≡ []) (λ found. trail.now ≡ found.1.now ++ found.0 ∷ []) }
{
    let outer = trail.parent()?;
    let mark = trail.last()?;
    Some((mark, outer))
}

/// A trail with the marks of another one that stand behind its first ones. `marks` is room for these.
pub fn regrown(
    marks: &mut Vec<Mark>,
    base: Trail,
    trail: &Trail,
    kept: u32,
) -> Result<Trail, Memory>
    requires { kept ≤ length trail.now }
    ensures { IfOk result (λ longer. longer ≡ base ++ drop kept trail.now) }
{
    take_behind(trail, kept, marks)?;
    let mut longer = base;
    'marks: while let Some(mark) = marks.pop() {
        longer = grown(&longer, mark)?;
    }
    Ok(longer)
}

/// Makes a list of the marks of a trail that stand behind its first ones, innermost first.
pub fn take_behind(trail: &Trail, kept: u32, marks: &mut Vec<Mark>) -> Result<(), Memory>
    requires { kept ≤ length trail.now }
    ensures { OnOk result (reverse marks.new.items ≡ drop kept trail.now) }
{
    marks.clear();
    let mut left = trail;
    'walk: while left.length() > kept {
        let Some((mark, outer)) = innermost(left) else {
            break;
        };
        marks.push(mark)?;
        left = outer;
    }
    Ok(())
}

/// The outermost marks of a trail, of which there are this many.
pub fn outermost(trail: &Trail, count: u32) -> &Trail
    requires { count ≤ length trail.now }
    ensures { result.now ≡ take count trail.now }
{
    let mut left = trail;
    'walk: while left.length() > count {
        let Some((_, outer)) = innermost(left) else {
            break;
        };
        left = outer;
    }
    left
}

/// Whether it is sure that two trails are the same.
pub fn are_same(left: &Trail, right: &Trail) -> bool
    ensures { IsTrue result → left.now ≡ right.now }
{
    *left == *right
}

/// How many marks two trails share from the outermost on.
pub fn shared_count(left: &Trail, right: &Trail) -> u32
    ensures { (both : Sequence Mark) × IsLongestCommonPrefix left.now right.now both × (result ≡ length both) }
{
    if left.length() == 0 {
        return 0;
    }
    left.common(right).length()
}
