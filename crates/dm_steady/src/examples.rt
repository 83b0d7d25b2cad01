//! A small unit whose run meets the premises of the law.

ghost use Rattle.std.specs.Prelude.{IsTrue};
ghost use Rattle.dm_type.specs.Tables.{no_type};
ghost use Rattle.dm_scoped.specs.Spans.{IsLaidOutUnit};
ghost use Rattle.dm_apart.specs.Apart.{HasPartsApart};
ghost use Rattle.dm_align.specs.Examples as examples;
ghost use Rattle.dm_beside.specs.Evaluation.{evaluates_alike};
ghost use Rattle.dm_standing.specs.Calls.{MayCall};

/// `int f(int x, int y) { return MAX(x, y); }` with `#define MAX(a,b) ((a)>(b)?(a):(b))`: both parameters occur twice, and the first of each occurs in
/// the condition. The nodes of the unit stand in order, and the occurrences apart, so each occurrence stands in the run. What else the law asks
/// `a_maximum_refines` of `dm_late` shows of this unit.
pub fn a_maximum_comes_early()
    ensures layout { IsLaidOutUnit examples.max_old }
    ensures parts { HasPartsApart examples.run_of_max }
    ensures may_call { MayCall no_type examples.max_old examples.run_of_max }
    ensures early { IsTrue (evaluates_alike no_type examples.max_old examples.run_of_max) }
{}
