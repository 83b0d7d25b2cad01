//! The numbers of expansions.

ghost use Rattle.std.specs.Prelude.{◌≡◌, ℕ, ◌++◌, ◌∷◌, [], cond, List as Sequence, IfOk, OnOk};
ghost use Rattle.dm_runs.specs.declared.run.Run.{Run as SeenRun};
ghost use Rattle.dm_rules.specs.Instances.{AreOf, has};

use dm_runs::Run;
use dm_token::Memory;
use std::alloc::Global;
use std::collections::HashSet;

/// The numbers of the expansions that some runs are of.
#[derive(Drop)]
pub struct Instances {
    numbers: HashSet<u32>,
}

impl Instances {
    /// Those of no run. They take no memory.
    pub fn new(alloc: Global) -> Instances
        ensures { AreOf [] result }
    {
        Instances {
            numbers: HashSet::new(alloc),
        }
    }

    /// With that of one more run.
    pub fn add(&mut self, run: &Run) -> Result<(), Memory>
        ensures { OnOk result ((runs : Sequence SeenRun) → AreOf runs self.old → AreOf (runs ++ run.now ∷ []) self.new) }
    {
        self.numbers.insert(run.instance)?;
        Ok(())
    }

    /// With that of one more run, if that is wanted.
    pub fn add_if(&mut self, run: &Run, is_wanted: bool) -> Result<(), Memory>
        ensures { OnOk result ((runs : Sequence SeenRun) → AreOf runs self.old → AreOf (runs ++ cond is_wanted (run.now ∷ []) []) self.new) }
    {
        if is_wanted {
            self.add(run)?;
        }
        Ok(())
    }

    /// Those of these runs.
    pub fn of(alloc: Global, runs: &[Run]) -> Result<Instances, Memory>
        ensures { IfOk result (AreOf runs.now) }
    {
        let mut instances = Instances::new(alloc);
        for run in runs {
            instances.add(run)?;
        }
        Ok(instances)
    }

    /// Whether one of the runs is of the expansion with this number.
    pub fn has(&self, instance: u32) -> bool
        ensures { result ≡ has self.now instance }
    {
        self.numbers.contains(&instance)
    }
}
