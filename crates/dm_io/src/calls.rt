ghost use Rattle.std.specs.Prelude.{◌≡◌, ◌≤◌, IsTrue};

use dm_token::List;

/// The calls of a folder or a sink in memory, numbered from 0, and which of them are to fail.
#[derive(Debug, Drop)]
pub struct Calls {
    /// The numbers of the calls that are to fail.
    failing: List<u32>,
    /// How many calls were made, or the greatest number.
    made: u64,
    /// How many calls failed, or the greatest number.
    faults: u64,
}

impl Calls {
    ghost use Rattle.dm_io.specs.Calls.{no_calls, is_due, after_call};
    ghost use Rattle.dm_io.specs.Faults.{Rose};

    pub fn new(failing: List<u32>) -> Calls
        ensures { result ≡ no_calls failing }
    {
        Calls {
            failing,
            made: 0,
            faults: 0,
        }
    }

    /// Counts a call, and says whether it is to fail.
    pub fn next_fails(&mut self) -> bool
        ensures due { result ≡ is_due self.old }
        ensures counted { self.new ≡ after_call self.old }
        ensures raised { IsTrue result → Rose self.old.faults self.new.faults }
        ensures later { self.old.faults ≤ self.new.faults }
    {
        let fails = self.is_listed();
        self.made = self.made.saturating_add(1);
        if fails {
            self.faults = self.faults.saturating_add(1);
        }
        fails
    }

    fn is_listed(&self) -> bool
        ensures { result ≡ is_due self.now }
    {
        let made = self.made;
        self.failing
            .items()
            .iter()
            .any(|number| u64::from(*number) == made)
    }
}
