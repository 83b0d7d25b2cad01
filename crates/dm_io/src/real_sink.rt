ghost use Rattle.std.specs.Prelude.{◌≡◌, ◌≤◌, ◌^◌, None, false, if◌then◌else◌};
ghost use Rattle.dm_io.specs.Faults.{Rose, one_more};

use crate::sink::Sink;
use dm_token::Memory;
use std::alloc::Global;

/// The real standard output. It doesn't tell what was written.
#[derive(Debug, Drop)]
pub struct RealSink<R: Print> {
    output: R,
    /// How many errors there were, or the greatest number.
    faults: u64,
}

impl<R: Print> RealSink<R> {
    ghost use Rattle.dm_io.specs.RealSink.{faults_of};

    /// The standard output of the runtime, without faults so far. It takes no memory.
    pub fn new(output: R) -> RealSink<R>
        ensures { faults_of result ≡ 0 }
    {
        RealSink { output, faults: 0 }
    }
}

impl<R: Print> Sink for RealSink<R> {
    ghost use Rattle.dm_io.specs.RealSink.{faults_of};

    ghost written = { λ _. None };

    ghost room = { λ _. 2 ^ 64 };

    ghost faults = { faults_of };

    fn ready(&mut self, _alloc: Global, _most: usize) -> Result<(), Memory> {
        Ok(())
    }

    fn put(&mut self, bytes: &[u8]) -> bool
        ensures failed { result ≡ false → Rose (faults_of self.old) (faults_of self.new) }
        ensures later { faults_of self.old ≤ faults_of self.new }

        // A fault is counted exactly where the output failed.
        ensures counted { faults_of self.new ≡ (if result then faults_of self.old else one_more (faults_of self.old)) }
    {
        let written = self.output.write_all(bytes).is_ok();
        if !written {
            self.faults = self.faults.saturating_add(1);
        }
        written
    }
}
