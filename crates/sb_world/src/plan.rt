//! What a test asks of a world in memory.

ghost use Rattle.std.specs.Prelude.{◌≡◌, ◌<◌, ◌↔◌, [], ◌∷◌, ◌++◌, IsTrue, OnOk, OnErr};
ghost use Rattle.sb_world.specs.Memory.{Schedule, after_call, NextFails};

use std::alloc::{AllocError, Global};
use std::marker::Model;

/// Which calls fail, and how long a read may be.
#[derive(Drop)]
pub(crate) struct Plan {
    calls: u64,
    failing: Vec<u64>,
    longest_read: usize,
}

impl Model for Plan {
    ghost use Rattle.std.specs.Prelude.{◌<◌};
    ghost use Rattle.sb_world.specs.Memory.{Schedule};

    ghost Value = { Schedule };

    ghost view = { λ p. record { calls = p.calls; failing = p.failing.items; longest_read = p.longest_read } };

    ghost invariant = { λ p. 0 < p.longest_read };
}

impl Plan {
    pub(crate) fn new(alloc: Global) -> Self
        ensures { result ≡ record { calls = 0; failing = []; longest_read = usize.MAX } }
    {
        Plan {
            calls: 0,
            failing: Vec::new(alloc),
            longest_read: usize::MAX,
        }
    }

    pub(crate) fn calls(&self) -> u64
        ensures { result ≡ self.now.calls }
    {
        self.calls
    }

    pub(crate) fn longest_read(&self) -> usize
        ensures value { result ≡ self.now.longest_read }
        ensures positive { 0 < result }
    {
        self.longest_read
    }

    pub(crate) fn read_at_most(&mut self, length: usize)
        requires { 0 < length }
        ensures { self.new ≡ record self.old { longest_read = length } }
    {
        self.longest_read = length;
    }

    pub(crate) fn fail_at(&mut self, call: u64) -> Result<(), AllocError>
        ensures ok { OnOk result (self.new ≡ record self.old { failing = self.old.failing ++ call ∷ [] }) }
        ensures err { OnErr result (self.new ≡ self.old) }
    {
        self.failing.push(call)?;
        Ok(())
    }

    /// Counts a call, and says whether it is to fail.
    pub(crate) fn count_call(&mut self) -> bool
        ensures counted { self.new ≡ after_call self.old }
        ensures fails { IsTrue result ↔ NextFails self.old }
    {
        self.calls = self.calls.saturating_add(1);
        self.failing.contains(&self.calls)
    }
}
