//! Which calls fail of what is in memory, and how many came.

ghost use Rattle.std.specs.Prelude.{◌≡◌, ◌↔◌, IsTrue};
ghost use Rattle.px_base.specs.Memory.{CountsNext, NextFails, uncalled};

use std::marker::Model;

/// The calls that fail, by their numbers, and how many came. The first call has the number 1. The
/// count stays at the last value of a `u64`, so that each call from there on has that number.
#[derive(Drop)]
pub struct FailingCalls {
    failing: Vec<u64>,
    calls: u64,
}

impl Model for FailingCalls {
    ghost use Rattle.px_base.specs.Memory.{CountedCalls};

    ghost Value = { CountedCalls };

    ghost view = { λ c. record { failing = c.failing.items; calls = c.calls } };
}

impl FailingCalls {
    /// No call has come yet. With an empty list none fails.
    pub fn new(failing: Vec<u64>) -> Self
        ensures { result ≡ uncalled failing.items }
    {
        FailingCalls { failing, calls: 0 }
    }

    /// How many calls came.
    pub fn calls(&self) -> u64
        ensures { result ≡ self.now.calls }
    {
        self.calls
    }

    /// Counts a call, and says whether it is one of those that fail.
    pub fn next_fails(&mut self) -> bool
        ensures fails { IsTrue result ↔ NextFails self.old }
        ensures calls { CountsNext self.old self.new }
    {
        self.calls = self.calls.saturating_add(1);
        self.failing.contains(&self.calls)
    }
}
