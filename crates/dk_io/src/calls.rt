//! The calls of an object in memory.
ghost use Rattle.std.specs.Prelude.{◌≡◌, ◌+◌, ◌≤◌, ◌↔◌, ◌⊎◌, Contains, IsTrue, MatchBool};
ghost use Rattle.dk_io.specs.Causes.{Rose};
ghost use Rattle.dk_io.specs.Memory.{no_calls, CanCount, IsListed, Counts};

use std::marker::Model;

/// The calls of an object in memory, counted from 1, and those that are to fail.
#[derive(Drop)]
pub(crate) struct Calls {
    fail: Vec<u64>,
    made: u64,
    faults: u64,
}

impl Model for Calls {
    ghost use Rattle.std.specs.Prelude.{◌≤◌};
    ghost use Rattle.dk_io.specs.Memory.{CallLog};

    ghost Value = { CallLog };

    ghost view = { λ calls. record { fail = calls.fail.items; made = calls.made; faults = calls.faults } };

    ghost invariant = { λ calls. calls.faults ≤ calls.made };
}

impl Calls {
    pub(crate) fn new(fail: Vec<u64>) -> Calls
        ensures { result ≡ no_calls fail.items }
    {
        Calls {
            fail,
            made: 0,
            faults: 0,
        }
    }

    /// Whether the next call is one of these.
    pub(crate) fn is_next(&self, numbers: &[u64]) -> bool
        ensures { CanCount self.now → (IsTrue result ↔ Contains numbers.now (self.now.made + 1)) }
    {
        numbers.contains(&self.made.saturating_add(1))
    }

    /// Whether the next call is listed as one that is to fail.
    pub(crate) fn is_listed(&self) -> bool
        ensures { CanCount self.now → (IsTrue result ↔ IsListed self.now) }
    {
        self.is_next(&self.fail)
    }

    /// Counts a call, and a fault where it is one.
    pub(crate) fn count(&mut self, is_fault: bool)
        ensures counts { CanCount self.old → Counts (IsTrue is_fault) self.old self.new }

        // Past the last number too.
        ensures later { self.old.faults ≤ self.new.faults }
        ensures cause { MatchBool is_fault (Rose self.old.faults self.new.faults) (self.new.faults
            ≡ self.old.faults) }
    {
        self.made = self.made.saturating_add(1);
        if is_fault {
            self.faults = self.faults.saturating_add(1);
        }
    }

    /// Counts a call, which is to fail where it is listed or refused, and answers whether it is.
    pub(crate) fn fails(&mut self, refused: bool) -> bool
        ensures fails { CanCount self.old → (IsTrue result ↔ (IsListed self.old ⊎ IsTrue refused)) }
        ensures refused { IsTrue refused → IsTrue result }
        ensures counts { CanCount self.old → Counts (IsTrue result) self.old self.new }

        // Past the last number too.
        ensures later { self.old.faults ≤ self.new.faults }
        ensures cause { MatchBool result (Rose self.old.faults self.new.faults) (self.new.faults
            ≡ self.old.faults) }
    {
        let fails = refused || self.is_listed();
        self.count(fails);
        fails
    }
}
