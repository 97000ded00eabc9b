ghost use Rattle.std.specs.Prelude.{◌≡◌, ◌≤◌, ◌↔◌, IsTrue};
ghost use Rattle.edge_io.specs.Calls.{no_calls, IsNextToFail, after_call, after_fault};

use std::marker::Model;

/// Counts the calls of an object in memory, and has the numbers of those that are to fail.
#[derive(Drop)]
pub(crate) struct Calls {
    made: u64,
    to_fail: Vec<u64>,
    faults: u64,
}

impl Model for Calls {
    ghost use Rattle.edge_io.specs.Calls.{CallsState};

    ghost Value = { CallsState };

    ghost view = { λ c. record { made = c.made; to_fail = c.to_fail.items; faults = c.faults } };
}

impl Calls {
    pub(crate) fn new(to_fail: Vec<u64>) -> Calls
        ensures { result ≡ no_calls to_fail.items }
    {
        Calls {
            made: 0,
            to_fail,
            faults: 0,
        }
    }

    pub(crate) fn is_next_to_fail(&self) -> bool
        ensures { IsTrue result ↔ IsNextToFail self.now }
    {
        self.to_fail.contains(&self.made.saturating_add(1))
    }

    pub(crate) fn faults(&self) -> u64
        ensures { result ≡ self.now.faults }
    {
        self.faults
    }

    pub(crate) fn count_call(&mut self)
        ensures { self.new ≡ after_call self.old }
    {
        self.made = self.made.saturating_add(1);
    }

    pub(crate) fn count_fault(&mut self)
        ensures counted { self.new ≡ after_fault self.old }
        ensures never_falls { self.old.faults ≤ self.new.faults }
    {
        self.made = self.made.saturating_add(1);
        self.faults = self.faults.saturating_add(1);
    }
}
