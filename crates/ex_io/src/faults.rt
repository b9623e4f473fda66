// The error count of a source or sink.
ghost use Rattle.std.specs.Prelude.{◌≡◌, ◌≤◌};
ghost use Rattle.ex_io.specs.Ends.{counted};

use crate::ends::Failed;
use std::marker::Model;

// An error count. It stops at the greatest value of a `u64`.
#[derive(Drop)]
pub(crate) struct Faults {
    count: u64,
}

impl Model for Faults {
    ghost use Rattle.std.specs.Prelude.{ℕ};

    ghost Value = { ℕ };

    ghost view = { λ f. f.count };
}

impl Faults {
    pub(crate) fn new() -> Faults
        ensures { result ≡ 0 }
    {
        Faults { count: 0 }
    }

    pub(crate) fn count(&self) -> u64
        ensures { result ≡ self.now }
    {
        self.count
    }

    // Counts one more error and returns the error.
    pub(crate) fn rise(&mut self) -> Failed
        ensures counted { self.new ≡ counted self.old }
        ensures later { self.old ≤ self.new }
    {
        self.count = self.count.saturating_add(1);
        Failed
    }
}
