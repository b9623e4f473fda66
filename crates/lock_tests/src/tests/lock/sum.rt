//! A sum to which many seats add.
ghost use Rattle.std.specs.Prelude.{◌≡◌, ◌-◌, ◌≤◌, [], length, vec_capacity, IfOk};

use std::alloc::{AllocError, Global};
use turn_lock::Stepper;

/// A step adds its event and returns the sum. The tool counts the steps. Event 0 is reserved.
#[derive(Drop)]
pub struct Sum {
    total: u64,
    most: usize,
    journal: Vec<(u32, u32)>,
    ghost reserved: { most ≤ vec_capacity journal },
}

impl Sum {
    /// Makes an empty sum, with capacity for n entries.
    pub fn new(alloc: Global, most: u32) -> Result<Sum, AllocError>
        ensures { IfOk result (λ s. (s.journal.items ≡ []) × (s.most ≡ most)) }
    {
        Ok(Sum {
            total: 0,
            most: most as usize,
            journal: Vec::with_capacity(alloc, most as usize)?,
        })
    }

    pub fn into_journal(self) -> Vec<(u32, u32)> {
        let Sum {
            total: _,
            most: _,
            journal,
        } = self;
        journal
    }
}

impl Stepper for Sum {
    type Tool = u32;

    type Reply = u64;

    type Setting = u8;

    ghost setting = { λ s. 0 };

    ghost journal = { λ s. s.journal.items };

    ghost room = { λ s. s.most - length s.journal.items };

    ghost reserved = { λ c event. event ≡ 0 };

    ghost ready = { λ c event tool. Unit {0} };

    ghost answers = { λ c log by event reply tool. Unit {0} };

    fn step(&mut self, by: u32, event: u32, tool: &mut u32) -> u64 {
        *tool = tool.wrapping_add(1);
        self.total = self.total.wrapping_add(u64::from(event));
        if self.journal.push((by, event)).is_err() {
            unreachable!()
        }
        self.total
    }
}
