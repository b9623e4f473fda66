//! A gate that makes two threads wait for each other.
use crate::Gate;
use std::hint;
use std::sync::atomic::{AtomicU64, Ordering};

// The number of loads of a flag before a hold gives up. They take about a second, so a hold without a partner ends
// soon.
const LOOKS: u32 = 200_000_000;

/// A gate that holds a turn and a crossing. The turn at its event waits until the crossing of its frame has begun, and
/// that crossing waits until the turn is over. Both go on only if the event's thread takes its turn while the octets of
/// the frame move.
///
/// A hold ends after 200,000,000 loads of its flag in any case, and the gate then records that it gave up.
#[derive(Debug, Drop)]
pub struct TestGate {
    event: u32,
    frame: u32,
    looks: u32,
    // Flags: 0 at first, 1 after their event. They never return to 0, so a hold that gave up stays recorded.
    crossing: AtomicU64,
    turned: AtomicU64,
    gave_up: AtomicU64,
}

impl TestGate {
    /// Makes a gate for the turn at this event, counted from 1, and the crossing of this frame, counted from 0.
    pub fn new(event: u32, frame: u32) -> TestGate {
        TestGate::with_spin_limit(event, frame, LOOKS)
    }

    /// Makes a gate whose holds end after n loads of a flag.
    pub fn with_spin_limit(event: u32, frame: u32, looks: u32) -> TestGate {
        TestGate {
            event,
            frame,
            looks,
            crossing: AtomicU64::new(0),
            turned: AtomicU64::new(0),
            gave_up: AtomicU64::new(0),
        }
    }

    /// Returns whether the crossing began, the turn ended, and no hold gave up. False for a new gate.
    pub fn passed(&self) -> bool {
        is_set(&self.crossing) && is_set(&self.turned) && !is_set(&self.gave_up)
    }

    // Waits for a flag, for n loads at most. It spins without yielding, so that a load stays short.
    fn hold_until(&self, flag: &AtomicU64) {
        for _ in 0..self.looks {
            if is_set(flag) {
                return;
            }
            hint::spin_loop();
        }
        set(&self.gave_up);
    }
}

impl Gate for TestGate {
    fn before_turn(&self, _worker: u32, event: u32) {
        if event == self.event {
            self.hold_until(&self.crossing);
        }
    }

    fn after_turn(&self, _worker: u32, event: u32) {
        if event == self.event {
            set(&self.turned);
        }
    }

    fn before_crossing(&self, frame: u32) {
        if frame == self.frame {
            set(&self.crossing);
            self.hold_until(&self.turned);
        }
    }

    fn after_crossing(&self, _frame: u32) {}
}

fn is_set(flag: &AtomicU64) -> bool {
    flag.load(Ordering::SeqCst) == 1
}

fn set(flag: &AtomicU64) {
    flag.store(1, Ordering::SeqCst);
}
