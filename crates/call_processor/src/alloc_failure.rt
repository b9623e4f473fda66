//! The signal between the workers of a segment.
use std::sync::atomic::{AtomicU64, Ordering};

/// A flag that is set when an allocation of a worker fails, so that the other workers can stop. Nothing is proved of
/// it.
#[derive(Drop)]
pub struct AllocFailureFlag {
    // 0, or 1 once an allocation has failed.
    flag: AtomicU64,
}

impl AllocFailureFlag {
    /// Returns a flag that is not set.
    pub fn new() -> AllocFailureFlag {
        AllocFailureFlag {
            flag: AtomicU64::new(0),
        }
    }

    /// Sets the flag.
    pub fn set(&self) {
        self.flag.store(1, Ordering::SeqCst);
    }

    /// Returns whether the flag is set.
    pub fn is_set(&self) -> bool {
        self.flag.load(Ordering::SeqCst) != 0
    }
}
