//! The shared input of a call, and its changing parts.
use meters::Meter;
use report_lines::LineSink;
use std::alloc::Global;
use std::collections::VecDeque;

/// The runtime, the allocator and the gate of a call.
#[derive(Drop)]
pub struct CallContext<'a, R, G> {
    /// The runtime that starts threads and waits for them.
    pub rt: &'a R,
    /// The allocator.
    pub alloc: Global,
    /// The gate at which workers are held up.
    pub gate: &'a G,
}

/// The meters of a call.
#[derive(Drop)]
pub struct Metering {
    /// The active meters, in order.
    pub on: Vec<Box<dyn Meter>>,
    /// The spare meters.
    pub spare: VecDeque<Box<dyn Meter>>,
}

/// The text of a run that is not yet written. The lines of a complete segment move to it, so a segment that fails
/// leaves it unchanged.
#[derive(Drop)]
pub struct PendingText<L> {
    /// The lines of events, with the records of their calls.
    pub lines: LineSink<L>,
    /// The texts of the meters that were removed after these events. They are separate, because each line of the list
    /// belongs to an event.
    pub said: Vec<u8>,
}
