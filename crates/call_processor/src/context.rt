use exchange_events::Trace;
use std::alloc::Global;

/// The values that every event of a run is processed with and that no event changes.
#[derive(Drop)]
pub struct RunContext<'a, B, G, R> {
    /// The runtime, which starts threads and waits.
    pub rt: &'a R,
    /// The allocator.
    pub alloc: Global,
    /// The switchboard.
    pub board: &'a B,
    /// The trace of the switchboard.
    pub trace: &'a Trace,
    /// The gate.
    pub gate: &'a G,
}
