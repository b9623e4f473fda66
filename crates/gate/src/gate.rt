/// Calls that the threads of a segment make at each event. The caller of a segment run passes a gate. Its contracts
/// guarantee nothing, so no result of the threads can depend on a gate.
pub trait Gate: Sync {
    /// Called before a call processor or the frame worker takes its turn at this event, by number.
    fn before_turn(&self, worker: u32, event: u32);

    /// Called after the step of this event. The event is in the history, and the worker passed or kept the turn.
    fn after_turn(&self, worker: u32, event: u32);

    /// Called before the frame worker moves the octets of this frame, by number.
    fn before_crossing(&self, frame: u32);

    /// Called after the frame worker has moved the octets of this frame.
    fn after_crossing(&self, frame: u32);

    /// Returns whether each worker of a segment runs in its own thread, even if the segment has too few events for
    /// threads to pay.
    fn apart(&self) -> bool {
        true
    }

    /// Returns whether a call can wait for another thread. If so, no worker keeps the turn from one event to the next,
    /// because a worker that waits with the turn stops all others.
    fn may_hold(&self) -> bool {
        true
    }
}

/// The gate of the program. It holds no thread.
#[derive(Clone, Copy, Debug)]
pub struct OpenGate;

impl Gate for OpenGate {
    fn before_turn(&self, _worker: u32, _event: u32) {}

    fn after_turn(&self, _worker: u32, _event: u32) {}

    fn before_crossing(&self, _frame: u32) {}

    fn after_crossing(&self, _frame: u32) {}

    fn apart(&self) -> bool {
        false
    }

    fn may_hold(&self) -> bool {
        false
    }
}
