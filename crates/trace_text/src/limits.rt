//! The limits on the lines of a trace.
ghost use Rattle.std.specs.Prelude.{◌≡◌};
ghost use Rattle.trace_text.specs.TraceLines.{trace_limits, line_limits};

/// The maximum number of events of a trace.
const MAX_EVENTS: u32 = 65_535;

/// The maximum number of changes of meters of a trace.
const MAX_CHANGES: u32 = 65_535;

/// The maximum numbers of events and of changes of meters.
///
/// Contracts use two values, [`Limits::for_trace`] and [`Limits::for_lines`].
#[derive(Clone, Copy, Debug)]
pub struct Limits {
    /// The maximum number of events.
    pub max_events: u32,
    /// The maximum number of changes of meters.
    pub max_changes: u32,
}

impl Limits {
    /// Returns the limits of a complete trace: 65,535 events and 65,535 changes.
    pub fn for_trace() -> Limits
        ensures { result ≡ trace_limits }
    {
        Limits {
            max_events: MAX_EVENTS,
            max_changes: MAX_CHANGES,
        }
    }

    /// Returns the limits of lines that are processed as they arrive: 4,294,967,295 events and 4,294,967,295 changes.
    /// Fewer than 4,294,967,296 lines never exceed them.
    pub fn for_lines() -> Limits
        ensures { result ≡ line_limits }
    {
        Limits {
            max_events: u32::MAX,
            max_changes: u32::MAX,
        }
    }
}
