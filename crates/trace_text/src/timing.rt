//! The timers that the lines of a trace set.
ghost use Rattle.std.specs.Prelude.{◌≡◌};
ghost use Rattle.trace_text.specs.TraceTimers.{no_timers, frames_given, with_timer, timers_by};

use call_timers::Timers;

/// A call timer (ITU-T Q.931, 9.1, table 9-1).
#[derive(Clone, Copy, Debug)]
pub enum TimerName {
    /// The timer of the state call received.
    T301,
    /// The timer of the state overlap sending.
    T302,
    /// The timer of the state call present.
    T303,
    /// The timer of the state disconnect indication.
    T305,
    /// The timer of the state release request.
    T308,
    /// The timer of a data link that is down, in the state active.
    T309,
    /// The timer of the state incoming call proceeding.
    T310,
}

/// The content of a line `timer`.
#[derive(Clone, Copy, Debug)]
pub struct GivenTimer {
    /// The timer.
    pub name: TimerName,
    /// Its duration in frames, at least 1.
    pub frames: u32,
}

/// The durations in frames that the lines so far set. `None` for a timer without a line.
#[derive(Clone, Copy, Debug)]
pub struct GivenTimers {
    /// The timer of call received.
    pub t301: Option<u32>,
    /// The timer of overlap sending.
    pub t302: Option<u32>,
    /// The timer of call present.
    pub t303: Option<u32>,
    /// The timer of disconnect indication.
    pub t305: Option<u32>,
    /// The timer of release request.
    pub t308: Option<u32>,
    /// The timer of a data link that is down.
    pub t309: Option<u32>,
    /// The timer of incoming call proceeding.
    pub t310: Option<u32>,
}

impl GivenTimers {
    /// Returns the timers of a trace without a line `timer`.
    pub fn none() -> GivenTimers
        ensures { result ≡ no_timers }
    {
        GivenTimers {
            t301: None,
            t302: None,
            t303: None,
            t305: None,
            t308: None,
            t309: None,
            t310: None,
        }
    }

    /// Returns the duration of a timer in frames. `None` if no line set it.
    pub fn frames(&self, name: TimerName) -> Option<u32>
        ensures { result ≡ frames_given self.now name }
    {
        match name {
            TimerName::T301 => self.t301,
            TimerName::T302 => self.t302,
            TimerName::T303 => self.t303,
            TimerName::T305 => self.t305,
            TimerName::T308 => self.t308,
            TimerName::T309 => self.t309,
            TimerName::T310 => self.t310,
        }
    }

    /// Sets a timer.
    pub fn give(&mut self, given: GivenTimer)
        ensures { self.new ≡ with_timer self.old given }
    {
        let frames = Some(given.frames);
        match given.name {
            TimerName::T301 => self.t301 = frames,
            TimerName::T302 => self.t302 = frames,
            TimerName::T303 => self.t303 = frames,
            TimerName::T305 => self.t305 = frames,
            TimerName::T308 => self.t308 = frames,
            TimerName::T309 => self.t309 = frames,
            TimerName::T310 => self.t310 = frames,
        }
    }

    /// Returns the timers of the trace. A timer without a line has its usual value.
    pub fn timers(&self) -> Timers
        ensures { result ≡ timers_by self.now }
    {
        let usual = Timers::usual();
        Timers {
            t301: self.t301.unwrap_or(usual.t301),
            t302: self.t302.unwrap_or(usual.t302),
            t303: self.t303.unwrap_or(usual.t303),
            t305: self.t305.unwrap_or(usual.t305),
            t308: self.t308.unwrap_or(usual.t308),
            t309: self.t309.unwrap_or(usual.t309),
            t310: self.t310.unwrap_or(usual.t310),
        }
    }
}
