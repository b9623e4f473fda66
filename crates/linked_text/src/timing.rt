//! The timers of the data links that the lines of a trace set.
ghost use Rattle.std.specs.Prelude.{◌≡◌};
ghost use Rattle.linked_text.specs.LinkTimers.{no_link_timers, link_frames_given, with_link_timer, link_timers_by};

use link_procedures::LinkTimers;

/// The usual value of T200, in frames: 1 second (ITU-T Q.921, 5.9.1).
const USUAL_T200: u32 = 8000;

/// The usual value of T203, in frames: 10 seconds (ITU-T Q.921, 5.9.8).
const USUAL_T203: u32 = 80_000;

/// A timer of a data link (ITU-T Q.921, 5.9).
#[derive(Clone, Copy)]
pub enum LinkTimerName {
    /// The retransmission timer.
    T200,
    /// The maximum time without frames.
    T203,
}

/// The content of a line `timer` for the data links.
#[derive(Clone, Copy)]
pub struct GivenLinkTimer {
    /// The timer.
    pub name: LinkTimerName,
    /// Its duration in frames, at least 1.
    pub frames: u32,
}

/// The durations in frames that the lines so far set. `None` for a timer without a line.
#[derive(Clone, Copy)]
pub struct GivenLinkTimers {
    /// The retransmission timer.
    pub t200: Option<u32>,
    /// The maximum time without frames.
    pub t203: Option<u32>,
}

impl GivenLinkTimers {
    /// Returns the timers of a trace without a line `timer` for the data links.
    pub fn none() -> GivenLinkTimers
        ensures { result ≡ no_link_timers }
    {
        GivenLinkTimers {
            t200: None,
            t203: None,
        }
    }

    /// Returns the duration of a timer in frames. `None` if no line set it.
    pub fn frames(&self, name: LinkTimerName) -> Option<u32>
        ensures { result ≡ link_frames_given self.now name }
    {
        match name {
            LinkTimerName::T200 => self.t200,
            LinkTimerName::T203 => self.t203,
        }
    }

    /// Sets a timer.
    pub fn give(&mut self, given: GivenLinkTimer)
        ensures { self.new ≡ with_link_timer self.old given }
    {
        match given.name {
            LinkTimerName::T200 => self.t200 = Some(given.frames),
            LinkTimerName::T203 => self.t203 = Some(given.frames),
        }
    }

    /// Returns the timers of the trace. A timer without a line has its usual value.
    pub fn timers(&self) -> LinkTimers
        ensures { result ≡ link_timers_by self.now }
    {
        LinkTimers {
            t200: self.t200.unwrap_or(USUAL_T200),
            t203: self.t203.unwrap_or(USUAL_T203),
        }
    }
}
