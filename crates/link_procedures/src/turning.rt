//! The turn of a link: its expired timer, and a loss of which layer 3 is not informed yet.
ghost use Rattle.std.specs.Prelude.{◌≡◌, ◌+◌, ◌≤◌, length};
ghost use Rattle.link_procedures.specs.Links.{step};
ghost use Rattle.link_procedures.specs.Timing as spec;

use crate::link::Link;
use crate::outbox::FrameOutbox;
use crate::state::{Indication, LinkTimers, Running, State};
use link_frames::{Control, Frame};

// N200: the maximum number of retransmissions (Q.921, 5.9.2).
const MAX_RETRIES: u8 = 3;

impl Link {
    /// Processes the turn of the link in a frame of the exchange, and returns the indication to layer 3: a loss, or the
    /// result of the timer, if it has expired.
    #[tactic(auto, unfolding(crate::specs::Timing::turned))]
    pub fn turned(
        &mut self,
        timers: &LinkTimers,
        at: u32,
        out: &mut FrameOutbox,
    ) -> Option<Indication>
        requires { length out.old + 1 ≤ 80 }
        ensures link { self.new ≡ (spec.turned timers.now at (step self.old out.old)).link }
        ensures out { out.new ≡ (spec.turned timers.now at (step self.old out.old)).out }
        ensures indication { result ≡ (spec.turned timers.now at (step self.old out.old)).indication }
        ensures few { length out.new ≤ length out.old + 1 }
    {
        if self.owed {
            self.owed = false;
            Some(Indication::Released)
        } else if self.is_due(timers, at) {
            self.expire(at, out)
        } else {
            None
        }
    }

    // Returns whether the timer has expired in this frame or before it.
    #[tactic(auto, unfolding(crate::specs::Timing::is_due))]
    fn is_due(&self, timers: &LinkTimers, at: u32) -> bool
        ensures { result ≡ spec.is_due timers.now at self.now.timer }
    {
        let frames = frames_to(timers, self.timer.running);
        u64::from(self.timer.since) + u64::from(frames) <= u64::from(at)
    }

    #[tactic(auto, unfolding(crate::specs::Timing::on_expiry))]
    fn expire(&mut self, at: u32, out: &mut FrameOutbox) -> Option<Indication>
        requires { length out.old + 1 ≤ 80 }
        ensures link { self.new ≡ (spec.on_expiry self.old.state at (step self.old out.old)).link }
        ensures out { out.new ≡ (spec.on_expiry self.old.state at (step self.old out.old)).out }
        ensures indication { result ≡ (spec.on_expiry self.old.state at (step self.old out.old)).indication }
        ensures few { length out.new ≤ length out.old + 1 }
    {
        match self.state {
            State::TeiAssigned => {
                self.establish(true, at, out);
                None
            }
            State::AwaitingEstablishment => self.call_again(at, out),
            State::MultipleFrameEstablished => {
                let retries = first_retries(self.timer.running);
                self.enquire(retries, at, out);
                None
            }
            State::TimerRecovery => {
                if self.retries == MAX_RETRIES {
                    self.establish(false, at, out);
                } else {
                    self.enquire(self.retries + 1, at, out);
                }
                None
            }
        }
    }

    // Retransmits SABME, or releases the link.
    #[tactic(auto, unfolding(crate::specs::Timing::calls_or_releases))]
    fn call_again(&mut self, at: u32, out: &mut FrameOutbox) -> Option<Indication>
        requires { length out.old + 1 ≤ 80 }
        ensures link { self.new ≡ (spec.calls_or_releases at (step self.old out.old)).link }
        ensures out { out.new ≡ (spec.calls_or_releases at (step self.old out.old)).out }
        ensures indication { result ≡ (spec.calls_or_releases at (step self.old out.old)).indication }
        ensures few { length out.new ≤ length out.old + 1 }
    {
        if self.retries == MAX_RETRIES {
            self.release(at);
            return Some(Indication::Released);
        }
        self.retries += 1;
        self.start_t200(at);
        out.send(&Frame {
            command: true,
            control: Control::Sabme(true),
        });
        None
    }

    // Sends an enquiry, and waits for the response.
    #[tactic(auto, unfolding(crate::specs::Timing::enquires_at))]
    fn enquire(&mut self, retries: u8, at: u32, out: &mut FrameOutbox)
        requires room { length out.old + 1 ≤ 80 }
        requires few { retries ≤ 3 }
        ensures link { self.new ≡ (spec.enquires_at retries at (step self.old out.old)).link }
        ensures out { out.new ≡ (spec.enquires_at retries at (step self.old out.old)).out }
        ensures few { length out.new ≤ length out.old + 1 }
    {
        self.send_enquiry(out);
        self.state = State::TimerRecovery;
        self.retries = retries;
        self.start_t200(at);
    }
}

// Returns the duration of the timer in frames.
fn frames_to(timers: &LinkTimers, running: Running) -> u32
    ensures { result ≡ spec.frames_to timers.now running }
{
    match running {
        Running::T200 => timers.t200,
        Running::T203 => timers.t203,
    }
}

// Returns the number of retransmissions that an expiry in state 7 counts as.
fn first_retries(running: Running) -> u8
    ensures count { result ≡ spec.first_retries running }
    ensures few { result ≤ 3 }
{
    match running {
        Running::T200 => 1,
        Running::T203 => 0,
    }
}
