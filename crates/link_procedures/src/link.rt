//! A data link: its state, and the changes that its steps share.
ghost use Rattle.std.specs.Prelude.{◌≡◌, ◌+◌, ◌≤◌, length};
ghost use Rattle.link_procedures.specs.Links.{initial, is_up, t200, t203, step};
ghost use Rattle.link_procedures.specs.Establishment.{establishes, established, lost, released, cleared};

use crate::outbox::FrameOutbox;
use crate::queue::Queue;
use crate::state::{Running, State, Timer};
use link_frames::{Control, Frame};
use std::marker::Model;

/// A data link. A contract views it as the record of its variables.
#[derive(Drop)]
pub struct Link {
    pub(crate) state: State,
    pub(crate) asked: bool,
    pub(crate) queue: Queue,
    pub(crate) received: u8,
    pub(crate) busy: bool,
    pub(crate) rejecting: bool,
    pub(crate) pending: bool,
    pub(crate) owed: bool,
    pub(crate) retries: u8,
    pub(crate) timer: Timer,
}

impl Model for Link {
    ghost use Rattle.std.specs.Prelude.{◌≤◌, ◌<◌};
    ghost use Rattle.link_procedures.specs.Links.{DataLink};

    ghost Value = { DataLink };

    ghost view = { λ l. record { state = l.state; asked = l.asked; queue = l.queue; received = l.received; busy = l.busy; rejecting = l.rejecting; pending = l.pending; owed = l.owed; retries = l.retries; timer = l.timer } };

    ghost invariant = { λ l. record { number : l.received < 128; retries : l.retries ≤ 3 } };
}

impl Link {
    /// Returns a link in state 4 that starts T200 in this frame of the exchange.
    pub fn new(at: u32) -> Link
        ensures { result ≡ initial at }
    {
        Link {
            state: State::TeiAssigned,
            asked: true,
            queue: Queue::new(),
            received: 0,
            busy: false,
            rejecting: false,
            pending: false,
            owed: false,
            retries: 0,
            timer: Timer {
                running: Running::T200,
                since: at,
            },
        }
    }

    /// Returns the state.
    pub fn state(&self) -> State
        ensures { result ≡ self.now.state }
    {
        self.state
    }

    /// Returns whether the link accepts messages of layer 3.
    #[tactic(auto, unfolding(crate::specs::Links::is_up, crate::specs::Links::is_multiple_frame, crate::specs::Links::is_established, crate::specs::Links::is_recovering, crate::specs::Links::is_awaiting))]
    pub fn is_up(&self) -> bool
        ensures { result ≡ is_up self.now }
    {
        match self.state {
            State::TeiAssigned => false,
            State::AwaitingEstablishment => !self.asked,
            State::MultipleFrameEstablished => true,
            State::TimerRecovery => true,
        }
    }

    pub(crate) fn start_t200(&mut self, at: u32)
        ensures { self.new ≡ record self.old { timer = t200 at } }
    {
        self.timer = Timer {
            running: Running::T200,
            since: at,
        };
    }

    pub(crate) fn start_t203(&mut self, at: u32)
        ensures { self.new ≡ record self.old { timer = t203 at } }
    {
        self.timer = Timer {
            running: Running::T203,
            since: at,
        };
    }

    // Ends the exception conditions.
    fn clear_exceptions(&mut self)
        ensures { self.new ≡ cleared self.old }
    {
        self.busy = false;
        self.rejecting = false;
        self.pending = false;
    }

    // Sends SABME and waits for UA.
    #[tactic(auto, unfolding(crate::specs::Establishment::establishes))]
    pub(crate) fn establish(&mut self, asked: bool, at: u32, out: &mut FrameOutbox)
        requires { length out.old + 1 ≤ 80 }
        ensures link { self.new ≡ (establishes asked at (step self.old out.old)).link }
        ensures out { out.new ≡ (establishes asked at (step self.old out.old)).out }
        ensures few { length out.new ≡ length out.old + 1 }
    {
        self.clear_exceptions();
        self.state = State::AwaitingEstablishment;
        self.asked = asked;
        self.retries = 0;
        self.start_t200(at);
        out.send(&Frame {
            command: true,
            control: Control::Sabme(true),
        });
    }

    // Begins multiple frame operation.
    #[tactic(auto, unfolding(crate::specs::Establishment::established))]
    pub(crate) fn begin(&mut self, at: u32)
        ensures { self.new ≡ established at self.old }
    {
        self.clear_exceptions();
        self.state = State::MultipleFrameEstablished;
        self.asked = false;
        self.queue.renumber();
        self.received = 0;
        self.start_t203(at);
    }

    // Discards the messages, of which layer 3 is informed with the result of the step.
    #[tactic(auto, unfolding(crate::specs::Establishment::lost))]
    pub(crate) fn lose(&mut self)
        ensures { self.new ≡ lost self.old }
    {
        self.queue.discard();
        self.owed = false;
    }

    // Releases the link. The result of the step informs layer 3.
    #[tactic(auto, unfolding(crate::specs::Establishment::released))]
    pub(crate) fn release(&mut self, at: u32)
        ensures { self.new ≡ released at self.old }
    {
        self.lose();
        self.state = State::TeiAssigned;
        self.asked = true;
        self.start_t200(at);
    }
}
