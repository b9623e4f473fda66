//! The frames that a link receives.
ghost use Rattle.std.specs.Prelude.{◌≡◌, ◌+◌, ◌≤◌, ◌<◌, length, true};
ghost use Rattle.link_frames.specs.Reading.{IsNumbered};
ghost use Rattle.link_procedures.specs.Links.{step, is_valid};
ghost use Rattle.link_procedures.specs.Receiving as spec;
ghost use Rattle.link_procedures.specs.Establishment.{begun, begun_indication};

use crate::link::Link;
use crate::outbox::FrameOutbox;
use crate::state::{Indication, State};
use link_frames::{Control, Frame, Supervisory};

impl Link {
    /// Processes a frame of the peer, and returns the indication to layer 3. After [`Indication::Data`] the information
    /// field of the frame is the next message.
    #[tactic(auto, unfolding(crate::specs::Receiving::on_control))]
    pub fn received(&mut self, frame: &Frame, at: u32, out: &mut FrameOutbox) -> Option<Indication>
        requires numbered { IsNumbered frame.now.control }
        requires room { length out.old + 2 ≤ 80 }
        ensures link { self.new ≡ (spec.received frame.now at (step self.old out.old)).link }
        ensures out { out.new ≡ (spec.received frame.now at (step self.old out.old)).out }
        ensures indication { result ≡ (spec.received frame.now at (step self.old out.old)).indication }
        ensures few { length out.new ≤ length out.old + 2 }
    {
        match &frame.control {
            Control::Sabme(poll) => self.on_sabme(*poll, at, out),
            Control::Disc(poll) => self.on_disc(*poll, at, out),
            Control::Ua(last) => self.on_ua(*last, at, out),
            Control::Dm(last) => self.on_dm(*last, at, out),
            Control::Frmr | Control::Invalid => {
                self.on_rejection(at, out);
                None
            }
            Control::Ui | Control::Xid => None,
            Control::Supervisory {
                kind,
                poll_final,
                receive,
            } => {
                self.on_supervisory(frame.command, *kind, *poll_final, *receive, at, out);
                None
            }
            Control::Information {
                poll,
                send,
                receive,
                ..
            } => { self.on_information(*poll, *send, *receive, at, out) }
        }
    }

    #[tactic(auto, unfolding(crate::specs::Receiving::on_sabme))]
    fn on_sabme(&mut self, poll: bool, at: u32, out: &mut FrameOutbox) -> Option<Indication>
        requires { length out.old + 1 ≤ 80 }
        ensures link { self.new ≡ (spec.on_sabme self.old.state poll at (step self.old out.old)).link }
        ensures out { out.new ≡ (spec.on_sabme self.old.state poll at (step self.old out.old)).out }
        ensures indication { result ≡ (spec.on_sabme self.old.state poll at (step self.old out.old)).indication }
        ensures few { length out.new ≤ length out.old + 1 }
    {
        out.send(&Frame {
            command: false,
            control: Control::Ua(poll),
        });
        let is_uncertain = self.queue.sent() > 0;
        match self.state {
            State::TeiAssigned => self.begin_for(true, at),
            State::AwaitingEstablishment => None,
            State::MultipleFrameEstablished => self.begin_for(is_uncertain, at),
            State::TimerRecovery => self.begin_for(is_uncertain, at),
        }
    }

    // Begins multiple frame operation: for layer 3, or again.
    #[tactic(auto, unfolding(crate::specs::Establishment::begun))]
    fn begin_for(&mut self, is_new: bool, at: u32) -> Option<Indication>
        ensures link { self.new ≡ begun is_new at self.old }
        ensures indication { result ≡ begun_indication is_new }
    {
        if is_new {
            self.lose();
            self.begin(at);
            Some(Indication::Established)
        } else {
            self.begin(at);
            None
        }
    }

    #[tactic(auto, unfolding(crate::specs::Receiving::on_disc))]
    fn on_disc(&mut self, poll: bool, at: u32, out: &mut FrameOutbox) -> Option<Indication>
        requires { length out.old + 1 ≤ 80 }
        ensures link { self.new ≡ (spec.on_disc self.old.state poll at (step self.old out.old)).link }
        ensures out { out.new ≡ (spec.on_disc self.old.state poll at (step self.old out.old)).out }
        ensures indication { result ≡ (spec.on_disc self.old.state poll at (step self.old out.old)).indication }
        ensures few { length out.new ≤ length out.old + 1 }
    {
        match self.state {
            State::TeiAssigned | State::AwaitingEstablishment => {
                out.send(&Frame {
                    command: false,
                    control: Control::Dm(poll),
                });
                None
            }
            State::MultipleFrameEstablished | State::TimerRecovery => {
                out.send(&Frame {
                    command: false,
                    control: Control::Ua(poll),
                });
                self.release(at);
                Some(Indication::Released)
            }
        }
    }

    #[tactic(auto, unfolding(crate::specs::Receiving::on_ua))]
    fn on_ua(&mut self, last: bool, at: u32, out: &mut FrameOutbox) -> Option<Indication>
        requires { length out.old + 1 ≤ 80 }
        ensures link { self.new ≡ (spec.on_ua last at (step self.old out.old)).link }
        ensures out { out.new ≡ (spec.on_ua last at (step self.old out.old)).out }
        ensures indication { result ≡ (spec.on_ua last at (step self.old out.old)).indication }
        ensures few { length out.new ≤ length out.old + 1 }
    {
        if self.state.is_awaiting() && last {
            self.on_solicited(at, out)
        } else {
            None
        }
    }

    // Begins multiple frame operation, or informs layer 3 of an earlier loss and sends another SABME.
    #[tactic(auto, unfolding(crate::specs::Receiving::on_solicited))]
    fn on_solicited(&mut self, at: u32, out: &mut FrameOutbox) -> Option<Indication>
        requires { length out.old + 1 ≤ 80 }
        ensures link { self.new ≡ (spec.on_solicited at (step self.old out.old)).link }
        ensures out { out.new ≡ (spec.on_solicited at (step self.old out.old)).out }
        ensures indication { result ≡ (spec.on_solicited at (step self.old out.old)).indication }
        ensures few { length out.new ≤ length out.old + 1 }
    {
        let is_new = self.asked || self.queue.sent() > 0;
        if !self.owed {
            return self.begin_for(is_new, at);
        }
        self.lose();
        self.establish(true, at, out);
        Some(Indication::Released)
    }

    #[tactic(auto, unfolding(crate::specs::Receiving::on_dm))]
    fn on_dm(&mut self, last: bool, at: u32, out: &mut FrameOutbox) -> Option<Indication>
        requires { length out.old + 1 ≤ 80 }
        ensures link { self.new ≡ (spec.on_dm self.old.state last at (step self.old out.old)).link }
        ensures out { out.new ≡ (spec.on_dm self.old.state last at (step self.old out.old)).out }
        ensures indication { result ≡ (spec.on_dm self.old.state last at (step self.old out.old)).indication }
        ensures few { length out.new ≤ length out.old + 1 }
    {
        match (self.state, last) {
            (State::TeiAssigned, false) => {
                self.establish(true, at, out);
                None
            }
            (State::AwaitingEstablishment, true) => {
                self.release(at);
                Some(Indication::Released)
            }
            (State::MultipleFrameEstablished, false) | (State::TimerRecovery, _) => {
                self.establish(false, at, out);
                None
            }
            _ => None,
        }
    }

    // Re-establishes the link after a frame rejection condition, or FRMR.
    #[tactic(auto, unfolding(crate::specs::Receiving::on_rejection))]
    fn on_rejection(&mut self, at: u32, out: &mut FrameOutbox)
        requires { length out.old + 1 ≤ 80 }
        ensures link { self.new ≡ (spec.on_rejection self.old.state at (step self.old out.old)).link }
        ensures out { out.new ≡ (spec.on_rejection self.old.state at (step self.old out.old)).out }
        ensures few { length out.new ≤ length out.old + 1 }
    {
        match self.state {
            State::TeiAssigned => {}
            State::AwaitingEstablishment => {}
            State::MultipleFrameEstablished => self.establish(false, at, out),
            State::TimerRecovery => self.establish(false, at, out),
        }
    }

    #[tactic(auto, unfolding(crate::specs::Receiving::on_supervisory))]
    fn on_supervisory(
        &mut self,
        command: bool,
        kind: Supervisory,
        poll_final: bool,
        receive: u8,
        at: u32,
        out: &mut FrameOutbox,
    )
        requires number { receive < 128 }
        requires room { length out.old + 2 ≤ 80 }
        ensures link { self.new ≡ (spec.on_supervisory command kind poll_final receive at (step self.old out.old)).link }
        ensures out { out.new ≡ (spec.on_supervisory command kind poll_final receive at (step self.old out.old)).out }
        ensures few { length out.new ≤ length out.old + 2 }
    {
        if !self.state.is_multiple_frame() {
            return;
        }
        self.busy = is_not_ready(kind);
        self.answer_enquiry(command && poll_final, out);
        self.take_number(command, kind, poll_final, receive, at, out);
    }

    // Sends the enquiry response.
    #[tactic(auto, unfolding(crate::specs::Receiving::answers_enquiry))]
    fn answer_enquiry(&mut self, is_enquiry: bool, out: &mut FrameOutbox)
        requires { length out.old + 1 ≤ 80 }
        ensures link { self.new ≡ (spec.answers_enquiry is_enquiry (step self.old out.old)).link }
        ensures out { out.new ≡ (spec.answers_enquiry is_enquiry (step self.old out.old)).out }
        ensures few { length out.new ≤ length out.old + 1 }
    {
        if is_enquiry {
            self.send_acknowledgement(true, out);
        }
    }

    // Takes N(R) of an S frame.
    #[tactic(auto, unfolding(crate::specs::Receiving::on_valid))]
    fn take_number(
        &mut self,
        command: bool,
        kind: Supervisory,
        poll_final: bool,
        receive: u8,
        at: u32,
        out: &mut FrameOutbox,
    )
        requires number { receive < 128 }
        requires room { length out.old + 1 ≤ 80 }
        ensures link { self.new ≡ (spec.on_valid command kind poll_final receive at (step self.old out.old)).link }
        ensures out { out.new ≡ (spec.on_valid command kind poll_final receive at (step self.old out.old)).out }
        ensures few { length out.new ≤ length out.old + 1 }
    {
        if !self.queue.is_valid(receive) {
            self.establish(false, at, out);
        } else if self.state.is_recovering() {
            self.recover(!command && poll_final, receive, at);
        } else {
            self.supervise(kind, receive, at);
        }
    }

    // Takes N(R) of an S frame in state 8.
    #[tactic(auto, unfolding(crate::specs::Receiving::recovering_by))]
    fn recover(&mut self, is_answer: bool, receive: u8, at: u32)
        requires number { receive < 128 }
        requires valid { is_valid self.old.queue receive ≡ true }
        ensures { self.new ≡ spec.recovering_by is_answer receive at self.old }
    {
        self.queue.acknowledge(receive);
        if is_answer {
            self.queue.go_back();
            self.state = State::MultipleFrameEstablished;
            if self.busy {
                self.start_t200(at);
            } else {
                self.start_t203(at);
            }
        }
    }

    // Takes N(R) of an S frame in state 7.
    #[tactic(auto, unfolding(crate::specs::Receiving::supervised_by))]
    fn supervise(&mut self, kind: Supervisory, receive: u8, at: u32)
        requires number { receive < 128 }
        requires valid { is_valid self.old.queue receive ≡ true }
        ensures { self.new ≡ spec.supervised_by kind receive at self.old }
    {
        match kind {
            Supervisory::Rr => self.acknowledge_timed(receive, at),
            Supervisory::Rnr => {
                self.queue.acknowledge(receive);
                self.start_t200(at);
            }
            Supervisory::Rej => {
                self.queue.acknowledge(receive);
                self.queue.go_back();
                self.start_t203(at);
            }
        }
    }

    // Takes N(R), and starts T203 if all is acknowledged, or T200 again if V(A) has moved.
    #[tactic(auto, unfolding(crate::specs::Receiving::retimed))]
    fn acknowledge_timed(&mut self, receive: u8, at: u32)
        requires number { receive < 128 }
        requires valid { is_valid self.old.queue receive ≡ true }
        ensures { self.new ≡ spec.retimed (spec.has_moved receive self.old) at (spec.acknowledge receive self.old) }
    {
        let moved = self.queue.acknowledged() != receive;
        self.queue.acknowledge(receive);
        if self.queue.sent() == 0 {
            self.start_t203(at);
        } else if moved {
            self.start_t200(at);
        }
    }

    #[tactic(auto, unfolding(crate::specs::Receiving::on_information))]
    fn on_information(
        &mut self,
        poll: bool,
        send: u8,
        receive: u8,
        at: u32,
        out: &mut FrameOutbox,
    ) -> Option<Indication>
        requires number { receive < 128 }
        requires room { length out.old + 2 ≤ 80 }
        ensures link { self.new ≡ (spec.on_information poll send receive at (step self.old out.old)).link }
        ensures out { out.new ≡ (spec.on_information poll send receive at (step self.old out.old)).out }
        ensures indication { result ≡ (spec.on_information poll send receive at (step self.old out.old)).indication }
        ensures few { length out.new ≤ length out.old + 2 }
    {
        if !self.state.is_multiple_frame() {
            return None;
        }
        let is_next = send == self.received;
        self.sequence(poll, send, out);
        self.acknowledge_by_information(receive, at, out);
        if is_next {
            Some(Indication::Data)
        } else {
            None
        }
    }

    // Takes N(S) and P of an I frame.
    #[tactic(auto, unfolding(crate::specs::Receiving::by_number))]
    fn sequence(&mut self, poll: bool, send: u8, out: &mut FrameOutbox)
        requires { length out.old + 1 ≤ 80 }
        ensures link { self.new ≡ (spec.by_number poll send (step self.old out.old)).link }
        ensures out { out.new ≡ (spec.by_number poll send (step self.old out.old)).out }
        ensures few { length out.new ≤ length out.old + 1 }
    {
        if send == self.received {
            self.received = (self.received + 1) % 128;
            self.rejecting = false;
            if poll {
                self.send_acknowledgement(true, out);
            } else {
                self.pending = true;
            }
        } else if self.rejecting {
            self.answer_enquiry(poll, out);
        } else {
            self.send_reject(poll, out);
        }
    }

    // Takes N(R) of an I frame.
    #[tactic(auto, unfolding(crate::specs::Receiving::by_acknowledgement))]
    fn acknowledge_by_information(&mut self, receive: u8, at: u32, out: &mut FrameOutbox)
        requires number { receive < 128 }
        requires room { length out.old + 1 ≤ 80 }
        ensures link { self.new ≡ (spec.by_acknowledgement receive at (step self.old out.old)).link }
        ensures out { out.new ≡ (spec.by_acknowledgement receive at (step self.old out.old)).out }
        ensures few { length out.new ≤ length out.old + 1 }
    {
        if !self.queue.is_valid(receive) {
            self.establish(false, at, out);
        } else if self.state.is_established() && !self.busy {
            self.acknowledge_timed(receive, at);
        } else {
            self.queue.acknowledge(receive);
        }
    }
}

// Returns whether the frame makes the peer busy.
#[tactic(auto, unfolding(crate::specs::Receiving::is_not_ready))]
fn is_not_ready(kind: Supervisory) -> bool
    ensures { result ≡ spec.is_not_ready kind }
{
    matches!(kind, Supervisory::Rnr)
}
