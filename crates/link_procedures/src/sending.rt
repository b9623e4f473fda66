//! The frames that a link sends, and the messages of layer 3.
ghost use Rattle.std.specs.Prelude.{◌≡◌, ◌+◌, ◌<◌, ◌≤◌, length, true};
ghost use Rattle.link_frames.specs.declared.frame.Control.TheVariants as field;
ghost use Rattle.link_procedures.specs.Links.{may_send, step};
ghost use Rattle.link_procedures.specs.Sending.{acknowledges, enquires, rejects, is_free, sends_next, flushes, finished, supervised, acknowledges_pending};
ghost use Rattle.link_procedures.specs.Establishment.{overflows, submitted};

use crate::link::Link;
use crate::message::MessageUnit;
use crate::outbox::FrameOutbox;
use crate::state::Running;
use link_frames::{Control, Frame, Information, Supervisory};

impl Link {
    /// Takes a message of layer 3, of at most 112 octets. It waits for its acknowledgement, and is sent if the window is
    /// open. It is lost if the link is not up. If 64 messages wait, all of them are lost, and the link re-establishes
    /// itself. Layer 3 is informed of such a loss in the link's next turn, or before.
    #[tactic(auto, unfolding(crate::specs::Establishment::submitted))]
    pub fn submitted(&mut self, octets: &[u8], at: u32, out: &mut FrameOutbox)
        requires short { length octets.now ≤ 112 }
        requires room { length out.old + 7 ≤ 80 }
        ensures link { self.new ≡ (submitted octets.now at (step self.old out.old)).link }
        ensures out { out.new ≡ (submitted octets.now at (step self.old out.old)).out }
        ensures few { length out.new ≤ length out.old + 7 }
    {
        if !self.is_up() {
            return;
        }
        if self.queue.is_full() {
            self.overflow(at, out);
        } else {
            self.queue.push(MessageUnit::of(octets));
            self.flush(at, out);
        }
    }

    /// Ends a step: sends all I frames that the window permits, and an acknowledgement unless an I frame carried it.
    #[tactic(auto, unfolding(crate::specs::Sending::finished))]
    pub fn finished(&mut self, at: u32, out: &mut FrameOutbox)
        requires { length out.old + 8 ≤ 80 }
        ensures link { self.new ≡ (finished at (step self.old out.old)).link }
        ensures out { out.new ≡ (finished at (step self.old out.old)).out }
        ensures few { length out.new ≤ length out.old + 8 }
    {
        self.flush(at, out);
        self.acknowledge_pending(out);
    }

    // Sends RR for a received I frame that no sent frame acknowledged.
    #[tactic(auto, unfolding(crate::specs::Sending::acknowledges_pending))]
    fn acknowledge_pending(&mut self, out: &mut FrameOutbox)
        requires { length out.old + 1 ≤ 80 }
        ensures link { self.new ≡ (acknowledges_pending (step self.old out.old)).link }
        ensures out { out.new ≡ (acknowledges_pending (step self.old out.old)).out }
        ensures few { length out.new ≤ length out.old + 1 }
    {
        if self.pending && self.state.is_multiple_frame() {
            self.send_acknowledgement(false, out);
        } else {
            self.pending = false;
        }
    }

    // Discards all messages, of which layer 3 will be informed.
    #[tactic(auto, unfolding(crate::specs::Establishment::overflows))]
    fn overflow(&mut self, at: u32, out: &mut FrameOutbox)
        requires { length out.old + 1 ≤ 80 }
        ensures link { self.new ≡ (overflows at (step self.old out.old)).link }
        ensures out { out.new ≡ (overflows at (step self.old out.old)).out }
        ensures few { length out.new ≤ length out.old + 1 }
    {
        self.queue.discard();
        self.owed = true;
        if self.state.is_awaiting() {
            self.asked = true;
        } else {
            self.establish(true, at, out);
        }
    }

    // Sends all I frames that the window permits.
    #[tactic(auto, unfolding(crate::specs::Sending::flushes))]
    fn flush(&mut self, at: u32, out: &mut FrameOutbox)
        requires { length out.old + 7 ≤ 80 }
        ensures link { self.new ≡ (flushes at (step self.old out.old)).link }
        ensures out { out.new ≡ (flushes at (step self.old out.old)).out }
        ensures few { length out.new ≤ length out.old + 7 }
    {
        for _ in 0..7_u8 {
            self.send_next(at, out);
        }
    }

    // Sends the next I frame if one may be sent.
    #[tactic(auto, unfolding(crate::specs::Sending::sends_next))]
    fn send_next(&mut self, at: u32, out: &mut FrameOutbox)
        requires { length out.old + 1 ≤ 80 }
        ensures link { self.new ≡ (sends_next at (step self.old out.old)).link }
        ensures out { out.new ≡ (sends_next at (step self.old out.old)).out }
        ensures few { length out.new ≤ length out.old + 1 }
    {
        if !self.is_free() {
            return;
        }
        out.send(&Frame {
            command: true,
            control: Control::Information {
                poll: false,
                send: self.queue.next_number(),
                receive: self.received,
                information: Information::of(self.queue.next_message()),
            },
        });
        self.queue.count_sent();
        self.pending = false;
        self.supervise_answer(at);
    }

    // Starts T200 unless it runs.
    #[tactic(auto, unfolding(crate::specs::Sending::supervised))]
    fn supervise_answer(&mut self, at: u32)
        ensures { self.new ≡ record self.old { timer = supervised at self.old.timer } }
    {
        match self.timer.running {
            Running::T200 => {}
            Running::T203 => self.start_t200(at),
        }
    }

    // Returns whether an I frame may be sent.
    #[tactic(auto, unfolding(crate::specs::Sending::is_free))]
    fn is_free(&self) -> bool
        ensures free { result ≡ is_free self.now }
        ensures waits { result ≡ true → may_send self.now.queue ≡ true }
    {
        self.state.is_established() && !self.busy && self.queue.may_send()
    }

    // Sends RR as a response.
    #[tactic(auto, unfolding(crate::specs::Sending::acknowledges))]
    pub(crate) fn send_acknowledgement(&mut self, last: bool, out: &mut FrameOutbox)
        requires { length out.old + 1 ≤ 80 }
        ensures link { self.new ≡ (acknowledges last (step self.old out.old)).link }
        ensures out { out.new ≡ (acknowledges last (step self.old out.old)).out }
        ensures few { length out.new ≡ length out.old + 1 }
    {
        out.send(&Frame {
            command: false,
            control: self.supervisory(Supervisory::Rr, last),
        });
        self.pending = false;
    }

    // Sends RR as a command with P 1.
    #[tactic(auto, unfolding(crate::specs::Sending::enquires))]
    pub(crate) fn send_enquiry(&mut self, out: &mut FrameOutbox)
        requires { length out.old + 1 ≤ 80 }
        ensures link { self.new ≡ (enquires (step self.old out.old)).link }
        ensures out { out.new ≡ (enquires (step self.old out.old)).out }
        ensures few { length out.new ≡ length out.old + 1 }
    {
        out.send(&Frame {
            command: true,
            control: self.supervisory(Supervisory::Rr, true),
        });
        self.pending = false;
    }

    // Sends REJ as a response.
    #[tactic(auto, unfolding(crate::specs::Sending::rejects))]
    pub(crate) fn send_reject(&mut self, last: bool, out: &mut FrameOutbox)
        requires { length out.old + 1 ≤ 80 }
        ensures link { self.new ≡ (rejects last (step self.old out.old)).link }
        ensures out { out.new ≡ (rejects last (step self.old out.old)).out }
        ensures few { length out.new ≡ length out.old + 1 }
    {
        out.send(&Frame {
            command: false,
            control: self.supervisory(Supervisory::Rej, last),
        });
        self.rejecting = true;
        self.pending = false;
    }

    // Returns the control field of an S frame, whose N(R) is V(R).
    fn supervisory(&self, kind: Supervisory, poll_final: bool) -> Control<'static>
        ensures control { result ≡ field.Supervisory kind poll_final self.now.received }
        ensures number { self.now.received < 128 }
    {
        Control::Supervisory {
            kind,
            poll_final,
            receive: self.received,
        }
    }
}
