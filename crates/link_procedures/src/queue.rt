//! The I queue: the messages that are not acknowledged.
ghost use Rattle.std.specs.Prelude.{◌≡◌, ◌≤◌, ◌<◌, [], length, nat_le, slice_index_or, true};
ghost use Rattle.link_procedures.specs.Links.{next_number, is_valid, acknowledged, returned, emptied, renumbered, may_send};
ghost use Rattle.link_procedures.specs.Sending.{one_more_sent};
ghost use Rattle.link_procedures.specs.Establishment.{queued};

use crate::message::MessageUnit;
use arrayvec::ArrayVec;
use std::marker::Model;

/// The maximum number of messages that are not acknowledged. Source: this project.
pub const MAX_QUEUE_LEN: usize = 64;

// k: the maximum number of sent I frames that are not acknowledged (Q.921, 5.9.5).
const WINDOW: u8 = 7;

/// The messages that are not acknowledged, in order, the number of them that are sent, and V(A) (Q.921, 3.5.2).
#[derive(Drop)]
pub struct Queue {
    waiting: ArrayVec<MessageUnit, MAX_QUEUE_LEN>,
    sent: u8,
    acknowledged: u8,
}

impl Model for Queue {
    ghost use Rattle.std.specs.Prelude.{◌≤◌, ◌<◌, length};
    ghost use Rattle.link_procedures.specs.Links.{SendQueue};

    ghost Value = { SendQueue };

    ghost view = { λ q. record { waiting = q.waiting.items; sent = q.sent; acknowledged = q.acknowledged } };

    ghost invariant = { λ q. record { window : q.sent ≤ 7; sent : q.sent ≤ length q.waiting.items; number : q.acknowledged < 128 } };
}

impl Queue {
    /// Returns an empty queue.
    pub fn new() -> Queue
        ensures { result ≡ record { waiting = []; sent = 0; acknowledged = 0 } }
    {
        Queue {
            waiting: ArrayVec::new(),
            sent: 0,
            acknowledged: 0,
        }
    }

    /// Returns whether the queue has its maximum number of messages.
    pub fn is_full(&self) -> bool
        ensures { result ≡ nat_le 64 (length self.now.waiting) }
    {
        self.waiting.len() >= MAX_QUEUE_LEN
    }

    /// Returns the number of messages that are sent and not acknowledged.
    pub fn sent(&self) -> u8
        ensures count { result ≡ self.now.sent }
        ensures window { result ≤ 7 }
    {
        self.sent
    }

    /// Returns V(A), the number of the first message that is not acknowledged.
    pub fn acknowledged(&self) -> u8
        ensures { result ≡ self.now.acknowledged }
    {
        self.acknowledged
    }

    /// Returns whether N(R) is within V(A) and V(S), modulo 128.
    #[tactic(auto, unfolding(crate::specs::Links::is_valid, crate::specs::Links::distance))]
    pub fn is_valid(&self, receive: u8) -> bool
        requires { receive < 128 }
        ensures { result ≡ is_valid self.now receive }
    {
        (receive + 128 - self.acknowledged) % 128 <= self.sent
    }

    /// Removes the messages that N(R) acknowledges: V(A) becomes N(R).
    #[tactic(auto, unfolding(crate::specs::Links::acknowledged, crate::specs::Links::distance, crate::specs::Links::is_valid))]
    pub fn acknowledge(&mut self, receive: u8)
        requires range { receive < 128 }
        requires valid { is_valid self.old receive ≡ true }
        ensures { self.new ≡ acknowledged self.old receive }
    {
        let count = (receive + 128 - self.acknowledged) % 128;
        self.waiting.drain(..usize::from(count));
        self.sent -= count;
        self.acknowledged = receive;
    }

    /// Marks all messages as not sent: V(S) becomes V(A).
    #[tactic(auto, unfolding(crate::specs::Links::returned))]
    pub fn go_back(&mut self)
        ensures { self.new ≡ returned self.old }
    {
        self.sent = 0;
    }

    /// Discards all messages.
    #[tactic(auto, unfolding(crate::specs::Links::emptied))]
    pub fn discard(&mut self)
        ensures { self.new ≡ emptied self.old }
    {
        self.waiting.clear();
        self.sent = 0;
    }

    /// Renumbers the messages from 0: V(S) and V(A) become 0.
    #[tactic(auto, unfolding(crate::specs::Links::renumbered))]
    pub fn renumber(&mut self)
        ensures { self.new ≡ renumbered self.old }
    {
        self.sent = 0;
        self.acknowledged = 0;
    }

    /// Appends a message.
    #[tactic(auto, unfolding(crate::specs::Establishment::queued))]
    pub fn push(&mut self, message: MessageUnit)
        requires { length self.old.waiting < 64 }
        ensures { self.new ≡ queued message self.old }
    {
        self.waiting.push(message);
    }

    /// Returns whether a message is waiting and the window is open.
    #[tactic(auto, unfolding(crate::specs::Links::may_send))]
    pub fn may_send(&self) -> bool
        ensures { result ≡ may_send self.now }
    {
        self.sent < WINDOW && usize::from(self.sent) < self.waiting.len()
    }

    /// Returns V(S), the number of the next message.
    #[tactic(auto, unfolding(crate::specs::Links::next_number))]
    pub fn next_number(&self) -> u8
        ensures number { result ≡ next_number self.now }
        ensures range { result < 128 }
    {
        (self.acknowledged + self.sent) % 128
    }

    /// Returns the next message.
    #[tactic(auto, unfolding(crate::specs::Links::may_send))]
    pub fn next_message(&self) -> &[u8]
        requires { may_send self.now ≡ true }
        ensures octets { result.now ≡ slice_index_or self.now.waiting self.now.sent [] }
        ensures few { length result.now ≤ 112 }
    {
        self.waiting.as_slice()[usize::from(self.sent)].as_slice()
    }

    /// Counts the next message as sent.
    #[tactic(auto, unfolding(crate::specs::Links::may_send, crate::specs::Sending::one_more_sent))]
    pub fn count_sent(&mut self)
        requires { may_send self.old ≡ true }
        ensures { self.new ≡ one_more_sent self.old }
    {
        self.sent += 1;
    }
}
