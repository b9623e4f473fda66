//! The stores of a worker for the events that it processed.
ghost use Rattle.std.specs.Prelude.{◌≡◌, List, [], ◌++◌, ◌==◌, length, OnOk, OnErr};
ghost use Rattle.frame_engine.specs.Frames.{AreIdleFrom};
ghost use Rattle.call_processor.specs.declared.worked.Placed.{Placed};
ghost use Rattle.call_processor.specs.Keeping.{HandsOn, StillHolds, IsKept, first_place, placed};

use crate::worked::Placed;
use exchange_events::{Outbox, Response};
use std::alloc::{AllocError, Global};

/// A store for the events that a worker processed. It receives each of them and stores the form of its type, such as a
/// report line or a whole answer. The events of several workers are merged by their positions in the history.
pub trait AnswerSink: Sized + Send + Drop {
    /// It stores these answers, each with its position, in order.
    ghost holds: { Self → List Placed → Type 0 };

    /// Returns an empty answer sink of the same kind.
    fn new_empty(&self, alloc: Global) -> Self
        ensures { holds result [] };

    /// Removes all events.
    fn clear(&mut self)
        ensures { holds self.new [] };

    /// Appends one event: its position in the history, its number, the response and the outbox of its step, and for a
    /// frame the octets that each external line is sent. The rows from `sounding` on are idle.
    ///
    /// # Errors
    ///
    /// [`AllocError`] if an allocation fails. The sink is then unchanged.
    fn push(
        &mut self,
        alloc: Global,
        place: u32,
        event: u32,
        response: Response,
        outbox: &Outbox,
        octets: &[[u8; 30]],
        sounding: usize,
    ) -> Result<(), AllocError>
        requires idle { AreIdleFrom sounding octets.now }
        ensures kept { OnOk result (IsKept (λ k. holds k) (placed place event response outbox.now octets.now) self.old self.new) }
        ensures refused { OnErr result ((answers : List Placed) → holds self.old answers → holds self.new answers) };

    /// Returns the number of its events.
    fn len(&self) -> usize
        ensures { (answers : List Placed) → holds self.now answers → result ≡ length answers };

    /// Returns whether it has no event.
    fn is_empty(&self) -> bool
        ensures { (answers : List Placed) → holds self.now answers → result ≡ (length answers == 0) }
    {
        self.len() == 0
    }

    /// Removes all events but the first n.
    fn truncate(&mut self, count: usize)
        ensures { (answers more : List Placed) → holds self.old (answers ++ more) → length answers ≡ count → holds self.new answers };

    /// Returns the position of its first event.
    fn first_place(&self) -> Option<u32>
        ensures { (answers : List Placed) → holds self.now answers → result ≡ first_place answers };

    /// Moves its first event to the end of another sink, and the next ones as long as they come before the position
    /// `below`.
    ///
    /// # Errors
    ///
    /// [`AllocError`] if an allocation fails. The other then has its events, and perhaps more after them.
    fn move_before(&mut self, to: &mut Self, below: u32) -> Result<(), AllocError>
        ensures handed { OnOk result ((answers others : List Placed) → holds self.old answers → holds to.old others
            → HandsOn (λ k. holds k) below answers others self.new to.new) }
        ensures refused { OnErr result ((others : List Placed) → holds to.old others → StillHolds (λ k. holds k) others to.new) };
}
