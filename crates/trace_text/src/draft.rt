// The trace of the lines read so far.
use crate::cut::{behind_idle_frame, behind_sync, first_line};
use crate::fault::{LineError, Reason, TraceFault};
use crate::heading::{Happening, Heading};
use crate::limits::Limits;
use exchange_events::{Changes, Event, Events, Input, Segments, Trace};
use std::alloc::{AllocError, Global};

/// The result of the lines so far: the heading, the events, the ends of the segments, and the changes of meters.
#[derive(Debug, Drop)]
pub struct Draft {
    heading: Heading,
    events: Vec<Event>,
    ends: Vec<u32>,
    // The number of events before the open segment.
    begun: u32,
    changes: Vec<u32>,
}

impl Draft {
    ghost use Rattle.std.specs.Prelude.{◌≡◌, ◌<◌, ◌++◌, ◌∷◌, [], ℕ, List, length, Ok, OnOk, IfOk, IfErr};
    ghost use Rattle.trace_text.specs.declared.said.Said.{Said};
    ghost use Rattle.trace_text.specs.declared.said.Said.TheVariants.{Happens};
    ghost use Rattle.trace_text.specs.TraceLines.{trace_limits, reads, says, Fails};
    ghost use Rattle.trace_text.specs.TraceGrammar.{so_far, IsWhatLinesSay};
    ghost use Rattle.trace_text.specs.TraceDraft.{Holds, HasRead, IsEnded, FailsAtEnd, FailsFirst};

    /// Returns the draft of an empty trace.
    pub fn new(alloc: Global) -> Draft
        ensures { Holds result [] }
    {
        Draft {
            heading: Heading::new(alloc),
            events: Vec::new(alloc),
            ends: Vec::new(alloc),
            begun: 0,
            changes: Vec::new(alloc),
        }
    }

    // Ends the open segment, if it has events.
    fn end_segment(&mut self) -> Result<(), AllocError>
        ensures { OnOk result (IsEnded self.old self.new) }
    {
        let count = self.heading.event_count();
        if count != self.begun {
            self.ends.push(count)?;
            self.begun = count;
        }
        Ok(())
    }

    // Counts and appends the event of a line.
    #[inline(always)]
    fn push_event(&mut self, event: Event) -> Result<(), LineError>
        ensures read { OnOk result ((line : List ℕ) → reads self.old.heading line ≡ Ok (Happens event) → (told : List Said) →
            Holds self.old told → (said : Said)
            × (says trace_limits (so_far told) line ≡ Ok said)
            × Holds self.new (told ++ said ∷ [])) }
        ensures refused { IfErr result (λ e. (line : List ℕ) → reads self.old.heading line ≡ Ok (Happens event) →
            Fails e (says trace_limits self.old.heading line)) }
    {
        if let Err(why) = self.heading.count_event(Limits::for_trace()) {
            return Err(LineError::Refused(why));
        }
        self.events.push(event)?;
        Ok(())
    }

    // Reads a line in any form. It is a separate function because it clears the large local values of rare lines.
    #[inline(never)]
    fn read_rare_line(&mut self, alloc: Global, line: &[u8]) -> Result<(), LineError>
        ensures read { OnOk result ((told : List Said) →
            Holds self.old told → (said : Said)
            × (says trace_limits (so_far told) line.now ≡ Ok said)
            × Holds self.new (told ++ said ∷ [])) }
        ensures refused { IfErr result (λ e. Fails e (says trace_limits self.old.heading line.now)) }
    {
        match self.heading.read_line(alloc, Limits::for_trace(), line)? {
            Happening::Nothing => {}
            Happening::Event(event) => self.events.push(event)?,
            Happening::SegmentEnd => self.end_segment()?,
            Happening::Change => {
                self.end_segment()?;
                self.changes.push(self.begun)?;
            }
        }
        Ok(())
    }

    // Reads a line that is not a message or `sync` in the common form.
    #[inline(never)]
    fn read_other_line(&mut self, alloc: Global, line: &[u8]) -> Result<(), LineError>
        ensures read { OnOk result ((told : List Said) →
            Holds self.old told → (said : Said)
            × (says trace_limits (so_far told) line.now ≡ Ok said)
            × Holds self.new (told ++ said ∷ [])) }
        ensures refused { IfErr result (λ e. Fails e (says trace_limits self.old.heading line.now)) }
    {
        let Some(event) = self.heading.other_event(alloc, line)? else {
            return self.read_rare_line(alloc, line);
        };
        self.push_event(event)?;
        Ok(())
    }

    // Reads one more line.
    #[inline(always)]
    fn read_line(&mut self, alloc: Global, line: &[u8]) -> Result<(), LineError>
        ensures read { OnOk result ((told : List Said) →
            Holds self.old told → (said : Said)
            × (says trace_limits (so_far told) line.now ≡ Ok said)
            × Holds self.new (told ++ said ∷ [])) }
        ensures refused { IfErr result (λ e. Fails e (says trace_limits self.old.heading line.now)) }
    {
        let Some(event) = self.heading.common_event(alloc, line) else {
            return self.read_other_line(alloc, line);
        };
        self.push_event(event)?;
        Ok(())
    }

    // Reads the first line in any form, and returns the octets after it.
    #[inline(always)]
    fn read_any_first<'a>(&mut self, alloc: Global, bytes: &'a [u8]) -> Result<&'a [u8], LineError>
        requires { 0 < length bytes.now }
        ensures read { IfOk result (λ others. HasRead self.old self.new bytes.now others.now) }
        ensures refused { IfErr result (λ e. FailsFirst self.old bytes.now e) }
    {
        let (line, others) = first_line(bytes);
        self.read_line(alloc, line)?;
        Ok(others)
    }

    /// Reads the first line, and returns the octets after it.
    ///
    /// # Errors
    ///
    /// - [`LineError::Refused`] if the line fails a check, with the first one.
    /// - [`LineError::Memory`] if an allocation fails.
    #[inline(always)]
    pub fn read_first<'a>(&mut self, alloc: Global, bytes: &'a [u8]) -> Result<&'a [u8], LineError>
        requires { 0 < length bytes.now }
        ensures read { IfOk result (λ others. HasRead self.old self.new bytes.now others.now) }
        ensures refused { IfErr result (λ e. FailsFirst self.old bytes.now e) }
    {
        if let Some(sizes) = self.heading.sizes() {
            // Most lines of a trace of messages are `sync`.
            if let Some(others) = behind_sync(bytes) {
                self.end_segment()?;
                return Ok(others);
            }
            if let Some(others) = behind_idle_frame(bytes) {
                self.push_event(Event::Frame(Input::idle(sizes.external)))?;
                return Ok(others);
            }
        }
        self.read_any_first(alloc, bytes)
    }

    /// Returns the trace of `lines` lines.
    ///
    /// # Errors
    ///
    /// - [`TraceFault::Line`] with `lines + 1` and [`Reason::Header`] if the trace has no header.
    /// - [`TraceFault::Memory`] if an allocation fails.
    pub fn finish(mut self, lines: u32) -> Result<Trace, TraceFault>
        requires { lines < 4294967295 }
        ensures read { IfOk result (λ t. (told : List Said) → Holds self told → IsWhatLinesSay t told) }
        ensures refused { IfErr result (λ e. FailsAtEnd self.heading.sizes lines e) }
    {
        let Some(sizes) = self.heading.sizes() else {
            return Err(TraceFault::Line {
                number: lines + 1,
                reason: Reason::Header,
            });
        };
        if self.end_segment().is_err() {
            return Err(TraceFault::Memory);
        }
        let (plan, tones, timers) = self.heading.into_parts();
        Ok(Trace {
            external: sizes.external,
            bridges: sizes.bridges,
            processors: sizes.processors,
            plan,
            tones,
            timers,
            events: Events::of(self.events),
            segments: Segments::of(self.ends),
            changes: Changes::of(self.changes),
        })
    }
}
