//! The result of the lines read so far, as far as the next line depends on it.
ghost use Rattle.std.specs.Prelude.{◌≡◌};
ghost use Rattle.trace_text.specs.TraceLines.{with_tone};

use crate::cut::{first_word, is_text};
use crate::fault::{LineError, Reason};
use crate::fields::header_of;
use crate::limits::Limits;
use crate::line::{
    alone, frame_of, free_of, kind_of, link_down_of, link_up_of, message_of, nail_of, number_of,
    restart_of, seat_of, timer_of, tone_of,
};
use crate::plain::{ends_word, plain_frame, plain_free, plain_message, plain_nail};
use crate::said::{GivenTone, LineKind, Said, Sizes};
use crate::timing::GivenTimers;
use call_timers::Timers;
use exchange_events::{Event, Input};
use number_plan::Plan;
use std::alloc::{AllocError, Global};
use std::marker::Model;
use tone_rules::Tones;

/// The effect of a line.
#[derive(Debug, Drop)]
pub enum Happening {
    /// None: the line is blank, a comment, the header, a number, a tone or a timer.
    Nothing,
    /// An event.
    Event(Event),
    /// The end of the segment.
    SegmentEnd,
    /// The end of the segment and a change of meters.
    Change,
}

/// The result of the lines so far that the next line depends on: the sizes, the numbers, the tones, the timers, and the
/// numbers of events and changes of meters. A contract views it as that record.
///
/// It does not store the events, so its size does not depend on the number of lines.
#[derive(Debug, Drop)]
pub struct Heading {
    sizes: Option<Sizes>,
    plan: Plan,
    tones: Tones,
    timers: GivenTimers,
    events: u32,
    changes: u32,
}

impl Model for Heading {
    ghost use Rattle.trace_text.specs.TraceLines.{SoFar};

    ghost Value = { SoFar };

    ghost view = { λ h. record {
      sizes = h.sizes;
      events = h.events;
      plan = h.plan;
      tones = h.tones;
      timers = h.timers;
      changes = h.changes;
    } };
}

// Stores the octets of a tone.
fn give(tones: &mut Tones, given: GivenTone)
    ensures { tones.new ≡ with_tone tones.old given }
{
    tones.set(given.kind, given.octets);
}

impl Heading {
    ghost use Rattle.std.specs.Prelude.{◌≡◌, ◌<◌, ◌≤◌, [], IsTrue, Ok, OnOk, OnErr, IfOk, IfErr, IfSome};
    ghost use Rattle.trace_text.specs.declared.fault.Reason.TheVariants.{Limit};
    ghost use Rattle.trace_text.specs.TraceWords.{words};
    ghost use Rattle.trace_text.specs.TraceTimers.{timers_by};
    ghost use Rattle.trace_text.specs.TraceLines.{number, numbered, tone, toned, timer, timed, before_events, by_kind, reads, joins, says, Fails, Gives};
    ghost use Rattle.trace_text.specs.TraceGrammar.{so_far};
    ghost use Rattle.trace_text.specs.TraceHeading.{happening_of, with_event, with_said, Suits, IsLineRead};

    /// Returns the heading before the first line.
    pub fn new(alloc: Global) -> Heading
        ensures { result ≡ so_far [] }
    {
        Heading {
            sizes: None,
            plan: Plan::new(alloc),
            tones: Tones::empty(alloc),
            timers: GivenTimers::none(),
            events: 0,
            changes: 0,
        }
    }

    /// Returns the sizes of the header. `None` before the header.
    pub fn sizes(&self) -> Option<Sizes>
        ensures { result ≡ self.now.sizes }
    {
        self.sizes
    }

    /// Returns the number plan of the lines so far.
    pub fn plan(&self) -> &Plan
        ensures { result.now ≡ self.now.plan }
    {
        &self.plan
    }

    /// Returns the tones of the lines so far. A tone without a line has no octets.
    pub fn tones(&self) -> &Tones
        ensures { result.now ≡ self.now.tones }
    {
        &self.tones
    }

    /// Returns the timers of the lines so far. A timer without a line has its usual value.
    pub fn timers(&self) -> Timers
        ensures { result ≡ timers_by self.now.timers }
    {
        self.timers.timers()
    }

    /// Returns the number of events so far.
    pub fn event_count(&self) -> u32
        ensures { result ≡ self.now.events }
    {
        self.events
    }

    /// Counts an event that another reader read.
    ///
    /// # Errors
    ///
    /// [`Reason::Limit`] if the events are at their limit. The heading is unchanged then.
    pub fn count_event(&mut self, limits: Limits) -> Result<(), Reason>
        ensures counted { OnOk result (self.new ≡ with_event self.old) }
        ensures few { OnOk result (self.old.events < limits.max_events) }
        ensures refused { IfErr result (λ why. (why ≡ Limit) × (limits.max_events ≤ self.old.events)) }
        ensures kept { OnErr result (self.new ≡ self.old) }
    {
        if self.events >= limits.max_events {
            return Err(Reason::Limit);
        }
        self.events += 1;
        Ok(())
    }

    /// Returns the number plan, the tones and the timers.
    pub fn into_parts(self) -> (Plan, Tones, Timers)
        ensures { result ≡ (self.plan, self.tones, timers_by self.timers) }
    {
        let timers = self.timers.timers();
        (self.plan, self.tones, timers)
    }

    // Adds the content of a line, if it passes the last checks.
    #[inline(always)]
    fn take(&mut self, limits: Limits, said: Said) -> Result<Happening, LineError>
        requires { Suits self.old said }
        ensures taken { OnOk result (self.new ≡ with_said self.old said) }
        ensures happens { IfOk result (λ happening. happening ≡ happening_of said) }
        ensures joins { OnOk result (joins limits self.old said ≡ Ok said) }
        ensures refused { IfErr result (λ e. Fails e (joins limits self.old said)) }
        ensures kept { OnErr result (self.new ≡ self.old) }
    {
        match said {
            Said::Nothing => {}
            Said::Header(sizes) => self.sizes = Some(sizes),
            Said::Numbered(number) => self.plan.add(number.digits.as_slice(), number.target)?,
            Said::Toned(given) => give(&mut self.tones, given),
            Said::Timed(given) => self.timers.give(given),
            Said::Happens(_) if self.events >= limits.max_events => {
                return Err(LineError::Refused(Reason::Limit));
            }
            Said::Happens(event) => {
                self.events += 1;
                return Ok(Happening::Event(event));
            }
            Said::Sync => return Ok(Happening::SegmentEnd),
            Said::Change if self.changes >= limits.max_changes => {
                return Err(LineError::Refused(Reason::Limit));
            }
            Said::Change => {
                self.changes += 1;
                return Ok(Happening::Change);
            }
        }
        Ok(Happening::Nothing)
    }

    // Reads the fields of a number after `number`.
    fn number_line(&self, external: u8, line: &[u8]) -> Result<Said, Reason>
        ensures reads { result ≡ before_events self.now (numbered (number external (words line.now))) }
        ensures suits { IfOk result (λ said. Suits self.now said) }
    {
        if self.events > 0 {
            return Err(Reason::Word);
        }
        Ok(Said::Numbered(number_of(external, line)?))
    }

    // Reads the fields of a tone after `tone`.
    fn tone_line(&self, alloc: Global, line: &[u8]) -> Result<Said, LineError>
        ensures reads { Gives result (before_events self.now (toned (tone self.now.tones (words line.now)))) }
        ensures suits { IfOk result (λ said. Suits self.now said) }
    {
        if self.events > 0 {
            return Err(LineError::Refused(Reason::Word));
        }
        Ok(Said::Toned(tone_of(alloc, &self.tones, line)?))
    }

    // Reads the fields of a timer after `timer`.
    fn timer_line(&self, line: &[u8]) -> Result<Said, Reason>
        ensures reads { result ≡ before_events self.now (timed (timer self.now.timers (words line.now))) }
        ensures suits { IfOk result (λ said. Suits self.now said) }
    {
        if self.events > 0 {
            return Err(Reason::Word);
        }
        Ok(Said::Timed(timer_of(&self.timers, line)?))
    }

    // Reads the fields of a line after the first.
    fn line_of_kind(
        &self,
        alloc: Global,
        external: u8,
        kind: LineKind,
        line: &[u8],
    ) -> Result<Said, LineError>
        ensures reads { Gives result (by_kind self.now external kind (words line.now)) }
        ensures suits { IfOk result (λ said. Suits self.now said) }
    {
        match kind {
            LineKind::Frame => Ok(Said::Happens(frame_of(alloc, external, line)?)),
            LineKind::Message => Ok(Said::Happens(message_of(alloc, external, line)?)),
            LineKind::Nail => Ok(Said::Happens(nail_of(external, line)?)),
            LineKind::Seat => Ok(Said::Happens(seat_of(external, line)?)),
            LineKind::Free => Ok(Said::Happens(free_of(external, line)?)),
            LineKind::LinkUp => Ok(Said::Happens(link_up_of(external, line)?)),
            LineKind::LinkDown => Ok(Said::Happens(link_down_of(external, line)?)),
            LineKind::RestartLine => Ok(Said::Happens(restart_of(external, line)?)),
            LineKind::Number => Ok(self.number_line(external, line)?),
            LineKind::Tone => Ok(self.tone_line(alloc, line)?),
            LineKind::Timer => Ok(self.timer_line(line)?),
            LineKind::Sync => Ok(alone(Said::Sync, line)?),
            LineKind::Change => Ok(alone(Said::Change, line)?),
            LineKind::Unknown => Err(LineError::Refused(Reason::Word)),
        }
    }

    /// Returns the event of a message or of a frame without fields, in the common form. `None` for any other line.
    #[inline(always)]
    pub(crate) fn common_event(&self, alloc: Global, line: &[u8]) -> Option<Event>
        ensures { IfSome result (λ event. reads self.now line.now ≡ Ok (Said.Happens event)) }
    {
        let Some(sizes) = self.sizes else {
            return None;
        };
        match line {
            [b'M', ..] => plain_message(alloc, sizes.external, line),
            [b'F'] => Some(Event::Frame(Input::idle(sizes.external))),
            _ => None,
        }
    }

    /// Returns the frame, nailed connection or release of a line in the common form. `None` for any other line.
    #[inline(always)]
    pub(crate) fn other_event(
        &self,
        alloc: Global,
        line: &[u8],
    ) -> Result<Option<Event>, AllocError>
        ensures { IfOk result (λ found. IfSome found (λ event. reads self.now line.now ≡ Ok (Said.Happens event))) }
    {
        let Some(sizes) = self.sizes else {
            return Ok(None);
        };
        match line {
            [b'F', rest @ ..] if ends_word(rest) => plain_frame(alloc, sizes.external, rest),
            [b'n', ..] => Ok(plain_nail(sizes.external, line)),
            [b'f', ..] => Ok(plain_free(sizes.external, line)),
            _ => Ok(None),
        }
    }

    // Returns the event of a line in the common form. `None` for any other line.
    fn plain_event(&self, alloc: Global, line: &[u8]) -> Result<Option<Event>, AllocError>
        ensures { IfOk result (λ found. IfSome found (λ event. reads self.now line.now ≡ Ok (Said.Happens event))) }
    {
        match self.common_event(alloc, line) {
            Some(event) => Ok(Some(event)),
            None => self.other_event(alloc, line),
        }
    }

    /// Returns whether a line is `sync` in the common form, after the header.
    #[inline(always)]
    pub(crate) fn is_sync(&self, line: &[u8]) -> bool
        ensures { IsTrue result → reads self.now line.now ≡ Ok Said.Sync }
    {
        self.sizes.is_some() && matches!(line, [b's', b'y', b'n', b'c'])
    }

    // Returns whether a line is `change` in the common form, after the header.
    fn is_change(&self, line: &[u8]) -> bool
        ensures { IsTrue result → reads self.now line.now ≡ Ok Said.Change }
    {
        self.sizes.is_some() && matches!(line, [b'c', b'h', b'a', b'n', b'g', b'e'])
    }

    // Reads a line, without the last checks.
    fn reads(&self, alloc: Global, line: &[u8]) -> Result<Said, LineError>
        ensures reads { Gives result (reads self.now line.now) }
        ensures suits { IfOk result (λ said. Suits self.now said) }
    {
        if line.first() == Some(&b'#') {
            return Ok(Said::Nothing);
        }
        let Some((kind, rest)) = first_word(line) else {
            return Ok(Said::Nothing);
        };
        let Some(sizes) = self.sizes else {
            let sizes = header_of(line).ok_or(Reason::Header)?;
            return Ok(Said::Header(sizes));
        };
        if !is_text(line) {
            return Err(LineError::Refused(Reason::Word));
        }
        self.line_of_kind(alloc, sizes.external, kind_of(kind), rest)
    }

    // Reads a line in any form. It is a separate function because it clears the large local values of rare lines.
    #[inline(never)]
    fn read_any_line(
        &mut self,
        alloc: Global,
        limits: Limits,
        line: &[u8],
    ) -> Result<Happening, LineError>
        ensures read { IfOk result (λ happening. IsLineRead limits self.old line.now happening self.new) }
        ensures refused { IfErr result (λ e. Fails e (says limits self.old line.now)) }
        ensures kept { OnErr result (self.new ≡ self.old) }
    {
        let said = self.reads(alloc, line)?;
        self.take(limits, said)
    }

    /// Reads one more line, within the limits, and returns its effect.
    ///
    /// # Errors
    ///
    /// - [`LineError::Refused`] if the line fails a check, with the first one.
    /// - [`LineError::Memory`] if an allocation fails.
    ///
    /// The heading is unchanged then.
    #[inline(always)]
    pub fn read_line(
        &mut self,
        alloc: Global,
        limits: Limits,
        line: &[u8],
    ) -> Result<Happening, LineError>
        ensures read { IfOk result (λ happening. IsLineRead limits self.old line.now happening self.new) }
        // The error is the first check that the line fails, or a failed allocation.
        ensures refused { IfErr result (λ e. Fails e (says limits self.old line.now)) }
        ensures kept { OnErr result (self.new ≡ self.old) }
    {
        // Most lines of a trace of messages are `sync`.
        if self.is_sync(line) {
            return self.take(limits, Said::Sync);
        }
        if let Some(event) = self.plain_event(alloc, line)? {
            return self.take(limits, Said::Happens(event));
        }
        if self.is_change(line) {
            return self.take(limits, Said::Change);
        }
        self.read_any_line(alloc, limits, line)
    }
}
