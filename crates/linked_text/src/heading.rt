//! The result of the lines so far of a trace with data links, as far as the next line depends on it.
use crate::line::{
    is_link_octet, link_kind_of, link_of, link_timer_of, names_link_timer, names_linked,
    received_of,
};
use crate::said::{LinkHappening, LinkKind, LinkSaid};
use crate::timing::GivenLinkTimers;
use link_procedures::LinkTimers;
use number_plan::LineList;
use std::alloc::{AllocError, Global};
use std::marker::Model;
use trace_text::{Happening, Heading, Limits, LineError, Reason, first_word, is_text};

/// The result of the lines so far that the next line depends on: the heading of a trace without data links, the lines
/// with a data link, and the timers of the links. A contract views it as that record.
///
/// In the heading, a received frame counts as an event.
#[derive(Drop)]
pub struct LinkHeading {
    heading: Heading,
    linked: LineList,
    timers: GivenLinkTimers,
}

impl Model for LinkHeading {
    ghost use Rattle.linked_text.specs.LinkLines.{LinkSoFar};

    ghost Value = { LinkSoFar };

    ghost view = { λ h. record { plain = h.heading; linked = h.linked; timers = h.timers } };
}

impl LinkHeading {
    ghost use Rattle.std.specs.Prelude.{◌≡◌, [], IsTrue, None, Ok, OnOk, OnErr, IfOk, IfErr};
    ghost use Rattle.trace_text.specs.TraceWords.{words};
    ghost use Rattle.trace_text.specs.TraceLines.{Fails, Gives};
    ghost use Rattle.linked_text.specs.LinkTimers.{link_timers_by};
    ghost use Rattle.linked_text.specs.LinkLines.{before_first, by_link_kind, joins_link, link, link_said, link_timer, linked_line, says_in_turn, timed_line, with_link_said, happening_of_link};
    ghost use Rattle.linked_text.specs.LinkEffects.{IsInTurnRead, in_turn, link_row};

    /// Returns the heading before the first line.
    pub fn new(alloc: Global) -> LinkHeading
        ensures { result ≡ in_turn [] }
    {
        LinkHeading {
            heading: Heading::new(alloc),
            linked: LineList::new(),
            timers: GivenLinkTimers::none(),
        }
    }

    /// Returns the heading of a trace without data links.
    pub fn plain(&self) -> &Heading
        ensures { result.now ≡ self.now.plain }
    {
        &self.heading
    }

    /// Returns the lines with a data link, in the order of their lines `link`.
    pub fn linked(&self) -> &LineList
        ensures { result.now ≡ self.now.linked }
    {
        &self.linked
    }

    /// Returns for each of the first `external` lines whether it has a data link.
    ///
    /// # Errors
    ///
    /// [`AllocError`] if an allocation fails.
    pub fn link_row(&self, alloc: Global, external: u8) -> Result<Vec<bool>, AllocError>
        ensures { IfOk result (λ row. row.items ≡ link_row external self.now.linked) }
    {
        let mut row = Vec::with_capacity(alloc, usize::from(external))?;
        for line in 0..external {
            row.push(self.linked.contains(line))?;
        }
        Ok(row)
    }

    /// Returns the timers of the links. A timer without a line has its usual value.
    pub fn link_timers(&self) -> LinkTimers
        ensures { result ≡ link_timers_by self.now.timers }
    {
        self.timers.timers()
    }

    // Returns whether `trace_text` reads a line. It may return `false` for such a line.
    #[inline(always)]
    fn is_plain(&self, line: &[u8]) -> bool
        ensures { IsTrue result → link_said self.now line.now ≡ Ok None }
    {
        match line.first() {
            None => true,
            Some(b'M') => self.linked.as_slice().is_empty(),
            Some(first) => !is_link_octet(*first),
        }
    }

    // Reads the fields of a line of this kind, if it concerns a data link.
    fn by_kind(
        &self,
        alloc: Global,
        external: u8,
        kind: LinkKind,
        line: &[u8],
    ) -> Result<Option<LinkSaid>, LineError>
        ensures { Gives result (by_link_kind self.now external kind (words line.now)) }
    {
        match kind {
            LinkKind::Received => Ok(Some(received_of(alloc, external, &self.linked, line)?)),
            LinkKind::Link => Ok(Some(self.link_line(external, line)?)),
            LinkKind::Timer if names_link_timer(line) => Ok(Some(self.timer_line(line)?)),
            LinkKind::Timer => Ok(None),
            LinkKind::Direct if names_linked(external, &self.linked, line) => {
                Err(LineError::Refused(Reason::Slot))
            }
            LinkKind::Direct => Ok(None),
            LinkKind::Other => Ok(None),
        }
    }

    // Reads the fields of a link after `link`.
    fn link_line(&self, external: u8, line: &[u8]) -> Result<LinkSaid, Reason>
        ensures { result ≡ before_first self.now (linked_line (link external self.now.linked (words line.now))) }
    {
        if self.heading.event_count() > 0 {
            return Err(Reason::Word);
        }
        Ok(LinkSaid::Linked(link_of(external, &self.linked, line)?))
    }

    // Reads the fields of a timer of the links after `timer`.
    fn timer_line(&self, line: &[u8]) -> Result<LinkSaid, Reason>
        ensures { result ≡ before_first self.now (timed_line (link_timer self.now.timers (words line.now))) }
    {
        if self.heading.event_count() > 0 {
            return Err(Reason::Word);
        }
        Ok(LinkSaid::Timed(link_timer_of(&self.timers, line)?))
    }

    // Reads a line that concerns a data link, without the last check. `None` for any other line.
    fn reads(&self, alloc: Global, line: &[u8]) -> Result<Option<LinkSaid>, LineError>
        ensures { Gives result (link_said self.now line.now) }
    {
        let Some(sizes) = self.heading.sizes() else {
            return Ok(None);
        };
        let Some((kind, rest)) = first_word(line) else {
            return Ok(None);
        };
        if !is_text(line) {
            return Ok(None);
        }
        self.by_kind(alloc, sizes.external, link_kind_of(kind), rest)
    }

    // Adds the content of a line that concerns a data link, if it passes the last check.
    fn take(&mut self, limits: Limits, said: LinkSaid) -> Result<LinkHappening, Reason>
        ensures taken { OnOk result (self.new ≡ with_link_said self.old said) }
        ensures happens { IfOk result (λ happening. happening ≡ happening_of_link said) }
        ensures joins { OnOk result (joins_link limits self.old said ≡ Ok said) }
        ensures refused { IfErr result (λ why. joins_link limits self.old said ≡ Err why) }
        ensures kept { OnErr result (self.new ≡ self.old) }
    {
        match said {
            LinkSaid::Linked(_) if self.linked.is_full() => return Err(Reason::Slot),
            LinkSaid::Linked(line) => self.linked.push(line),
            LinkSaid::Timed(given) => self.timers.give(given),
            LinkSaid::Received(line, octets) => {
                self.heading.count_event(limits)?;
                return Ok(LinkHappening::Received(line, octets));
            }
        }
        Ok(LinkHappening::Plain(Happening::Nothing))
    }

    // Reads a line of a trace without data links.
    #[inline(always)]
    fn read_plain(
        &mut self,
        alloc: Global,
        limits: Limits,
        line: &[u8],
    ) -> Result<LinkHappening, LineError>
        requires { link_said self.old line.now ≡ Ok None }
        ensures read { IfOk result (λ happening. IsInTurnRead limits self.old line.now happening self.new) }
        ensures refused { IfErr result (λ e. Fails e (says_in_turn limits self.old line.now)) }
        ensures kept { OnErr result (self.new ≡ self.old) }
    {
        Ok(LinkHappening::Plain(self.heading.read_line(alloc, limits, line)?))
    }

    // Reads a line that may concern a data link. It is a separate function because it is rare in most traces.
    #[inline(never)]
    fn read_link_line(
        &mut self,
        alloc: Global,
        limits: Limits,
        line: &[u8],
    ) -> Result<LinkHappening, LineError>
        ensures read { IfOk result (λ happening. IsInTurnRead limits self.old line.now happening self.new) }
        ensures refused { IfErr result (λ e. Fails e (says_in_turn limits self.old line.now)) }
        ensures kept { OnErr result (self.new ≡ self.old) }
    {
        match self.reads(alloc, line)? {
            Some(said) => Ok(self.take(limits, said)?),
            None => self.read_plain(alloc, limits, line),
        }
    }

    /// Reads one more line, within the limits, and returns its effect.
    ///
    /// # Errors
    ///
    /// - [`LineError::Refused`] if the line fails a check, with the first one.
    /// - [`LineError::Memory`] if an allocation fails.
    ///
    /// The heading is unchanged then.
    #[inline(always)]
    pub fn read_line(
        &mut self,
        alloc: Global,
        limits: Limits,
        line: &[u8],
    ) -> Result<LinkHappening, LineError>
        ensures read { IfOk result (λ happening. IsInTurnRead limits self.old line.now happening self.new) }
        // The error is the first check that the line fails, or a failed allocation.
        ensures refused { IfErr result (λ e. Fails e (says_in_turn limits self.old line.now)) }
        ensures kept { OnErr result (self.new ≡ self.old) }
    {
        if self.is_plain(line) {
            return self.read_plain(alloc, limits, line);
        }
        self.read_link_line(alloc, limits, line)
    }
}
