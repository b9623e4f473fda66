//! A trace whose lines are processed in sequence.
ghost use Rattle.std.specs.Prelude.{◌≡◌, ◌<◌, ◌≤◌, ◌++◌, codes, length, IsTrue, OnOk, OnErr, IsErrOf};
ghost use Rattle.line_wire.specs.declared.handler.Stop.TheVariants.{OutOfMemory, Refused};
ghost use Rattle.run_verifier.specs.Refusals.{refusal};

use crate::changing::change_once;
use crate::linked_stepping::advance_linked;
use crate::stepping::advance;
use control_memory::{Fabric, PathMap};
use frame_engine::Carrier;
use line_wire::Stop;
use linked_exchange::{LinkedEvent, LinkedExchange, ready, ready_linked};
use linked_text::{LinkHappening, LinkHeading};
use lone_exchange::LoneExchange;
use meters::Meter;
use run_verifier::refusal;
use std::alloc::{AllocError, Global};
use std::collections::VecDeque;
use std::thread::Threads;
use trace_text::{Happening, Limits, LineError, Reason};

/// The maximum number of octets in a line, without its line feed.
pub const MAX_LINE: usize = 65_535;

// The maximum number of lines.
const MAX_LINES: u32 = 4_294_967_294;

/// An exchange that processes the lines of a trace in sequence.
#[derive(Drop)]
pub struct TraceFollower<'a, P: PathMap + Drop, C: Carrier, R> {
    /// The runtime, whose threads an engine may use.
    pub rt: &'a R,
    /// The allocator.
    pub alloc: Global,
    /// The content of the lines so far.
    pub heading: LinkHeading,
    /// The number of lines so far.
    pub lines: u32,
    /// The exchange, from the first event on.
    pub exchange: Option<LoneExchange<P, C>>,
    /// The exchange with data links, from the first event on, if a line has a data link.
    pub linked: Option<LinkedExchange<P, C>>,
    /// The active meters, in order.
    pub on: Vec<Box<dyn Meter>>,
    /// The spare meters.
    pub spare: VecDeque<Box<dyn Meter>>,
}

impl<'a, P: Fabric, C: Carrier, R: Threads + Sync> TraceFollower<'a, P, C, R> {
    ghost use Rattle.exchange_follow.specs.Followers.{FinishesLines, HandlesLine, IsAtLine, IsFollowing, RefusesEnd, RefusesLine, StrandsAt, StrandsEnd, StrandsIn, TakesLine};
    ghost use Rattle.exchange_follow.specs.Handling.{OnlyCounts};
    ghost use Rattle.linked_exchange.specs.LinkedStepping.{effect_in};

    // Processes the effect of a line.
    fn take(&mut self, happening: LinkHappening, out: &mut Vec<u8>) -> Result<(), AllocError>
        requires read { IsAtLine ⟦<dyn Meter as Meter>⟧ C.Carrier P.Fabric.own self.old happening }
        ensures done { OnOk result (TakesLine ⟦<dyn Meter as Meter>⟧ C.Carrier P.Fabric.own
            self.old self.new happening out.old out.new) }
        ensures stranded { OnErr result (StrandsIn ⟦<dyn Meter as Meter>⟧ C.Carrier P.Fabric.own
            self.old self.new happening out.old out.new) }
        ensures lines { self.new.lines ≡ self.old.lines }
    {
        match happening {
            LinkHappening::Plain(Happening::Nothing) => Ok(()),
            LinkHappening::Plain(Happening::SegmentEnd) => Ok(()),
            LinkHappening::Plain(Happening::Event(event)) => {
                self.process(&LinkedEvent::Event(&event), out)
            }
            LinkHappening::Received(line, octets) => {
                self.process(&LinkedEvent::Received(line, &octets), out)
            }
            LinkHappening::Plain(Happening::Change) => {
                change_once(&mut self.on, &mut self.spare, out)
            }
        }
    }

    // Processes an event, on the exchange with data links if a line has one.
    fn process(&mut self, event: &LinkedEvent, out: &mut Vec<u8>) -> Result<(), AllocError>
        requires read { IsAtLine ⟦<dyn Meter as Meter>⟧ C.Carrier P.Fabric.own self.old (effect_in event.now) }
        ensures done { OnOk result (TakesLine ⟦<dyn Meter as Meter>⟧ C.Carrier P.Fabric.own
            self.old self.new (effect_in event.now) out.old out.new) }
        ensures stranded { OnErr result (StrandsIn ⟦<dyn Meter as Meter>⟧ C.Carrier P.Fabric.own
            self.old self.new (effect_in event.now) out.old out.new) }
        ensures lines { self.new.lines ≡ self.old.lines }
    {
        let unlinked = self.heading.linked().as_slice().is_empty();
        let meters = &mut self.on;
        match event {
            LinkedEvent::Event(event) if unlinked => advance(
                self.rt,
                self.alloc,
                self.heading.plain(),
                &mut self.exchange,
                meters,
                event,
                out,
            ),
            _ => advance_linked(
                self.rt,
                self.alloc,
                &self.heading,
                &mut self.linked,
                meters,
                event,
                out,
            ),
        }
    }

    /// Returns whether a line is `sync` in the common form, after the header and not past the last line. Such a line has
    /// no effect but to be counted.
    #[inline(always)]
    pub fn only_counts(&self, line: &[u8]) -> bool
        ensures { IsTrue result → OnlyCounts self.now.heading self.now.lines line.now }
    {
        if !is_sync(line) || self.lines >= MAX_LINES {
            return false;
        }
        self.heading.plain().sizes().is_some()
    }

    /// Processes the next line, given without its line feed, and appends the octets that are due for it.
    ///
    /// # Errors
    ///
    /// - [`Stop::Refused`] if the line is refused. Its refusal was appended.
    /// - [`Stop::OutOfMemory`] if an allocation failed.
    pub fn handle(&mut self, line: &[u8], out: &mut Vec<u8>) -> Result<(), Stop>
        requires at { IsFollowing ⟦<dyn Meter as Meter>⟧ C.Carrier P.Fabric.own self.old }

        ensures done { OnOk result (HandlesLine ⟦<dyn Meter as Meter>⟧ C.Carrier P.Fabric.own
            self.old self.new line.now out.old out.new) }
        ensures short { OnOk result (length line.now ≤ 65535) }
        ensures few { OnOk result (self.old.lines < 4294967294) }

        ensures refused { IsErrOf result Stop.Refused → RefusesLine ⟦<dyn Meter as Meter>⟧ C.Carrier P.Fabric.own
            self.old self.new line.now out.old out.new }
        ensures stranded { IsErrOf result Stop.OutOfMemory → StrandsAt ⟦<dyn Meter as Meter>⟧ C.Carrier P.Fabric.own
            self.old self.new line.now out.old out.new }
    {
        if line.len() > MAX_LINE || self.lines >= MAX_LINES {
            return Err(refuse(self.alloc, self.lines + 1, Reason::Limit, out));
        }
        match self
            .heading
            .read_line(self.alloc, Limits::for_lines(), line)
        {
            Ok(happening) => match self.take(happening, out) {
                Ok(()) => {
                    self.lines += 1;
                    Ok(())
                }
                Err(_) => Err(Stop::OutOfMemory),
            },
            Err(LineError::Memory) => Err(Stop::OutOfMemory),
            Err(LineError::Refused(reason)) => {
                Err(refuse(self.alloc, self.lines + 1, reason, out))
            }
        }
    }

    /// Processes the end of the input, and appends the octets that are due for it.
    ///
    /// # Errors
    ///
    /// - [`Stop::Refused`] if no line was the header. The refusal was appended.
    /// - [`Stop::OutOfMemory`] if an allocation failed.
    pub fn finish(&mut self, out: &mut Vec<u8>) -> Result<(), Stop>
        requires at { IsFollowing ⟦<dyn Meter as Meter>⟧ C.Carrier P.Fabric.own self.old }

        ensures done { OnOk result (FinishesLines ⟦<dyn Meter as Meter>⟧ C.Carrier P.Fabric.own
            self.old self.new out.old out.new) }

        ensures refused { IsErrOf result Stop.Refused → RefusesEnd ⟦<dyn Meter as Meter>⟧ C.Carrier P.Fabric.own
            self.old self.new out.old out.new }
        ensures stranded { IsErrOf result Stop.OutOfMemory → StrandsEnd ⟦<dyn Meter as Meter>⟧ C.Carrier P.Fabric.own
            self.old self.new out.old out.new }
    {
        if self.heading.plain().sizes().is_none() {
            return Err(refuse(self.alloc, self.lines + 1, Reason::Header, out));
        }
        let made = if self.heading.linked().as_slice().is_empty() {
            ready(self.alloc, self.heading.plain(), &mut self.exchange)
        } else {
            ready_linked(self.rt, self.alloc, &self.heading, &mut self.linked)
        };
        match made {
            Ok(()) => Ok(()),
            Err(_) => Err(Stop::OutOfMemory),
        }
    }
}

// Returns whether a line is `sync` in the common form.
#[inline(always)]
fn is_sync(line: &[u8]) -> bool
    ensures { IsTrue result → line.now ≡ codes "sync" }
{
    matches!(line, [b's', b'y', b'n', b'c'])
}

// Appends the refusal of the line with this number to a text. If an allocation fails, the text is unchanged.
fn refuse(alloc: Global, number: u32, reason: Reason, text: &mut Vec<u8>) -> Stop
    ensures refused { result ≡ Refused → text.new.items ≡ text.old.items ++ refusal number reason }
    ensures kept { result ≡ OutOfMemory → text.new.items ≡ text.old.items }
{
    let Ok(line) = refusal(alloc, number, reason) else {
        return Stop::OutOfMemory;
    };
    match text.extend_from_slice(line.as_slice()) {
        Ok(()) => Stop::Refused,
        Err(_) => Stop::OutOfMemory,
    }
}
