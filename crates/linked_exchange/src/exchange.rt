//! An exchange with data links.
ghost use Rattle.std.specs.Prelude.{◌≡◌, ◌+◌, ◌<◌, ◌≤◌, ◌∷◌, [], All, IfOk, length};
ghost use Rattle.call_profile.specs.Step.{MovesAtMost};
ghost use Rattle.control_memory.specs.Unused.{IsUnused};
ghost use Rattle.exchange_events.specs.declared.outbox.Response.TheVariants.{Sent};
ghost use Rattle.exchange_events.specs.Responses.{reply_of};
ghost use Rattle.exchange_events.specs.Sound.{Fits};
ghost use Rattle.link_table.specs.Steps as table;
ghost use Rattle.lone_exchange.specs.At.{size};
ghost use Rattle.linked_exchange.specs.At.{IsPlannedFor, IsSomewhere, PlaysAt, RepliesTo, StartsLinkedAt, Steps};
ghost use Rattle.linked_exchange.specs.Steps.{Happens, Receives, Turns, indicated, links_ended, sends_of, submitted_all};

use crate::events::{process_change, process_notice, put_down};
use crate::settings::Settings;
use control_memory::PathMap;
use exchange_events::{Event, Outbox, Response, Signal};
use frame_engine::Carrier;
use link_procedures::Indication;
use link_table::{Change, LINES, LinkTable, NoLinkError};
use lone_exchange::LoneExchange;
use std::alloc::{AllocError, Global};
use std::thread::Threads;

/// An exchange with data links, which one caller drives. The definition `IsLinkedAt` states its exchange state and its
/// links between two steps.
///
/// The caller may read the fields between two steps. A write to a field ends the relation to an exchange state.
#[derive(Drop)]
pub struct LinkedExchange<P: PathMap, C: Carrier> {
    /// The exchange: the circuits, the legs of the calls, the engine, and the messages and records of the last step.
    pub exchange: LoneExchange<P, C>,
    /// The links of the lines, with the frames of the last step.
    pub links: LinkTable,
}

impl<P: PathMap + Drop, C: Carrier> LinkedExchange<P, C> {
    /// Returns an exchange before its first step, with these numbers of external and bridge lines, over an empty path
    /// map. `linked` has the lines with links. The link of each begins in state 4, and is down for call control.
    ///
    /// # Errors
    ///
    /// [`AllocError`] if an allocation fails.
    pub fn new<R: Threads + Sync>(
        rt: &R,
        alloc: Global,
        external: u8,
        bridges: u8,
        settings: &Settings,
        linked: &[bool],
        paths: P,
    ) -> Result<LinkedExchange<P, C>, AllocError>
        requires external { 1 ≤ external × (external ≤ 32) }
        requires bridges { bridges ≤ 2 }
        requires paths { IsUnused (external + bridges) (P.width paths) (P.depth paths) (P.layout paths) }
        requires planned { IsPlannedFor (size external bridges (P.depth paths)) settings.now }
        requires linked { length linked.now ≤ external }
        ensures start { IfOk result (StartsLinkedAt C.carries C.next C.sizes settings.now external bridges (P.depth paths) linked.now) }
        ensures bound { IfOk result (λ x. x.exchange.control.map.bound ≡ P.bound paths) }
    {
        let links = LinkTable::new(alloc, linked, 0)?;
        let mut exchange = LoneExchange::new(alloc, external, bridges, *settings.timers, paths)?;
        put_down(&mut exchange, rt, settings, linked);
        Ok(LinkedExchange { exchange, links })
    }
}

impl<P: PathMap, C: Carrier> LinkedExchange<P, C> {
    /// Processes one event, and submits its messages to the links of their lines. The messages and records of the event
    /// replace the content of the outbox of the exchange.
    pub fn happen<R: Threads + Sync>(
        &mut self,
        rt: &R,
        settings: &Settings,
        event: &Event,
    ) -> Response
        requires at { IsSomewhere C.carries C.next C.sizes settings.now self.old }
        requires fits { Fits self.old.exchange.control.map.external event.now }
        requires room { self.old.exchange.control.map.next < 4294967295 }
        ensures step { Steps C.carries C.next C.sizes settings.now (Happens event.now) self.old self.new }
        ensures reply { RepliesTo C.carries C.next C.sizes settings.now (Happens event.now) self.old result self.new }
        ensures played { PlaysAt C.carries C.next C.sizes C.plays settings.now event.now self.old self.new }
        ensures few { MovesAtMost self.old.exchange.control.map.bound (reply_of result self.new.exchange.context.out) }
        ensures bound { self.new.exchange.control.map.bound ≡ self.old.exchange.control.map.bound }
    {
        self.links.begin();
        let response = self
            .exchange
            .happen(rt, settings.plan, settings.tones, settings.timers, event);
        let at = self.exchange.control.map.next_frame();
        end_step(&mut self.links, response, &self.exchange.context.out, at);
        response
    }

    /// Processes the octets of a frame of the user on a line. Returns the indication to call control, if there is one.
    /// Then the response to its event is [`Response::Sent`].
    ///
    /// # Errors
    ///
    /// [`NoLinkError`] if the line has no link. Then nothing changes, and nothing is sent.
    pub fn receive<R: Threads + Sync>(
        &mut self,
        rt: &R,
        settings: &Settings,
        line: u8,
        octets: &[u8],
    ) -> Result<Option<Indication>, NoLinkError>
        requires at { IsSomewhere C.carries C.next C.sizes settings.now self.old }
        requires octets { All (λ octet. octet < 256) octets.now }
        requires room { self.old.exchange.control.map.next < 4294967295 }
        ensures step { Steps C.carries C.next C.sizes settings.now (Receives line octets.now) self.old self.new }
        ensures reply { RepliesTo C.carries C.next C.sizes settings.now (Receives line octets.now) self.old Sent self.new }
        ensures indication { result
            ≡ indicated (table.noticed_on line octets.now self.old.exchange.control.map.next self.old.links) }
        ensures few { MovesAtMost self.old.exchange.control.map.bound (reply_of Sent self.new.exchange.context.out) }
        ensures bound { self.new.exchange.control.map.bound ≡ self.old.exchange.control.map.bound }
    {
        let at = self.exchange.control.map.next_frame();
        let received = self.links.receive(line, octets, at);
        let indication = process_notice(&mut self.exchange, rt, settings, line, received);
        let end = self.exchange.control.map.next_frame();
        end_step(
            &mut self.links,
            Response::Sent,
            &self.exchange.context.out,
            end,
        );
        indication
    }

    /// Processes the turn of a link, after a frame of the exchange. Returns the change of the link, if there is one. Then
    /// the response to its event is [`Response::Sent`].
    pub fn turn<R: Threads + Sync>(&mut self, rt: &R, settings: &Settings) -> Option<Change>
        requires at { IsSomewhere C.carries C.next C.sizes settings.now self.old }
        requires room { self.old.exchange.control.map.next < 4294967295 }
        ensures step { Steps C.carries C.next C.sizes settings.now Turns self.old self.new }
        ensures reply { RepliesTo C.carries C.next C.sizes settings.now Turns self.old Sent self.new }
        ensures change { result
            ≡ table.changed_at settings.now.link_timers.now self.old.exchange.control.map.next self.old.links }
        ensures few { MovesAtMost self.old.exchange.control.map.bound (reply_of Sent self.new.exchange.context.out) }
        ensures bound { self.new.exchange.control.map.bound ≡ self.old.exchange.control.map.bound }
        ensures octets { self.new.exchange.octets ≡ self.old.exchange.octets }
    {
        let at = self.exchange.control.map.next_frame();
        let line = (at % LINES) as u8;
        let change = self.links.turn(settings.link_timers, at);
        process_change(&mut self.exchange, rt, settings, line, change);
        let end = self.exchange.control.map.next_frame();
        end_step(
            &mut self.links,
            Response::Sent,
            &self.exchange.context.out,
            end,
        );
        change
    }
}

// Ends a step: submits the messages of its event, by its response and its outbox, to their lines.
fn end_step(links: &mut LinkTable, response: Response, out: &Outbox, at: u32)
    requires { links.old.messages ≡ 0 }
    ensures { links.new ≡ links_ended at (sends_of (reply_of response out.now)) links.old }
{
    submit_all(links, sends_in(response, out), at);
    links.finish(at);
}

// Returns the messages of an event, by its response and its outbox.
fn sends_in(response: Response, out: &Outbox) -> &[Signal]
    ensures sends { result.now ≡ sends_of (reply_of response out.now) }
    ensures few { length result.now ≤ 64 }
{
    match response {
        Response::Sent => out.sends.as_slice(),
        Response::Frame(_) => out.sends.as_slice(),
        Response::Granted(_, _) => &[],
        Response::Busy => &[],
        Response::Seated(_, _) => &[],
        Response::NoPort => &[],
        Response::Freed => &[],
        Response::NotNailed => &[],
    }
}

// Submits messages to the links of their lines.
fn submit_all(links: &mut LinkTable, signals: &[Signal], at: u32)
    requires room { links.old.messages + length signals.now ≤ 64 }
    ensures { links.new ≡ submitted_all at signals.now links.old }
{
    for signal in signals {
        submit_one(links, signal, at);
    }
}

// Submits a message to its line.
#[tactic(auto, unfolding(crate::specs::Steps::submitted_all))]
fn submit_one(links: &mut LinkTable, signal: &Signal, at: u32)
    requires { links.old.messages < 64 }
    ensures submitted { links.new ≡ submitted_all at (signal.now ∷ []) links.old }
    ensures count { links.new.messages ≡ links.old.messages + 1 }
{
    links.submit(signal.line, signal.octets.as_slice(), at);
}
