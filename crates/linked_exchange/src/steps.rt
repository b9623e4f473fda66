//! One step of an exchange with data links, with its part of the report.
ghost use Rattle.std.specs.Prelude.{◌≡◌, ◌++◌, ◌<◌, ◌≤◌, All, length, take, IfOk, OnOk};
ghost use Rattle.exchange_events.specs.declared.outbox.Response.TheVariants.{Sent};
ghost use Rattle.exchange_events.specs.Responses.{reply_of};
ghost use Rattle.exchange_events.specs.Sound.{Fits};
ghost use Rattle.link_table.specs.Steps.{noticed_on};
ghost use Rattle.linked_exchange.specs.At.{IsSomewhere, PlaysAt, RepliesTo, Steps};
ghost use Rattle.linked_exchange.specs.Runs.{FitsLinked};
ghost use Rattle.linked_exchange.specs.Steps.{Happens, Receives, Turns, indicated};
ghost use Rattle.linked_exchange.specs.LinkedLines.{MovesFew, PlaysOn, RepliesIfOk, Writes, WritesTurn, input_of, reply_line};

use crate::{LinkedExchange, Settings};
use control_memory::PathMap;
use exchange_events::{Event, Octets, Response};
use frame_engine::Carrier;
use link_table::LINES;
use linked_text::{
    append_link_line, append_message_line, put_frame_end, put_frame_start, put_turn,
};
use report_text::append_line;
use std::alloc::AllocError;
use std::thread::Threads;

/// An event of a trace with data links.
#[derive(Clone, Copy)]
pub enum LinkedEvent<'a> {
    /// An event of a trace without data links.
    Event(&'a Event),
    /// This line receives a frame with these octets on its data link.
    Received(u8, &'a Octets),
}

// Processes an event of a trace without data links, and appends its report line with this number, or the start of the
// line of a frame of the exchange. Returns the response.
fn put_event<P: PathMap, C: Carrier, R: Threads + Sync>(
    rt: &R,
    exchange: &mut LinkedExchange<P, C>,
    settings: &Settings,
    number: u32,
    event: &Event,
    out: &mut Vec<u8>,
) -> Result<Response, AllocError>
    requires at { IsSomewhere C.carries C.next C.sizes settings.now exchange.old }
    requires fits { Fits exchange.old.exchange.control.map.external event.now }
    requires room { exchange.old.exchange.control.map.next < 4294967295 }
    ensures step { Steps C.carries C.next C.sizes settings.now (Happens event.now) exchange.old exchange.new }
    ensures reply { RepliesIfOk C.carries C.next C.sizes settings.now (Happens event.now) exchange.old result exchange.new }
    ensures played { PlaysAt C.carries C.next C.sizes C.plays settings.now event.now exchange.old exchange.new }
    ensures few { IfOk result (λ response. MovesFew response exchange.old exchange.new) }
    ensures bound { exchange.new.exchange.control.map.bound ≡ exchange.old.exchange.control.map.bound }
    ensures line { OnOk result
        (Writes C.carries C.next C.sizes settings.now (Happens event.now) number exchange.old out.old.items out.new.items) }
    ensures front { take (length out.old.items) out.new.items ≡ out.old.items }
{
    let response = exchange.happen(rt, settings, event);
    put_reply(exchange, number, response, out)?;
    Ok(response)
}

// Appends the report line of the last event, or the start of the line of a frame of the exchange.
fn put_reply<P: PathMap, C: Carrier>(
    exchange: &LinkedExchange<P, C>,
    number: u32,
    response: Response,
    out: &mut Vec<u8>,
) -> Result<(), AllocError>
    ensures line { OnOk result (out.new.items
        ≡ out.old.items ++ reply_line number exchange.now.links (reply_of response exchange.now.exchange.context.out)) }
    ensures front { take (length out.old.items) out.new.items ≡ out.old.items }
{
    let outbox = &exchange.exchange.context.out;
    let lines = exchange.links.lines();
    let sent = exchange.links.frames();
    match response {
        Response::Frame(frame) => put_frame_start(out, number, frame, lines, sent),
        Response::Sent => append_message_line(out, number, outbox.moved, lines, sent),
        Response::Granted(_, _) => append_line(out, number, response, outbox, &[]),
        Response::Busy => append_line(out, number, response, outbox, &[]),
        Response::Seated(_, _) => append_line(out, number, response, outbox, &[]),
        Response::NoPort => append_line(out, number, response, outbox, &[]),
        Response::Freed => append_line(out, number, response, outbox, &[]),
        Response::NotNailed => append_line(out, number, response, outbox, &[]),
    }
}

// Processes the octets of a frame that a line receives on its data link, and appends the report line with this number.
fn put_received<P: PathMap, C: Carrier, R: Threads + Sync>(
    rt: &R,
    exchange: &mut LinkedExchange<P, C>,
    settings: &Settings,
    number: u32,
    line: u8,
    octets: &[u8],
    out: &mut Vec<u8>,
) -> Result<(), AllocError>
    requires at { IsSomewhere C.carries C.next C.sizes settings.now exchange.old }
    requires octets { All (λ octet. octet < 256) octets.now }
    requires room { exchange.old.exchange.control.map.next < 4294967295 }
    ensures step { Steps C.carries C.next C.sizes settings.now (Receives line octets.now) exchange.old exchange.new }
    ensures reply { RepliesTo C.carries C.next C.sizes settings.now (Receives line octets.now) exchange.old Sent exchange.new }
    ensures few { MovesFew Sent exchange.old exchange.new }
    ensures bound { exchange.new.exchange.control.map.bound ≡ exchange.old.exchange.control.map.bound }
    ensures line { OnOk result (Writes C.carries C.next C.sizes settings.now (Receives line octets.now) number exchange.old
        out.old.items out.new.items) }
    ensures front { take (length out.old.items) out.new.items ≡ out.old.items }
{
    // A line without a link has no indication.
    let indication = exchange.receive(rt, settings, line, octets).unwrap_or(None);
    append_link_line(
        out,
        number,
        indication,
        exchange.exchange.context.out.moved,
        exchange.links.lines(),
        exchange.links.frames(),
    )
}

/// Processes an event, and appends its report line with this number, or the start of the line of a frame of the
/// exchange. Returns the response to the event, which is [`Response::Sent`] for a received frame.
///
/// # Errors
///
/// [`AllocError`] if an allocation fails. The event is processed then, and `out` may have a prefix of the text.
pub fn put_step<P: PathMap, C: Carrier, R: Threads + Sync>(
    rt: &R,
    exchange: &mut LinkedExchange<P, C>,
    settings: &Settings,
    number: u32,
    event: &LinkedEvent,
    out: &mut Vec<u8>,
) -> Result<Response, AllocError>
    requires at { IsSomewhere C.carries C.next C.sizes settings.now exchange.old }
    requires fits { FitsLinked exchange.old.exchange.control.map.external (input_of event.now) }
    requires room { exchange.old.exchange.control.map.next < 4294967295 }
    ensures step { Steps C.carries C.next C.sizes settings.now (input_of event.now) exchange.old exchange.new }
    ensures reply { RepliesIfOk C.carries C.next C.sizes settings.now (input_of event.now) exchange.old result exchange.new }
    ensures played { PlaysOn C.carries C.next C.sizes C.plays settings.now (input_of event.now) exchange.old exchange.new }
    ensures few { IfOk result (λ response. MovesFew response exchange.old exchange.new) }
    ensures bound { exchange.new.exchange.control.map.bound ≡ exchange.old.exchange.control.map.bound }
    ensures line { OnOk result
        (Writes C.carries C.next C.sizes settings.now (input_of event.now) number exchange.old out.old.items out.new.items) }
    ensures front { take (length out.old.items) out.new.items ≡ out.old.items }
{
    match event {
        LinkedEvent::Event(event) => put_event(rt, exchange, settings, number, event, out),
        LinkedEvent::Received(line, octets) => {
            put_received(
                rt,
                exchange,
                settings,
                number,
                *line,
                octets.as_slice(),
                out,
            )?;
            Ok(Response::Sent)
        }
    }
}

/// Processes the turn of a link after a frame of the exchange, and appends the rest of the report line of the frame. Its
/// octets are the octets of the exchange after the turn (`rest`).
///
/// # Errors
///
/// [`AllocError`] if an allocation fails. The turn is taken then, and `out` may have a prefix of the text.
pub fn put_turn_step<P: PathMap, C: Carrier, R: Threads + Sync>(
    rt: &R,
    exchange: &mut LinkedExchange<P, C>,
    settings: &Settings,
    out: &mut Vec<u8>,
) -> Result<(), AllocError>
    requires at { IsSomewhere C.carries C.next C.sizes settings.now exchange.old }
    requires room { exchange.old.exchange.control.map.next < 4294967295 }
    ensures step { Steps C.carries C.next C.sizes settings.now Turns exchange.old exchange.new }
    ensures reply { RepliesTo C.carries C.next C.sizes settings.now Turns exchange.old Sent exchange.new }
    ensures few { MovesFew Sent exchange.old exchange.new }
    ensures bound { exchange.new.exchange.control.map.bound ≡ exchange.old.exchange.control.map.bound }
    ensures octets { exchange.new.exchange.octets ≡ exchange.old.exchange.octets }
    ensures rest { OnOk result
        (WritesTurn C.carries C.next C.sizes settings.now exchange.old exchange.new out.old.items out.new.items) }
    ensures front { take (length out.old.items) out.new.items ≡ out.old.items }
{
    let line = (exchange.exchange.control.map.next_frame() % LINES) as u8;
    let change = exchange.turn(rt, settings);
    put_turn(
        out,
        line,
        change,
        exchange.links.lines(),
        exchange.links.frames(),
    )?;
    put_frame_end(out, exchange.exchange.octets.as_slice())
}
