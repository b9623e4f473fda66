//! The events of an exchange that its data links cause.
ghost use Rattle.std.specs.Prelude.{◌≡◌, ◌+◌, ◌<◌, ◌≤◌, ◌∷◌, [], All, length};
ghost use Rattle.call_profile.specs.Step.{MovesAtMost};
ghost use Rattle.exchange_events.specs.declared.outbox.Response.TheVariants.{Sent};
ghost use Rattle.exchange_events.specs.Responses.{reply_of};
ghost use Rattle.exchange_events.specs.Sound.{Fits};
ghost use Rattle.link_table.specs.declared.notice.Notice.TheVariants.{Link};
ghost use Rattle.lone_exchange.specs.At.{IsSomewhere};
ghost use Rattle.linked_exchange.specs.At.{PassesAll, RepliesFirst};
ghost use Rattle.linked_exchange.specs.Runs.{links_down};
ghost use Rattle.linked_exchange.specs.Steps.{changed_events, event_of, indicated, indication_of, noticed_events};

use crate::settings::Settings;
use control_memory::PathMap;
use exchange_events::Event;
use frame_engine::Carrier;
use link_procedures::Indication;
use link_table::{Change, NoLinkError, Notice};
use lone_exchange::LoneExchange;
use std::thread::Threads;

/// Processes the event of a received frame, if there is one. The outbox of an exchange without an event is empty.
/// Returns the indication to call control.
pub(crate) fn process_notice<P: PathMap, C: Carrier, R: Threads + Sync>(
    exchange: &mut LoneExchange<P, C>,
    rt: &R,
    settings: &Settings,
    line: u8,
    received: Result<Option<Notice>, NoLinkError>,
) -> Result<Option<Indication>, NoLinkError>
    requires at { IsSomewhere C.carries C.next C.sizes settings.now.plan.now settings.now.tones.now settings.now.timers.now exchange.old }
    requires fits { All (Fits exchange.old.control.map.external) (noticed_events line received) }
    requires room { exchange.old.control.map.next < 4294967295 }
    ensures world { PassesAll C.carries C.next C.sizes settings.now (noticed_events line received.entry) exchange.old exchange.new }
    ensures reply { RepliesFirst C.carries C.next C.sizes settings.now (noticed_events line received.entry) exchange.old exchange.new }
    ensures few { MovesAtMost exchange.old.control.map.bound (reply_of Sent exchange.new.context.out) }
    ensures bound { exchange.new.control.map.bound ≡ exchange.old.control.map.bound }
    ensures indication { result ≡ indicated received.entry }
{
    match received {
        Ok(Some(notice)) => Ok(Some(process_one(exchange, rt, settings, line, &notice))),
        Ok(None) => {
            exchange.context.out.clear();
            Ok(None)
        }
        Err(error) => {
            exchange.context.out.clear();
            Err(error)
        }
    }
}

/// Processes the event of the turn of a link, if there is one. The outbox of an exchange without an event is empty.
pub(crate) fn process_change<P: PathMap, C: Carrier, R: Threads + Sync>(
    exchange: &mut LoneExchange<P, C>,
    rt: &R,
    settings: &Settings,
    line: u8,
    change: Option<Change>,
)
    requires at { IsSomewhere C.carries C.next C.sizes settings.now.plan.now settings.now.tones.now settings.now.timers.now exchange.old }
    requires fits { All (Fits exchange.old.control.map.external) (changed_events line change) }
    requires room { exchange.old.control.map.next < 4294967295 }
    ensures world { PassesAll C.carries C.next C.sizes settings.now (changed_events line change) exchange.old exchange.new }
    ensures reply { RepliesFirst C.carries C.next C.sizes settings.now (changed_events line change) exchange.old exchange.new }
    ensures few { MovesAtMost exchange.old.control.map.bound (reply_of Sent exchange.new.context.out) }
    ensures bound { exchange.new.control.map.bound ≡ exchange.old.control.map.bound }
    ensures octets { exchange.new.octets ≡ exchange.old.octets }
{
    match change {
        Some(change) => change_link(exchange, rt, settings, line, change),
        None => exchange.context.out.clear(),
    }
}

// Processes the event of a notice on a line. Returns its indication.
fn process_one<P: PathMap, C: Carrier, R: Threads + Sync>(
    exchange: &mut LoneExchange<P, C>,
    rt: &R,
    settings: &Settings,
    line: u8,
    notice: &Notice,
) -> Indication
    requires at { IsSomewhere C.carries C.next C.sizes settings.now.plan.now settings.now.tones.now settings.now.timers.now exchange.old }
    requires fits { Fits exchange.old.control.map.external (event_of line notice.now) }
    requires room { exchange.old.control.map.next < 4294967295 }
    ensures world { PassesAll C.carries C.next C.sizes settings.now (event_of line notice.now ∷ []) exchange.old exchange.new }
    ensures reply { RepliesFirst C.carries C.next C.sizes settings.now (event_of line notice.now ∷ []) exchange.old exchange.new }
    ensures few { MovesAtMost exchange.old.control.map.bound (reply_of Sent exchange.new.context.out) }
    ensures bound { exchange.new.control.map.bound ≡ exchange.old.control.map.bound }
    ensures indication { result ≡ indication_of notice.now }
{
    match notice {
        Notice::Message(information) => {
            let octets = information.octets();
            exchange.receive(settings.plan, settings.tones, line, octets);
            Indication::Data
        }
        Notice::Link(change) => {
            change_link(exchange, rt, settings, line, *change);
            indication_of(*change)
        }
    }
}

// Returns the indication of a change of a link.
fn indication_of(change: Change) -> Indication
    ensures { result ≡ indication_of (Link change) }
{
    match change {
        Change::Up => Indication::Established,
        Change::Down => Indication::Released,
    }
}

// Processes the event of a change of the link of a line.
fn change_link<P: PathMap, C: Carrier, R: Threads + Sync>(
    exchange: &mut LoneExchange<P, C>,
    rt: &R,
    settings: &Settings,
    line: u8,
    change: Change,
)
    requires at { IsSomewhere C.carries C.next C.sizes settings.now.plan.now settings.now.tones.now settings.now.timers.now exchange.old }
    requires line { line < exchange.old.control.map.external }
    requires room { exchange.old.control.map.next < 4294967295 }
    ensures world { PassesAll C.carries C.next C.sizes settings.now (event_of line (Link change) ∷ []) exchange.old exchange.new }
    ensures reply { RepliesFirst C.carries C.next C.sizes settings.now (event_of line (Link change) ∷ []) exchange.old exchange.new }
    ensures few { MovesAtMost exchange.old.control.map.bound (reply_of Sent exchange.new.context.out) }
    ensures bound { exchange.new.control.map.bound ≡ exchange.old.control.map.bound }
    ensures octets { exchange.new.octets ≡ exchange.old.octets }
{
    let event = event_of(line, change);
    let plan = settings.plan;
    exchange.happen(rt, plan, settings.tones, settings.timers, &event);
}

// Returns the event of a change of the link of a line.
fn event_of(line: u8, change: Change) -> Event
    ensures { result ≡ event_of line (Link change) }
{
    match change {
        Change::Up => Event::LinkUp(line),
        Change::Down => Event::LinkDown(line),
    }
}

/// Processes the events of an exchange whose lines begin with these links: the data link of each is down.
pub(crate) fn put_down<P: PathMap, C: Carrier, R: Threads + Sync>(
    exchange: &mut LoneExchange<P, C>,
    rt: &R,
    settings: &Settings,
    linked: &[bool],
)
    requires at { IsSomewhere C.carries C.next C.sizes settings.now.plan.now settings.now.tones.now settings.now.timers.now exchange.old }
    requires lines { length linked.now ≤ exchange.old.control.map.external }
    requires room { exchange.old.control.map.next < 4294967295 }
    ensures world { PassesAll C.carries C.next C.sizes settings.now (links_down 0 linked.now) exchange.old exchange.new }
    ensures bound { exchange.new.control.map.bound ≡ exchange.old.control.map.bound }
{
    for line in 0..linked.len() {
        if !linked[line] {
            continue;
        }
        change_link(exchange, rt, settings, line as u8, Change::Down);
    }
}
