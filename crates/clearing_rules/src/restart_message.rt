//! The restart that a RESTART requests, and its acknowledgement.

ghost use Rattle.std.specs.Prelude.{◌≡◌, IfSome};
ghost use Rattle.q931_codec.specs.Outgoing.{outgoing_of};
ghost use Rattle.clearing_rules.specs.Restarting.{acknowledgement, indicated, restart_acknowledged, restart_asked, restart_of, restart_within, IsOnLine};

use crate::scope::Restart;
use circuit_model::{channel_of, slot_of_channel};
use q931_codec::restart_classes::{ALL_INTERFACES, INDICATED_CHANNELS, SINGLE_INTERFACE};
use q931_codec::{ChannelIdentification, Message, MessageKind, Outgoing};

/// The call reference value that means all calls of an interface (Q.931, 4.3).
pub const GLOBAL_CALL_REFERENCE: u16 = 0;

/// Returns the restart that a message requests (Q.931, 5.5). `None` for every message that is not a RESTART on the
/// global call reference with flag 0, and for a RESTART
///
/// - without a restart indicator, or with one other than 80, 86 and 87;
/// - with indicator 80 (indicated channels), and no channel identification with one channel, exclusive or preferred.
///   "Any channel" is not one channel.
///
/// With 86 and 87 the channel identification is not read. Every message without a restart here is ignored on the global
/// call reference.
pub fn restart(message: &Message) -> Option<Restart>
    ensures asked { result ≡ restart_asked message.now }
    ensures place { IfSome result IsOnLine }
{
    if !begins_restart(message) {
        return None;
    }
    restart_within(message)
}

/// Returns the restart of the exchange that a message acknowledges (Q.931, 5.5.1). `None` for every message that is not a
/// RESTART ACKNOWLEDGE on the global call reference with flag 1, and for one whose restart indicator or channel a RESTART
/// may not have either ([`restart`]).
pub fn acknowledged_restart(message: &Message) -> Option<Restart>
    ensures acknowledged { result ≡ restart_acknowledged message.now }
    ensures place { IfSome result IsOnLine }
{
    if !acknowledges_restart(message) {
        return None;
    }
    restart_within(message)
}

/// Returns the RESTART (Q.931, 3.4.1) of the exchange for a restart: on the global call reference with flag 0.
///
/// The place of a channel is below 30.
pub fn restart_request(asked: Restart) -> Outgoing<'static>
    requires { IsOnLine asked }
    ensures { outgoing_of result ≡ restart_of asked }
{
    let (channel, class) = indicated(asked);
    Outgoing {
        channel,
        restart: Some(class),
        ..Outgoing::new(false, GLOBAL_CALL_REFERENCE, MessageKind::Restart)
    }
}

/// Returns the RESTART ACKNOWLEDGE (Q.931, 3.4.2) for a restart: on the global call reference with flag 1, with the
/// received restart indicator, and the channel if one channel was restarted.
///
/// The place of that channel is below 30, as in each result of [`restart`].
pub fn restart_acknowledge(restarted: Restart) -> Outgoing<'static>
    requires { IsOnLine restarted }
    ensures { outgoing_of result ≡ acknowledgement restarted }
{
    let (channel, class) = indicated(restarted);
    Outgoing {
        channel,
        restart: Some(class),
        ..Outgoing::new(true, GLOBAL_CALL_REFERENCE, MessageKind::RestartAcknowledge)
    }
}

// Returns the channel of a restart, if it is of one, and its restart indicator.
fn indicated(restart: Restart) -> (Option<u8>, u8)
    requires { IsOnLine restart }
    ensures { result ≡ indicated restart }
{
    match restart {
        Restart::Channel(place) => (Some(channel_of(place)), INDICATED_CHANNELS),
        Restart::Interface(class) => (None, class),
    }
}

ghost use Rattle.std.specs.Prelude.{◌<◌};
ghost use Rattle.clearing_rules.specs.Restarting.{acknowledges_restart, begins_restart, place_named};

// Returns the restart that the elements of a RESTART or RESTART ACKNOWLEDGE contain.
fn restart_within(message: &Message) -> Option<Restart>
    ensures within { result ≡ restart_within message.now }
    ensures place { IfSome result IsOnLine }
{
    match message.restart_indicator()? {
        INDICATED_CHANNELS => Some(Restart::Channel(place_named(message)?)),
        class @ (SINGLE_INTERFACE | ALL_INTERFACES) => Some(Restart::Interface(class)),
        _ => None,
    }
}

// Returns whether the message is a RESTART ACKNOWLEDGE on the global call reference to the side that chose it.
fn acknowledges_restart(message: &Message) -> bool
    ensures { result ≡ acknowledges_restart message.now }
{
    message.kind == MessageKind::RestartAcknowledge
        && message.flag
        && message.reference == GLOBAL_CALL_REFERENCE
}

// Returns whether the message is a RESTART on the global call reference from the side that chose it. [`restart`] tests
// this, so its `None` covers all other messages on call reference 0.
fn begins_restart(message: &Message) -> bool
    ensures { result ≡ begins_restart message.now }
{
    message.kind == MessageKind::Restart
        && !message.flag
        && message.reference == GLOBAL_CALL_REFERENCE
}

// Returns the place of the channel in the message.
fn place_named(message: &Message) -> Option<u8>
    ensures named { result ≡ place_named message.now }
    ensures place { IfSome result (λ place. place < 30) }
{
    match message.channel()? {
        ChannelIdentification::Preferred(channel) | ChannelIdentification::Exclusive(channel) => {
            slot_of_channel(channel)
        }
        ChannelIdentification::Any | ChannelIdentification::Invalid => None,
    }
}
