//! Parses messages. The result depends only on the octets and the number plan, before the turn or in it.
ghost use Rattle.std.specs.Prelude.{◌≡◌, ◌≤◌, false, List, IfSome, MatchOption, is_some, length};
ghost use Rattle.q931_codec.specs.Contents.{dialled_digits};
ghost use Rattle.call_profile.specs.Calls.{asks_for_call};
ghost use Rattle.call_profile.specs.Setup.{target_dialled};
ghost use Rattle.number_plan.specs.declared.plan.Number.{Number};
ghost use Rattle.call_control.specs.Ahead.{HasDialled, IsDialled, IsReadAhead, IsReceived, is_message, message_ahead};

use number_plan::{Found, Plan};
use q931_codec::{Message, MessageKind, dialled_digits, read};
use q931_elements::Elements;

/// The number that a SETUP dials. It is looked up once, because several checks need it.
#[derive(Clone, Copy, Debug)]
pub struct DialledNumber {
    /// Whether all of it are digits.
    pub is_readable: bool,
    /// The entry of the plan for its digits.
    pub target: Found,
}

/// A message that was parsed before its turn. Its elements stay in its octets.
#[derive(Clone, Copy, Debug)]
pub struct PreparsedMessage {
    /// The call reference flag.
    pub flag: bool,
    /// The call reference value.
    pub reference: u16,
    /// The message type.
    pub kind: MessageKind,
    /// The number that it dials, if it can request a call.
    pub number: Option<DialledNumber>,
}

/// A message as the user of a line has sent it: its octets, and the result of parsing them before the turn.
#[derive(Clone, Copy, Debug)]
pub struct Received<'a> {
    /// The octets.
    pub octets: &'a [u8],
    /// The result of parsing them ahead; `None` if they were not parsed.
    pub ahead: Option<PreparsedMessage>,
}

/// Parses a message ahead, and looks up its number if it can request a call. Returns `None` if the octets are not a
/// message.
pub fn preparse(plan: &Plan, octets: &[u8]) -> Option<PreparsedMessage>
    ensures read { IfSome result (IsReadAhead plan.now octets.now) }
    ensures exact { is_some result ≡ is_message octets.now }
{
    let Ok(message) = read(octets) else {
        return None;
    };
    let number = if asks_for_call(&message) {
        Some(look_up(plan, message.called_number()))
    } else {
        None
    };
    Some(PreparsedMessage {
        flag: message.flag,
        reference: message.reference,
        kind: message.kind,
        number,
    })
}

/// Returns the received message, or `None` if its octets are not a message. Uses the result of parsing ahead if there
/// is one.
#[inline(always)]
pub(crate) fn read_received<'a>(received: &Received<'a>) -> Option<Message<'a>>
    requires ahead { (plan : List Number) × IfSome received.now.ahead (IsReadAhead plan received.now.octets.now) }
    ensures { MatchOption result (is_message received.now.octets.now ≡ false) (IsReceived received.now.octets.now) }
{
    let octets = received.octets;
    if let Some(known) = &received.ahead {
        return Some(message_of(known, octets));
    }
    match read(octets) {
        Ok(message) => Some(message),
        Err(_) => None,
    }
}

// Returns the message that was parsed ahead.
fn message_of<'a>(known: &PreparsedMessage, octets: &'a [u8]) -> Message<'a>
    requires { 5 ≤ length octets.now }
    ensures { result ≡ message_ahead known.now octets.now }
{
    Message {
        flag: known.flag,
        reference: known.reference,
        kind: known.kind,
        elements: Elements::new(&octets[5..]),
    }
}

/// Returns the number that a SETUP dials. It is looked up only if that was not done ahead.
pub(crate) fn number_of(
    plan: &Plan,
    message: &Message,
    ahead: &Option<PreparsedMessage>,
) -> DialledNumber
    requires ahead { IfSome ahead.now (HasDialled plan.now message.now) }
    ensures { IsDialled plan.now message.now result }
{
    match ahead {
        Some(
            PreparsedMessage {
                number: Some(number),
                ..
            },
        ) => *number,
        _ => look_up(plan, message.called_number()),
    }
}

/// Returns whether the message is a SETUP from the side that chose the call reference.
pub(crate) fn asks_for_call(message: &Message) -> bool
    ensures { result ≡ asks_for_call message.now }
{
    message.kind == MessageKind::Setup && !message.flag
}

/// Looks up the digits of a called party number with these contents.
pub(crate) fn look_up(plan: &Plan, called: &[u8]) -> DialledNumber
    requires { length called.now ≤ 21 }
    ensures readable { result.is_readable ≡ is_some (dialled_digits called.now) }
    ensures target { result.target ≡ target_dialled plan.now called.now }
{
    match dialled_digits(called) {
        Some(digits) => DialledNumber {
            is_readable: true,
            target: plan.look(&digits),
        },
        None => DialledNumber {
            is_readable: false,
            target: plan.look(&[]),
        },
    }
}
