//! The encoding of an outgoing message.

ghost use Rattle.std.specs.Prelude.{◌≡◌, ◌+◌, ◌^◌, ◌<◌, ◌≤◌, IsTrue, List, [], ◌++◌, length, IfSome};
ghost use Rattle.q931_elements.specs.Grammar.{octets_of_all};
ghost use Rattle.q931_elements.specs.Limits.{max_message_len};
ghost use Rattle.q931_codec.specs.Identifiers as identifier;
ghost use Rattle.q931_codec.specs.Contents.{is_bearer_channel};
ghost use Rattle.q931_codec.specs.Grammar.{IsMessage, header};
ghost use Rattle.q931_codec.specs.Outgoing.{outgoing_of, IsWritable, encoding, message_at_receiver, item_of_complete, item_of_row, cause_contents, one_octet, channel_contents, progress_contents};

use crate::codes::{
    BEARER_CAPABILITY, CALL_STATE, CALLED_PARTY_NUMBER, CALLING_PARTY_NUMBER, CAUSE,
    CHANNEL_IDENTIFICATION, HIGH_LAYER_COMPATIBILITY, LOW_LAYER_COMPATIBILITY, PROGRESS_INDICATOR,
    PROTOCOL_DISCRIMINATOR, REFERENCE_LENGTH, RESTART_INDICATOR, SENDING_COMPLETE,
};
use crate::outgoing::Outgoing;
use arrayvec::ArrayVec;
use q931_elements::{MAX_MESSAGE_LEN, Writer};

// Octet 3 of a cause and of a progress indicator (Q.931, 4.5.12 and 4.5.23): ITU-T coding, and the
// location "public network serving the local user".
const LOCATION: u8 = 0x82;

/// Encodes a message: the header, Sending complete, and the variable length elements in ascending order
/// of their identifiers (Q.931, 4.5.1). It has at most 107 octets.
///
/// Each field is within the bounds that [`Outgoing`] gives for it.
pub fn write(message: &Outgoing) -> ArrayVec<u8, MAX_MESSAGE_LEN>
    requires { IsWritable (outgoing_of message.now) }
    ensures encoded { result.items ≡ encoding (outgoing_of message.now) }
    ensures read_back { IsMessage result.items (message_at_receiver (outgoing_of message.now)) }
    ensures fits { length result.items ≤ 107 }
{
    let mut writer = Writer::new();
    header(&mut writer, message);
    complete(&mut writer, message.complete);
    element(&mut writer, BEARER_CAPABILITY, message.bearer);
    cause(&mut writer, message.cause);
    octet(&mut writer, CALL_STATE, message.state);
    channel(&mut writer, message.channel);
    progress(&mut writer, message.progress);
    element(&mut writer, CALLING_PARTY_NUMBER, message.calling);
    element(&mut writer, CALLED_PARTY_NUMBER, message.called);
    octet(&mut writer, RESTART_INDICATOR, message.restart);
    element(&mut writer, LOW_LAYER_COMPATIBILITY, message.low);
    element(&mut writer, HIGH_LAYER_COMPATIBILITY, message.high);
    writer.finish()
}

fn header(writer: &mut Writer, message: &Outgoing)
    requires start { length writer.old ≡ 0 }
    requires reference { message.now.reference < 2 ^ 15 }
    ensures octets { writer.new ≡ header message.now.flag message.now.reference message.now.kind }
    ensures room { length writer.new ≡ 5 }
{
    let flag: u8 = if message.flag { 0x80 } else { 0 };
    writer.single(PROTOCOL_DISCRIMINATOR);
    writer.single(REFERENCE_LENGTH);
    writer.single(flag + (message.reference / 0x100) as u8);
    writer.single((message.reference % 0x100) as u8);
    writer.single(u8::from(message.kind));
}

fn complete(writer: &mut Writer, complete: bool)
    requires { length writer.old + 1 ≤ max_message_len }
    ensures octets { writer.new ≡ writer.old ++ octets_of_all (item_of_complete complete) }
    ensures room { length writer.new ≤ length writer.old + 1 }
{
    if complete {
        writer.single(SENDING_COMPLETE);
    }
}

// Writes the element with these contents, if there are any.
fn element(writer: &mut Writer, code: u8, contents: &[u8])
    requires { length writer.old + 2 + length contents.now ≤ max_message_len }
    ensures octets { writer.new ≡ writer.old ++ octets_of_all (item_of_row (code, contents.now)) }
    ensures room { length writer.new ≤ length writer.old + 2 + length contents.now }
{
    if !contents.is_empty() {
        writer.element(code, contents);
    }
}

// Writes the element of one octet, if there is one.
fn octet(writer: &mut Writer, code: u8, octet: Option<u8>)
    requires { length writer.old + 3 ≤ max_message_len }
    ensures octets { writer.new ≡ writer.old ++ octets_of_all (item_of_row (code, one_octet octet)) }
    ensures room { length writer.new ≤ length writer.old + 3 }
{
    if let Some(octet) = octet {
        writer.element(code, &[octet]);
    }
}

fn cause(writer: &mut Writer, value: Option<u8>)
    requires room { length writer.old + 4 ≤ max_message_len }
    requires value { IfSome value (λ v. v < 128) }
    ensures octets { writer.new ≡ writer.old ++ octets_of_all (item_of_row (identifier.cause, cause_contents value)) }
    ensures room { length writer.new ≤ length writer.old + 4 }
{
    if let Some(value) = value {
        writer.element(CAUSE, &[LOCATION, 0x80 + value]);
    }
}

// Writes the channel. Octet 3 has a primary rate interface and this channel only, and octet 3.2 states that the number
// of a B-channel follows.
fn channel(writer: &mut Writer, channel: Option<u8>)
    requires room { length writer.old + 5 ≤ max_message_len }
    requires channel { IfSome channel (λ c. IsTrue (is_bearer_channel c)) }
    ensures octets { writer.new ≡ writer.old ++ octets_of_all (item_of_row (identifier.channel_identification, channel_contents channel)) }
    ensures room { length writer.new ≤ length writer.old + 5 }
{
    if let Some(channel) = channel {
        writer.element(CHANNEL_IDENTIFICATION, &[0xA9, 0x83, 0x80 + channel]);
    }
}

// Writes progress description 8: in-band information or an appropriate pattern is now available.
fn progress(writer: &mut Writer, progress: bool)
    requires { length writer.old + 4 ≤ max_message_len }
    ensures octets { writer.new ≡ writer.old ++ octets_of_all (item_of_row (identifier.progress_indicator, progress_contents progress)) }
    ensures room { length writer.new ≤ length writer.old + 4 }
{
    if progress {
        writer.element(PROGRESS_INDICATOR, &[LOCATION, 0x88]);
    }
}
