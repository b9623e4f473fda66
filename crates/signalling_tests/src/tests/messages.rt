//! Messages read and written: octets as primary rate interfaces carry them, and octets from untrusted senders.
ghost use Rattle.q931_codec.specs.Outgoing.{IsWritable, outgoing_of};

use q931_codec::codes::*;
use q931_codec::{
    BearerCapability, ChannelIdentification, Discard, MessageKind, Outgoing, dialled_digits, read,
    write,
};
use std::alloc::Global;
use std::test::*;

// A message, and its parts.
struct Row {
    octets: &'static [u8],
    flag: bool,
    reference: u16,
    kind: MessageKind,
    elements: &'static [(u8, &'static [u8])],
}

// Messages as primary rate interfaces carry them, coded by Q.931's figures for each element.
const MESSAGES: [Row; 6] = [
    // Speech over A-law, only channel 1, from a national number to a subscriber number, telephony.
    Row {
        octets: b"\x08\x02\x00\x03\x05\xA1\x04\x03\x80\x90\xA3\x18\x03\xA9\x83\x81\x6C\x09\x21\x835551234\x70\x08\xC15559876\x7D\x02\x91\x81",
        flag: false,
        reference: 3,
        kind: MessageKind::Setup,
        elements: &[
            (SENDING_COMPLETE, b""),
            (BEARER_CAPABILITY, b"\x80\x90\xA3"),
            (CHANNEL_IDENTIFICATION, b"\xA9\x83\x81"),
            (CALLING_PARTY_NUMBER, b"\x21\x835551234"),
            (CALLED_PARTY_NUMBER, b"\xC15559876"),
            (HIGH_LAYER_COMPATIBILITY, b"\x91\x81"),
        ],
    },
    Row {
        octets: b"\x08\x02\x80\x03\x02\x18\x03\xA9\x83\x9F",
        flag: true,
        reference: 3,
        kind: MessageKind::CallProceeding,
        elements: &[(CHANNEL_IDENTIFICATION, b"\xA9\x83\x9F")],
    },
    // The greatest call reference value, and cause 96 with the identifier of the missing element.
    Row {
        octets: b"\x08\x02\xFF\xFF\x5A\x08\x03\x82\xE0\x18",
        flag: true,
        reference: 32_767,
        kind: MessageKind::ReleaseComplete,
        elements: &[(CAUSE, b"\x82\xE0\x18")],
    },
    Row {
        octets: b"\x08\x02\x00\x00\x46\x18\x03\xA9\x83\x81\x79\x01\x80",
        flag: false,
        reference: 0,
        kind: MessageKind::Restart,
        elements: &[
            (CHANNEL_IDENTIFICATION, b"\xA9\x83\x81"),
            (RESTART_INDICATOR, b"\x80"),
        ],
    },
    Row {
        octets: b"\x08\x02\x80\x01\x07",
        flag: true,
        reference: 1,
        kind: MessageKind::Connect,
        elements: &[],
    },
    // SUSPEND, which this exchange does not have.
    Row {
        octets: b"\x08\x02\x12\x34\x25\x10\x01\x00",
        flag: false,
        reference: 0x1234,
        kind: MessageKind::Unknown(0x25),
        elements: &[(0x10, b"\x00")],
    },
];

// Returns whether the row's octets are read as the row's parts.
fn is_read(row: &Row) -> bool {
    let Ok(message) = read(row.octets) else {
        return false;
    };
    let mut elements = message.elements;
    for (code, contents) in row.elements {
        match elements.next() {
            Some(element) if element.code == *code && element.contents == *contents => {}
            _ => return false,
        }
    }
    elements.next().is_none()
        && message.flag == row.flag
        && message.reference == row.reference
        && message.kind == row.kind
}

#[test]
fn reads_messages(rt: HostRuntime) {
    for row in &MESSAGES {
        assert!(rt; is_read(row), "{}", row.reference);
    }
}

fn is_discarded(octets: &[u8], wanted: Discard) -> bool {
    matches!(read(octets), Err(discard) if discard == wanted)
}

// Octets that are not a message, and the reason.
const DISCARDED: [(&[u8], Discard); 7] = [
    (b"\x08\x02\x80", Discard::Short),
    (b"\x08\x02\x00\x01", Discard::Short),
    (b"\x08\x01\x01\x05\x00", Discard::ReferenceLength),
    (b"\x08\x00\x05", Discard::ReferenceLength),
    (b"\x09\x02\x00\x01\x05", Discard::Discriminator),
    (b"\x41", Discard::Discriminator),
    (b"", Discard::Short),
];

#[test]
fn discards(rt: HostRuntime) {
    for (octets, wanted) in &DISCARDED {
        assert!(rt; is_discarded(octets, *wanted));
    }
    assert!(rt; are_discarded(Discard::Short, 1, 1));
    assert!(rt; are_discarded(Discard::Discriminator, 255, 65_280));
    assert!(rt; are_discarded(Discard::ReferenceLength, 0, 255));
}

// Returns whether this many messages of one octet are discarded for this reason, and this many of two octets.
fn are_discarded(wanted: Discard, of_one: usize, of_two: usize) -> bool {
    let ones = (0..256u16).filter(|n| is_discarded(&[(n % 256) as u8], wanted));
    let twos = (0..65_536u32).filter(|n| is_discarded(
        &((n % 65_536) as u16).to_be_bytes(),
        wanted,
    ));
    ones.count() == of_one && twos.count() == of_two
}

// Returns whether the reason of a discard has this number and this text.
fn is_named(alloc: Global, discard: Discard, number: u8, text: &str) -> Result<bool, Fail> {
    Ok(discard as u8 == number && format!(in alloc; "{discard}")?.as_str() == text)
}

#[test]
fn names_discards(rt: HostRuntime) -> Result<(), Fail> {
    for (discard, number, text) in [
        (Discard::Discriminator, 1, "another protocol discriminator"),
        (Discard::Short, 2, "the message is too short"),
        (
            Discard::ReferenceLength,
            3,
            "a call reference of another length",
        ),
    ] {
        assert!(rt; is_named(rt.alloc(), discard, number, text)?, "{text}");
    }
    Ok(())
}

// Returns the first cause of these elements, after a header.
fn cause_in(octets: &[u8]) -> Option<u8> {
    read(octets).ok()?.cause()
}

// Messages, and the cause of each.
const CAUSES: [(&[u8], Option<u8>); 7] = [
    // A location and a value, a diagnostic after it, and a recommendation before it.
    (b"\x08\x02\x00\x01\x45\x08\x02\x80\x90", Some(16)),
    (b"\x08\x02\x00\x01\x45\x08\x03\x82\xE0\x18", Some(96)),
    (b"\x08\x02\x00\x01\x45\x08\x03\x02\x80\x91", Some(17)),
    // No value in the first cause although the next one has one, and a cause of another codeset.
    (b"\x08\x02\x00\x01\x45", None),
    (b"\x08\x02\x00\x01\x45\x08\x02\x02\x80", None),
    (b"\x08\x02\x00\x01\x45\x08\x00\x08\x02\x80\x90", None),
    (
        b"\x08\x02\x00\x01\x45\x98\x08\x02\x80\x91\x08\x02\x80\x90",
        Some(16),
    ),
];

#[test]
fn reads_causes(rt: HostRuntime) {
    for (octets, wanted) in &CAUSES {
        assert!(rt; cause_in(octets) == *wanted);
    }
}

// Returns the contents of the one channel identification of a message.
fn channel_in(octets: &[u8]) -> Option<ChannelIdentification> {
    read(octets).ok()?.channel()
}

const CHANNELS: [(&[u8], Option<ChannelIdentification>); 7] = [
    (
        b"\x08\x02\x00\x01\x05\x18\x03\xA9\x83\x1F",
        Some(ChannelIdentification::Exclusive(31)),
    ),
    (
        b"\x08\x02\x00\x01\x05\x18\x03\xA1\x83\x8F",
        Some(ChannelIdentification::Preferred(15)),
    ),
    (
        b"\x08\x02\x00\x01\x05\x18\x02\xA3\x00",
        Some(ChannelIdentification::Any),
    ),
    (
        b"\x08\x02\x00\x01\x05\x18\x03\xA9\x83\x90",
        Some(ChannelIdentification::Invalid),
    ),
    (
        b"\x08\x02\x00\x01\x05\x18\x03\xA9\x93\x81",
        Some(ChannelIdentification::Invalid),
    ),
    (
        b"\x08\x02\x00\x01\x05\x18\x01\x89",
        Some(ChannelIdentification::Invalid),
    ),
    (b"\x08\x02\x00\x01\x05", None),
];

#[test]
fn reads_channels(rt: HostRuntime) {
    for (octets, wanted) in &CHANNELS {
        assert!(rt; channel_in(octets) == *wanted);
    }
}

// Returns whether a message is written as these octets.
fn is_written(message: &Outgoing, octets: &[u8]) -> bool
    requires { IsWritable (outgoing_of message.now) }
{
    write(message).as_slice() == octets
}

// Returns the call state and the restart indicator of a message.
fn state_and_class(octets: &[u8]) -> Option<(Option<u8>, Option<u8>)> {
    let message = read(octets).ok()?;
    Some((message.call_state(), message.restart_indicator()))
}

#[test]
fn writes(rt: HostRuntime) {
    let released = Outgoing {
        cause: Some(44),
        ..Outgoing::new(true, 1, MessageKind::ReleaseComplete)
    };
    assert!(rt; is_written(&released, b"\x08\x02\x80\x01\x5A\x08\x02\x82\xAC"));
    let status = Outgoing {
        cause: Some(30),
        state: Some(0),
        ..Outgoing::new(true, 1, MessageKind::Status)
    };
    assert!(rt; is_written(&status, STATUS));
    assert!(rt; state_and_class(STATUS) == Some((Some(0), None)));
    let setup = Outgoing {
        complete: true,
        bearer: b"\x80\x90\xA3",
        channel: Some(1),
        called: b"\x80101",
        ..Outgoing::new(false, 1, MessageKind::Setup)
    };
    assert!(rt;
        is_written(
            &setup,
            b"\x08\x02\x00\x01\x05\xA1\x04\x03\x80\x90\xA3\x18\x03\xA9\x83\x81\x70\x04\x80101",
        )
    );
}

// A STATUS with cause 30 and state 0.
const STATUS: &[u8] = b"\x08\x02\x80\x01\x7D\x08\x02\x82\x9E\x14\x01\x00";

// Every element at its longest, in rising order of its identifier after Sending complete.
const LONGEST: &[u8] = b"\x08\x02\xFF\xFF\x05\xA1\
    \x04\x0A\x01\x01\x01\x01\x01\x01\x01\x01\x01\x01\
    \x08\x02\x82\xFF\x14\x01\x3F\x18\x03\xA9\x83\x9F\x1E\x02\x82\x88\
    \x6C\x16\x02\x02\x02\x02\x02\x02\x02\x02\x02\x02\x02\x02\x02\x02\x02\x02\x02\x02\x02\x02\x02\x02\
    \x70\x15\x03\x03\x03\x03\x03\x03\x03\x03\x03\x03\x03\x03\x03\x03\x03\x03\x03\x03\x03\x03\x03\
    \x79\x01\x87\x7C\x10\x04\x04\x04\x04\x04\x04\x04\x04\x04\x04\x04\x04\x04\x04\x04\x04\
    \x7D\x03\x05\x05\x05";

#[test]
fn writes_the_longest(rt: HostRuntime) {
    let longest = Outgoing {
        flag: true,
        reference: 32_767,
        kind: MessageKind::Setup,
        complete: true,
        bearer: &[1; 10],
        cause: Some(127),
        state: Some(63),
        channel: Some(31),
        progress: true,
        calling: &[2; 22],
        called: &[3; 21],
        restart: Some(0x87),
        low: &[4; 16],
        high: &[5; 3],
    };
    assert!(rt; is_written(&longest, LONGEST));
    assert!(rt; LONGEST.len() == 107);
    assert!(rt; state_and_class(LONGEST) == Some((Some(63), Some(0x87))));
}

// The contents of bearer capabilities, and the result of each.
const BEARERS: [(&[u8], BearerCapability); 11] = [
    (b"\x80\x90\xA3", BearerCapability::Carried),
    (b"\x90\x90\xA3", BearerCapability::Carried),
    (b"\x88\x90", BearerCapability::Carried),
    (b"\x88\x90\0\0\0\0\0\0\0\0", BearerCapability::Carried),
    // Restricted digital information, video, 2 x 64 kbit/s, packet mode.
    (b"\x89\x90", BearerCapability::NotCarried),
    (b"\x98\x90", BearerCapability::NotCarried),
    (b"\x88\x91", BearerCapability::NotCarried),
    (b"\x88\xC0", BearerCapability::NotCarried),
    (b"", BearerCapability::Invalid),
    (b"\x80", BearerCapability::Invalid),
    (b"\x88\x90\0\0\0\0\0\0\0\0\0", BearerCapability::Invalid),
];

#[test]
fn reads_bearers(rt: HostRuntime) {
    for (contents, wanted) in &BEARERS {
        assert!(rt; BearerCapability::from_contents(contents) == *wanted);
    }
}

// Returns whether these contents of a called party number have these digits.
fn has_digits(contents: &[u8], wanted: Option<&[u8]>) -> bool {
    if contents.len() > 21 {
        return false;
    }
    match (dialled_digits(contents), wanted) {
        (Some(digits), Some(wanted)) => digits.as_slice() == wanted,
        (None, None) => true,
        _ => false,
    }
}

const DIGITS: [(&[u8], Option<&[u8]>); 7] = [
    (b"\x80101", Some(b"101")),
    (b"\xC1\xB1\x30\xB9", Some(b"109")),
    (b"\x80", Some(b"")),
    (b"", Some(b"")),
    (b"\x80*21", None),
    (b"\x801\x3A", None),
    (b"\x8001234567890123456789", Some(b"01234567890123456789")),
];

#[test]
fn reads_digits(rt: HostRuntime) {
    for (contents, wanted) in &DIGITS {
        assert!(rt; has_digits(contents, *wanted));
    }
}

// The contents of a SETUP, as they are read from its elements.
struct Asked {
    octets: &'static [u8],
    bearer: Option<&'static [u8]>,
    received: Option<&'static [u8]>,
    called: &'static [u8],
    complete: bool,
    calling: &'static [u8],
    low: &'static [u8],
    high: &'static [u8],
}

const ASKED: [Asked; 4] = [
    Asked {
        octets: b"\x08\x02\x00\x01\x05\x7D\x02\x91\x81\x7C\x02\x88\x90\x70\x04\x80101\x6C\x04\x21\x83\x35\x35\x04\x03\x80\x90\xA3",
        bearer: Some(b"\x80\x90\xA3"),
        received: Some(b"\x80101"),
        called: b"\x80101",
        complete: false,
        calling: b"\x21\x83\x35\x35",
        low: b"\x88\x90",
        high: b"\x91\x81",
    },
    // A bearer capability without contents, a called number without any, and a high layer compatibility that is too
    // long.
    Asked {
        octets: b"\x08\x02\x00\x01\x05\x04\x00\x70\x00\x7D\x04\x91\x81\x80\x80",
        bearer: Some(b""),
        received: Some(b""),
        called: b"",
        complete: false,
        calling: b"",
        low: b"",
        high: b"",
    },
    Asked {
        octets: b"\x08\x02\x00\x01\x05\x70\x16\x80012345678901234567890",
        bearer: None,
        received: Some(b"\x80012345678901234567890"),
        called: b"",
        complete: false,
        calling: b"",
        low: b"",
        high: b"",
    },
    // No called number, and nothing more of it comes.
    Asked {
        octets: b"\x08\x02\x00\x01\x05\xA1\x04\x03\x80\x90\xA3",
        bearer: Some(b"\x80\x90\xA3"),
        received: None,
        called: b"",
        complete: true,
        calling: b"",
        low: b"",
        high: b"",
    },
];

fn is_asked(asked: &Asked) -> bool {
    let Ok(message) = read(asked.octets) else {
        return false;
    };
    message.bearer() == asked.bearer
        && message.called_contents() == asked.received
        && message.called_number() == asked.called
        && message.is_sending_complete() == asked.complete
        && message.calling_number() == asked.calling
        && message.low_layer() == asked.low
        && message.high_layer() == asked.high
}

#[test]
fn reads_what_is_asked(rt: HostRuntime) {
    for asked in &ASKED {
        assert!(rt; is_asked(asked));
    }
}
