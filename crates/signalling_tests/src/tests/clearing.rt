//! The reply to a message without a call, and the contents of a RESTART.
use clearing_rules::{Restart, cause_in, restart, restart_acknowledge, unknown_reference};
use q931_codec::{MessageKind, read};
use std::test::*;

// Octets on a call reference without a leg, and the flag, the call reference, the type, the cause and the state of the
// reply.
type Answer = (bool, u16, MessageKind, Option<u8>, Option<u8>);

const STATUS: MessageKind = MessageKind::Status;

const COMPLETE: MessageKind = MessageKind::ReleaseComplete;

const ANSWERS: [(&[u8], Option<Answer>); 14] = [
    (
        b"\x08\x02\x00\x01\x75",
        Some((true, 1, STATUS, Some(30), Some(0))),
    ),
    (
        b"\x08\x02\xFF\xFF\x75",
        Some((false, 32_767, STATUS, Some(30), Some(0))),
    ),
    (
        b"\x08\x02\x00\x01\x45\x08\x02\x80\x90",
        Some((true, 1, COMPLETE, Some(81), None)),
    ),
    (
        b"\x08\x02\x80\x02\x4D",
        Some((false, 2, COMPLETE, Some(81), None)),
    ),
    (
        b"\x08\x02\x00\x01\x4E\x79\x01\x86",
        Some((true, 1, COMPLETE, Some(81), None)),
    ),
    (
        b"\x08\x02\x12\x34\x25",
        Some((true, 0x1234, COMPLETE, Some(81), None)),
    ),
    (b"\x08\x02\x00\x01\x5A", None),
    (
        b"\x08\x02\x80\x01\x7D\x14\x01\x0A",
        Some((false, 1, COMPLETE, Some(101), None)),
    ),
    (b"\x08\x02\x80\x01\x7D\x14\x01\x00", None),
    (b"\x08\x02\x80\x01\x7D\x08\x02\x80\x9F", None),
    (b"\x08\x02\x00\x01\x05", None),
    (b"\x08\x02\x80\x01\x05", None),
    // On the global call reference.
    (b"\x08\x02\x00\x00\x75", None),
    (b"\x08\x02\x00\x00\x46\x79\x01\x86", None),
];

fn answer(octets: &[u8]) -> Option<Answer> {
    let sent = unknown_reference(&read(octets).ok()?)?;
    Some((sent.flag, sent.reference, sent.kind, sent.cause, sent.state))
}

#[test]
fn answers_on_no_call(rt: HostRuntime) {
    for (octets, wanted) in &ANSWERS {
        assert!(rt; answer(octets) == *wanted);
    }
}

// RESTARTs, their contents, and the channel and the restart indicator of the acknowledgement.
const RESTARTS: [(&[u8], Option<(Restart, Option<u8>, u8)>); 9] = [
    (
        b"\x08\x02\x00\x00\x46\x79\x01\x86",
        Some((Restart::Interface(0x86), None, 0x86)),
    ),
    (
        b"\x08\x02\x00\x00\x46\x18\x01\xA3\x79\x01\x87",
        Some((Restart::Interface(0x87), None, 0x87)),
    ),
    (
        b"\x08\x02\x00\x00\x46\x18\x03\xA9\x83\x81\x79\x01\x80",
        Some((Restart::Channel(0), Some(1), 0x80)),
    ),
    (
        b"\x08\x02\x00\x00\x46\x79\x01\x80\x18\x03\xA1\x83\x9F",
        Some((Restart::Channel(29), Some(31), 0x80)),
    ),
    // No channel, any channel, the D-channel, another class, and a call reference other than 0.
    (b"\x08\x02\x00\x00\x46\x79\x01\x80", None),
    (b"\x08\x02\x00\x00\x46\x18\x01\xA3\x79\x01\x80", None),
    (
        b"\x08\x02\x00\x00\x46\x18\x03\xA9\x83\x90\x79\x01\x80",
        None,
    ),
    (
        b"\x08\x02\x00\x00\x46\x18\x03\xA9\x83\x81\x79\x01\x81",
        None,
    ),
    (b"\x08\x02\x00\x01\x46\x79\x01\x86", None),
];

fn restarted(octets: &[u8]) -> Option<(Restart, Option<u8>, u8)> {
    let asked = restart(&read(octets).ok()?)?;
    let sent = restart_acknowledge(asked);
    if !sent.flag || sent.reference != 0 || sent.kind != MessageKind::RestartAcknowledge {
        return None;
    }
    Some((asked, sent.channel, sent.restart?))
}

#[test]
fn restarts(rt: HostRuntime) {
    for (octets, wanted) in &RESTARTS {
        assert!(rt; restarted(octets) == *wanted);
    }
}

fn cause(octets: &[u8]) -> Option<u8> {
    cause_in(&read(octets).ok()?)
}

#[test]
fn reads_a_cause(rt: HostRuntime) {
    assert!(rt; cause(b"\x08\x02\x00\x01\x45\x08\x02\x80\x91") == Some(17));
    assert!(rt; cause(b"\x08\x02\x00\x01\x45\x08\x03\x00\x80\xA9") == Some(41));
    assert!(rt; cause(b"\x08\x02\x00\x01\x45\x08\x01\x80").is_none());
    assert!(rt; cause(b"\x08\x02\x00\x01\x45").is_none());
}
