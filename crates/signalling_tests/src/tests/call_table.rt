//! The call table, row by row, and the STATUS in reply to an unexpected message.
use call_states::{Act, Leg, Peer, Side, on_message, status_message, unexpected};
use circuit_model::Slot;
use q931_codec::{MessageKind, read};
use std::test::*;

const EVERY: &[u8] = &[2, 3, 4, 6, 7, 9, 10, 12, 19];

const UNRELEASED: &[u8] = &[2, 3, 4, 6, 7, 9, 10, 12];

// A message, and its acts by the leg's state. In every other state it is not expected.
struct Row {
    octets: &'static [u8],
    acts: &'static [(&'static [u8], Act)],
}

// The call table: a message of each type, with its cause if it has one.
const TABLE: [Row; 24] = [
    Row {
        octets: b"\x08\x02\x80\x01\x02",
        acts: &[(&[6], Act::Proceeding)],
    },
    Row {
        octets: b"\x08\x02\x80\x01\x01",
        acts: &[(&[6, 9], Act::Alerting)],
    },
    Row {
        octets: b"\x08\x02\x80\x01\x07",
        acts: &[(&[6, 7, 9], Act::Answer)],
    },
    Row {
        octets: b"\x08\x02\x00\x01\x0F",
        acts: &[(&[10], Act::Nothing)],
    },
    Row {
        octets: b"\x08\x02\x00\x01\x03",
        acts: &[(EVERY, Act::Nothing)],
    },
    Row {
        octets: b"\x08\x02\x00\x01\x6E",
        acts: &[(EVERY, Act::Nothing)],
    },
    Row {
        octets: b"\x08\x02\x00\x01\x62",
        acts: &[(EVERY, Act::Nothing)],
    },
    Row {
        octets: b"\x08\x02\x00\x01\x20",
        acts: &[(EVERY, Act::Nothing)],
    },
    Row {
        octets: b"\x08\x02\x00\x01\x05",
        acts: &[(EVERY, Act::Nothing)],
    },
    Row {
        octets: b"\x08\x02\x00\x01\x45\x08\x02\x80\x91",
        acts: &[(UNRELEASED, Act::Disconnect(17))],
    },
    // No cause, and a truncated one.
    Row {
        octets: b"\x08\x02\x00\x01\x45",
        acts: &[(UNRELEASED, Act::Disconnect(16))],
    },
    Row {
        octets: b"\x08\x02\x00\x01\x4D\x08\x01\x80",
        acts: &[
            (UNRELEASED, Act::Release(16)),
            (&[19], Act::ReleaseComplete(16)),
        ],
    },
    Row {
        octets: b"\x08\x02\x00\x01\x4D\x08\x02\x80\xA9",
        acts: &[
            (UNRELEASED, Act::Release(41)),
            (&[19], Act::ReleaseComplete(41)),
        ],
    },
    Row {
        octets: b"\x08\x02\x00\x01\x5A\x08\x02\x80\xAC",
        acts: &[(EVERY, Act::ReleaseComplete(44))],
    },
    // A STATUS with the null state, with states 10 and 1, and with none.
    Row {
        octets: b"\x08\x02\x00\x01\x7D\x08\x02\x80\x9E\x14\x01\x00",
        acts: &[(EVERY, Act::ReleaseComplete(41))],
    },
    Row {
        octets: b"\x08\x02\x00\x01\x7D\x08\x02\x80\x9E\x14\x01\x0A",
        acts: &[(&[10], Act::Report(10)), (EVERY, Act::Nothing)],
    },
    Row {
        octets: b"\x08\x02\x00\x01\x7D\x08\x02\x80\x9E\x14\x01\x01",
        acts: &[(&[10], Act::Report(1)), (EVERY, Act::Nothing)],
    },
    Row {
        octets: b"\x08\x02\x00\x01\x7D",
        acts: &[(EVERY, Act::Nothing)],
    },
    Row {
        octets: b"\x08\x02\x00\x01\x75",
        acts: &[(EVERY, Act::Enquiry)],
    },
    Row {
        octets: b"\x08\x02\x00\x01\x0D",
        acts: &[],
    },
    Row {
        octets: b"\x08\x02\x00\x01\x46",
        acts: &[],
    },
    Row {
        octets: b"\x08\x02\x00\x01\x4E",
        acts: &[],
    },
    Row {
        octets: b"\x08\x02\x00\x01\x7B",
        acts: &[(&[2], Act::Digits), (&[3, 4, 10], Act::Nothing)],
    },
    Row {
        octets: b"\x08\x02\x00\x01\x3F",
        acts: &[],
    },
];

fn leg(state: u8, side: Side) -> Leg {
    Leg {
        state,
        reference: 1,
        side,
        peer: Peer::Leg(Slot { line: 1, place: 0 }),
        cause: 0,
        since: 0,
        resent: false,
        enquired: false,
    }
}

fn wanted(row: &Row, state: u8) -> Act {
    for (states, act) in row.acts {
        if states.contains(&state) {
            return *act;
        }
    }
    Act::Unexpected
}

// Returns whether the message has the row's act in this state.
fn fits(row: &Row, state: u8) -> bool {
    match read(row.octets) {
        Ok(message) => on_message(&leg(state, Side::Caller), &message) == wanted(row, state),
        Err(_) => false,
    }
}

#[test]
fn gives_the_acts_of_the_table(rt: HostRuntime) {
    for row in &TABLE {
        for state in 0..64u8 {
            assert!(rt; fits(row, state), "state {state}");
        }
    }
}

// Returns the flag, the reference, the cause and the state of the STATUS for a message that is not expected.
fn told(octets: &[u8], leg: &Leg) -> Option<(bool, u16, Option<u8>, Option<u8>)> {
    let answer = unexpected(leg, &read(octets).ok()?);
    if answer.kind != MessageKind::Status {
        return None;
    }
    Some((answer.flag, answer.reference, answer.cause, answer.state))
}

#[test]
fn tells_what_is_not_expected(rt: HostRuntime) {
    let alerting = b"\x08\x02\x00\x01\x01";
    let unknown = b"\x08\x02\x00\x01\x3F";
    let caller = leg(3, Side::Caller);
    let called = leg(19, Side::Called);
    assert!(rt; told(alerting, &caller) == Some((true, 1, Some(101), Some(3))));
    assert!(rt; told(unknown, &caller) == Some((true, 1, Some(97), Some(3))));
    assert!(rt; told(alerting, &called) == Some((false, 1, Some(101), Some(19))));
    assert!(rt; told(unknown, &called) == Some((false, 1, Some(97), Some(19))));
}

#[test]
fn tells_the_state(rt: HostRuntime) {
    let answer = status_message(&leg(10, Side::Caller), 30);
    assert!(rt; answer.flag && answer.kind == MessageKind::Status);
    assert!(rt; answer.cause == Some(30) && answer.state == Some(10));
}
