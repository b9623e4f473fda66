//! Each cell of the figures B.4, B.5, B.7 and B.8 of Q.921 (09/97): a state, a received frame, and what follows.
use super::bench::{USUAL, is_sent, receive, submit};
use link_procedures::{FrameOutbox, Indication, Link, State};
use std::test::*;

// The frame of the exchange in which all is received and submitted.
const AT: u32 = 9_000;

const TEI_ASSIGNED: State = State::TeiAssigned;

const AWAITING: State = State::AwaitingEstablishment;

const ESTABLISHED: State = State::MultipleFrameEstablished;

const RECOVERY: State = State::TimerRecovery;

const SABME: &[u8] = b"\x02\x01\x7F";

const UA: &[u8] = b"\x00\x01\x63";

const UA_FINAL: &[u8] = b"\x00\x01\x73";

const DM: &[u8] = b"\x00\x01\x0F";

const DM_FINAL: &[u8] = b"\x00\x01\x1F";

const RR_0_FINAL: &[u8] = b"\x00\x01\x01\x01";

const RR_1: &[u8] = b"\x00\x01\x01\x02";

const RR_1_FINAL: &[u8] = b"\x00\x01\x01\x03";

const REJ_0: &[u8] = b"\x00\x01\x09\x00";

const REJ_0_FINAL: &[u8] = b"\x00\x01\x09\x01";

// The only message that is submitted, as I frame 0.
const I_0: &[u8] = b"\x02\x01\x00\x00\x55";

// The frames sent to the end of a step.
#[derive(Clone, Copy)]
enum Sent {
    Nothing,
    Sabme,
    Ua,
    UaFinal,
    Dm,
    DmFinal,
    I0,
    Rr0Final,
    Rr0FinalAndI0,
    Rr1,
    Rr1Final,
    Rej0,
    Rej0Final,
    Rej0AndSabme,
}

fn frames(sent: Sent) -> &'static [&'static [u8]] {
    match sent {
        Sent::Nothing => &[],
        Sent::Sabme => &[SABME],
        Sent::Ua => &[UA],
        Sent::UaFinal => &[UA_FINAL],
        Sent::Dm => &[DM],
        Sent::DmFinal => &[DM_FINAL],
        Sent::I0 => &[I_0],
        Sent::Rr0Final => &[RR_0_FINAL],
        Sent::Rr0FinalAndI0 => &[RR_0_FINAL, I_0],
        Sent::Rr1 => &[RR_1],
        Sent::Rr1Final => &[RR_1_FINAL],
        Sent::Rej0 => &[REJ_0],
        Sent::Rej0Final => &[REJ_0_FINAL],
        Sent::Rej0AndSabme => &[REJ_0, SABME],
    }
}

// The next state, the frames sent to the end of the step, and the indication. (A cell refers to nothing: a proof of a
// function takes much longer with each reference in its constants.)
type Cell = (State, Sent, Option<Indication>);

// A frame of the user, and what follows in the starts below.
struct Row {
    octets: &'static [u8],
    cells: [Cell; 6],
}

// How a link begins.
#[derive(Clone, Copy)]
enum Start {
    // State 4.
    Assigned,
    // State 5, for layer 3.
    Calling,
    // State 5, again.
    CallingAgain,
    // State 7, with nothing sent.
    Established,
    // State 7, with one message sent.
    Sent,
    // State 8, with one message sent.
    Recovering,
}

const STARTS: [Start; 6] = [
    Start::Assigned,
    Start::Calling,
    Start::CallingAgain,
    Start::Established,
    Start::Sent,
    Start::Recovering,
];

static TABLE: [Row; 37] = [
    // SABME with P 1.
    Row {
        octets: b"\x00\x01\x7F",
        cells: [
            (ESTABLISHED, Sent::UaFinal, Some(Indication::Established)),
            (AWAITING, Sent::UaFinal, None),
            (AWAITING, Sent::UaFinal, None),
            (ESTABLISHED, Sent::UaFinal, None),
            (ESTABLISHED, Sent::UaFinal, Some(Indication::Established)),
            (ESTABLISHED, Sent::UaFinal, Some(Indication::Established)),
        ],
    },
    // SABME with P 0.
    Row {
        octets: b"\x00\x01\x6F",
        cells: [
            (ESTABLISHED, Sent::Ua, Some(Indication::Established)),
            (AWAITING, Sent::Ua, None),
            (AWAITING, Sent::Ua, None),
            (ESTABLISHED, Sent::Ua, None),
            (ESTABLISHED, Sent::Ua, Some(Indication::Established)),
            (ESTABLISHED, Sent::Ua, Some(Indication::Established)),
        ],
    },
    // DISC with P 1.
    Row {
        octets: b"\x00\x01\x53",
        cells: [
            (TEI_ASSIGNED, Sent::DmFinal, None),
            (AWAITING, Sent::DmFinal, None),
            (AWAITING, Sent::DmFinal, None),
            (TEI_ASSIGNED, Sent::UaFinal, Some(Indication::Released)),
            (TEI_ASSIGNED, Sent::UaFinal, Some(Indication::Released)),
            (TEI_ASSIGNED, Sent::UaFinal, Some(Indication::Released)),
        ],
    },
    // DISC with P 0.
    Row {
        octets: b"\x00\x01\x43",
        cells: [
            (TEI_ASSIGNED, Sent::Dm, None),
            (AWAITING, Sent::Dm, None),
            (AWAITING, Sent::Dm, None),
            (TEI_ASSIGNED, Sent::Ua, Some(Indication::Released)),
            (TEI_ASSIGNED, Sent::Ua, Some(Indication::Released)),
            (TEI_ASSIGNED, Sent::Ua, Some(Indication::Released)),
        ],
    },
    // UA with F 1.
    Row {
        octets: b"\x02\x01\x73",
        cells: [
            (TEI_ASSIGNED, Sent::Nothing, None),
            (ESTABLISHED, Sent::Nothing, Some(Indication::Established)),
            (ESTABLISHED, Sent::Nothing, None),
            (ESTABLISHED, Sent::Nothing, None),
            (ESTABLISHED, Sent::Nothing, None),
            (RECOVERY, Sent::Nothing, None),
        ],
    },
    // UA with F 0.
    Row {
        octets: b"\x02\x01\x63",
        cells: [
            (TEI_ASSIGNED, Sent::Nothing, None),
            (AWAITING, Sent::Nothing, None),
            (AWAITING, Sent::Nothing, None),
            (ESTABLISHED, Sent::Nothing, None),
            (ESTABLISHED, Sent::Nothing, None),
            (RECOVERY, Sent::Nothing, None),
        ],
    },
    // DM with F 1.
    Row {
        octets: b"\x02\x01\x1F",
        cells: [
            (TEI_ASSIGNED, Sent::Nothing, None),
            (TEI_ASSIGNED, Sent::Nothing, Some(Indication::Released)),
            (TEI_ASSIGNED, Sent::Nothing, Some(Indication::Released)),
            (ESTABLISHED, Sent::Nothing, None),
            (ESTABLISHED, Sent::Nothing, None),
            (AWAITING, Sent::Sabme, None),
        ],
    },
    // DM with F 0.
    Row {
        octets: b"\x02\x01\x0F",
        cells: [
            (AWAITING, Sent::Sabme, None),
            (AWAITING, Sent::Nothing, None),
            (AWAITING, Sent::Nothing, None),
            (AWAITING, Sent::Sabme, None),
            (AWAITING, Sent::Sabme, None),
            (AWAITING, Sent::Sabme, None),
        ],
    },
    // FRMR.
    Row {
        octets: b"\x02\x01\x87\x01\x02\x03\x04\x05",
        cells: [
            (TEI_ASSIGNED, Sent::Nothing, None),
            (AWAITING, Sent::Nothing, None),
            (AWAITING, Sent::Nothing, None),
            (AWAITING, Sent::Sabme, None),
            (AWAITING, Sent::Sabme, None),
            (AWAITING, Sent::Sabme, None),
        ],
    },
    // An undefined control field, SABME with an information field, UA as a command, and an I frame as a response.
    Row {
        octets: b"\x00\x01\x0B",
        cells: [
            (TEI_ASSIGNED, Sent::Nothing, None),
            (AWAITING, Sent::Nothing, None),
            (AWAITING, Sent::Nothing, None),
            (AWAITING, Sent::Sabme, None),
            (AWAITING, Sent::Sabme, None),
            (AWAITING, Sent::Sabme, None),
        ],
    },
    Row {
        octets: b"\x00\x01\x7F\x05",
        cells: [
            (TEI_ASSIGNED, Sent::Nothing, None),
            (AWAITING, Sent::Nothing, None),
            (AWAITING, Sent::Nothing, None),
            (AWAITING, Sent::Sabme, None),
            (AWAITING, Sent::Sabme, None),
            (AWAITING, Sent::Sabme, None),
        ],
    },
    Row {
        octets: b"\x00\x01\x73",
        cells: [
            (TEI_ASSIGNED, Sent::Nothing, None),
            (AWAITING, Sent::Nothing, None),
            (AWAITING, Sent::Nothing, None),
            (AWAITING, Sent::Sabme, None),
            (AWAITING, Sent::Sabme, None),
            (AWAITING, Sent::Sabme, None),
        ],
    },
    Row {
        octets: b"\x02\x01\x00\x00\x05",
        cells: [
            (TEI_ASSIGNED, Sent::Nothing, None),
            (AWAITING, Sent::Nothing, None),
            (AWAITING, Sent::Nothing, None),
            (AWAITING, Sent::Sabme, None),
            (AWAITING, Sent::Sabme, None),
            (AWAITING, Sent::Sabme, None),
        ],
    },
    // UI and XID.
    Row {
        octets: b"\x00\x01\x03\x05",
        cells: [
            (TEI_ASSIGNED, Sent::Nothing, None),
            (AWAITING, Sent::Nothing, None),
            (AWAITING, Sent::Nothing, None),
            (ESTABLISHED, Sent::Nothing, None),
            (ESTABLISHED, Sent::Nothing, None),
            (RECOVERY, Sent::Nothing, None),
        ],
    },
    Row {
        octets: b"\x00\x01\xAF\x05",
        cells: [
            (TEI_ASSIGNED, Sent::Nothing, None),
            (AWAITING, Sent::Nothing, None),
            (AWAITING, Sent::Nothing, None),
            (ESTABLISHED, Sent::Nothing, None),
            (ESTABLISHED, Sent::Nothing, None),
            (RECOVERY, Sent::Nothing, None),
        ],
    },
    // Discarded: an I and an S frame with one octet of control field, another SAPI, another TEI.
    Row {
        octets: b"\x00\x01\x00",
        cells: [
            (TEI_ASSIGNED, Sent::Nothing, None),
            (AWAITING, Sent::Nothing, None),
            (AWAITING, Sent::Nothing, None),
            (ESTABLISHED, Sent::Nothing, None),
            (ESTABLISHED, Sent::Nothing, None),
            (RECOVERY, Sent::Nothing, None),
        ],
    },
    Row {
        octets: b"\x02\x01\x01",
        cells: [
            (TEI_ASSIGNED, Sent::Nothing, None),
            (AWAITING, Sent::Nothing, None),
            (AWAITING, Sent::Nothing, None),
            (ESTABLISHED, Sent::Nothing, None),
            (ESTABLISHED, Sent::Nothing, None),
            (RECOVERY, Sent::Nothing, None),
        ],
    },
    Row {
        octets: b"\x04\x01\x7F",
        cells: [
            (TEI_ASSIGNED, Sent::Nothing, None),
            (AWAITING, Sent::Nothing, None),
            (AWAITING, Sent::Nothing, None),
            (ESTABLISHED, Sent::Nothing, None),
            (ESTABLISHED, Sent::Nothing, None),
            (RECOVERY, Sent::Nothing, None),
        ],
    },
    Row {
        octets: b"\x00\x03\x7F",
        cells: [
            (TEI_ASSIGNED, Sent::Nothing, None),
            (AWAITING, Sent::Nothing, None),
            (AWAITING, Sent::Nothing, None),
            (ESTABLISHED, Sent::Nothing, None),
            (ESTABLISHED, Sent::Nothing, None),
            (RECOVERY, Sent::Nothing, None),
        ],
    },
    // RR command, P 1 and 0.
    Row {
        octets: b"\x00\x01\x01\x01",
        cells: [
            (TEI_ASSIGNED, Sent::Nothing, None),
            (AWAITING, Sent::Nothing, None),
            (AWAITING, Sent::Nothing, None),
            (ESTABLISHED, Sent::Rr0Final, None),
            (ESTABLISHED, Sent::Rr0Final, None),
            (RECOVERY, Sent::Rr0Final, None),
        ],
    },
    Row {
        octets: b"\x00\x01\x01\x00",
        cells: [
            (TEI_ASSIGNED, Sent::Nothing, None),
            (AWAITING, Sent::Nothing, None),
            (AWAITING, Sent::Nothing, None),
            (ESTABLISHED, Sent::Nothing, None),
            (ESTABLISHED, Sent::Nothing, None),
            (RECOVERY, Sent::Nothing, None),
        ],
    },
    // RR response: F 1 ends the timer recovery.
    Row {
        octets: b"\x02\x01\x01\x01",
        cells: [
            (TEI_ASSIGNED, Sent::Nothing, None),
            (AWAITING, Sent::Nothing, None),
            (AWAITING, Sent::Nothing, None),
            (ESTABLISHED, Sent::Nothing, None),
            (ESTABLISHED, Sent::Nothing, None),
            (ESTABLISHED, Sent::I0, None),
        ],
    },
    Row {
        octets: b"\x02\x01\x01\x03",
        cells: [
            (TEI_ASSIGNED, Sent::Nothing, None),
            (AWAITING, Sent::Nothing, None),
            (AWAITING, Sent::Nothing, None),
            (AWAITING, Sent::Sabme, None),
            (ESTABLISHED, Sent::Nothing, None),
            (ESTABLISHED, Sent::Nothing, None),
        ],
    },
    Row {
        octets: b"\x02\x01\x01\x02",
        cells: [
            (TEI_ASSIGNED, Sent::Nothing, None),
            (AWAITING, Sent::Nothing, None),
            (AWAITING, Sent::Nothing, None),
            (AWAITING, Sent::Sabme, None),
            (ESTABLISHED, Sent::Nothing, None),
            (RECOVERY, Sent::Nothing, None),
        ],
    },
    // RNR.
    Row {
        octets: b"\x00\x01\x05\x01",
        cells: [
            (TEI_ASSIGNED, Sent::Nothing, None),
            (AWAITING, Sent::Nothing, None),
            (AWAITING, Sent::Nothing, None),
            (ESTABLISHED, Sent::Rr0Final, None),
            (ESTABLISHED, Sent::Rr0Final, None),
            (RECOVERY, Sent::Rr0Final, None),
        ],
    },
    Row {
        octets: b"\x02\x01\x05\x02",
        cells: [
            (TEI_ASSIGNED, Sent::Nothing, None),
            (AWAITING, Sent::Nothing, None),
            (AWAITING, Sent::Nothing, None),
            (AWAITING, Sent::Sabme, None),
            (ESTABLISHED, Sent::Nothing, None),
            (RECOVERY, Sent::Nothing, None),
        ],
    },
    Row {
        octets: b"\x02\x01\x05\x01",
        cells: [
            (TEI_ASSIGNED, Sent::Nothing, None),
            (AWAITING, Sent::Nothing, None),
            (AWAITING, Sent::Nothing, None),
            (ESTABLISHED, Sent::Nothing, None),
            (ESTABLISHED, Sent::Nothing, None),
            (ESTABLISHED, Sent::Nothing, None),
        ],
    },
    // REJ.
    Row {
        octets: b"\x02\x01\x09\x00",
        cells: [
            (TEI_ASSIGNED, Sent::Nothing, None),
            (AWAITING, Sent::Nothing, None),
            (AWAITING, Sent::Nothing, None),
            (ESTABLISHED, Sent::Nothing, None),
            (ESTABLISHED, Sent::I0, None),
            (RECOVERY, Sent::Nothing, None),
        ],
    },
    Row {
        octets: b"\x02\x01\x09\x01",
        cells: [
            (TEI_ASSIGNED, Sent::Nothing, None),
            (AWAITING, Sent::Nothing, None),
            (AWAITING, Sent::Nothing, None),
            (ESTABLISHED, Sent::Nothing, None),
            (ESTABLISHED, Sent::I0, None),
            (ESTABLISHED, Sent::I0, None),
        ],
    },
    Row {
        octets: b"\x00\x01\x09\x01",
        cells: [
            (TEI_ASSIGNED, Sent::Nothing, None),
            (AWAITING, Sent::Nothing, None),
            (AWAITING, Sent::Nothing, None),
            (ESTABLISHED, Sent::Rr0Final, None),
            (ESTABLISHED, Sent::Rr0FinalAndI0, None),
            (RECOVERY, Sent::Rr0Final, None),
        ],
    },
    Row {
        octets: b"\x02\x01\x09\x04",
        cells: [
            (TEI_ASSIGNED, Sent::Nothing, None),
            (AWAITING, Sent::Nothing, None),
            (AWAITING, Sent::Nothing, None),
            (AWAITING, Sent::Sabme, None),
            (AWAITING, Sent::Sabme, None),
            (AWAITING, Sent::Sabme, None),
        ],
    },
    // I in sequence.
    Row {
        octets: b"\x00\x01\x00\x00\x05",
        cells: [
            (TEI_ASSIGNED, Sent::Nothing, None),
            (AWAITING, Sent::Nothing, None),
            (AWAITING, Sent::Nothing, None),
            (ESTABLISHED, Sent::Rr1, Some(Indication::Data)),
            (ESTABLISHED, Sent::Rr1, Some(Indication::Data)),
            (RECOVERY, Sent::Rr1, Some(Indication::Data)),
        ],
    },
    Row {
        octets: b"\x00\x01\x00\x01\x05",
        cells: [
            (TEI_ASSIGNED, Sent::Nothing, None),
            (AWAITING, Sent::Nothing, None),
            (AWAITING, Sent::Nothing, None),
            (ESTABLISHED, Sent::Rr1Final, Some(Indication::Data)),
            (ESTABLISHED, Sent::Rr1Final, Some(Indication::Data)),
            (RECOVERY, Sent::Rr1Final, Some(Indication::Data)),
        ],
    },
    Row {
        octets: b"\x00\x01\x00\x02\x05",
        cells: [
            (TEI_ASSIGNED, Sent::Nothing, None),
            (AWAITING, Sent::Nothing, None),
            (AWAITING, Sent::Nothing, None),
            (AWAITING, Sent::Sabme, Some(Indication::Data)),
            (ESTABLISHED, Sent::Rr1, Some(Indication::Data)),
            (RECOVERY, Sent::Rr1, Some(Indication::Data)),
        ],
    },
    // I out of sequence.
    Row {
        octets: b"\x00\x01\x02\x00\x05",
        cells: [
            (TEI_ASSIGNED, Sent::Nothing, None),
            (AWAITING, Sent::Nothing, None),
            (AWAITING, Sent::Nothing, None),
            (ESTABLISHED, Sent::Rej0, None),
            (ESTABLISHED, Sent::Rej0, None),
            (RECOVERY, Sent::Rej0, None),
        ],
    },
    Row {
        octets: b"\x00\x01\x02\x01\x05",
        cells: [
            (TEI_ASSIGNED, Sent::Nothing, None),
            (AWAITING, Sent::Nothing, None),
            (AWAITING, Sent::Nothing, None),
            (ESTABLISHED, Sent::Rej0Final, None),
            (ESTABLISHED, Sent::Rej0Final, None),
            (RECOVERY, Sent::Rej0Final, None),
        ],
    },
    Row {
        octets: b"\x00\x01\x02\x02\x05",
        cells: [
            (TEI_ASSIGNED, Sent::Nothing, None),
            (AWAITING, Sent::Nothing, None),
            (AWAITING, Sent::Nothing, None),
            (AWAITING, Sent::Rej0AndSabme, None),
            (ESTABLISHED, Sent::Rej0, None),
            (RECOVERY, Sent::Rej0, None),
        ],
    },
];

fn expire(link: &mut Link, at: u32, out: &mut FrameOutbox) {
    out.clear();
    link.turned(&USUAL, at, out);
}

fn begin(start: Start, out: &mut FrameOutbox) -> Link {
    let mut link = Link::new(0);
    match start {
        Start::Assigned => {}
        Start::Calling => expire(&mut link, 8_000, out),
        Start::CallingAgain => {
            receive(&mut link, b"\x00\x01\x7F", AT, out);
            receive(&mut link, b"\x02\x01\x87", AT, out);
        }
        Start::Established => {
            receive(&mut link, b"\x00\x01\x7F", AT, out);
        }
        Start::Sent => {
            receive(&mut link, b"\x00\x01\x7F", AT, out);
            submit(&mut link, b"\x55", AT, out);
        }
        Start::Recovering => {
            receive(&mut link, b"\x00\x01\x7F", AT, out);
            submit(&mut link, b"\x55", AT, out);
            expire(&mut link, 17_000, out);
        }
    }
    link
}

fn row_holds(row: &Row) -> bool {
    for (start, cell) in STARTS.iter().zip(row.cells.iter()) {
        let mut out = FrameOutbox::new();
        let mut link = begin(*start, &mut out);
        let told = receive(&mut link, row.octets, AT, &mut out);
        if link.state() != cell.0 || !is_sent(&out, frames(cell.1)) || told != cell.2 {
            return false;
        }
    }
    true
}

#[test]
fn follows_the_table(rt: HostRuntime) {
    for row in &TABLE {
        assert!(rt; row_holds(row));
    }
}
