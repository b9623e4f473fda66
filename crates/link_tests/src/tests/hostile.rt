//! Random frames of untrusted senders, which reach every state.
use super::bench::{Random, USUAL, receive};
use link_frames::{Sender, read_frame};
use link_procedures::{FrameOutbox, Indication, Link};
use std::test::*;

const FRAMES: u32 = 10_000;

// The most frames of a step: an answer, SABME or REJ, seven I frames and RR.
const MAX_SENT: usize = 10;

// A frame of the link: often with a control field that is defined, and often with the numbers 0 to 3.
fn random_frame(random: &mut Random) -> [u8; 6] {
    let command = if random.is_within(128) { 0x00 } else { 0x02 };
    let control = match random.octet() % 16 {
        0 => 0x7F,
        1 => 0x73,
        2 => 0x53,
        3 => 0x0F,
        4 => 0x87,
        5 => 0x01,
        6 => 0x05,
        7 => 0x09,
        8 | 9 => random.octet(),
        _ => random.octet() % 4 * 2,
    };
    [
        command,
        0x01,
        control,
        random.octet() % 8,
        random.octet(),
        random.octet(),
    ]
}

// Whether all octets sent are frames of a known kind, and not too many.
fn is_bounded(out: &FrameOutbox) -> bool {
    if out.as_slice().len() > MAX_SENT {
        return false;
    }
    for frame in out.as_slice() {
        if read_frame(Sender::Network, frame.as_slice()).is_none() {
            return false;
        }
    }
    true
}

// The length of a frame: of the ones without information field, most often.
fn cut<'a>(frame: &'a [u8; 6], random: &mut Random) -> &'a [u8] {
    match random.octet() % 4 {
        0 => &frame[..3],
        1 | 2 => &frame[..4],
        _ => &frame[..],
    }
}

// Whether each step is bounded, and whether messages were taken and the link was established.
fn withstands(seed: u64) -> bool {
    let mut random = Random::new(seed);
    let mut link = Link::new(0);
    let mut out = FrameOutbox::new();
    let mut is_taken = false;
    let mut is_established = false;
    for at in 0..FRAMES {
        let frame = random_frame(&mut random);
        let told = receive(&mut link, cut(&frame, &mut random), at, &mut out);
        if !is_bounded(&out) {
            return false;
        }
        is_taken = is_taken || told == Some(Indication::Data);
        is_established = is_established || told == Some(Indication::Established);
        out.clear();
        link.submitted(b"\x08\x02\x00\x01\x62", at, &mut out);
        link.turned(&USUAL, at, &mut out);
        if !is_bounded(&out) {
            return false;
        }
    }
    is_taken && is_established
}

#[test]
fn withstands_random_frames(rt: HostRuntime) {
    assert!(rt; withstands(1));
    assert!(rt; withstands(2));
    assert!(rt; withstands(3));
}
