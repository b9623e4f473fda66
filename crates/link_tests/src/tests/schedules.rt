//! Two links over wires that lose and delay frames at random: each message arrives at most once and in order, and layer
//! 3 is informed of a lost one.
use super::bench::Random;
use arrayvec::ArrayVec;
use link_frames::{Control, MAX_FRAME_LEN, Sender, read_frame};
use link_procedures::{FrameOutbox, Indication, Link, LinkTimers};
use std::test::*;

// The most frames on a wire. A frame beyond them is lost.
const MAX_ON_WIRE: usize = 48;

// The longest time that a frame is on a wire.
const DELAY: u32 = 5;

// Longer than the way there and back.
const TIMELY: LinkTimers = LinkTimers { t200: 13, t203: 65 };

const TOO_SHORT: LinkTimers = LinkTimers { t200: 3, t203: 15 };

// A frame on a wire, and the time in which it was sent.
#[derive(Default, Drop)]
struct Sent {
    since: u32,
    octets: ArrayVec<u8, MAX_FRAME_LEN>,
}

// The frames from one link to the other, the oldest first.
#[derive(Drop)]
struct Wire {
    frames: ArrayVec<Sent, MAX_ON_WIRE>,
}

impl Wire {
    fn new() -> Wire {
        Wire {
            frames: ArrayVec::new(),
        }
    }

    fn put(&mut self, out: &FrameOutbox, at: u32) {
        for frame in out.as_slice() {
            let mut octets = ArrayVec::new();
            if octets.try_extend_from_slice(frame.as_slice()).is_ok()
                && self.frames.len() < MAX_ON_WIRE
            {
                self.frames.push(Sent { since: at, octets });
            }
        }
    }

    // Removes the oldest frame if it arrives or is lost now.
    fn take(&mut self, at: u32, random: &mut Random) -> Option<Sent> {
        let since = self.frames.as_slice().first()?.since;
        let is_late = at.saturating_sub(since) >= DELAY;
        if !is_late && random.is_within(128) {
            return None;
        }
        self.frames.pop_at(0)
    }
}

// A link and its layer 3. Each message submitted has its epoch, which ends where layer 3 is informed of a loss, and its
// number in it.
#[derive(Drop)]
struct Side {
    link: Link,
    epoch: u16,
    submitted: u16,
    // The epoch of the last message taken, and the number of the next one.
    last: u16,
    next: u16,
    is_in_order: bool,
}

impl Side {
    fn new(at: u32) -> Side {
        Side {
            link: Link::new(at),
            epoch: 0,
            submitted: 0,
            last: 0,
            next: 0,
            is_in_order: true,
        }
    }

    fn submit(&mut self, at: u32, out: &mut FrameOutbox) {
        out.clear();
        let [a, b] = self.epoch.to_be_bytes();
        let [c, d] = self.submitted.to_be_bytes();
        self.submitted = self.submitted.wrapping_add(1);
        self.link.submitted(&[a, b, c, d], at, out);
    }

    // Takes an indication of the link.
    fn hear(&mut self, told: Option<Indication>) {
        if told == Some(Indication::Established) || told == Some(Indication::Released) {
            self.epoch = self.epoch.wrapping_add(1);
            self.submitted = 0;
        }
    }

    // Takes a message: the next of its epoch, or the first of a later one.
    fn deliver(&mut self, message: &[u8]) {
        match message {
            [a, b, c, d] => {
                let epoch = u16::from_be_bytes([*a, *b]);
                let number = u16::from_be_bytes([*c, *d]);
                let wanted = if epoch == self.last { self.next } else { 0 };
                self.is_in_order = self.is_in_order && epoch >= self.last && number == wanted;
                self.last = epoch;
                self.next = number.wrapping_add(1);
            }
            _ => self.is_in_order = false,
        }
    }

    fn receive(&mut self, octets: &[u8], at: u32, out: &mut FrameOutbox) {
        out.clear();
        if let Some(frame) = read_frame(Sender::Network, octets) {
            let told = self.link.received(&frame, at, out);
            if told == Some(Indication::Data) {
                if let Control::Information { information, .. } = &frame.control {
                    self.deliver(information.octets());
                }
            }
            self.link.finished(at, out);
            self.hear(told);
        }
    }

    fn turn(&mut self, timers: &LinkTimers, at: u32, out: &mut FrameOutbox) {
        out.clear();
        let told = self.link.turned(timers, at, out);
        self.link.finished(at, out);
        self.hear(told);
    }
}

// Two links and their wires.
#[derive(Drop)]
struct Pair {
    out: FrameOutbox,
    random: Random,
    timers: LinkTimers,
}

impl Pair {
    // A frame of time at one side: what arrives, a message, and the turn of its link. `loss` and `load` are parts of 256.
    fn step(&mut self, side: &mut Side, to: &mut Wire, from: &mut Wire, rates: (u8, u8), at: u32) {
        let (loss, load) = rates;
        for _ in 0..MAX_ON_WIRE {
            if let Some(frame) = from.take(at, &mut self.random) {
                if !self.random.is_within(loss) {
                    side.receive(frame.octets.as_slice(), at, &mut self.out);
                    to.put(&self.out, at);
                }
            } else {
                break;
            }
        }
        if self.random.is_within(load) {
            side.submit(at, &mut self.out);
            to.put(&self.out, at);
        }
        side.turn(&self.timers, at, &mut self.out);
        to.put(&self.out, at);
    }
}

const LOSSES: [u8; 8] = [0, 0, 5, 26, 77, 154, 0, 255];

const LOADS: [u8; 8] = [0, 5, 26, 77, 154, 26, 77, 5];

fn rates(random: &mut Random) -> (u8, u8) {
    let loss = LOSSES[usize::from(random.octet() % 8)];
    let load = LOADS[usize::from(random.octet() % 8)];
    (loss, load)
}

// Runs two links for 240 frames with random loss, and for 80 without. Returns whether all messages arrived in order, and
// all of the last epoch.
fn delivers(seed: u64, timers: LinkTimers) -> bool {
    let mut pair = Pair {
        out: FrameOutbox::new(),
        random: Random::new(seed),
        timers,
    };
    let mut first = Side::new(0);
    let mut second = Side::new(u32::from(pair.random.octet() % 16));
    let mut there = Wire::new();
    let mut back = Wire::new();
    let mut rate = (0, 26);
    for at in 0..320_u32 {
        if at % 40 == 0 {
            rate = rates(&mut pair.random);
        }
        if at >= 240 {
            rate = (0, 0);
        }
        pair.step(&mut first, &mut there, &mut back, rate, at);
        pair.step(&mut second, &mut back, &mut there, rate, at);
    }
    first.is_in_order && second.is_in_order && has_all(&first, &second) && has_all(&second, &first)
}

// Whether the last epoch of one side has arrived at the other one.
fn has_all(from: &Side, to: &Side) -> bool {
    from.submitted == 0
        || !from.link.is_up()
        || (to.last == from.epoch && to.next == from.submitted)
}

// Whether no message is lost or repeated untold, with each seed below `end`.
fn always_delivers(end: u64, timers: LinkTimers) -> bool {
    for seed in 0..end {
        if !delivers(seed, timers) {
            return false;
        }
    }
    true
}

#[test]
fn delivers_in_order_or_tells(rt: HostRuntime) {
    assert!(rt; always_delivers(1_000, TIMELY));
}

// A check of the check: the premise of time is necessary.
#[test]
fn finds_a_loss_if_t200_is_too_short(rt: HostRuntime) {
    assert!(rt; !always_delivers(50, TOO_SHORT));
}
