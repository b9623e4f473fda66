//! The gates that an argument names.
use gate::{Gate, TestGate};
use std::alloc::{AllocError, Global};
use std::hint;
use std::sync::atomic::{AtomicU64, Ordering};

// The number of loads of a word before a hold gives up.
const LOOKS: u32 = 200_000_000;

// The progress of a turn or a crossing, added to a worker's number; a call other than the next one stays wrong.
const UNDER_WAY: u64 = 100;

const OVER: u64 = 200;

const WRONG: u64 = 300;

/// Whether all segments run in threads, and whether each turn has one event. Holds no thread.
#[derive(Clone, Copy, Drop)]
pub struct Turns {
    apart: bool,
    single: bool,
}

/// Holds one event's turn until another event's turn is over.
#[derive(Drop)]
pub struct Behind {
    held: u32,
    first: u32,
    over: AtomicU64,
}

/// Holds each worker's turn until n workers have come.
#[derive(Drop)]
pub struct Meeting {
    workers: u64,
    came: AtomicU64,
    gave_up: AtomicU64,
}

/// Records which worker calls at each event, and whether there are two calls, in their order; and for each frame its
/// event, and whether its two calls come after the turn of the event.
#[derive(Drop)]
pub struct Watched {
    apart: bool,
    // The number of the frame worker.
    framer: u32,
    // By the event's number less one: the progress of its turn, and its worker.
    turns: Vec<AtomicU64>,
    // By the frame's number: its event, and the progress of its crossing.
    frames: Vec<(AtomicU64, AtomicU64)>,
    // The number of frames whose turn has begun.
    begun: AtomicU64,
}

/// A gate of the tests.
#[derive(Drop)]
pub enum TestedGate {
    Turns(Turns),
    Behind(Behind),
    Crossing(TestGate),
    Meeting(Meeting),
    Watched(Watched),
}

// Waits until a word is at least a number, for n loads at most. Returns whether it is.
fn waits(word: &AtomicU64, least: u64) -> bool {
    for _ in 0..LOOKS {
        if word.load(Ordering::SeqCst) >= least {
            return true;
        }
        hint::spin_loop();
    }
    false
}

// Moves from one value to another, or to the wrong one.
fn go(word: Option<&AtomicU64>, from: u64, to: u64) {
    if let Some(word) = word {
        let right = word.load(Ordering::SeqCst) == from;
        word.store(if right { to } else { WRONG }, Ordering::SeqCst);
    }
}

impl Meeting {
    fn come(&self) {
        self.came.fetch_add(1, Ordering::SeqCst);
        if !waits(&self.came, self.workers) {
            self.gave_up.store(1, Ordering::SeqCst);
        }
    }
}

impl Watched {
    // Makes a gate for this number of events. The frame worker has the number `framer`.
    fn new(alloc: Global, apart: bool, events: u32, framer: u32) -> Result<Watched, AllocError> {
        let mut watched = Watched {
            apart,
            framer,
            turns: Vec::new(alloc),
            frames: Vec::new(alloc),
            begun: AtomicU64::new(0),
        };
        for _ in 0..events {
            watched.turns.push(AtomicU64::new(0))?;
            watched.frames.push((AtomicU64::new(0), AtomicU64::new(0)))?;
        }
        Ok(watched)
    }

    fn turn(&self, event: u64) -> Option<&AtomicU64> {
        self.turns.get(event.checked_sub(1)? as usize)
    }

    // Returns whether the turn at an event is over.
    fn is_over(&self, event: u64) -> bool {
        match self.turn(event) {
            Some(word) => word.load(Ordering::SeqCst) >= OVER,
            None => false,
        }
    }

    fn begin_turn(&self, worker: u32, event: u32) {
        go(
            self.turn(u64::from(event)),
            0,
            UNDER_WAY + u64::from(worker),
        );
        if worker == self.framer {
            let frame = self.begun.fetch_add(1, Ordering::SeqCst);
            if let Some((of, _)) = self.frames.get(frame as usize) {
                of.store(u64::from(event), Ordering::SeqCst);
            }
        }
    }

    fn end_turn(&self, worker: u32, event: u32) {
        let worker = u64::from(worker);
        go(
            self.turn(u64::from(event)),
            UNDER_WAY + worker,
            OVER + worker,
        );
    }

    fn begin_crossing(&self, frame: u32) {
        if let Some((event, word)) = self.frames.get(frame as usize) {
            let is_over = self.is_over(event.load(Ordering::SeqCst));
            go(Some(word), 0, if is_over { UNDER_WAY } else { WRONG });
        }
    }

    fn end_crossing(&self, frame: u32) {
        if let Some((_, word)) = self.frames.get(frame as usize) {
            go(Some(word), UNDER_WAY, OVER);
        }
    }

    // Returns the progress of each turn, and then of each frame that began the number of its event and its progress.
    fn record(&self, alloc: Global) -> Result<Vec<u64>, AllocError> {
        let mut record = Vec::new(alloc);
        for word in &self.turns {
            record.push(word.load(Ordering::SeqCst))?;
        }
        let begun = self.begun.load(Ordering::SeqCst);
        for (event, word) in self.frames.iter().take(begun as usize) {
            record.push(event.load(Ordering::SeqCst))?;
            record.push(word.load(Ordering::SeqCst))?;
        }
        Ok(record)
    }
}

// Returns the number of a part of an argument, 0 if there is none.
fn number(part: Option<&str>) -> Option<u32> {
    match part {
        Some(digits) => digits.parse::<u32>().ok(),
        None => Some(0),
    }
}

// Divides an argument into a name and two numbers, 0 for those that it does not have.
fn divided(word: &str) -> Option<(&str, u32, u32)> {
    let mut parts = word.split(':');
    let name = parts.next()?;
    let first = number(parts.next())?;
    Some((name, first, number(parts.next())?))
}

impl TestedGate {
    /// Reads a gate. `Ok(None)` if the argument names none.
    pub fn read(alloc: Global, word: &str) -> Result<Option<TestedGate>, AllocError> {
        let Some((name, first, second)) = divided(word) else {
            return Ok(None);
        };
        if name == "watched" || name == "watched_open" {
            let watched = Watched::new(alloc, name == "watched", first, second)?;
            return Ok(Some(TestedGate::Watched(watched)));
        }
        Ok(TestedGate::named(name, first, second))
    }

    // Returns the gate with this name that does not allocate.
    fn named(name: &str, first: u32, second: u32) -> Option<TestedGate> {
        match name {
            "open" => Some(TestedGate::Turns(Turns {
                apart: false,
                single: false,
            })),
            "single" => Some(TestedGate::Turns(Turns {
                apart: true,
                single: true,
            })),
            "kept" => Some(TestedGate::Turns(Turns {
                apart: true,
                single: false,
            })),
            "behind" => Some(TestedGate::Behind(Behind {
                held: first,
                first: second,
                over: AtomicU64::new(0),
            })),
            "crossing" => Some(TestedGate::Crossing(TestGate::new(first, second))),
            "meeting" => Some(TestedGate::Meeting(Meeting {
                workers: u64::from(first),
                came: AtomicU64::new(0),
                gave_up: AtomicU64::new(0),
            })),
            _ => None,
        }
    }

    /// Returns the record of the gate. Of `crossing` it is 1 if the gate has passed. Of `meeting` it is the number of
    /// holds that gave up, at most 1. Of `watched` it is 200 and the worker's number for each event, and for each frame
    /// its event and 200, or another number if a call was missing or wrong. Other gates have no record.
    pub fn record(&self, alloc: Global) -> Result<Vec<u64>, AllocError> {
        match self {
            TestedGate::Crossing(gate) => [u64::from(gate.passed())].to_vec(alloc),
            TestedGate::Meeting(gate) => [gate.gave_up.load(Ordering::SeqCst)].to_vec(alloc),
            TestedGate::Watched(gate) => gate.record(alloc),
            TestedGate::Turns(_) | TestedGate::Behind(_) => Ok(Vec::new(alloc)),
        }
    }
}

impl Gate for TestedGate {
    fn before_turn(&self, worker: u32, event: u32) {
        match self {
            TestedGate::Turns(_) => {}
            TestedGate::Behind(gate) => {
                if event == gate.held {
                    waits(&gate.over, 1);
                }
            }
            TestedGate::Crossing(gate) => gate.before_turn(worker, event),
            TestedGate::Meeting(gate) => gate.come(),
            TestedGate::Watched(gate) => gate.begin_turn(worker, event),
        }
    }

    fn after_turn(&self, worker: u32, event: u32) {
        match self {
            TestedGate::Behind(gate) => {
                if event == gate.first {
                    gate.over.store(1, Ordering::SeqCst);
                }
            }
            TestedGate::Crossing(gate) => gate.after_turn(worker, event),
            TestedGate::Watched(gate) => gate.end_turn(worker, event),
            TestedGate::Turns(_) | TestedGate::Meeting(_) => {}
        }
    }

    fn before_crossing(&self, frame: u32) {
        match self {
            TestedGate::Crossing(gate) => gate.before_crossing(frame),
            TestedGate::Watched(gate) => gate.begin_crossing(frame),
            TestedGate::Turns(_) | TestedGate::Behind(_) | TestedGate::Meeting(_) => {}
        }
    }

    fn after_crossing(&self, frame: u32) {
        match self {
            TestedGate::Watched(gate) => gate.end_crossing(frame),
            TestedGate::Turns(_)
            | TestedGate::Behind(_)
            | TestedGate::Crossing(_)
            | TestedGate::Meeting(_) => {}
        }
    }

    fn apart(&self) -> bool {
        match self {
            TestedGate::Turns(turns) => turns.apart,
            TestedGate::Watched(gate) => gate.apart,
            TestedGate::Behind(_) | TestedGate::Crossing(_) | TestedGate::Meeting(_) => true,
        }
    }

    fn may_hold(&self) -> bool {
        match self {
            TestedGate::Turns(turns) => turns.single,
            TestedGate::Behind(_)
            | TestedGate::Crossing(_)
            | TestedGate::Meeting(_)
            | TestedGate::Watched(_) => true,
        }
    }
}
