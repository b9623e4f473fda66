//! The arguments of the program.
use crate::gates::TestedGate;
use std::alloc::{AllocError, Global};

/// The letters of the kinds of meters.
const METERS: &[u8] = b"lcmphb";

/// A read or a write that fails, by number, 0 for none, and the octets that one call moves at most.
#[derive(Clone, Copy, Drop)]
pub struct Fails {
    pub call: u32,
    pub piece: usize,
}

/// The call that a command is passed to.
#[derive(Clone, Copy, Drop)]
pub enum Callee {
    /// `exchange`.
    Exchange,
    /// `exchange` with the engine `Marker`.
    MarkedExchange,
    /// `follow`, on the strict fabric if the value is true.
    Follow(bool),
}

/// The arguments of the program.
#[derive(Drop)]
pub struct Arguments {
    pub gate: TestedGate,
    /// The letters of the active meters, and of the spare ones.
    pub on: Vec<u8>,
    pub spare: Vec<u8>,
    pub reads: Fails,
    pub writes: Fails,
    pub callee: Callee,
    pub command: Vec<String>,
}

// Reads `CALL:PIECE`.
fn read_fails(word: Option<&String>) -> Option<Fails> {
    let (call, piece) = word?.as_str().split_once(':')?;
    let (call, piece) = (call.parse::<u32>().ok()?, piece.parse::<usize>().ok()?);
    Some(Fails { call, piece })
}

// Reads the letters of meters, or `-` for none.
fn read_meters(alloc: Global, word: Option<&String>) -> Result<Option<Vec<u8>>, AllocError> {
    let mut letters = Vec::new(alloc);
    let Some(word) = word else {
        return Ok(None);
    };
    if word.as_str() == "-" {
        return Ok(Some(letters));
    }
    for letter in word.as_str().bytes() {
        if !METERS.contains(&letter) {
            return Ok(None);
        }
        letters.push(letter)?;
    }
    Ok(Some(letters))
}

// Returns the call that a command is passed to, and the command.
fn callee_of(command: &[String]) -> (Callee, &[String]) {
    match command {
        [word, rest @ ..] if word.as_str() == "marked" => (Callee::MarkedExchange, rest),
        [word] if word.as_str() == "follow" => (Callee::Follow(false), command),
        [word, flag] if word.as_str() == "follow" && flag.as_str() == "--strict" => (
            Callee::Follow(true),
            command,
        ),
        _ => (Callee::Exchange, command),
    }
}

/// Reads the arguments after the program's name. `Ok(None)` if they have another form.
pub fn read_arguments(alloc: Global, words: &[String]) -> Result<Option<Arguments>, AllocError> {
    let (reads, writes) = (read_fails(words.get(3)), read_fails(words.get(4)));
    let (Some(reads), Some(writes)) = (reads, writes) else {
        return Ok(None);
    };
    let (callee, rest) = callee_of(words.get(5..).unwrap_or(&[]));
    let mut command = Vec::new(alloc);
    for word in rest {
        command.push(String::from_str(alloc, word.as_str())?)?;
    }
    let (on, spare) = (
        read_meters(alloc, words.get(1))?,
        read_meters(alloc, words.get(2))?,
    );
    let gate = match words.first() {
        Some(word) => TestedGate::read(alloc, word.as_str())?,
        None => None,
    };
    let (Some(gate), Some(on), Some(spare)) = (gate, on, spare) else {
        return Ok(None);
    };
    Ok(Some(Arguments {
        gate,
        on,
        spare,
        reads,
        writes,
        callee,
        command,
    }))
}
