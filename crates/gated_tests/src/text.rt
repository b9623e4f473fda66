//! The text that the program writes.
use crate::call::{Ended, Left};
use crate::gates::TestedGate;
use std::alloc::{AllocError, Global};

// Appends a line of a word and numbers.
fn push_numbers(
    alloc: Global,
    word: &[u8],
    numbers: &[u64],
    out: &mut Vec<u8>,
) -> Result<(), AllocError> {
    out.extend_from_slice(word)?;
    for number in numbers {
        push_number(alloc, *number, out)?;
    }
    out.extend_from_slice(b"\n")
}

// Appends a space and a number.
fn push_number(alloc: Global, number: u64, out: &mut Vec<u8>) -> Result<(), AllocError> {
    let text = format!(in alloc; " {number}")?;
    out.extend_from_slice(text.as_bytes())
}

// Returns numbers of octets as numbers of 64 bits.
fn numbers_of(alloc: Global, octets: &[usize]) -> Result<Vec<u64>, AllocError> {
    let mut numbers = Vec::new(alloc);
    for count in octets {
        numbers.push(*count as u64)?;
    }
    Ok(numbers)
}

/// Returns the output of a call, the summaries of the meters that are left, and the lines of numbers. `errors` are the
/// error counts of the source and of the sink, and `reads` the octets that were written before each read.
pub fn text_of(
    alloc: Global,
    gate: &TestedGate,
    ended: &Ended,
    left: &Left,
    written: &[u8],
    errors: (u64, u64),
    reads: &[usize],
) -> Result<Vec<u8>, AllocError> {
    let mut out = written.to_vec(alloc)?;
    out.extend_from_slice(b"left\n")?;
    out.extend_from_slice(left.text.as_slice())?;
    let (read_errors, write_errors) = errors;
    let numbers = [
        u64::from(ended.status),
        ended.events as u64,
        u64::from(ended.last),
        u64::from(ended.has_engine),
        left.on as u64,
        left.spare as u64,
        read_errors,
        write_errors,
    ];
    push_numbers(alloc, b"ended", &numbers, &mut out)?;
    let record = gate.record(alloc)?;
    push_numbers(alloc, b"gate", record.as_slice(), &mut out)?;
    let reads = numbers_of(alloc, reads)?;
    push_numbers(alloc, b"reads", reads.as_slice(), &mut out)?;
    Ok(out)
}
