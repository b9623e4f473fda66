// Alternate reads and writes of a wire.
ghost use Rattle.std.specs.Prelude.{◌≡◌, ◌≤◌, ◌++◌, ℕ, List};

use ex_io::{MemSink, MemSource};
use line_wire::{MemWire, StdWire, Wire};
use std::alloc::{AllocError, Global};
use std::test::Fail;

const TEXT: &[u8] = b"one\ntwo\n\nfour";

// Reads, and writes all octets of the read, at a second attempt if it is allowed. Returns the number of octets of the
// read if it does not fail, and whether they are written.
fn pass(wire: &mut MemWire, again: bool) -> (Option<usize>, bool) {
    let mut buf = [0u8; 32];
    let Ok(count) = wire.read(&mut buf) else {
        return (None, false);
    };
    let octets = &buf[..count];
    let mut is_written = wire.write(octets) == Ok(count);
    if !is_written && again {
        is_written = wire.write(octets) == Ok(count);
    }
    (Some(count), is_written)
}

// Writes all octets of each read before the next read. Returns whether the output of the wire equals its input, and
// whether each note is the number of octets written by then. One read returns at most `piece` octets.
fn echoes(alloc: Global, piece: usize) -> Result<bool, AllocError>
    requires { 1 ≤ piece }
{
    let sink = MemSink::new(alloc, 64, 64, Vec::new(alloc))?;
    let mut wire = MemWire::new(alloc, TEXT, piece, Vec::new(alloc), sink, 16)?;
    let mut notes = Vec::new(alloc);
    for _ in 0..16 {
        notes.push(wire.bytes().len())?;
        if !pass(&mut wire, false).1 {
            return Ok(false);
        }
    }
    Ok(wire.bytes() == TEXT && wire.notes() == notes.as_slice())
}

#[test]
fn a_wire_records_the_octets_written_before_each_read(rt: HostRuntime) -> Result<(), Fail> {
    let alloc = rt.alloc();
    assert!(rt; echoes(alloc, 1)?);
    assert!(rt; echoes(alloc, 2)?);
    assert!(rt; echoes(alloc, 7)?);
    assert!(rt; echoes(alloc, 32)?);
    Ok(())
}

// Returns whether the reads of a wire have the results in `answers`, and whether all octets of each read are written at
// the second attempt. One read returns at most 5 octets. The reads and writes with the given numbers fail.
fn recovers(
    alloc: Global,
    reads: &[u32],
    writes: &[u32],
    answers: &[Option<usize>],
    notes: &[usize],
) -> Result<bool, AllocError> {
    let sink = MemSink::new(alloc, 64, 64, writes.to_vec(alloc)?)?;
    let mut wire = MemWire::new(alloc, TEXT, 5, reads.to_vec(alloc)?, sink, notes.len())?;
    for answer in answers {
        let (count, is_written) = pass(&mut wire, true);
        if count != *answer || (count.is_some() && !is_written) {
            return Ok(false);
        }
    }
    Ok(wire.bytes() == TEXT && wire.notes() == notes)
}

#[test]
fn a_wire_fails_at_the_given_calls(rt: HostRuntime) -> Result<(), Fail> {
    let alloc = rt.alloc();
    let answers = [Some(5), Some(5), Some(3), Some(0)];
    assert!(rt; recovers(alloc, &[], &[], &answers, &[0, 5, 10, 13])?);
    assert!(rt; recovers(alloc, &[], &[1, 3, 5], &answers, &[0, 5, 10])?);
    assert!(rt; !recovers(alloc, &[], &[1, 2], &answers, &[0, 5, 10, 13])?);
    let answers = [None, Some(5), Some(5), None, Some(3), None, Some(0)];
    assert!(rt;
        recovers(
            alloc,
            &[1, 4, 6],
            &[2],
            &answers,
            &[0, 0, 5, 10, 10, 13, 13]
        )?
    );
    Ok(())
}

#[test]
fn a_wire_over_a_source_and_a_sink_passes_octets_on(rt: HostRuntime) -> Result<(), Fail> {
    let alloc = rt.alloc();
    let source = MemSource::new(TEXT.to_vec(alloc)?, 32, Vec::new(alloc));
    let sink = MemSink::new(alloc, 64, 64, Vec::new(alloc))?;
    let mut wire = StdWire::new(source, sink);
    let mut buf = [0u8; 32];
    assert!(rt; wire.read(&mut buf) == Ok(13));
    assert!(rt; wire.write(&buf[..13]) == Ok(13));
    assert!(rt; wire.sink.bytes() == TEXT);
    assert!(rt; wire.read(&mut buf) == Ok(0));
    knows_its_octets(&wire);
    Ok(())
}

// A wire over in-memory streams has read the octets of its source and written the octets of its sink.
fn knows_its_octets(wire: &StdWire<MemSource, MemSink>)
    ensures heard { (heard said : List ℕ) → ⟦<StdWire<MemSource, MemSink> as Wire>⟧.stands wire.now heard said
        → wire.now.given.value.left ≡ heard ++ wire.now.source.left }
    ensures said { (heard said : List ℕ) → ⟦<StdWire<MemSource, MemSink> as Wire>⟧.stands wire.now heard said
        → wire.now.sink.written ≡ wire.now.had.value.written ++ said }
{
    let _ = wire;
}
