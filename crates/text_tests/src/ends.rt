// The results of consecutive calls, by the documented rules of the in-memory streams.
ghost use Rattle.std.specs.Prelude.{◌≤◌};

use ex_io::{MemSink, MemSource, Sink, Source};
use std::alloc::{AllocError, Global};
use std::test::Fail;

const TEXT: &[u8] = b"abcdefg";

// Returns whether a text is read in buffers of five bytes with these results, which are `None` if a read is to fail.
fn reads(
    alloc: Global,
    piece: usize,
    fails: &[u32],
    answers: &[Option<usize>],
) -> Result<bool, AllocError>
    requires { 1 ≤ piece }
{
    let mut source = MemSource::new(TEXT.to_vec(alloc)?, piece, fails.to_vec(alloc)?);
    let mut held = Vec::new(alloc);
    for answer in answers {
        let before = source.error_count();
        let mut buf = [0u8; 5];
        let count = source.read(&mut buf);
        if count.ok() != *answer || (source.error_count() > before) != count.is_err() {
            return Ok(false);
        }
        if let Ok(count) = count {
            held.extend_from_slice(&buf[..count])?;
        }
    }
    Ok(held.as_slice() == TEXT)
}

#[test]
fn a_source_gives_its_bytes_between_its_faults(rt: HostRuntime) -> Result<(), Fail> {
    let alloc = rt.alloc();
    let answers = [Some(3), Some(3), Some(1), Some(0), Some(0)];
    assert!(rt; reads(alloc, 3, &[], &answers)?);
    assert!(rt; reads(alloc, 9, &[], &[Some(5), Some(2), Some(0)])?);
    let answers = [None, Some(4), None, Some(3), Some(0)];
    assert!(rt; reads(alloc, 4, &[3, 1], &answers)?);
    let answers = [Some(5), Some(2), None, None, Some(0)];
    assert!(rt; reads(alloc, 9, &[3, 4], &answers)?);
    Ok(())
}

// Returns whether a text is written with these results, each time all that is left of it.
fn writes(
    alloc: Global,
    room: usize,
    piece: usize,
    fails: &[u32],
    answers: &[Option<usize>],
) -> Result<bool, AllocError>
    requires { 1 ≤ piece }
{
    let mut sink = MemSink::new(alloc, room, piece, fails.to_vec(alloc)?)?;
    let mut rest = TEXT;
    for answer in answers {
        let before = sink.error_count();
        let count = sink.write(rest);
        if count.ok() != *answer || (sink.error_count() > before) != count.is_err() {
            return Ok(false);
        }
        if let Ok(count) = count {
            rest = &rest[count..];
        }
        if TEXT.strip_prefix(sink.bytes()) != Some(rest) {
            return Ok(false);
        }
    }
    Ok(true)
}

#[test]
fn a_sink_takes_what_it_has_room_for(rt: HostRuntime) -> Result<(), Fail> {
    let alloc = rt.alloc();
    let answers = [Some(3), Some(3), Some(1), Some(0), Some(0)];
    assert!(rt; writes(alloc, 9, 3, &[], &answers)?);
    assert!(rt; writes(alloc, 7, 9, &[2, 4], &[Some(7), None, Some(0), None])?);
    let answers = [Some(2), None, Some(2), Some(1), None, None];
    assert!(rt; writes(alloc, 5, 2, &[2], &answers)?);
    assert!(rt; writes(alloc, 0, 1, &[], &[None])?);
    Ok(())
}
