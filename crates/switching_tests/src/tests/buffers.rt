//! Speech memories, highways and the delay line: each returns the octets that were written.
ghost use Rattle.std.specs.Prelude.{◌≡◌};

use circuit_model::{IDLE, Slot};
use frame_buffer::{Crossed, DelayLine, FrameBuffer, Highway};
use std::alloc::AllocError;

// Returns the octet that the last slot of the second line receives in a frame in which the lines send these octets.
fn heard_in_frame(line: &mut DelayLine, sent: [Option<u8>; 2]) -> u8
    requires { line.old.external ≡ 2 }
    ensures { line.new.external ≡ 2 }
{
    let heard = line.back_two(Slot { line: 1, place: 29 });
    line.push(&[
        sent[0].map(|octet| [octet; 30]),
        sent[1].map(|octet| [octet; 30]),
    ]);
    heard
}

#[test]
fn two_frames_late(rt: HostRuntime) -> Result<(), AllocError> {
    let mut line = DelayLine::new(rt.alloc(), 2)?;
    let heard = [
        heard_in_frame(&mut line, [None, Some(0x11)]),
        heard_in_frame(&mut line, [Some(0x22), None]),
        heard_in_frame(&mut line, [None, Some(0x33)]),
        heard_in_frame(&mut line, [None, None]),
        heard_in_frame(&mut line, [None, None]),
    ];
    assert!(&rt; heard == [IDLE, IDLE, 0x11, IDLE, 0x33]);
    Ok(())
}

// Fills a line with an octet, and swaps the halves. Returns the octets that are read from the line before and after.
fn heard_around_swap(buffer: &mut FrameBuffer, octet: u8) -> (u8, u8)
    requires { buffer.old.lines ≡ 2 }
    ensures { buffer.new.lines ≡ 2 }
{
    let at = Slot { line: 1, place: 0 };
    buffer.put_line(1, &[octet; 30]);
    let before = buffer.get(at);
    buffer.swap();
    (before, buffer.get(at))
}

#[test]
fn halves_change_places(rt: HostRuntime) -> Result<(), AllocError> {
    let mut buffer = FrameBuffer::new(rt.alloc(), 2)?;
    let heard = [
        heard_around_swap(&mut buffer, 0x11),
        heard_around_swap(&mut buffer, 0x22),
    ];
    assert!(&rt; heard == [(IDLE, 0x11), (0x11, 0x22)]);
    Ok(())
}

#[test]
fn highways_hold_octets(rt: HostRuntime) -> Result<(), AllocError> {
    let mut highway = Highway::new(rt.alloc(), 2, 3)?;
    let mut crossed = Crossed::new(rt.alloc(), 2, 3)?;
    highway.set(1, 2, 0x11);
    crossed.set(0, 1, highway.get(1, 2));
    assert!(&rt; crossed.get(0, 1) == 0x11);
    assert!(&rt; crossed.get(1, 0) == IDLE && highway.get(0, 0) == IDLE);
    Ok(())
}
