//! A generated trace: its header, its numbers, its nails and its calls.
ghost use Rattle.std.specs.Prelude.{◌≡◌, ◌<◌, ◌≤◌, [], ◌∷◌, ◌++◌, OnOk, IfOk};
ghost use Rattle.traffic_gen.specs.Calls.{calls_drawn};
ghost use Rattle.traffic_gen.specs.Lines.{Header, text};
ghost use Rattle.traffic_gen.specs.Traffic.{header, nails, nails_at, number_line, room_line, traffic};

use crate::call::Call;
use crate::draws::Draws;
use crate::lines::{put_nail, put_number, put_sync};
use std::alloc::{AllocError, Global};

// Capacity in octets for the lines before the first call, and for the lines of a call: a call of three frames in which
// two lines send has 517. All of it is reserved at once, so that nothing grows while lines are written.
const ROOM_BEFORE: usize = 1500;

const ROOM_OF_A_CALL: usize = 520;

/// Generates the trace of a seed with n calls, 1 to 2000, as octets: lines, each with a line feed at its end.
///
/// The exchange has eight external lines, one bridge line and four call processors. The lines 0 to 3 are nailed to the
/// lines 4 to 7 at 20 places of each. Then each call is set up, lasts one to three frames, and is cleared by its caller
/// before the next one begins.
///
/// # Errors
///
/// [`AllocError`] if an allocation fails.
pub fn generate(alloc: Global, seed: u64, calls: u32) -> Result<Vec<u8>, AllocError>
    requires some { 1 ≤ calls }
    requires most { calls ≤ 2000 }
    ensures { IfOk result (λ out. out.items ≡ traffic seed calls) }
{
    let room = ROOM_BEFORE + ROOM_OF_A_CALL * calls as usize;
    let mut out = Vec::with_capacity(alloc, room)?;
    put_header(&mut out)?;
    put_nails(&mut out)?;
    put_sync(&mut out)?;
    put_calls(&mut out, seed, calls)?;
    Ok(out)
}

// Appends the sizes of the exchange, and the number plan.
fn put_header(out: &mut Vec<u8>) -> Result<(), AllocError>
    ensures { OnOk result (out.new.items ≡ out.old.items ++ text header) }
{
    put_sizes(out)?;
    for line in 0..8 {
        put_number_line(out, line)?;
    }
    put_room_line(out)
}

fn put_sizes(out: &mut Vec<u8>) -> Result<(), AllocError>
    ensures { OnOk result (out.new.items ≡ out.old.items ++ text (Header 8 1 4 ∷ [])) }
{
    out.extend_from_slice(b"exchange 1 8 1 4\n")
}

// Appends the number of the conference room.
fn put_room_line(out: &mut Vec<u8>) -> Result<(), AllocError>
    ensures { OnOk result (out.new.items ≡ out.old.items ++ text (room_line ∷ [])) }
{
    out.extend_from_slice(b"number 30 room 0\n")
}

// Appends the number of a line.
#[tactic(auto, unfolding(crate::specs::Lines::text))]
fn put_number_line(out: &mut Vec<u8>, line: u8) -> Result<(), AllocError>
    ensures { OnOk result (out.new.items ≡ out.old.items ++ text (number_line line ∷ [])) }
{
    out.extend_from_slice(b"number 2")?;
    put_number(out, line)?;
    out.extend_from_slice(b" line ")?;
    put_number(out, line)?;
    out.extend_from_slice(b"\n")
}

// Appends the nails of all places.
fn put_nails(out: &mut Vec<u8>) -> Result<(), AllocError>
    ensures { OnOk result (out.new.items ≡ out.old.items ++ text nails) }
{
    for place in 10..30 {
        put_nails_at(out, place)?;
    }
    Ok(())
}

// Appends the nails of one place.
fn put_nails_at(out: &mut Vec<u8>, place: u8) -> Result<(), AllocError>
    requires { place < 30 }
    ensures { OnOk result (out.new.items ≡ out.old.items ++ text (nails_at place)) }
{
    for line in 0..4 {
        put_nail(out, line, 4 + (line + place) % 4, place)?;
    }
    Ok(())
}

// Appends the calls in sequence.
fn put_calls(out: &mut Vec<u8>, seed: u64, calls: u32) -> Result<(), AllocError>
    ensures { OnOk result (out.new.items ≡ out.old.items ++ text (calls_drawn calls seed)) }
{
    let mut draws = Draws::from_seed(seed);
    for _ in 0..calls {
        let call = Call::drawn(&mut draws);
        call.put(out, &mut draws)?;
    }
    Ok(())
}
