//! A full bridge of four rooms.
use alaw_codec::CodeTable;
use conference_mix::{MAX_MEMBERS, Mixer, RoomMember};
use std::alloc::{AllocError, Global};

/// Mixes a full bridge n times, and returns a checksum of the mixed octets.
pub fn run(alloc: Global, rounds: u32) -> Result<u32, AllocError> {
    let codes = CodeTable::new(alloc)?;
    Ok(sum_heard(&codes, rounds))
}

// Mixes the octets that the members sent: each fourth place is of one room.
fn mix(codes: &CodeTable, octets: &[Option<u8>; MAX_MEMBERS], out: &mut [u8; MAX_MEMBERS]) {
    let mut mixer = Mixer::new(MAX_MEMBERS);
    for place in 0..MAX_MEMBERS {
        let room = (place % 4) as u8;
        let octet = octets[place];
        mixer.add(place, RoomMember { room, octet });
    }
    mixer.mix(codes, out);
}

// Folds the octets that place 0 receives in n rounds into a number.
//
// In each round one member repeats the octet that it received, so no round can be left out.
fn sum_heard(codes: &CodeTable, rounds: u32) -> u32 {
    let mut octets = [Some(0x2A); MAX_MEMBERS];
    let mut out = [0; MAX_MEMBERS];
    let mut sum = 0u32;
    for round in 0..rounds {
        mix(codes, &octets, &mut out);
        let place = round as usize % MAX_MEMBERS;
        octets[place] = if round % 7 == 0 {
            None
        } else {
            Some(out[place] ^ (round % 251) as u8)
        };
        sum = sum.wrapping_mul(31).wrapping_add(u32::from(out[0]));
    }
    sum
}
