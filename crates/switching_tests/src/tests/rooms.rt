//! Conference rooms, compared with the sums of another program.
use alaw_codec::CodeTable;
use conference_mix::{MAX_MEMBERS, Mixer, RoomMember, mix};
use std::alloc::AllocError;

/// Five members, and the octet that each hears: the other octets decoded, added and encoded again by Python's `audioop`
/// (`alaw2lin`, `add`, `lin2alaw`, at sixteen bits), which saturates as this bridge does.
static MIXED: [([Option<u8>; 5], [u8; 5]); 6] = [
    (
        [None, Some(0xCA), Some(0x18), Some(0x25), Some(0x30)],
        [0x2B, 0x2B, 0x2F, 0x3E, 0x26],
    ),
    (
        [None, Some(0x13), Some(0x2C), Some(0xDE), Some(0xD6)],
        [0x29, 0x2C, 0x11, 0x29, 0x29],
    ),
    (
        [Some(0xD9), Some(0x1E), Some(0x3F), Some(0x72), Some(0x1F)],
        [0x21, 0x24, 0x08, 0x26, 0x24],
    ),
    (
        [Some(0x19), Some(0x71), Some(0x17), Some(0x44), None],
        [0x1C, 0x0D, 0x04, 0x0F, 0x0E],
    ),
    (
        [None, Some(0x5C), Some(0x34), Some(0x60), Some(0xBE)],
        [0x99, 0x98, 0xBD, 0x86, 0x31],
    ),
    (
        [Some(0x1E), Some(0x69), Some(0xFE), None, Some(0xA0)],
        [0xA1, 0xA7, 0xA5, 0xA4, 0x04],
    ),
];

/// Rooms of other sizes. The loudest positive octet three times: each sum of two, 8064, saturates. If one of them is as
/// loud below zero, the sum of the two others is 0, which is the idle octet, and the third still saturates. A total
/// that saturated before the own value is subtracted would give other octets. The only member of a room hears the idle
/// octet, and two members hear each other unchanged.
const ROOMS: [(&[Option<u8>], &[u8]); 9] = [
    (&[Some(0xAA), Some(0xAA), Some(0xAA)], &[0xAA, 0xAA, 0xAA]),
    (&[Some(0xAA), Some(0xAA), Some(0x2A)], &[0xD5, 0xD5, 0xAA]),
    (&[Some(0x11)], &[0xD5]),
    (&[Some(0x11), Some(0x91)], &[0x91, 0x11]),
    (&[Some(0x12), Some(0x92)], &[0x92, 0x12]),
    (&[Some(0x11), None], &[0xD5, 0x11]),
    (&[], &[]),
    (&[Some(0x2A); MAX_MEMBERS], &[0x2A; MAX_MEMBERS]),
    (&[None; MAX_MEMBERS], &[0xD5; MAX_MEMBERS]),
];

// Returns whether the members of a room hear these octets.
fn sounds(members: &[Option<u8>], heard: &[u8]) -> bool {
    if members.len() > MAX_MEMBERS {
        return false;
    }
    let mut out = [0; MAX_MEMBERS];
    mix(members, &mut out[..members.len()]);
    &out[..members.len()] == heard
}

fn five_sound_so(rows: &[([Option<u8>; 5], [u8; 5])]) -> bool {
    for (members, heard) in rows {
        if !sounds(members, heard) {
            return false;
        }
    }
    true
}

fn all_sound_so(rows: &[(&[Option<u8>], &[u8])]) -> bool {
    for (members, heard) in rows {
        if !sounds(members, heard) {
            return false;
        }
    }
    true
}

#[test]
fn rooms_sound_as_elsewhere(rt: HostRuntime) {
    let mixed = MIXED;
    assert!(rt; five_sound_so(&mixed));
    assert!(rt; all_sound_so(&ROOMS));
}

// Returns the octets that are heard if these five members are in one room, five loud ones in another, port by port in
// turn, and no member at a last port.
fn heard_beside(codes: &CodeTable, members: &[Option<u8>; 5]) -> [u8; 11] {
    let mut mixer = Mixer::new(11);
    for k in 0..5 {
        let octet = members[k];
        mixer.add(2 * k, RoomMember { room: 0, octet });
        let octet = Some(0xAA);
        mixer.add(2 * k + 1, RoomMember { room: 255, octet });
    }
    let mut out = [0; 11];
    mixer.mix(codes, &mut out);
    out
}

// Returns whether five members hear the octets of a room by itself, and the loud ones and the last port theirs.
fn sounds_beside(codes: &CodeTable, members: &[Option<u8>; 5], heard: &[u8; 5]) -> bool {
    let [a, v, b, w, c, x, d, y, e, z, free] = heard_beside(codes, members);
    [a, b, c, d, e] == *heard && [v, w, x, y, z, free] == [0xAA, 0xAA, 0xAA, 0xAA, 0xAA, 0xD5]
}

fn all_sound_beside(codes: &CodeTable, rows: &[([Option<u8>; 5], [u8; 5])]) -> bool {
    for (members, heard) in rows {
        if !sounds_beside(codes, members, heard) {
            return false;
        }
    }
    true
}

/// Members of two rooms in turn, and a port without a member: each room sounds as it does by itself.
#[test]
fn rooms_do_not_hear_each_other(rt: HostRuntime) -> Result<(), AllocError> {
    let mixed = MIXED;
    let codes = CodeTable::new(rt.alloc())?;
    assert!(rt; all_sound_beside(&codes, &mixed));
    Ok(())
}
