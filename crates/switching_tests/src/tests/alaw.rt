//! A-law octets and values, compared with another program's.
use alaw_codec::{CodeTable, compress, expand};
use std::alloc::AllocError;

/// The 256 octets as Python's `audioop.alaw2lin` decodes them into sixteen bits: eight times the
/// values of table 1a.
static DECODED: [i16; 256] = [
    -5504, -5248, -6016, -5760, -4480, -4224, -4992, -4736, -7552, -7296, -8064, -7808, -6528,
    -6272, -7040, -6784, -2752, -2624, -3008, -2880, -2240, -2112, -2496, -2368, -3776, -3648,
    -4032, -3904, -3264, -3136, -3520, -3392, -22016, -20992, -24064, -23040, -17920, -16896,
    -19968, -18944, -30208, -29184, -32256, -31232, -26112, -25088, -28160, -27136, -11008, -10496,
    -12032, -11520, -8960, -8448, -9984, -9472, -15104, -14592, -16128, -15616, -13056, -12544,
    -14080, -13568, -344, -328, -376, -360, -280, -264, -312, -296, -472, -456, -504, -488, -408,
    -392, -440, -424, -88, -72, -120, -104, -24, -8, -56, -40, -216, -200, -248, -232, -152, -136,
    -184, -168, -1376, -1312, -1504, -1440, -1120, -1056, -1248, -1184, -1888, -1824, -2016, -1952,
    -1632, -1568, -1760, -1696, -688, -656, -752, -720, -560, -528, -624, -592, -944, -912, -1008,
    -976, -816, -784, -880, -848, 5504, 5248, 6016, 5760, 4480, 4224, 4992, 4736, 7552, 7296, 8064,
    7808, 6528, 6272, 7040, 6784, 2752, 2624, 3008, 2880, 2240, 2112, 2496, 2368, 3776, 3648, 4032,
    3904, 3264, 3136, 3520, 3392, 22016, 20992, 24064, 23040, 17920, 16896, 19968, 18944, 30208,
    29184, 32256, 31232, 26112, 25088, 28160, 27136, 11008, 10496, 12032, 11520, 8960, 8448, 9984,
    9472, 15104, 14592, 16128, 15616, 13056, 12544, 14080, 13568, 344, 328, 376, 360, 280, 264,
    312, 296, 472, 456, 504, 488, 408, 392, 440, 424, 88, 72, 120, 104, 24, 8, 56, 40, 216, 200,
    248, 232, 152, 136, 184, 168, 1376, 1312, 1504, 1440, 1120, 1056, 1248, 1184, 1888, 1824, 2016,
    1952, 1632, 1568, 1760, 1696, 688, 656, 752, 720, 560, 528, 624, 592, 944, 912, 1008, 976, 816,
    784, 880, 848,
];

/// Values and their octets by Python's `audioop.lin2alaw`, given eight times the value: the ends of
/// the segments and their neighbours. It codes zero as positive and clips, as this crate does.
static ENCODED: [(i32, u8); 52] = [
    (0, 0xD5),
    (1, 0xD5),
    (2, 0xD4),
    (3, 0xD4),
    (30, 0xDA),
    (31, 0xDA),
    (32, 0xC5),
    (33, 0xC5),
    (63, 0xCA),
    (64, 0xF5),
    (65, 0xF5),
    (127, 0xFA),
    (128, 0xE5),
    (129, 0xE5),
    (255, 0xEA),
    (256, 0x95),
    (257, 0x95),
    (511, 0x9A),
    (512, 0x85),
    (513, 0x85),
    (1023, 0x8A),
    (1024, 0xB5),
    (1025, 0xB5),
    (2047, 0xBA),
    (2048, 0xA5),
    (2049, 0xA5),
    (2175, 0xA5),
    (2176, 0xA4),
    (3967, 0xAB),
    (3968, 0xAA),
    (4032, 0xAA),
    (4095, 0xAA),
    (-1, 0x55),
    (-3, 0x54),
    (-31, 0x5A),
    (-33, 0x45),
    (-63, 0x4A),
    (-65, 0x75),
    (-127, 0x7A),
    (-129, 0x65),
    (-255, 0x6A),
    (-257, 0x15),
    (-511, 0x1A),
    (-513, 0x05),
    (-1023, 0x0A),
    (-1025, 0x35),
    (-2047, 0x3A),
    (-2049, 0x25),
    (-3967, 0x2B),
    (-3969, 0x2A),
    (-4032, 0x2A),
    (-4095, 0x2A),
];

// Returns whether each octet has an eighth of its entry as its value.
fn decode_so(decoded: &[i16; 256]) -> bool {
    for octet in 0..=255u8 {
        if 8 * expand(octet) != i32::from(decoded[usize::from(octet)]) {
            return false;
        }
    }
    true
}

#[test]
fn octets_decode_as_elsewhere(rt: HostRuntime) {
    assert!(rt; decode_so(&DECODED));
}

/// Values that the standard leaves open, and their octets here: a decision value is the lower end of its interval, also
/// below zero, and the highest interval has no end.
static LEFT_OPEN: [(i32, u8); 5] = [
    (-64, 0x75),
    (9000, 0xAA),
    (-9000, 0x2A),
    (i32::MAX, 0xAA),
    (i32::MIN, 0x2A),
];

// Returns whether a value has this octet, by search and by the table.
fn is_coded(codes: &CodeTable, value: i32, octet: u8) -> bool {
    compress(value) == octet && codes.compress(value) == octet
}

// Returns whether each value has its octet.
fn are_coded(codes: &CodeTable, rows: &[(i32, u8)]) -> bool {
    for (value, octet) in rows {
        if !is_coded(codes, *value, *octet) {
            return false;
        }
    }
    true
}

#[test]
fn values_encode_as_elsewhere(rt: HostRuntime) -> Result<(), AllocError> {
    let codes = CodeTable::new(rt.alloc())?;
    assert!(&rt; are_coded(&codes, &ENCODED) && are_coded(&codes, &LEFT_OPEN));
    Ok(())
}
