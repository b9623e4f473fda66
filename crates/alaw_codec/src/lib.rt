//! Converts octets to values and back, by the A-law code of ITU-T G.711 (11/88), table 1a.
//!
//! Values are in the units of the table, in which the last decision value is 4096. The definition searches the list of
//! decision values. The code reads the value of an octet from a table, and takes the segment of a value from the
//! leading bit of its magnitude.
//!
//! - [`expand`] returns the value that the definition gives an octet (`value`). Its magnitude is at most 4032
//!   (`within`).
//! - [`compress`] returns the octet that the definition gives an `i32`. [`CodeTable::compress`] returns the same octet
//!   by one lookup in a table.
//! - Coding the value of an octet gives the octet again ([`law_of_round_trip`]).
#![tactic(auto)]

ghost use Rattle.std.specs.Prelude.{◌≡◌, ℕ, ◌<◌, ◌≤◌, nat_abs};
ghost use Rattle.circuit_model.specs.ALaw.{interval_of, expand, compress};

mod code_table;

pub use code_table::CodeTable;

/// The even bits of an octet, counted from 1 at the top. They are inverted on the line (table 1a, note 2).
const EVEN_BITS: u8 = 0x55;

/// The first bit of a character, before the inversion: set for a positive value.
const POSITIVE: u8 = 0x80;

/// The greatest magnitude that has an interval. Those beyond it take the highest interval.
const MAX_MAGNITUDE: u32 = 4095;

/// The value of each octet, in the order of the octets on the line. Decoding by a table is about twice as fast as
/// arithmetic.
static VALUES: [i16; 256] = [
    // negative, segment 5
    -688, -656, -752, -720, -560, -528, -624, -592, -944, -912, -1008, -976, -816, -784, -880,
    -848,
    // negative, segment 4
    -344, -328, -376, -360, -280, -264, -312, -296, -472, -456, -504, -488, -408, -392, -440, -424,
    // negative, segment 7
    -2752, -2624, -3008, -2880, -2240, -2112, -2496, -2368, -3776, -3648, -4032, -3904, -3264,
    -3136, -3520, -3392,
    // negative, segment 6
    -1376, -1312, -1504, -1440, -1120, -1056, -1248, -1184, -1888, -1824, -2016, -1952, -1632,
    -1568, -1760, -1696,
    // negative, segment 1
    -43, -41, -47, -45, -35, -33, -39, -37, -59, -57, -63, -61, -51, -49, -55, -53,
    // negative, segment 0
    -11, -9, -15, -13, -3, -1, -7, -5, -27, -25, -31, -29, -19, -17, -23, -21,
    // negative, segment 3
    -172, -164, -188, -180, -140, -132, -156, -148, -236, -228, -252, -244, -204, -196, -220, -212,
    // negative, segment 2
    -86, -82, -94, -90, -70, -66, -78, -74, -118, -114, -126, -122, -102, -98, -110, -106,
    // positive, segment 5
    688, 656, 752, 720, 560, 528, 624, 592, 944, 912, 1008, 976, 816, 784, 880, 848,
    // positive, segment 4
    344, 328, 376, 360, 280, 264, 312, 296, 472, 456, 504, 488, 408, 392, 440, 424,
    // positive, segment 7
    2752, 2624, 3008, 2880, 2240, 2112, 2496, 2368, 3776, 3648, 4032, 3904, 3264, 3136, 3520, 3392,
    // positive, segment 6
    1376, 1312, 1504, 1440, 1120, 1056, 1248, 1184, 1888, 1824, 2016, 1952, 1632, 1568, 1760, 1696,
    // positive, segment 1
    43, 41, 47, 45, 35, 33, 39, 37, 59, 57, 63, 61, 51, 49, 55, 53,
    // positive, segment 0
    11, 9, 15, 13, 3, 1, 7, 5, 27, 25, 31, 29, 19, 17, 23, 21,
    // positive, segment 3
    172, 164, 188, 180, 140, 132, 156, 148, 236, 228, 252, 244, 204, 196, 220, 212,
    // positive, segment 2
    86, 82, 94, 90, 70, 66, 78, 74, 118, 114, 126, 122, 102, 98, 110, 106,
];

/// Returns the value of an octet: the middle of its interval, with its sign, from -4032 to 4032 and never 0.
///
/// Source: ITU-T G.711 (11/88), table 1a, columns 6 and 7.
pub fn expand(octet: u8) -> i32
    ensures value { result ≡ expand octet }
    ensures within { nat_abs result ≤ 4032 }
{
    i32::from(VALUES[usize::from(octet)])
}

/// Returns the octet of a value: its sign, and the interval of its magnitude.
///
/// Zero is positive. A decision value belongs to the interval above it in magnitude, for both signs. A magnitude beyond
/// 4095 has the highest interval. The standard leaves these three choices open. The rest is ITU-T G.711 (11/88), table
/// 1a.
pub fn compress(value: i32) -> u8
    ensures { result ≡ compress value }
{
    let sign = if value < 0 { 0 } else { POSITIVE };
    let magnitude = value.unsigned_abs().min(MAX_MAGNITUDE);
    (sign + interval_number(magnitude)) ^ EVEN_BITS
}

/// Returns the number of the interval of a magnitude, from 0 to 127.
fn interval_number(magnitude: u32) -> u8
    requires { magnitude < 4096 }
    ensures below { result < 128 }
    ensures number { result ≡ interval_of magnitude }
{
    // From 32 on each segment has 16 intervals of one width, and its leading bit identifies it. Below 32 the intervals
    // are as wide as in the segment above, so the same sum numbers them.
    let segment = 27 - (magnitude | 32).leading_zeros();
    (16 * (segment - 1) + (magnitude >> segment)) as u8
}

/// Theorem: compressing the value of an octet gives the octet again, for all 256 octets.
pub fn law_of_round_trip()
    ensures { (octet : ℕ) → octet < 256 → compress (expand octet) ≡ octet }
{}
