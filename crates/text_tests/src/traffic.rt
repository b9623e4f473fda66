// Traces compared with another program's traces, and with Adler-32 sums of its octets by zlib.
use std::alloc::{AllocError, Global};
use std::test::Fail;
use traffic_gen::generate;

// The seed of a trace of one call, the index of a line, and the line.
const LINES: [(u64, usize, &str); 15] = [
    (0, 0, "exchange 1 8 1 4"),
    (0, 8, "number 27 line 7"),
    (0, 9, "number 30 room 0"),
    (0, 10, "nail 0/11 6/11"),
    (0, 89, "nail 3/31 4/31"),
    (0, 90, "sync"),
    // Line 7 calls line 3, and both send.
    (0, 91, "M 7 080200010504038090A37003803233"),
    (0, 93, "M 3 0802800107"),
    (
        0,
        96,
        "F 7:5629CE02C3D43EA1C638F35CF804FEE9135075F16ABD24677879BD10566F 3:D93E87F87DC5C0E51CF247AFD399620DAFDEFB635E6CAA951D894E8E9EFC",
    ),
    (0, 98, "M 7 080200014508028090"),
    (0, 102, "M 3 080280014D"),
    (0, 104, ""),
    // Line 7 calls the room, and itself.
    (6, 91, "M 7 080200010504038090A37003803330"),
    (
        6,
        93,
        "F 7:1FFCAB06E492575792CA8E57B42D65F38D9B48273AADFBA55007CE31DB64",
    ),
    (
        18,
        95,
        "F 7:741ACCA120F6CE6714522F9EDFF40CA261756FD7D9EE7C0DC2EE6DC1F379",
    ),
];

// A seed and a number of calls, and the number of octets of the trace and their sum.
const SUMS: [(u64, u32, usize, u32); 7] = [
    (0, 1, 1764, 979084483),
    (6, 1, 1533, 2721345699),
    (18, 1, 1638, 3611396333),
    (1, 3, 2416, 3939186180),
    (7, 50, 17226, 2398960013),
    (18446744073709551615, 5, 3093, 3938569741),
    (4294967295, 2000, 710474, 1273983832),
];

// Returns whether a text has this line at an index.
fn has_line(text: &[u8], index: usize, line: &str) -> bool {
    text.split(|octet| *octet == b'\n').nth(index) == Some(line.as_bytes())
}

// Returns the Adler-32 sum of octets (RFC 1950).
fn adler32(octets: &[u8]) -> u32 {
    let mut low: u32 = 1;
    let mut high: u32 = 0;
    for octet in octets {
        low = low.wrapping_add(u32::from(*octet)) % 65521;
        high = high.wrapping_add(low) % 65521;
    }
    high.wrapping_mul(65536).wrapping_add(low)
}

fn have_lines(alloc: Global, rows: &[(u64, usize, &str)]) -> Result<bool, AllocError> {
    for (seed, index, line) in rows {
        let text = generate(alloc, *seed, 1)?;
        if !has_line(text.as_slice(), *index, line) {
            return Ok(false);
        }
    }
    Ok(true)
}

#[test]
fn each_line_stands_at_its_place(rt: HostRuntime) -> Result<(), Fail> {
    assert!(rt; have_lines(rt.alloc(), &LINES)?);
    Ok(())
}

fn sum_up(alloc: Global, rows: &[(u64, u32, usize, u32)]) -> Result<bool, AllocError> {
    for (seed, calls, length, sum) in rows {
        let calls = *calls;
        if calls < 1 || calls > 2000 {
            return Ok(false);
        }
        let text = generate(alloc, *seed, calls)?;
        if text.len() != *length || adler32(text.as_slice()) != *sum {
            return Ok(false);
        }
    }
    Ok(true)
}

#[test]
fn the_octets_sum_up(rt: HostRuntime) -> Result<(), Fail> {
    assert!(rt; sum_up(rt.alloc(), &SUMS)?);
    Ok(())
}
