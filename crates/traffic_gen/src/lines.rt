//! The lines of a generated trace, and their words.
ghost use Rattle.std.specs.Prelude.{◌≡◌, ◌<◌, ℕ, List, [], ◌∷◌, ◌++◌, decimal, slice_index, OnOk};
ghost use Rattle.hex.specs.Hex.{encode_upper, upper_digits};
ghost use Rattle.traffic_gen.specs.Calls.{message_of};
ghost use Rattle.traffic_gen.specs.Lines.{part_text, channel_at, slot_text, text};
ghost use Rattle.traffic_gen.specs.Lines.{Nail, Sync};

use itoa::Buffer;
use std::alloc::AllocError;

/// Appends a message that arrives on a line, given by its hexadecimal digits, as a segment.
#[tactic(auto, unfolding(crate::specs::Lines::text))]
pub fn put_message(out: &mut Vec<u8>, line: u8, digits: &[u8]) -> Result<(), AllocError>
    ensures { (octets : List ℕ) → digits.now ≡ encode_upper octets → OnOk result (out.new.items ≡ out.old.items ++ text (message_of line octets)) }
{
    out.extend_from_slice(b"M ")?;
    put_number(out, line)?;
    out.extend_from_slice(b" ")?;
    out.extend_from_slice(digits)?;
    out.extend_from_slice(b"\nsync\n")
}

/// Appends the end of a segment.
#[tactic(auto, unfolding(crate::specs::Lines::text))]
pub fn put_sync(out: &mut Vec<u8>) -> Result<(), AllocError>
    ensures { OnOk result (out.new.items ≡ out.old.items ++ text (Sync ∷ [])) }
{
    out.extend_from_slice(b"sync\n")
}

/// Appends the octets of a line in a frame.
pub fn put_part(out: &mut Vec<u8>, line: u8, octets: &[u8; 30]) -> Result<(), AllocError>
    ensures { OnOk result (out.new.items ≡ out.old.items ++ part_text (record { line = line; octets = octets.now })) }
{
    out.extend_from_slice(b" ")?;
    put_number(out, line)?;
    out.extend_from_slice(b":")?;
    out.extend_from_slice(&hex_digits(octets))
}

/// Appends a line that nails two slots at one place.
#[tactic(auto, unfolding(crate::specs::Lines::text))]
pub fn put_nail(out: &mut Vec<u8>, one: u8, other: u8, place: u8) -> Result<(), AllocError>
    requires { place < 30 }
    ensures { OnOk result (out.new.items ≡ out.old.items ++ text (Nail one other place ∷ [])) }
{
    out.extend_from_slice(b"nail ")?;
    put_slot(out, one, place)?;
    out.extend_from_slice(b" ")?;
    put_slot(out, other, place)?;
    out.extend_from_slice(b"\n")
}

// Appends a slot: its line and the number of its channel.
fn put_slot(out: &mut Vec<u8>, line: u8, place: u8) -> Result<(), AllocError>
    requires { place < 30 }
    ensures { OnOk result (out.new.items ≡ out.old.items ++ slot_text line place) }
{
    put_number(out, line)?;
    out.extend_from_slice(b"/")?;
    put_number(out, channel_at(place))
}

// Returns the bearer channel at a place. Channel 16 has the signalling.
fn channel_at(place: u8) -> u8
    requires { place < 30 }
    ensures { result ≡ channel_at place }
{
    if place < 15 { place + 1 } else { place + 2 }
}

/// Appends a number.
pub fn put_number(out: &mut Vec<u8>, number: u8) -> Result<(), AllocError>
    ensures { OnOk result (out.new.items ≡ out.old.items ++ decimal number) }
{
    let mut buffer = Buffer::new();
    out.extend_from_slice(buffer.format(number).as_bytes())
}

// Returns the octets of a line as hexadecimal digits, two each.
fn hex_digits(octets: &[u8; 30]) -> [u8; 60]
    ensures { result ≡ encode_upper octets.now }
{
    let mut digits = [0; 60];
    for place in 0..30 {
        let octet = octets[place];
        digits[2 * place] = digit(octet >> 4);
        digits[2 * place + 1] = digit(octet & 0x0F);
    }
    digits
}

// Returns the hexadecimal digit of a value, in upper case.
fn digit(value: u8) -> u8
    requires { value < 16 }
    ensures { result ≡ slice_index upper_digits value }
{
    value + if value > 9 { b'A' - 10 } else { b'0' }
}
