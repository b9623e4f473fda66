// Texts that are written from their end, so that a line's words are appended at once.
ghost use Rattle.std.specs.Prelude.{◌≡◌, ◌++◌, ◌+◌, ◌≤◌, length, take, drop, codes, decimal, OnOk};

use itoa::write_digits;
use std::alloc::AllocError;

// The lines with numbers of one or two digits.
pub(crate) const NEAR_LINES: usize = 100;

// Writes octets before the text from `end` on, and returns their start.
pub(crate) fn put_before(text: &mut [u8], end: usize, octets: &[u8]) -> usize
    requires { (length octets.now ≤ end) × (end ≤ length text.old) }
    ensures start { result + length octets.now ≡ end }
    ensures size { length text.new ≡ length text.old }
    ensures written { drop result text.new ≡ octets.now ++ drop end text.old }
{
    let start = end - octets.len();
    text[start..end].copy_from_slice(octets);
    start
}

// Writes the digits of a number before the text from `end` on, and returns their start.
pub(crate) fn put_number_before(text: &mut [u8], end: usize, number: u32) -> usize
    requires { (10 ≤ end) × (end ≤ length text.old) }
    ensures start { result ≤ end }
    ensures room { end ≤ result + 10 }
    ensures size { length text.new ≡ length text.old }
    ensures written { drop result text.new ≡ decimal number ++ drop end text.old }
{
    write_digits(u64::from(number), text, end)
}

// Writes the number of a line before the text from `end` on, as it precedes its octets.
#[inline(always)]
pub(crate) fn put_line_before(text: &mut [u8], end: usize, line: usize) -> usize
    requires { (length (decimal line) + 2 ≤ end) × (end ≤ length text.old) }
    ensures start { result + length (decimal line) + 2 ≡ end }
    ensures size { length text.new ≡ length text.old }
    ensures written { drop result text.new ≡ codes " " ++ decimal line ++ codes ":" ++ drop end text.old }
{
    text[end - 1] = b':';
    let start = write_digits(line as u64, text, end - 1) - 1;
    text[start] = b' ';
    start
}

// Appends the first octets of a text. If the length of the text is known at compile time, no copy has a length that is
// not.
#[inline(always)]
pub(crate) fn append_front(out: &mut Vec<u8>, text: &[u8], count: usize) -> Result<(), AllocError>
    requires { count ≤ length text.now }
    ensures front_of_text { OnOk result (out.new.items ≡ out.old.items ++ take count text.now) }
    ensures front { take (length out.old.items) out.new.items ≡ out.old.items }
{
    out.extend_from_slice(text)?;
    let end = out.len() - (text.len() - count);
    out.truncate(end);
    Ok(())
}
