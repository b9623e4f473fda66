// Words, numbers and octets at the start of borrowed octets.
ghost use Rattle.std.specs.Prelude.{◌≡◌, option_map};
ghost use Rattle.report_reader.specs.Reading.{behind, digit_at, digit_value, parse_number, octet_at, octet_of, pair_at, pair_of, spaced_at};

/// Returns the octets after a word, if they begin with it.
pub(crate) fn behind<'a>(word: &[u8], octets: &'a [u8]) -> Option<&'a [u8]>
    ensures { option_map (λ rest. rest.now) result ≡ behind word.now octets.now }
{
    octets.strip_prefix(word)
}

// Returns the decimal digit at the start, and the octets after it.
fn digit_at(octets: &[u8]) -> Option<(u32, &[u8])>
    ensures { option_map (λ cut. (cut.0, cut.1.now)) result ≡ digit_at octets.now }
{
    let [octet, rest @ ..] = octets else {
        return None;
    };
    if !octet.is_ascii_digit() {
        return None;
    }
    Some((u32::from(*octet - b'0'), rest))
}

/// Returns the number at the start, and the octets after it. It has no leading zero and 32 bits.
pub fn parse_number(octets: &[u8]) -> Option<(u32, &[u8])>
    ensures { option_map (λ cut. (cut.0, cut.1.now)) result ≡ parse_number octets.now }
{
    let (mut number, mut rest) = digit_at(octets)?;
    while let Some((digit, others)) = digit_at(rest) {
        if number == 0 {
            return None;
        }
        number = number.checked_mul(10)?.checked_add(digit)?;
        rest = others;
    }
    Some((number, rest))
}

/// Returns the number at the start, after a space, and the octets after it.
pub(crate) fn spaced_at(octets: &[u8]) -> Option<(u32, &[u8])>
    ensures { option_map (λ cut. (cut.0, cut.1.now)) result ≡ spaced_at octets.now }
{
    parse_number(behind(b" ", octets)?)
}

/// Returns two numbers at the start, each after a space, and the octets after them.
pub(crate) fn pair_at(octets: &[u8]) -> Option<((u32, u32), &[u8])>
    ensures { option_map (λ cut. (cut.0, cut.1.now)) result ≡ pair_at octets.now }
{
    let (a, rest) = spaced_at(octets)?;
    let (b, rest) = spaced_at(rest)?;
    Some(((a, b), rest))
}

/// Returns two numbers at the end of a line, each after a space.
pub(crate) fn pair_of(octets: &[u8]) -> Option<(u32, u32)>
    ensures { result ≡ pair_of octets.now }
{
    let (both, rest) = pair_at(octets)?;
    if !rest.is_empty() {
        return None;
    }
    Some(both)
}

// Returns the value of an upper-case hexadecimal digit.
fn digit_value(digit: u8) -> Option<u8>
    ensures { result ≡ digit_value digit }
{
    if (b'0'..=b'9').contains(&digit) {
        Some(digit - b'0')
    } else if (b'A'..=b'F').contains(&digit) {
        Some(digit - b'A' + 10)
    } else {
        None
    }
}

// Returns the octet of two digits, the upper half first.
fn octet_of(high: u8, low: u8) -> Option<u8>
    ensures { result ≡ octet_of high low }
{
    let high = digit_value(high)?;
    let low = digit_value(low)?;
    Some(high * 16 + low)
}

/// Returns the octet of the first two digits, and the octets after them.
pub(crate) fn octet_at(octets: &[u8]) -> Option<(u8, &[u8])>
    ensures { option_map (λ cut. (cut.0, cut.1.now)) result ≡ octet_at octets.now }
{
    let [high, low, rest @ ..] = octets else {
        return None;
    };
    Some((octet_of(*high, *low)?, rest))
}
