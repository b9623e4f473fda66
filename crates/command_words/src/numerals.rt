// Numbers in decimal digits.
ghost use Rattle.std.specs.Prelude.{◌≡◌, ◌≤◌, IfSome};
ghost use Rattle.command_words.specs.Numerals.{numeral, numeral_in};

/// Returns the number of a text, if it is a decimal number from `low` to `high`.
pub(crate) fn numeral_within(low: u32, high: u32, text: &str) -> Option<u32>
    ensures text { result ≡ numeral_in low high text.now }
    ensures within { IfSome result (λ number. (low ≤ number) × (number ≤ high)) }
{
    let number = numeral_of(text.as_bytes())?;
    if u64::from(low) <= number && number <= u64::from(high) {
        Some(number as u32)
    } else {
        None
    }
}

// Returns the number of a text, if it is a decimal number. It has up to ten digits, because a seed has 32 bits.
fn numeral_of(text: &[u8]) -> Option<u64>
    ensures { result ≡ numeral text.now }
{
    if text.is_empty() || text.len() > 10 || (text.len() > 1 && text[0] == b'0') {
        return None;
    }
    let mut number = 0;
    for digit in text {
        if !digit.is_ascii_digit() {
            return None;
        }
        number = number * 10 + u64::from(*digit - b'0');
    }
    Some(number)
}
