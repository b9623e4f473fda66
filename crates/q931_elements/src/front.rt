//! The first item of the octets after a header.

ghost use Rattle.std.specs.Prelude.{◌≡◌, []};
ghost use Rattle.q931_elements.specs.Reading.{front_in, variable_front, after_item, Whole};
ghost use Rattle.q931_elements.specs.Front.{front_of};

/// A received information element: its identifier octet, and its contents without the length octet (Q.931, 4.5.1). A
/// single octet information element has no contents, and `code` is the whole octet.
#[derive(Clone, Copy, Debug)]
pub struct Element<'a> {
    /// The identifier, octet 1 of the element.
    pub code: u8,
    /// The contents, from octet 3 of the element on.
    pub contents: &'a [u8],
}

// The item, tail or shift that the remaining octets begin with.
#[derive(Clone, Copy)]
pub(crate) enum Front<'a> {
    Whole(Element<'a>, &'a [u8]),
    LockingShift,
    NonLockingShift(&'a [u8]),
    Unfinished,
}

pub(crate) fn look(octets: &[u8]) -> Front<'_>
    ensures { front_of result ≡ front_in octets.now }
{
    match octets {
        [] => Front::Unfinished,
        [code, rest @ ..] => match *code {
            0x00..=0x7F => variable_length(*code, rest),
            0x90..=0x97 => Front::LockingShift,
            0x98..=0x9F => Front::NonLockingShift(rest),
            0x80..=0xFF => Front::Whole(
                Element {
                    code: *code,
                    contents: &[],
                },
                rest,
            ),
        },
    }
}

// Returns the element of this code, from its length octet on.
fn variable_length(code: u8, octets: &[u8]) -> Front<'_>
    ensures { front_of result ≡ variable_front code octets.now }
{
    match octets {
        [] => Front::Unfinished,
        [length, rest @ ..] => {
            let length = usize::from(*length);
            if rest.len() < length {
                return Front::Unfinished;
            }
            let (contents, rest) = rest.split_at(length);
            Front::Whole(Element { code, contents }, rest)
        }
    }
}

// Returns the octets after the item that a non-locking shift hides.
pub(crate) fn past(octets: &[u8]) -> &[u8]
    ensures { result.now ≡ after_item octets.now }
{
    match octets {
        [code, rest @ ..] if *code >= 0x80 => rest,
        [_, length, rest @ ..] => {
            let length = usize::from(*length);
            if rest.len() < length {
                return &[];
            }
            &rest[length..]
        }
        _ => &[],
    }
}
