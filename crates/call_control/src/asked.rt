//! The contents of a requested call.
ghost use Rattle.std.specs.Prelude.{◌≡◌, [], Some, unwrap_or};
ghost use Rattle.std.specs.Option.{option_copied};
ghost use Rattle.q931_elements.specs.InformationElement.{first_of};
ghost use Rattle.q931_codec.specs.Identifiers.{bearer_capability, calling_party_number, called_party_number, low_layer_compatibility, high_layer_compatibility};
ghost use Rattle.q931_codec.specs.Contents.{contents_passed_on};
ghost use Rattle.call_states.specs.Pending.{FitsElements};
ghost use Rattle.call_profile.specs.Setup.{call_asked};
ghost use Rattle.call_control.specs.Asked.{asked_of};

use crate::digits::MAX_CALLED;
use call_states::{Contents, Pending};
use q931_codec::Message;
use q931_codec::codes::{
    BEARER_CAPABILITY, CALLED_PARTY_NUMBER, CALLING_PARTY_NUMBER, HIGH_LAYER_COMPATIBILITY,
    LOW_LAYER_COMPATIBILITY,
};

// The maximum number of octets in a calling party number that is passed on. Source: this project.
const MAX_CALLING: usize = 22;

// The maximum number of octets in a low layer compatibility that is passed on. Source: this project.
const MAX_LOW: usize = 16;

// The maximum number of octets in a high layer compatibility that is passed on. Source: this project.
const MAX_HIGH: usize = 3;

/// The contents of the elements of a requested call that are passed on to the called user. An element without octets is
/// absent. A SETUP and a pending number both give this value, so one function accepts both.
#[derive(Clone, Copy)]
pub(crate) struct Asked<'a> {
    /// The bearer capability (ITU-T Q.931 (05/98), 4.5.5).
    pub bearer: &'a [u8],
    /// The calling party number (4.5.10).
    pub calling: &'a [u8],
    /// The called party number (4.5.8).
    pub called: &'a [u8],
    /// The low layer compatibility (4.5.19).
    pub low: &'a [u8],
    /// The high layer compatibility (4.5.17).
    pub high: &'a [u8],
}

// The contents of the first elements of a message with the identifiers of the elements that are passed on.
#[derive(Clone, Copy)]
struct FirstElements<'a> {
    bearer: Option<&'a [u8]>,
    calling: Option<&'a [u8]>,
    called: Option<&'a [u8]>,
    low: Option<&'a [u8]>,
    high: Option<&'a [u8]>,
}

/// Returns the contents in a SETUP. Its elements are read in one pass.
pub(crate) fn asked_by<'a>(message: &Message<'a>) -> Asked<'a>
    ensures { asked_of result ≡ call_asked message.now }
{
    let firsts = first_elements(message);
    Asked {
        bearer: firsts.bearer.unwrap_or(&[]),
        calling: passed_on(firsts.calling, MAX_CALLING),
        called: passed_on(firsts.called, MAX_CALLED),
        low: passed_on(firsts.low, MAX_LOW),
        high: passed_on(firsts.high, MAX_HIGH),
    }
}

// Returns the contents of an element that pass to the called user, if there is one and it is not too long.
fn passed_on(contents: Option<&[u8]>, most: usize) -> &[u8]
    ensures { result.now ≡ contents_passed_on most (unwrap_or (option_copied contents.entry) []) }
{
    match contents {
        Some(octets) if octets.len() <= most => octets,
        _ => &[],
    }
}

// Returns the first elements of a message with the identifiers of the elements that are passed on.
fn first_elements<'a>(message: &Message<'a>) -> FirstElements<'a>
    ensures bearer { option_copied result.bearer ≡ first_of bearer_capability message.now.elements }
    ensures calling { option_copied result.calling ≡ first_of calling_party_number message.now.elements }
    ensures called { option_copied result.called ≡ first_of called_party_number message.now.elements }
    ensures low { option_copied result.low ≡ first_of low_layer_compatibility message.now.elements }
    ensures high { option_copied result.high ≡ first_of high_layer_compatibility message.now.elements }
{
    let mut bearer = None;
    let mut calling = None;
    let mut called = None;
    let mut low = None;
    let mut high = None;
    let Ok(elements) = message.elements.clone() else {
        unreachable!();
    };
    for element in elements {
        match element.code {
            BEARER_CAPABILITY => store_first(&mut bearer, element.contents),
            CALLING_PARTY_NUMBER => store_first(&mut calling, element.contents),
            CALLED_PARTY_NUMBER => store_first(&mut called, element.contents),
            LOW_LAYER_COMPATIBILITY => store_first(&mut low, element.contents),
            HIGH_LAYER_COMPATIBILITY => store_first(&mut high, element.contents),
            _ => {}
        }
    }
    FirstElements {
        bearer,
        calling,
        called,
        low,
        high,
    }
}

// Stores the contents of an element, unless an earlier element had the same identifier.
fn store_first<'a>(first: &mut Option<&'a [u8]>, contents: &'a [u8])
    ensures { option_copied first.new ≡ Some (unwrap_or (option_copied first.old) contents.now) }
{
    if first.is_none() {
        *first = Some(contents);
    }
}

/// Returns the contents stored with a number in overlap sending.
pub(crate) fn asked_in(number: &Pending) -> Asked<'_>
    ensures asked { asked_of result ≡ number.now }
    ensures fits { FitsElements (asked_of result) }
{
    Asked {
        bearer: number.bearer.as_slice(),
        calling: number.calling.as_slice(),
        called: number.called.as_slice(),
        low: number.low.as_slice(),
        high: number.high.as_slice(),
    }
}

/// Returns the contents to store until the number is complete.
pub(crate) fn pending_of(asked: &Asked) -> Pending
    requires { FitsElements (asked_of asked.now) }
    ensures { result ≡ asked_of asked.now }
{
    Pending {
        bearer: Contents::of(asked.bearer),
        calling: Contents::of(asked.calling),
        called: Contents::of(asked.called),
        low: Contents::of(asked.low),
        high: Contents::of(asked.high),
    }
}
