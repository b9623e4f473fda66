//! Mixes for each member of a conference room the octets of the other members.
//!
//! A room is a row of places, each with the octet that its member sent, or none. A member receives the sum of the
//! values of the other octets, coded once by A-law. The definition adds up the others (`specs/Bridge.antt`). The code
//! adds up all places once, and subtracts each member's own value from that total.
//!
//! - [`mix`] writes to each place of one room the octet that the definition gives.
//! - [`Mixer`] mixes all rooms at once: each port gets the octet that the mix of its room gives it ([`Mixer::mix`]).
//! - The order of the places does not matter ([`law_of_order`]). A member without others receives the idle octet, and
//!   each of two members receives the other's octets ([`law_of_small_rooms`]).
#![tactic(auto)]

ghost use Rattle.std.specs.Prelude.{◌≡◌, ℕ, ◌*◌, ◌≤◌, length, slice_index, map, All, EachIndex, nat_abs};
ghost use Rattle.circuit_model.specs.Hears.{sum_of_values};
ghost use Rattle.conference_mix.specs.Bridge.{max_members, present_octets, value_of, mixed_for};

mod laws;
mod mixer;

use alaw_codec::{compress, expand};
pub use laws::{law_of_order, law_of_small_rooms};
pub use mixer::{Mixer, RoomMember};

/// The maximum number of members that a bridge mixes: the bearer channels of two bridge lines. This project sets the
/// limit.
pub const MAX_MEMBERS: usize = 60;

/// Mixes a room: writes to each place of `out` the A-law octet of the sum of the others' values.
///
/// `members` has for each place the octet that arrived there, or `None` if none counts. A place without an octet adds
/// nothing and is written too. The sum is exact and saturates only in its coding (ITU-T G.711 (11/88), table 1a). With
/// 60 members it stays within 241,920. The values are on the stack, so that nothing allocates on an octet's path.
pub fn mix(members: &[Option<u8>], out: &mut [u8])
    requires same { length out.old ≡ length members.now }
    requires few { length members.now ≤ max_members }
    ensures { EachIndex members.now (λ k. slice_index out.new k ≡ mixed_for k members.now) }
{
    let mut scratch = [0; MAX_MEMBERS];
    let values = &mut scratch[..members.len()];
    let total = expand_each(members, values);
    for (k, own) in values.iter().enumerate() {
        out[k] = compress(total - *own);
    }
}

/// Writes the summand of each place, and returns the sum over all places.
fn expand_each(members: &[Option<u8>], values: &mut [i32]) -> i32
    requires same { length values.old ≡ length members.now }
    requires few { length members.now ≤ max_members }
    ensures each { values.new ≡ map value_of members.now }
    ensures small { All (λ value. nat_abs value ≤ 4032) values.new }
    ensures total { result ≡ sum_of_values (present_octets members.now) }
    ensures within { nat_abs result ≤ 4032 * max_members }
{
    let mut total = 0;
    for (k, member) in members.iter().enumerate() {
        let value = value_of(*member);
        values[k] = value;
        total += value;
    }
    total
}

/// Returns the summand of a place, which is 0 if no octet is present. 60 idle octets, each of value 1, would add up to
/// a tone.
fn value_of(member: Option<u8>) -> i32
    ensures value { result ≡ value_of member }
    ensures within { nat_abs result ≤ 4032 }
{
    match member {
        Some(octet) => expand(octet),
        None => 0,
    }
}
