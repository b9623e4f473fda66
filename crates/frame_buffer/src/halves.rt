//! The size from which the rows of some lines are divided into halves.

/// The least number of octets in a half that gets a thread.
///
/// Starting and joining a thread takes the time of a stage for some 40,000 octets, as `bench/README.md` measures it. No
/// highway is that large: it has at most 255 lines of 255 octets.
pub const MIN_HALF_OCTETS: usize = 65_536;
