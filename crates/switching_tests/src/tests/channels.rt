//! The bearer channels of a line: the ends of both halves, and the numbers that are not a bearer channel's.
use circuit_model::{channel_of, slot_of_channel};

#[test]
fn thirty_channels_carry_bearers() {
    prove!(slot_of_channel(0).is_none());
    prove!(slot_of_channel(16).is_none());
    prove!(slot_of_channel(32).is_none());
    prove!(slot_of_channel(31) == Some(29));
    prove!(channel_of(14) == 15);
    prove!(channel_of(15) == 17);
}
