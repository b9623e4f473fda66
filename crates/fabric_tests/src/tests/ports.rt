//! The ports of the bridges: one that is returned is allocated again.
use circuit_model::Slot;
use conference_ports::Ports;
use std::alloc::AllocError;

const PORT: Slot = Slot { line: 3, place: 0 };

#[test]
fn a_port_given_back_is_given_again(rt: HostRuntime) -> Result<(), AllocError> {
    let member = Slot { line: 0, place: 7 };
    let other = Slot { line: 2, place: 29 };
    let mut ports = Ports::new(rt.alloc(), 3, 2)?;
    assert!(rt; ports.take(5, member) == Some(PORT));
    assert!(rt; ports.port_of(member) == Some(PORT));
    assert!(rt; ports.room_of(PORT) == Some((5, member)));
    ports.give(member);
    assert!(rt; ports.port_of(member).is_none());
    assert!(rt; ports.take(63, other) == Some(PORT));
    Ok(())
}
