//! Information elements: octets from untrusted senders, and the elements in them.
use q931_elements::{Elements, Writer};
use std::test::*;

// Returns whether the elements of the octets are those with these codes and contents.
fn lists(octets: &[u8], wanted: &[(u8, &[u8])]) -> bool {
    let mut elements = Elements::new(octets);
    for (code, contents) in wanted {
        match elements.next() {
            Some(element) if element.code == *code && element.contents == *contents => {}
            _ => return false,
        }
    }
    elements.next().is_none()
}

const CALLED: (u8, &[u8]) = (0x70, b"\x80101");

const CAUSE: (u8, &[u8]) = (0x08, b"\x80\x90");

// Strings of octets from untrusted senders, and the elements of each.
const ROWS: [(&[u8], &[(u8, &[u8])]); 20] = [
    (b"", &[]),
    (b"\x9E\x70\x01\x80\x70\x04\x80101", &[CALLED]),
    (b"\x98\xA1\xA1", &[(0xA1, b"")]),
    (b"\x70\x04\x8010", &[]),
    // Elements in any order, and one code twice.
    (b"\x70\x04\x80101\x08\x02\x80\x90", &[CALLED, CAUSE]),
    (b"\x08\x00\x08\x02\x80\x90", &[(0x08, b""), CAUSE]),
    // A locking shift, by itself and with elements around it.
    (b"\x96", &[]),
    (b"\xA1\x97\x70\x04\x80101", &[(0xA1, b"")]),
    (b"\x90\xA1", &[]),
    // A non-locking shift before another shift, before a truncated element, and at the end.
    (b"\x98\x90\x70\x04\x80101", &[CALLED]),
    (b"\x9F\x9F\xA1", &[(0xA1, b"")]),
    (b"\xA1\x98\x70\x04\x8010", &[(0xA1, b"")]),
    (b"\xA1\x98\x70", &[(0xA1, b"")]),
    (b"\xA1\x98", &[(0xA1, b"")]),
    // Unknown elements, one without contents, and one with more octets than there are.
    (
        b"\x01\x00\xB0\x7F\x00",
        &[(0x01, b""), (0xB0, b""), (0x7F, b"")],
    ),
    (b"\x08\x02\x80\x90\x28\xFF", &[CAUSE]),
    (b"\x08\x02\x80\x90\x28", &[CAUSE]),
    (b"\x00", &[]),
    (b"\x00\x00", &[(0x00, b"")]),
    (
        b"\x80\x8F\xA0\xFF",
        &[(0x80, b""), (0x8F, b""), (0xA0, b""), (0xFF, b"")],
    ),
];

#[test]
fn reads(rt: HostRuntime) {
    for (octets, wanted) in &ROWS {
        assert!(rt; lists(octets, wanted));
    }
    assert!(rt; Elements::new(&[0xA1; 260]).count() == 260);
    assert!(rt; Elements::new(&[0x98; 260]).count() == 0);
}

#[test]
fn finds_the_first(rt: HostRuntime) {
    let elements = Elements::new(b"\xA1\x08\x00\x70\x04\x80101\x08\x02\x80\x90");
    assert!(rt; elements.first(0x70) == Some(b"\x80101".as_slice()));
    assert!(rt; elements.first(0x08) == Some(b"".as_slice()));
    assert!(rt; elements.first(0xA1) == Some(b"".as_slice()));
    assert!(rt; elements.first(0x04).is_none());
}

#[test]
fn writes(rt: HostRuntime) {
    let mut writer = Writer::new();
    writer.single(0xA1);
    writer.element(0x08, b"\x82\xAC");
    writer.element(0x70, b"\x80101");
    let written = b"\xA1\x08\x02\x82\xAC\x70\x04\x80101".as_slice();
    assert!(rt; writer.finish().as_slice() == written);
}
