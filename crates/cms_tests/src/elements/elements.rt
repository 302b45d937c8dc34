//! The element and the length that octets in memory begin with.
use crate::asserts::assert_same;
use cms_tlv::{OCTET_STRING, first_contents, first_element, short_length};

/// Octets, and what they begin with if that is an OCTET STRING: its contents, and what follows it.
type Case = (&'static [u8], Option<(&'static [u8], &'static [u8])>);

const CASES: &[Case] = &[
    (b"\x04\x00", Some((b"", b""))),
    (b"\x04\x03\x01\x02\x03", Some((b"\x01\x02\x03", b""))),
    (
        b"\x04\x01\x01\x05\x00\x05\x00",
        Some((b"\x01", b"\x05\x00\x05\x00")),
    ),
    // Length octets that are not the shortest.
    (b"\x04\x81\x01\x01\xff", Some((b"\x01", b"\xff"))),
    (b"\x04\x82\x00\x01\x01", Some((b"\x01", b""))),
    (
        b"\x04\x88\x00\x00\x00\x00\x00\x00\x00\x01\x01",
        Some((b"\x01", b"")),
    ),
    // More length octets than eight, an indefinite length, and the reserved first octet.
    (b"\x04\x89\x00\x00\x00\x00\x00\x00\x00\x00\x01\x01", None),
    (b"\x04\x80\x00\x00", None),
    (b"\x04\xff\x01", None),
    // Octets are missing.
    (b"", None),
    (b"\x04", None),
    (b"\x04\x02\x01", None),
    (b"\x04\x81\x01", None),
    (b"\x04\x82\x01", None),
    (b"\x04\x88\xff\xff\xff\xff\xff\xff\xff\xff\x01", None),
    // Another element.
    (b"\x05\x01\x01", None),
    (b"\x24\x01\x01", None),
];

#[test]
fn first_elements(rt: HostRuntime) {
    for (octets, wanted) in CASES {
        assert_same(
            &rt,
            first_element(octets, OCTET_STRING),
            *wanted,
            "the first element",
        );
        let contents = wanted.map(|(contents, _)| contents);
        assert_same(
            &rt,
            first_contents(octets, OCTET_STRING),
            contents,
            "its contents",
        );
    }
}

/// Octets, and the shortest length that they begin with, and what follows it.
const LENGTHS: &[(&[u8], Option<(usize, &[u8])>)] = &[
    (b"\x00\x05", Some((0, b"\x05"))),
    (b"\x7f", Some((127, b""))),
    (b"\x81\x80\x05\x00", Some((128, b"\x05\x00"))),
    (b"\x82\x01\x02", Some((258, b""))),
    // Needless octets, more than three, an indefinite length, and octets that are missing.
    (b"\x81\x7f", None),
    (b"\x82\x00\xff", None),
    (b"\x83\x01\x00\x00", None),
    (b"\x80\x00\x00", None),
    (b"\x82\x01", None),
    (b"", None),
];

#[test]
fn first_lengths(rt: HostRuntime) {
    for (octets, wanted) in LENGTHS {
        assert_same(&rt, short_length(octets), *wanted, "the length");
    }
}
