//! Times.

use crate::asserts::{assert_hex, assert_same};
use crate::parts::fields::{Accepted, Refused, assert_fields};
use cms_scalars::{GenTime, GeneralizedTimeSpan, TimeFault};
use cms_tlv::Reason;
use std::alloc::Global;
use std::process::Abort;
use std::test::Fail;

/// The text of a time, its seconds, its digits, its fraction, and its DER in hexadecimal.
type TimeRow = (&'static str, i64, &'static str, &'static str, &'static str);

const TIMES: &[TimeRow] = &[
    (
        "20240229120000Z",
        1709208000,
        "20240229120000",
        "",
        "180f32303234303232393132303030305a",
    ),
    (
        "20240229120000.5Z",
        1709208000,
        "20240229120000",
        "5",
        "181132303234303232393132303030302e355a",
    ),
    (
        "99991231235959Z",
        253402300799,
        "99991231235959",
        "",
        "180f39393939313233313233353935395a",
    ),
    (
        "00000101000000Z",
        -62167219200,
        "00000101000000",
        "",
        "180f30303030303130313030303030305a",
    ),
    (
        "00000229000000Z",
        -62162121600,
        "00000229000000",
        "",
        "180f30303030303232393030303030305a",
    ),
    (
        "20000229000000Z",
        951782400,
        "20000229000000",
        "",
        "180f32303030303232393030303030305a",
    ),
    (
        "19700101000000Z",
        0,
        "19700101000000",
        "",
        "180f31393730303130313030303030305a",
    ),
    (
        "19691231235959Z",
        -1,
        "19691231235959",
        "",
        "180f31393639313233313233353935395a",
    ),
    (
        "20240229120000.000000000000000000001Z",
        1709208000,
        "20240229120000",
        "000000000000000000001",
        "182532303234303232393132303030302e3030303030303030303030303030303030303030315a",
    ),
];

/// A time is read from its text, and its accessors and its DER are those of its row.
fn assert_time(
    rt: &(impl Abort + AllocGlobal),
    (text, seconds, digits, fraction, der): &TimeRow,
) -> Result<(), Fail> {
    let time = GenTime::from_der(rt.alloc(), text.as_bytes())?;
    assert_same(rt, time.unix_seconds(), *seconds, text);
    assert_same(rt, time.digits(), digits.as_bytes(), text);
    assert_same(rt, time.fraction(), fraction.as_bytes(), text);
    assert_same(rt, time.octets(), text.as_bytes(), text);
    let mut out = Vec::from_slice(rt.alloc(), b"\x30")?;
    time.put(&mut out)?;
    let element = out.get(1..).unwrap_or(&[]);
    assert_same(rt, out.first().copied(), Some(0x30), text);
    assert_hex(rt, element, der, text)?;
    assert_same(rt, time.encoded_len(), element.len() as u64, text);
    Ok(())
}

#[test]
fn times_told(rt: HostRuntime) -> Result<(), Fail> {
    for case in TIMES {
        assert_time(&rt, case)?;
    }
    Ok(())
}

/// A text that is no time, and why.
const NO_TIMES: &[(&str, TimeFault)] = &[
    ("20240229120000.50Z", TimeFault::Form),
    ("20230229120000Z", TimeFault::NoSuchDate),
    ("20240229120060Z", TimeFault::NoSuchTime),
    ("19000229000000Z", TimeFault::NoSuchDate),
    ("20240001000000Z", TimeFault::NoSuchDate),
    ("20241301000000Z", TimeFault::NoSuchDate),
    ("20240100000000Z", TimeFault::NoSuchDate),
    ("20240431000000Z", TimeFault::NoSuchDate),
    ("20230229240000Z", TimeFault::NoSuchDate),
    ("20240229240000Z", TimeFault::NoSuchTime),
    ("20240229006000Z", TimeFault::NoSuchTime),
    ("", TimeFault::Form),
    ("20240229120000", TimeFault::Form),
    ("202402291200Z", TimeFault::Form),
    ("20240229120000+0000", TimeFault::Form),
    ("20240229120000.Z", TimeFault::Form),
    ("20240229120000.0Z", TimeFault::Form),
    ("20240229120000,5Z", TimeFault::Form),
    ("20240229120000.5a5Z", TimeFault::Form),
    ("20240229120000Z0", TimeFault::Form),
    ("20240229120000z", TimeFault::Form),
    ("20230229120000.0Z", TimeFault::Form),
];

/// Why a text is no time.
fn fault(alloc: Global, text: &str) -> Option<TimeFault> {
    GenTime::from_der(alloc, text.as_bytes()).err()
}

#[test]
fn times_refused(rt: HostRuntime) {
    for (text, want) in NO_TIMES {
        assert_same(&rt, fault(rt.alloc(), text), Some(*want), text);
    }
}

const ACCEPTED: &[Accepted] = &[
    Accepted {
        input: "180f32303234303232393132303030305a",
        output: "180f32303234303232393132303030305a",
        definite: &[(2, 17)],
    },
    Accepted {
        input: "181132303234303232393132303030302e355a",
        output: "181132303234303232393132303030302e355a",
        definite: &[(2, 19)],
    },
    Accepted {
        input: "18811132303234303232393132303030302e355a",
        output: "181132303234303232393132303030302e355a",
        definite: &[(3, 20)],
    },
];

const REFUSED: &[Refused] = &[
    ("1800", Reason::UnexpectedElement, 2),
    (
        "181232303234303232393132303030302e35305a",
        Reason::UnexpectedElement,
        20,
    ),
    (
        "180f32303233303232393132303030305a",
        Reason::UnexpectedElement,
        17,
    ),
    (
        "180f32303234303232393132303036305a",
        Reason::UnexpectedElement,
        17,
    ),
    (
        "380f32303234303232393132303030305a",
        Reason::UnexpectedElement,
        2,
    ),
];

#[test]
fn times_read(rt: HostRuntime) -> Result<(), Fail> {
    assert_fields::<GeneralizedTimeSpan>(&rt, ACCEPTED, REFUSED)
}
