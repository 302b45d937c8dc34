//! Values of scalars.
ghost use Rattle.std.specs.Prelude.{◌≡◌, ◌≤◌, true};
ghost use Rattle.cms_tlv.specs.Spelling.{ber};

use crate::asserts::{assert_holds, assert_same};
use crate::parts::fields::{assert_cut, assert_rewritten};
use crate::parts::sources::{AT_A_TIME, LIMIT, source};
use cms_fields::Field;
use cms_scalars::{
    Integer, IntegerSpan, Oid, OidSpan, put_true, read_bool, read_integer, read_oid,
};
use cms_tlv::{Bound, Fault, MAX_LIMIT, Reason};
use std::alloc::Global;
use std::process::Abort;
use std::test::Fail;

/// A scalar in DER is written as it was read, and cut where it should be.
fn assert_der<T: Field>(rt: &(impl Abort + AllocGlobal), input: &str) -> Result<(), Fail>
    requires is_field { T.grammar.is_field ≡ true }
{
    assert_rewritten::<T>(rt, input, input)?;
    assert_cut::<T>(rt, input, &[(2, input.len() as u64 / 2)])
}

/// An INTEGER in hexadecimal, and its value below 2^64.
const INTEGERS: &[(&str, Option<u64>)] = &[
    ("020100", Some(0)),
    ("02017f", Some(127)),
    ("02020080", Some(128)),
    ("020900ffffffffffffffff", Some(18446744073709551615)),
    ("0209010000000000000000", None),
    ("0201ff", None),
    ("020180", None),
];

/// The value of the INTEGER that the octets begin with.
fn value(alloc: Global, octets: &[u8], at_a_time: usize) -> Result<Option<u64>, Fault> {
    let mut source = source(alloc, octets, at_a_time, LIMIT);
    let span = read_integer(&mut source, &Bound::top());
    let (_, kept) = source.finish();
    Ok(Integer::new(&span?, &kept).to_u64())
}

fn assert_integer(
    rt: &(impl Abort + AllocGlobal),
    (input, want): &(&str, Option<u64>),
) -> Result<(), Fail> {
    let octets = hex::decode(rt.alloc(), input)?;
    for at_a_time in AT_A_TIME {
        let value = value(rt.alloc(), &octets, *at_a_time);
        assert_same(rt, (*at_a_time, value), (*at_a_time, Ok(*want)), input);
    }
    Ok(())
}

#[test]
fn integers_told(rt: HostRuntime) -> Result<(), Fail> {
    for case in INTEGERS {
        assert_integer(&rt, case)?;
        assert_der::<IntegerSpan>(&rt, case.0)?;
    }
    Ok(())
}

/// An OBJECT IDENTIFIER in hexadecimal, its name, and its arcs.
type Identifier = (&'static str, Option<&'static str>, Option<&'static str>);

const IDENTIFIERS: &[Identifier] = &[
    (
        "06092a864886f70d010701",
        Some("data"),
        Some("1.2.840.113549.1.7.1"),
    ),
    (
        "06092a864886f70d010702",
        Some("signedData"),
        Some("1.2.840.113549.1.7.2"),
    ),
    (
        "06092a864886f70d010903",
        Some("contentType"),
        Some("1.2.840.113549.1.9.3"),
    ),
    (
        "06092a864886f70d010904",
        Some("messageDigest"),
        Some("1.2.840.113549.1.9.4"),
    ),
    (
        "06092a864886f70d010905",
        Some("signingTime"),
        Some("1.2.840.113549.1.9.5"),
    ),
    (
        "06092a864886f70d010906",
        Some("countersignature"),
        Some("1.2.840.113549.1.9.6"),
    ),
    (
        "060b2a864886f70d0109100104",
        Some("tSTInfo"),
        Some("1.2.840.113549.1.9.16.1.4"),
    ),
    (
        "060b2a864886f70d010910020c",
        Some("signingCertificate"),
        Some("1.2.840.113549.1.9.16.2.12"),
    ),
    (
        "060b2a864886f70d010910022f",
        Some("signingCertificateV2"),
        Some("1.2.840.113549.1.9.16.2.47"),
    ),
    ("06052b0e03021a", Some("sha1"), Some("1.3.14.3.2.26")),
    (
        "0609608648016503040201",
        Some("sha256"),
        Some("2.16.840.1.101.3.4.2.1"),
    ),
    (
        "0609608648016503040202",
        Some("sha384"),
        Some("2.16.840.1.101.3.4.2.2"),
    ),
    (
        "0609608648016503040203",
        Some("sha512"),
        Some("2.16.840.1.101.3.4.2.3"),
    ),
    (
        "0609608648016503040204",
        Some("sha224"),
        Some("2.16.840.1.101.3.4.2.4"),
    ),
    (
        "0609608648016503040205",
        Some("sha512-224"),
        Some("2.16.840.1.101.3.4.2.5"),
    ),
    (
        "0609608648016503040206",
        Some("sha512-256"),
        Some("2.16.840.1.101.3.4.2.6"),
    ),
    ("06082a864886f70d0109", None, Some("1.2.840.113549.1.9")),
    (
        "060a2a864886f70d01090301",
        None,
        Some("1.2.840.113549.1.9.3.1"),
    ),
    (
        "0609608648016503040207",
        None,
        Some("2.16.840.1.101.3.4.2.7"),
    ),
    ("060100", None, Some("0.0")),
    ("060127", None, Some("0.39")),
    ("060128", None, Some("1.0")),
    ("06014f", None, Some("1.39")),
    ("060150", None, Some("2.0")),
    ("06028837", None, Some("2.999")),
    (
        "060a81ffffffffffffffff7f",
        None,
        Some("2.18446744073709551535"),
    ),
    ("060a82808080808080808000", None, None),
    (
        "060b2a81ffffffffffffffff7f",
        None,
        Some("1.2.18446744073709551615"),
    ),
    ("060b2a82808080808080808000", None, None),
];

/// The OBJECT IDENTIFIER that the octets begin with, and the octets that are kept of it.
fn identifier(alloc: Global, octets: &[u8], at_a_time: usize) -> Result<(OidSpan, Vec<u8>), Fault> {
    let mut source = source(alloc, octets, at_a_time, LIMIT);
    let span = read_oid(&mut source, &Bound::top());
    let (_, kept) = source.finish();
    Ok((span?, kept))
}

fn assert_identifier_told(
    rt: &(impl Abort + AllocGlobal),
    (input, name, arcs): &Identifier,
    at_a_time: usize,
) -> Result<(), Fail> {
    let octets = hex::decode(rt.alloc(), input)?;
    let (span, kept) = identifier(rt.alloc(), &octets, at_a_time)?;
    let identifier = Oid::new(&span, &kept);
    assert_same(rt, identifier.name(), *name, input);
    let text = identifier.dotted(rt.alloc())?;
    assert_same(rt, text.as_deref(), *arcs, input);
    let same = Oid::of(identifier.octets());
    assert_same(rt, same, Some(identifier), input);
    Ok(())
}

fn assert_identifiers(rt: &(impl Abort + AllocGlobal), cases: &[Identifier]) -> Result<(), Fail> {
    for case in cases {
        for at_a_time in AT_A_TIME {
            assert_identifier_told(rt, case, *at_a_time)?;
        }
        assert_der::<OidSpan>(rt, case.0)?;
    }
    Ok(())
}

#[test]
fn identifiers_told(rt: HostRuntime) -> Result<(), Fail> {
    assert_identifiers(&rt, IDENTIFIERS)
}

#[test]
fn malformed_identifiers(rt: HostRuntime) {
    for octets in [b"".as_slice(), b"\x80\x01", b"\x2a\x80\x04", b"\x2a\x83"] {
        assert_same(&rt, Oid::of(octets), None, "malformed contents");
    }
}

/// A BOOLEAN in hexadecimal, and what is read.
const BOOLEANS: &[(&str, Result<bool, Fault>)] = &[
    ("010100", Ok(false)),
    ("010105", Ok(true)),
    ("0101ff", Ok(true)),
    (
        "010200ff",
        Err(Fault::Refused {
            reason: Reason::BooleanMalformed,
            at: 4,
        }),
    ),
    (
        "0100",
        Err(Fault::Refused {
            reason: Reason::BooleanMalformed,
            at: 2,
        }),
    ),
];

/// The truth that the octets begin with.
fn truth(alloc: Global, octets: &[u8], at_a_time: usize, limit: u64) -> Result<bool, Fault>
    requires { limit ≤ MAX_LIMIT }
{
    let mut source = source(alloc, octets, at_a_time, limit);
    let truth = read_bool(&mut source, &Bound::top());
    let _ = source.finish();
    truth
}

fn assert_boolean(
    rt: &(impl Abort + AllocGlobal),
    (input, want): &(&str, Result<bool, Fault>),
) -> Result<(), Fail> {
    let octets = hex::decode(rt.alloc(), input)?;
    for at_a_time in AT_A_TIME {
        let truth = truth(rt.alloc(), &octets, *at_a_time, LIMIT);
        assert_same(rt, (*at_a_time, truth), (*at_a_time, *want), input);
    }
    Ok(())
}

#[test]
fn booleans_told(rt: HostRuntime) -> Result<(), Fail> {
    for case in BOOLEANS {
        assert_boolean(&rt, case)?;
    }
    Ok(())
}

/// A BOOLEAN that ends or is limited too early: which octets of it there are, the limit, why it is
/// refused, and where.
const CUT: &[(&[u8], u64, Reason, u64)] = &[
    (b"", LIMIT, Reason::Truncated, 0),
    (b"\x01", LIMIT, Reason::Truncated, 1),
    (b"\x01\x01", LIMIT, Reason::Truncated, 2),
    (b"\x01\x01\x05", 0, Reason::TooLarge, 0),
    (b"\x01\x01\x05", 1, Reason::TooLarge, 1),
    (b"\x01\x01\x05", 2, Reason::TooLarge, 2),
];

#[test]
fn booleans_cut(rt: HostRuntime) {
    for (octets, limit, reason, at) in CUT {
        assert_holds(&rt, *limit <= MAX_LIMIT, "the limit");
        let want = Fault::Refused {
            reason: *reason,
            at: *at,
        };
        let truth = truth(rt.alloc(), octets, 4096, *limit);
        let came = (*octets, *limit, truth);
        assert_same(&rt, came, (*octets, *limit, Err(want)), "cut");
    }
}

#[test]
fn true_written(rt: HostRuntime) -> Result<(), Fail> {
    let mut out = Vec::from_slice(rt.alloc(), b"\x30")?;
    put_true(&mut out)?;
    assert_same(&rt, out.as_slice(), b"\x30\x01\x01\xff", "TRUE");
    Ok(())
}
