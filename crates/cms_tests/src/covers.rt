//! What the signatures of signers cover.
use crate::asserts::{assert_hex, assert_holds, assert_same};
use crate::samples::{COVERED, LIMIT, SIGNED, SMALLEST_REQUEST, TWO_SIGNERS, message_of};
use crate::streams::Reluctant;
use cms_canon::{NoCover, write_cover};
use cms_message::{CoverFault, SignedData};
use cms_tlv::{Fault, Reason, Watched};
use std::alloc::Global;
use std::io::ErrorKind;
use std::process::Abort;
use std::test::Fail;

/// A message, the index of a signer, the detached content, and what is covered, in hexadecimal.
type Cover = (
    &'static str,
    u64,
    Option<&'static [u8]>,
    Result<&'static str, CoverFault>,
);

const COVERS: &[Cover] = &[
    (SIGNED, 0, None, Ok(COVERED)),
    (SIGNED, 0, Some(b"xyz"), Ok(COVERED)),
    (SIGNED, 1, None, Err(CoverFault::NoSigner)),
    (SIGNED, u64::MAX, Some(b"xyz"), Err(CoverFault::NoSigner)),
    (TWO_SIGNERS, 0, None, Err(CoverFault::NoContent)),
    (TWO_SIGNERS, 0, Some(b""), Ok("")),
    (TWO_SIGNERS, 1, Some(b"abc"), Ok("616263")),
    (TWO_SIGNERS, 2, None, Err(CoverFault::NoSigner)),
];

/// The octets that are covered, from their pieces.
fn cover(
    alloc: Global,
    signed_data: &SignedData<'_>,
    i: u64,
    detached: Option<&[u8]>,
) -> Result<Vec<u8>, CoverFault> {
    let pieces = signed_data.cover(alloc, i, detached)?;
    Ok(pieces.concat(alloc)?)
}

/// What is covered, in pieces and appended to what was there before; nothing is appended on an error.
fn assert_cover(
    rt: &(impl Abort + AllocGlobal),
    (input, i, detached, want): &Cover,
) -> Result<(), Fail> {
    let message = message_of(rt.alloc(), input)?;
    let signed_data = message.signed_data().ok_or("no signed data")?;
    let octets = hex::decode(rt.alloc(), want.unwrap_or(""))?;
    let pieces = cover(rt.alloc(), &signed_data, *i, *detached);
    let came = pieces.as_ref().map(|it| it.as_slice()).map_err(|it| *it);
    assert_same(rt, came, want.map(|_| octets.as_slice()), "in pieces");
    let mut out = Vec::from_slice(rt.alloc(), b"abc")?;
    let covered = signed_data.covered(rt.alloc(), *i, *detached, &mut out);
    assert_same(rt, covered, want.map(|_| ()), "the call");
    let wanted = [b"abc".as_slice(), octets.as_slice()].concat(rt.alloc())?;
    assert_same(rt, out.as_slice(), wanted.as_slice(), "appended");
    Ok(())
}

#[test]
fn covers_of_signers(rt: HostRuntime) -> Result<(), Fail> {
    for case in COVERS {
        assert_cover(&rt, case)?;
    }
    Ok(())
}

/// The signed attributes are covered as a SET OF: their first octet is 31, and not A0.
#[test]
fn signed_attributes_as_a_set(rt: HostRuntime) -> Result<(), Fail> {
    let message = message_of(rt.alloc(), SIGNED)?;
    let signed_data = message.signed_data().ok_or("no signed data")?;
    let signer = signed_data.signer(0).ok_or("no signer")?;
    let (identifier, after) = signer.signed_attrs_as_set_of().ok_or("no attributes")?;
    let octets = [identifier, after].concat(rt.alloc())?;
    assert_hex(&rt, &octets, COVERED, "the attributes")?;
    let received = signer.signed_attrs_octets().ok_or("no octets")?;
    assert_same(
        &rt,
        received.split_first(),
        Some((&0xa0, after)),
        "as received",
    );
    let message = message_of(rt.alloc(), TWO_SIGNERS)?;
    let signed_data = message.signed_data().ok_or("no signed data")?;
    let signer = signed_data.signer(1).ok_or("no signer")?;
    let none = signer.signed_attrs_as_set_of();
    assert_holds(&rt, none.is_none(), "no signed attributes");
    Ok(())
}

/// A message and what follows it, in hexadecimal; the index of a signer; whether what follows is the
/// content; and what is written.
type Written = (
    &'static str,
    &'static str,
    u64,
    bool,
    Result<&'static str, NoCover>,
);

const WRITTEN: &[Written] = &[
    (SIGNED, "", 0, false, Ok(COVERED)),
    (SIGNED, "616263", 0, true, Ok(COVERED)),
    (SIGNED, "", 1, false, Err(NoCover::NoSigner)),
    (TWO_SIGNERS, "616263", 1, true, Ok("616263")),
    (TWO_SIGNERS, "", 1, true, Ok("")),
    (TWO_SIGNERS, "", 1, false, Err(NoCover::NoContent)),
    (SMALLEST_REQUEST, "", 0, false, Err(NoCover::NoSignedData)),
    (
        TWO_SIGNERS,
        "00",
        0,
        false,
        Err(NoCover::Fault(Fault::Refused {
            reason: Reason::Trailing,
            at: 105,
        })),
    ),
];

/// What is written, if so many octets come at a time.
fn written(
    alloc: Global,
    octets: &[u8],
    at_a_time: usize,
    signer: u64,
    content: bool,
) -> (Result<(), NoCover>, Vec<u8>) {
    let reader = Reluctant::new(octets, at_a_time, usize::MAX, ErrorKind::Other);
    let mut writer = Watched::new(Vec::new(alloc));
    let (_, written) = write_cover(
        alloc,
        Watched::new(reader),
        &mut writer,
        LIMIT,
        signer,
        content,
    );
    (written, writer.into_inner())
}

fn assert_written(
    rt: &(impl Abort + AllocGlobal),
    (message, after, signer, content, want): &Written,
) -> Result<(), Fail> {
    let mut octets = hex::decode(rt.alloc(), message)?;
    octets.append(&mut hex::decode(rt.alloc(), after)?)?;
    for at_a_time in [1, 7, 4096] {
        let (done, out) = written(rt.alloc(), &octets, at_a_time, *signer, *content);
        assert_same(
            rt,
            (at_a_time, done),
            (at_a_time, want.map(|_| ())),
            "the call",
        );
        assert_hex(rt, &out, want.unwrap_or(""), "what is written")?;
    }
    Ok(())
}

#[test]
fn covers_written(rt: HostRuntime) -> Result<(), Fail> {
    for case in WRITTEN {
        assert_written(&rt, case)?;
    }
    Ok(())
}
