//! Checks by digests of what is not attached, in place of its octets.
use crate::asserts::{assert_holds, assert_same};
use crate::samples::{MIXED, SMALLEST, SMALLEST_REQUEST, TWO_SIGNERS, message_of};
use cms_canon::{Message, View, check_message};
use cms_check::{
    Digesting, Digests, Finding, Given, GivenDigests, HashAlg, Hashed, NoReport, NoVerifier,
    Report, check, check_digests, check_request_digests, check_response_digests, digest,
    digest_asked_by_imprint, digest_asked_by_token, digests_asked, needs_octets,
};
use std::alloc::{AllocError, Global};
use std::process::Abort;
use std::test::Fail;

/// A time-stamp token without content and without signers.
pub const NO_CONTENT: &str =
    "302506092a864886f70d010702a01830160201033100300d060b2a864886f70d01091001043100";

/// A token without signers, for the data "abc", and a response with it.
pub const TOKEN: &str =
    "307706092a864886f70d010702a06a30680201033100305f060b2a864886f70d0109100104a050044e304c02010106022a03302f300b06096086480165030402010420ba7816bf8f01cfea414140de5dae2223b00361a396177a9cb410ff61f20015ad020101180f32303236303130313030303030305a3100";

pub const RESPONSE: &str =
    "307e3003020100307706092a864886f70d010702a06a30680201033100305f060b2a864886f70d0109100104a050044e304c02010106022a03302f300b06096086480165030402010420ba7816bf8f01cfea414140de5dae2223b00361a396177a9cb410ff61f20015ad020101180f32303236303130313030303030305a3100";

/// The digests that a message asks for of its content, which comes in two pieces.
fn asked_of(alloc: Global, message: &Message, content: &[u8]) -> Result<Digests, AllocError> {
    let Some(signed_data) = message.signed_data() else {
        return Ok(Digests::new(Vec::new(alloc)));
    };
    let algorithms = digests_asked(alloc, &signed_data)?;
    let mut digesting = Digesting::new(alloc, &algorithms)?;
    let (first, rest) = content.split_at(content.len().min(1));
    digesting.add(first);
    digesting.add(rest);
    digesting.finish(alloc)
}

fn by_octets(
    alloc: Global,
    message: &Message,
    content: &[u8],
) -> Result<Option<Report>, AllocError> {
    let given = Given {
        detached: Some(content),
        ..Given::default()
    };
    match message.signed_data() {
        Some(signed_data) => Ok(Some(check(alloc, &signed_data, &given, &NoVerifier)?)),
        None => Ok(None),
    }
}

fn by_digests(
    alloc: Global,
    message: &Message,
    digests: &Digests,
) -> Result<Option<Report>, NoReport> {
    let given = GivenDigests {
        detached: Some(digests),
        ..GivenDigests::default()
    };
    match message.signed_data() {
        Some(signed_data) => Ok(Some(check_digests(alloc, &signed_data, &given)?)),
        None => Ok(None),
    }
}

fn findings_of(report: &Option<Report>) -> Option<&[Finding]> {
    report.as_ref().map(|report| report.findings())
}

/// A message and its content are checked by the digests that it asks for, as they are by the octets.
fn assert_alike(rt: &(impl Abort + AllocGlobal), input: &str, content: &[u8]) -> Result<(), Fail> {
    let message = message_of(rt.alloc(), input)?;
    let digests = asked_of(rt.alloc(), &message, content)?;
    let wanted = by_octets(rt.alloc(), &message, content)?;
    let came = by_digests(rt.alloc(), &message, &digests);
    assert_holds(rt, came.is_ok(), "a report");
    let came = came.ok().flatten();
    assert_same(rt, findings_of(&came), findings_of(&wanted), "findings");
    Ok(())
}

#[test]
fn digests_in_place_of_content(rt: HostRuntime) -> Result<(), Fail> {
    assert_alike(&rt, MIXED, b"abc")?;
    assert_alike(&rt, MIXED, b"")?;
    assert_alike(&rt, TWO_SIGNERS, b"abc")?;
    assert_alike(&rt, SMALLEST, b"abc")
}

/// Why there is no report by these digests.
fn assert_no_report(
    rt: &(impl Abort + AllocGlobal),
    input: &str,
    digests: &Digests,
    wanted: NoReport,
) -> Result<(), Fail> {
    let message = message_of(rt.alloc(), input)?;
    let came = by_digests(rt.alloc(), &message, digests).err();
    assert_same(rt, came, Some(wanted), "no report");
    Ok(())
}

#[test]
fn digests_not_given(rt: HostRuntime) -> Result<(), Fail> {
    let mut digests = Vec::new(rt.alloc());
    digests.push((HashAlg::Sha384, digest(HashAlg::Sha384, &[b"abc"])))?;
    let digests = Digests::new(digests);
    assert_no_report(&rt, MIXED, &digests, NoReport::NoDigest)?;
    assert_no_report(&rt, NO_CONTENT, &digests, NoReport::NoOctets)
}

#[test]
fn octets_needed(rt: HostRuntime) -> Result<(), Fail> {
    for (input, wanted) in [(NO_CONTENT, true), (MIXED, false)] {
        let message = message_of(rt.alloc(), input)?;
        let needs = message.signed_data().map(|it| needs_octets(&it));
        assert_same(&rt, needs, Some(wanted), input);
    }
    Ok(())
}

/// The digests that a message asks for of the data that were time-stamped.
fn data_digests(alloc: Global, message: &Message, data: &[u8]) -> Result<Digests, AllocError> {
    let algorithm = match message.view() {
        View::Request(request) => digest_asked_by_imprint(&request.message_imprint()),
        View::Signed(content_info) => digest_asked_by_token(alloc, &content_info.signed_data())?,
        View::Response(response) => match response.token() {
            Some(token) => digest_asked_by_token(alloc, &token.signed_data())?,
            None => None,
        },
    };
    let mut digesting = Digesting::new(alloc, algorithm.as_slice())?;
    digesting.add(data);
    digesting.finish(alloc)
}

fn data_by_digests(
    alloc: Global,
    message: &Message,
    digests: &Digests,
) -> Result<Report, NoReport> {
    let given = GivenDigests {
        stamped: Some(digests),
        ..GivenDigests::default()
    };
    match message.view() {
        View::Request(request) => check_request_digests(alloc, &request, given.stamped),
        View::Signed(content_info) => check_digests(alloc, &content_info.signed_data(), &given),
        View::Response(response) => check_response_digests(alloc, &response, &given),
    }
}

/// A message and data are checked by the digests that it asks for, as they are by the octets.
fn assert_data_alike(
    rt: &(impl Abort + AllocGlobal),
    input: &str,
    data: &[u8],
) -> Result<(), Fail> {
    let message = message_of(rt.alloc(), input)?;
    let digests = data_digests(rt.alloc(), &message, data)?;
    let wanted = check_message(rt.alloc(), &message, None, Some(data), &NoVerifier)?;
    let came = data_by_digests(rt.alloc(), &message, &digests);
    assert_holds(rt, came.is_ok(), "a report");
    let came = came.ok();
    assert_same(rt, findings_of(&came), findings_of(&Some(wanted)), input);
    Ok(())
}

#[test]
fn digests_in_place_of_data(rt: HostRuntime) -> Result<(), Fail> {
    for input in [SMALLEST_REQUEST, TOKEN, RESPONSE, SMALLEST, NO_CONTENT] {
        assert_data_alike(&rt, input, b"abc")?;
        assert_data_alike(&rt, input, b"xyz")?;
    }
    Ok(())
}

/// Each algorithm, in the order of its object identifier.
const ALGORITHMS: [HashAlg; 7] = [
    HashAlg::Sha256,
    HashAlg::Sha384,
    HashAlg::Sha512,
    HashAlg::Sha224,
    HashAlg::Sha512_224,
    HashAlg::Sha512_256,
    HashAlg::Sha1,
];

#[test]
fn digests_in_pieces(rt: HostRuntime) -> Result<(), Fail> {
    let mut digesting = Digesting::new(rt.alloc(), &ALGORITHMS)?;
    digesting.add(b"a");
    digesting.add(b"");
    digesting.add(b"bc");
    let digests = digesting.finish(rt.alloc())?;
    for algorithm in ALGORITHMS {
        let wanted = digest(algorithm, &[b"abc"]);
        assert_same(&rt, digests.by(algorithm), Some(wanted), "a digest");
        let mut octets = [0u8; 64];
        octets[..wanted.octets().len()].copy_from_slice(wanted.octets());
        let first = Hashed::first_of(algorithm, &octets);
        assert_same(&rt, first, wanted, "the first octets");
    }
    Ok(())
}
