//! The parts of time-stamping requests and responses that were read.
use crate::asserts::{assert_holds, assert_same};
use crate::samples::{REQUEST, SMALLEST_REQUEST, message_of};
use cms_canon::View;
use cms_scalars::Integer;
use cms_tsp::{MessageImprint, PkiStatusInfo, TimeStampReq};
use std::process::Abort;
use std::test::Fail;

/// A number's value, if there is one.
fn value(number: Option<Integer<'_>>) -> Option<u64> {
    number?.to_u64()
}

fn assert_every_field(
    rt: &(impl Abort + AllocGlobal),
    request: &TimeStampReq<'_>,
) -> Result<(), Fail> {
    assert_same(rt, value(Some(request.version())), Some(1), "the version");
    assert_imprint(rt, &request.message_imprint());
    let policy = request.req_policy().ok_or("no policy")?;
    assert_same(rt, policy.octets(), b"\x2a\x03\x04", "the policy");
    assert_same(rt, value(request.nonce()), Some(7), "the nonce");
    assert_holds(rt, request.cert_req(), "the certificate is asked for");
    let extensions = b"\xa0\x02\x30\x00".as_slice();
    assert_same(rt, request.extensions(), Some(extensions), "the extensions");
    Ok(())
}

fn assert_imprint(rt: &impl Abort, imprint: &MessageImprint<'_>) {
    let name = imprint.hash_algorithm().algorithm().name();
    assert_same(rt, name, Some("sha256"), "the hash algorithm");
    let pieces = imprint.hashed_message().pieces();
    assert_same(rt, pieces, 2, "the pieces of the hash");
}

fn assert_no_optional_field(rt: &impl Abort, request: &TimeStampReq<'_>) {
    assert_holds(rt, request.req_policy().is_none(), "no policy");
    assert_holds(rt, request.nonce().is_none(), "no nonce");
    assert_holds(rt, !request.cert_req(), "no certificate is asked for");
    assert_holds(rt, request.extensions().is_none(), "no extensions");
}

#[test]
fn parts_of_the_whole_request(rt: HostRuntime) -> Result<(), Fail> {
    let message = message_of(rt.alloc(), REQUEST)?;
    let View::Request(request) = message.view() else {
        return Err("no request".into());
    };
    assert_every_field(&rt, &request)
}

#[test]
fn parts_of_the_smallest_request(rt: HostRuntime) -> Result<(), Fail> {
    let message = message_of(rt.alloc(), SMALLEST_REQUEST)?;
    let View::Request(request) = message.view() else {
        return Err("no request".into());
    };
    assert_no_optional_field(&rt, &request);
    Ok(())
}

/// A response and its parts.
struct Parts {
    input: &'static str,
    status: u64,
    text: Option<&'static [u8]>,
    /// How many bits failInfo has, if it is present.
    width: Option<u64>,
    has_token: bool,
    agrees: bool,
}

const RESPONSES: &[Parts] = &[
    Parts {
        input: "30053003020100",
        status: 0,
        text: None,
        width: None,
        has_token: false,
        agrees: false,
    },
    Parts {
        input: "30053003020102",
        status: 2,
        text: None,
        width: None,
        has_token: false,
        agrees: true,
    },
    Parts {
        input: "30083006020102030100",
        status: 2,
        text: None,
        width: Some(0),
        has_token: false,
        agrees: true,
    },
    Parts {
        input: "3009300702010203020780",
        status: 2,
        text: None,
        width: Some(1),
        has_token: false,
        agrees: true,
    },
    Parts {
        input: "300b300902010230040c026e6f",
        status: 2,
        text: Some(b"\x30\x04\x0c\x02no"),
        width: None,
        has_token: false,
        agrees: true,
    },
    Parts {
        input: "302a3003020100302306092a864886f70d010702a01630140201013100300b06092a864886f70d0107013100",
        status: 0,
        text: None,
        width: None,
        has_token: true,
        agrees: true,
    },
];

fn assert_status(rt: &impl Abort, info: &PkiStatusInfo<'_>, want: &Parts) {
    let name = want.input;
    assert_same(rt, value(Some(info.status())), Some(want.status), name);
    assert_same(rt, info.status_string(), want.text, name);
    let width = info.fail_info().map(|bits| bits.width());
    assert_same(rt, width, want.width, name);
}

fn assert_parts(rt: &(impl Abort + AllocGlobal), want: &Parts) -> Result<(), Fail> {
    let message = message_of(rt.alloc(), want.input)?;
    let View::Response(response) = message.view() else {
        return Err("no response".into());
    };
    assert_status(rt, &response.status_info(), want);
    let has_token = response.token().is_some();
    assert_same(rt, has_token, want.has_token, want.input);
    assert_same(rt, response.status_agrees(), want.agrees, want.input);
    Ok(())
}

#[test]
fn parts_of_responses(rt: HostRuntime) -> Result<(), Fail> {
    for want in RESPONSES {
        assert_parts(&rt, want)?;
    }
    Ok(())
}
