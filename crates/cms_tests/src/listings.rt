//! Listings of messages, of what no vector shows, and the lines of findings.
use crate::asserts::{assert_holds, assert_same};
use crate::samples::{REQUEST, message_of};
use cms_canon::{Message, View};
use cms_check::Finding;
use cms_listing::{list_findings, list_request, list_response, list_signed_data};
use cms_tsp::TstInfo;
use std::alloc::{AllocError, Global};
use std::process::Abort;
use std::test::Fail;

/// Fields that are there and empty; content and a signature in segments; two countersignatures.
pub const EMPTY_FIELDS: &str =
    "30819706092a864886f70d010702a081893081860201013100301606092a864886f70d010701a009240704026162040163a000a100316330610201038000300506032a0304300706032a0304050024070401aa0402bbcca141303f06092a864886f70d01090631323017020103800122300506032a0304300506032a03040401bb3017020103800122300506032a0304300506032a03040401bb";

const LISTING_OF_EMPTY_FIELDS: &str = "\
kind: signed-data
version: 1
digest-algorithms: 0
content-type: 1.2.840.113549.1.7.1 data
content: 3 octets
certificates: 0
crls: 0
signers: 1
signer 0 version: 3
signer 0 id: key\x20
signer 0 digest: 1.2.3.4 - absent
signer 0 signed-attributes: absent
signer 0 signature-algorithm: 1.2.3.4 - null
signer 0 signature: 3 octets
signer 0 unsigned-attributes: 1
  1.2.840.113549.1.9.6 countersignature 2
";

/// A TSTInfo before 1970, with an empty imprint, a negative serial number and milliseconds alone.
const TST_INFO: &str =
    "303402010106028837300b300706052b0e03021a04000201ff181331393639313233313233353935392e3132355a3003800101020100";

/// A token without signers, whose content is this TSTInfo in two segments.
pub const TOKEN: &str =
    "306306092a864886f70d010702a05630540201033100304b060b2a864886f70d0109100104a03c243a0414303402010106028837300b300706052b0e03021a042204000201ff181331393639313233313233353935392e3132355a30038001010201003100";

const LISTING_OF_TOKEN: &str = "\
kind: signed-data
version: 3
digest-algorithms: 0
content-type: 1.2.840.113549.1.9.16.1.4 tSTInfo
content: 54 octets
certificates: absent
crls: absent
signers: 0
tst-version: 1
tst-policy: 2.999 -
tst-imprint: 1.3.14.3.2.26 sha1 absent\x20
tst-serial: 0xff
tst-time: 1969-12-31T23:59:59.125Z -1
tst-accuracy: - 1 -
tst-ordering: false
tst-nonce: 0
tst-tsa: absent
tst-extensions: absent
";

const LISTING_OF_REQUEST: &str = "\
kind: request
version: 1
imprint: 2.16.840.1.101.3.4.2.1 sha256 absent 0102
policy: 1.2.3.4 -
nonce: 7
cert-req: true
extensions: 4 octets
";

/// A response whose status wants a token, which it does not have.
const RESPONSE: &str = "30053003020100";

const LISTING_OF_RESPONSE: &str = "\
kind: response
status: 0
status-string: absent
fail-info: absent
token: absent
";

fn append_listing(alloc: Global, message: &Message, out: &mut String) -> Result<(), AllocError> {
    match message.view() {
        View::Signed(content_info) => list_signed_data(alloc, &content_info.signed_data(), out),
        View::Request(request) => list_request(alloc, &request, out),
        View::Response(response) => list_response(alloc, &response, out),
    }
}

const LISTINGS: &[(&str, &str)] = &[
    (EMPTY_FIELDS, LISTING_OF_EMPTY_FIELDS),
    (TOKEN, LISTING_OF_TOKEN),
    (REQUEST, LISTING_OF_REQUEST),
    (RESPONSE, LISTING_OF_RESPONSE),
];

#[test]
fn listings_one_after_another(rt: HostRuntime) -> Result<(), Fail> {
    let mut out = String::new(rt.alloc());
    let mut wanted = String::new(rt.alloc());
    for (input, listing) in LISTINGS {
        append_listing(rt.alloc(), &message_of(rt.alloc(), input)?, &mut out)?;
        wanted.push_str(listing)?;
        assert_same(&rt, out.as_str(), wanted.as_str(), input);
    }
    Ok(())
}

/// The last finding, and a line for each, for the message.
const LAST: u8 = 19;

const LINES: &str = "\
F1 version does not follow the version rule
F2 version does not fit the signer identifier
F3 signed attributes missing
F4 content-type attribute not once with one value
F5 content-type attribute names another type
F6 message-digest attribute not once with one octet string
F7 message digest differs
F8 digest algorithm unknown
F9 no content
F10 digest algorithm not listed
F11 not a time-stamp token
F12 token has not one signer
F13 content is not a TSTInfo in DER
F14 imprint differs
F15 no signing-certificate attribute
F16 no certificate has the hash
F17 verifier says bad
F18 verifier says unknown
F19 token does not fit the status
";

#[test]
fn lines_of_all_findings(rt: HostRuntime) -> Result<(), Fail> {
    let mut findings = Vec::new(rt.alloc());
    for code in 1..LAST + 1 {
        let signer = None;
        findings.push(Finding { code, signer })?;
    }
    let mut out = String::new(rt.alloc());
    list_findings(rt.alloc(), &findings, &mut out)?;
    assert_same(&rt, out.as_str(), LINES, "the lines");
    Ok(())
}

#[test]
fn lines_of_a_signer_and_of_nothing(rt: HostRuntime) -> Result<(), Fail> {
    let signer = Some(u64::MAX);
    let mut out = String::new(rt.alloc());
    list_findings(rt.alloc(), &[Finding { code: 10, signer }], &mut out)?;
    list_findings(rt.alloc(), &[], &mut out)?;
    let wanted = "F10 signer 18446744073709551615 digest algorithm not listed\nno findings\n";
    assert_same(&rt, out.as_str(), wanted, "the lines");
    Ok(())
}

/// Whether these pieces, one after another, are a TSTInfo of version 1.
fn is_tst_info(alloc: Global, pieces: &[&[u8]]) -> Result<bool, AllocError> {
    match TstInfo::from_pieces(alloc, pieces)? {
        Some(tst_info) => Ok(tst_info.version().to_u64() == Some(1)),
        None => Ok(false),
    }
}

fn assert_pieces(rt: &(impl Abort + AllocGlobal), octets: &[u8]) -> Result<(), Fail> {
    for at in 0..octets.len() {
        let (first, second) = octets.split_at(at);
        let whole = is_tst_info(rt.alloc(), &[first, &[], second])?;
        assert_holds(rt, whole, "it is one in three pieces");
        let one = is_tst_info(rt.alloc(), &[first])?;
        assert_holds(rt, !one, "it is none without its end");
    }
    Ok(())
}

#[test]
fn tst_info_of_pieces(rt: HostRuntime) -> Result<(), Fail> {
    let octets = hex::decode(rt.alloc(), TST_INFO)?;
    assert_pieces(&rt, &octets)?;
    assert_holds(
        &rt,
        is_tst_info(rt.alloc(), &[&octets])?,
        "it is one in one piece",
    );
    assert_holds(&rt, !is_tst_info(rt.alloc(), &[])?, "no piece is none");
    Ok(())
}

/// A TSTInfo is put after what was there before.
#[test]
fn tst_info_put(rt: HostRuntime) -> Result<(), Fail> {
    let octets = hex::decode(rt.alloc(), TST_INFO)?;
    let tst_info = TstInfo::from_der(rt.alloc(), &octets)?;
    let mut out = Vec::from_slice(rt.alloc(), b"abc")?;
    tst_info.put(rt.alloc(), &mut out)?;
    let wanted = [b"abc".as_slice(), octets.as_slice()].concat(rt.alloc())?;
    assert_same(&rt, out.as_slice(), wanted.as_slice(), "what is put");
    Ok(())
}
