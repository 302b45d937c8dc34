//! The first certificate identifier of a signing-certificate attribute.
use crate::asserts::assert_same;
use crate::samples::message_of;
use cms_canon::Message;
use cms_message::{Attribute, Indexed};
use cms_tsp::{CertId, first_cert_id};
use std::alloc::Global;
use std::process::Abort;
use std::test::Fail;

/// A message up to the type of its one attribute, an unsigned one of its one signer.
const BEFORE: &str =
    "308006092a864886f70d010702a08030800201013100300b06092a864886f70d0107013180308002010130053000020109300506032a0304300506032a03040400a1803080";

/// The message after the values of that attribute: the ends of its eight elements of indefinite length.
const AFTER: &str = "00000000000000000000000000000000";

/// signingCertificate, which holds ESSCertIDs.
const FIRST: &str = "060b2a864886f70d010910020c";

/// signingCertificateV2, which holds ESSCertIDv2s.
const SECOND: &str = "060b2a864886f70d010910022f";

const SHA1: &[u8] = b"\x2b\x0e\x03\x02\x1a";

const SHA256: &[u8] = b"\x60\x86\x48\x01\x65\x03\x04\x02\x01";

/// An algorithm without a name here, 1.2.3.4.
const ANOTHER: &[u8] = b"\x2a\x03\x04";

/// The type of an attribute, its values, and its first certificate identifier: the algorithm and the hash.
type Case = (
    &'static str,
    &'static str,
    Option<(&'static [u8], &'static [u8])>,
);

const CASES: &[Case] = &[
    (FIRST, "300a30063004040207083000", Some((SHA1, b"\x07\x08"))),
    (SECOND, "300730053003040107", Some((SHA256, b"\x07"))),
    (SECOND, "3006300430020400", Some((SHA256, b""))),
    (
        SECOND,
        "300e300c300a300506032a0304040107",
        Some((ANOTHER, b"\x07")),
    ),
    (
        SECOND,
        "3010300e300c300706032a03040500040107",
        Some((ANOTHER, b"\x07")),
    ),
    // What follows is not looked at.
    (
        SECOND,
        "300f300b30070401073002050030000500",
        Some((SHA256, b"\x07")),
    ),
    // The first version names no algorithm.
    (FIRST, "300e300c300a300506032a0304040107", None),
    // An algorithm that is empty, is malformed, has no hash after it.
    (SECOND, "3009300730053000040107", None),
    (SECOND, "300e300c300a300506032a8004040107", None),
    (SECOND, "300b30093007300506032a0304", None),
    // No list, no identifier, no hash; elements of another kind.
    (SECOND, "3000", None),
    (SECOND, "30023000", None),
    (SECOND, "300430023000", None),
    (SECOND, "310730053003040107", None),
    (SECOND, "300731053003040107", None),
    (SECOND, "300730053103040107", None),
    (SECOND, "300730053003050107", None),
    // More values than one, and none.
    (SECOND, "300730053003040107300730053003040107", None),
    (SECOND, "", None),
    // An attribute of another type.
    ("06092a864886f70d010904", "300730053003040107", None),
];

/// A message with an attribute of this type and these values.
fn message_with(alloc: Global, attr_type: &str, values: &str) -> Result<Message, Fail> {
    let text = format!(in alloc; "{BEFORE}{attr_type}3180{values}{AFTER}")?;
    message_of(alloc, text.as_str())
}

/// The first unsigned attribute of the first signer.
fn first_unsigned<'a>(message: &'a Message) -> Option<Attribute<'a>> {
    let signer = message.signed_data()?.signer(0)?;
    signer.unsigned_attrs()?.get(0)
}

fn assert_cert_id(rt: &(impl Abort + AllocGlobal), case: &Case) -> Result<(), Fail> {
    let (attr_type, values, wanted) = case;
    let message = message_with(rt.alloc(), attr_type, values)?;
    let attribute = first_unsigned(&message).ok_or("no attribute")?;
    let wanted = wanted.map(|(algorithm, hash)| CertId { algorithm, hash });
    assert_same(rt, first_cert_id(&attribute), wanted, values);
    Ok(())
}

#[test]
fn first_certificate_identifiers(rt: HostRuntime) -> Result<(), Fail> {
    for case in CASES {
        assert_cert_id(&rt, case)?;
    }
    Ok(())
}

#[test]
fn only_values(rt: HostRuntime) -> Result<(), Fail> {
    for (values, wanted) in [
        ("", None),
        ("0500", Some(b"\x05\x00".as_slice())),
        ("05000500", None),
    ] {
        let message = message_with(rt.alloc(), FIRST, values)?;
        let attribute = first_unsigned(&message).ok_or("no attribute")?;
        assert_same(&rt, attribute.only_value(), wanted, values);
    }
    Ok(())
}
