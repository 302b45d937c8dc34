//! Signers, attributes, certificates and revocation information of messages that were read.
use crate::asserts::{assert_hex, assert_holds, assert_same};
use crate::samples::{SIGNED, TWO_SIGNERS, message_of};
use cms_canon::Message;
use cms_message::{
    Attribute, Attributes, CertificateKind, Indexed, RevocationInfoKind, SignedData,
    SignerIdentifier, SignerInfo, certificate_kind, first_attribute, revocation_info_kind,
};
use cms_scalars::Octets;
use std::process::Abort;
use std::test::Fail;

/// One signer, with the issuer and the serial number, and an empty signature.
const ISSUER_AND_SERIAL: &str =
    "304306092a864886f70d010702a03630340201013100300b06092a864886f70d0107013120301e020101308030000201090000300506032a0304300506032a030424800000";

/// One certificate or piece of revocation information of each kind.
const EVERY_KIND: &str =
    "303506092a864886f70d010702a02830260201053100300b06092a864886f70d010701a00aa300a200a100a0003000a104a10030003100";

const CONTENT_TYPE: &[u8] = b"\x2a\x86\x48\x86\xf7\x0d\x01\x09\x03";

const SIGNING_TIME: &[u8] = b"\x2a\x86\x48\x86\xf7\x0d\x01\x09\x05";

fn signed_data<'a>(message: &'a Message) -> Result<SignedData<'a>, Fail> {
    Ok(message.signed_data().ok_or("no signed data")?)
}

/// The signer of this index.
fn signer_at<'a>(signed_data: &SignedData<'a>, index: u64) -> Result<SignerInfo<'a>, Fail> {
    Ok(signed_data.signer(index).ok_or("no signer")?)
}

/// Asserts that these are the octets of a string's first piece.
fn assert_first_piece(
    rt: &(impl Abort + AllocGlobal),
    octets: &Octets<'_>,
    wanted: &str,
    case: &str,
) -> Result<(), Fail> {
    assert_hex(rt, octets.piece(0).ok_or("no piece")?, wanted, case)
}

fn assert_attribute(
    rt: &(impl Abort + AllocGlobal),
    attribute: &Attribute<'_>,
    attr_type: &str,
    values: &[&str],
) -> Result<(), Fail> {
    assert_hex(rt, attribute.attr_type().octets(), attr_type, "the type")?;
    let count = values.len() as u64;
    assert_same(rt, attribute.count(), count, attr_type);
    assert_same(rt, attribute.values().len(), count, attr_type);
    assert_holds(rt, attribute.value(count).is_none(), attr_type);
    for (value, want) in attribute.values().into_iter().zip(values) {
        assert_hex(rt, value, want, attr_type)?;
    }
    Ok(())
}

fn assert_message_digest(
    rt: &(impl Abort + AllocGlobal),
    attributes: &Attributes<'_>,
) -> Result<(), Fail> {
    let second = attributes.get(1).ok_or("no second attribute")?;
    let digest = "0420ba7816bf8f01cfea414140de5dae2223b00361a396177a9cb410ff61f20015ad";
    assert_attribute(rt, &second, "2a864886f70d010904", &[digest])
}

fn assert_content_type(
    rt: &(impl Abort + AllocGlobal),
    attributes: &Attributes<'_>,
) -> Result<(), Fail> {
    let first = first_attribute(attributes, CONTENT_TYPE).ok_or("no content type")?;
    let content_type = "06092a864886f70d010701";
    assert_attribute(rt, &first, "2a864886f70d010903", &[content_type])
}

fn assert_signed_attributes(
    rt: &(impl Abort + AllocGlobal),
    attributes: &Attributes<'_>,
) -> Result<(), Fail> {
    assert_same(rt, attributes.len(), 2, "how many attributes");
    assert_holds(rt, !attributes.is_empty(), "there are attributes");
    assert_holds(rt, attributes.get(2).is_none(), "there is no third");
    let signing_time = first_attribute(attributes, SIGNING_TIME);
    assert_holds(rt, signing_time.is_none(), "there is no signing time");
    assert_message_digest(rt, attributes)?;
    assert_content_type(rt, attributes)
}

fn assert_algorithms(rt: &(impl Abort + AllocGlobal), signer: &SignerInfo<'_>) -> Result<(), Fail> {
    let digest = signer.digest_algorithm().algorithm();
    assert_hex(rt, digest.octets(), "608648016503040201", "the digest")?;
    let algorithm = signer.signature_algorithm();
    let identifier = algorithm.algorithm();
    assert_hex(
        rt,
        identifier.octets(),
        "2a0304",
        "the signature's algorithm",
    )?;
    assert_holds(rt, algorithm.parameters().is_none(), "its parameters");
    Ok(())
}

fn assert_signer(rt: &(impl Abort + AllocGlobal), signer: &SignerInfo<'_>) -> Result<(), Fail> {
    assert_hex(rt, signer.version().octets(), "03", "the version")?;
    let signature = signer.signature();
    assert_same(rt, signature.pieces(), 1, "the signature's pieces");
    assert_first_piece(rt, &signature, "aa", "the signature")?;
    let unsigned = signer.unsigned_attrs();
    assert_holds(rt, unsigned.is_none(), "no unsigned attributes");
    let octets = signer.signed_attrs_octets().ok_or("no signed attributes")?;
    let begin = octets.get(..3);
    assert_same(rt, begin, Some(b"\xa0\x4b\x30"), "how they begin");
    assert_same(rt, octets.len(), 77, "how long they are");
    Ok(())
}

fn assert_key_identifier(
    rt: &(impl Abort + AllocGlobal),
    signer: &SignerInfo<'_>,
) -> Result<(), Fail> {
    match signer.sid() {
        SignerIdentifier::SubjectKeyIdentifier(key) => {
            assert_first_piece(rt, &key, "11", "the key identifier")
        }
        SignerIdentifier::IssuerAndSerialNumber(_, _) => {
            Err("the signer is told by issuer and serial number".into())
        }
    }
}

#[test]
fn signer_with_signed_attributes(rt: HostRuntime) -> Result<(), Fail> {
    let message = message_of(rt.alloc(), SIGNED)?;
    let signed_data = signed_data(&message)?;
    assert_same(&rt, signed_data.signers().len(), 1, "how many signers");
    assert_holds(&rt, signed_data.signer(1).is_none(), "there is no second");
    assert_same(&rt, signed_data.due_version(), 3, "the version due");
    let signer = signer_at(&signed_data, 0)?;
    assert_signer(&rt, &signer)?;
    assert_algorithms(&rt, &signer)?;
    assert_key_identifier(&rt, &signer)?;
    let attributes = signer.signed_attrs().ok_or("no signed attributes")?;
    assert_signed_attributes(&rt, &attributes)
}

fn assert_without_signed_attributes(
    rt: &(impl Abort + AllocGlobal),
    signer: &SignerInfo<'_>,
) -> Result<(), Fail> {
    let signed = signer.signed_attrs();
    assert_holds(rt, signed.is_none(), "no signed attributes");
    let octets = signer.signed_attrs_octets();
    assert_holds(rt, octets.is_none(), "no octets of them");
    let attributes = signer.unsigned_attrs().ok_or("no unsigned attributes")?;
    assert_same(rt, attributes.len(), 1, "how many unsigned attributes");
    let attribute = attributes.get(0).ok_or("no attribute")?;
    assert_attribute(rt, &attribute, "2a0305", &["020107", "020108"])
}

fn assert_without_attributes(
    rt: &(impl Abort + AllocGlobal),
    signer: &SignerInfo<'_>,
) -> Result<(), Fail> {
    let unsigned = signer.unsigned_attrs();
    assert_holds(rt, unsigned.is_none(), "no unsigned attributes");
    assert_first_piece(rt, &signer.signature(), "bb", "the signature")
}

#[test]
fn unsigned_attributes(rt: HostRuntime) -> Result<(), Fail> {
    let message = message_of(rt.alloc(), TWO_SIGNERS)?;
    let signed_data = signed_data(&message)?;
    assert_same(&rt, signed_data.signers().len(), 2, "how many signers");
    let first = signer_at(&signed_data, 0)?;
    assert_without_signed_attributes(&rt, &first)?;
    let second = signer_at(&signed_data, 1)?;
    assert_without_attributes(&rt, &second)
}

fn assert_issuer_and_serial(
    rt: &(impl Abort + AllocGlobal),
    signer: &SignerInfo<'_>,
) -> Result<(), Fail> {
    match signer.sid() {
        SignerIdentifier::IssuerAndSerialNumber(issuer, serial_number) => {
            assert_hex(rt, issuer, "3000", "the issuer")?;
            assert_hex(rt, serial_number.octets(), "09", "the serial number")
        }
        SignerIdentifier::SubjectKeyIdentifier(_) => {
            Err("the signer is told by a key identifier".into())
        }
    }
}

#[test]
fn issuer_and_serial_number(rt: HostRuntime) -> Result<(), Fail> {
    let message = message_of(rt.alloc(), ISSUER_AND_SERIAL)?;
    let signed_data = signed_data(&message)?;
    assert_same(&rt, signed_data.due_version(), 1, "the version due");
    let certificates = signed_data.certificates();
    assert_holds(&rt, certificates.is_none(), "no certificates");
    let crls = signed_data.crls();
    assert_holds(&rt, crls.is_none(), "no revocation information");
    let signer = signer_at(&signed_data, 0)?;
    let pieces = signer.signature().pieces();
    assert_same(&rt, pieces, 0, "the signature's pieces");
    assert_issuer_and_serial(&rt, &signer)
}

const CERTIFICATE_KINDS: &[CertificateKind] = &[
    CertificateKind::Other,
    CertificateKind::V2AttrCert,
    CertificateKind::V1AttrCert,
    CertificateKind::ExtendedCertificate,
    CertificateKind::Certificate,
];

const REVOCATION_KINDS: &[RevocationInfoKind] = &[
    RevocationInfoKind::Other,
    RevocationInfoKind::Crl,
];

#[test]
fn certificates_of_every_kind(rt: HostRuntime) -> Result<(), Fail> {
    let message = message_of(rt.alloc(), EVERY_KIND)?;
    let signed_data = signed_data(&message)?;
    assert_same(&rt, signed_data.due_version(), 5, "the version due");
    let certificates = signed_data.certificates().ok_or("no certificates")?;
    let count = CERTIFICATE_KINDS.len() as u64;
    assert_same(&rt, certificates.len(), count, "how many certificates");
    assert_holds(&rt, certificates.get(count).is_none(), "none past the last");
    for ident in [0x30, 0xa0, 0xa1, 0xa2, 0xa3] {
        assert_holds(&rt, certificates.any_begins_with(ident), "one begins so");
    }
    for (certificate, kind) in certificates.into_iter().zip(CERTIFICATE_KINDS) {
        assert_same(&rt, certificate_kind(certificate), *kind, "the kind");
    }
    Ok(())
}

#[test]
fn revocation_information_of_every_kind(rt: HostRuntime) -> Result<(), Fail> {
    let message = message_of(rt.alloc(), EVERY_KIND)?;
    let signed_data = signed_data(&message)?;
    let crls = signed_data.crls().ok_or("no revocation information")?;
    let count = REVOCATION_KINDS.len() as u64;
    assert_same(&rt, crls.len(), count, "how many pieces");
    assert_holds(&rt, crls.any_begins_with(0xa1), "the first begins so");
    assert_holds(&rt, !crls.any_begins_with(0xa0), "none begins so");
    for (crl, kind) in crls.into_iter().zip(REVOCATION_KINDS) {
        assert_same(&rt, revocation_info_kind(crl), *kind, "the kind");
    }
    Ok(())
}

fn assert_due_version(
    rt: &(impl Abort + AllocGlobal),
    input: &str,
    version: u8,
) -> Result<(), Fail> {
    let message = message_of(rt.alloc(), input)?;
    assert_same(rt, signed_data(&message)?.due_version(), version, input);
    Ok(())
}

/// The version that a message should have with a set of one certificate or piece of revocation
/// information.
#[test]
fn due_versions(rt: HostRuntime) -> Result<(), Fail> {
    let cases = [
        ("a002a300", 5),
        ("a102a100", 5),
        ("a002a200", 4),
        ("a002a100", 3),
        ("a0023000", 1),
        ("a1023000", 1),
    ];
    for (set, version) in cases {
        let input = format!(in rt.alloc();
            "302706092a864886f70d010702a01a30180201013100300b06092a864886f70d010701{set}3100"
        )?;
        assert_due_version(&rt, input.as_str(), version)?;
    }
    let other_content =
        "302306092a864886f70d010702a01630140201013100300b06092a864886f70d0107023100";
    assert_due_version(&rt, other_content, 3)
}
