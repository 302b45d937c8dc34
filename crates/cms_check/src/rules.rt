//! The rules of RFC 5652, each with its number.
//!
//! F5 and F7 compare contents octets: signed attributes are in DER, so equal contents are equal
//! elements.
ghost use Rattle.std.specs.Prelude.{◌≡◌, ◌||◌, List, ℕ, Option, IfOk, not, bytes_eq};
ghost use Rattle.std.specs.List.{list_any};
ghost use Rattle.cms_message.specs.Algorithms.{algorithm};
ghost use Rattle.cms_message.specs.SignerInfo.{digest_algorithm};
ghost use Rattle.cms_check.specs.Known.{Correspond, IsContentOf};
ghost use Rattle.cms_check.specs.Rules.{has_another_version, signer_has_another_version, lacks_signed_attributes, lacks_content_type, has_another_content_type, lacks_message_digest, has_another_digest, has_unknown_digest_algorithm, is_bad, is_unknown, known_digest_algorithm};

use crate::attributes::{content_type, message_digest};
use crate::content::Content;
use crate::digest_oids::DigestOids;
use crate::digests::HashAlg;
use crate::known::NoReport;
use crate::tokens::CertIdRules;
use crate::verifier::Verdict;
use cms_message::{SignedData, SignerIdentifier, SignerInfo};
use cms_tlv::{OBJECT_IDENTIFIER, first_contents};

/// F1: the version is not the one that the message should have (RFC 5652, section 5.1).
pub(crate) fn has_another_version(signed_data: &SignedData<'_>) -> bool
    ensures { result ≡ has_another_version signed_data.now }
{
    signed_data.version().octets() != [signed_data.due_version()].as_slice()
}

/// F2: the version is not 1 with issuerAndSerialNumber, or not 3 with subjectKeyIdentifier (section
/// 5.3).
pub(crate) fn signer_has_another_version(signer: &SignerInfo<'_>) -> bool
    ensures { result ≡ signer_has_another_version signer.now }
{
    let due = match signer.sid() {
        SignerIdentifier::IssuerAndSerialNumber(_, _) => b"\x01",
        SignerIdentifier::SubjectKeyIdentifier(_) => b"\x03",
    };
    signer.version().octets() != due.as_slice()
}

/// F3: there are no signed attributes, and the content is not id-data (section 5.3).
pub(crate) fn lacks_signed_attributes(signed_data: &SignedData<'_>, signer: &SignerInfo<'_>) -> bool
    ensures { result ≡ lacks_signed_attributes signed_data.now signer.now }
{
    signer.signed_attrs().is_none() && !signed_data.is_data()
}

/// F4: there are signed attributes, but not exactly one content-type among them, with exactly one value
/// (sections 5.3 and 11.1).
pub(crate) fn lacks_content_type(signer: &SignerInfo<'_>) -> bool
    ensures { result ≡ lacks_content_type signer.now }
{
    match signer.signed_attrs() {
        Some(attributes) => content_type(&attributes).is_none(),
        None => false,
    }
}

/// F5: the value of content-type is not eContentType (section 11.1).
pub(crate) fn has_another_content_type(
    signed_data: &SignedData<'_>,
    signer: &SignerInfo<'_>,
) -> bool
    ensures { result ≡ has_another_content_type signed_data.now signer.now }
{
    let Some(attributes) = signer.signed_attrs() else {
        return false;
    };
    match content_type(&attributes) {
        Some(value) => {
            first_contents(value, OBJECT_IDENTIFIER) != Some(signed_data.content_type().octets())
        }
        None => false,
    }
}

/// F6: there are signed attributes, but not exactly one message-digest among them, with exactly one
/// value, an OCTET STRING (sections 5.3 and 11.2).
pub(crate) fn lacks_message_digest(signer: &SignerInfo<'_>) -> bool
    ensures { result ≡ lacks_message_digest signer.now }
{
    match signer.signed_attrs() {
        Some(attributes) => message_digest(&attributes).is_none(),
        None => false,
    }
}

/// F7: the octets of message-digest are not the digest of the content (sections 5.4 and 5.6).
pub(crate) fn has_another_digest(
    content: &mut Option<Content<'_>>,
    signer: &SignerInfo<'_>,
) -> Result<bool, NoReport>
    ensures same { content.new ≡ content.old }
    ensures ok { IfOk result (λ b. (m : Option (List ℕ)) → Correspond IsContentOf content.old m
        → b ≡ has_another_digest m signer.now) }
{
    let Some(attributes) = signer.signed_attrs() else {
        return Ok(false);
    };
    let (Some(octets), Some(algorithm)) = (message_digest(&attributes), algorithm_of(signer)) else {
        return Ok(false);
    };
    match content {
        Some(content) => Ok(octets != content.digest(algorithm)?.octets()),
        None => Ok(false),
    }
}

/// The digest algorithm of a signer, if it is known.
fn algorithm_of(signer: &SignerInfo<'_>) -> Option<HashAlg>
    ensures { result ≡ known_digest_algorithm signer.now }
{
    HashAlg::of(&signer.digest_algorithm().algorithm())
}

/// F8: the digest algorithm is not known here.
pub(crate) fn has_unknown_digest_algorithm(signer: &SignerInfo<'_>) -> bool
    ensures { result ≡ has_unknown_digest_algorithm signer.now }
{
    algorithm_of(signer).is_none()
}

/// F8: the digest algorithm of a signer or, in a token, that of its certificate identifier is not known
/// here.
pub(crate) fn has_unknown_algorithm(signer: &SignerInfo<'_>, cert_id: &CertIdRules) -> bool
    ensures { result ≡ (has_unknown_digest_algorithm signer.now || cert_id.now.unknown_algorithm) }
{
    has_unknown_digest_algorithm(signer) || cert_id.unknown_algorithm
}

/// F10: the digest algorithm is not among those of the message, whatever its parameters (section 5.3).
pub(crate) fn has_unlisted_digest_algorithm(
    listed: &DigestOids<'_>,
    signer: &SignerInfo<'_>,
) -> bool
    ensures { result ≡ not (list_any (λ n. bytes_eq n (algorithm (digest_algorithm signer.now)))
        listed.now) }
{
    !listed.has(signer.digest_algorithm().algorithm().octets())
}

/// F17: the verifier says that the signature is wrong (section 5.6).
pub(crate) fn is_bad(verdict: Option<Verdict>) -> bool
    ensures { result ≡ is_bad verdict }
{
    matches!(verdict, Some(Verdict::Bad))
}

/// F18: the verifier says that it cannot tell.
pub(crate) fn is_unknown(verdict: Option<Verdict>) -> bool
    ensures { result ≡ is_unknown verdict }
{
    matches!(verdict, Some(Verdict::Unknown))
}
