//! The rules for time-stamp tokens (RFC 3161, RFC 5816 and RFC 5035), each with its number.
ghost use Rattle.std.specs.Prelude.{◌≡◌, List, ℕ, Option, None, Some, if◌then◌else◌, option_map, option_to_list, IfOk, bytes_eq};
ghost use Rattle.cms_tlv.specs.Spelling.{join};
ghost use Rattle.cms_message.specs.SignedData.{certificates};
ghost use Rattle.cms_scalars.specs.Borrowed.{borrowed_pieces};
ghost use Rattle.cms_tsp.specs.TstInfo.{IsTstInfoOf};
ghost use Rattle.cms_tsp.specs.CertificateIdentifiers.{borrowed_cert_id};
ghost use Rattle.cms_tsp.specs.Requests.{hashed_message};
ghost use Rattle.cms_check.specs.Digests.{digest_octets};
ghost use Rattle.cms_check.specs.Known.{Correspond, IsContentOf, IsKnownOf};
ghost use Rattle.cms_check.specs.Tokens.{is_token, token_content, imprint_algorithm, has_unknown_imprint_algorithm, is_no_token, has_not_one_signer, has_no_tst_info, has_another_imprint, imprint_passes, cert_id_by, cert_id_among, signer_cert_id, cert_id_rules};
ghost use Rattle.cms_check.specs.Findings.{findings_of, imprint_rules};

use crate::attributes::only_attribute;
use crate::certificates::Certificates;
use crate::content::Content;
use crate::digests::{HashAlg, Hashed, digest};
use crate::known::{Known, NoReport};
use crate::report::Finding;
use cms_message::{Attributes, Indexed, SignedData, SignerInfo};
use cms_scalars::{
    ID_AA_SIGNING_CERTIFICATE, ID_AA_SIGNING_CERTIFICATE_V2, ID_CT_TST_INFO, Octets,
};
use cms_tsp::{CertId, MessageImprint, TstInfo, first_cert_id};
use std::alloc::{AllocError, Global};

/// Whether the content is a TSTInfo by its type (RFC 3161, section 2.4.2).
pub(crate) fn is_token(signed_data: &SignedData<'_>) -> bool
    ensures { result ≡ is_token signed_data.now }
{
    signed_data.content_type().octets() == ID_CT_TST_INFO
}

/// The TSTInfo of a token, if its content is one.
pub(crate) fn tst_info_of(
    alloc: Global,
    signed_data: &SignedData<'_>,
    content: &Option<Content<'_>>,
) -> Result<Option<TstInfo>, NoReport>
    ensures { IfOk result (λ read. (m : Option (List ℕ)) → Correspond IsContentOf content.now m
        → IsTstInfoOf (token_content signed_data.now m) read) }
{
    match content {
        Some(content) if is_token(signed_data) => content.tst_info(alloc),
        _ => Ok(None),
    }
}

/// F11: the message has to be a token, since that is said or data are given that it is for, and it is
/// not.
pub(crate) fn is_no_token(
    signed_data: &SignedData<'_>,
    stamped: Option<Known<'_>>,
    token: bool,
) -> bool
    ensures { (m : Option (List ℕ)) → Correspond IsKnownOf stamped.entry m
        → result ≡ is_no_token signed_data.now m token }
{
    (token || stamped.is_some()) && !is_token(signed_data)
}

/// F12: a token does not have exactly one signer (RFC 3161, section 2.4.2).
pub(crate) fn has_not_one_signer(signed_data: &SignedData<'_>) -> bool
    ensures { result ≡ has_not_one_signer signed_data.now }
{
    is_token(signed_data) && signed_data.signers().len() != 1
}

/// F13: the content of a token is not a TSTInfo in DER (RFC 3161, section 2.4.2).
pub(crate) fn has_no_tst_info(
    signed_data: &SignedData<'_>,
    content: &Option<Content<'_>>,
    tst_info: &Option<TstInfo>,
) -> bool
    ensures { (m : Option (List ℕ)) → Correspond IsContentOf content.now m
        → result ≡ has_no_tst_info signed_data.now m tst_info.now }
{
    is_token(signed_data) && content.is_some() && tst_info.is_none()
}

/// F8: the digest algorithm of a token's imprint is not known here.
pub(crate) fn token_has_unknown_imprint_algorithm(
    stamped: Option<Known<'_>>,
    tst_info: &Option<TstInfo>,
) -> bool
    ensures { (m : Option (List ℕ)) → Correspond IsKnownOf stamped.entry m
        → result ≡ imprint_passes (λ octets. has_unknown_imprint_algorithm) m tst_info.now }
{
    match (stamped, tst_info) {
        (Some(_), Some(tst_info)) => has_unknown_imprint_algorithm(&tst_info.message_imprint()),
        _ => false,
    }
}

/// F14: a token's imprint is not the digest of the data (RFC 3161, section 2.4.1).
pub(crate) fn token_has_another_imprint(
    stamped: Option<Known<'_>>,
    tst_info: &Option<TstInfo>,
) -> Result<bool, NoReport>
    ensures { IfOk result (λ b. (m : Option (List ℕ)) → Correspond IsKnownOf stamped.entry m
        → b ≡ imprint_passes has_another_imprint m tst_info.now) }
{
    match (stamped, tst_info) {
        (Some(data), Some(tst_info)) => has_another_imprint(data, &tst_info.message_imprint()),
        _ => Ok(false),
    }
}

/// What is wrong with an imprint for the data that were time-stamped: F8 if its digest algorithm is not
/// known here, F14 if it is not the digest of the data. No memory is taken.
pub fn check_imprint(imprint: &MessageImprint<'_>, stamped: &[u8]) -> Option<Finding>
    ensures { option_to_list result ≡ findings_of None (imprint_rules stamped.now imprint.now) }
{
    match imprint_algorithm(imprint) {
        Some(algorithm) => another_imprint(imprint, &digest(algorithm, &[stamped])),
        None => UNKNOWN_ALGORITHM,
    }
}

/// The finding on the imprint, by what is known of the data.
pub(crate) fn imprint_finding(
    imprint: &MessageImprint<'_>,
    stamped: Known<'_>,
) -> Result<Option<Finding>, NoReport>
    ensures { IfOk result (λ finding. (m : List ℕ) → IsKnownOf stamped.entry m
        → option_to_list finding ≡ findings_of None (imprint_rules m imprint.now)) }
{
    match imprint_algorithm(imprint) {
        Some(algorithm) => Ok(another_imprint(imprint, &stamped.digest(algorithm)?)),
        None => Ok(UNKNOWN_ALGORITHM),
    }
}

const UNKNOWN_ALGORITHM: Option<Finding> = Some(Finding {
    code: 8,
    signer: None,
});

/// F14 if an imprint is not this digest.
fn another_imprint(imprint: &MessageImprint<'_>, hashed: &Hashed) -> Option<Finding>
    ensures { result
        ≡ (if bytes_eq (hashed_message imprint.now) (digest_octets hashed.now)
        then None else Some (record { code = 14; signer = None })) }
{
    if are_joined(imprint.hashed_message(), hashed.octets()) {
        return None;
    }
    Some(Finding {
        code: 14,
        signer: None,
    })
}

/// The digest algorithm of an imprint, if it is known.
pub(crate) fn imprint_algorithm(imprint: &MessageImprint<'_>) -> Option<HashAlg>
    ensures { result ≡ imprint_algorithm imprint.now }
{
    HashAlg::of(&imprint.hash_algorithm().algorithm())
}

fn has_unknown_imprint_algorithm(imprint: &MessageImprint<'_>) -> bool
    ensures { result ≡ has_unknown_imprint_algorithm imprint.now }
{
    imprint_algorithm(imprint).is_none()
}

fn has_another_imprint(stamped: Known<'_>, imprint: &MessageImprint<'_>) -> Result<bool, NoReport>
    ensures { IfOk result (λ b. (m : List ℕ) → IsKnownOf stamped.entry m
        → b ≡ has_another_imprint m imprint.now) }
{
    match imprint_algorithm(imprint) {
        Some(algorithm) => {
            let hashed = stamped.digest(algorithm)?;
            Ok(!are_joined(imprint.hashed_message(), hashed.octets()))
        }
        None => Ok(false),
    }
}

/// Whether the pieces of a string make these octets, one after another.
fn are_joined(string: Octets<'_>, octets: &[u8]) -> bool
    ensures { result ≡ bytes_eq (join (borrowed_pieces string.entry)) octets.now }
{
    let mut rest = octets;
    for piece in string {
        match rest.strip_prefix(piece) {
            Some(behind) => rest = behind,
            None => return false,
        }
    }
    rest.is_empty()
}

/// Whether a signer of a token breaks the rules for its certificate identifier. All are false of a
/// signer of another message.
#[derive(Clone, Copy)]
pub(crate) struct CertIdRules {
    /// F8: its algorithm is not known here.
    pub(crate) unknown_algorithm: bool,
    /// F15: there is none (RFC 3161, section 2.4.2; RFC 5816, section 2.2.1).
    pub(crate) none: bool,
    /// F16: there are certificates, and none has the hash (RFC 5035, sections 4 and 6).
    pub(crate) no_certificate: bool,
}

const BREAKS_NONE: CertIdRules = CertIdRules {
    unknown_algorithm: false,
    none: false,
    no_certificate: false,
};

/// The rules for the certificate identifier of a signer; `known` has the certificates of the message. An
/// error means out of memory.
pub(crate) fn cert_id_rules(
    signed_data: &SignedData<'_>,
    signer: &SignerInfo<'_>,
    known: &mut Certificates<'_>,
) -> Result<CertIdRules, AllocError>
    requires { known.old ≡ certificates signed_data.now }
    ensures same { known.new ≡ known.old }
    ensures ok { IfOk result (λ broken. broken ≡ cert_id_rules signed_data.now signer.now) }
{
    if !is_token(signed_data) {
        return Ok(BREAKS_NONE);
    }
    let Some(cert_id) = signer_cert_id(signer) else {
        return Ok(CertIdRules {
            none: true,
            ..BREAKS_NONE
        });
    };
    match HashAlg::named(cert_id.algorithm) {
        Some(algorithm) => Ok(CertIdRules {
            no_certificate: known.lack(algorithm, cert_id.hash)?,
            ..BREAKS_NONE
        }),
        None => Ok(CertIdRules {
            unknown_algorithm: true,
            ..BREAKS_NONE
        }),
    }
}

/// The certificate identifier of a signer: that of signing-certificate-v2, else that of
/// signing-certificate.
fn signer_cert_id<'a>(signer: &SignerInfo<'a>) -> Option<CertId<'a>>
    ensures { option_map borrowed_cert_id result ≡ signer_cert_id signer.now }
{
    let attributes = signer.signed_attrs()?;
    match cert_id_by(&attributes, ID_AA_SIGNING_CERTIFICATE_V2) {
        Some(cert_id) => Some(cert_id),
        None => cert_id_by(&attributes, ID_AA_SIGNING_CERTIFICATE),
    }
}

/// The certificate identifier of the one attribute whose type has the contents octets `oid`.
fn cert_id_by<'a>(attributes: &Attributes<'a>, oid: &[u8]) -> Option<CertId<'a>>
    ensures { option_map borrowed_cert_id result ≡ cert_id_by oid.now attributes.now }
{
    first_cert_id(&only_attribute(attributes, oid)?)
}
