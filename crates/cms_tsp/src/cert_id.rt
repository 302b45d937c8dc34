//! The certificate that a signing-certificate attribute names (RFC 5035, sections 3 to 6).
ghost use Rattle.std.specs.Prelude.{◌≡◌, option_map};
ghost use Rattle.std.specs.Option.{option_copied};
ghost use Rattle.cms_scalars.specs.Borrowed.{borrowed_oid};
ghost use Rattle.cms_tsp.specs.CertificateIdentifiers.{borrowed_cert_id, first_of_certs, cert_hash, ess_cert_id, algorithm_in, ess_cert_id_v2, first_in, first_cert_id};

use cms_message::Attribute;
use cms_scalars::{
    ID_AA_SIGNING_CERTIFICATE, ID_AA_SIGNING_CERTIFICATE_V2, ID_SHA1, ID_SHA256, Oid,
};
use cms_tlv::{OBJECT_IDENTIFIER, OCTET_STRING, SEQUENCE, first_contents, first_element};

/// The hash of a certificate, and the algorithm that made it.
#[derive(Clone, Copy, Debug, PartialEq, Eq)]
pub struct CertId<'a> {
    /// The contents octets of the algorithm's OBJECT IDENTIFIER.
    pub algorithm: &'a [u8],
    /// The octets of the hash.
    pub hash: &'a [u8],
}

/// The first certificate identifier in a signing-certificate attribute, an ESSCertID, whose algorithm is
/// SHA-1, or an ESSCertIDv2, whose algorithm is SHA-256 unless it names one (RFC 5035, sections 3 to 6).
///
/// None if the attribute is of another type, has more or fewer values than one, or does not begin with
/// such an identifier. What follows the hash is not looked at.
pub fn first_cert_id<'a>(attribute: &Attribute<'a>) -> Option<CertId<'a>>
    ensures { option_map borrowed_cert_id result ≡ first_cert_id attribute.now }
{
    let attr_type = attribute.attr_type().octets();
    if attr_type == ID_AA_SIGNING_CERTIFICATE {
        ess_cert_id(first_in(attribute)?)
    } else if attr_type == ID_AA_SIGNING_CERTIFICATE_V2 {
        ess_cert_id_v2(first_in(attribute)?)
    } else {
        None
    }
}

/// The contents of the first identifier in the one value of `attribute`.
fn first_in<'a>(attribute: &Attribute<'a>) -> Option<&'a [u8]>
    ensures { option_copied result ≡ first_in attribute.now }
{
    first_of_certs(attribute.only_value()?)
}

/// The contents of the first identifier in a SigningCertificate or a SigningCertificateV2.
fn first_of_certs(value: &[u8]) -> Option<&[u8]>
    ensures { option_copied result ≡ first_of_certs value.now }
{
    let fields = first_contents(value, SEQUENCE)?;
    let certs = first_contents(fields, SEQUENCE)?;
    first_contents(certs, SEQUENCE)
}

/// The ESSCertID that has these contents.
fn ess_cert_id(octets: &[u8]) -> Option<CertId<'_>>
    ensures { option_map borrowed_cert_id result ≡ ess_cert_id octets.now }
{
    let hash = cert_hash(octets)?;
    Some(CertId {
        algorithm: ID_SHA1,
        hash,
    })
}

/// The ESSCertIDv2 that has these contents.
fn ess_cert_id_v2(octets: &[u8]) -> Option<CertId<'_>>
    ensures { option_map borrowed_cert_id result ≡ ess_cert_id_v2 octets.now }
{
    let Some((algorithm, rest)) = first_element(octets, SEQUENCE) else {
        let hash = cert_hash(octets)?;
        return Some(CertId {
            algorithm: ID_SHA256,
            hash,
        });
    };
    let algorithm = algorithm_in(algorithm)?.octets();
    let hash = cert_hash(rest)?;
    Some(CertId { algorithm, hash })
}

/// The algorithm of an AlgorithmIdentifier that has these contents.
fn algorithm_in(octets: &[u8]) -> Option<Oid<'_>>
    ensures { option_map borrowed_oid result ≡ algorithm_in octets.now }
{
    Oid::of(first_contents(octets, OBJECT_IDENTIFIER)?)
}

/// The hash that `octets` begin with.
fn cert_hash(octets: &[u8]) -> Option<&[u8]>
    ensures { option_copied result ≡ cert_hash octets.now }
{
    first_contents(octets, OCTET_STRING)
}
