//! The listing of a SignedData (RFC 5652, section 5.1).
ghost use Rattle.std.specs.Prelude.{◌≡◌, OnOk, OnErr};
ghost use Rattle.std.specs.String.{string_bytes};
ghost use Rattle.cms_fields.specs.Writing.{Grew};

use crate::lines::{Lines, hand_over};
use crate::signer::append_signer;
use crate::tst_info::append_tst_info;
use crate::values::OctetCount;
use cms_message::{
    CertificateChoices, CertificateKind, Choices, Indexed, RevocationInfoChoice,
    RevocationInfoKind, SignedData, certificate_kind, revocation_info_kind,
};
use std::alloc::{AllocError, Global};

/// Appends the listing of a SignedData and, if it is a time-stamp token, of its TSTInfo. An error means
/// out of memory; `out` is then as it was.
pub fn list_signed_data(
    alloc: Global,
    signed_data: &SignedData<'_>,
    out: &mut String,
) -> Result<(), AllocError>
    ensures ok { OnOk result (Grew (string_bytes out.old) (string_bytes out.new)) }
    ensures err { OnErr result (string_bytes out.new ≡ string_bytes out.old) }
{
    let mut text = String::new(alloc);
    append_signed_data(signed_data, &mut text)?;
    hand_over(text, out)
}

pub(crate) fn append_signed_data(
    signed_data: &SignedData<'_>,
    text: &mut String,
) -> Result<(), AllocError> {
    let mut lines = Lines::new("", text);
    lines.field("kind", &"signed-data")?;
    lines.field("version", &signed_data.version())?;
    append_digest_algorithms(signed_data, &mut lines)?;
    append_content(signed_data, &mut lines)?;
    append_choices("certificates", signed_data.certificates(), &mut lines)?;
    append_choices("crls", signed_data.crls(), &mut lines)?;
    lines.field("signers", &signed_data.signers().len())?;
    append_signers(signed_data, text)?;
    append_tst_info(signed_data, text)
}

fn append_digest_algorithms(
    signed_data: &SignedData<'_>,
    lines: &mut Lines<'_>,
) -> Result<(), AllocError> {
    let algorithms = signed_data.digest_algorithms();
    lines.field("digest-algorithms", &algorithms.len())?;
    for algorithm in algorithms {
        lines.member(&algorithm)?;
    }
    Ok(())
}

fn append_content(signed_data: &SignedData<'_>, lines: &mut Lines<'_>) -> Result<(), AllocError> {
    let content = signed_data.content().map(OctetCount::of_string);
    lines.field("content-type", &signed_data.content_type())?;
    lines.field("content", &content)
}

/// Choices whose alternatives have names.
trait Alternatives {
    /// The name of the alternative that an element is.
    fn name(element: &[u8]) -> &'static str;
}

impl Alternatives for CertificateChoices {
    fn name(element: &[u8]) -> &'static str {
        match certificate_kind(element) {
            CertificateKind::Certificate => "certificate",
            CertificateKind::ExtendedCertificate => "extended",
            CertificateKind::V1AttrCert => "v1-attribute",
            CertificateKind::V2AttrCert => "v2-attribute",
            CertificateKind::Other => "other",
        }
    }
}

impl Alternatives for RevocationInfoChoice {
    fn name(element: &[u8]) -> &'static str {
        match revocation_info_kind(element) {
            RevocationInfoKind::Crl => "crl",
            RevocationInfoKind::Other => "other",
        }
    }
}

/// Appends the lines of certificates or of revocation information.
fn append_choices<I: Alternatives + Drop>(
    field: &str,
    choices: Option<Choices<'_, I>>,
    lines: &mut Lines<'_>,
) -> Result<(), AllocError> {
    let Some(choices) = choices else {
        return lines.field(field, &"absent");
    };
    lines.field(field, &choices.len())?;
    for element in choices {
        lines.member(&(I::name(element), OctetCount::of(element)))?;
    }
    Ok(())
}

fn append_signers(signed_data: &SignedData<'_>, text: &mut String) -> Result<(), AllocError> {
    let signers = signed_data.signers();
    for (index, signer) in (0..signers.len()).zip(signers) {
        append_signer(index, &signer, text)?;
    }
    Ok(())
}
