//! The lines of a SignerInfo (RFC 5652, section 5.3).

use crate::lines::Lines;
use crate::values::OctetCount;
use cms_message::{Attributes, Indexed, SignerInfo};
use std::alloc::AllocError;

/// Appends the lines of the signer with the index `index`, each with the index but for those of its
/// attributes. An error means out of memory.
pub(crate) fn append_signer(
    index: u64,
    signer: &SignerInfo<'_>,
    text: &mut String,
) -> Result<(), AllocError> {
    let beginning = format!(in *text.allocator(); "signer {index} ")?;
    let mut lines = Lines::new(&beginning, text);
    lines.field("version", &signer.version())?;
    lines.field("id", &signer.sid())?;
    lines.field("digest", &signer.digest_algorithm())?;
    append_attributes("signed-attributes", signer.signed_attrs(), &mut lines)?;
    lines.field("signature-algorithm", &signer.signature_algorithm())?;
    lines.field("signature", &OctetCount::of_string(signer.signature()))?;
    append_attributes("unsigned-attributes", signer.unsigned_attrs(), &mut lines)
}

fn append_attributes(
    field: &str,
    attributes: Option<Attributes<'_>>,
    lines: &mut Lines<'_>,
) -> Result<(), AllocError> {
    let Some(attributes) = attributes else {
        return lines.field(field, &"absent");
    };
    lines.field(field, &attributes.len())?;
    for attribute in attributes {
        lines.member(&attribute)?;
    }
    Ok(())
}
