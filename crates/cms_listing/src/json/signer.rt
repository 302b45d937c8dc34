//! SignerInfo and Attribute (RFC 5652, sections 5.3 and 11.4).

use super::members::{append_first, append_list, append_member, append_name};
use cms_message::{Attribute, Attributes, SignerIdentifier, SignerInfo, SignerInfos};
use cms_scalars::{Integer, Octets};
use std::alloc::AllocError;

/// How many countersignatures are in one another at most.
const LEVELS: u8 = 4;

/// Appends the signers of a message. An error means out of memory.
pub(super) fn append_signers(
    signers: SignerInfos<'_>,
    text: &mut String,
) -> Result<(), AllocError> {
    text.push('[')?;
    let mut between = "";
    for signer in signers {
        text.push_str(between)?;
        append_signer(&signer, LEVELS, text)?;
        between = ", ";
    }
    text.push(']')
}

/// Appends a signer or a countersignature, in which at most `levels` countersignatures are in one another.
#[cycle(signer)]
fn append_signer(signer: &SignerInfo<'_>, levels: u8, text: &mut String) -> Result<(), AllocError> {
    append_first("version", &signer.version(), text)?;
    append_sid(&signer.sid(), text)?;
    append_member("digest_algorithm", &signer.digest_algorithm(), text)?;
    append_name("signed_attributes", text)?;
    append_attributes(signer.signed_attrs(), 0, text)?;
    append_member("signature_algorithm", &signer.signature_algorithm(), text)?;
    append_member("signature", &signer.signature(), text)?;
    append_name("unsigned_attributes", text)?;
    append_attributes(signer.unsigned_attrs(), levels, text)?;
    text.push('}')
}

/// Appends the two alternatives of sid.
fn append_sid(sid: &SignerIdentifier<'_>, text: &mut String) -> Result<(), AllocError> {
    let (issuer, serial_number, key): (Option<&[u8]>, Option<Integer<'_>>, Option<Octets<'_>>) =
        match sid {
            SignerIdentifier::IssuerAndSerialNumber(issuer, serial_number) => {
                (Some(*issuer), Some(*serial_number), None)
            }
            SignerIdentifier::SubjectKeyIdentifier(key) => (None, None, Some(*key)),
        };
    append_member("issuer", &issuer, text)?;
    append_member("serial_number", &serial_number, text)?;
    append_member("subject_key_identifier", &key, text)
}

#[cycle(signer)]
fn append_attributes(
    attributes: Option<Attributes<'_>>,
    levels: u8,
    text: &mut String,
) -> Result<(), AllocError> {
    let Some(attributes) = attributes else {
        return text.push_str("null");
    };
    text.push('[')?;
    let mut between = "";
    for attribute in attributes {
        text.push_str(between)?;
        append_attribute(&attribute, levels, text)?;
        between = ", ";
    }
    text.push(']')
}

#[cycle(signer)]
fn append_attribute(
    attribute: &Attribute<'_>,
    levels: u8,
    text: &mut String,
) -> Result<(), AllocError> {
    append_first("oid", &attribute.attr_type(), text)?;
    append_name("values", text)?;
    append_list(&attribute.values(), text)?;
    append_name("countersignatures", text)?;
    append_countersignatures(attribute, levels, text)?;
    text.push('}')
}

#[cycle(signer)]
fn append_countersignatures(
    attribute: &Attribute<'_>,
    levels: u8,
    text: &mut String,
) -> Result<(), AllocError> {
    if levels == 0 {
        return text.push_str("[]");
    }
    text.push('[')?;
    let mut between = "";
    for countersignature in attribute.countersignatures() {
        text.push_str(between)?;
        append_signer(&countersignature, levels - 1, text)?;
        between = ", ";
    }
    text.push(']')
}
