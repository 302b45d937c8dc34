//! SignedData (RFC 5652, section 5.1).
ghost use Rattle.std.specs.Prelude.{◌≡◌, OnOk, OnErr};
ghost use Rattle.std.specs.String.{string_bytes};
ghost use Rattle.cms_fields.specs.Writing.{Grew};

use super::members::{append_first, append_list, append_member, append_name};
use super::signer::append_signers;
use super::tst_info::append_tst_info;
use crate::lines::hand_over;
use cms_message::{Choices, SignedData};
use std::alloc::{AllocError, Global};

/// Appends the fields of a SignedData and, if it is a time-stamp token, those of its TSTInfo as one JSON
/// object, and a line feed. An error means out of memory; `out` is then as it was.
pub fn list_signed_data_as_json(
    alloc: Global,
    signed_data: &SignedData<'_>,
    out: &mut String,
) -> Result<(), AllocError>
    ensures ok { OnOk result (Grew (string_bytes out.old) (string_bytes out.new)) }
    ensures err { OnErr result (string_bytes out.new ≡ string_bytes out.old) }
{
    let mut text = String::new(alloc);
    append_signed_data(signed_data, &mut text)?;
    hand_over(text, out)
}

fn append_signed_data(signed_data: &SignedData<'_>, text: &mut String) -> Result<(), AllocError> {
    append_first("kind", &"signed-data", text)?;
    append_member("version", &signed_data.version(), text)?;
    append_fields(signed_data, text)?;
    text.push_str("}\n")
}

/// Appends the fields after the version. An error means out of memory.
pub(super) fn append_fields(
    signed_data: &SignedData<'_>,
    text: &mut String,
) -> Result<(), AllocError> {
    append_name("digest_algorithms", text)?;
    append_list(&signed_data.digest_algorithms(), text)?;
    append_member("content_type", &signed_data.content_type(), text)?;
    append_member("content", &signed_data.content(), text)?;
    append_name("certificates", text)?;
    append_choices(signed_data.certificates(), text)?;
    append_name("crls", text)?;
    append_choices(signed_data.crls(), text)?;
    append_name("signers", text)?;
    append_signers(signed_data.signers(), text)?;
    append_name("tst_info", text)?;
    append_tst_info(signed_data, text)
}

/// Appends certificates or revocation information.
fn append_choices<I: Drop>(
    choices: Option<Choices<'_, I>>,
    text: &mut String,
) -> Result<(), AllocError> {
    match choices {
        Some(choices) => append_list(&choices, text),
        None => text.push_str("null"),
    }
}
