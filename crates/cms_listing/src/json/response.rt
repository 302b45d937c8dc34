//! TimeStampResp (RFC 3161, section 2.4.2).
ghost use Rattle.std.specs.Prelude.{◌≡◌, OnOk, OnErr};
ghost use Rattle.std.specs.String.{string_bytes};
ghost use Rattle.cms_fields.specs.Writing.{Grew};

use super::members::{append_first, append_member, append_name};
use super::signed_data::append_fields;
use crate::lines::hand_over;
use cms_tsp::TimeStampResp;
use std::alloc::{AllocError, Global};

/// Appends the fields of a response and, if it has a token, those of the token as one JSON object, and a
/// line feed. An error means out of memory; `out` is then as it was.
pub fn list_response_as_json(
    alloc: Global,
    response: &TimeStampResp<'_>,
    out: &mut String,
) -> Result<(), AllocError>
    ensures ok { OnOk result (Grew (string_bytes out.old) (string_bytes out.new)) }
    ensures err { OnErr result (string_bytes out.new ≡ string_bytes out.old) }
{
    let mut text = String::new(alloc);
    append_response(response, &mut text)?;
    hand_over(text, out)
}

fn append_response(response: &TimeStampResp<'_>, text: &mut String) -> Result<(), AllocError> {
    let status_info = response.status_info();
    append_first("kind", &"response", text)?;
    append_name("response", text)?;
    append_first("status", &status_info.status(), text)?;
    append_member("status_string", &status_info.status_string(), text)?;
    append_member("fail_info", &status_info.fail_info(), text)?;
    append_name("token", text)?;
    append_token(response, text)?;
    text.push_str("}}\n")
}

/// Appends the SignedData of the token.
fn append_token(response: &TimeStampResp<'_>, text: &mut String) -> Result<(), AllocError> {
    let Some(token) = response.token() else {
        return text.push_str("null");
    };
    let signed_data = token.signed_data();
    append_first("version", &signed_data.version(), text)?;
    append_fields(&signed_data, text)?;
    text.push('}')
}
