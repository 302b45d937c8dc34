//! The listing of a TimeStampResp (RFC 3161, section 2.4.2).
ghost use Rattle.std.specs.Prelude.{◌≡◌, OnOk, OnErr};
ghost use Rattle.std.specs.String.{string_bytes};
ghost use Rattle.cms_fields.specs.Writing.{Grew};

use crate::lines::{Lines, hand_over};
use crate::signed_data::append_signed_data;
use crate::values::OctetCount;
use cms_tsp::TimeStampResp;
use std::alloc::{AllocError, Global};

/// Appends the listing of a response and, if it has a token, that of the token. An error means out of
/// memory; `out` is then as it was.
pub fn list_response(
    alloc: Global,
    response: &TimeStampResp<'_>,
    out: &mut String,
) -> Result<(), AllocError>
    ensures ok { OnOk result (Grew (string_bytes out.old) (string_bytes out.new)) }
    ensures err { OnErr result (string_bytes out.new ≡ string_bytes out.old) }
{
    let mut text = String::new(alloc);
    append_response(response, &mut text)?;
    hand_over(text, out)
}

fn append_response(response: &TimeStampResp<'_>, text: &mut String) -> Result<(), AllocError> {
    let status_info = response.status_info();
    let status_string = status_info.status_string().map(OctetCount::of);
    let mut lines = Lines::new("", text);
    lines.field("kind", &"response")?;
    lines.field("status", &status_info.status())?;
    lines.field("status-string", &status_string)?;
    lines.field("fail-info", &status_info.fail_info())?;
    match response.token() {
        Some(token) => {
            lines.field("token", &"present")?;
            append_signed_data(&token.signed_data(), text)
        }
        None => lines.field("token", &"absent"),
    }
}
