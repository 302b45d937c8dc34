//! TimeStampReq (RFC 3161, section 2.4.1).
ghost use Rattle.std.specs.Prelude.{◌≡◌, OnOk, OnErr};
ghost use Rattle.std.specs.String.{string_bytes};
ghost use Rattle.cms_fields.specs.Writing.{Grew};

use super::members::{append_first, append_member, append_name};
use crate::lines::hand_over;
use cms_tsp::TimeStampReq;
use std::alloc::{AllocError, Global};

/// Appends the fields of a request as one JSON object, and a line feed. An error means out of memory;
/// `out` is then as it was.
pub fn list_request_as_json(
    alloc: Global,
    request: &TimeStampReq<'_>,
    out: &mut String,
) -> Result<(), AllocError>
    ensures ok { OnOk result (Grew (string_bytes out.old) (string_bytes out.new)) }
    ensures err { OnErr result (string_bytes out.new ≡ string_bytes out.old) }
{
    let mut text = String::new(alloc);
    append_request(request, &mut text)?;
    hand_over(text, out)
}

fn append_request(request: &TimeStampReq<'_>, text: &mut String) -> Result<(), AllocError> {
    append_first("kind", &"request", text)?;
    append_name("request", text)?;
    append_first("version", &request.version(), text)?;
    append_member("imprint", &request.message_imprint(), text)?;
    append_member("policy", &request.req_policy(), text)?;
    append_member("nonce", &request.nonce(), text)?;
    append_member("cert_req", &request.cert_req(), text)?;
    append_member("extensions", &request.extensions(), text)?;
    text.push_str("}}\n")
}
