//! The listing of a TimeStampReq (RFC 3161, section 2.4.1).
ghost use Rattle.std.specs.Prelude.{◌≡◌, OnOk, OnErr};
ghost use Rattle.std.specs.String.{string_bytes};
ghost use Rattle.cms_fields.specs.Writing.{Grew};

use crate::lines::{Lines, hand_over};
use crate::values::OctetCount;
use cms_tsp::TimeStampReq;
use std::alloc::{AllocError, Global};

/// Appends the listing of a request. An error means out of memory; `out` is then as it was.
pub fn list_request(
    alloc: Global,
    request: &TimeStampReq<'_>,
    out: &mut String,
) -> Result<(), AllocError>
    ensures ok { OnOk result (Grew (string_bytes out.old) (string_bytes out.new)) }
    ensures err { OnErr result (string_bytes out.new ≡ string_bytes out.old) }
{
    let mut text = String::new(alloc);
    append_request(request, &mut text)?;
    hand_over(text, out)
}

fn append_request(request: &TimeStampReq<'_>, text: &mut String) -> Result<(), AllocError> {
    let mut lines = Lines::new("", text);
    lines.field("kind", &"request")?;
    lines.field("version", &request.version())?;
    lines.field("imprint", &request.message_imprint())?;
    lines.field("policy", &request.req_policy())?;
    lines.field("nonce", &request.nonce())?;
    lines.field("cert-req", &request.cert_req())?;
    lines.field("extensions", &request.extensions().map(OctetCount::of))
}
